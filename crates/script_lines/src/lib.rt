//! The lines of a script: how its bytes are cut into them, what each says, and the lines that answer.
//!
//! A script has one line for each step: a declaration, a message of a station, or an operator's command or question.
//! [`LineReader`] reads it line by line within limits, and flushes the output before it waits for more input.
//! [`read_line`] says what a line means, or which fault it has. [`put_line`], [`put_fault`], [`put_answer`],
//! [`put_delivered`] and [`put_ready`] make the answers, and [`write_bytes`] writes them. [`script_help`] is the help on
//! all lines. This crate knows no ledgers.
//!
//! The crate's contract: each line that is read is the next of those that the definition cuts the bytes into,
//! and its meaning is that of the definition `line_meaning`.
//!
//! ```text
//! read_line(Some(b"void CS-01 T1 1"))   // ScriptLine::Commands(CS-01, Command::Void(t1, 1))
//! read_line(Some(b"frob"))              // ScriptLine::Fails(LineFault::BadLine)
//! ```
#![tactic(auto)]

mod fault;
mod help;
mod line_reader;
mod script_line;
mod text;
mod write;

pub use fault::ReplayFault;
pub use line_reader::{LineEnd, LineReader, MAX_LINE_BYTES, without_return};
pub use script_line::{LineFault, Operation, ScriptLine, TxList, order_of, read_line, settle_of};
pub use text::{put_answer, put_delivered, put_fault, put_line, put_ready};
pub use write::{WriteStopped, write_bytes};
