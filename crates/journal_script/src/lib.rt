//! Journals as scripts, and scripts that are restored.
//!
//! [`laws`] says which contents stations have after the text of a journal's entries is read behind a script, whole or
//! cut at any byte, and that the boards which `replay` then writes are those of the stations. [`MessageLine`] is
//! the line of a message, which asks for the message's delivery whenever it is read, [`receipt_note`] the comment in
//! front of a line, and [`journal_head`] the front of a journal, which declares a plan. [`restore`] reads a script up to a
//! `#` and the line `listen`, and returns its stations with the contents that it leads to.
#![tactic(auto)]

mod fault;
mod head;
pub mod laws;
mod left_out;
mod lines;
mod receipt;
mod restored;
mod restored_script;
mod restoring;
mod source;

pub use fault::RestoreFault;
pub use head::{are_in_order, journal_head, run_head};
pub use left_out::RUN_LINE;
pub use lines::{MessageLine, is_script_line};
pub use receipt::{RECEIPT_BYTES, receipt_note};
pub use restored::Restored;
pub use restoring::restore;
