//! Replays a script of OCPP 2.0.1 traffic, line by line.
//!
//! [`replay_stream`] reads a script from any reader and writes the text of each line to any writer; [`replay_buffered`]
//! does so through a buffer and hands on all of its bytes. [`run_replay`] is a whole run of a program that replays:
//! from an input to an output, an exit status and a report on standard error. [`answer_script`] gives the text of a
//! script in memory and starts no threads. One definition says what they write: for
//! each of the five ways to end, which bytes were read and which were written (`specs/Outcome.antt`). The text of lines
//! is that of the crate below (`specs/Script.antt` of `script_ledgers`). [`laws`] says what that text means: boards,
//! totals and energies computed from scratch, sites as sums of their stations, repeats and refusals that change
//! nothing.
//!
//! ```text
//! replay_stream(&rt, &mut reader, &mut writer)?   // Ok(()): what was written is the text of what was read
//! ```
#![tactic(auto)]

mod answer;
mod buffers;
pub mod laws;
mod replay;
mod stream;
mod whole;

pub use answer::{AnswerFault, answer_script};
pub use buffers::buffered;
pub use script_ledgers::MAX_SCRIPT_BYTES;
pub use script_lines::{MAX_LINE_BYTES, ReplayFault};
pub use stream::{replay_buffered, replay_stream};
pub use whole::{Ended, MISTAKEN, Replayed, end_run, refuse, replay_whole, run_replay, show};
