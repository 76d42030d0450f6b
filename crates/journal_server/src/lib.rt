//! A live server that writes a journal: the line of each accepted change.
//!
//! [`serve_journalled`] serves a plan's stations by [`live_server`], over a desk with a journal
//! ([`KeptDesk`](kept_desk::KeptDesk)): it writes the line of a change before the answer goes out. The journal is a
//! script: a comment, the plan's declarations, and one line for each accepted change; in front of each line may be a
//! comment with the time of its receipt. [`serve_restored`] begins with such a script, up to the line `listen`, and
//! goes on behind it. While its operator sends no line, it looks whether the journal can still be written, and ends if
//! not. A server without a journal is the same server with a journal that is written nowhere: [`serve_live`], and
//! [`simulate`] for simulated stations.
//!
//! The crate's contract ([`Served`], `IsItsScript` of `specs/Served.antt`): the boards that a server writes at its end
//! are the answers to `board <site>` behind one script, which is what it read and wrote. Behind its front that script
//! is the text of one list of lines. Each line was accepted at the content to which the earlier lines of its station
//! lead. Each station's own lines lead to its content, and its passes counted as many accepted answers as it has lines.
//! The console took the lines of the ports and the answers to its operator's lines (`IsToldOf`): each answer to a
//! message or a command, but ChangesExhausted, is the ledger's behind a front of that list, and a board is that of such
//! a front. So are the moments of stations' answers and of boards in browsers. Tests show that lines are out before
//! their replies, and what is left after a kill.
//!
//! ```text
//! serve_journalled(rt, &plan, journalling, stdin, stdout, stderr, lines)?    // standard output is the journal
//! serve_restored(rt, restoring, stdin, stdout, stderr, lines)?             // standard input begins with a journal
//! ```
#![tactic(auto)]

mod fault;
mod run;
mod serve;
mod serving;
mod simulation;

pub use fault::JournalFault;
pub use run::Served;
pub use serve::{Journalling, Restoring, serve_journalled, serve_live, serve_restored};
pub use simulation::{MAX_SIMULATED_EVENTS, simulate};
