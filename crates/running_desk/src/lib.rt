//! A desk while it is served: passes that are used again, boards, and an operator's lines; and what each server is made
//! of: why it ended without its boards, the machine that it runs on with its inputs and outputs, the system's clock, the
//! port that it listens on, and the lines of a site's totals.
//!
//! A [`Running`] desk is the desk of a plan with a pool of passes ([`PassPool`]). A session puts its
//! pass into the pool at its end, and a later session of the same station takes it from there. So a station gives out
//! only as many passes as it needed at one time. An operator's line borrows a pass in the same way. The desk is anything
//! that [`Serves`]: a plain one, or one that keeps more. [`Running::operate`] answers an operator's lines, one after the other;
//! each answer is out before the next line is read.
//!
//! The crate's contract: [`Running::operate`] writes the answers to the lines that come, in their order, up to a line `close`
//! (`AddsReplies` of `specs/Replies.antt`). If the bytes of the reader are known, these lines are its lines. Each
//! answer is a replay's answer to the same line at contents that accepted commands reach (`IsReply` of
//! `specs/Replied.antt`). The answer to a command is the desk's answer to just that command, with a pass of the station
//! that the line names. A board is that of the site that the line names.
//!
//! ```text
//! let listener = listen(rt, port)?;
//! tell_port(&listener, "listening", &mut output)?;       // listening 127.0.0.1:9000
//! let running = Running::open(rt, alloc, &plan, &desk, passes);
//! running.operate(&mut input, &mut output)?;   // until the input ends or says `close`
//! let passes = running.into_passes();
//! ```
#![tactic(auto)]

mod attentive;
mod fault;
mod host;
mod moments;
mod operator;
mod orders;
mod pass_pool;
mod ports;
mod running;
mod serves;
mod totals;

pub use fault::ServiceFault;
pub use host::{Host, Input, Output, Sockets};
pub use moments::SystemMoments;
pub use orders::Came;
pub use pass_pool::PassPool;
pub use ports::{address_of, listen, tell_port};
pub use running::{Running, site_of};
pub use serves::{MayBreak, Seen, Serves};
pub use totals::tell_totals;
