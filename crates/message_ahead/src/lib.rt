//! TransactionEvents of lines still to come, read by threads of their own.
//!
//! A message means the same whenever it is read, unless its reply has the moment; so an event can be read before its
//! line is reached. [`Lookahead::look`] gets the bytes that come next. It cuts their lines into pieces and starts
//! threads. Each thread claims a piece, reads the events in it, hands them over, and claims the next. When a line is
//! reached, [`Lookahead::take`] gives its event if it was read by then: it only compares the line with the one that was
//! read. The caller waits for no thread. If the piece that it reaches is not read yet, it claims another and reads
//! that, as a thread would. If nobody has begun its own piece, or nothing is left to claim, it reads the line itself.
//! With one processor it reads everything itself. [`Lookahead::is_short`] says whether the allocator refused memory. Who
//! answers lines takes anything that is [`Ahead`]: a [`Lookahead`], or [`Alone`], which starts no threads.
//!
//! The crate's contract: an event that `take` gives is what its line sends, at any moment. No clause says
//! which events it gives, so the caller's answers are the same whatever the threads do.
#![tactic(auto)]

mod ahead;
mod chunk;
mod found_event;
mod lookahead;
mod pieces;
mod window;

pub use ahead::{Ahead, Alone};
pub use chunk::Chunk;
#[doc(hidden)]
pub use found_event::FoundEvent;
pub use found_event::SentEvent;
pub use lookahead::Lookahead;
#[doc(hidden)]
pub use pieces::Pieces;
