//! Sessions of charging stations over WebSocket.
//!
//! [`serve_connection`] takes one connection of a station. It answers the opening handshake (RFC 6455), lets
//! in the station that the path names ([`admit`]), and answers each text message in turn until the session
//! ends ([`serve_session`]). A live server greets its connections itself ([`greet`]), and an [`Attendant`] of
//! each session says whether the session is still wanted. The stream is anything that reads and writes.
//! [`answer_text`] answers one text of a station. A [`SimStation`] is the other side, to try a server of
//! stations: it sends one transaction and keeps the replies. It sends the first event, then the others from
//! the last one down, as if they had been queued and came late, and then the first once more, as if its reply
//! had been lost.
//!
//! The crate's contract is that of `answer_text`: the answer is what the text means at the moment: a ready reply,
//! silence or, for an event, the reply to an answer that the desk can give to that event's delivery. A desk takes the
//! delivery, or anything else that [`Delivers`]. All memory is taken before that, so a message that found none changed
//! nothing. A session answers each text message that its socket reads, in order, and writes its reply before it reads on
//! (`IsAttended`). It gives its pass back, whatever ends it, with at most a million more changes, and hands on what the
//! desk returned with its answers. What the handshake saw decides whom a session lets in. Tests show the paths and the
//! close codes, and what a simulated station sends: its clauses only count texts and replies.
//!
//! ```text
//! answer_text(&desk, rt, alloc, &mut pass, text, now, &NoGate);      // Answered { text, outcome, seen, memory }
//! let end = serve_connection(rt, alloc, stream, &desk, &NoGate, &mut clock);
//! end.why == Why::PeerClosed                                         // end.pass goes to Desk::close
//! ```
#![tactic(auto)]

mod answer;
mod attendant;
mod delivers;
mod ending;
mod greeting;
mod moment;
mod request;
mod session;
mod sim;

pub use answer::{Answered, answer_text};
pub use attendant::{Attendant, Nobody};
pub use delivers::{Delivers, Ordered};
pub use ending::Why;
pub use greeting::{Greeted, greet, refuse};
pub use moment::{MomentSource, present};
pub use request::{Seen, admit};
pub use session::{Client, MAX_MESSAGES, SessionEnd, serve_connection, serve_session};
pub use sim::{SimFault, SimStation};
