//! Frames of OCPP-J (OCPP 2.0.1 Part 4): texts of a station read into calls, and the texts of replies.
//!
//! A CALL is `[2,<id>,<action>,<payload>]`. [`read_frame`] takes a text and gives the [`Call`], silence for an answer
//! (CALLRESULT `[3,..]` or CALLERROR `[4,..]`), or the ready reply that reports the first failed check.
//! [`read_frame_into`] does the same with a buffer that the caller lends for the reply. [`result_text`] and
//! [`error_text`] write the replies to a call, without blanks.
//!
//! The crate's contract: the function `frame` of `specs/Frame.antt` says what a text asks for. It names the checks, in
//! their order, on the tree that the text is read into. `read_frame` gives just that, except that a lack of memory has
//! a reply of its own. A reply is, byte for byte, what `specs/Reply.antt` says, and always fits in 512 bytes.
//!
//! ```text
//! read_frame(alloc, r#"[2,"a","Heartbeat",{}]"#)   // Call: id "a", Heartbeat, an object
//! read_frame(alloc, r#"[3,"a",{}]"#)               // Silent
//! read_frame(alloc, r#"[2,"a","Nope",{}]"#)        // Reply: [4,"a","NotImplemented","UnknownAction",{}]
//! result_text("a", Body::Empty)                    // [3,"a",{}]
//! ```
#![tactic(auto)]

mod action;
mod body;
mod call;
mod error_code;
mod frame_fault;
mod incoming;
mod json_string;
pub mod laws;
mod message_id;
mod reply;
mod verdict;

pub use action::Action;
pub use body::Body;
pub use call::Call;
pub use error_code::ErrorCode;
pub use incoming::{Framed, Incoming, MAX_MESSAGE, read_frame, read_frame_into};
pub use message_id::{MAX_MESSAGE_ID, is_message_id};
pub use reply::{error_text, put_result, result_text};
