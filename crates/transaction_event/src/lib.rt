//! OCPP 2.0.1 messages of a charging station, as events of the ledger and as replies.
//!
//! [`message_of`] takes a station's text and the moment, and gives what the text asks for: an event to deliver with its
//! [`Key`](ledger_model::Key) (a TransactionEventRequest, OCPP 2.0.1 Part 2, block E), a ready reply (BootNotification,
//! Heartbeat, StatusNotification, MeterValues, and every fault), or silence for an answer. [`read_message`] does the
//! same with a buffer that the caller lends for the reply. [`event_reply`] writes the reply to an event by the ledger's
//! answer. [`event_of`] reads only a payload, and borrows from its tree; only the list of readings takes memory.
//!
//! The crate's contract: the function `message` of `specs/Message.antt` says what a text means at a moment,
//! from the frame that the text is. `event_reading` of `specs/Request.antt` says what a payload means,
//! member by member in the order of the checks; the first fault is reported. Both calls give just that, in
//! both directions, except that a lack of memory has a reply of its own.
//!
//! ```text
//! message_of(alloc, r#"[2,"a","Heartbeat",{}]"#, now)
//!     // Reply: [3,"a",{"currentTime":"2026-03-01T10:00:00Z"}]
//! message_of(alloc, r#"[2,"a","TransactionEvent",{"eventType":"Started", ..}]"#, now)
//!     // Event { id: "a", key, event, token: false }
//! event_reply("a", false, &Answer::Accepted(1))      // [3,"a",{}]
//! ```
#![tactic(auto)]

mod delivery;
mod fault;
mod integer;
mod laws;
mod member;
mod message;
mod meter;
mod readings;
mod reply;
mod request;
mod request_members;
mod sampled;
mod scale;
mod timestamp;

pub use delivery::Delivery;
pub use fault::PayloadFault;
pub use laws::{deliveries_are_admissible, deliveries_are_answered};
pub use message::{Asked, Message, message_of, read_message};
pub use reply::{event_reply, put_event_reply};
pub use request::event_of;
