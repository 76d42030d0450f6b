//! The grammar of a TransactionEventRequest, and the laws that tie it to what a text means.
//!
//! The definitions of `transaction_event` check members one after the other and say which fault comes first. The
//! grammar here says, in the words of the schema (TransactionEventRequest, OCPP 2.0.1 Part 2, block E), which members an
//! event has, which may be absent, of which types and lengths they are, and which event they mean.
//!
//! The crate's contract: each function has no parameters and does nothing. What it ensures holds for all texts. No
//! crate needs these functions to run.
#![tactic(auto)]

mod laws;

pub use laws::{event_payloads, event_texts};
