//! An event to deliver, as a text has it.

use arrayvec::ArrayString;
use ledger_model::{Event, Key};

/// An event that a text asks to deliver. [`event_reply`](crate::event_reply) makes its reply from the
/// ledger's answer.
#[derive(Drop)]
pub struct Delivery {
    /// The id of the call, of at most 36 characters.
    pub id: ArrayString<144>,
    /// The event's key.
    pub key: Key,
    /// The event with its counted readings.
    pub event: Event,
    /// Whether the request had an `idToken`.
    pub token: bool,
}
