use ledger_model::{EvseId, Kind};

/// Whether there is room for an event under a new key; if not, the first limit that is reached.
#[derive(Clone, Copy, PartialEq, Eq)]
pub enum Room {
    /// There is room.
    Fits,
    /// Its transaction is new, and no more may be stored.
    NoTransaction,
    /// No more events may be stored.
    NoEvent,
    /// It has more readings than may still be stored.
    NoReading,
}

/// How an event is stored.
#[derive(Clone, Copy, PartialEq, Eq)]
pub enum Found {
    /// It counts.
    Live,
    /// It is kept, and does not count.
    Voided,
}

/// A summary of a transaction's live events.
#[derive(Clone, Copy, PartialEq, Eq)]
pub struct TxStanding {
    /// The lowest live number.
    pub first: Option<u32>,
    /// The highest live number.
    pub last: Option<u32>,
    /// The kind of the live event of the lowest number.
    pub first_kind: Option<Kind>,
    /// The kind of the live event of the highest number.
    pub last_kind: Option<Kind>,
    /// How many live events there are.
    pub live: u32,
    /// How many of them are Started or Ended.
    pub ends: u32,
    /// The EVSE that the transaction's lowest live event with an EVSE names, else 0.
    pub evse: EvseId,
}
