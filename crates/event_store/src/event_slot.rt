use key_index::IndexKey;
use ledger_model::{EvseId, Kind, Moment};

/// What a slot keeps of an event: all but its readings, and where these begin and end. Memory has the fields in this
/// order, so the small ones are together.
#[derive(Clone, Copy)]
pub struct EventSlot {
    pub(crate) key: IndexKey,
    pub(crate) moment: Moment,
    // The slots of its first reading and of its last one, if it has any.
    pub(crate) first: u32,
    pub(crate) last: u32,
    pub(crate) count: u16,
    pub(crate) kind: Kind,
    pub(crate) evse: Option<EvseId>,
    pub(crate) voided: bool,
}
