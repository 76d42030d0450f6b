/// How much of each limit a station uses.
#[derive(Clone, Copy)]
pub struct UsedLimits {
    /// How many transactions have an event, live or voided.
    pub transactions: u32,
    /// How many events are stored, live and voided.
    pub events: u32,
    /// How many readings these have.
    pub readings: u32,
    /// How many changes were accepted.
    pub changes: u64,
}
