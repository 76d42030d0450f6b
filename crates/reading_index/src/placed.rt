use ledger_model::Reading;

/// A reading, with the sequence number of its event and its place there.
#[derive(Clone, Copy)]
pub struct PlacedReading {
    /// The sequence number of its event, 0 to 2,147,483,647.
    pub number: u32,
    /// Its place among the event's readings of its direction, in the order sent: the first has 0.
    pub place: usize,
    /// The reading.
    pub reading: Reading,
}
