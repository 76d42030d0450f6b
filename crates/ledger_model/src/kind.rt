/// What a transaction event reports: its transaction started, went on or ended
/// (TransactionEventRequest, OCPP 2.0.1 Part 2, block E).
#[derive(Clone, Copy, PartialEq, Eq)]
pub enum Kind {
    /// The transaction started.
    Started,
    /// The transaction went on.
    Updated,
    /// The transaction ended.
    Ended,
}
