/// What the table keeps of a transaction: its slot, how many live events it has, and how many of these
/// are Started or Ended.
#[derive(Clone, Copy)]
pub struct TableRow {
    /// The slot's number, which no other transaction of the table has.
    pub slot: u32,
    /// How many live events the transaction has.
    pub live: u32,
    /// How many of these are Started or Ended.
    pub ends: u32,
}
