use ledger_model::Name;

/// A line of a journal, without its line feed. A message's line is not put together before it is written.
#[derive(Clone, Copy)]
pub enum Line<'a> {
    /// These bytes.
    Bytes(&'a [u8]),
    /// `msg <name> <text>`: this text of the station of this name.
    Message(&'a Name, &'a str),
}
