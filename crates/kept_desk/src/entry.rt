use ledger_model::Command;
use std::collections::LinkedList;

/// One entry of a journal, as contracts see it: a station's number, the bytes in front of its line, the bytes of the
/// line without its line feed, and the line's command. No value of it is ever made.
pub struct Entry {
    pub(crate) station: u16,
    pub(crate) note: LinkedList<u8>,
    pub(crate) line: LinkedList<u8>,
    pub(crate) command: Command,
}
