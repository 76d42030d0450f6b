use ledger_model::Name;
use station_ledger::UsedLimits;
use std::sync::Wait;
use std::time::Clock;

/// Its calls come when a desk holds a station, when a command there has its answer, and when a session has answered a
/// call. They may wait, as a test's gate does that holds a station back; nothing else is expected of them.
pub trait Gate {
    /// A submitted command has its station's lock, and not yet that of its site's book.
    fn held<R: Wait + Clock>(&self, rt: &R, station: &Name);

    /// A submitted command has its answer; the station, whose lock is still held, uses so much of its limits.
    fn settled(&self, used: UsedLimits);

    /// A session has answered the call of this number, counted from 1.
    fn after<R: Wait + Clock>(&self, rt: &R, station: &Name, call: u64);
}

/// A gate that does nothing.
#[derive(Clone, Copy)]
pub struct NoGate;

impl Gate for NoGate {
    fn held<R: Wait + Clock>(&self, _rt: &R, _station: &Name) {}

    fn settled(&self, _used: UsedLimits) {}

    fn after<R: Wait + Clock>(&self, _rt: &R, _station: &Name, _call: u64) {}
}
