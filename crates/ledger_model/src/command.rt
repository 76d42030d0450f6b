ghost use Rattle.std.specs.Prelude.{◌≡◌};

use crate::{Event, Key};

/// What one station's ledger may be asked to do (this product's profile).
#[derive(Drop)]
pub enum Command {
    /// Store an event that the station sent; it counts.
    Deliver(Key, Event),
    /// Leave a live event out of all totals, but keep it stored.
    Void(Key),
    /// Count a voided event again.
    Restore(Key),
    /// Remove a voided event; its key and its room are free.
    Erase(Key),
}

impl Command {
    ghost use Rattle.ledger_model.specs.Admissible.{IsAdmissible, key_of};

    /// Its parts are in range, as their types guarantee. The call does nothing; callers cite it for that
    /// fact.
    pub fn keeps_ranges(&self)
        ensures { IsAdmissible self.now }
    {
        let _ = self.key();
    }

    /// The key of the event that the command is about.
    pub fn key(&self) -> &Key
        ensures value { result.now ≡ key_of self.now }
        ensures admissible { IsAdmissible self.now }
    {
        match self {
            Command::Deliver(key, event) => {
                key.keeps_ranges();
                event.keeps_ranges();
                key
            }
            Command::Void(key) | Command::Restore(key) | Command::Erase(key) => {
                key.keeps_ranges();
                key
            }
        }
    }
}
