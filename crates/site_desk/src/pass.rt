ghost use Rattle.std.specs.Prelude.{◌≡◌};
ghost use Rattle.site_desk.specs.Cell.{held};

use energy_flow::Work;
use std::marker::Model;

/// The count of one pass at its station's cell: how many changes were accepted with it. The cell counts the same. Who
/// takes commands without threads keeps tallies and lends a [`Work`] of its own ([`settle`](crate::settle)).
#[derive(Drop)]
pub struct Tally {
    pub(crate) station: u16,
    pub(crate) slot: usize,
    pub(crate) changes: u64,
}

impl Model for Tally {
    ghost use Rattle.site_desk.specs.Cell.{Tallied};

    ghost Value = { Tallied };

    ghost view = { λ t. record { station = t.station; slot = t.slot; changes = t.changes } };
}

impl Tally {
    /// The number of its station in the plan.
    pub fn station(&self) -> u16
        ensures { result ≡ self.now.station }
    {
        self.station
    }

    /// How many of its commands were accepted.
    pub fn changes(&self) -> u64
        ensures { result ≡ self.now.changes }
    {
        self.changes
    }
}

/// The right to send commands to one station: its tally, and the count of the looks at levels that its commands took.
#[derive(Drop)]
pub struct Pass {
    pub(crate) tally: Tally,
    pub(crate) work: Work,
}

impl Model for Pass {
    ghost use Rattle.site_desk.specs.Cell.{Held, held};

    ghost Value = { Held };

    ghost view = { λ p. held p.tally p.work };
}

impl Pass {
    /// The pass of this tally, with this count of looks.
    pub fn of(tally: Tally, work: Work) -> Self
        ensures { result ≡ held tally work }
    {
        Pass { tally, work }
    }

    /// The number of its station in the plan.
    pub fn station(&self) -> u16
        ensures { result ≡ self.now.station }
    {
        self.tally.station
    }

    /// How many of its commands were accepted.
    pub fn changes(&self) -> u64
        ensures { result ≡ self.now.changes }
    {
        self.tally.changes
    }
}
