ghost use Rattle.std.specs.Prelude.{◌≡◌, ◌≤◌};
ghost use Rattle.ledger_model.specs.Figures.{no_figures, AreWithin};

use ledger_model::{Figures, Limits};

// The row of one station: its ledger's limits, and the figures that were posted last.
#[derive(Clone, Copy)]
pub(crate) struct BookRow {
    pub(crate) limits: Limits,
    pub(crate) figures: Figures,
    pub(crate) ghost within: { AreWithin limits figures },
    pub(crate) ghost events: { limits.events ≤ 65_536 },
    pub(crate) ghost transactions: { limits.transactions ≤ 4_096 },
    pub(crate) ghost readings: { limits.readings ≤ 65_536 },
}

impl BookRow {
    // A row for which nothing was posted.
    pub(crate) fn new(limits: &Limits) -> Self
        ensures limits { result.limits ≡ limits.now }
        ensures figures { result.figures ≡ no_figures }
    {
        BookRow {
            // The range of limits bounds the sums over all rows.
            limits: limits.copied(),
            figures: Figures::zero(),
        }
    }
}
