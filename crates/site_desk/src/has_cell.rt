ghost use Rattle.std.specs.Prelude.{◌≡◌, IfOk, length};
ghost use Rattle.site_desk.specs.Cell.{new_pass};

use crate::cell::{StationCell, enlist_cell};
use crate::fault::TooManyPasses;
use crate::pass::Pass;
use std::thread::Threads;

/// What a desk keeps behind a station's lock: the station's cell, by itself or with what belongs to
/// it.
pub trait HasCell: Drop {
    ghost use Rattle.site_desk.specs.Cell.{Cell};

    ghost cell: { Self → Cell };

    /// The cell.
    fn cell(&self) -> &StationCell
        ensures { result.now ≡ cell self.now };

    /// Gives out one more pass of the station, if it may ([`enlist_cell`]).
    fn enlist<R: Threads>(&mut self, rt: &R) -> Result<Pass, TooManyPasses>
        ensures { IfOk result (λ p. p ≡ new_pass (cell self.old).station (length (cell self.old).counts)) };
}

impl HasCell for StationCell {
    ghost cell = { λ c. c };

    fn cell(&self) -> &StationCell {
        self
    }

    fn enlist<R: Threads>(&mut self, rt: &R) -> Result<Pass, TooManyPasses> {
        enlist_cell(rt, self)
    }
}
