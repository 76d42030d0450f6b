//! The desk that a live server serves.
ghost use Rattle.std.specs.Prelude.{◌≡◌, Some, slice_get};

use energy_flow::Work;
use ledger_model::{Answer, Command, Figures, Name};
use site_desk::{BoardFault, Desk, HasCell, Pass};
use station_ledger::StationBoard;
use station_link::Delivers;
use std::alloc::Global;
use std::sync::Wait;
use std::time::Clock;

/// A desk that may at some time stop accepting changes for good; a server then ends.
pub trait MayBreak {
    /// Returns whether it has stopped accepting changes. It waits for nobody.
    fn is_broken(&self) -> bool;
}

/// The boards of a site's stations, the sums of their figures, and what was seen of the journal then (M).
pub type Seen<M> = (Vec<(Name, StationBoard)>, Figures, M);

/// A desk that a live server serves: it takes what stations send and what an operator commands, and makes the boards of
/// its sites. With the boards of a site it returns what it saw of its journal then; `shows` is what that says of the
/// boards.
pub trait Serves: Delivers + MayBreak {
    /// What is behind a station's lock.
    type Cell: HasCell + Send;

    ghost use Rattle.std.specs.Prelude.{◌≡◌, ℕ, List, Some, IfOk, map, slice_get};
    ghost use Rattle.ledger_model.specs.Board.{Board, sum_of_figures};
    ghost use Rattle.script_lines.{specs.LineMeaning.{commands, line_meaning}, specs.Lines.line_bytes};
    ghost use Rattle.site_desk.{specs.declared.roster.StationPlace.StationPlace, specs.Roster.{IsNamed, Roster}, specs.Operator.{AreBoardsAt, site_looks}};
    ghost use Rattle.station_ledger.specs.Quarters.{IsWork};
    ghost use Rattle.station_link.specs.Answer.{IsGivenAt, IsSettled};

    ghost roster: { Self → Roster };

    ghost shows: { Self → ℕ → List (List ℕ × Board) → Self.Seen → Type 0 };

    /// The desk, for its boards and totals.
    fn desk(&self) -> &Desk<Self::Names, Self::Cell>
        ensures desk { result.now ≡ roster self.now }
        ensures stations { result.now.stations ≡ Self.stations self.now };

    /// Takes an operator's command with a pass of the station of this name and returns the answer,
    /// as [`Desk::submit`](site_desk::Desk::submit) does.
    ///
    /// Conditions: the pass belongs to that station, and the line is the operator's line with the
    /// command.
    fn command<R: Wait + Clock>(
        &self,
        rt: &R,
        pass: &mut Pass,
        name: &Name,
        what: Command,
        line: Option<&[u8]>,
    ) -> (Answer, Option<Self::Seen>)
        requires named { IsNamed (roster self.now).stations name.now pass.old.station }
        requires line { line_meaning (line_bytes line) ≡ commands name.now what }
        ensures settled { (at : StationPlace) → slice_get (roster self.now).stations pass.old.station ≡ Some at → IsSettled at pass.old what result.0 pass.new }
        ensures given { IsGivenAt Self.gives (roster self.now).stations pass.old.station what result.0 result.1 };

    /// The boards of the stations of the site of this number, as [`Desk::site_boards`](site_desk::Desk::site_boards)
    /// gives them, with the looks that they take.
    fn boards<R: Wait>(
        &self,
        rt: &R,
        alloc: Global,
        site: u16,
        work: &mut Work,
    ) -> Result<Seen<Self::Seen>, BoardFault>
        ensures work { IsWork (site_looks (roster self.now).stations site) work.old work.new }
        ensures boards { IfOk result (λ r. AreBoardsAt (roster self.now).stations site r.0.items) }
        ensures totals { IfOk result (λ r. r.1 ≡ sum_of_figures (map (λ s. s.1.figures) r.0.items)) }
        ensures shown { IfOk result (λ r. shows self.now site r.0.items r.2) };
}
