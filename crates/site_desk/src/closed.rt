ghost use Rattle.std.specs.Prelude.{◌≡◌, ◌<◌, length, Some, slice_get};
ghost use Rattle.ledger_model.{specs.Board.figures_by, specs.Content.entries, specs.Posts.totals_after};
ghost use Rattle.site_book.specs.Book.{Book};
ghost use Rattle.site_desk.{specs.Cell.Cell, specs.Parts.AreTied};

use crate::cell::StationCell;
use crate::desk::Desk;
use crate::fault::CloseFault;
use crate::pass::Pass;
use ledger_model::{Figures, Listed};
use site_book::{Naming, SiteBook, Viewer};
use station_ledger::StationLedger;
use std::marker::Model;

/// A desk that was closed: all ledgers, rows and totals, without locks, and the passes that were given out.
#[derive(Drop)]
pub struct Closed<J: Naming> {
    cells: Vec<StationCell>,
    books: Vec<SiteBook<J>>,
    passes: Vec<Pass>,
}

impl<J: Naming> Model for Closed<J> {
    ghost use Rattle.site_desk.specs.Close.{Ended, ended_code};

    ghost Value = { Ended };

    ghost coded = { ended_code };

    ghost use Rattle.site_desk.specs.Parts.{AreTied};

    ghost view = { λ c. record { cells = c.cells.items; books = c.books.items; passes = c.passes.items } };

    ghost invariant = { λ c. AreTied c.cells.items c.books.items };
}

impl<J: Naming> Closed<J> {
    /// The closed desk of what was under a desk's locks, and its passes.
    ///
    /// Condition: each cell's row is tied, as [`Desk::dismantle`] ensures.
    pub fn of(cells: Vec<StationCell>, books: Vec<SiteBook<J>>, passes: Vec<Pass>) -> Self
        requires { AreTied cells.items books.items }
        ensures { result ≡ record { cells = cells.items; books = books.items; passes = passes.items } }
    {
        Closed {
            cells,
            books,
            passes,
        }
    }

    /// How many stations it has.
    pub fn stations(&self) -> usize
        ensures { result ≡ length self.now.cells }
    {
        self.cells.len()
    }

    /// How many sites it has.
    pub fn sites(&self) -> usize
        ensures { result ≡ length self.now.books }
    {
        self.books.len()
    }

    /// The cells of all stations, in the plan's order.
    pub fn cells(&self) -> &[StationCell]
        ensures { result.now ≡ self.now.cells }
    {
        self.cells.as_slice()
    }

    /// The ledger of the station of this number.
    ///
    /// Condition: it has the station ([`Closed::stations`] tests it).
    pub fn ledger(&self, station: u16) -> &StationLedger
        requires { station < length self.now.cells }
        ensures { (c : Cell) → slice_get self.now.cells station ≡ Some c → result.now ≡ record { limits = c.limits; period = c.period; order = c.order; content = c.content } }
    {
        self.cells[station as usize].ledger()
    }

    /// The figures that the station's row shows: those of its ledger.
    ///
    /// Condition: it has the station ([`Closed::stations`] tests it).
    pub fn row(&self, station: u16) -> Figures
        requires { station < length self.now.cells }
        ensures { (c : Cell) → slice_get self.now.cells station ≡ Some c → result ≡ figures_by c.order (entries c.content) }
    {
        let cell = &self.cells[station as usize];
        self.books[cell.site() as usize].row(cell.row())
    }

    /// How many commands the station accepted.
    ///
    /// Condition: it has the station ([`Closed::stations`] tests it).
    pub fn changes(&self, station: u16) -> u64
        requires { station < length self.now.cells }
        ensures { (c : Cell) → slice_get self.now.cells station ≡ Some c → result ≡ c.content.changes }
    {
        self.cells[station as usize].ledger().changes()
    }

    /// The passes, as they were handed in. Each has its station's number and how many changes it
    /// made.
    pub fn into_passes(self) -> Vec<Pass>
        ensures { result.items ≡ self.passes }
    {
        self.passes
    }

    /// The totals of the site of this number.
    ///
    /// Condition: it has the site ([`Closed::sites`] tests it).
    pub fn totals(&self, site: u16) -> Figures
        requires { site < length self.now.books }
        ensures { (b : Book) → slice_get self.now.books site ≡ Some b → result ≡ totals_after b.posts }
    {
        self.books[site as usize].totals()
    }
}

/// A desk that was not closed, with the passes and viewers that were handed in; all is as it was.
#[derive(Drop)]
pub struct CloseRefused<J: Naming, C = StationCell> {
    /// The desk.
    pub desk: Desk<J, C>,
    /// The passes.
    pub passes: Listed<Pass>,
    /// The viewers.
    pub viewers: Listed<Viewer<J>>,
    /// Why it was not closed.
    pub fault: CloseFault,
}
