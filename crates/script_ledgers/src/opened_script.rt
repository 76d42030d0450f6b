ghost use Rattle.std.specs.Prelude.{◌≡◌, ℕ, ◌<◌, ◌∷◌, [], All, length, map, true, OnOk, IfOk, None};
ghost use Rattle.site_book.specs.Tables.{HasTable, NamedBy};
ghost use Rattle.site_desk.{specs.Cell.{Cell, held, new_tally}, specs.Plan.plan_fault, specs.Roster.AreCellsOf};
ghost use Rattle.script_ledgers.{specs.Drafts.planned, specs.Running.{AreTheirPasses, IsRunning, posts_in, running}};

use crate::draft::Draft;
use crate::hints::StationHints;
use arrayvec::ArrayString;
use energy_flow::Work;
use site_book::{Naming, SiteBook, Tables};
use site_desk::{Parts, Pass, StationCell, Tally};
use std::alloc::{AllocError, Global};
use std::thread::Threads;

// A script with its ledgers opened: its plan, its stations' cells, its sites' books, and its moment.
#[derive(Drop)]
pub(crate) struct OpenedScript<J: Naming> {
    // The plan, and the last moment that the script gave.
    pub(crate) draft: Draft,
    // The cell of each station, in the plan's order.
    pub(crate) cells: Vec<StationCell>,
    // The book of each site, in the plan's order.
    pub(crate) books: Vec<SiteBook<J>>,
    // Hints of the numbers of stations.
    pub(crate) hints: StationHints,
    // The reply to the message at hand.
    pub(crate) text: ArrayString<512>,
    // The tally of the one pass of each station, in the plan's order.
    pub(crate) tallies: Vec<Tally>,
    pub(crate) alloc: Global,
    ghost running: { IsRunning draft.sites draft.stations cells.items books.items tallies.items },
}

impl<J: Naming> OpenedScript<J> {
    // Opens an empty ledger for each station of the plan, and a book for each site.
    //
    // Condition: the tables are those that J names, and each site has its own.
    pub(crate) fn open(alloc: Global, tables: Tables, draft: Draft) -> Result<Self, AllocError>
        requires named { NamedBy J.table tables }
        requires there { (site : ℕ) → site < length draft.sites → HasTable tables site }
        ensures script { IfOk result (λ l. running l.draft l.cells.items ≡ record (planned draft) { opened = true }) }
        ensures none { IfOk result (λ l. posts_in l.books.items ≡ 0) }
    {
        match Parts::open(alloc, tables, draft.plan()) {
            Ok(Parts { cells, books, .. }) => {
                let mut cells = cells.into_vec();
                let tallies = enlist_all(alloc, &mut cells)?;
                Ok(OpenedScript {
                    draft,
                    cells,
                    books: books.into_vec(),
                    hints: StationHints::new(),
                    text: ArrayString::new(),
                    tallies,
                    alloc,
                })
            }
            Err(_) => Err(AllocError),
        }
    }

    // The plan and the moment, and for each station, in the plan's order, its cell and the pass of all its changes.
    // The plan has no fault, and each cell is at its station's place in the plan.
    pub(crate) fn into_parts<X: AllocGlobal + Threads>(
        self,
        rt: &X,
    ) -> Result<(Draft, Vec<StationCell>, Vec<Pass>), AllocError>
        ensures draft { IfOk result (λ r. r.0 ≡ self.draft) }
        ensures cells { IfOk result (λ r. r.1.items ≡ self.cells.items) }
        ensures faultless { IfOk result (λ r. plan_fault r.0.sites r.0.stations ≡ None) }
        ensures placed { IfOk result (λ r. AreCellsOf r.0.sites r.0.stations r.1.items) }
        ensures passes { IfOk result (λ r. AreTheirPasses r.1.items r.2.items) }
    {
        let OpenedScript {
            draft,
            cells,
            books: _,
            hints: _,
            text: _,
            tallies,
            alloc: _,
        } = self;
        let passes = passes_of(rt, tallies)?;
        Ok((draft, cells, passes))
    }
}

// The tally of the first pass of each station.
fn enlist_all(alloc: Global, cells: &mut Vec<StationCell>) -> Result<Vec<Tally>, AllocError>
    requires { All (λ c. c.counts ≡ []) cells.old.items }
    ensures cells { OnOk result (cells.new.items ≡ map {A = Cell} (λ c. record c { counts = 0 ∷ [] }) cells.old.items) }
    ensures tallies { IfOk result (λ tallies. tallies.items ≡ map (λ c. new_tally c.station 0) cells.old.items) }
{
    let mut tallies = Vec::with_capacity(alloc, cells.len())?;
    for cell in cells.iter_mut() {
        tallies.push(cell.open_tally().unwrap())?;
    }
    Ok(tallies)
}

// The passes of these tallies, each with a count of looks of its own.
fn passes_of<X: AllocGlobal + Threads>(rt: &X, tallies: Vec<Tally>) -> Result<Vec<Pass>, AllocError>
    ensures { IfOk result (λ passes. passes.items ≡ map (λ t. held t 0) tallies.items) }
{
    let mut passes = Vec::with_capacity(rt.alloc(), tallies.len())?;
    for tally in tallies {
        passes.push(Pass::of(tally, Work::open(rt)))?;
    }
    Ok(passes)
}
