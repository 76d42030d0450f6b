ghost use Rattle.std.{specs.Prelude.{◌≡◌, ◌≢◌, ◌↔◌, ℕ, ◌<◌, All, length, map, IfOk, IfErr, IfSome, OnOk, None, Some, false, is_some, nat_lt, slice_get, vec_len}, specs.List.list_any, specs.Str.bytes_eq};
ghost use Rattle.ledger_model.{specs.declared.answer.Answer.Answer, specs.declared.answer.Refusal.Refusal, specs.Board.sum_of_figures};
ghost use Rattle.site_book.specs.Tables.{HasTable, NamedBy};
ghost use Rattle.station_ledger.specs.Quarters.{IsWork};
ghost use Rattle.site_desk.{specs.declared.fault.BoardFault.BoardFault, specs.declared.fault.CloseFault.CloseFault, specs.declared.fault.DeskFault.DeskFault, specs.declared.fault.EnlistFault.EnlistFault, specs.declared.roster.StationPlace.StationPlace, specs.Close.{IsClosable, Saw}, specs.Parts.{AreTied, new_viewers}, specs.Plan.plan_fault, specs.Roster.{AreNewPlaces, IsNamed}, specs.Operator.{AreBoardsAt, AreNotedBoards, AreTotalsOfName, IsListingOfName, named_looks, site_looks}, specs.Submit.{IsBoardOfName, IsUnchanged, Submitted}};

use crate::cell::StationCell;
use crate::checks::fault_of;
use crate::closed::{CloseRefused, Closed};
use crate::fault::{BoardFault, DeskFault, EnlistFault};
use crate::gate::Gate;
use crate::has_cell::HasCell;
use crate::locks::{Locked, Spare, give_back_viewers, lock_up, unlock};
use crate::notes::Notes;
use crate::operator::{
    hold_stations, listing_of, noted_boards_of, site_boards_of, sum_of, totals_of,
};
use crate::parts::Parts;
use crate::pass::Pass;
use crate::plan::Plan;
use crate::roster::{Located, StationPlace, number_of, open_places};
use crate::settles::{AtCell, Settles};
use crate::submit::{board_of, stands_at};
use energy_flow::{Flow, Work};
use ledger_model::{Answer, Command, Figures, Listed, Name, Refusal, TxId};
use site_book::{Naming, SiteBook, Tables, Told, Viewer};
use station_ledger::{StationBoard, TxListing};
use std::alloc::{AllocError, Global};
use std::marker::Model;
use std::sync::{Mutex, Wait};
use std::thread::Threads;
use std::time::Clock;

/// The stations and sites of a plan, each station and each site's book behind a lock of its own, the
/// station's taken first. Behind a station's lock is its cell, by itself or with what belongs to it
/// (C). Contracts see the place of each station in the plan, how many sites there are, and how many
/// viewers were given out.
#[derive(Drop)]
pub struct Desk<J: Naming, C = StationCell> {
    places: Vec<StationPlace>,
    viewers: usize,
    cells: Vec<Locked<C>>,
    books: Vec<Locked<SiteBook<J>>>,
    spare: Mutex<Spare<J, C>>,
}

impl<J: Naming, C> Model for Desk<J, C> {
    ghost use Rattle.site_desk.specs.Roster.{Roster};

    ghost Value = { Roster };

    ghost use Rattle.std.specs.Prelude.{vec_len};
    ghost use Rattle.site_desk.specs.Roster.{IsDesk};

    ghost view = { λ d. record { stations = d.places.items; sites = vec_len d.books; viewers = d.viewers } };

    ghost invariant = { λ d. IsDesk d.places.items (vec_len d.cells) (vec_len d.books) };
}

impl<J: Naming> Desk<J, StationCell> {
    /// The desk of a plan without events, and its viewers, each with its site's number, site by
    /// site. Faults are those of [`Parts::open`]; a refusal drops the tables.
    ///
    /// Condition: the tables are those that J names, and each site has its own, as
    /// [`Tables::make`](site_book::Tables::make) gives them.
    pub fn open(
        alloc: Global,
        tables: Tables,
        plan: &Plan,
    ) -> Result<(Self, Vec<(u16, Viewer<J>)>), DeskFault>
        requires named { NamedBy J.table tables }
        requires there { (site : ℕ) → site < length plan.now.sites.items → HasTable tables site }
        ensures limits { (result ≡ Err DeskFault.PlanLimit) ↔ (plan_fault plan.now.sites.items plan.now.stations.items ≡ Some DeskFault.PlanLimit) }
        ensures twice { (result ≡ Err DeskFault.StationTwice) ↔ (plan_fault plan.now.sites.items plan.now.stations.items ≡ Some DeskFault.StationTwice) }
        ensures stations { IfOk result (λ r. AreNewPlaces plan.now.sites.items plan.now.stations.items r.0.stations) }
        ensures sites { IfOk result (λ r. r.0.sites ≡ length plan.now.sites.items) }
        ensures viewers { IfOk result (λ r. r.1.items ≡ new_viewers 0 plan.now.sites.items) }
        ensures given { IfOk result (λ r. r.0.viewers ≡ length r.1.items) }
    {
        match Parts::open(alloc, tables, plan) {
            Err(fault) => Err(fault),
            Ok(parts) => match lock_parts(alloc, plan, parts) {
                Ok(desk) => Ok(desk),
                Err(_) => Err(DeskFault::OutOfMemory),
            },
        }
    }

    /// Takes a command of a pass under the station's lock, and returns the answer. If it is accepted, the station's
    /// new figures are posted under its site's lock too, and a `Told` of the book comes with the answer. Any other
    /// answer changes nothing and waits for no other station. `ChangesExhausted` also answers a pass of no station
    /// of this desk. It answers, too, if what is behind the locks is not as it should be, which no run with fewer
    /// than 2^62 accepted changes of a site meets.
    pub fn submit<G: Gate, R: Wait + Clock>(
        &self,
        rt: &R,
        pass: &mut Pass,
        command: Command,
        gate: &G,
    ) -> (Answer, Option<Told<J>>)
        ensures settled { (at : StationPlace) → slice_get self.now.stations pass.old.station ≡ Some at → Submitted at pass.old command result.0 pass.new result.1 }
        ensures stranger { slice_get self.now.stations pass.old.station ≡ None → (result.0 ≡ Answer.Refused Refusal.ChangesExhausted) × IsUnchanged pass.old pass.new result.1 }
    {
        let (answer, told, _none) = self.submit_by(rt, pass, command, gate, &AtCell);
        (answer, told)
    }

    /// Closes the desk. It moves all values out of their locks and compares them, and only then gives
    /// anything up; it takes no memory. The caller hands in all passes and viewers that were given out.
    /// A missing one is a fault, passes first; values that don't fit together are `Torn`.
    pub fn close(
        self,
        passes: Vec<Pass>,
        viewers: Vec<Viewer<J>>,
    ) -> Result<Closed<J>, CloseRefused<J>>
        ensures stations { IfOk result (λ s. length s.cells ≡ length self.stations) }
        ensures sites { IfOk result (λ s. length s.books ≡ self.sites) }
        ensures whole { IfOk result (λ s. IsClosable self.stations self.viewers s.cells s.books passes.items viewers.items) }
        ensures kept { IfOk result (λ s. s.passes ≡ passes.items) }
        ensures seen { IfOk result (λ s. All (Saw s.books) viewers.items) }
        ensures viewer { IfErr result (λ r. r.fault ≡ CloseFault.ViewerMissing → length viewers.items ≢ self.viewers) }
        ensures desk { IfErr result (λ r. r.desk ≡ self) }
        ensures passes { IfErr result (λ r. r.passes ≡ passes.items) }
        ensures viewers { IfErr result (λ r. r.viewers ≡ viewers.items) }
    {
        match self.dismantle(passes, viewers) {
            Ok((cells, books, passes)) => Ok(Closed::of(cells, books, passes)),
            Err(refused) => Err(refused),
        }
    }
}

impl<J: Naming, C: HasCell> Desk<J, C> {
    /// The desk of a plan over the values for its locks, in the plan's order; `viewers` viewers were
    /// given out. It takes memory for the locks; the error says that there is none.
    ///
    /// Conditions: the plan has no fault ([`Plan::fault`] tests it), and each station has its cell and
    /// each site its book, as [`Parts::open`] gives them.
    pub fn over(
        alloc: Global,
        plan: &Plan,
        mut free_cells: Vec<C>,
        mut free_books: Vec<SiteBook<J>>,
        viewers: usize,
    ) -> Result<Self, AllocError>
        requires faultless { plan_fault plan.now.sites.items plan.now.stations.items ≡ None }
        requires cells { vec_len free_cells ≡ length plan.now.stations.items }
        requires books { vec_len free_books ≡ length plan.now.sites.items }
        ensures stations { IfOk result (λ d. AreNewPlaces plan.now.sites.items plan.now.stations.items d.stations) }
        ensures sites { IfOk result (λ d. d.sites ≡ length plan.now.sites.items) }
        ensures given { IfOk result (λ d. d.viewers ≡ viewers) }
    {
        let places = open_places(alloc, plan.sites.as_slice(), plan.stations.as_slice())?;
        let spare = Spare::open(alloc)?;
        let mut cells = Vec::with_capacity(alloc, plan.stations.len())?;
        let mut books = Vec::with_capacity(alloc, plan.sites.len())?;
        lock_up(&mut free_cells, &mut cells);
        lock_up(&mut free_books, &mut books);
        Ok(Desk {
            places,
            viewers,
            cells,
            books,
            spare: Mutex::new(spare),
        })
    }

    /// How many stations it has.
    pub fn stations(&self) -> usize
        ensures { result ≡ length self.now.stations }
    {
        self.places.len()
    }

    /// A new pass of the station of this name. The call waits for the station's lock. Errors:
    /// `UnknownStation`, `TooManyPasses`.
    pub fn enlist<R: Wait + Threads>(&self, rt: &R, name: &Name) -> Result<Pass, EnlistFault>
        ensures unknown { (result ≡ Err EnlistFault.UnknownStation) ↔ (list_any (λ p. bytes_eq name.now p.name) self.now.stations ≡ false) }
        ensures station { IfOk result (λ p. IsNamed self.now.stations name.now p.station) }
        ensures changes { IfOk result (λ p. p.changes ≡ 0) }
    {
        let Some(number) = number_of(&self.places, name) else {
            return Err(EnlistFault::UnknownStation);
        };
        let lock: &Mutex<C> = &self.cells[number];
        let mut held = lock.lock(rt);
        if held.cell().station() as usize != number {
            return Err(EnlistFault::TooManyPasses);
        }
        match held.enlist(rt) {
            Ok(pass) => Ok(pass),
            Err(_) => Err(EnlistFault::TooManyPasses),
        }
    }

    /// Takes a command of a pass under the station's lock and returns the answer, as [`Desk::submit`]
    /// does, but settles it in the given way. The way's receipt comes with the answer.
    ///
    /// Condition: what the way asks of the command on the pass's station, if the desk has that
    /// station.
    pub fn submit_by<G: Gate, S: Settles<J, C, N>, N, R: Wait + Clock>(
        &self,
        rt: &R,
        pass: &mut Pass,
        command: Command,
        gate: &G,
        way: &S,
    ) -> (Answer, Option<Told<J>>, Option<N>)
        requires { (at : StationPlace) → slice_get self.now.stations pass.old.station ≡ Some at → S.asks way.now pass.old.station command }
        ensures settled { (at : StationPlace) → slice_get self.now.stations pass.old.station ≡ Some at → Submitted at pass.old command result.0 pass.new result.1 }
        ensures given { (at : StationPlace) → slice_get self.now.stations pass.old.station ≡ Some at → S.gives way.now pass.old.station at command result.0 result.1 result.2 }
        ensures stranger { slice_get self.now.stations pass.old.station ≡ None → (result.0 ≡ Answer.Refused Refusal.ChangesExhausted) × IsUnchanged pass.old pass.new result.1 }
        ensures nothing { slice_get self.now.stations pass.old.station ≡ None → result.2 ≡ None }
    {
        let number = pass.station() as usize;
        let Some(place) = self.places.get(number) else {
            return (Answer::Refused(Refusal::ChangesExhausted), None, None);
        };
        let lock: &Mutex<C> = &self.cells[number];
        let mut held = lock.lock(rt);
        gate.held(rt, &place.name);
        let book: &Mutex<SiteBook<J>> = &self.books[place.site as usize];
        let at = Located { number, place };
        let settled = way.settle(rt, &mut held, book, at, pass, command);
        gate.settled(held.cell().ledger().used_limits());
        settled
    }

    /// The board of the station of this name. It waits for the station's lock. Errors:
    /// `UnknownStation`, `OutOfMemory`, `Torn`. `Torn` means that another station's cell is there,
    /// which no run of these calls meets. `work` counts the looks at levels: at most one for each
    /// reading that the station may store if its site settles evenly, else none.
    pub fn station_board<R: Wait>(
        &self,
        rt: &R,
        alloc: Global,
        name: &Name,
        work: &mut Work,
    ) -> Result<StationBoard, BoardFault>
        ensures work { IsWork (named_looks self.now.stations name.now) work.old work.new }
        ensures unknown { (result ≡ Err BoardFault.UnknownStation) ↔ (list_any (λ p. bytes_eq name.now p.name) self.now.stations ≡ false) }
        ensures board { IfOk result (IsBoardOfName self.now.stations name.now) }
    {
        let Some(number) = number_of(&self.places, name) else {
            return Err(BoardFault::UnknownStation);
        };
        let lock: &Mutex<C> = &self.cells[number];
        let held = lock.lock(rt);
        let cell = held.cell();
        if !stands_at(cell, number, &self.places[number]) {
            return Err(BoardFault::Torn);
        }
        match board_of(cell, alloc, work) {
            Ok(board) => Ok(board),
            Err(_) => Err(BoardFault::OutOfMemory),
        }
    }

    /// The events and readings of a transaction of the station of this name, all of one moment. It waits for the
    /// station's lock. Errors: `UnknownStation`, `OutOfMemory`, `Torn`. `Torn` means that another station's cell is
    /// there, which no run of these calls meets.
    pub fn station_listing<R: Wait>(
        &self,
        rt: &R,
        alloc: Global,
        name: &Name,
        tx: &TxId,
    ) -> Result<TxListing, BoardFault>
        ensures unknown { (result ≡ Err BoardFault.UnknownStation) ↔ (list_any (λ p. bytes_eq name.now p.name) self.now.stations ≡ false) }
        ensures listing { IfOk result (IsListingOfName self.now.stations name.now tx.now) }
    {
        let Some(number) = number_of(&self.places, name) else {
            return Err(BoardFault::UnknownStation);
        };
        let lock: &Mutex<C> = &self.cells[number];
        let held = lock.lock(rt);
        let there = held.cell();
        if !stands_at(there, number, &self.places[number]) {
            return Err(BoardFault::Torn);
        }
        match listing_of(there, alloc, tx) {
            Ok(listing) => Ok(listing),
            Err(_) => Err(BoardFault::OutOfMemory),
        }
    }

    /// The number of the station of this name in the plan, if there is the station.
    pub fn number(&self, name: &Name) -> Option<u16>
        ensures known { is_some result ≡ list_any (λ p. bytes_eq name.now p.name) self.now.stations }
        ensures named { IfSome result (IsNamed self.now.stations name.now) }
    {
        match number_of(&self.places, name) {
            Some(number) => Some(number as u16),
            None => None,
        }
    }

    /// The name of the station of this number in the plan, if there is the station.
    pub fn name_of(&self, station: u16) -> Option<&Name>
        ensures known { is_some result ≡ nat_lt station (length self.now.stations) }
        ensures named { IfSome result (λ name. IsNamed self.now.stations name.now station) }
    {
        match self.places.get(station as usize) {
            Some(place) => Some(&place.name),
            None => None,
        }
    }

    /// The figures of the station of this name, and its imported and exported energy, all of one moment. It waits for
    /// the station's lock. Errors: `UnknownStation`, `Torn`. `Torn` means that another station's cell is there, which
    /// no run of these calls meets.
    pub fn station_totals<R: Wait>(
        &self,
        rt: &R,
        name: &Name,
    ) -> Result<(Figures, Flow, Flow), BoardFault>
        ensures unknown { (result ≡ Err BoardFault.UnknownStation) ↔ (list_any (λ p. bytes_eq name.now p.name) self.now.stations ≡ false) }
        ensures totals { IfOk result (λ t. AreTotalsOfName self.now.stations name.now t.0 t.1 t.2) }
    {
        let Some(number) = number_of(&self.places, name) else {
            return Err(BoardFault::UnknownStation);
        };
        let lock: &Mutex<C> = &self.cells[number];
        let held = lock.lock(rt);
        let own = held.cell();
        if !stands_at(own, number, &self.places[number]) {
            return Err(BoardFault::Torn);
        }
        Ok(totals_of(own))
    }

    /// The boards of the stations of the site of this number, in the plan's order and each with the
    /// station's name, and the sums of their figures, all of one moment. It waits for the locks of these
    /// stations in the plan's order, then for that of the site's book, and holds them all. Errors:
    /// `OutOfMemory`, `Torn`. It answers `Torn` for a site that the desk doesn't have, and if cells and
    /// book don't fit together, which no run of these calls meets. `work` counts the looks at levels of
    /// all these boards.
    pub fn site_boards<R: Wait>(
        &self,
        rt: &R,
        alloc: Global,
        site: u16,
        work: &mut Work,
    ) -> Result<(Vec<(Name, StationBoard)>, Figures), BoardFault>
        ensures work { IsWork (site_looks self.now.stations site) work.old work.new }
        ensures known { result ≢ Err BoardFault.UnknownStation }
        ensures boards { IfOk result (λ r. AreBoardsAt self.now.stations site r.0.items) }
        ensures totals { IfOk result (λ r. r.1 ≡ sum_of_figures (map (λ s. s.1.figures) r.0.items)) }
    {
        let Some(lock) = self.books.get(site as usize) else {
            return Err(BoardFault::Torn);
        };
        let lock: &Mutex<SiteBook<J>> = lock;
        let Ok(held) = hold_stations(rt, alloc, &self.places, &self.cells, site) else {
            return Err(BoardFault::OutOfMemory);
        };
        let book = lock.lock(rt);
        let boards = site_boards_of(alloc, &self.places, &held, site, work)?;
        match sum_of(&boards) {
            Some(totals) if totals == book.totals() => Ok((boards, totals)),
            _ => Err(BoardFault::Torn),
        }
    }

    /// The boards of a site as [`Desk::site_boards`] gives them, and a note of the cells that they show, made at that
    /// one moment, while all locks of the site are held. Errors are those of [`Desk::site_boards`].
    pub fn site_boards_by<S: Notes<C, N>, N: Drop, R: Wait>(
        &self,
        rt: &R,
        alloc: Global,
        site: u16,
        way: &S,
        work: &mut Work,
    ) -> Result<(Vec<(Name, StationBoard)>, Figures, N), BoardFault>
        ensures work { IsWork (site_looks self.now.stations site) work.old work.new }
        ensures known { result ≢ Err BoardFault.UnknownStation }
        ensures boards { IfOk result (λ r. AreBoardsAt self.now.stations site r.0.items) }
        ensures noted { IfOk result (λ r. AreNotedBoards (S.notes way.now r.2) self.now.stations site r.0.items) }
        ensures totals { IfOk result (λ r. r.1 ≡ sum_of_figures (map (λ s. s.1.figures) r.0.items)) }
    {
        let Some(lock) = self.books.get(site as usize) else {
            return Err(BoardFault::Torn);
        };
        let lock: &Mutex<SiteBook<J>> = lock;
        let Ok(held) = hold_stations(rt, alloc, &self.places, &self.cells, site) else {
            return Err(BoardFault::OutOfMemory);
        };
        let book = lock.lock(rt);
        let (_held, boards, noted) = noted_boards_of(
            rt,
            alloc,
            &self.places,
            held,
            site,
            way,
            work,
        )?;
        match sum_of(&boards) {
            Some(totals) if totals == book.totals() => Ok((boards, totals, noted)),
            _ => Err(BoardFault::Torn),
        }
    }

    /// Moves all values out of their locks and compares them as [`Desk::close`] does, and only then gives
    /// anything up. It returns what was behind the stations' locks and the books, both in the plan's order, and
    /// the passes. The error gives all back as it was, with the fault.
    pub fn dismantle(
        self,
        passes: Vec<Pass>,
        viewers: Vec<Viewer<J>>,
    ) -> Result<(Vec<C>, Vec<SiteBook<J>>, Vec<Pass>), CloseRefused<J, C>>
        ensures stations { IfOk result (λ s. vec_len s.0 ≡ length self.stations) }
        ensures sites { IfOk result (λ s. length s.1.items ≡ self.sites) }
        ensures whole { IfOk result (λ s. IsClosable self.stations self.viewers (map C.cell s.0.items) s.1.items passes.items viewers.items) }
        ensures tied { IfOk result (λ s. AreTied (map C.cell s.0.items) s.1.items) }
        ensures seen { IfOk result (λ s. All (Saw s.1.items) viewers.items) }
        ensures kept { IfOk result (λ s. s.2 ≡ passes) }
        ensures viewer { IfErr result (λ r. r.fault ≡ CloseFault.ViewerMissing → length viewers.items ≢ self.viewers) }
        ensures desk { IfErr result (λ r. r.desk ≡ self) }
        ensures passes { IfErr result (λ r. r.passes ≡ passes.items) }
        ensures viewers { IfErr result (λ r. r.viewers ≡ viewers.items) }
    {
        let Desk {
            places,
            viewers: given,
            cells: mut locked_cells,
            books: mut locked_books,
            spare,
        } = self;
        let Spare {
            mut cells,
            mut books,
        } = spare.into_inner();
        unlock(&mut locked_cells, &mut cells);
        unlock(&mut locked_books, &mut books);
        match fault_of(&places, given, &cells, &books, &passes, &viewers) {
            None => {
                give_back_viewers(&mut books, viewers);
                Ok((cells, books, passes))
            }
            Some(fault) => {
                lock_up(&mut cells, &mut locked_cells);
                lock_up(&mut books, &mut locked_books);
                let spare = Mutex::new(Spare { cells, books });
                Err(CloseRefused {
                    desk: Desk {
                        places,
                        viewers: given,
                        cells: locked_cells,
                        books: locked_books,
                        spare,
                    },
                    passes: Listed::of(passes),
                    viewers: Listed::of(viewers),
                    fault,
                })
            }
        }
    }
}

// The parts of a plan behind their locks, with room to close them.
fn lock_parts<J: Naming>(
    alloc: Global,
    plan: &Plan,
    parts: Parts<J>,
) -> Result<(Desk<J>, Vec<(u16, Viewer<J>)>), AllocError>
    requires faultless { plan_fault plan.now.sites.items plan.now.stations.items ≡ None }
    requires cells { length parts.cells ≡ length plan.now.stations.items }
    requires books { length parts.books ≡ length plan.now.sites.items }
    ensures stations { IfOk result (λ r. AreNewPlaces plan.now.sites.items plan.now.stations.items r.0.stations) }
    ensures sites { IfOk result (λ r. r.0.sites ≡ length plan.now.sites.items) }
    ensures viewers { IfOk result (λ r. r.1.items ≡ parts.viewers) }
    ensures given { IfOk result (λ r. r.0.viewers ≡ length r.1.items) }
{
    let Parts {
        cells,
        books,
        viewers,
    } = parts;
    let viewers = viewers.into_vec();
    let (cells, books) = (cells.into_vec(), books.into_vec());
    let desk = Desk::over(alloc, plan, cells, books, viewers.len())?;
    Ok((desk, viewers))
}
