ghost use Rattle.std.specs.Prelude.{◌≡◌, ◌≤◌, ◌+◌, ◌↔◌, ◌++◌, ◌∷◌, [], length, sum, IsTrue, IsErr, IfOk, OnOk, OnErr};
ghost use Rattle.ledger_model.specs.Step.{Reached, answer};
ghost use Rattle.site_desk.{specs.Cell.{IsInService, Knows, held, most_passes, new_cell, new_pass, new_tally, no_station, tally_of}, specs.Settle.{cell_after, pass_after}};
ghost use Rattle.station_ledger.{specs.Judged.IsJudged, specs.Spent.{IsSpent, most_spent}};

use crate::fault::TooManyPasses;
use crate::pass::{Pass, Tally};
use energy_flow::Work;
use ledger_model::{Answer, Command, Limits, Order, Periods};
use station_ledger::{Judgement, StationLedger};
use std::alloc::{AllocError, Global};
use std::marker::Model;
use std::thread::Threads;

/// How many passes a station may give out.
pub const MAX_PASSES: usize = 65_536;

// The number of no station.
const NO_STATION: u16 = 65_535;

/// One station: its ledger, the row of its figures, and how many changes each of its passes made. As
/// many accepted commands as its passes made always lead from the empty content to its own.
#[derive(Drop)]
pub struct StationCell {
    station: u16,
    site: u16,
    row: u16,
    ledger: StationLedger,
    counts: Vec<u64>,
}

impl Model for StationCell {
    ghost use Rattle.std.specs.Prelude.{vec_capacity};
    ghost use Rattle.site_desk.specs.Cell.{Cell, cell_code, IsCell};

    ghost Value = { Cell };

    ghost coded = { cell_code };

    ghost view = { λ c. record {
      station = c.station;
      site = c.site;
      row = c.row;
      limits = c.ledger.limits;
      period = c.ledger.period;
      order = c.ledger.order;
      content = c.ledger.content;
      counts = c.counts.items;
    } };

    ghost invariant = { λ c. IsCell c.ledger.limits c.ledger.content c.counts.items (vec_capacity c.counts) };
}

impl StationCell {
    /// The cell of a station without events: the station's number, its site's, its row in that site's book, its
    /// its limits, its site's settlement periods and the order of its readings, with room for all its passes. Only
    /// it takes memory.
    pub fn open(
        alloc: Global,
        station: u16,
        site: u16,
        row: u16,
        limits: Limits,
        period: Periods,
        order: Order,
    ) -> Result<Self, AllocError>
        ensures { IfOk result (λ c. c ≡ new_cell station site row limits period order) }
    {
        let ledger = StationLedger::open(alloc, limits, period.length(), order, period.rule())?;
        let counts = Vec::with_capacity(alloc, MAX_PASSES)?;
        Ok(StationCell {
            station,
            site,
            row,
            ledger,
            counts,
        })
    }

    /// The station's number in the plan.
    pub fn station(&self) -> u16
        ensures { result ≡ self.now.station }
    {
        self.station
    }

    /// The number of its site.
    pub fn site(&self) -> u16
        ensures { result ≡ self.now.site }
    {
        self.site
    }

    /// Its row in its site's book.
    pub fn row(&self) -> u16
        ensures { result ≡ self.now.row }
    {
        self.row
    }

    /// How many passes it gave out, at most 65,536.
    pub fn passes(&self) -> usize
        ensures { result ≡ length self.now.counts }
    {
        self.counts.len()
    }

    /// Its ledger.
    pub fn ledger(&self) -> &StationLedger
        ensures limits { result.now.limits ≡ self.now.limits }
        ensures period { result.now.period ≡ self.now.period }
        ensures order { result.now.order ≡ self.now.order }
        ensures content { result.now.content ≡ self.now.content }
        ensures reached { Reached self.now.limits self.now.content.changes self.now.content }
        ensures counted { sum self.now.counts ≡ self.now.content.changes }
    {
        &self.ledger
    }

    /// Returns whether the tally belongs to this cell, and has as many changes as the cell counts
    /// for it.
    pub fn knows(&self, tally: &Tally) -> bool
        ensures known { IsTrue result ↔ Knows self.now tally.now }
        ensures reached { Reached self.now.limits self.now.content.changes self.now.content }
        ensures counted { sum self.now.counts ≡ self.now.content.changes }
    {
        match self.counts.get(tally.slot) {
            Some(count) => tally.station == self.station && *count == tally.changes,
            None => false,
        }
    }

    /// Takes the cell out of service: it belongs to no station from then on, so no desk takes a command at
    /// it, shows it, or closes with it.
    pub fn retire(&mut self)
        ensures { self.new ≡ record self.old { station = no_station } }
    {
        self.station = NO_STATION;
    }

    /// Returns whether the cell is in service, that is, was never retired.
    pub fn is_in_service(&self) -> bool
        ensures { IsTrue result ↔ IsInService self.now }
    {
        self.station != NO_STATION
    }

    /// Gives out the tally of one more pass of the station, which made no change yet; `TooManyPasses` exactly
    /// if it gave out 65,536 before.
    pub fn open_tally(&mut self) -> Result<Tally, TooManyPasses>
        ensures full { IsErr result ↔ (length self.old.counts ≡ most_passes) }
        ensures tally { IfOk result (λ t. t ≡ new_tally self.old.station (length self.old.counts)) }
        ensures known { IfOk result (λ t. Knows self.new t) }
        ensures cell { OnOk result (self.new ≡ record self.old { counts = self.old.counts ++ 0 ∷ [] }) }
        ensures stays { OnErr result (self.new ≡ self.old) }
    {
        let slot = self.counts.len();
        if slot == MAX_PASSES {
            return Err(TooManyPasses);
        }
        self.counts.push_reserved(0);
        Ok(Tally {
            station: self.station,
            slot,
            changes: 0,
        })
    }

    // Takes a command with its judgement, and counts the change in the cell and in the tally if it is accepted.
    pub(crate) fn change(
        &mut self,
        tally: &mut Tally,
        work: &mut Work,
        command: Command,
        judgement: Judgement,
    ) -> Answer
        requires known { Knows self.old tally.old }
        requires judged { IsJudged self.old.limits self.old.content command judgement.answer }
        ensures answer { result ≡ answer self.old.limits self.old.content command }
        ensures cell { self.new ≡ cell_after self.old (held tally.old work.old) command }
        ensures pass { held tally.new work.new ≡ pass_after (held tally.old work.old) result work.new }
        ensures spent { IsSpent result work.old work.new }
        ensures bound { work.new ≤ work.old + most_spent self.old.order self.old.content.events command }
    {
        let answer = self.ledger.apply_judged(command, judgement, work);
        if let Answer::Accepted(_) = answer {
            self.counts[tally.slot] += 1;
            tally.changes += 1;
        }
        answer
    }
}

/// Gives out one more pass of the station, which made no change yet; `TooManyPasses` exactly if it
/// gave out 65,536 before.
pub fn enlist_cell<R: Threads>(rt: &R, cell: &mut StationCell) -> Result<Pass, TooManyPasses>
    ensures full { IsErr result ↔ (length cell.old.counts ≡ most_passes) }
    ensures pass { IfOk result (λ p. p ≡ new_pass cell.old.station (length cell.old.counts)) }
    ensures known { IfOk result (λ p. Knows cell.new (tally_of p)) }
    ensures cell { OnOk result (cell.new ≡ record cell.old { counts = cell.old.counts ++ 0 ∷ [] }) }
    ensures stays { OnErr result (cell.new ≡ cell.old) }
{
    match cell.open_tally() {
        Ok(tally) => Ok(Pass::of(tally, Work::open(rt))),
        Err(full) => Err(full),
    }
}
