ghost use Rattle.std.specs.Prelude.{◌≡◌, ◌↔◌, ◌<◌, ◌≤◌, ◌+◌, ◌^◌, [], IfErr, IfOk, IsTrue, length};
ghost use Rattle.energy_flow.specs.Work.{counted};
ghost use Rattle.ledger_model.{specs.ByDirection.{flows_toward, CanPlusFlows, CanMinusFlows}, specs.Energy.change_of, specs.Parts.parts_by, specs.declared.settle.Settle.Settle};
ghost use Rattle.quarter_table.{specs.Pairs.{parts_toward, rows_with}, specs.Rows.{row_at, with_pair, without_pair, set_row, AreInOrder, HavePairs}, specs.Table.table};

use crate::place::place_near;
use crate::row::QuarterRow;
use crate::shares::even_parts;
use energy_flow::{Flow, Work};
use ledger_model::{ByDirection, Direction, Period, Quarter, Reading};
use std::alloc::{AllocError, Global};
use std::marker::Model;

/// The settlement periods that have pairs of readings, each with the number of its pairs and their
/// sums, of import and of export. Contracts see the rows by rising period, and how many there may be.
#[derive(Drop)]
pub struct QuarterTable {
    rows: Vec<QuarterRow>,
    capacity: u32,
    // The place of the row that was changed last: it saves a search, and changes no answer.
    near: usize,
}

impl Model for QuarterTable {
    ghost use Rattle.quarter_table.{specs.Table.{Table, table}, specs.Kept.IsKept};

    ghost Value = { Table };

    ghost view = { λ t. table t.rows.items t.capacity };

    ghost invariant = { λ t. IsKept t.rows t.capacity };
}

impl QuarterTable {
    /// A table without rows, with room for `capacity`; the error says that the allocator refused
    /// memory.
    pub fn reserve(alloc: Global, capacity: u32) -> Result<Self, AllocError>
        ensures { IfOk result (λ t. t ≡ table [] capacity) }
    {
        let rows = Vec::with_capacity(alloc, capacity as usize)?;
        Ok(QuarterTable {
            rows,
            capacity,
            near: 0,
        })
    }

    /// The rows, by rising period. Each has a pair.
    pub fn rows(&self) -> &[QuarterRow]
        ensures rows { result.now ≡ self.now.rows }
        ensures rising { AreInOrder self.now.rows }
        ensures pairs { HavePairs self.now.rows }
    {
        self.rows.as_slice()
    }

    /// How many more rows there is room for.
    pub fn room(&self) -> u32
        ensures { result + length self.now.rows ≡ self.now.capacity }
    {
        self.capacity - self.rows.len() as u32
    }

    /// The row of a period; a row without pairs if the period has none.
    pub fn row(&self, quarter: Quarter) -> QuarterRow
        ensures { result ≡ row_at quarter self.now.rows }
    {
        match place_near(&self.rows, self.near, quarter) {
            Ok(at) => self.rows[at],
            Err(_) => QuarterRow {
                quarter,
                pairs: 0,
                energy: ByDirection::zero(),
            },
        }
    }

    /// Returns whether a period has a pair.
    pub fn holds(&self, quarter: Quarter) -> bool
        ensures { IsTrue result ↔ (0 < (row_at quarter self.now.rows).pairs) }
    {
        self.row(quarter).pairs > 0
    }

    /// Adds a pair of this direction and difference. The period must have a row, or there must be
    /// room for one; the number and the sums must stay in range. [`QuarterTable::row`] and
    /// [`QuarterTable::room`] show this.
    pub fn add(&mut self, quarter: Quarter, direction: Direction, flow: Flow)
        requires room { (row_at quarter self.old.rows).pairs ≡ 0 → length self.old.rows < self.old.capacity }
        requires number { (row_at quarter self.old.rows).pairs + 1 < 2 ^ 32 }
        requires sums { CanPlusFlows (row_at quarter self.old.rows).energy (flows_toward direction flow) }
        ensures rows { self.new.rows ≡ set_row (with_pair (flows_toward direction flow) (row_at quarter self.old.rows)) self.old.rows }
        ensures capacity { self.new.capacity ≡ self.old.capacity }
    {
        let more = ByDirection::toward(direction, flow);
        match place_near(&self.rows, self.near, quarter) {
            Ok(at) => {
                self.near = at;
                let row = self.rows[at];
                let energy = row.energy.plus(more);
                self.rows[at] = QuarterRow {
                    quarter,
                    pairs: row.pairs + 1,
                    energy,
                };
            }
            Err(at) => {
                self.near = at;
                let row = QuarterRow {
                    quarter,
                    pairs: 1,
                    energy: more,
                };
                match self.rows.insert(at, row) {
                    Ok(()) => (),
                    Err(_) => unreachable!(),
                }
            }
        }
    }

    /// Adds as [`QuarterTable::add`] does, and takes memory for the row if there is no room for one. After an error, that
    /// there is no memory or that a number or a sum would be out of range, the rows are as they were.
    pub fn try_add(
        &mut self,
        quarter: Quarter,
        direction: Direction,
        flow: Flow,
    ) -> Result<(), AllocError>
        ensures added { IfOk result (λ _. self.new.rows ≡ set_row (with_pair (flows_toward direction flow) (row_at quarter self.old.rows)) self.old.rows) }
        ensures kept { IfErr result (λ _. self.new.rows ≡ self.old.rows) }
    {
        let row = self.row(quarter);
        let energy = ByDirection::toward(direction, flow);
        if row.pairs == u32::MAX || !row.energy.can_plus(energy) {
            return Err(AllocError);
        }
        self.make_room()?;
        self.add(quarter, direction, flow);
        Ok(())
    }

    /// Adds what two readings of this direction show, shared by time among periods of this length. After an error, that
    /// there is no memory or that a number or a sum would be out of range, the table has a part of it. Counts one look
    /// in `work`, also before an error.
    pub fn try_share(
        &mut self,
        alloc: Global,
        length: Period,
        direction: Direction,
        earlier: Reading,
        later: Reading,
        work: &mut Work,
    ) -> Result<(), AllocError>
        ensures rows { IfOk result (λ _. self.new.rows ≡ rows_with (parts_toward direction (parts_by Settle.Even length (change_of (earlier, later)))) self.old.rows) }
        ensures work { work.new ≡ counted work.old 1 }
        ensures grows { work.old ≤ work.new }
    {
        let parts = even_parts(alloc, length, earlier, later, work)?;
        for part in &parts {
            self.try_add(part.0, direction, part.1)?;
        }
        Ok(())
    }

    // Makes room for one more row.
    fn make_room(&mut self) -> Result<(), AllocError>
        ensures rows { self.new.rows ≡ self.old.rows }
        ensures room { IfOk result (λ _. length self.new.rows < self.new.capacity) }
    {
        if self.room() > 0 {
            return Ok(());
        }
        let Some(capacity) = self.capacity.checked_add(1) else {
            return Err(AllocError);
        };
        self.rows.reserve(1)?;
        self.capacity = capacity;
        Ok(())
    }

    /// Takes out a pair of this direction and difference. The period must have a row, and its sum
    /// of the direction must include the difference; if no other pair is left, the sums must be
    /// just that. [`QuarterTable::row`] shows this.
    pub fn remove(&mut self, quarter: Quarter, direction: Direction, flow: Flow)
        requires there { 0 < (row_at quarter self.old.rows).pairs }
        requires sums { CanMinusFlows (row_at quarter self.old.rows).energy (flows_toward direction flow) }
        requires last { (row_at quarter self.old.rows).pairs ≡ 1 → (row_at quarter self.old.rows).energy ≡ flows_toward direction flow }
        ensures rows { self.new.rows ≡ set_row (without_pair (flows_toward direction flow) (row_at quarter self.old.rows)) self.old.rows }
        ensures capacity { self.new.capacity ≡ self.old.capacity }
    {
        let less = ByDirection::toward(direction, flow);
        match place_near(&self.rows, self.near, quarter) {
            Ok(at) => {
                self.near = at;
                let row = self.rows[at];
                if row.pairs == 1 {
                    self.rows.remove(at);
                } else {
                    let energy = row.energy.minus(less);
                    self.rows[at] = QuarterRow {
                        quarter,
                        pairs: row.pairs - 1,
                        energy,
                    };
                }
            }
            Err(_) => unreachable!(),
        }
    }
}
