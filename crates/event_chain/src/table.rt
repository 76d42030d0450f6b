ghost use Rattle.std.specs.Prelude.{◌≡◌, ◌≢◌, ◌<◌, ◌≤◌, [], length, map, Some, None, IfOk, IfSome, option_map, slice_get};
ghost use Rattle.event_chain.specs.Table.{AreSlotted, IsFresh, IsRowAt, row_of, with_row, without_row};

use crate::row::TableRow;
use ledger_model::TxId;
use std::alloc::{AllocError, Global};
use std::marker::Model;
use transaction_map::TransactionMap;

/// The transactions of a station by rising id. Contracts see the rows, and how many it may have.
#[derive(Drop)]
pub struct TransactionTable {
    rows: TransactionMap<TableRow>,
    spare: Vec<u32>,
}

impl Model for TransactionTable {
    ghost use Rattle.std.specs.Prelude.{◌≤◌, vec_capacity};
    ghost use Rattle.event_chain.{specs.Table.Table, specs.TableKept.IsTable};

    ghost Value = { Table };

    ghost view = { λ t. t.rows };

    ghost invariant = { λ t. IsTable t.rows.rows t.spare.items t.rows.capacity × (t.rows.capacity ≤ vec_capacity t.spare) };
}

impl TransactionTable {
    /// A table without transactions, with room for `capacity`; the error says that the allocator
    /// refused memory.
    pub fn open(alloc: Global, capacity: u32) -> Result<Self, AllocError>
        ensures rows { IfOk result (λ t. t.rows ≡ []) }
        ensures capacity { IfOk result (λ t. t.capacity ≡ capacity) }
    {
        let rows = TransactionMap::open(alloc, capacity)?;
        let mut spare = Vec::with_capacity(alloc, capacity as usize)?;
        // The lowest slot is given out first, so the keys of a new transaction are usually behind the
        // others.
        for handed in 0..capacity {
            spare.push_reserved(capacity - 1 - handed);
        }
        Ok(TransactionTable { rows, spare })
    }

    /// How many transactions it holds.
    pub fn len(&self) -> u32
        ensures len { result ≡ length self.now.rows }
        ensures within { length self.now.rows ≤ self.now.capacity }
        ensures slotted { AreSlotted self.now }
    {
        self.rows.len()
    }

    /// How many transactions it may hold.
    pub fn capacity(&self) -> u32
        ensures { result ≡ self.now.capacity }
    {
        self.rows.capacity()
    }

    /// What the table keeps of a transaction, and the place of its row; none if it is absent. The next
    /// calls need no search for it; their answers stay the same.
    pub fn seek(&mut self, tx: &TxId) -> Option<(usize, TableRow)>
        ensures value { option_map (λ f. f.1) result ≡ row_of tx.now self.old.rows }
        ensures at { IfSome result (λ f. IsRowAt tx.now self.old.rows f.0) }
        ensures same { self.new ≡ self.old }
    {
        self.rows.seek(tx)
    }

    /// Where the transaction of the last search is or belongs: a hint for another map of about the same
    /// transactions.
    pub fn near(&self) -> usize {
        self.rows.near()
    }

    /// What the table keeps of a transaction; none if it is absent.
    pub fn get(&self, tx: &TxId) -> Option<TableRow>
        ensures value { result ≡ row_of tx.now self.now.rows }
        ensures slotted { AreSlotted self.now }
    {
        self.rows.get(tx)
    }

    /// The id at a place, the first at 0; none past the last.
    pub fn id_at(&self, place: usize) -> Option<&TxId>
        ensures id { option_map (λ id. id.now) result ≡ slice_get (map (λ r. r.0) self.now.rows) place }
        ensures few { length self.now.rows ≤ 4_294_967_295 }
    {
        self.rows.id_at(place)
    }

    /// Adds a transaction without live events, and returns its row. It must be absent, and the table
    /// must have room.
    pub fn add(&mut self, tx: &TxId) -> TableRow
        requires absent { row_of tx.now self.old.rows ≡ None }
        requires room { length self.old.rows < self.old.capacity }
        ensures rows { self.new.rows ≡ with_row tx.now result self.old.rows }
        ensures capacity { self.new.capacity ≡ self.old.capacity }
        ensures fresh { IsFresh result.slot self.old.rows }
        ensures within { result.slot < self.old.capacity }
        ensures none_live { result.live ≡ 0 }
        ensures no_ends { result.ends ≡ 0 }
        ensures slotted { AreSlotted self.new }
    {
        let slot = match self.spare.pop() {
            Some(slot) => slot,
            None => unreachable!(),
        };
        let fresh = TableRow {
            slot,
            live: 0,
            ends: 0,
        };
        self.rows.put(tx, fresh);
        fresh
    }

    /// Changes the counts of a transaction, which must be in the table.
    pub fn set(&mut self, tx: &TxId, row: TableRow)
        requires { option_map (λ r. r.slot) (row_of tx.now self.old.rows) ≡ Some row.slot }
        ensures rows { self.new.rows ≡ with_row tx.now row self.old.rows }
        ensures capacity { self.new.capacity ≡ self.old.capacity }
        ensures slotted { AreSlotted self.new }
    {
        self.rows.put(tx, row);
    }

    /// Changes the counts of a transaction; its row must be at this place.
    pub fn set_at(&mut self, place: usize, tx: &TxId, row: TableRow)
        requires place { IsRowAt tx.now self.old.rows place }
        requires slot { option_map (λ r. r.slot) (row_of tx.now self.old.rows) ≡ Some row.slot }
        ensures rows { self.new.rows ≡ with_row tx.now row self.old.rows }
        ensures capacity { self.new.capacity ≡ self.old.capacity }
        ensures slotted { AreSlotted self.new }
    {
        self.rows.set_at(place, tx, row);
    }

    /// Removes a transaction, which must be in the table; its slot may be given out again.
    pub fn remove(&mut self, tx: &TxId)
        requires { row_of tx.now self.old.rows ≢ None }
        ensures rows { self.new.rows ≡ without_row tx.now self.old.rows }
        ensures capacity { self.new.capacity ≡ self.old.capacity }
        ensures slotted { AreSlotted self.new }
    {
        if let Some(row) = self.rows.remove(tx) {
            self.spare.push_reserved(row.slot);
        }
    }
}
