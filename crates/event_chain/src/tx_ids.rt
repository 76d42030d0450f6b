ghost use Rattle.std.{specs.Prelude.{◌≡◌, map}, specs.Iterator.{YieldsFirst, item_count}};

use crate::table::TransactionTable;
use ledger_model::TxId;
use std::marker::Model;

/// The ids of transactions that are still to come, in order.
#[derive(Drop)]
pub struct TxIds<'a> {
    table: &'a TransactionTable,
    next: usize,
}

impl<'a> Model for TxIds<'a> {
    ghost use Rattle.std.specs.Prelude.{◌≤◌, List, ℕ, length, map, drop};

    ghost Value = { List (List ℕ) };

    ghost view = { λ i. drop i.next (map (λ r. r.0) i.table.now.rows) };

    ghost invariant = { λ i. i.next ≤ length i.table.now.rows };
}

impl<'a> TxIds<'a> {
    // The ids of a table.
    pub(crate) fn of(table: &'a TransactionTable) -> Self
        ensures { result ≡ map (λ r. r.0) table.now.rows }
    {
        TxIds { table, next: 0 }
    }
}

impl<'a> Iterator for TxIds<'a> {
    type Item = TxId;

    ghost next_gives = { YieldsFirst (λ s. s) };

    ghost remaining = { item_count (λ s. s) };

    fn next(&mut self) -> Option<TxId> {
        match self.table.id_at(self.next) {
            Some(id) => {
                self.next += 1;
                Some(id.copied())
            }
            None => None,
        }
    }
}
