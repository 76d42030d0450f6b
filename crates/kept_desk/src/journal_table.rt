ghost use Rattle.std.specs.Prelude.{◌≡◌};
ghost use Rattle.kept_desk.specs.Held.{IsUnused};

use crate::table::{EntryTable, TableSeat};
use std::alloc::{AllocError, Global};
use std::marker::Model;

/// The table of a journal that is not open yet. Contracts see its name. It takes a few words of memory;
/// nothing else in this crate takes any.
#[derive(Drop)]
pub struct JournalTable {
    table: EntryTable,
    seat: TableSeat,
}

impl Model for JournalTable {
    ghost use Rattle.atomic_table.specs.Seated.{TableId, table_id_coded};
    ghost use Rattle.kept_desk.specs.Held.{IsUnused};

    ghost Value = { TableId };

    ghost coded = { table_id_coded };

    ghost view = { λ t. t.table.shared.table_id };

    ghost invariant = { λ t. IsUnused t.table.shared.table_id t.seat.table_id t.seat.me };
}

impl JournalTable {
    /// The table of one journal. The error says that the allocator refused memory.
    pub fn new(alloc: Global) -> Result<Self, AllocError> {
        let (table, seat) = EntryTable::of_words(alloc, &[0; 1], &())?;
        Ok(JournalTable { table, seat })
    }

    pub(crate) fn into_parts(self) -> (EntryTable, TableSeat)
        ensures table { result.0.shared.table_id ≡ self }
        ensures seat { IsUnused self result.1.table_id result.1.me }
    {
        let JournalTable { table, seat } = self;
        (table, seat)
    }
}
