//! Cells with their shares, and without them.
ghost use Rattle.std.specs.Prelude.{◌≡◌, ℕ, ◌+◌, ◌≤◌, [], ◌++◌, length, IfOk, OnOk, Some, All, slice_get, vec_len, vec_capacity};
ghost use Rattle.kept_desk.{specs.Entries.of_station, specs.Kept.{IsLeftFrom, commands_of}, specs.Opened.AreFirst};
ghost use Rattle.site_desk.specs.Cell.{Cell, IsInService};
ghost use Rattle.site_book.specs.Prefix.{IsPrefix};

use crate::cell::KeptCell;
use crate::journal::Journal;
use crate::moment::Moment;
use crate::opening::Opening;
use ledger_model::Command;
use site_desk::StationCell;
use std::alloc::{AllocError, Global};
use std::io::Write;

// Gives each cell its share of a journal of no entries.
pub(crate) fn keep_cells<K: Opening, W: Write + Drop>(
    alloc: Global,
    cells: Vec<StationCell>,
    log: &mut Journal<K, W>,
) -> Result<Vec<KeptCell<K>>, AllocError>
    requires first { AreFirst K.first cells.items }
    requires log { (log.old.entries ≡ []) × (log.old.shares ≡ 0) }
    ensures { IfOk result (λ kept. kept.items ≡ cells.items) }
{
    let mut kept = Vec::with_capacity(alloc, cells.len())?;
    for cell in cells {
        let share = log.enlist(cell.station());
        kept.push(KeptCell::new(cell, share))?;
    }
    Ok(kept)
}

// Returns each cell without its share, after the share was compared with the journal.
pub(crate) fn free_cells<K: Opening, W: Write + Drop>(
    kept: Vec<KeptCell<K>>,
    log: &mut Journal<K, W>,
    cells: &mut Vec<StationCell>,
)
    requires none { vec_len cells.old ≡ 0 }
    requires room { vec_len kept ≤ vec_capacity cells.old }
    ensures cells { cells.new.items ≡ kept.items }
    ensures log { log.new ≡ log.old }
    ensures left { All (λ c. IsInService c → IsLeftFrom c.limits (K.first c.station) c.content (commands_of (of_station c.station log.old.entries))) kept.items }
{
    for each in kept {
        let cell = free_cell(each, log);
        cells.push_reserved(cell);
    }
}

// Compares each moment with the journal.
pub(crate) fn confirm_all<K: Opening, W: Write + Drop>(
    moments: Vec<Moment<K>>,
    log: &mut Journal<K, W>,
)
    ensures log { log.new ≡ log.old }
    ensures first { All (λ m. IsPrefix m log.old.entries) moments.items }
{
    for moment in moments {
        log.confirm(moment);
    }
}

// Returns the cell without its share.
fn free_cell<K: Opening, W: Write + Drop>(kept: KeptCell<K>, log: &mut Journal<K, W>) -> StationCell
    ensures cell { result ≡ kept }
    ensures log { log.new ≡ log.old }
    ensures left { IsInService kept → IsLeftFrom kept.limits (K.first kept.station) kept.content (commands_of (of_station kept.station log.old.entries)) }
{
    let (cell, mut share) = kept.into_parts();
    log.compare(&mut share);
    cell
}
