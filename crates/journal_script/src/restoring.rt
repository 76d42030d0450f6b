ghost use Rattle.std.specs.Prelude.{◌≡◌, ◌≢◌, ℕ, ◌<◌, None, IfErr, IfOk, OnOk};
ghost use Rattle.site_book.specs.Tables.{HasTable, NamedBy};
ghost use Rattle.site_desk.{specs.Plan.plan_fault, specs.Roster.AreCellsOf};
ghost use Rattle.script_ledgers.specs.Running.{AreTheirPasses};
ghost use Rattle.journal_script.{specs.Reading.Leaves, specs.Restoring.{Grows, IsRestored, IsUnmarked, ReadsToListen}};

use crate::fault::RestoreFault;
use crate::restored::Restored;
use crate::restored_script::RestoredScript;
use ledger_model::MAX_SITES;
use site_book::{Naming, Tables};
use std::io::{BufRead, Write};
use std::marker::Brand;
use std::thread::Threads;

/// Reads a script up to the line feed of the line `listen`, and takes its declarations and commands. A line changes
/// nothing if its answer is a fault, a refusal or a CALLERROR; it is reported as `left out <line number> <answer>`,
/// counted from 1. A report that can't be written is dropped. A repeat is not reported.
///
/// The line before `listen` must end with `#`, else the fault is `NotMarked`: if a kill cut the journal within a line,
/// the `#` keeps that part of a line from being a command. If the input ends before the line feed of `listen`, the
/// fault is `NotRestored`.
pub fn restore<X: AllocGlobal + Threads, R: BufRead, T: Write>(
    rt: &X,
    reader: &mut R,
    told: &mut T,
) -> Result<Restored, RestoreFault>
    ensures restored { IfOk result (λ r. ReadsToListen (R.remaining reader.old) (R.remaining reader.new) (λ read. IsRestored read r)) }
    ensures makes_desk { IfOk result (λ r. (plan_fault r.draft.sites r.draft.stations ≡ None) × AreCellsOf r.draft.sites r.draft.stations r.cells.items) }
    ensures passes { IfOk result (λ r. AreTheirPasses r.cells.items r.passes.items) }
    ensures grows { OnOk result (Grows (T.contents told.old) (T.contents told.new)) }
    ensures unmarked { IfErr result (λ e. e ≡ RestoreFault.NotMarked → ReadsToListen (R.remaining reader.old) (R.remaining reader.new) (λ read. IsUnmarked read)) }
{
    let tables = Tables::make(rt.alloc(), MAX_SITES as u16)?;
    let (restored, is_marked) = restore_script::<Brand, X, R, T>(rt, tables, reader, told)?;
    if !is_marked {
        return Err(RestoreFault::NotMarked);
    }
    Ok(restored)
}

// Restores a script over tables that J names, and returns whether the line before `listen` ends with
// `#`.
fn restore_script<J: Naming, X: AllocGlobal + Threads, R: BufRead, T: Write>(
    rt: &X,
    tables: Tables,
    reader: &mut R,
    told: &mut T,
) -> Result<(Restored, bool), RestoreFault>
    requires named { NamedBy J.table tables }
    requires there { (site : ℕ) → site < 16 → HasTable tables site }
    ensures reads { IfOk result (λ r. Leaves (R.remaining reader.old) (R.remaining reader.new) r.0 r.1) }
    ensures makes_desk { IfOk result (λ r. (plan_fault r.0.draft.sites r.0.draft.stations ≡ None) × AreCellsOf r.0.draft.sites r.0.draft.stations r.0.cells.items) }
    ensures passes { IfOk result (λ r. AreTheirPasses r.0.cells.items r.0.passes.items) }
    ensures grows { OnOk result (Grows (T.contents told.old) (T.contents told.new)) }
    ensures fails { IfErr result (λ e. e ≢ RestoreFault.NotMarked) }
{
    let mut script = RestoredScript::<J>::begin(rt.alloc(), tables);
    script.read_lines(rt, reader, told)?;
    script.into_restored(rt)
}
