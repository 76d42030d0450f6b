//! The boards of a desk that was closed.
ghost use Rattle.std.{specs.Prelude.{◌≡◌, ◌<◌, ◌≤◌, IfOk, OnOk, length, sum_by}, specs.Io.KnownBytes.Appends};
ghost use Rattle.ledger_model.specs.Ranges.{most_plan_readings};
ghost use Rattle.board_report.{specs.Texts.board_text, specs.Closed.{IsClosedOf, boards_text, closed_site}, specs.Looks.{all_looks, looks_over}};
ghost use Rattle.station_ledger.specs.Quarters.{IsWork};

use crate::boards::site_text;
use energy_flow::Work;
use site_book::Naming;
use site_desk::{Closed, Plan};
use std::alloc::{AllocError, Global};
use std::io::Write;

/// Why the boards of a closed desk are not all written.
#[derive(Clone, Copy, Debug)]
pub enum BoardsFault {
    /// There is no memory for a board.
    OutOfMemory,
    /// A write or a flush of the output failed.
    WriteFault,
}

impl From<AllocError> for BoardsFault {
    fn from(_error: AllocError) -> BoardsFault {
        BoardsFault::OutOfMemory
    }
}

/// The text of the board of the site of this number: computed from scratch from the contents of its stations'
/// ledgers, by the site's length of periods and order of readings, with the sums over the stations as its totals.
/// `work` counts the looks that the boards of the stations take, also before the error, which says that the allocator
/// refused memory.
///
/// Condition: the closed desk was opened for this plan, and the plan has the site.
pub fn closed_board<J: Naming>(
    alloc: Global,
    plan: &Plan,
    closed: &Closed<J>,
    site: u16,
    work: &mut Work,
) -> Result<Vec<u8>, AllocError>
    requires closed { IsClosedOf plan.now.sites.items plan.now.stations.items closed.now }
    requires readings { sum_by (λ s. s.limits.readings) plan.now.stations.items ≤ most_plan_readings }
    requires planned { site < length plan.now.sites.items }
    ensures work { IsWork (looks_over plan.now.stations.items closed.now.cells site) work.old work.new }
    ensures text { IfOk result (λ text. text.items ≡ board_text (closed_site plan.now.sites.items plan.now.stations.items closed.now.cells site)) }
{
    let number = site as usize;
    let name = plan.sites.as_slice()[number].name.copied();
    let totals = closed.totals(site);
    site_text(alloc, plan, closed.cells(), number, &name, totals, work)
}

/// Writes the board of each site, in the plan's order, as [`closed_board`] makes it. Each is written and flushed
/// before the next is made. Errors: `OutOfMemory`, `WriteFault`.
///
/// Condition: the closed desk was opened for this plan.
pub fn write_boards<J: Naming, W: Write>(
    alloc: Global,
    plan: &Plan,
    closed: &Closed<J>,
    output: &mut W,
    work: &mut Work,
) -> Result<(), BoardsFault>
    requires closed { IsClosedOf plan.now.sites.items plan.now.stations.items closed.now }
    requires readings { sum_by (λ s. s.limits.readings) plan.now.stations.items ≤ most_plan_readings }
    ensures work { IsWork (all_looks plan.now.stations.items closed.now.cells (length plan.now.sites.items)) work.old work.new }
    ensures text { OnOk result (Appends (W.contents output.old) (W.contents output.new) (boards_text plan.now.sites.items plan.now.stations.items closed.now.cells (length plan.now.sites.items))) }
{
    for site in 0..plan.sites.len() {
        let text = closed_board(alloc, plan, closed, site as u16, work)?;
        write_out(output, text.as_slice())?;
    }
    Ok(())
}

/// Writes bytes and flushes them. The error is `WriteFault`.
pub fn write_out<W: Write>(output: &mut W, text: &[u8]) -> Result<(), BoardsFault>
    ensures { OnOk result (Appends (W.contents output.old) (W.contents output.new) text.now) }
{
    if output.write_all(text).is_err() || output.flush().is_err() {
        return Err(BoardsFault::WriteFault);
    }
    Ok(())
}
