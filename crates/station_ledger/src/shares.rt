//! The settlement periods of a station whose site settles evenly. What two readings show is shared by time when a board
//! is made, from the readings: nothing of it is kept. Each pair is looked at once, and counted.
ghost use Rattle.std.specs.Prelude.{◌≡◌, ◌+◌, Some, IfOk, IfSome, length, map};
ghost use Rattle.event_chain.specs.Chains.{stored};
ghost use Rattle.ledger_model.{specs.Deltas.across, specs.Energy.{all_pairs_by, followed}, specs.declared.reading.Direction.TheVariants.{Export, Import}};
ghost use Rattle.quarter_table.specs.Pairs.{board_flows_by, rows_of};
ghost use Rattle.station_ledger.{specs.ByMoment.AreByMoment, specs.Numbered.AreNumbered, specs.Quarters.IsWork, specs.Shares.{evenly, with_shares}, specs.Sums.{AreAllowed, AreStanding, order_in}};

use crate::listing::readings_in_order;
use crate::sums::Sums;
use energy_flow::Work;
use event_chain::Chains;
use ledger_model::{Direction, Period, Reading};
use quarter_table::QuarterTable;
use reading_index::PlacedReading;
use std::alloc::{AllocError, Global};

// Adds what two readings show, shared by time, if there is one before.
fn share_across(
    table: &mut QuarterTable,
    alloc: Global,
    period: Period,
    direction: Direction,
    before: Option<Reading>,
    behind: Reading,
    work: &mut Work,
) -> Result<(), AllocError>
    ensures work { IsWork (length (across before (Some behind))) work.old work.new }
    ensures rows { IfOk result (λ _. table.new.rows ≡ with_shares period direction (across before (Some behind)) table.old.rows) }
{
    match before {
        None => Ok(()),
        Some(before) => table.try_share(alloc, period, direction, before, behind, work),
    }
}

// Adds what each two readings in a row show, shared by time.
fn share_row(
    table: &mut QuarterTable,
    alloc: Global,
    period: Period,
    direction: Direction,
    readings: &[PlacedReading],
    work: &mut Work,
) -> Result<(), AllocError>
    ensures work { IsWork (length (followed (map (λ r. r.reading) readings.now))) work.old work.new }
    ensures rows { IfOk result (λ _. table.new.rows ≡ with_shares period direction (followed (map (λ r. r.reading) readings.now)) table.old.rows) }
{
    let mut last = None;
    let mut left = readings;
    while let [first, more @ ..] = left {
        let reading = first.reading;
        share_across(table, alloc, period, direction, last, reading, work)?;
        last = Some(reading);
        left = more;
    }
    Ok(())
}

// Adds what the readings of each transaction in one direction show, shared by time.
fn share_direction(
    table: &mut QuarterTable,
    alloc: Global,
    chains: &Chains,
    sums: &Sums,
    direction: Direction,
    work: &mut Work,
) -> Result<(), AllocError>
    requires within { AreAllowed (order_in sums.now) chains.now.limits (stored chains.now) }
    requires numbered { AreNumbered (stored chains.now) }
    requires standing { AreStanding (order_in sums.now) chains.now.limits (stored chains.now) sums.now.kept }
    requires timed { IfSome sums.now.by_moment (AreByMoment chains.now.limits (stored chains.now)) }
    ensures work { IsWork (length (all_pairs_by (order_in sums.now) direction (stored chains.now))) work.old work.new }
    ensures rows { IfOk result (λ _. table.new.rows ≡ with_shares sums.now.period.length direction (all_pairs_by (order_in sums.now) direction (stored chains.now)) table.old.rows) }
{
    for place in 0..sums.kept.len() as usize {
        // Each place has an id.
        let tx = sums.kept.id_at(place).unwrap();
        let readings = readings_in_order(alloc, chains, sums, tx, direction)?;
        share_row(
            table,
            alloc,
            sums.period.length(),
            direction,
            &readings,
            work,
        )?;
    }
    Ok(())
}

// The rows of what is stored, shared by time.
pub(crate) fn shared_rows(
    alloc: Global,
    chains: &Chains,
    sums: &Sums,
    work: &mut Work,
) -> Result<QuarterTable, AllocError>
    requires within { AreAllowed (order_in sums.now) chains.now.limits (stored chains.now) }
    requires numbered { AreNumbered (stored chains.now) }
    requires standing { AreStanding (order_in sums.now) chains.now.limits (stored chains.now) sums.now.kept }
    requires timed { IfSome sums.now.by_moment (AreByMoment chains.now.limits (stored chains.now)) }
    ensures work { IsWork (length (all_pairs_by (order_in sums.now) Import (stored chains.now)) + length (all_pairs_by (order_in sums.now) Export (stored chains.now))) work.old work.new }
    ensures rows { IfOk result (λ table. table.rows ≡ rows_of (board_flows_by (order_in sums.now) (evenly sums.now.period.length) (stored chains.now))) }
{
    let mut table = QuarterTable::reserve(alloc, 0)?;
    share_direction(&mut table, alloc, chains, sums, Direction::Import, work)?;
    share_direction(&mut table, alloc, chains, sums, Direction::Export, work)?;
    Ok(table)
}
