use energy_flow::{Flow, Level, Work, difference};
use ledger_model::Direction::{self, Export, Import};
use ledger_model::{ByDirection, Quarter};
use quarter_table::QuarterTable;
use std::test::Fail;

// The period that begins at 10:30 on the first of March 2026.
const HALF_PAST_TEN: u32 = 1_969_290;

fn quarter(number: u32) -> Result<Quarter, Fail> {
    Ok(Quarter::new(number).ok_or("no quarter")?)
}

// Adds a pair if it may be added; returns whether it did.
fn put(table: &mut QuarterTable, quarter: Quarter, direction: Direction, flow: Flow) -> bool {
    let energy = ByDirection::toward(direction, flow);
    let row = table.row(quarter);
    if row.pairs == 0 && table.room() == 0 {
        return false;
    }
    if row.pairs == u32::MAX || !row.energy.can_plus(energy) {
        return false;
    }
    table.add(quarter, direction, flow);
    true
}

// Takes a pair out if it may be taken out; returns whether it did.
fn cut(table: &mut QuarterTable, quarter: Quarter, direction: Direction, flow: Flow) -> bool {
    let energy = ByDirection::toward(direction, flow);
    let row = table.row(quarter);
    if row.pairs == 0 || !row.energy.can_minus(energy) {
        return false;
    }
    if row.pairs == 1 && row.energy != energy {
        return false;
    }
    table.remove(quarter, direction, flow);
    true
}

#[test]
fn small_arena_quarters(rt: HostRuntime) -> Result<(), Fail> {
    let mut work = Work::open(&rt);
    let up = difference(Level::new(0), Level::new(3), &mut work);
    let down = difference(Level::new(2), Level::new(0), &mut work);
    let half_past = quarter(HALF_PAST_TEN)?;
    let mut table = QuarterTable::reserve(rt.alloc(), 1)?;
    assert!(rt; put(&mut table, half_past, Import, up));
    assert!(rt; put(&mut table, half_past, Import, down));
    let row = table.row(half_past);
    let flow = row.energy.import;
    assert_eq!(rt; (row.pairs, flow.up(), flow.down()), (2, 3, 2));
    assert_eq!(rt; (table.rows().len(), table.room()), (1, 0));
    let next = quarter(HALF_PAST_TEN + 1)?;
    assert!(rt; !put(&mut table, next, Import, up));
    assert!(rt; cut(&mut table, half_past, Import, up) && table.holds(half_past));
    assert!(rt; cut(&mut table, half_past, Import, down) && !table.holds(half_past));
    assert_eq!(rt; (table.rows().len(), table.room()), (0, 1));
    Ok(())
}

#[test]
fn a_quarter_without_a_difference_stands(rt: HostRuntime) -> Result<(), Fail> {
    let half_past = quarter(HALF_PAST_TEN)?;
    let mut table = QuarterTable::reserve(rt.alloc(), 2)?;
    assert!(rt; put(&mut table, half_past, Import, Flow::zero()));
    assert!(rt; put(&mut table, half_past, Import, Flow::zero()));
    assert!(rt; cut(&mut table, half_past, Import, Flow::zero()));
    assert!(rt; table.holds(half_past));
    assert!(rt; table.row(half_past).energy == ByDirection::zero());
    assert!(rt; cut(&mut table, half_past, Import, Flow::zero()));
    assert!(rt; !table.holds(half_past));
    Ok(())
}

#[test]
fn a_quarter_stands_while_it_has_a_pair_of_either_direction(rt: HostRuntime) -> Result<(), Fail> {
    let mut work = Work::open(&rt);
    let up = difference(Level::new(0), Level::new(3), &mut work);
    let half_past = quarter(HALF_PAST_TEN)?;
    let mut table = QuarterTable::reserve(rt.alloc(), 1)?;
    assert!(rt; put(&mut table, half_past, Import, up) && put(&mut table, half_past, Export, up));
    assert!(rt; cut(&mut table, half_past, Import, up));
    let row = table.row(half_past);
    assert_eq!(rt;
        (row.pairs, row.energy.import.up(), row.energy.export.up()),
        (1, 0, 3)
    );
    assert!(rt; cut(&mut table, half_past, Export, up) && !table.holds(half_past));
    Ok(())
}
