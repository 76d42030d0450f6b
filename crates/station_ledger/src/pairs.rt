//! Pairs of readings put into the table of periods, and taken out of it.
ghost use Rattle.std.specs.Prelude.{◌≡◌, ◌≤◌, length, IfSome, Some};
ghost use Rattle.ledger_model.{specs.Deltas.{across, pairs_between}, specs.Ranges.most_readings, specs.declared.reading.Direction.Direction, specs.Event.toward};
ghost use Rattle.station_ledger.{specs.Quarters.{both_length, readings_at, DidMove, DidMoveBoth, MayMove, MayMoveBoth}, specs.Sides.{sides_across, sides_between}};

use energy_flow::{Flow, Work, difference};
use event_chain::{Around, Chains, Sides};
use ledger_model::{ByDirection, Direction, Event, Key, Periods, Reading};
use quarter_table::QuarterTable;
use reading_decimal::settled_quarter;

// The sums of pairs in each direction.
pub(crate) type Energies = ByDirection<Flow>;

// Whether an event's readings, or pairs of readings, come or go.
#[derive(Clone, Copy)]
pub(crate) enum Way {
    Coming,
    Going,
}

// Adds the pair of two readings to the period of the later one, or takes it out of it, and returns its difference.
#[inline(never)]
fn move_pair(
    quarters: &mut QuarterTable,
    period: Periods,
    direction: Direction,
    way: Way,
    earlier: Reading,
    later: Reading,
    work: &mut Work,
) -> Flow
    requires { MayMove way period direction (across (Some earlier) (Some later)) quarters.old }
    ensures { DidMove way period direction (across (Some earlier) (Some later)) quarters.old quarters.new work.old work.new result }
{
    let flow = difference(earlier.level(), later.level(), work);
    let quarter = settled_quarter(later.moment(), period);
    match way {
        Way::Coming => quarters.add(quarter, direction, flow),
        Way::Going => quarters.remove(quarter, direction, flow),
    }
    flow
}

// Adds the pair of two readings, or takes it out, if both are there, and returns its difference.
#[inline(always)]
pub(crate) fn move_across(
    quarters: &mut QuarterTable,
    period: Periods,
    direction: Direction,
    way: Way,
    before: Option<Reading>,
    behind: Option<Reading>,
    work: &mut Work,
) -> Flow
    requires { MayMove way period direction (across before behind) quarters.old }
    ensures { DidMove way period direction (across before behind) quarters.old quarters.new work.old work.new result }
{
    match (before, behind) {
        (Some(earlier), Some(later)) => move_pair(
            quarters, period, direction, way, earlier, later, work,
        ),
        _ => Flow::zero(),
    }
}

// Adds the pairs that the readings of the event of a key make with one another and with those on either side, or takes
// them out, and returns their sums.
#[inline(never)]
fn move_stored(
    quarters: &mut QuarterTable,
    period: Periods,
    direction: Direction,
    way: Way,
    sides: Sides,
    chains: &Chains,
    key: &Key,
    work: &mut Work,
) -> Flow
    requires may { MayMove way period direction (pairs_between sides.before (readings_at direction chains.now key.now) sides.behind) quarters.old }
    requires few { length (pairs_between sides.before (readings_at direction chains.now key.now) sides.behind) ≤ most_readings }
    ensures { DidMove way period direction (pairs_between sides.before (readings_at direction chains.now key.now) sides.behind) quarters.old quarters.new work.old work.new result }
{
    let mut total = Flow::zero();
    let mut last = sides.before;
    let mut left = chains.readings(key, direction);
    while let Some(reading) = left.next() {
        let flow = move_across(quarters, period, direction, way, last, Some(reading), work);
        total = total.plus(flow);
        last = Some(reading);
    }
    let flow = move_across(quarters, period, direction, way, last, sides.behind, work);
    total.plus(flow)
}

// The same of an event whose readings of both directions are at hand.
#[inline(always)]
fn move_given(
    quarters: &mut QuarterTable,
    period: Periods,
    direction: Direction,
    way: Way,
    sides: Sides,
    readings: &[Reading],
    work: &mut Work,
) -> Flow
    requires may { MayMove way period direction (pairs_between sides.before (toward direction readings.now) sides.behind) quarters.old }
    requires few { length (pairs_between sides.before (toward direction readings.now) sides.behind) ≤ most_readings }
    ensures { DidMove way period direction (pairs_between sides.before (toward direction readings.now) sides.behind) quarters.old quarters.new work.old work.new result }
{
    let mut total = Flow::zero();
    let mut last = sides.before;
    let mut left = readings;
    while let [reading, more @ ..] = left {
        if reading.direction() == direction {
            let flow = move_across(quarters, period, direction, way, last, Some(*reading), work);
            total = total.plus(flow);
            last = Some(*reading);
        }
        left = more;
    }
    let flow = move_across(quarters, period, direction, way, last, sides.behind, work);
    total.plus(flow)
}

// The same of an event that the caller passes if it has it.
#[inline(always)]
fn move_own(
    quarters: &mut QuarterTable,
    period: Periods,
    direction: Direction,
    way: Way,
    sides: Sides,
    chains: &Chains,
    key: &Key,
    own: Option<&Event>,
    work: &mut Work,
) -> Flow
    requires own { IfSome own (λ e. toward direction e.now.readings ≡ readings_at direction chains.now key.now) }
    requires may { MayMove way period direction (pairs_between sides.before (readings_at direction chains.now key.now) sides.behind) quarters.old }
    requires few { length (pairs_between sides.before (readings_at direction chains.now key.now) sides.behind) ≤ most_readings }
    ensures { DidMove way period direction (pairs_between sides.before (readings_at direction chains.now key.now) sides.behind) quarters.old quarters.new work.old work.new result }
{
    match own {
        Some(event) => {
            let readings = event.readings();
            move_given(quarters, period, direction, way, sides, readings, work)
        }
        None => move_stored(quarters, period, direction, way, sides, chains, key, work),
    }
}

// Adds the pair across a place in each direction, or takes it out, and returns the differences.
pub(crate) fn move_gap(
    quarters: &mut QuarterTable,
    period: Periods,
    way: Way,
    place: &Around,
    work: &mut Work,
) -> Energies
    requires { MayMoveBoth way period (sides_across place.now) quarters.old }
    ensures { DidMoveBoth way period (sides_across place.now) quarters.old quarters.new work.old work.new result }
{
    let Sides { before, behind } = place.import;
    let import = move_across(
        quarters,
        period,
        Direction::Import,
        way,
        before,
        behind,
        work,
    );
    let Sides { before, behind } = place.export;
    let export = move_across(
        quarters,
        period,
        Direction::Export,
        way,
        before,
        behind,
        work,
    );
    ByDirection { import, export }
}

// Adds the pairs that an event's readings make in each direction, or takes them out, and returns their sums. The caller
// passes the event if it has it.
pub(crate) fn move_both(
    quarters: &mut QuarterTable,
    period: Periods,
    way: Way,
    place: &Around,
    chains: &Chains,
    key: &Key,
    own: Option<&Event>,
    work: &mut Work,
) -> Energies
    requires own { (d : Direction) → IfSome own (λ e. toward d e.now.readings ≡ readings_at d chains.now key.now) }
    requires may { MayMoveBoth way period (sides_between place.now chains.now key.now) quarters.old }
    requires few { both_length (sides_between place.now chains.now key.now) ≤ most_readings }
    ensures { DidMoveBoth way period (sides_between place.now chains.now key.now) quarters.old quarters.new work.old work.new result }
{
    let import = move_own(
        quarters,
        period,
        Direction::Import,
        way,
        place.import,
        chains,
        key,
        own,
        work,
    );
    let export = move_own(
        quarters,
        period,
        Direction::Export,
        way,
        place.export,
        chains,
        key,
        own,
        work,
    );
    ByDirection { import, export }
}
