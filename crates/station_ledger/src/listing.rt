//! The events and readings of a transaction.
ghost use Rattle.std.{specs.Prelude.{◌≡◌, ◌++◌, All, List, IfOk, IfSome}, specs.List.flat_map};
ghost use Rattle.event_chain.specs.Chains.{stored};
ghost use Rattle.ledger_model.{specs.Content.Entry, specs.Energy.{difference, flows_of_by, parts_of}, specs.Limits.Bounds, specs.Quarter.IsQuarterOf, specs.declared.order.Order.Order, specs.declared.order.Order.TheVariants.Sequence, specs.declared.reading.Direction.TheVariants.{Export, Import}};
ghost use Rattle.station_ledger.{specs.ByMoment.AreByMoment, specs.Listing.{AreListedByMoment, IsByMoment, listing_by, placed_by, placed_from}, specs.Numbered.{AreNumbered, AreNumbers}, specs.Quarters.readings_at, specs.Sums.{AreAllowed, AreStanding, AreSummed, order_in}};

use crate::by_moment::ByMoment;
use crate::sums::Sums;
use energy_flow::Flow;
use event_chain::{Chains, EventLine};
use gap_list::NumberWalk;
use ledger_model::{
    ByDirection, Direction, Key, Listed, Order, Periods, Quarter, Reading, Settle, TxId,
};
use quarter_table::share_evenly;
use reading_decimal::settled_quarter;
use reading_index::PlacedReading;
use std::alloc::{AllocError, Global};

/// The events of a transaction, its live readings and its energies.
#[derive(Drop)]
pub struct TxListing {
    /// The order in which the site takes readings.
    pub order: Order,
    /// The site's settlement periods.
    pub period: Periods,
    /// The events, live and voided, by rising number.
    pub events: Listed<EventLine>,
    /// The energies, in milliwatt-hours.
    pub energy: ByDirection<Flow>,
    /// The live readings of the import register, in the site's order.
    pub imported: Listed<PlacedReading>,
    /// The live readings of the export register, in the site's order.
    pub exported: Listed<PlacedReading>,
}

// Puts the readings of a direction of the event of a key behind those of a list, each with its place.
fn push_readings(
    listed: &mut Vec<PlacedReading>,
    chains: &Chains,
    key: &Key,
    direction: Direction,
) -> Result<(), AllocError>
    ensures { IfOk result (λ _. listed.new.items ≡ listed.old.items ++ placed_from key.now.seq 0 (readings_at direction chains.now key.now)) }
{
    let start = listed.len();
    let mut left = chains.readings(key, direction);
    while let Some(reading) = left.next() {
        let place = listed.len() - start;
        listed.push(PlacedReading {
            number: key.seq(),
            place,
            reading,
        })?;
    }
    Ok(())
}

// The readings of a direction of a transaction's events, along a walk over their numbers.
fn readings_along<W: NumberWalk>(
    alloc: Global,
    chains: &Chains,
    walk: &W,
    tx: &TxId,
    direction: Direction,
) -> Result<Vec<PlacedReading>, AllocError>
    requires { AreNumbers (W.numbers walk.now) }
    ensures { IfOk result (λ listed. listed.items ≡ flat_map (λ n. placed_from n 0 (readings_at direction chains.now (record { tx = tx.now; seq = n }))) (W.numbers walk.now)) }
{
    let mut listed = Vec::new(alloc);
    let mut place = walk.start();
    while let Some(here) = place {
        // The numbers of a walk are those of events.
        let key = Key::new(tx.copied(), walk.number(here)).unwrap();
        push_readings(&mut listed, chains, &key, direction)?;
        place = walk.next(here);
    }
    Ok(listed)
}

// The live readings of a transaction in one direction, by sequence.
fn readings_in_sequence(
    alloc: Global,
    chains: &Chains,
    tx: &TxId,
    direction: Direction,
) -> Result<Vec<PlacedReading>, AllocError>
    requires { AreNumbered (stored chains.now) }
    ensures { IfOk result (λ listed. listed.items ≡ placed_by Sequence direction tx.now (stored chains.now)) }
{
    readings_along(alloc, chains, &chains.walk(tx), tx, direction)
}

// The live readings of a transaction in one direction, by moment.
fn readings_in_time(
    alloc: Global,
    by_moment: &ByMoment,
    tx: &TxId,
    direction: Direction,
) -> Result<Vec<PlacedReading>, AllocError>
    requires { IsByMoment by_moment.now }
    ensures { IfOk result (λ listed. AreListedByMoment by_moment.now tx.now direction listed.items) }
{
    let mut listed = Vec::new(alloc);
    if let Some(row) = by_moment.slots.get(tx) {
        by_moment.index.list(row.slot, direction, &mut listed)?;
    }
    Ok(listed)
}

// The live readings of a transaction in one direction, in the station's order.
pub(crate) fn readings_in_order(
    alloc: Global,
    chains: &Chains,
    sums: &Sums,
    tx: &TxId,
    direction: Direction,
) -> Result<Vec<PlacedReading>, AllocError>
    requires within { AreAllowed (order_in sums.now) chains.now.limits (stored chains.now) }
    requires numbered { AreNumbered (stored chains.now) }
    requires timed { IfSome sums.now.by_moment (AreByMoment chains.now.limits (stored chains.now)) }
    ensures { IfOk result (λ listed. listed.items ≡ placed_by (order_in sums.now) direction tx.now (stored chains.now)) }
{
    match &sums.by_moment {
        None => readings_in_sequence(alloc, chains, tx, direction),
        Some(by_moment) => readings_in_time(alloc, by_moment, tx, direction),
    }
}

// The energies of a transaction, none if it has no live event.
fn energies_of(sums: &Sums, tx: &TxId) -> ByDirection<Flow>
    ensures { (order : Order) (limits : Bounds) (es : List Entry) → AreStanding order limits es sums.now.kept → result ≡ flows_of_by order tx.now es }
{
    match sums.kept.get(tx) {
        Some(standing) => standing.energy,
        None => ByDirection::zero(),
    }
}

// The events of a transaction, its live readings and its energies.
pub(crate) fn listing_of(
    alloc: Global,
    chains: &Chains,
    sums: &Sums,
    tx: &TxId,
) -> Result<TxListing, AllocError>
    requires within { AreAllowed (order_in sums.now) chains.now.limits (stored chains.now) }
    requires numbered { AreNumbered (stored chains.now) }
    requires summed { AreSummed chains.now.limits (stored chains.now) sums.now }
    ensures { IfOk result (λ l. l ≡ listing_by (order_in sums.now) sums.now.period tx.now (stored chains.now)) }
{
    let events = chains.events(alloc, tx)?;
    let imported = readings_in_order(alloc, chains, sums, tx, Direction::Import)?;
    let exported = readings_in_order(alloc, chains, sums, tx, Direction::Export)?;
    Ok(TxListing {
        order: sums.order(),
        period: sums.period,
        events: Listed::of(events),
        energy: energies_of(sums, tx),
        imported: Listed::of(imported),
        exported: Listed::of(exported),
    })
}

/// The parts of the difference of two readings of a direction, the later one behind the earlier: each settlement period
/// to which a part belongs, in rising order, and the energy of that part, in milliwatt-hours. There is one part, unless
/// the site settles evenly. No level is looked at. The error says that the allocator refused memory.
///
/// Condition: the flow is the difference of the readings' levels.
pub fn parts_between(
    alloc: Global,
    period: Periods,
    earlier: Reading,
    later: Reading,
    flow: Flow,
) -> Result<Vec<(Quarter, Flow)>, AllocError>
    requires { flow ≡ difference (earlier, later) }
    ensures parts { IfOk result (λ parts. parts.items ≡ parts_of period (earlier, later)) }
    ensures own { IfOk result (λ parts. All (λ t. IsQuarterOf period.length t.0) parts.items) }
{
    // Each period between two moments begins at one: their nanoseconds are those of moments.
    let (_since, _until) = (earlier.moment().nanos(), later.moment().nanos());
    if let Settle::Even = period.rule() {
        return share_evenly(alloc, period.length(), earlier, later, flow);
    }
    let mut parts = Vec::new(alloc);
    parts.push((settled_quarter(later.moment(), period), flow))?;
    Ok(parts)
}
