//! The sums over a station's live events, kept so that no figure needs a walk.
ghost use Rattle.std.{specs.Prelude.{◌≡◌, ℕ, ◌+◌, ◌<◌, List, [], None, length, IfOk, IfSome}, specs.FinMap.find};
ghost use Rattle.event_chain.specs.Chains.{stored};
ghost use Rattle.ledger_model.{specs.ByDirection.{no_flows, plus_flows, minus_flows}, specs.Content.Entry, specs.Figures.no_figures, specs.Ranges.greatest_evse};
ghost use Rattle.transaction_map.{specs.Map.id_cmp, specs.Places.IsAt};
ghost use Rattle.station_ledger.{specs.Moved.{sum_at, CanExchange, IsExchanged, flows_in}, specs.Quarters.{HasEvent, IsWork}, specs.ByMoment.AreByMoment, specs.Spent.most_turned, specs.Sums.{keep, order_in, order_of, AreSummed, AreAllowed, ArePairsMoved, AreQuarterRows, AreTurning, CanReplace, IsReplaced}};

use crate::by_moment::{ByMoment, Exchange, move_event};
use crate::pairs::{Energies, Way, move_both, move_gap};
use crate::standing::{Standing, standing_after};
use crate::totals::{Change, EvseSum, move_at_evses, move_in_figures};
use energy_flow::{Flow, Work};
use event_chain::{Around, Chains};
use ledger_model::{ByDirection, Event, Figures, GREATEST_EVSE, Key, Limits, Order, Periods, TxId};
use quarter_table::QuarterTable;
use std::alloc::{AllocError, Global};
use transaction_map::TransactionMap;

// The sums over the live events. The figures are kept without the energies, which are beside them. If the
// readings of a transaction are taken by moment, they are kept so.
#[derive(Drop)]
pub(crate) struct Sums {
    pub(crate) kept: TransactionMap<Standing>,
    pub(crate) evses: Vec<EvseSum>,
    pub(crate) period: Periods,
    pub(crate) quarters: QuarterTable,
    pub(crate) energies: Energies,
    pub(crate) figures: Figures,
    pub(crate) by_moment: Option<ByMoment>,
}

// The sums of no events, one for each EVSE.
fn no_sums(alloc: Global) -> Result<Vec<EvseSum>, AllocError>
    ensures all { IfOk result (λ evses. length evses.items ≡ greatest_evse + 1) }
    ensures none { IfOk result (λ evses. (n : ℕ) → sum_at evses.items n ≡ record { transactions = 0; energy = no_flows }) }
{
    let count = usize::from(GREATEST_EVSE) + 1;
    let mut evses = Vec::with_capacity(alloc, count)?;
    for _ in 0..count {
        evses.push_reserved(EvseSum {
            transactions: 0,
            energy: ByDirection::zero(),
        });
    }
    Ok(evses)
}

// The readings by moment of no events, if they are taken so.
fn by_moment_in(
    alloc: Global,
    limits: &Limits,
    order: Order,
) -> Result<Option<ByMoment>, AllocError>
    ensures order { IfOk result (λ b. order_of b ≡ order) }
    ensures none { IfOk result (λ b. IfSome b (AreByMoment limits.now [])) }
{
    match order {
        Order::Sequence => Ok(None),
        Order::Moment => Ok(Some(ByMoment::open(alloc, limits)?)),
    }
}

impl Sums {
    // The order in which the readings of a transaction are taken.
    pub(crate) fn order(&self) -> Order
        ensures { result ≡ order_in self.now }
    {
        match self.by_moment {
            None => Order::Sequence,
            Some(_) => Order::Moment,
        }
    }

    // The sums of no events, by this length of settlement periods, with room for as many events as
    // these limits allow.
    pub(crate) fn open(
        alloc: Global,
        limits: &Limits,
        period: Periods,
        order: Order,
    ) -> Result<Self, AllocError>
        ensures period { IfOk result (λ s. s.period ≡ period) }
        ensures order { IfOk result (λ s. order_in s ≡ order) }
        ensures summed { IfOk result (λ s. AreSummed limits.now [] s) }
        ensures voided { IfOk result (λ s. s.figures.voided ≡ 0) }
    {
        Ok(Sums {
            kept: TransactionMap::open(alloc, limits.transactions())?,
            evses: no_sums(alloc)?,
            period,
            quarters: QuarterTable::reserve(alloc, limits.readings())?,
            energies: ByDirection::zero(),
            figures: Figures::zero(),
            by_moment: by_moment_in(alloc, limits, order)?,
        })
    }
}

// The energies of a transaction's standing.
fn energies_of(was: &Option<Standing>) -> Energies
    ensures { result ≡ flows_in was.now }
{
    match was {
        Some(s) => s.energy,
        None => ByDirection::zero(),
    }
}

impl Exchange {
    // Energies with what came added and what went taken away.
    fn applied(&self, energies: Energies) -> Energies
        requires { CanExchange energies self.now.less self.now.more }
        ensures { result ≡ minus_flows (plus_flows energies self.now.more) self.now.less }
    {
        energies.plus(self.more).minus(self.less)
    }
}

// The standing of a transaction and the place of its row, if it has one.
fn found(kept: &TransactionMap<Standing>, tx: &TxId) -> (Option<usize>, Option<Standing>)
    ensures at { IfSome result.0 (λ i. IsAt tx.now kept.now.rows i) }
    ensures was { result.1 ≡ find id_cmp tx.now kept.now.rows }
{
    match kept.find(tx) {
        Some((at, s)) => (Some(at), Some(s)),
        None => (None, None),
    }
}

// Writes the standing of a transaction, or takes out its row if it has none now. The place of the row
// may be known.
fn keep(kept: &mut TransactionMap<Standing>, at: Option<usize>, tx: &TxId, change: &Change)
    requires at { IfSome at (λ i. IsAt tx.now kept.old.rows i) }
    requires place { find id_cmp tx.now kept.old.rows ≡ None → (change.now.is ≡ None → ⊥) → length kept.old.rows < kept.old.capacity }
    ensures rows { kept.new.rows ≡ keep tx.now change.now.is kept.old.rows }
    ensures capacity { kept.new.capacity ≡ kept.old.capacity }
{
    match (at, change.is) {
        (Some(at), Some(s)) => kept.set_at(at, tx, s),
        (None, Some(s)) => kept.put(tx, s),
        (_, None) => {
            kept.remove(tx);
        }
    }
}

// Replaces a transaction's standing in all sums. The place of its row may be known.
fn replace_standing(sums: &mut Sums, at: Option<usize>, tx: &TxId, change: &Change)
    requires at { IfSome at (λ i. IsAt tx.now sums.old.kept.rows i) }
    requires can { CanReplace tx.now change.now sums.old }
    ensures { IsReplaced tx.now change.now sums.old sums.new }
{
    keep(&mut sums.kept, at, tx, change);
    move_at_evses(&mut sums.evses, change);
    move_in_figures(&mut sums.figures, change);
}

// Moves the pairs of a live event that came to the chains, or went from them: those that its readings make come
// or go with it, and those across its place go or come. What goes, goes first: so there is room. The caller passes
// the event if it has it.
fn turn_pairs(
    chains: &Chains,
    sums: &mut Sums,
    way: Way,
    key: &Key,
    own: Option<&Event>,
    place: &Around,
    work: &mut Work,
) -> Exchange
    requires within { AreAllowed (order_in sums.old) chains.now.limits (stored chains.now) }
    requires own { IfSome own (λ e. HasEvent key.now e.now chains.now) }
    requires turns { (es : List Entry) × AreTurning way es chains.now key.now place.now sums.old }
    ensures kept { ArePairsMoved sums.old sums.new }
    ensures rows { AreQuarterRows (order_in sums.old) chains.now.limits (stored chains.now) sums.old.period sums.new.quarters }
    ensures timed { IfSome sums.new.by_moment (AreByMoment chains.now.limits (stored chains.now)) }
    ensures exchanged { (es : List Entry) → AreTurning way es chains.now key.now place.now sums.old → IsExchanged (order_in sums.old) key.now.tx es (stored chains.now) result.less result.more }
    ensures work { (es : List Entry) → AreTurning way es chains.now key.now place.now sums.old → IsWork (most_turned (order_in sums.old) way chains.now key.now es) work.old work.new }
{
    let period = sums.period;
    let quarters = &mut sums.quarters;
    match &mut sums.by_moment {
        Some(by_moment) => move_event(chains, by_moment, quarters, period, key, way, work),
        None => match way {
            Way::Coming => {
                let less = move_gap(quarters, period, Way::Going, place, work);
                let more = move_both(quarters, period, Way::Coming, place, chains, key, own, work);
                Exchange { less, more }
            }
            Way::Going => {
                let less = move_both(quarters, period, Way::Going, place, chains, key, None, work);
                let more = move_gap(quarters, period, Way::Coming, place, work);
                Exchange { less, more }
            }
        },
    }
}

// Moves in all sums a live event that came to the chains, or went from them. The caller passes the event if it
// was delivered.
pub(crate) fn turn_event(
    chains: &Chains,
    sums: &mut Sums,
    way: Way,
    key: &Key,
    own: Option<&Event>,
    place: &Around,
    work: &mut Work,
)
    requires within { AreAllowed (order_in sums.old) chains.now.limits (stored chains.now) }
    requires own { IfSome own (λ e. HasEvent key.now e.now chains.now) }
    requires turns { (es : List Entry) × AreTurning way es chains.now key.now place.now sums.old }
    ensures summed { AreSummed chains.now.limits (stored chains.now) sums.new }
    ensures period { sums.new.period ≡ sums.old.period }
    ensures order { order_in sums.new ≡ order_in sums.old }
    ensures voided { sums.new.figures.voided ≡ sums.old.figures.voided }
    ensures work { (es : List Entry) → AreTurning way es chains.now key.now place.now sums.old → IsWork (most_turned (order_in sums.old) way chains.now key.now es) work.old work.new }
{
    let tx = key.tx();
    let (at, was) = found(&sums.kept, tx);
    let exchange = turn_pairs(chains, sums, way, key, own, place, work);
    sums.energies = exchange.applied(sums.energies);
    let energy = exchange.applied(energies_of(&was));
    let is = standing_after(chains, tx, key.seq(), own, was, energy);
    replace_standing(sums, at, tx, &Change { was, is });
}
