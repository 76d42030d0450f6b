//! The standing of each transaction, kept so that no figure needs a walk.
ghost use Rattle.std.specs.Prelude.{◌≡◌, ◌<◌, ◌≤◌, None, IfSome};
ghost use Rattle.event_chain.specs.Chains.{stored};
ghost use Rattle.ledger_model.{specs.Complete.{kinds_of, is_complete, starts_and_ends as start_and_end}, specs.Gaps.{numbers_of, missing}};
ghost use Rattle.station_ledger.{specs.Coming.IsOneLess, specs.Standing.{kept_with, standing_with, starts_and_ends_by}};

use crate::pairs::Energies;
use energy_flow::Flow;
use event_chain::Chains;
use ledger_model::{ByDirection, Event, EvseId, Kind, TxId};

/// What the ledger keeps of a transaction with a live event.
#[derive(Clone, Copy)]
pub struct Standing {
    /// Its lowest live number.
    pub first: u32,
    /// How many live events it has.
    pub live: u32,
    /// The EVSE that its lowest live event with an EVSE names, else 0.
    pub evse: EvseId,
    /// Whether it is complete.
    pub complete: bool,
    /// How many numbers are missing between its live events.
    pub missing: u32,
    /// Its energies, in milliwatt-hours.
    pub energy: ByDirection<Flow>,
}

// Returns whether a transaction's lowest live event is Started, its highest is Ended, and no other
// is either.
fn starts_and_ends(events: &event_chain::TxStanding) -> bool
    ensures { result ≡ starts_and_ends_by events.now.first_kind events.now.last_kind events.now.ends }
{
    events.ends == 2
        && matches!(events.first_kind, Some(Kind::Started))
        && matches!(events.last_kind, Some(Kind::Ended))
}

// The standing of a transaction with these energies; none if it has no live event.
#[inline(never)]
pub(crate) fn standing_of(chains: &Chains, tx: &TxId, energy: Energies) -> Option<Standing>
    ensures { result ≡ kept_with energy tx.now (stored chains.now) }
{
    let events = chains.standing(tx);
    match (events.first, events.last) {
        (Some(first), Some(last)) => {
            let missing = last - first - (events.live - 1);
            Some(Standing {
                first,
                live: events.live,
                evse: events.evse,
                complete: missing == 0 && starts_and_ends(&events),
                missing,
                energy,
            })
        }
        _ => None,
    }
}

// No transaction has more live events.
const MOST_LIVE: u32 = 65_536;

// Returns whether a transaction's live events start and end as those of a complete transaction.
#[inline(never)]
fn has_ends(chains: &Chains, tx: &TxId) -> bool
    ensures { result ≡ start_and_end (kinds_of tx.now (stored chains.now)) }
{
    if chains.end_count(tx) != 2 {
        return false;
    }
    starts_and_ends(&chains.standing(tx))
}

// Returns whether a transaction is complete if it misses this many numbers.
fn is_whole(chains: &Chains, tx: &TxId, lacking: u32) -> bool
    requires { lacking ≡ missing (numbers_of tx.now (stored chains.now)) }
    ensures { result ≡ is_complete tx.now (stored chains.now) }
{
    if lacking != 0 {
        return false;
    }
    has_ends(chains, tx)
}

// The standing of a transaction after the event of this number came, behind its first one.
fn one_more(chains: &Chains, tx: &TxId, seq: u32, was: Standing, energy: Energies) -> Standing
    requires less { IsOneLess was tx.now seq (stored chains.now) }
    requires behind { was.first < seq }
    requires bounded { was.live ≤ 65536 }
    ensures { result ≡ standing_with energy tx.now (stored chains.now) }
{
    // The number just behind the last one that was live before.
    let behind = u64::from(was.first) + u64::from(was.live) + u64::from(was.missing);
    let lacking = if u64::from(seq) < behind {
        was.missing - 1
    } else {
        seq - was.first - was.live
    };
    Standing {
        first: was.first,
        live: was.live + 1,
        evse: was.evse,
        complete: is_whole(chains, tx, lacking),
        missing: lacking,
        energy,
    }
}

// The standing of a transaction with one more live event or one less, from its standing before. If a delivered
// event came that names no EVSE and is not the first one, it is made without a look at the last event.
pub(crate) fn standing_after(
    chains: &Chains,
    tx: &TxId,
    seq: u32,
    own: Option<&Event>,
    was: Option<Standing>,
    energy: Energies,
) -> Option<Standing>
    requires { IfSome own (λ e. e.now.evse ≡ None → IfSome was (λ w. IsOneLess w tx.now seq (stored chains.now))) }
    ensures { result ≡ kept_with energy tx.now (stored chains.now) }
{
    match (own, was) {
        (Some(event), Some(was))
            if event.evse().is_none() && was.live <= MOST_LIVE && was.first < seq => {
            Some(one_more(chains, tx, seq, was, energy))
        }
        _ => standing_of(chains, tx, energy),
    }
}
