//! Sums over transactions, and the part of one transaction in them.
ghost use Rattle.std.specs.Prelude.{◌≡◌, ℕ, ◌+◌, ◌≤◌, length, Some};
ghost use Rattle.ledger_model.specs.Ranges.{greatest_evse};
ghost use Rattle.station_ledger.specs.Moved.{sum_at, with_one, without_one, with_figures, without_figures, HasRoomAt, CountsAt, HaveRoom, DoCount};

use crate::standing::Standing;
use energy_flow::Flow;
use ledger_model::{ByDirection, Figures};

// The standing of a transaction before and after.
#[derive(Clone, Copy)]
pub(crate) struct Change {
    pub(crate) was: Option<Standing>,
    pub(crate) is: Option<Standing>,
}

/// The transactions with a live event of an EVSE, and their energy.
#[derive(Clone, Copy)]
pub struct EvseSum {
    /// How many transactions it has.
    pub transactions: u32,
    /// Their energies, in milliwatt-hours.
    pub energy: ByDirection<Flow>,
}

// Counts a transaction at its EVSE.
fn add_at_evse(evses: &mut Vec<EvseSum>, s: Standing)
    requires all { length evses.old.items ≡ greatest_evse + 1 }
    requires room { HasRoomAt s.evse (Some s) (sum_at evses.old.items s.evse) }
    ensures all { length evses.new.items ≡ greatest_evse + 1 }
    ensures sums { (n : ℕ) → sum_at evses.new.items n ≡ with_one n (Some s) (sum_at evses.old.items n) }
{
    // An EVSE's number is at most 64.
    let at = usize::from(s.evse.number());
    let sum = evses[at];
    evses[at] = EvseSum {
        transactions: sum.transactions + 1,
        energy: sum.energy.plus(s.energy),
    };
}

// Takes a transaction out of the sums of its EVSE.
fn subtract_at_evse(evses: &mut Vec<EvseSum>, s: Standing)
    requires all { length evses.old.items ≡ greatest_evse + 1 }
    requires counts { CountsAt s.evse (Some s) (sum_at evses.old.items s.evse) }
    ensures all { length evses.new.items ≡ greatest_evse + 1 }
    ensures sums { (n : ℕ) → sum_at evses.new.items n ≡ without_one n (Some s) (sum_at evses.old.items n) }
{
    // An EVSE's number is at most 64.
    let at = usize::from(s.evse.number());
    let sum = evses[at];
    evses[at] = EvseSum {
        transactions: sum.transactions - 1,
        energy: sum.energy.minus(s.energy),
    };
}

// Moves a transaction in the sums of EVSEs, from what it was to what it is.
pub(crate) fn move_at_evses(evses: &mut Vec<EvseSum>, change: &Change)
    requires all { length evses.old.items ≡ greatest_evse + 1 }
    requires room { (n : ℕ) → n ≤ greatest_evse → HasRoomAt n change.now.is (sum_at evses.old.items n) }
    requires counts { (n : ℕ) → n ≤ greatest_evse → CountsAt n change.now.was (with_one n change.now.is (sum_at evses.old.items n)) }
    ensures all { length evses.new.items ≡ greatest_evse + 1 }
    ensures sums { (n : ℕ) → sum_at evses.new.items n ≡ without_one n change.now.was (with_one n change.now.is (sum_at evses.old.items n)) }
{
    let Change { was, is } = *change;
    if let Some(s) = is {
        add_at_evse(evses, s);
    }
    if let Some(s) = was {
        subtract_at_evse(evses, s);
    }
}

// The figures with a transaction counted.
fn counted(figures: Figures, s: Standing) -> Figures
    requires { HaveRoom (Some s) figures }
    ensures { result ≡ with_figures (Some s) figures }
{
    Figures {
        events: figures.events + u64::from(s.live),
        transactions: figures.transactions + 1,
        complete: figures.complete + u64::from(s.complete),
        missing: figures.missing + u64::from(s.missing),
        ..figures
    }
}

// The figures without a transaction.
fn uncounted(figures: Figures, s: Standing) -> Figures
    requires { DoCount (Some s) figures }
    ensures { result ≡ without_figures (Some s) figures }
{
    Figures {
        events: figures.events - u64::from(s.live),
        transactions: figures.transactions - 1,
        complete: figures.complete - u64::from(s.complete),
        missing: figures.missing - u64::from(s.missing),
        ..figures
    }
}

// Moves a transaction in the figures, from what it was to what it is.
pub(crate) fn move_in_figures(figures: &mut Figures, change: &Change)
    requires room { HaveRoom change.now.is figures.old }
    requires counts { DoCount change.now.was (with_figures change.now.is figures.old) }
    ensures { figures.new ≡ without_figures change.now.was (with_figures change.now.is figures.old) }
{
    if let Some(s) = change.is {
        *figures = counted(*figures, s);
    }
    if let Some(s) = change.was {
        *figures = uncounted(*figures, s);
    }
}
