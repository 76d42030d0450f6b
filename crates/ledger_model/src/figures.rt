ghost use Rattle.std.specs.Prelude.{◌≡◌, ◌↔◌, IfNone, IfSome, IsTrue};

use crate::{GREATEST_READING, Limits};

/// How many figures there are.
pub const FIGURES: usize = 9;

/// The numbers that sum up a station or a site.
#[derive(Clone, Copy, PartialEq, Eq)]
pub struct Figures {
    /// Events that are stored and not voided.
    pub events: u64,
    /// Events that are voided.
    pub voided: u64,
    /// Transactions with a live event, that is, one that is not voided.
    pub transactions: u64,
    /// How many of these transactions are complete.
    pub complete: u64,
    /// How many sequence numbers are missing in these transactions.
    pub missing: u64,
    /// The rises of the import register over all transactions, in milliwatt-hours.
    pub up: u64,
    /// The falls of the import register over all transactions, in milliwatt-hours.
    pub down: u64,
    /// The rises of the export register over all transactions, in milliwatt-hours.
    pub export_up: u64,
    /// The falls of the export register over all transactions, in milliwatt-hours.
    pub export_down: u64,
}

impl Figures {
    ghost use Rattle.ledger_model.{specs.Figures.{figure_list, no_figures, AreWithin, Overflow}, specs.Board.plus_figures};

    /// The figures of a station without events.
    pub fn zero() -> Self
        ensures { result ≡ no_figures }
    {
        Figures::from_array([0; FIGURES])
    }

    /// The figures of these numbers, in the order of a board's line.
    pub fn from_array(numbers: [u64; FIGURES]) -> Self
        ensures { figure_list result ≡ numbers }
    {
        let [
            events,
            voided,
            transactions,
            complete,
            missing,
            up,
            down,
            export_up,
            export_down,
        ] = numbers;
        Figures {
            events,
            voided,
            transactions,
            complete,
            missing,
            up,
            down,
            export_up,
            export_down,
        }
    }

    /// The figures in the order of a board's line.
    pub fn to_array(&self) -> [u64; FIGURES]
        ensures { result ≡ figure_list self.now }
    {
        [
            self.events,
            self.voided,
            self.transactions,
            self.complete,
            self.missing,
            self.up,
            self.down,
            self.export_up,
            self.export_down,
        ]
    }

    /// The sum of both, figure by figure; `None` if one does not fit in 64 bits.
    pub fn checked_add(&self, other: &Self) -> Option<Self>
        ensures sum { IfSome result (λ f. f ≡ plus_figures self.now other.now) }
        ensures none { IfNone result (Overflow self.now other.now) }
    {
        let mut sums = self.to_array();
        let others = other.to_array();
        for k in 0..FIGURES {
            sums[k] = sums[k].checked_add(others[k])?;
        }
        Some(Figures::from_array(sums))
    }

    /// Returns whether a station of these limits can have such figures.
    pub fn within(&self, limits: &Limits) -> bool
        ensures { IsTrue result ↔ AreWithin limits.now self.now }
    {
        let events = limits.events() as u64;
        let transactions = limits.transactions() as u64;
        let energy = limits.readings() as u64 * GREATEST_READING;
        let are_events = self.events <= events && self.voided <= events - self.events;
        let are_transactions = self.transactions <= transactions && self.complete <= transactions;
        let is_energy = self.up <= energy && self.down <= energy;
        let is_export = self.export_up <= energy && self.export_down <= energy;
        let are_few = are_events && are_transactions;
        are_few && is_energy && is_export && self.missing <= transactions << 31
    }
}
