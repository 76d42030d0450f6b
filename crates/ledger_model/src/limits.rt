ghost use Rattle.std.specs.Prelude.{◌≡◌, ◌≤◌, ◌↔◌, IsSome, IfSome};
ghost use Rattle.ledger_model.{specs.Limits.AreBounds, specs.Ranges.{most_transactions, most_events, most_readings, most_changes}};

use std::marker::Model;

/// How many transactions one station may store (this product's profile, as all limits here).
pub const MAX_TRANSACTIONS: u64 = 4_096;

/// How many events one station may store, voided ones among them.
pub const MAX_EVENTS: u64 = 65_536;

/// How many readings one station may store, those of voided events among them.
pub const MAX_READINGS: u64 = 65_536;

/// How many changes one station may accept: 2^63.
pub const MAX_CHANGES: u64 = 1 << 63;

/// How many sites a plan may have.
pub const MAX_SITES: usize = 16;

/// How many stations a plan may have, over all its sites.
pub const MAX_STATIONS: usize = 64;

/// How many readings the stations of a plan may store in all.
pub const MAX_PLAN_READINGS: u64 = 1_048_576;

/// What one station's ledger may keep: transactions, events and readings stored at once, and changes
/// accepted in all.
#[derive(Clone, Copy, PartialEq, Eq)]
pub struct Limits {
    transactions: u32,
    events: u32,
    readings: u32,
    changes: u64,
}

impl Model for Limits {
    ghost use Rattle.ledger_model.specs.Limits.{Bounds, AreBounds};

    ghost Value = { Bounds };

    ghost view = { λ l. record { transactions = l.transactions; events = l.events; readings = l.readings; changes = l.changes } };

    ghost invariant = { λ l. AreBounds l.transactions l.events l.readings l.changes };

    ghost inverse = { λ b. record { transactions = b.transactions; events = b.events; readings = b.readings; changes = b.changes } };
}

impl Limits {
    /// These limits; `None` if one is out of range: transactions 1 to 4,096, events and readings 1
    /// to 65,536, changes 1 to 2^63.
    pub fn new(transactions: u64, events: u64, readings: u64, changes: u64) -> Option<Self>
        ensures valid { IsSome result ↔ AreBounds transactions events readings changes }
        ensures transactions { IfSome result (λ l. l.transactions ≡ transactions) }
        ensures events { IfSome result (λ l. l.events ≡ events) }
        ensures readings { IfSome result (λ l. l.readings ≡ readings) }
        ensures changes { IfSome result (λ l. l.changes ≡ changes) }
    {
        let are_few = transactions <= MAX_TRANSACTIONS
            && events <= MAX_EVENTS
            && readings <= MAX_READINGS;
        let are_some = transactions >= 1 && events >= 1 && readings >= 1;
        if are_few && are_some && changes >= 1 && changes <= MAX_CHANGES {
            Some(Limits {
                transactions: transactions as u32,
                events: events as u32,
                readings: readings as u32,
                changes,
            })
        } else {
            None
        }
    }

    /// A copy of the limits, each in its range.
    pub fn copied(&self) -> Self
        ensures value { result ≡ self.now }
        ensures transactions { result.transactions ≤ most_transactions }
        ensures events { result.events ≤ most_events }
        ensures readings { result.readings ≤ most_readings }
        ensures changes { result.changes ≤ most_changes }
    {
        Limits {
            transactions: self.transactions,
            events: self.events,
            readings: self.readings,
            changes: self.changes,
        }
    }

    /// How many transactions may be stored at once, 1 to 4,096.
    pub fn transactions(&self) -> u32
        ensures value { result ≡ self.now.transactions }
        ensures least { 1 ≤ result }
        ensures most { result ≤ most_transactions }
    {
        self.transactions
    }

    /// How many events may be stored at once, voided ones among them, 1 to 65,536.
    pub fn events(&self) -> u32
        ensures value { result ≡ self.now.events }
        ensures least { 1 ≤ result }
        ensures most { result ≤ most_events }
    {
        self.events
    }

    /// How many readings may be stored at once, those of voided events among them, 1 to 65,536.
    pub fn readings(&self) -> u32
        ensures value { result ≡ self.now.readings }
        ensures least { 1 ≤ result }
        ensures most { result ≤ most_readings }
    {
        self.readings
    }

    /// How many changes may be accepted in all, 1 to 2^63.
    pub fn changes(&self) -> u64
        ensures value { result ≡ self.now.changes }
        ensures least { 1 ≤ result }
        ensures most { result ≤ most_changes }
    {
        self.changes
    }
}

impl Default for Limits {
    ghost use Rattle.std.specs.Prelude.{◌≡◌};
    ghost use Rattle.ledger_model.specs.Limits.{default_limits};

    ghost is_default = { λ l. l ≡ default_limits };

    /// The limits of a station that declares none: 1,024 transactions, 16,384 events, 16,384
    /// readings, 2^63 changes.
    fn default() -> Self {
        Limits {
            transactions: 1_024,
            events: 16_384,
            readings: 16_384,
            changes: MAX_CHANGES,
        }
    }
}
