ghost use Rattle.std.specs.Prelude.{◌≡◌, ◌↔◌, IsSome, IfSome};
ghost use Rattle.ledger_model.{specs.Moment.{IsMoment, first_moment}, specs.Quarter.IsQuarter};

use std::marker::Model;

/// The nanosecond at which moments begin: 2000-01-01T00:00:00Z, counted from 1970 (this product's
/// profile, as the other bounds here).
pub const FIRST_MOMENT: u64 = 946_684_800_000_000_000;

/// The first nanosecond after the last moment: 2100-01-01T00:00:00Z, counted from 1970.
pub const MOMENTS_END: u64 = 4_102_444_800_000_000_000;

/// The settlement period of the first moment, by the longest length (3,600 seconds).
pub const FIRST_QUARTER: u32 = 262_968;

/// The settlement period of the last moment, by the shortest length (300 seconds).
pub const LAST_QUARTER: u32 = 13_674_815;

/// An instant of the years 2000 to 2099, in nanoseconds since 1970-01-01T00:00:00Z.
#[derive(Clone, Copy, PartialEq, Eq)]
pub struct Moment {
    nanos: u64,
}

impl Model for Moment {
    ghost use Rattle.std.specs.Prelude.{ℕ};
    ghost use Rattle.ledger_model.specs.Moment.{IsMoment};

    ghost Value = { ℕ };

    ghost view = { λ m. m.nanos };

    ghost invariant = { λ m. IsMoment m.nanos };

    ghost inverse = { λ n. record { nanos = n } };
}

impl Moment {
    /// The moment this many nanoseconds after 1970-01-01T00:00:00Z; `None` before 2000 and from
    /// 2100-01-01T00:00:00Z on.
    pub fn new(nanos: u64) -> Option<Self>
        ensures valid { IsSome result ↔ IsMoment nanos }
        ensures value { IfSome result (λ m. m ≡ nanos) }
    {
        if (FIRST_MOMENT..MOMENTS_END).contains(&nanos) {
            Some(Moment { nanos })
        } else {
            None
        }
    }

    /// The first moment, 2000-01-01T00:00:00Z.
    pub fn first() -> Self
        ensures { result ≡ first_moment }
    {
        Moment {
            nanos: FIRST_MOMENT,
        }
    }

    /// The nanoseconds since 1970-01-01T00:00:00Z.
    pub fn nanos(self) -> u64
        ensures value { result ≡ self }
        ensures range { IsMoment result }
    {
        self.nanos
    }
}

/// One settlement period, by its number: how many whole ones of its length fit between
/// 1970-01-01T00:00:00Z and its beginning. Its length is the [`Period`](crate::Period) that it was
/// counted by.
#[derive(Clone, Copy, PartialEq, Eq)]
pub struct Quarter {
    number: u32,
}

impl Model for Quarter {
    ghost use Rattle.std.specs.Prelude.{ℕ};
    ghost use Rattle.ledger_model.specs.Quarter.{IsQuarter};

    ghost Value = { ℕ };

    ghost view = { λ q. q.number };

    ghost invariant = { λ q. IsQuarter q.number };

    ghost inverse = { λ n. record { number = n } };
}

impl Quarter {
    /// The settlement period of this number; `None` outside 262,968 to 13,674,815, the numbers that
    /// moments have by some length.
    pub fn new(number: u32) -> Option<Self>
        ensures valid { IsSome result ↔ IsQuarter number }
        ensures value { IfSome result (λ q. q ≡ number) }
    {
        if (FIRST_QUARTER..=LAST_QUARTER).contains(&number) {
            Some(Quarter { number })
        } else {
            None
        }
    }

    /// How many whole periods of its length fit between 1970-01-01T00:00:00Z and its beginning.
    pub fn number(self) -> u32
        ensures value { result ≡ self }
        ensures range { IsQuarter result }
    {
        self.number
    }
}
