ghost use Rattle.std.specs.Prelude.{◌≡◌, ◌↔◌, IsSome, IfSome};
ghost use Rattle.ledger_model.specs.Quarter.{IsPeriod};

use std::marker::Model;

/// The length of a market's settlement period: 300, 900, 1,800 or 3,600 seconds.
#[derive(Clone, Copy, PartialEq, Eq)]
pub struct Period {
    seconds: u16,
}

impl Model for Period {
    ghost use Rattle.std.specs.Prelude.{ℕ};
    ghost use Rattle.ledger_model.specs.Quarter.{IsPeriod};

    ghost Value = { ℕ };

    ghost view = { λ p. p.seconds };

    ghost invariant = { λ p. IsPeriod p.seconds };

    ghost inverse = { λ n. record { seconds = n } };
}

impl Period {
    /// The length of this many seconds; `None` for any other number than 300, 900, 1,800 and 3,600.
    pub fn new(seconds: u16) -> Option<Self>
        ensures valid { IsSome result ↔ IsPeriod seconds }
        ensures value { IfSome result (λ p. p ≡ seconds) }
    {
        match seconds {
            300 | 900 | 1_800 | 3_600 => Some(Period { seconds }),
            _ => None,
        }
    }

    /// A copy of the length, which is one of the four.
    pub fn copied(self) -> Self
        ensures value { result ≡ self }
        ensures range { IsPeriod result }
    {
        Period {
            seconds: self.seconds,
        }
    }

    /// The length in seconds.
    pub fn seconds(self) -> u16
        ensures value { result ≡ self }
        ensures range { IsPeriod result }
    {
        self.seconds
    }
}

impl Default for Period {
    ghost use Rattle.std.specs.Prelude.{◌≡◌};
    ghost use Rattle.ledger_model.specs.Quarter.{default_period};

    ghost is_default = { λ p. p ≡ default_period };

    /// The length for a site that declares none: 900 seconds.
    fn default() -> Self {
        Period { seconds: 900 }
    }
}
