ghost use Rattle.std.specs.Prelude.{◌≡◌, ◌≤◌, ◌↔◌, IsSome, IfSome};
ghost use Rattle.ledger_model.specs.Ranges.{greatest_evse};

use std::marker::Model;

/// The greatest number of an EVSE (this product's profile).
pub const GREATEST_EVSE: u8 = 64;

/// The number of an EVSE of a station, 1 to 64 (EVSEType, OCPP 2.0.1 Part 2, block E). A board shows
/// transactions that name no EVSE under 0; no event may name that number.
#[derive(Clone, Copy, PartialEq, Eq)]
pub struct EvseId {
    number: u8,
}

impl Model for EvseId {
    ghost use Rattle.std.specs.Prelude.{ℕ, ◌≤◌};
    ghost use Rattle.ledger_model.specs.Ranges.{greatest_evse};

    ghost Value = { ℕ };

    ghost view = { λ e. e.number };

    ghost invariant = { λ e. e.number ≤ greatest_evse };

    ghost inverse = { λ n. record { number = n } };
}

impl EvseId {
    /// The EVSE of this number, 0 to 64 (0 names none); `None` above 64.
    pub fn new(number: u8) -> Option<Self>
        ensures valid { IsSome result ↔ (number ≤ greatest_evse) }
        ensures value { IfSome result (λ e. e ≡ number) }
    {
        if number <= GREATEST_EVSE {
            Some(EvseId { number })
        } else {
            None
        }
    }

    /// Number 0, for no EVSE.
    pub fn unnamed() -> Self
        ensures { result ≡ 0 }
    {
        EvseId { number: 0 }
    }

    /// The number, 0 to 64.
    pub fn number(self) -> u8
        ensures value { result ≡ self }
        ensures range { result ≤ greatest_evse }
    {
        self.number
    }
}
