ghost use Rattle.std.specs.Prelude.{◌≡◌};

use std::marker::Model;

/// Which slot of an arena; contracts see its number, which is below the arena's capacity. An arena may
/// give out an id again after it was given back, so the holder of an id has to know which value it is
/// for.
#[derive(Clone, Copy, PartialEq, Eq, Hash)]
pub struct SlotId {
    number: u32,
}

impl Model for SlotId {
    ghost use Rattle.std.specs.Prelude.{ℕ};

    ghost Value = { ℕ };

    ghost view = { λ i. i.number };

    ghost inverse = { λ n. record { number = n } };
}

impl SlotId {
    /// The id of that number, whether an arena holds it or not.
    pub fn new(number: u32) -> Self
        ensures { result ≡ number }
    {
        SlotId { number }
    }

    /// The id's number.
    pub fn number(self) -> u32
        ensures { result ≡ self }
    {
        self.number
    }
}
