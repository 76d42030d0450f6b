ghost use Rattle.std.specs.Prelude.{◌≡◌, ℕ, refl, ◌<◌, ◌+◌, ◌*◌, ◌/◌, ◌%◌, ◌^◌, nat_lt};
ghost use Rattle.key_index.specs.Key.{rank};

use std::marker::Model;

/// Keys with an order. An index keeps its entries by the ranks of their keys.
pub trait Ranked: Copy {
    // A key's rank, its position among all keys; and the key of a rank.
    ghost rank: { Self → ℕ };

    ghost key_of: { ℕ → Self };

    ghost back: { (key : Self) → key_of (rank key) ≡ key };

    /// Returns whether this key is before the other.
    fn is_before(self, other: Self) -> bool
        ensures { result ≡ nat_lt (rank self) (rank other) };
}

/// A transaction's slot and a sequence number below 2^31. Contracts see a key as its rank, the slot
/// times 2^31 and the number, so keys are ordered by transaction first.
#[derive(Clone, Copy, PartialEq, Eq)]
pub struct IndexKey {
    // The comparison reads both as one number.
    number: u32,
    transaction: u32,
}

impl Model for IndexKey {
    ghost use Rattle.std.specs.Prelude.{ℕ, ◌/◌, ◌%◌, ◌^◌, ◌<◌};
    ghost use Rattle.key_index.specs.Key.{rank, slot_back, number_back};

    ghost Value = { ℕ };

    ghost view = { λ k. rank k.transaction k.number };

    ghost invariant = { λ k. k.number < 2 ^ 31 };

    ghost inverse = { λ r. record { transaction = r / 2 ^ 31; number = r % 2 ^ 31 } };

    ghost inverse_ok = { λ k h i. record { transaction = slot_back k.transaction k.number h i; number = number_back k.transaction k.number h i } };
}

impl IndexKey {
    /// The key of a transaction's slot and a sequence number below 2^31.
    pub fn new(transaction: u32, number: u32) -> Self
        requires { number < 2 ^ 31 }
        ensures { result ≡ rank transaction number }
    {
        IndexKey {
            transaction,
            number,
        }
    }

    /// The transaction's slot.
    pub fn transaction(self) -> u32
        ensures { result ≡ self / 2 ^ 31 }
    {
        self.transaction
    }

    /// The sequence number.
    pub fn number(self) -> u32
        ensures { result ≡ self % 2 ^ 31 }
    {
        self.number
    }

    // Both parts as one number, ordered by the transaction first.
    fn joined(self) -> u64
        ensures { result ≡ self / 2 ^ 31 * 2 ^ 32 + self % 2 ^ 31 }
    {
        (u64::from(self.transaction) << 32) | u64::from(self.number)
    }
}

impl Ranked for IndexKey {
    ghost rank = { λ key. key };

    ghost key_of = { λ n. n };

    ghost back = { λ key. refl };

    fn is_before(self, other: Self) -> bool {
        self.joined() < other.joined()
    }
}
