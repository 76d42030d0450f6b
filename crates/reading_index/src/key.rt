ghost use Rattle.std.specs.Prelude.{◌≡◌, ◌<◌, ◌+◌, ◌/◌, ◌%◌, ◌^◌, IfSome, nat_lt, refl};
ghost use Rattle.reading_index.specs.Ranks.{number_of, owner, owner_of, place_of, rank};

use key_index::Ranked;
use ledger_model::{Direction, Moment};
use std::marker::Model;

/// The place of a reading among all: by the slot of its transaction and its direction, then by its
/// moment, then by the sequence number of its event, then by its place among the event's readings of
/// that direction. Contracts see a key as its rank.
#[derive(Clone, Copy, PartialEq, Eq)]
pub struct MomentKey {
    joined: u128,
}

impl Model for MomentKey {
    ghost use Rattle.std.specs.Prelude.{ℕ};

    ghost Value = { ℕ };

    ghost view = { λ k. k.joined };

    ghost inverse = { λ n. record { joined = n } };
}

// The owner of the readings of a transaction, by its slot, in one direction.
fn owner_at(slot: u32, direction: Direction) -> u64
    ensures value { result ≡ owner slot direction }
    ensures small { result < 2 ^ 33 }
{
    match direction {
        Direction::Import => u64::from(slot) * 2,
        Direction::Export => u64::from(slot) * 2 + 1,
    }
}

impl MomentKey {
    /// The key of a reading: the slot of its transaction, below 2^24, and its direction; its moment; the
    /// sequence number of its event, below 2^31; and its place in that event, below 1,024.
    pub fn new(slot: u32, direction: Direction, moment: Moment, number: u32, place: u16) -> Self
        requires slot { slot < 2 ^ 24 }
        requires number { number < 2 ^ 31 }
        requires place { place < 2 ^ 10 }
        ensures { result ≡ rank (owner slot direction) moment number place }
    {
        let owner = u128::from(owner_at(slot, direction));
        let timed = owner * (1 << 62) + u128::from(moment.nanos());
        let numbered = timed * (1 << 31) + u128::from(number);
        MomentKey {
            joined: numbered * (1 << 10) + u128::from(place),
        }
    }

    /// The key in front of all keys of this slot, below 2^24, and direction.
    pub fn first(slot: u32, direction: Direction) -> Self
        requires { slot < 2 ^ 24 }
        ensures { result ≡ rank (owner slot direction) 0 0 0 }
    {
        let owner = u128::from(owner_at(slot, direction));
        MomentKey {
            joined: owner * (1 << 62) * (1 << 31) * (1 << 10),
        }
    }

    // The key behind this one; none behind the last.
    pub(crate) fn next(self) -> Option<Self>
        ensures { IfSome result (λ key. key ≡ self + 1) }
    {
        match self.joined.checked_add(1) {
            Some(joined) => Some(MomentKey { joined }),
            None => None,
        }
    }

    // The readings of one transaction and direction have one owner.
    pub(crate) fn owner(self) -> u128
        ensures { result ≡ owner_of self }
    {
        self.joined / (1 << 10) / (1 << 31) / (1 << 62)
    }

    /// Returns whether a key comes before another.
    pub fn is_in_front(self, other: Self) -> bool
        ensures { result ≡ nat_lt self other }
    {
        self.joined < other.joined
    }

    /// The sequence number of the reading's event.
    pub fn number(self) -> u32
        ensures { result ≡ number_of self }
    {
        (self.joined / (1 << 10) % (1 << 31)) as u32
    }

    /// The reading's place among those of its direction in its event.
    pub fn place(self) -> usize
        ensures { result ≡ place_of self }
    {
        (self.joined % (1 << 10)) as usize
    }
}

impl Ranked for MomentKey {
    ghost rank = { λ key. key };

    ghost key_of = { λ n. n };

    ghost back = { λ key. refl };

    fn is_before(self, other: Self) -> bool {
        self.joined < other.joined
    }
}
