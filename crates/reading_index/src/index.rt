ghost use Rattle.std.specs.Prelude.{◌≡◌, ◌<◌, ◌≤◌, ◌^◌, ◌++◌, [], false, length, map, option_map, IfOk};
ghost use Rattle.ledger_model.specs.InTime.{put_in_time};
ghost use Rattle.reading_index.{specs.Ranks.{owner, owner_of}, specs.Timed.{first_of, from_on, has_rank, in_front, last_of, only_owned, owned, placed_at, with_rank, without, AreRising}};

use crate::MomentKey;
use crate::placed::PlacedReading;
use key_index::{Entry, Filed, KeyIndex, KeyPlace, Marks};
use ledger_model::{Direction, Reading};
use std::alloc::{AllocError, Global};
use std::marker::Model;

/// Readings by owner and moment. Contracts see them by rising rank, and how many it may hold.
#[derive(Drop)]
pub struct ReadingIndex {
    index: KeyIndex<MomentKey, Reading>,
    // The place of the reading that was put in last: it saves searches, and changes no answer.
    near: KeyPlace,
}

impl Model for ReadingIndex {
    ghost use Rattle.reading_index.specs.Timed.{timed_in, TimedReadings};

    ghost Value = { TimedReadings };

    ghost view = { λ i. timed_in i.index };
}

// The key and the reading of an entry of this owner; none for an entry of another.
fn owned_by(owner: u128, entry: Option<Entry<MomentKey, Reading>>) -> Option<(MomentKey, Reading)>
    ensures { result ≡ only_owned owner (option_map with_rank entry) }
{
    match entry {
        Some(entry) => {
            let key = entry.key();
            if key.owner() == owner {
                Some((key, entry.filed().value))
            } else {
                None
            }
        }
        None => None,
    }
}

impl ReadingIndex {
    /// An empty index with room for `capacity` readings; the error says that the allocator refused
    /// memory.
    pub fn open(alloc: Global, capacity: u32) -> Result<Self, AllocError>
        ensures entries { IfOk result (λ i. i.entries ≡ []) }
        ensures capacity { IfOk result (λ i. i.capacity ≡ capacity) }
    {
        Ok(ReadingIndex {
            index: KeyIndex::open(alloc, capacity)?,
            near: KeyPlace::UNKNOWN,
        })
    }

    /// How many readings it holds.
    pub fn len(&self) -> u32
        ensures len { result ≡ length self.now.entries }
        ensures within { length self.now.entries ≤ self.now.capacity }
        ensures rising { AreRising self.now.entries }
    {
        self.index.len()
    }

    /// How many readings it may hold.
    pub fn capacity(&self) -> u32
        ensures { result ≡ self.now.capacity }
    {
        self.index.capacity()
    }

    /// Whether it holds a reading of this key.
    pub fn holds(&self, key: MomentKey) -> bool
        ensures { result ≡ has_rank key self.now.entries }
    {
        let place = self.index.place_near(self.near, key);
        self.index.get(place, key).is_some()
    }

    /// The readings of the key's owner on either side of the key: the last in front of it, and the
    /// first from it on.
    pub fn around(
        &self,
        key: MomentKey,
    ) -> (Option<(MomentKey, Reading)>, Option<(MomentKey, Reading)>)
        ensures before { result.0 ≡ last_of (in_front key (owned (owner_of key) self.now.entries)) }
        ensures behind { result.1 ≡ first_of (from_on key (owned (owner_of key) self.now.entries)) }
    {
        let place = self.index.place_near(self.near.next(), key);
        let owner = key.owner();
        let before = owned_by(owner, self.index.before(place, key));
        let behind = owned_by(owner, self.index.at_or_after(place, key));
        (before, behind)
    }

    /// Puts the readings of this slot, below 2^24, and direction behind those of a list, by rising rank. The error says
    /// that the allocator refused memory; then the list has some of them.
    pub fn list(
        &self,
        slot: u32,
        direction: Direction,
        listed: &mut Vec<PlacedReading>,
    ) -> Result<(), AllocError>
        requires { slot < 2 ^ 24 }
        ensures { IfOk result (λ _. listed.new.items ≡ listed.old.items ++ map placed_at (owned (owner slot direction) self.now.entries)) }
    {
        let mut from = MomentKey::first(slot, direction);
        let owner = from.owner();
        let mut place = self.index.place_near(self.near, from);
        while let Some(entry) = owned_by(owner, self.index.at_or_after(place, from)) {
            let (key, reading) = entry;
            listed.push(PlacedReading {
                number: key.number(),
                place: key.place(),
                reading,
            })?;
            // No moment is so late that no key is behind it.
            let Some(next) = key.next() else {
                return Err(AllocError);
            };
            from = next;
            place = self.index.place_near(place.next(), from);
        }
        Ok(())
    }

    /// Puts in a reading under its key. The index must have no reading of this key, and must have
    /// room.
    pub fn put(&mut self, key: MomentKey, reading: Reading)
        requires absent { has_rank key self.old.entries ≡ false }
        requires room { length self.old.entries < self.old.capacity }
        ensures entries { self.new.entries ≡ put_in_time (λ e. e.0) (key, reading) self.old.entries }
        ensures capacity { self.new.capacity ≡ self.old.capacity }
    {
        let place = self.index.place_near(self.near.next(), key);
        self.near = place;
        let filed = Filed {
            value: reading,
            marks: Marks::NONE,
        };
        self.index.insert(place, key, filed);
    }

    /// Takes out the reading of a key; does nothing if there is none.
    pub fn take(&mut self, key: MomentKey)
        ensures entries { self.new.entries ≡ without key self.old.entries }
        ensures capacity { self.new.capacity ≡ self.old.capacity }
    {
        let place = self.index.place_near(self.near, key);
        if self.index.get(place, key).is_some() {
            self.index.remove(key);
        }
    }
}
