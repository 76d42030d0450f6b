ghost use Rattle.std.specs.Prelude.{◌≡◌, ◌+◌, ◌<◌, ◌≤◌, [], ◌∷◌, ◌++◌, length, drop, None, IfOk, IsSome};
ghost use Rattle.key_index.{specs.Entries.{below, from, filed_at, first_of, last_of, AreRising}, specs.Index.index, specs.Marks.{marked, mark_at}};

use crate::entry::Entry;
use crate::filed::{Filed, Mark, Marks};
use crate::key::Ranked;
use crate::leaf::{LEAF_SIZE, Leaf};
use crate::leaves::{
    first_from, first_marked, last_before, last_marked, leaf_of, make_room, mark, put, put_at,
    reclaim, release_empty, seek, settled, take_out,
};
use crate::place::KeyPlace;
use std::alloc::{AllocError, Global};
use std::marker::Model;

/// An ordered index from keys to values. Contracts see its entries by rising rank of their keys, and how
/// many it may hold.
#[derive(Drop)]
pub struct KeyIndex<K: Ranked, V: Copy> {
    leaves: Vec<Leaf<K, V>>,
    spare: Vec<Leaf<K, V>>,
    len: u32,
    capacity: u32,
}

impl<K: Ranked, V: Copy> Model for KeyIndex<K, V> {
    ghost use Rattle.key_index.specs.Index.{Index, index};

    ghost Value = { Index V };

    ghost use Rattle.key_index.specs.Leaves.{all_of, IsIndex};

    ghost view = { λ i. index (all_of i.leaves.items) i.capacity };

    ghost invariant = { λ i. IsIndex i.leaves i.spare i.len i.capacity };
}

impl<K: Ranked, V: Copy> KeyIndex<K, V> {
    /// An empty index with room for `capacity` entries. Only this call takes memory; the error says
    /// that the allocator refused it.
    pub fn open(alloc: Global, capacity: u32) -> Result<Self, AllocError>
        ensures { IfOk result (λ i. i ≡ index [] capacity) }
    {
        let count = capacity as usize / 64 + 2;
        let leaves = Vec::with_capacity(alloc, count)?;
        let mut spare = Vec::with_capacity(alloc, count)?;
        for _ in 0..count {
            spare.push_reserved(Leaf::open(alloc)?);
        }
        Ok(KeyIndex {
            leaves,
            spare,
            len: 0,
            capacity,
        })
    }

    /// How many entries it holds.
    pub fn len(&self) -> u32
        ensures len { result ≡ length self.now.entries }
        ensures within { length self.now.entries ≤ self.now.capacity }
        ensures rising { AreRising self.now.entries }
    {
        self.len
    }

    /// How many entries it may hold.
    pub fn capacity(&self) -> u32
        ensures { result ≡ self.now.capacity }
    {
        self.capacity
    }

    /// The place where a key is or belongs, for the calls that take a place.
    pub fn place(&self, key: K) -> KeyPlace {
        if self.leaves.is_empty() {
            return KeyPlace { leaf: 0, entry: 0 };
        }
        seek(&self.leaves, key)
    }

    /// The place where a key is or belongs. The call looks at the place `near` first.
    pub fn place_near(&self, near: KeyPlace, key: K) -> KeyPlace
        ensures rising { AreRising self.now.entries }
    {
        if self.leaves.is_empty() {
            return KeyPlace { leaf: 0, entry: 0 };
        }
        settled(&self.leaves, near, key)
    }

    /// What is filed under a key; none if the key is absent.
    pub fn get(&self, place: KeyPlace, key: K) -> Option<Filed<V>>
        ensures { result ≡ filed_at (K.rank key) (from (K.rank key) self.now.entries) }
    {
        match self.at_or_after(place, key) {
            Some(entry) if !entry.is_after(key) => Some(entry.filed()),
            _ => None,
        }
    }

    /// The first entry with the given key or a greater one.
    pub fn at_or_after(&self, place: KeyPlace, key: K) -> Option<Entry<K, V>>
        ensures { result ≡ first_of (from (K.rank key) self.now.entries) }
    {
        self.find(place, key).0
    }

    /// The first entry with the given key or a greater one, and the place where the key is or
    /// belongs.
    pub fn find(&self, near: KeyPlace, key: K) -> (Option<Entry<K, V>>, KeyPlace)
        ensures { result.0 ≡ first_of (from (K.rank key) self.now.entries) }
    {
        if self.leaves.is_empty() {
            return (None, KeyPlace { leaf: 0, entry: 0 });
        }
        let at = settled(&self.leaves, near, key);
        (first_from(&self.leaves, at.leaf, at.entry), at)
    }

    /// The last entry with a key smaller than the given one.
    pub fn before(&self, place: KeyPlace, key: K) -> Option<Entry<K, V>>
        ensures { result ≡ last_of (below (K.rank key) self.now.entries) }
    {
        if self.leaves.is_empty() {
            return None;
        }
        let at = settled(&self.leaves, place, key);
        last_before(&self.leaves, at.leaf, at.entry)
    }

    /// The last entry that has the mark and a key smaller than the given one.
    pub fn before_marked(&self, place: KeyPlace, key: K, mark: Mark) -> Option<Entry<K, V>>
        ensures { result ≡ last_of (marked mark (below (K.rank key) self.now.entries)) }
    {
        if self.leaves.is_empty() {
            return None;
        }
        let at = settled(&self.leaves, place, key);
        last_marked(&self.leaves, at, mark)
    }

    /// The first entry that has the mark and the given key or a greater one.
    pub fn at_or_after_marked(&self, place: KeyPlace, key: K, mark: Mark) -> Option<Entry<K, V>>
        ensures { result ≡ first_of (marked mark (from (K.rank key) self.now.entries)) }
    {
        if self.leaves.is_empty() {
            return None;
        }
        let at = settled(&self.leaves, place, key);
        first_marked(&self.leaves, at, mark)
    }

    /// The nearest entries with the mark on either side: the last one with a smaller key, and the first one
    /// with the given key or a greater one. The call tests the place once.
    pub fn around_marked(
        &self,
        place: KeyPlace,
        key: K,
        mark: Mark,
    ) -> (Option<Entry<K, V>>, Option<Entry<K, V>>)
        ensures before { result.0 ≡ last_of (marked mark (below (K.rank key) self.now.entries)) }
        ensures from { result.1 ≡ first_of (marked mark (from (K.rank key) self.now.entries)) }
    {
        if self.leaves.is_empty() {
            return (None, None);
        }
        let at = settled(&self.leaves, place, key);
        let before = last_marked(&self.leaves, at, mark);
        let from = first_marked(&self.leaves, at, mark);
        (before, from)
    }

    /// Sets the marks of the entry of a key. The key must be in the index.
    pub fn set_marks(&mut self, key: K, marks: Marks)
        requires { IsSome (filed_at (K.rank key) (from (K.rank key) self.old.entries)) }
        ensures entries { self.new.entries ≡ below (K.rank key) self.old.entries ++ mark_at marks 0 (from (K.rank key) self.old.entries) }
        ensures rising { AreRising self.new.entries }
        ensures capacity { self.new.capacity ≡ self.old.capacity }
    {
        let at = leaf_of(&self.leaves, key);
        mark(&mut self.leaves, at, key, marks);
    }

    /// Inserts an entry. The key must be absent, and the index must have room.
    pub fn insert(&mut self, place: KeyPlace, key: K, filed: Filed<V>)
        requires absent { filed_at (K.rank key) (from (K.rank key) self.old.entries) ≡ None }
        requires room { length self.old.entries < self.old.capacity }
        ensures entries { self.new.entries ≡ below (K.rank key) self.old.entries ++ (K.rank key, filed) ∷ from (K.rank key) self.old.entries }
        ensures rising { AreRising self.new.entries }
        ensures capacity { self.new.capacity ≡ self.old.capacity }
    {
        if !self.leaves.is_empty() {
            let at = settled(&self.leaves, place, key);
            if self.leaves[at.leaf].len() < LEAF_SIZE {
                put_at(&mut self.leaves, at, Entry::new(key, filed));
                self.len += 1;
                return;
            }
        }
        self.insert_making_room(key, filed);
    }

    // Inserts an entry if its leaf may be full, or if there is no leaf.
    fn insert_making_room(&mut self, key: K, filed: Filed<V>)
        requires absent { filed_at (K.rank key) (from (K.rank key) self.old.entries) ≡ None }
        requires room { length self.old.entries < self.old.capacity }
        ensures entries { self.new.entries ≡ below (K.rank key) self.old.entries ++ (K.rank key, filed) ∷ from (K.rank key) self.old.entries }
        ensures rising { AreRising self.new.entries }
        ensures capacity { self.new.capacity ≡ self.old.capacity }
    {
        reclaim(&mut self.leaves, &mut self.spare);
        let at = make_room(&mut self.leaves, &mut self.spare, key);
        put(&mut self.leaves, at, Entry::new(key, filed));
        self.len += 1;
    }

    /// Removes the entry of a key. The key must be in the index.
    pub fn remove(&mut self, key: K)
        requires { IsSome (filed_at (K.rank key) (from (K.rank key) self.old.entries)) }
        ensures entries { self.new.entries ≡ below (K.rank key) self.old.entries ++ drop 1 (from (K.rank key) self.old.entries) }
        ensures rising { AreRising self.new.entries }
        ensures capacity { self.new.capacity ≡ self.old.capacity }
    {
        let at = leaf_of(&self.leaves, key);
        take_out(&mut self.leaves, at, key);
        release_empty(&mut self.leaves, &mut self.spare, at);
        self.len -= 1;
    }
}
