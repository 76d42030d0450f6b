//! A run of up to [`LEAF_SIZE`] entries, which takes its memory when it is opened.
ghost use Rattle.std.{specs.Prelude.{◌≡◌, ◌+◌, ◌<◌, ◌≤◌, [], ◌++◌, length, take, drop, slice_get, Some, IfOk}, specs.List.{insert, remove}, specs.Vec.{vec_len, vec_capacity}};
ghost use Rattle.key_index.{specs.Entries.{below, first_of, last_of, AreRising}, specs.Marks.{marked, mark_at}};

use crate::counts::{Counts, counts_over};
use crate::entry::Entry;
use crate::filed::{Filed, Mark, Marks};
use crate::key::Ranked;
use std::alloc::{AllocError, Global};
use std::marker::Model;

/// The most entries of a leaf.
pub const LEAF_SIZE: usize = 128;

/// A run of entries, with how many of them have each mark. Contracts see the list of keys with what
/// is filed under them.
#[derive(Drop)]
pub struct Leaf<K: Ranked, V: Copy> {
    entries: Vec<Entry<K, V>>,
    counts: Counts,
}

impl<K: Ranked, V: Copy> Model for Leaf<K, V> {
    ghost use Rattle.std.{specs.Prelude.{List, length, ◌≤◌}, specs.Vec.vec_capacity};
    ghost use Rattle.key_index.{specs.declared.leaf.TheConstants.LEAF_SIZE, specs.Entries.Entry, specs.Marks.AreCounts};

    ghost Value = { List (Entry V) };

    ghost view = { λ l. l.entries.items };

    ghost invariant = { λ l. (LEAF_SIZE ≤ vec_capacity l.entries) × (length l.entries.items ≤ LEAF_SIZE) × AreCounts l.counts l.entries.items };
}

// Moves all entries from a place on into an empty vector, copied as a whole run.
fn move_from<K: Ranked, V: Copy>(
    entries: &mut Vec<Entry<K, V>>,
    place: usize,
    empty: &mut Vec<Entry<K, V>>,
)
    requires place { place ≤ length entries.old.items }
    requires empty { empty.old.items ≡ [] }
    requires room { length entries.old.items ≤ vec_capacity empty.old }
    ensures kept { entries.new.items ≡ take place entries.old.items }
    ensures moved { empty.new.items ≡ drop place entries.old.items }
    ensures capacity { (vec_capacity entries.old ≤ vec_capacity entries.new) × (vec_capacity empty.old ≤ vec_capacity empty.new) }
{
    match empty.extend_from_slice(&entries[place..]) {
        Ok(()) => (),
        Err(_) => unreachable!(),
    }
    entries.truncate(place);
}

// Copies entries to the end of a vector that has room for them.
fn push_all<K: Ranked, V: Copy>(entries: &mut Vec<Entry<K, V>>, more: &[Entry<K, V>])
    requires { length entries.old.items + length more.now ≤ vec_capacity entries.old }
    ensures items { entries.new.items ≡ entries.old.items ++ more.now }
    ensures capacity { vec_capacity entries.old ≤ vec_capacity entries.new }
{
    match entries.extend_from_slice(more) {
        Ok(()) => (),
        Err(_) => unreachable!(),
    }
}

impl<K: Ranked, V: Copy> Leaf<K, V> {
    /// An empty leaf with room for all the entries that it may hold.
    pub(crate) fn open(alloc: Global) -> Result<Leaf<K, V>, AllocError>
        ensures { IfOk result (λ l. l ≡ []) }
    {
        let entries = Vec::with_capacity(alloc, LEAF_SIZE)?;
        Ok(Leaf {
            entries,
            counts: Counts::none(),
        })
    }

    /// How many entries it holds.
    pub(crate) fn len(&self) -> usize
        ensures len { result ≡ length self.now }
        ensures within { length self.now ≤ LEAF_SIZE }
    {
        self.entries.len()
    }

    /// How many of them have a mark.
    pub(crate) fn count(&self, mark: Mark) -> u8
        ensures { result ≡ length (marked mark self.now) }
    {
        self.counts.of(mark)
    }

    /// The entry at a place.
    pub(crate) fn entry(&self, place: usize) -> Entry<K, V>
        requires { place < length self.now }
        ensures { slice_get self.now place ≡ Some result }
    {
        self.entries[place]
    }

    /// The place where a key is or belongs.
    pub(crate) fn place_of(&self, key: K) -> usize
        requires { AreRising self.now }
        ensures place { result ≡ length (below (K.rank key) self.now) }
        ensures within { result ≤ length self.now }
    {
        let mut low = 0;
        let mut high = self.entries.len();
        while low < high {
            let middle = low + (high - low) / 2;
            if self.entries[middle].is_before(key) {
                low = middle + 1;
            } else {
                high = middle;
            }
        }
        low
    }

    /// The last entry with a mark in front of a place.
    pub(crate) fn last_marked(&self, place: usize, mark: Mark) -> Option<Entry<K, V>>
        requires { place ≤ length self.now }
        ensures { result ≡ last_of (marked mark (take place self.now)) }
    {
        if self.counts.of(mark) == 0 {
            return None;
        }
        let mut at = place;
        while at > 0 {
            at -= 1;
            let entry = self.entries[at];
            if entry.filed().marks.has(mark) {
                return Some(entry);
            }
        }
        None
    }

    /// The first entry with a mark from a place on.
    pub(crate) fn first_marked(&self, place: usize, mark: Mark) -> Option<Entry<K, V>>
        ensures { result ≡ first_of (marked mark (drop place self.now)) }
    {
        if self.counts.of(mark) == 0 {
            return None;
        }
        let mut at = place;
        while at < self.entries.len() {
            let entry = self.entries[at];
            if entry.filed().marks.has(mark) {
                return Some(entry);
            }
            at += 1;
        }
        None
    }

    /// Sets the marks of the entry at a place.
    pub(crate) fn set_marks(&mut self, place: usize, marks: Marks)
        requires { place < length self.old }
        ensures { self.new ≡ mark_at marks place self.old }
    {
        let entry = self.entries[place];
        let filed = entry.filed();
        self.counts = self.counts.less(filed.marks).more(marks);
        self.entries[place] = entry.marked_as(marks);
    }

    /// Puts an entry at a place; those from there on move up.
    pub(crate) fn insert(&mut self, place: usize, entry: Entry<K, V>)
        requires { (place ≤ length self.old) × (length self.old < LEAF_SIZE) }
        ensures { self.new ≡ insert self.old place entry }
    {
        let len = self.entries.len();
        self.counts = self.counts.more(entry.filed().marks);
        self.entries.push_reserved(entry);
        self.entries.copy_within(place..len, place + 1);
        self.entries[place] = entry;
    }

    /// Takes out the entry at a place; those after it move down.
    pub(crate) fn remove(&mut self, place: usize)
        requires { place < length self.old }
        ensures { self.new ≡ remove self.old place }
    {
        let entry = self.entries.remove(place);
        self.counts = self.counts.less(entry.filed().marks);
    }

    /// Moves the entries from a place on into an empty leaf.
    pub(crate) fn split_at(&mut self, place: usize, empty: &mut Leaf<K, V>)
        requires { (place ≤ length self.old) × (empty.old ≡ []) }
        ensures { (self.new ≡ take place self.old) × (empty.new ≡ drop place self.old) }
    {
        let moved = counts_over(&self.entries[place..]);
        move_from(&mut self.entries, place, &mut empty.entries);
        empty.counts = moved;
        self.counts = self.counts.minus(moved);
    }

    /// Moves the entries of another leaf to the end of this one.
    pub(crate) fn append(&mut self, other: &mut Leaf<K, V>)
        requires { length self.old + length other.old ≤ LEAF_SIZE }
        ensures { (self.new ≡ self.old ++ other.old) × (other.new ≡ []) }
    {
        push_all(&mut self.entries, &other.entries);
        self.counts = self.counts.plus(other.counts);
        other.entries.clear();
        other.counts = Counts::none();
    }
}
