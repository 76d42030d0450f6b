//! The places of a station's events, read by their marks.
ghost use Rattle.std.specs.Prelude.{◌≡◌, option_map};
ghost use Rattle.key_index.specs.Entries.{below, from, filed_at, first_of, last_of, AreRising};
ghost use Rattle.event_chain.specs.Placed.{place_in, marked_index};

use key_index::{Entry, IndexKey, KeyIndex, KeyPlace, Mark};
use std::marker::Model;

// The places of an index that have a mark, or all of them. Contracts see them as an index. The place is a
// hint for look-ups, and changes no answer.
#[derive(Drop)]
pub(crate) struct MarkedPlaces<'a> {
    index: &'a KeyIndex<IndexKey, u32>,
    mark: Option<Mark>,
    place: KeyPlace,
}

impl<'a> Model for MarkedPlaces<'a> {
    ghost use Rattle.key_index.specs.Entries.{AreRising};
    ghost use Rattle.event_chain.specs.Placed.{Index, marked_index};

    ghost Value = { Index };

    ghost view = { λ l. marked_index l.mark l.index.now };

    ghost invariant = { λ l. AreRising l.index.now.entries };
}

// The key of an entry and its slot.
pub(crate) fn slot_under(entry: Option<Entry<IndexKey, u32>>) -> Option<(IndexKey, u32)>
    ensures { result ≡ option_map place_in entry }
{
    match entry {
        Some(entry) => Some((entry.key(), entry.filed().value)),
        None => None,
    }
}

impl<'a> MarkedPlaces<'a> {
    // The places that have a mark, or all.
    pub(crate) fn over(
        index: &'a KeyIndex<IndexKey, u32>,
        mark: Option<Mark>,
        place: KeyPlace,
    ) -> Self
        requires { AreRising index.now.entries }
        ensures { result ≡ marked_index mark index.now }
    {
        MarkedPlaces { index, mark, place }
    }

    // The slot of a key; none if the key is absent.
    pub(crate) fn get(&self, key: IndexKey) -> Option<u32>
        ensures { result ≡ filed_at key (from key self.now.entries) }
    {
        match self.at_or_after(key) {
            Some((found, slot)) if found == key => Some(slot),
            _ => None,
        }
    }

    // The first place with the given key or a greater one.
    #[inline(always)]
    pub(crate) fn at_or_after(&self, key: IndexKey) -> Option<(IndexKey, u32)>
        ensures first { result ≡ first_of (from key self.now.entries) }
        ensures rising { AreRising self.now.entries }
    {
        match self.mark {
            Some(mark) => slot_under(self.index.at_or_after_marked(self.place, key, mark)),
            None => slot_under(self.index.at_or_after(self.place, key)),
        }
    }

    // The last place with a key smaller than the given one.
    #[inline(always)]
    pub(crate) fn before(&self, key: IndexKey) -> Option<(IndexKey, u32)>
        ensures last { result ≡ last_of (below key self.now.entries) }
        ensures rising { AreRising self.now.entries }
    {
        match self.mark {
            Some(mark) => slot_under(self.index.before_marked(self.place, key, mark)),
            None => slot_under(self.index.before(self.place, key)),
        }
    }

    // The last place with a key smaller than the given one, and the first with that key or a greater one.
    #[inline(always)]
    pub(crate) fn around(&self, key: IndexKey) -> (Option<(IndexKey, u32)>, Option<(IndexKey, u32)>)
        ensures before { result.0 ≡ last_of (below key self.now.entries) }
        ensures from { result.1 ≡ first_of (from key self.now.entries) }
        ensures rising { AreRising self.now.entries }
    {
        match self.mark {
            Some(mark) => {
                let found = self.index.around_marked(self.place, key, mark);
                let before = slot_under(found.0);
                let from = slot_under(found.1);
                (before, from)
            }
            None => {
                let before = slot_under(self.index.before(self.place, key));
                let from = slot_under(self.index.at_or_after(self.place, key));
                (before, from)
            }
        }
    }
}
