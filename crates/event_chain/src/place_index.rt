//! The places of a station's events in one ordered index, and linked lists of the live ones.
ghost use Rattle.std.{specs.Prelude.{◌≡◌, ℕ, ◌<◌, [], length, None, Some, IfOk, IsSome, slice_get, option_map}, specs.Ordering.nat_cmp, specs.FinMap.put};
ghost use Rattle.key_index.{specs.Entries.{from, filed_at, first_of, last_of, AreRising}, specs.declared.filed.Mark.TheVariants.Live};
ghost use Rattle.event_chain.{specs.Links.linked_in, specs.Placed.{carriers_of, index, marked_index, mark_of as placed_mark}, specs.Flat.place_of, specs.Edits.{out, places_before, places_behind, CanPutIn, CanRestore, IsLiveLess, IsLiveMore, IsLiveSame, IsNotLive}, specs.Lists.{slot_in, HasRank, AreOwn, AreListed, slot_before, slot_after}};
ghost use Rattle.ledger_model.specs.declared.reading.Direction.{Direction};

use crate::carries::Carries;
use crate::links::SlotLinks;
use crate::look_ups::{place_before, place_behind};
use crate::marked_places::{MarkedPlaces, slot_under};
use key_index::{Filed, IndexKey, KeyIndex, KeyPlace, Mark, Marks, Ranked};
use ledger_model::Direction;
use std::alloc::{AllocError, Global};
use std::marker::Model;

// All events by their keys, each with its slot and its marks, and a doubly linked list of each
// transaction's live ones over their slots. The index finds where an event is linked in; the links lead
// from one to the next. Contracts see an index of all places, and one for each mark.
#[derive(Drop)]
pub(crate) struct PlaceIndex {
    index: KeyIndex<IndexKey, u32>,
    links: SlotLinks,
    // The key of the last search, where it is or belongs, and where its transaction begins and ends.
    // They save searches and change no answer.
    sought: IndexKey,
    near: KeyPlace,
    start: KeyPlace,
    end: KeyPlace,
}

impl Model for PlaceIndex {
    ghost use Rattle.event_chain.{specs.Placed.{Placed, placed}, specs.Lists.ArePlaced};

    ghost Value = { Placed };

    ghost view = { λ p. placed p.index };

    ghost invariant = { λ p. ArePlaced p.index p.links };
}

// The mark of the live events that have a reading of this direction.
fn mark_of(direction: Direction) -> Mark
    ensures { result ≡ placed_mark direction }
{
    match direction {
        Direction::Import => Mark::Imports,
        Direction::Export => Mark::Exports,
    }
}

// The slot of a place.
fn slot_of_place(place: Option<(IndexKey, u32)>) -> Option<u32>
    ensures { result ≡ option_map slot_in place }
{
    match place {
        Some(place) => Some(place.1),
        None => None,
    }
}

// The slot behind a new key, if the one in front of it is known: a link leads there. If the key comes
// first, a look-up finds it.
fn slot_behind(
    live: &MarkedPlaces<'_>,
    links: &SlotLinks,
    key: IndexKey,
    before: Option<u32>,
) -> Option<u32>
    requires rising { AreRising live.now.entries }
    requires listed { AreListed live.now links.now }
    requires absent { place_of key live.now.entries ≡ None }
    requires before { before ≡ option_map slot_in (last_of (places_before key live.now.entries)) }
    ensures { result ≡ option_map slot_in (slice_get (places_behind key live.now.entries) 0) }
{
    match before {
        Some(slot) => links.next(slot),
        None => slot_of_place(place_behind(live, key)),
    }
}

// Links the event of a slot in between those on either side of its key.
fn link_live(
    index: &KeyIndex<IndexKey, u32>,
    links: &mut SlotLinks,
    place: KeyPlace,
    key: IndexKey,
    slot: u32,
)
    requires rising { AreRising index.now.entries }
    requires listed { AreListed (marked_index (Some Live) index.now) links.old }
    requires absent { place_of key (marked_index (Some Live) index.now).entries ≡ None }
    requires slot { slot < (marked_index (Some Live) index.now).capacity }
    requires unused { (rank : ℕ) → place_of rank (marked_index (Some Live) index.now).entries ≡ Some slot → ⊥ }
    ensures { links.new ≡ linked_in links.old (slot_before key (marked_index (Some Live) index.now).entries) slot slot (slot_after key (marked_index (Some Live) index.now).entries) }
{
    let live = MarkedPlaces::over(index, Some(Mark::Live), place);
    let before = slot_of_place(place_before(&live, key));
    let after = slot_behind(&live, links, key, before);
    links.link_in(before, slot, slot, after);
}

impl PlaceIndex {
    // No events, with room for `events`, in as many slots.
    pub(crate) fn open(alloc: Global, events: u32) -> Result<Self, AllocError>
        ensures stored { IfOk result (λ p. p.stored ≡ index [] events) }
        ensures live { IfOk result (λ p. p.live ≡ index [] events) }
        ensures carriers { IfOk result (λ p. (d : Direction) → carriers_of p d ≡ index [] events) }
        ensures naming { IfOk result (λ p. p.naming ≡ index [] events) }
    {
        Ok(PlaceIndex {
            index: KeyIndex::open(alloc, events)?,
            links: SlotLinks::open(alloc, events)?,
            sought: IndexKey::new(0, 0),
            near: KeyPlace::UNKNOWN,
            start: KeyPlace::UNKNOWN,
            end: KeyPlace::UNKNOWN,
        })
    }

    // How many events there are.
    pub(crate) fn len(&self) -> u32
        ensures { result ≡ length self.now.stored.entries }
    {
        self.index.len()
    }

    // Keeps this place as that of a key, for the next calls.
    pub(crate) fn seek_at(&mut self, key: IndexKey, place: KeyPlace)
        ensures { self.new ≡ self.old }
    {
        let ends = self.ends_at(key, place);
        self.start = ends.0;
        self.end = ends.1;
        self.near = place;
        self.sought = key;
    }

    // Where the transaction of the key of a place begins and ends.
    fn ends_at(&self, key: IndexKey, place: KeyPlace) -> (KeyPlace, KeyPlace) {
        let slot = key.transaction();
        if slot == self.sought.transaction() && self.start != KeyPlace::UNKNOWN {
            return (self.start, self.end);
        }
        // The events of a transaction usually come in order.
        let start = self.index.place_near(place, IndexKey::new(slot, 0));
        let next = IndexKey::new(slot.saturating_add(1), 0);
        (start, self.index.place_near(start, next))
    }

    // The first place from a key on, and where the key is or belongs.
    fn first_from(&self, key: IndexKey) -> (Option<(IndexKey, u32)>, KeyPlace)
        ensures first { result.0 ≡ first_of (from key self.now.stored.entries) }
        ensures rising { AreRising self.now.stored.entries }
    {
        let found = self.index.find(self.behind(key), key);
        (slot_under(found.0), found.1)
    }

    // The slot of the first place from a key on, if that is the key's.
    fn first_slot(&self, key: IndexKey) -> (Option<u32>, KeyPlace)
        ensures slot { result.0 ≡ filed_at key (from key self.now.stored.entries) }
        ensures rising { AreRising self.now.stored.entries }
    {
        let found = self.first_from(key);
        match found.0 {
            Some((first, slot)) if first == key => (Some(slot), found.1),
            _ => (None, found.1),
        }
    }

    // The slot of a key, none if it is absent, and where the key is or belongs.
    pub(crate) fn find(&self, key: IndexKey) -> (Option<u32>, KeyPlace)
        ensures { result.0 ≡ place_of key self.now.stored.entries }
    {
        self.first_slot(key)
    }

    // A key above that of the last search usually is or belongs right behind it.
    fn behind(&self, key: IndexKey) -> KeyPlace {
        if self.sought.is_before(key) {
            return self.near.next();
        }
        KeyPlace::UNKNOWN
    }

    // Where the key of the last search is or belongs.
    pub(crate) fn near(&self) -> KeyPlace {
        self.near
    }

    // Where its transaction begins.
    pub(crate) fn start(&self) -> KeyPlace {
        self.start
    }

    // Where it ends.
    pub(crate) fn end(&self) -> KeyPlace {
        self.end
    }

    // All events.
    pub(crate) fn stored(&self, place: KeyPlace) -> MarkedPlaces<'_>
        ensures same { result ≡ self.now.stored }
        ensures rising { AreRising self.now.stored.entries }
    {
        MarkedPlaces::over(&self.index, None, place)
    }

    // The live events, each with a slot of its own.
    pub(crate) fn live(&self, place: KeyPlace) -> MarkedPlaces<'_>
        ensures same { result ≡ self.now.live }
        ensures rising { AreRising self.now.live.entries }
        ensures own { AreOwn self.now.live.entries }
    {
        MarkedPlaces::over(&self.index, Some(Mark::Live), place)
    }

    // The live events that have a reading of a direction.
    pub(crate) fn carriers(&self, direction: Direction, place: KeyPlace) -> MarkedPlaces<'_>
        ensures { result ≡ carriers_of self.now direction }
    {
        MarkedPlaces::over(&self.index, Some(mark_of(direction)), place)
    }

    // The live events that name an EVSE.
    pub(crate) fn naming(&self, place: KeyPlace) -> MarkedPlaces<'_>
        ensures { result ≡ self.now.naming }
    {
        MarkedPlaces::over(&self.index, Some(Mark::Names), place)
    }

    // Puts in a live event under a new key.
    pub(crate) fn insert(
        &mut self,
        place: KeyPlace,
        key: IndexKey,
        slot: u32,
        carries: Carries,
        names_evse: bool,
    )
        requires { CanPutIn key slot self.old }
        ensures stored { self.new.stored ≡ index (put nat_cmp key slot self.old.stored.entries) self.old.stored.capacity }
        ensures lives { IsLiveMore key slot carries names_evse self.old self.new }
    {
        let ends = self.ends_at(key, place);
        // The first key of a new transaction belongs where the transaction begins.
        let place = place.known_or(ends.0);
        link_live(&self.index, &mut self.links, place, key, slot);
        let marks = Marks {
            live: true,
            imports: carries.import,
            exports: carries.export,
            names: names_evse,
        };
        self.index.insert(place, key, Filed { value: slot, marks });
        self.near = place;
        self.sought = key;
        self.start = ends.0;
        self.end = ends.1.moved_by(place);
    }

    // Takes a live event's marks away; it keeps its place and its slot.
    pub(crate) fn void(&mut self, key: IndexKey, slot: u32)
        requires stored { place_of key self.old.stored.entries ≡ Some slot }
        requires live { place_of key self.old.live.entries ≡ Some slot }
        ensures stored { self.new.stored ≡ self.old.stored }
        ensures lives { IsLiveLess key self.old self.new }
    {
        let before = self.links.prev(slot);
        let after = self.links.next(slot);
        self.links.link_out(before, after);
        self.index.set_marks(key, Marks::NONE);
    }

    // Makes a voided event live again.
    pub(crate) fn restore(&mut self, key: IndexKey, slot: u32, carries: Carries, names_evse: bool)
        requires { CanRestore key slot self.old }
        ensures stored { self.new.stored ≡ self.old.stored }
        ensures lives { IsLiveMore key slot carries names_evse self.old self.new }
    {
        let place = self.near;
        link_live(&self.index, &mut self.links, place, key, slot);
        let marks = Marks {
            live: true,
            imports: carries.import,
            exports: carries.export,
            names: names_evse,
        };
        self.index.set_marks(key, marks);
    }

    // Removes an event that is not live.
    pub(crate) fn remove(&mut self, key: IndexKey)
        requires stored { IsSome (place_of key self.old.stored.entries) }
        requires not_live { IsNotLive key self.old }
        ensures stored { self.new.stored ≡ index (out key self.old.stored.entries) self.old.stored.capacity }
        ensures lives { IsLiveSame self.old self.new }
    {
        self.index.remove(key);
    }

    // The slot of the next live event of the same transaction.
    pub(crate) fn next(&self, slot: u32) -> Option<u32>
        requires { HasRank self.now.live.entries slot }
        ensures { (rank : ℕ) → place_of rank self.now.live.entries ≡ Some slot → result ≡ option_map slot_in (slice_get (places_behind rank self.now.live.entries) 0) }
    {
        self.links.next(slot)
    }
}
