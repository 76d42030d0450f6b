ghost use Rattle.std.specs.Prelude.{◌≡◌, ◌↔◌, length, IsTrue};
ghost use Rattle.ledger_model.{specs.Deltas.{first_reading, last_reading}, specs.Event.toward};

use crate::event_slot::EventSlot;
use crate::links::ReadingLink;
use crate::readings::{AllReadings, Readings, are_same};
use key_index::IndexKey;
use ledger_model::{Direction, Event, EvseId, Kind, Moment, Reading};
use slot_arena::{SlotArena, SlotId};
use std::marker::Model;

/// A stored event. Contracts see the rank of its key, the event, and whether it is voided.
#[derive(Drop)]
pub struct EventRef<'a> {
    slot: EventSlot,
    links: &'a SlotArena<ReadingLink>,
}

impl<'a> Model for EventRef<'a> {
    ghost use Rattle.std.specs.Prelude.{ℕ};
    ghost use Rattle.event_store.specs.Slots.{Held, held_code};

    ghost Value = { Held };

    ghost coded = { held_code };

    ghost use Rattle.event_store.{specs.Links.AreReadings, specs.Store.held_in};

    ghost view = { λ e. held_in e.links.now e.slot };

    ghost invariant = { λ e. (owner : ℕ) × AreReadings e.links.now owner e.slot.first e.slot.count e.slot.last };
}

impl<'a> EventRef<'a> {
    ghost use Rattle.std.specs.Prelude.{ℕ};
    ghost use Rattle.event_store.{specs.Links.AreReadings, specs.Store.held_in};

    // The event of a slot.
    pub(crate) fn of(slot: EventSlot, links: &'a SlotArena<ReadingLink>) -> Self
        requires { (owner : ℕ) × AreReadings links.now owner slot.first slot.count slot.last }
        ensures { result ≡ held_in links.now slot }
    {
        EventRef { slot, links }
    }

    /// Its key.
    pub fn key(&self) -> IndexKey
        ensures { result ≡ self.now.0 }
    {
        self.slot.key
    }

    /// Returns whether it is voided.
    pub fn is_voided(&self) -> bool
        ensures { result ≡ self.now.1.voided }
    {
        self.slot.voided
    }

    /// Whether the event is Started, Updated or Ended.
    pub fn kind(&self) -> Kind
        ensures { result ≡ self.now.1.event.kind }
    {
        self.slot.kind
    }

    /// The moment of the event, by its station's clock.
    pub fn moment(&self) -> Moment
        ensures { result ≡ self.now.1.event.moment }
    {
        self.slot.moment
    }

    /// The EVSE that the event names, if it names one.
    pub fn evse(&self) -> Option<EvseId>
        ensures { result ≡ self.now.1.event.evse }
    {
        self.slot.evse
    }

    /// How many counted readings it has, at most 1,024.
    pub fn reading_count(&self) -> usize
        ensures { result ≡ length self.now.1.event.readings }
    {
        usize::from(self.slot.count)
    }

    /// Its counted readings of a direction, in the order sent.
    pub fn readings(&self, direction: Direction) -> Readings<'a>
        ensures { result ≡ toward direction self.now.1.event.readings }
    {
        let all = AllReadings::of(self.links, self.slot.first, self.slot.count);
        Readings::of(all, direction)
    }

    /// The first of its counted readings of a direction; none if it has none.
    pub fn first_reading(&self, direction: Direction) -> Option<Reading>
        ensures { result ≡ first_reading (toward direction self.now.1.event.readings) }
    {
        self.readings(direction).next()
    }

    // The last of its counted readings of both directions; none if it has none.
    fn last_of_all(&self) -> Option<Reading>
        ensures { result ≡ last_reading self.now.1.event.readings }
    {
        if self.slot.count == 0 {
            return None;
        }
        Some(self.links.get(SlotId::new(self.slot.last)).reading)
    }

    // The last of its counted readings of a direction, found by a walk over them.
    fn last_by_all(&self, direction: Direction) -> Option<Reading>
        ensures { result ≡ last_reading (toward direction self.now.1.event.readings) }
    {
        let mut left = self.readings(direction);
        let mut last = None;
        while let Some(reading) = left.next() {
            last = Some(reading);
        }
        last
    }

    /// The last of its counted readings of a direction; none if it has none.
    pub fn last_reading(&self, direction: Direction) -> Option<Reading>
        ensures { result ≡ last_reading (toward direction self.now.1.event.readings) }
    {
        // Nearly all events have readings of one direction.
        match self.last_of_all() {
            Some(reading) if reading.direction() == direction => Some(reading),
            _ => self.last_by_all(direction),
        }
    }

    /// Returns whether it has the same content as this event.
    pub fn same_as(&self, event: &Event) -> bool
        ensures { IsTrue result ↔ (self.now.1.event ≡ event.now) }
    {
        self.kind() == event.kind()
            && self.moment() == event.moment()
            && self.evse() == event.evse()
            && are_same(
                self.links,
                self.slot.first,
                self.slot.count,
                event.readings(),
            )
    }
}
