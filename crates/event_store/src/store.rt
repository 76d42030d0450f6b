ghost use Rattle.std.specs.Prelude.{◌≡◌, ◌↔◌, ◌+◌, ◌<◌, ◌≤◌, IsTrue, false, [], length, slice_set, replicate, None, Some, IfOk};
ghost use Rattle.slot_arena.specs.Arena.{value_at, held_count, IsHeld};
ghost use Rattle.event_store.{specs.Slots.{voided_at, readings_at}, specs.Store.{new_slot, run_set}};

use crate::event_ref::EventRef;
use crate::event_slot::EventSlot;
use crate::links::{ChainEnds, ReadingLink, put_all, take_all};
use crate::readings::{AllReadings, Readings};
use key_index::IndexKey;
use ledger_model::{Direction, Event};
use slot_arena::{MAX_SLOTS, SlotArena, SlotId};
use std::alloc::{AllocError, Global};
use std::marker::Model;

/// Events with their readings, each in a numbered slot. Contracts see what each slot holds, and how
/// many readings it holds and may hold.
#[derive(Drop)]
pub struct EventStore {
    events: SlotArena<EventSlot>,
    links: SlotArena<ReadingLink>,
}

impl Model for EventStore {
    ghost use Rattle.event_store.specs.Slots.{Slots, slots_code};

    ghost Value = { Slots };

    ghost coded = { slots_code };

    ghost use Rattle.event_store.specs.Store.{store_of, AreChained};

    ghost view = { λ s. store_of s.events s.links };

    ghost invariant = { λ s. AreChained s.events s.links };
}

impl EventStore {
    /// A store of `events` free slots with room for `readings` readings, each at most 65,536. The
    /// error says that the allocator refused memory.
    pub fn open(alloc: Global, events: u32, readings: u32) -> Result<Self, AllocError>
        requires { (events ≤ MAX_SLOTS) × (readings ≤ MAX_SLOTS) }
        ensures slots { IfOk result (λ s. s.slots ≡ replicate events None) }
        ensures readings { IfOk result (λ s. s.readings ≡ 0) }
        ensures capacity { IfOk result (λ s. s.capacity ≡ readings) }
    {
        let events = SlotArena::with_capacity(alloc, events)?;
        let links = SlotArena::with_capacity(alloc, readings)?;
        Ok(EventStore { events, links })
    }

    /// Puts a live event into a free slot, and returns the slot. There must be a free slot, and
    /// room for the event's readings.
    pub fn put(&mut self, key: IndexKey, event: &Event) -> u32
        requires free { held_count self.old.slots < length self.old.slots }
        requires room { self.old.readings + length event.now.readings ≤ self.old.capacity }
        ensures was_free { value_at self.old.slots result ≡ None }
        ensures within { result < length self.old.slots }
        ensures slots { self.new.slots ≡ slice_set self.old.slots result (Some (key, record { event = event.now; voided = false })) }
        ensures readings { self.new.readings ≡ self.old.readings + length event.now.readings }
        ensures capacity { self.new.capacity ≡ self.old.capacity }
    {
        let number = put_slot(&mut self.events, key, event);
        let readings = event.readings();
        let ends = put_all(&mut self.links, number, readings);
        set_run(&mut self.events, number, ends, readings.len() as u16);
        u32::from(number)
    }

    /// Marks the event of a slot as voided or not.
    pub fn set_voided(&mut self, slot: u32, voided: bool)
        requires { IsHeld self.old.slots slot }
        ensures slots { self.new.slots ≡ voided_at self.old.slots slot voided }
        ensures readings { self.new.readings ≡ self.old.readings }
        ensures capacity { self.new.capacity ≡ self.old.capacity }
    {
        self.events.get_mut(SlotId::new(slot)).voided = voided;
    }

    /// Frees a slot and the slots of its readings.
    pub fn take_out(&mut self, slot: u32)
        requires { IsHeld self.old.slots slot }
        ensures slots { self.new.slots ≡ slice_set self.old.slots slot None }
        ensures readings { self.new.readings + readings_at self.old.slots slot ≡ self.old.readings }
        ensures capacity { self.new.capacity ≡ self.old.capacity }
    {
        let event = self.events.give(SlotId::new(slot));
        take_all(&mut self.links, slot as u16, event.first, event.count);
    }

    /// How many more events it can hold.
    pub fn free_slots(&self) -> u32
        ensures { result + held_count self.now.slots ≡ length self.now.slots }
    {
        self.events.free()
    }

    /// Returns whether a slot holds an event.
    pub fn is_held(&self, slot: u32) -> bool
        ensures { IsTrue result ↔ IsHeld self.now.slots slot }
    {
        self.events.is_held(SlotId::new(slot))
    }

    /// How many more readings it can hold.
    pub fn free_readings(&self) -> u32
        ensures { result + self.now.readings ≡ self.now.capacity }
    {
        self.links.free()
    }

    /// No readings.
    pub fn no_readings(&self) -> Readings<'_>
        ensures { result ≡ [] }
    {
        Readings::of(AllReadings::of(&self.links, 0, 0), Direction::Import)
    }

    /// The event of a slot.
    pub fn get(&self, slot: u32) -> EventRef<'_>
        requires { IsHeld self.now.slots slot }
        ensures { value_at self.now.slots slot ≡ Some result }
    {
        EventRef::of(*self.events.get(SlotId::new(slot)), &self.links)
    }
}

// Puts an event, except for its readings, into a free slot.
fn put_slot(events: &mut SlotArena<EventSlot>, key: IndexKey, event: &Event) -> u16
    requires { held_count events.old < length events.old }
    ensures free { value_at events.old result ≡ None }
    ensures within { result < length events.old }
    ensures put { events.new ≡ slice_set events.old result (Some (new_slot key event.now)) }
{
    let slot = EventSlot {
        key,
        kind: event.kind(),
        moment: event.moment(),
        evse: event.evse(),
        voided: false,
        first: 0,
        last: 0,
        count: 0,
    };
    match events.take(slot) {
        Ok(id) => id.number() as u16,
        Err(_) => unreachable!(),
    }
}

// Writes to a slot where the readings of its event begin and end, and how many they are.
fn set_run(events: &mut SlotArena<EventSlot>, number: u16, ends: ChainEnds, count: u16)
    requires { IsHeld events.old number }
    ensures { events.new ≡ slice_set events.old number (run_set (value_at events.old number) ends.first ends.last count) }
{
    let slot = events.get_mut(SlotId::new(u32::from(number)));
    slot.first = ends.first;
    slot.last = ends.last;
    slot.count = count;
}
