ghost use Rattle.std.{specs.Prelude.{◌≡◌, ◌-◌, ◌<◌, ◌≤◌, ◌↔◌, Some, None, length, replicate, slice_set, IfOk, IfErr, IsErr, OnErr, IsTrue}, specs.Borrow.sem};
ghost use Rattle.slot_arena.specs.Arena.{value_at, IsHeld, held_count, IsFull};

use crate::block::{Lease, Places, Start, release, reserve};
use crate::id::SlotId;
use crate::slot::{Slot, clear_all, hold, link_all, vacate};
use std::alloc::{AllocError, Global};
use std::marker::Model;
use std_alloc::room::may_hold;

/// The most slots that an arena may have.
pub const MAX_SLOTS: u32 = 65_536;

/// A fixed number of slots in one block of memory. Contracts see an arena as a list with an
/// `Option` for each id.
pub struct SlotArena<T> {
    start: Start<Slot<T>>,
    places: Places<Slot<T>>,
    lease: Lease<Slot<T>, Global>,
    alloc: Global,
    capacity: u32,
    first: u32,
    spare: u32,
}

impl<T> Model for SlotArena<T> {
    ghost use Rattle.std.specs.Prelude.{◌≡◌, List, Option, length};

    ghost Value = { List (Option T) };

    ghost use Rattle.slot_arena.specs.Free.{values_in, IsThreaded};

    ghost view = { λ a. values_in a.places.row };

    ghost invariant = { λ a. record {
      places_at : a.places.at ≡ a.start.ptr;
      lease_at : a.lease.at ≡ a.start.ptr;
      lease_len : a.lease.len ≡ a.capacity;
      lease_alloc : a.lease.alloc ≡ a.alloc;
      count : length a.places.row ≡ a.capacity;
      threaded : IsThreaded a.places.row a.first a.spare;
    } };
}

impl<T> SlotArena<T> {
    ghost use Rattle.slot_arena.specs.LentValue.{lends_value};

    /// An arena of `n` free slots, at most [`MAX_SLOTS`], by one request for memory. The error says
    /// that the allocator refused it, or that the block would have 2^63 bytes or more.
    pub fn with_capacity(alloc: Global, n: u32) -> Result<Self, AllocError>
        requires { n ≤ MAX_SLOTS }
        ensures { IfOk result (λ a. a ≡ replicate n None) }
    {
        if !may_hold::<Slot<T>>(n as usize) {
            return Err(AllocError);
        }
        let (start, mut places, lease) = reserve(&alloc, n as usize)?;
        link_all(start, &mut places, n);
        Ok(SlotArena {
            start,
            places,
            lease,
            alloc,
            capacity: n,
            first: 0,
            spare: n,
        })
    }

    /// Puts a value at a free id and returns the id; if no id is free, the error gives the value
    /// back.
    pub fn take(&mut self, value: T) -> Result<SlotId, T>
        ensures was_free { IfOk result (λ id. (id < length self.old) × (value_at self.old id ≡ None)) }
        ensures numbered { IfOk result (λ id. id < MAX_SLOTS) }
        ensures taken { IfOk result (λ id. self.new ≡ slice_set self.old id (Some value)) }
        ensures full { IsErr result ↔ IsFull self.old }
        ensures given_back { IfErr result (λ v. v ≡ value) }
        ensures unchanged { OnErr result (self.new ≡ self.old) }
    {
        if self.spare == 0 {
            return Err(value);
        }
        let index = self.first;
        self.first = hold(self.start, &mut self.places, index, value);
        self.spare -= 1;
        Ok(SlotId::new(index))
    }

    /// Takes out the value of a held id; the id is free from then on.
    pub fn give(&mut self, id: SlotId) -> T
        requires { IsHeld self.old id }
        ensures numbered { id < MAX_SLOTS }
        ensures value { value_at self.old id ≡ Some result }
        ensures given { self.new ≡ slice_set self.old id None }
    {
        let index = id.number();
        let value = vacate(self.start, &mut self.places, index, self.first);
        self.first = index;
        self.spare += 1;
        value
    }

    /// The value of a held id.
    pub fn get(&self, id: SlotId) -> &T
        requires { IsHeld self.now id }
        ensures { value_at self.now id ≡ Some result.now }
    {
        match self.places.seen(self.start, id.number() as usize) {
            Slot::Held(value) => value,
            Slot::Free(_) => unreachable!(),
        }
    }

    /// The value of a held id, to change.
    pub fn get_mut(&mut self, id: SlotId) -> &mut T
        requires { IsHeld self.old id }
        ensures* writes_back { sem 𝓛 (lends_value T.row self.entry id result) }
        ensures value { value_at self.old id ≡ Some result.now }
    {
        let start = self.start;
        self.places.lent(start, id.number() as usize).value_mut()
    }

    /// Returns whether an id has a value.
    pub fn is_held(&self, id: SlotId) -> bool
        ensures { IsTrue result ↔ IsHeld self.now id }
    {
        let index = id.number();
        if index >= self.capacity {
            return false;
        }
        match self.places.seen(self.start, index as usize) {
            Slot::Held(_) => true,
            Slot::Free(_) => false,
        }
    }

    /// How many more values the arena can take: its capacity less the values that it holds.
    pub fn free(&self) -> u32
        ensures free { result ≡ length self.now - held_count self.now }
        ensures within { held_count self.now ≤ length self.now }
    {
        self.spare
    }

    /// How many values the arena can hold.
    pub fn capacity(&self) -> u32
        ensures capacity { result ≡ length self.now }
        ensures within { result ≤ MAX_SLOTS }
    {
        self.capacity
    }
}

impl<T: Drop> Drop for SlotArena<T> {
    fn drop(self) {
        let SlotArena {
            start,
            mut places,
            lease,
            alloc,
            capacity,
            first: _,
            spare: _,
        } = self;
        clear_all(start, &mut places, capacity);
        release(&alloc, start, capacity as usize, places, lease);
    }
}
