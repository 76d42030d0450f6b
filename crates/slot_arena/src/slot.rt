//! What is in one place of an arena's block, and the steps on one place.
ghost use Rattle.std.{specs.Prelude.{◌≡◌, Some, None, length, replicate, get_or, slice_set}, specs.Borrow.sem};
ghost use Rattle.slot_arena.{specs.Slots.{HoldsValue, LinksOn, IsHolding}, specs.Free.{AreMade, links}, specs.LentSlot.lends_held};

use crate::block::{Places, Start};

/// A free slot holds the number of the next free one, and a held slot its value.
#[derive(Drop)]
pub enum Slot<T> {
    Free(u32),
    Held(T),
}

impl<T> Slot<T> {
    /// The value of a held slot, to change.
    pub(crate) fn value_mut(&mut self) -> &mut T
        requires { IsHolding self.old }
        ensures* writes_back { sem 𝓛 (lends_held T.row self.entry result) }
        ensures value { self.old ≡ Slot.Held result.now }
    {
        match self {
            Slot::Held(value) => value,
            Slot::Free(_) => unreachable!(),
        }
    }
}

/// Puts a value into a free slot, and returns the next free one.
pub(crate) fn hold<T>(
    start: Start<Slot<T>>,
    places: &mut Places<Slot<T>>,
    index: u32,
    value: T,
) -> u32
    requires { (start.ptr ≡ places.old.at) × LinksOn places.old.row index }
    ensures next { get_or places.old.row index None ≡ Some (Slot.Free result) }
    ensures row { (places.new.at ≡ places.old.at) × (places.new.row ≡ slice_set places.old.row index (Some (Slot.Held value))) }
{
    match places.pull(start, index as usize) {
        Slot::Free(next) => {
            places.put(start, index as usize, Slot::Held(value));
            next
        }
        Slot::Held(_value) => unreachable!(),
    }
}

/// Takes the value out of a held slot, which is free from then on, before the slot `next`.
pub(crate) fn vacate<T>(
    start: Start<Slot<T>>,
    places: &mut Places<Slot<T>>,
    index: u32,
    next: u32,
) -> T
    requires { (start.ptr ≡ places.old.at) × HoldsValue places.old.row index }
    ensures value { get_or places.old.row index None ≡ Some (Slot.Held result) }
    ensures row { (places.new.at ≡ places.old.at) × (places.new.row ≡ slice_set places.old.row index (Some (Slot.Free next))) }
{
    match places.pull(start, index as usize) {
        Slot::Held(value) => {
            places.put(start, index as usize, Slot::Free(next));
            value
        }
        Slot::Free(_) => unreachable!(),
    }
}

/// Makes each of `count` empty places a free slot before the next one.
pub(crate) fn link_all<T>(start: Start<Slot<T>>, places: &mut Places<Slot<T>>, count: u32)
    requires { (start.ptr ≡ places.old.at) × (places.old.row ≡ replicate count None) }
    ensures { (places.new.at ≡ places.old.at) × (places.new.row ≡ links 0 count) }
{
    let mut index = count;
    while index > 0 {
        let next = index;
        index -= 1;
        places.put(start, index as usize, Slot::Free(next));
    }
}

/// Drops what each of `count` slots holds, and leaves the places empty.
pub(crate) fn clear_all<T: Drop>(start: Start<Slot<T>>, places: &mut Places<Slot<T>>, count: u32)
    requires { (start.ptr ≡ places.old.at) × AreMade places.old.row × (length places.old.row ≡ count) }
    ensures { (places.new.at ≡ places.old.at) × (places.new.row ≡ replicate count None) }
{
    let mut index = 0;
    while index < count {
        let _slot = places.pull(start, index as usize);
        index += 1;
    }
}
