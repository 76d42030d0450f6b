//! The chains of readings: how an event's readings are put into the arena and taken out.
ghost use Rattle.std.specs.Prelude.{◌≡◌, ℕ, ◌+◌, ◌<◌, ◌≤◌, None, Some, length, slice_set, IsSome};
ghost use Rattle.slot_arena.specs.Arena.{value_at, held_count};
ghost use Rattle.event_store.specs.Links.{chain, IsRun, IsLast, AreKept, AreOthersKept};

use ledger_model::Reading;
use slot_arena::{SlotArena, SlotId};

/// A reading with its place in the chain of its event.
#[derive(Clone, Copy)]
pub struct ReadingLink {
    pub(crate) reading: Reading,
    // The slot of the next reading, if there is one.
    pub(crate) next: u32,
    // The slot of the event, and how many readings it has from this one on.
    pub(crate) owner: u16,
    pub(crate) left: u16,
}

// The slots of the first and the last reading of an event, if it has any.
#[derive(Clone, Copy)]
pub(crate) struct ChainEnds {
    pub(crate) first: u32,
    pub(crate) last: u32,
}

impl ChainEnds {
    // The ends with a slot put in front of a chain that then has `count` readings.
    fn in_front(self, slot: u32, count: u16) -> ChainEnds
        ensures first { result.first ≡ slot }
        ensures only { count ≡ 1 → result.last ≡ slot }
        ensures more { 1 < count → result.last ≡ self.last }
    {
        let last = if count == 1 { slot } else { self.last };
        ChainEnds { first: slot, last }
    }
}

// Puts a link into a free slot.
fn put_link(links: &mut SlotArena<ReadingLink>, link: ReadingLink) -> u32
    requires { held_count links.old < length links.old }
    ensures free { value_at links.old result ≡ None }
    ensures within { result < length links.old }
    ensures put { links.new ≡ slice_set links.old result (Some link) }
{
    match links.take(link) {
        Ok(id) => id.number(),
        Err(_) => unreachable!(),
    }
}

// Chains readings of the event in this slot, and returns where the chain begins and ends.
pub(crate) fn put_all(
    links: &mut SlotArena<ReadingLink>,
    owner: u16,
    readings: &[Reading],
) -> ChainEnds
    requires few { length readings.now < 65536 }
    requires room { held_count links.old + length readings.now ≤ length links.old }
    ensures run { IsRun links.new owner result.first (length readings.now) }
    ensures ends { IsLast links.new owner result.first (length readings.now) result.last }
    ensures chain { chain links.new result.first (length readings.now) ≡ readings.now }
    ensures kept { AreKept links.old links.new }
    ensures held { held_count links.new ≡ held_count links.old + length readings.now }
    ensures capacity { length links.new ≡ length links.old }
{
    let mut ends = ChainEnds { first: 0, last: 0 };
    let mut count: u16 = 0;
    let mut rest = readings;
    while let [before @ .., reading] = rest {
        count += 1;
        let link = ReadingLink {
            reading: *reading,
            next: ends.first,
            owner,
            left: count,
        };
        ends = ends.in_front(put_link(links, link), count);
        rest = before;
    }
    ends
}

// Frees the slots of `count` readings of the event in this slot, from the first one on.
pub(crate) fn take_all(links: &mut SlotArena<ReadingLink>, owner: u16, first: u32, count: u16)
    requires { IsRun links.old owner first count }
    ensures kept { AreOthersKept owner links.old links.new }
    ensures held { held_count links.new + count ≡ held_count links.old }
    ensures capacity { length links.new ≡ length links.old }
{
    let mut here = first;
    let mut left = count;
    while left > 0 {
        let link = links.give(SlotId::new(here));
        here = link.next;
        left -= 1;
    }
}
