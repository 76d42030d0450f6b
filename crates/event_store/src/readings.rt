ghost use Rattle.std.{specs.Prelude.{◌≡◌, ◌↔◌, ℕ, List, [], ◌∷◌, IsTrue, IfSome, IfNone}, specs.Iterator.{YieldsFirst, item_count}};
ghost use Rattle.ledger_model.specs.Event.{toward};
ghost use Rattle.event_store.specs.Links.{chain, IsRun};

use crate::links::ReadingLink;
use ledger_model::{Direction, Reading};
use slot_arena::{SlotArena, SlotId};
use std::marker::Model;

/// The readings of an event that are still to come, in the order sent.
#[derive(Drop)]
pub struct AllReadings<'a> {
    links: &'a SlotArena<ReadingLink>,
    next: u32,
    left: u16,
}

impl<'a> Model for AllReadings<'a> {
    ghost use Rattle.std.specs.Prelude.{List, ℕ};
    ghost use Rattle.ledger_model.specs.Event.{MeterReading};
    ghost use Rattle.event_store.specs.Links.{chain, IsRun};

    ghost Value = { List MeterReading };

    ghost view = { λ r. chain r.links.now r.next r.left };

    ghost invariant = { λ r. (owner : ℕ) × IsRun r.links.now owner r.next r.left };
}

impl<'a> AllReadings<'a> {
    // The readings of a chain.
    pub(crate) fn of(links: &'a SlotArena<ReadingLink>, first: u32, count: u16) -> Self
        requires { (owner : ℕ) × IsRun links.now owner first count }
        ensures { result ≡ chain links.now first count }
    {
        AllReadings {
            links,
            next: first,
            left: count,
        }
    }
}

impl<'a> Iterator for AllReadings<'a> {
    type Item = Reading;

    ghost next_gives = { YieldsFirst (λ s. s) };

    ghost remaining = { item_count (λ s. s) };

    fn next(&mut self) -> Option<Reading> {
        if self.left == 0 {
            return None;
        }
        let link = *self.links.get(SlotId::new(self.next));
        self.next = link.next;
        self.left -= 1;
        Some(link.reading)
    }
}

// The first reading of a direction among those to come; those before it are skipped.
fn next_toward(all: &mut AllReadings<'_>, direction: Direction) -> Option<Reading>
    ensures found { IfSome result (λ r. toward direction all.old ≡ r ∷ toward direction all.new) }
    ensures none { IfNone result ((toward direction all.old ≡ []) × (toward direction all.new ≡ [])) }
{
    while let Some(reading) = all.next() {
        if reading.direction() == direction {
            return Some(reading);
        }
    }
    None
}

/// The readings of an event in one direction that are still to come, in the order sent.
#[derive(Drop)]
pub struct Readings<'a> {
    all: AllReadings<'a>,
    direction: Direction,
}

impl<'a> Model for Readings<'a> {
    ghost use Rattle.std.specs.Prelude.{List};
    ghost use Rattle.ledger_model.specs.Event.{MeterReading, toward};

    ghost Value = { List MeterReading };

    ghost view = { λ r. toward r.direction r.all };
}

impl<'a> Readings<'a> {
    // The readings of this direction among all that are still to come.
    pub(crate) fn of(all: AllReadings<'a>, direction: Direction) -> Self
        ensures { result ≡ toward direction all.entry }
    {
        Readings { all, direction }
    }
}

impl<'a> Iterator for Readings<'a> {
    type Item = Reading;

    ghost next_gives = { YieldsFirst (λ s. s) };

    ghost remaining = { item_count (λ s. s) };

    fn next(&mut self) -> Option<Reading> {
        next_toward(&mut self.all, self.direction)
    }
}

// Returns whether the readings of a chain are these.
pub(crate) fn are_same(
    links: &SlotArena<ReadingLink>,
    first: u32,
    count: u16,
    sent: &[Reading],
) -> bool
    requires { (owner : ℕ) × IsRun links.now owner first count }
    ensures { IsTrue result ↔ (chain links.now first count ≡ sent.now) }
{
    let mut left = AllReadings::of(links, first, count);
    let mut rest = sent;
    while let [first, more @ ..] = rest {
        if left.next() != Some(*first) {
            return false;
        }
        rest = more;
    }
    left.next().is_none()
}
