ghost use Rattle.std.specs.Prelude.{◌≡◌, true};
ghost use Rattle.event_chain.{specs.Lists.AreOwn, specs.Walk.{numbers_at, are_under}};
ghost use Rattle.key_index.specs.Entries.{AreRising, AreRising-prop};

use crate::look_ups::first_place;
use crate::place_index::PlaceIndex;
use event_store::EventStore;
use gap_list::NumberWalk;
use key_index::KeyPlace;
use std::marker::Model;

/// A walk over the live numbers of a transaction, rising. A look-up finds its start, and each step
/// follows a link. Contracts see the numbers.
#[derive(Drop)]
pub struct TxWalk<'a> {
    live: &'a PlaceIndex,
    store: &'a EventStore,
    // The transaction's slot, if it has one.
    slot: Option<u32>,
}

impl<'a> Model for TxWalk<'a> {
    ghost use Rattle.std.specs.Prelude.{◌≡◌, true, List, ℕ};
    ghost use Rattle.event_chain.specs.Walk.{numbers_at, are_under};

    ghost Value = { List ℕ };

    ghost view = { λ w. numbers_at w.live.now.live.entries w.slot };

    ghost invariant = { λ w. are_under w.store.now.slots w.live.now.live.entries ≡ true };
}

/// A place of a walk: the slot of a live event, with the links that lead on and the events.
#[derive(Clone, Copy)]
pub struct TxPlace<'a> {
    live: &'a PlaceIndex,
    store: &'a EventStore,
    slot: u32,
    // The keys of the index rise, each with a slot of its own.
    ghost rising: { AreRising live.now.live.entries } by { AreRising-prop live.now.live.entries },
    ghost own: { AreOwn live.now.live.entries },
}

impl<'a> TxWalk<'a> {
    // The walk over the live numbers of the transaction of a slot.
    pub(crate) fn over(live: &'a PlaceIndex, store: &'a EventStore, slot: Option<u32>) -> Self
        requires { are_under store.now.slots live.now.live.entries ≡ true }
        ensures { result ≡ numbers_at live.now.live.entries slot }
    {
        TxWalk { live, store, slot }
    }
}

impl<'a> NumberWalk for TxWalk<'a> {
    ghost use Rattle.event_chain.specs.Walk.{numbers_from};

    type Place = TxPlace<'a>;

    ghost numbers = { λ w. w };

    ghost ahead = { λ w place. numbers_from place.live.now.live.entries place.store.now.slots place.slot };

    fn start(&self) -> Option<TxPlace<'a>> {
        let index = self.live.live(KeyPlace::UNKNOWN);
        match self.slot {
            Some(slot) => match first_place(&index, slot) {
                Some(first) => Some(TxPlace {
                    live: self.live,
                    store: self.store,
                    slot: first.1,
                }),
                None => None,
            },
            None => None,
        }
    }

    fn number(&self, place: TxPlace<'a>) -> u32 {
        place.store.get(place.slot).key().number()
    }

    fn next(&self, place: TxPlace<'a>) -> Option<TxPlace<'a>> {
        match place.live.next(place.slot) {
            Some(slot) => Some(TxPlace {
                live: place.live,
                store: place.store,
                slot,
            }),
            None => None,
        }
    }
}
