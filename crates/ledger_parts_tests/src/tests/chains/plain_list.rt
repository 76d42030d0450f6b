//! The events of a station in a plain list by transaction and number, to compare chains with.
use event_chain::{Chains, Found, Room, TxStanding};
use ledger_model::{Direction, Event, EvseId, Key, Kind, Reading};
use std::alloc::{AllocError, Global};

// A reading on one side of something, and one on its other side.
type Sides = (Option<Reading>, Option<Reading>);

// The first and the last reading of a direction.
fn ends_toward(readings: &[Reading], direction: Direction) -> Sides {
    let mut ends = (None, None);
    for reading in readings {
        if reading.direction() == direction {
            ends = (ends.0.or(Some(*reading)), Some(*reading));
        }
    }
    ends
}

// An event of the list. A number says its transaction.
#[derive(Clone, Copy)]
struct PlainRow {
    tx: u32,
    seq: u32,
    voided: bool,
    kind: Kind,
    evse: EvseId,
    imports: Sides,
    exports: Sides,
    readings: usize,
}

// The answers about a key, about the room for one more event, and about the key's transaction: by one call,
// and by a call for each.
#[derive(Clone, Copy, PartialEq, Eq)]
pub(crate) struct Answers {
    found: Option<Found>,
    room: Room,
    imports: Sides,
    exports: Sides,
    standing: TxStanding,
    alone: TxStanding,
}

impl Answers {
    // The answers of chains.
    pub(crate) fn of(chains: &Chains, key: &Key, readings: usize) -> Answers {
        let standing = chains.standing(key.tx());
        Answers {
            found: chains.find(key),
            room: chains.room_for(key.tx(), readings),
            imports: chains.neighbours(key, Direction::Import),
            exports: chains.neighbours(key, Direction::Export),
            standing,
            alone: TxStanding {
                first: chains.first(key.tx()),
                last: chains.last(key.tx()),
                first_kind: standing.first_kind,
                last_kind: standing.last_kind,
                live: chains.live_count(key.tx()),
                ends: chains.end_count(key.tx()),
                evse: chains.evse(key.tx()),
            },
        }
    }
}

// What a walk has seen of the live events of a transaction.
#[derive(Clone, Copy)]
struct Seen {
    standing: TxStanding,
    imports: Sides,
    exports: Sides,
}

impl Seen {
    // No event.
    fn none() -> Seen {
        Seen {
            standing: TxStanding {
                first: None,
                last: None,
                first_kind: None,
                last_kind: None,
                live: 0,
                ends: 0,
                evse: EvseId::unnamed(),
            },
            imports: (None, None),
            exports: (None, None),
        }
    }

    // Takes an event into account; its number is above those before it.
    fn see(&mut self, row: &PlainRow, seq: u32) {
        self.stand(row);
        if row.seq < seq {
            self.imports.0 = row.imports.1.or(self.imports.0);
            self.exports.0 = row.exports.1.or(self.exports.0);
        }
        if row.seq > seq {
            self.imports.1 = self.imports.1.or(row.imports.0);
            self.exports.1 = self.exports.1.or(row.exports.0);
        }
    }

    // Takes it into account for the transaction.
    fn stand(&mut self, row: &PlainRow) {
        let standing = &mut self.standing;
        if standing.first.is_none() {
            standing.first = Some(row.seq);
            standing.first_kind = Some(row.kind);
        }
        standing.last = Some(row.seq);
        standing.last_kind = Some(row.kind);
        standing.live = standing.live.wrapping_add(1);
        if row.kind != Kind::Updated {
            standing.ends = standing.ends.wrapping_add(1);
        }
        if standing.evse == EvseId::unnamed() {
            standing.evse = row.evse;
        }
    }
}

// A list of events, how many readings they have, and how many transactions, events and readings it may
// have.
#[derive(Drop)]
pub(crate) struct PlainList {
    rows: Vec<PlainRow>,
    held: usize,
    transactions: usize,
    events: usize,
    readings: usize,
}

impl PlainList {
    // A list without events.
    pub(crate) fn open(
        alloc: Global,
        transactions: usize,
        events: usize,
        readings: usize,
    ) -> PlainList {
        PlainList {
            rows: Vec::new(alloc),
            held: 0,
            transactions,
            events,
            readings,
        }
    }

    // How many events are in front of a number's place.
    fn place(&self, tx: u32, seq: u32) -> usize {
        let mut place: usize = 0;
        for row in &self.rows {
            if row.tx > tx || (row.tx == tx && row.seq >= seq) {
                return place;
            }
            place = place.wrapping_add(1);
        }
        place
    }

    // How the event of a number is stored.
    fn found(&self, tx: u32, seq: u32) -> Option<Found> {
        match self.rows.get(self.place(tx, seq)) {
            Some(row) if row.tx == tx && row.seq == seq => {
                Some(if row.voided {
                    Found::Voided
                } else {
                    Found::Live
                })
            }
            _ => None,
        }
    }

    // The room for an event with so many readings, whether its transaction is stored or not, with so
    // many transactions stored.
    fn room(&self, there: bool, transactions: usize, readings: usize) -> Room {
        if !there && transactions >= self.transactions {
            Room::NoTransaction
        } else if self.rows.len() >= self.events {
            Room::NoEvent
        } else if self.held.wrapping_add(readings) > self.readings {
            Room::NoReading
        } else {
            Room::Fits
        }
    }

    // The answers of the list.
    pub(crate) fn answers(&self, tx: u32, seq: u32, readings: usize) -> Answers {
        let mut seen = Seen::none();
        let mut there = false;
        let mut transactions: usize = 0;
        let mut above: u32 = 0;
        for row in &self.rows {
            // A transaction is counted where it begins; their numbers begin at 1.
            transactions = transactions.wrapping_add(usize::from(row.tx > above));
            above = row.tx;
            there = there || row.tx == tx;
            if row.tx == tx && !row.voided {
                seen.see(row, seq);
            }
        }
        Answers {
            found: self.found(tx, seq),
            room: self.room(there, transactions, readings),
            imports: seen.imports,
            exports: seen.exports,
            standing: seen.standing,
            alone: seen.standing,
        }
    }

    // The live numbers of a transaction, rising.
    pub(crate) fn numbers(&self, alloc: Global, tx: u32) -> Result<Vec<u32>, AllocError> {
        let mut numbers = Vec::new(alloc);
        for row in &self.rows {
            if row.tx == tx && !row.voided {
                numbers.push(row.seq)?;
            }
        }
        Ok(numbers)
    }

    // Puts a live event in under a number that is new.
    pub(crate) fn put(&mut self, tx: u32, seq: u32, event: &Event) -> Result<(), AllocError> {
        let place = self.place(tx, seq);
        let row = PlainRow {
            tx,
            seq,
            voided: false,
            kind: event.kind(),
            evse: event.evse().unwrap_or(EvseId::unnamed()),
            imports: ends_toward(event.readings(), Direction::Import),
            exports: ends_toward(event.readings(), Direction::Export),
            readings: event.readings().len(),
        };
        self.held = self.held.wrapping_add(row.readings);
        if place <= self.rows.len() {
            self.rows.insert(place, row)?;
        }
        Ok(())
    }

    // Voids the event of a number, or makes it live again.
    pub(crate) fn mark(&mut self, tx: u32, seq: u32, voided: bool) {
        let place = self.place(tx, seq);
        if let Some(row) = self.rows.get_mut(place) {
            row.voided = voided;
        }
    }

    // Takes the event of a number out.
    pub(crate) fn take(&mut self, tx: u32, seq: u32) {
        let place = self.place(tx, seq);
        if place < self.rows.len() {
            let row = self.rows.remove(place);
            self.held = self.held.wrapping_sub(row.readings);
        }
    }
}
