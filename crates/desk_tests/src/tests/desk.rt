mod book;
mod gates;
mod plans;
mod scenes;
mod three;

use ledger_model::{
    Answer, Command, Direction, Event, EvseId, Figures, Key, Kind, Moment, Name, Reading, TxId,
};
use site_book::Naming;
use site_desk::{Closed, Desk, NoGate, Pass};
use std::alloc::Global;
use std::sync::Wait;
use std::thread::Threads;
use std::time::Clock;

// An event of transaction T1: its kind and number, its minute after ten o'clock, the EVSE that it
// names, and the minute and watt-hours of its reading.
#[derive(Clone, Copy)]
struct Asked {
    kind: Kind,
    seq: u32,
    minute: u64,
    evse: Option<u8>,
    read: u64,
    watt_hours: u64,
}

// The first event, at ten o'clock.
const FIRST: Asked = Asked {
    kind: Kind::Started,
    seq: 0,
    minute: 0,
    evse: None,
    read: 0,
    watt_hours: 1_000,
};

// An event that names no EVSE, with a reading at its own minute.
fn tells(kind: Kind, seq: u32, minute: u64, watt_hours: u64) -> Asked {
    Asked {
        kind,
        seq,
        minute,
        evse: None,
        read: minute,
        watt_hours,
    }
}

fn key_of(seq: u32) -> Option<Key> {
    Key::new(TxId::new("T1")?, seq)
}

fn moment(minute: u64) -> Option<Moment> {
    Moment::new((1_772_359_200 + 60 * minute.min(1_000)) * 1_000_000_000)
}

fn evse_of(number: Option<u8>) -> Option<Option<EvseId>> {
    match number {
        Some(number) => Some(Some(EvseId::new(number)?)),
        None => Some(None),
    }
}

fn delivery_of(alloc: Global, asked: Asked) -> Option<Command> {
    let mwh = 1_000 * asked.watt_hours.min(10_000_000_000);
    let mut readings = Vec::new(alloc);
    readings
        .push(Reading::new(moment(asked.read)?, mwh, Direction::Import)?)
        .ok()?;
    let evse = evse_of(asked.evse)?;
    let event = Event::new(asked.kind, moment(asked.minute)?, evse, readings).ok()?;
    Some(Command::Deliver(key_of(asked.seq)?, event))
}

// The answer to a delivery, if it could be made.
fn deliver<J: Naming, R: Wait + Clock>(
    rt: &R,
    alloc: Global,
    desk: &Desk<J>,
    pass: &mut Pass,
    told: Asked,
) -> Option<Answer> {
    let command = delivery_of(alloc, told)?;
    Some(desk.submit(rt, pass, command, &NoGate).0)
}

// A pass of the station of this name.
fn pass_of<J: Naming, R: Wait + Threads>(rt: &R, desk: &Desk<J>, text: &str) -> Option<Pass> {
    desk.enlist(rt, &Name::new(text)?).ok()
}

// Two passes as a list.
fn both_of(alloc: Global, one: Option<Pass>, other: Option<Pass>) -> Option<Vec<Pass>> {
    let mut passes = Vec::new(alloc);
    passes.push(one?).ok()?;
    passes.push(other?).ok()?;
    Some(passes)
}

fn figures(seven: [u64; 7]) -> Figures {
    let [events, voided, transactions, complete, missing, up, down] = seven;
    Figures {
        events,
        voided,
        transactions,
        complete,
        missing,
        up,
        down,
        ..Figures::zero()
    }
}

// Returns whether the closed desk has this many stations and sites.
fn has<J: Naming>(closed: &Closed<J>, stations: usize, sites: usize) -> bool {
    closed.stations() == stations && closed.sites() == sites
}

// Returns whether the closed desk has the station with this many changes, and its row shows its
// figures.
fn is_tied<J: Naming>(closed: &Closed<J>, station: u16, changes: u64) -> bool {
    (station as usize) < closed.stations()
        && closed.changes(station) == changes
        && closed.row(station) == closed.ledger(station).figures()
}

// Returns whether these are the figures of the station's ledger.
fn has_figures<J: Naming>(closed: &Closed<J>, station: u16, figures: Figures) -> bool {
    (station as usize) < closed.stations() && closed.ledger(station).figures() == figures
}

// Returns whether these are the totals of the site.
fn has_totals<J: Naming>(closed: &Closed<J>, site: u16, totals: Figures) -> bool {
    (site as usize) < closed.sites() && closed.totals(site) == totals
}
