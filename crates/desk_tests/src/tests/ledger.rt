//! Tests of a ledger that stored rows can't make: how many differences a change evaluates, and boards without memory.
mod report;

use energy_flow::Work;
use ledger_model::{
    Command, Direction, Event, Key, Kind, Limits, Moment, Order, Period, Reading, Settle, TxId,
};
use station_ledger::StationLedger;
use std::alloc::Global;

// A command in short. An event has its transaction, its sequence number, its minute after ten o'clock
// and its reading in watt-hours; number 0 is Started, all others are Updated. The other commands name
// an event of transaction T1.
#[derive(Clone, Copy)]
enum Asked {
    Deliver(&'static str, u32, u64, Option<u64>),
    Void(u32),
    Erase(u32),
}

fn key(tx: &str, seq: u32) -> Option<Key> {
    Key::new(TxId::new(tx)?, seq)
}

fn moment(minute: u64) -> Option<Moment> {
    Moment::new((1_772_359_200 + 60 * minute.min(59)) * 1_000_000_000)
}

fn event(alloc: Global, seq: u32, minute: u64, reading: Option<u64>) -> Option<Event> {
    let kind = if seq == 0 {
        Kind::Started
    } else {
        Kind::Updated
    };
    let mut readings = Vec::new(alloc);
    if let Some(watt_hours) = reading {
        let mwh = 1_000 * watt_hours.min(10_000_000_000);
        readings
            .push(Reading::new(moment(minute)?, mwh, Direction::Import)?)
            .ok()?;
    }
    Event::new(kind, moment(minute)?, None, readings).ok()
}

fn command(alloc: Global, asked: Asked) -> Option<Command> {
    Some(match asked {
        Asked::Deliver(tx, seq, minute, reading) => {
            Command::Deliver(key(tx, seq)?, event(alloc, seq, minute, reading)?)
        }
        Asked::Void(seq) => Command::Void(key("T1", seq)?),
        Asked::Erase(seq) => Command::Erase(key("T1", seq)?),
    })
}

fn opened(alloc: Global) -> Option<StationLedger> {
    let limits = Limits::new(4, 8, 8, 9)?;
    StationLedger::open(
        alloc,
        limits,
        Period::default(),
        Order::Sequence,
        Settle::default(),
    )
    .ok()
}

const MIDDLE: Asked = Asked::Deliver("T1", 1, 14, Some(1_200));

// The pair across the late event's place goes, and two come; with a void it is the other way round.
const DIFFERENCES: &[(Asked, u64)] = &[
    (Asked::Deliver("T1", 0, 0, Some(1_000)), 0),
    (Asked::Deliver("T1", 2, 31, Some(1_600)), 1),
    (MIDDLE, 3),
    (MIDDLE, 0),
    (Asked::Deliver("T2", 7, 40, None), 0),
    (Asked::Void(1), 3),
    (Asked::Void(1), 0),
    (Asked::Erase(1), 0),
];

// How many differences the command evaluates.
fn spent(ledger: &mut StationLedger, alloc: Global, asked: Asked, work: &mut Work) -> Option<u64> {
    let before = work.count();
    ledger.apply(command(alloc, asked)?, work);
    work.count().checked_sub(before)
}

// Returns whether each command evaluates as many differences as it should.
fn takes(
    ledger: &mut StationLedger,
    alloc: Global,
    steps: &[(Asked, u64)],
    work: &mut Work,
) -> bool {
    for (asked, differences) in steps {
        if spent(ledger, alloc, *asked, work) != Some(*differences) {
            return false;
        }
    }
    true
}

// What the board of the ledger shows; if it found no memory, it is asked for once more.
fn shown(ledger: &StationLedger, alloc: Global, work: &mut Work) -> Option<u64> {
    let board = match ledger.board(alloc, work) {
        Ok(board) => board,
        Err(_) => ledger.board(alloc, work).ok()?,
    };
    Some(board.figures().up)
}

// Returns whether each command of a new ledger evaluates as many differences as it should, and what
// its board shows then.
fn after_all(alloc: Global, work: &mut Work) -> Option<(bool, u64)> {
    let mut ledger = opened(alloc)?;
    let are_taken = takes(&mut ledger, alloc, DIFFERENCES, work);
    Some((are_taken, shown(&ledger, alloc, work)?))
}

// Also run with each allocation refused in turn: a board that finds no memory leaves the ledger as it was.
#[test]
fn differences_of_a_late_event(rt: HostRuntime) {
    let mut work = Work::open(&rt);
    assert!(rt; after_all(rt.alloc(), &mut work) == Some((true, 600_000)));
}
