mod plain_list;

use event_chain::{Chains, Found, Room, TxWalk};
use gap_list::{Gaps, NumberWalk};
use ledger_model::{Direction, Event, EvseId, Key, Kind, Limits, Moment, Reading, TxId};
use plain_list::{Answers, PlainList};
use std::alloc::Global;
use std::test::Fail;

// The first moment of 2026.
fn new_year() -> Option<Moment> {
    Moment::new(1_767_225_600_000_000_000)
}

// A Started event at EVSE 3, with one reading.
fn event(alloc: Global) -> Option<Event> {
    let moment = new_year()?;
    let mut readings = Vec::new(alloc);
    readings
        .push(Reading::new(moment, 5, Direction::Export)?)
        .ok()?;
    Event::new(Kind::Started, moment, EvseId::new(3), readings).ok()
}

// Chains with room for so many transactions, events and readings.
fn chains(alloc: Global, transactions: u64, events: u64, readings: u64) -> Option<Chains> {
    let limits = Limits::new(transactions, events, readings, 9)?;
    Chains::open(alloc, &limits).ok()
}

// What to do with chains that were just opened.
#[derive(Clone, Copy)]
enum Scene {
    SmallArena,
    FirstLimit,
    OutOfOrder,
    Emptied,
    Each,
}

impl Scene {
    // For how many transactions, and events with a reading each, the chains have room.
    fn room(self) -> (u64, u64) {
        match self {
            Scene::SmallArena | Scene::FirstLimit => (1, 2),
            Scene::OutOfOrder => (4, 16),
            Scene::Emptied => (1, 1),
            Scene::Each => (2, 4),
        }
    }

    // Returns whether each answer was the right one.
    fn play(self, chains: &mut Chains, sent: &Event) -> bool {
        match self {
            Scene::SmallArena => puts_the_later_number_first(chains, sent),
            Scene::FirstLimit => refuses_in_order(chains, sent),
            Scene::OutOfOrder => voids_and_restores(chains, sent),
            Scene::Emptied => gives_the_place_back(chains, sent),
            Scene::Each => answers_for_each(chains, sent),
        }
    }
}

// Opens chains and plays a scene with them; returns whether all was right.
fn plays(alloc: Global, scene: Scene) -> bool {
    let (transactions, events) = scene.room();
    match (chains(alloc, transactions, events, events), event(alloc)) {
        (Some(mut chains), Some(sent)) => scene.play(&mut chains, &sent),
        _ => false,
    }
}

// The key of a transaction and a number below 2^31.
fn key(tx: &str, seq: u32) -> Option<Key> {
    Key::new(TxId::new(tx)?, seq)
}

// Puts an event in if there is room and its key is new; returns whether it did.
fn put_key(chains: &mut Chains, key: Key, event: &Event) -> bool {
    let fits = chains.room_for(key.tx(), event.readings().len()) == Room::Fits;
    if fits && chains.find(&key) == None {
        chains.insert(key, event);
        return true;
    }
    false
}

// Puts an event in under a transaction and a number, and returns whether it did.
fn put(chains: &mut Chains, tx: &str, seq: u32, event: &Event) -> bool {
    match key(tx, seq) {
        Some(key) => put_key(chains, key, event),
        None => false,
    }
}

// How a number of a transaction is stored.
fn found(chains: &Chains, tx: &str, seq: u32) -> Option<Found> {
    chains.find(&key(tx, seq)?)
}

// Voids a live event.
fn void_key(chains: &mut Chains, key: &Key) -> bool {
    let is_live = chains.find(key) == Some(Found::Live);
    if is_live {
        chains.unlink(key);
    }
    is_live
}

// Voids a number of a transaction if it is live; returns whether it did.
fn void(chains: &mut Chains, tx: &str, seq: u32) -> bool {
    match key(tx, seq) {
        Some(key) => void_key(chains, &key),
        None => false,
    }
}

// Makes a voided event live again.
fn restore_key(chains: &mut Chains, key: &Key) -> bool {
    let is_voided = chains.find(key) == Some(Found::Voided);
    if is_voided {
        chains.relink(key);
    }
    is_voided
}

// Makes a number of a transaction live again if it is voided; returns whether it did.
fn restore(chains: &mut Chains, tx: &str, seq: u32) -> bool {
    match key(tx, seq) {
        Some(key) => restore_key(chains, &key),
        None => false,
    }
}

// Takes a voided event out.
fn erase_key(chains: &mut Chains, key: &Key) -> bool {
    let is_voided = chains.find(key) == Some(Found::Voided);
    if is_voided {
        chains.remove(key);
    }
    is_voided
}

// Takes out a number of a transaction if it is voided; returns whether it did.
fn erase(chains: &mut Chains, tx: &str, seq: u32) -> bool {
    match key(tx, seq) {
        Some(key) => erase_key(chains, &key),
        None => false,
    }
}

// Returns whether a transaction runs from a lowest to a highest live number, with so many live
// events.
fn is_run(chains: &Chains, tx: &str, first: u32, last: u32, count: u32) -> bool {
    match TxId::new(tx) {
        Some(id) => {
            chains.first(&id) == Some(first)
                && chains.last(&id) == Some(last)
                && chains.live_count(&id) == count
        }
        None => false,
    }
}

// Returns whether so many events and readings are stored.
fn stores(chains: &Chains, events: u32, readings: u32) -> bool {
    chains.stored_events() == events && chains.stored_readings() == readings
}

// The room for an event of a transaction with so many readings.
fn room(chains: &Chains, tx: &str, readings: usize) -> Option<Room> {
    Some(chains.room_for(&TxId::new(tx)?, readings))
}

// Puts an event in under each of these numbers, and returns whether it did.
fn fill(chains: &mut Chains, tx: &str, numbers: &[u32], event: &Event) -> bool {
    let mut all = true;
    for seq in numbers {
        all = put(chains, tx, *seq, event) && all;
    }
    all
}

// Returns whether a walk goes over these numbers of a transaction, with this one gap or none
// between.
fn is_walk(chains: &Chains, tx: &str, numbers: &[u32], gap: Option<(u32, u32)>) -> bool {
    match TxId::new(tx) {
        Some(id) => {
            let walk = chains.walk(&id);
            let mut gaps = Gaps::over(&walk);
            walks_over(&walk, numbers) && gaps.next() == gap && (gap == None || gaps.next() == None)
        }
        None => false,
    }
}

// Returns whether a walk goes over these numbers, one after the other.
fn walks_over(walk: &TxWalk, numbers: &[u32]) -> bool {
    let mut place = walk.start();
    for number in numbers {
        match place {
            Some(here) if walk.number(here) == *number => place = walk.next(here),
            _ => return false,
        }
    }
    place.is_none()
}

fn puts_the_later_number_first(chains: &mut Chains, sent: &Event) -> bool {
    fill(chains, "a", &[2, 0], sent)
        && is_run(chains, "a", 0, 2, 2)
        && stores(chains, 2, 2)
        && is_walk(chains, "a", &[0, 2], Some((1, 1)))
}

#[test]
fn small_arena_in_chains(rt: HostRuntime) {
    assert!(rt; plays(rt.alloc(), Scene::SmallArena));
}

fn refuses_in_order(chains: &mut Chains, sent: &Event) -> bool {
    put(chains, "a", 2, sent)
        && room(chains, "a", 1) == Some(Room::Fits)
        && room(chains, "a", 2) == Some(Room::NoReading)
        && put(chains, "a", 0, sent)
        && room(chains, "a", 1) == Some(Room::NoEvent)
        && room(chains, "b", 1) == Some(Room::NoTransaction)
}

#[test]
fn the_first_limit_that_is_passed_refuses(rt: HostRuntime) {
    assert!(rt; plays(rt.alloc(), Scene::FirstLimit));
}

fn voids_and_restores(chains: &mut Chains, sent: &Event) -> bool {
    fill(chains, "t", &[3, 0, 7, 1, 6, 2, 5, 4], sent)
        && void(chains, "t", 4)
        && found(chains, "t", 4) == Some(Found::Voided)
        && is_run(chains, "t", 0, 7, 7)
        && stores(chains, 8, 8)
        && is_walk(chains, "t", &[0, 1, 2, 3, 5, 6, 7], Some((4, 4)))
        && restore(chains, "t", 4)
        && is_run(chains, "t", 0, 7, 8)
        && is_walk(chains, "t", &[0, 1, 2, 3, 4, 5, 6, 7], None)
}

#[test]
fn events_out_of_order(rt: HostRuntime) {
    assert!(rt; plays(rt.alloc(), Scene::OutOfOrder));
}

fn gives_the_place_back(chains: &mut Chains, sent: &Event) -> bool {
    put(chains, "a", 7, sent)
        && void(chains, "a", 7)
        && !put(chains, "b", 0, sent)
        && erase(chains, "a", 7)
        && put(chains, "b", 0, sent)
        && found(chains, "a", 7) == None
        && stores(chains, 1, 1)
}

#[test]
fn an_emptied_transaction_gives_its_place_back(rt: HostRuntime) {
    assert!(rt; plays(rt.alloc(), Scene::Emptied));
}

// Returns whether the first two transactions are `a` and `b`.
fn lists_a_then_b(chains: &Chains) -> bool {
    let mut ids = chains.transactions();
    ids.next() == TxId::new("a") && ids.next() == TxId::new("b")
}

// The EVSE and the number of ends of a transaction.
fn evse_and_ends(chains: &Chains, tx: &str) -> Option<(u8, u32)> {
    let id = TxId::new(tx)?;
    Some((chains.evse(&id).number(), chains.end_count(&id)))
}

// The first export of a number of a transaction.
fn reading(chains: &Chains, tx: &str, seq: u32) -> Option<Reading> {
    chains.readings(&key(tx, seq)?, Direction::Export).next()
}

fn answers_for_each(chains: &mut Chains, sent: &Event) -> bool {
    put(chains, "b", 1, sent)
        && put(chains, "a", 0, sent)
        && lists_a_then_b(chains)
        && reading(chains, "b", 1) == Reading::new(sent.moment(), 5, Direction::Export)
        && evse_and_ends(chains, "b") == Some((3, 1))
        && void(chains, "b", 1)
        && evse_and_ends(chains, "b") == Some((0, 0))
}

#[test]
fn each_transaction_is_answered_for(rt: HostRuntime) {
    assert!(rt; plays(rt.alloc(), Scene::Each));
}

// A generator of numbers below 2^31 that look random: a linear congruence modulo 2^64.
#[derive(Drop)]
struct Random {
    state: u64,
}

impl Random {
    fn next(&mut self) -> u32 {
        self.state = self
            .state
            .wrapping_mul(6_364_136_223_846_793_005)
            .wrapping_add(1_442_695_040_888_963_407);
        (self.state >> 33) as u32
    }
}

// Up to two readings, chosen by a number.
fn readings_of(alloc: Global, moment: Moment, number: u32) -> Option<Vec<Reading>> {
    let mut readings = Vec::new(alloc);
    for step in 0..number % 3 {
        let level = u64::from(number) * 4 + u64::from(step);
        let direction = match (number / 7 + step) % 3 {
            0 => Direction::Export,
            _ => Direction::Import,
        };
        readings.push(Reading::new(moment, level, direction)?).ok()?;
    }
    Some(readings)
}

// The kind that a number chooses.
fn kind_of(number: u32) -> Kind {
    match number % 4 {
        0 => Kind::Started,
        1 => Kind::Ended,
        _ => Kind::Updated,
    }
}

// The EVSE that a number chooses; only one in five does.
fn evse_of(number: u32) -> Option<EvseId> {
    match number % 5 {
        0 => EvseId::new((1 + number / 5 % 64) as u8),
        _ => None,
    }
}

// An event with up to two readings, all chosen by a number.
fn event_of(alloc: Global, number: u32) -> Option<Event> {
    let moment = new_year()?;
    let readings = readings_of(alloc, moment, number)?;
    Event::new(kind_of(number / 3), moment, evse_of(number / 12), readings).ok()
}

// The number and the name of one of six transactions.
fn transaction_of(number: u32) -> (u32, &'static str) {
    match number % 6 {
        0 => (1, "a"),
        1 => (2, "b"),
        2 => (3, "c"),
        3 => (4, "d"),
        4 => (5, "e"),
        _ => (6, "f"),
    }
}

// Chains, and a plain list that has to hold the same.
#[derive(Drop)]
struct Pair {
    chains: Chains,
    plain: PlainList,
}

impl Pair {
    // Changes both in one way that the event's key may take.
    fn change(&mut self, key: Key, tx: u32, event: &Event, chance: u32) -> Option<bool> {
        let seq = key.seq();
        match self.chains.find(&key) {
            None => {
                if put_key(&mut self.chains, key, event) {
                    self.plain.put(tx, seq, event).ok()?;
                }
                Some(true)
            }
            Some(Found::Live) => {
                self.plain.mark(tx, seq, chance % 2 == 0);
                Some(chance % 2 == 1 || void_key(&mut self.chains, &key))
            }
            Some(Found::Voided) if chance % 2 == 0 => {
                self.plain.mark(tx, seq, false);
                Some(restore_key(&mut self.chains, &key))
            }
            Some(Found::Voided) => {
                self.plain.take(tx, seq);
                Some(erase_key(&mut self.chains, &key))
            }
        }
    }

    // Returns whether both give the same answers for a key.
    fn answers_agree(&self, key: &Key, tx: u32, readings: usize) -> bool {
        Answers::of(&self.chains, key, readings) == self.plain.answers(tx, key.seq(), readings)
    }

    // Returns whether a walk goes over the live numbers that the plain list has.
    fn walk_agrees(&self, alloc: Global, key: &Key, tx: u32) -> Option<bool> {
        let numbers = self.plain.numbers(alloc, tx).ok()?;
        Some(walks_over(&self.chains.walk(key.tx()), &numbers))
    }

    // One call at a random number of a random transaction, and whether all answers agree before it.
    fn call(&mut self, alloc: Global, random: &mut Random) -> Option<bool> {
        let (tx, name) = transaction_of(random.next());
        // The last two transactions have few events, so they come and go.
        let seq = random.next() % if tx < 5 { 150 } else { 2 };
        let key = key(name, seq)?;
        let event = event_of(alloc, random.next())?;
        let agree = self.answers_agree(&key, tx, event.readings().len());
        let walked = random.next() % 50 > 0 || self.walk_agrees(alloc, &key, tx)?;
        Some(agree && walked && self.change(key, tx, &event, random.next())?)
    }

    // Makes so many random calls; returns the first with different answers.
    fn first_difference(&mut self, alloc: Global, calls: u32) -> Option<u32> {
        let mut random = Random { state: 17 };
        for call in 0..calls {
            if self.call(alloc, &mut random) != Some(true) {
                return Some(call);
            }
        }
        None
    }
}

#[test]
fn random_calls_against_a_plain_list(rt: HostRuntime) -> Result<(), Fail> {
    let chains = chains(rt.alloc(), 5, 400, 350).ok_or("no chains")?;
    let plain = PlainList::open(rt.alloc(), 5, 400, 350);
    let mut pair = Pair { chains, plain };
    assert_eq!(rt; pair.first_difference(rt.alloc(), 100_000), None);
    Ok(())
}
