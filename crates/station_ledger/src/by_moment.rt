//! The live readings of a station by moment, and how one event changes their pairs.
ghost use Rattle.std.specs.Prelude.{◌≡◌, ◌≢◌, ◌≤◌, ◌<◌, ◌+◌, ◌*◌, ◌^◌, ℕ, List, [], None, IfOk, drop, length, take, vec_capacity, vec_len};
ghost use Rattle.event_chain.{specs.Chains.stored, specs.Table.{row_of, without_row, AreSlotted}};
ghost use Rattle.ledger_model.{specs.Board.Flowed, specs.Content.{Entry, live_of}, specs.Deltas.{across, pairs_between}, specs.InTime.put_in_time, specs.Ranges.{most_event_readings, most_readings}, specs.declared.order.Order.TheVariants.Moment};
ghost use Rattle.reading_index.specs.Timed.{from_on, in_front, AreRising};
ghost use Rattle.station_ledger.{specs.ByMoment.{bare, bare_one, beyond, fits, fitting, listed_of, put_each, take_each, IsSlotGiven, AreByMoment, ArePuttable}, specs.declared.pairs.Way.TheVariants.{Coming, Going}, specs.Exchange.IsMove, specs.Moved.IsExchanged, specs.Quarters.{HoldsPairs, IsWork, DidMove, MayMove, readings_at}, specs.Runs.{by_way, came_of, gap_of, gone_of, run_pairs, AreMoved, AreSwapped, AreToMove, CanMove, HasRoomWithout, TheyMove}, specs.Spent.most_in_runs, specs.Sums.AreQuarterRows};

use crate::pairs::{Energies, Way, move_across};
use energy_flow::{Flow, Work};
use event_chain::{Chains, Sides, TransactionTable};
use ledger_model::{
    ByDirection, Direction, Key, Limits, MAX_EVENT_READINGS, Periods, Reading, TxId,
};
use quarter_table::QuarterTable;
use reading_index::{MomentKey, ReadingIndex};
use std::alloc::{AllocError, Global};

// A reading with its key.
pub(crate) type KeyedReading = (MomentKey, Reading);

// The reading of an entry.
fn reading_of(entry: &Option<KeyedReading>) -> Option<Reading>
    ensures { result ≡ bare_one entry.now }
{
    match entry {
        Some((_, reading)) => Some(*reading),
        None => None,
    }
}

// Returns whether a key comes in front of an entry, or there is no entry.
fn is_in_front(reading: &KeyedReading, behind: &Option<KeyedReading>) -> bool
    ensures { result ≡ fits behind.now reading.now }
{
    match behind {
        Some((key, _)) => reading.0.is_in_front(*key),
        None => true,
    }
}

// How many of the first readings come in front of an entry.
fn count_in_front(readings: &[KeyedReading], behind: &Option<KeyedReading>) -> usize
    ensures within { result ≤ length readings.now }
    ensures run { take result readings.now ≡ fitting behind.now readings.now }
    ensures rest { drop result readings.now ≡ beyond behind.now readings.now }
{
    for place in 0..readings.len() {
        if !is_in_front(&readings[place], behind) {
            return place;
        }
    }
    readings.len()
}

// Adds the pairs that readings in a row make with one another and with those on either side, or takes them out, and
// returns their sums.
fn move_row(
    quarters: &mut QuarterTable,
    period: Periods,
    direction: Direction,
    way: Way,
    gap: &Sides,
    readings: &[KeyedReading],
    work: &mut Work,
) -> Flow
    requires may { MayMove way period direction (run_pairs gap.now readings.now) quarters.old }
    requires few { length (run_pairs gap.now readings.now) ≤ most_readings }
    ensures { DidMove way period direction (run_pairs gap.now readings.now) quarters.old quarters.new work.old work.new result }
{
    let mut total = Flow::zero();
    let mut last = gap.before;
    let mut left = readings;
    while let [first, more @ ..] = left {
        let (_, reading) = *first;
        let flow = move_across(quarters, period, direction, way, last, Some(reading), work);
        total = total.plus(flow);
        last = Some(reading);
        left = more;
    }
    let flow = move_across(quarters, period, direction, way, last, gap.behind, work);
    total.plus(flow)
}

// Puts readings in one after the other.
pub(crate) fn put_all(index: &mut ReadingIndex, readings: &[KeyedReading])
    requires room { length index.old.entries + length readings.now ≤ index.old.capacity }
    requires apart { ArePuttable readings.now index.old.entries }
    ensures entries { index.new.entries ≡ put_each readings.now index.old.entries }
    ensures capacity { index.new.capacity ≡ index.old.capacity }
{
    let mut left = readings;
    while let [first, more @ ..] = left {
        let (key, reading) = *first;
        index.put(key, reading);
        left = more;
    }
}

// Takes readings out one after the other.
pub(crate) fn take_all(index: &mut ReadingIndex, readings: &[KeyedReading])
    ensures entries { index.new.entries ≡ take_each readings.now index.old.entries }
    ensures capacity { index.new.capacity ≡ index.old.capacity }
{
    let mut left = readings;
    while let [first, more @ ..] = left {
        let (key, _) = *first;
        index.take(key);
        left = more;
    }
}

// How many readings of a list by rising rank come in front of a key, searched from the end, since the
// readings of an event nearly always rise.
fn place_of(listed: &[KeyedReading], key: MomentKey) -> usize
    requires ranked { AreRising listed.now }
    ensures within { result ≤ length listed.now }
    ensures front { take result listed.now ≡ in_front key listed.now }
    ensures rest { drop result listed.now ≡ from_on key listed.now }
{
    let mut at = listed.len();
    while at > 0 {
        if listed[at - 1].0.is_in_front(key) {
            return at;
        }
        at -= 1;
    }
    at
}

// Puts a reading into a list by rising rank.
fn enter(listed: &mut Vec<KeyedReading>, entry: KeyedReading)
    requires room { vec_len listed.old < vec_capacity listed.old }
    requires ranked { AreRising listed.old.items }
    ensures items { listed.new.items ≡ put_in_time (λ t. t.0) entry listed.old.items }
    ensures capacity { vec_capacity listed.old ≤ vec_capacity listed.new }
{
    let at = place_of(listed, entry.0);
    // There is room, so this asks for no memory.
    match listed.insert(at, entry) {
        Ok(()) => (),
        Err(_) => unreachable!(),
    }
}

// Lists the readings of a direction of the event of a key, by rising rank.
pub(crate) fn list(
    listed: &mut Vec<KeyedReading>,
    chains: &Chains,
    key: &Key,
    slot: u32,
    direction: Direction,
)
    requires slot { slot < 2 ^ 24 }
    requires few { length (readings_at direction chains.now key.now) ≤ most_event_readings }
    requires room { most_event_readings ≤ vec_capacity listed.old }
    ensures items { listed.new.items ≡ listed_of slot direction chains.now key.now }
    ensures room { most_event_readings ≤ vec_capacity listed.new }
{
    listed.clear();
    let number = key.seq();
    let mut place = 0;
    let mut left = chains.readings(key, direction);
    while let Some(reading) = left.next() {
        let at = MomentKey::new(slot, direction, reading.moment(), number, place);
        enter(listed, (at, reading));
        place += 1;
    }
}

// The energies of a direction's pairs that went, and of those that came.
#[derive(Clone, Copy)]
pub(crate) struct Moved {
    pub(crate) less: Flow,
    pub(crate) more: Flow,
}

// The readings of two entries.
fn gap_of(before: &Option<KeyedReading>, behind: &Option<KeyedReading>) -> Sides
    ensures { result ≡ gap_of before.now behind.now }
{
    Sides {
        before: reading_of(before),
        behind: reading_of(behind),
    }
}

// Takes out the pairs that a run of readings makes in a gap, and adds those that another run makes there.
fn replace_run(
    quarters: &mut QuarterTable,
    period: Periods,
    direction: Direction,
    gap: &Sides,
    gone: &[KeyedReading],
    came: &[KeyedReading],
    work: &mut Work,
) -> Moved
    requires holds { HoldsPairs period direction (run_pairs gap.now gone.now) quarters.old }
    requires few { length (run_pairs gap.now gone.now) ≤ most_readings }
    requires room { HasRoomWithout period direction (run_pairs gap.now gone.now) (length (run_pairs gap.now came.now)) quarters.old }
    ensures { AreSwapped period direction (run_pairs gap.now gone.now) (run_pairs gap.now came.now) quarters.old quarters.new work.old work.new result }
{
    let less = move_row(quarters, period, direction, Way::Going, gap, gone, work);
    let more = move_row(quarters, period, direction, Way::Coming, gap, came, work);
    Moved { less, more }
}

// Of an event's readings, or a run of them, those that go, and those that come.
fn parts(way: Way, readings: &[KeyedReading]) -> (&[KeyedReading], &[KeyedReading])
    ensures gone { result.0.now ≡ gone_of way readings.now }
    ensures came { result.1.now ≡ came_of way readings.now }
{
    match way {
        Way::Coming => (&[], readings),
        Way::Going => (readings, &[]),
    }
}

// Replaces the pairs at the places of an event's readings: those that the readings make there come or go,
// and those across the places go or come. The readings are not in the index.
fn replace_runs(
    index: &ReadingIndex,
    quarters: &mut QuarterTable,
    period: Periods,
    direction: Direction,
    readings: &[KeyedReading],
    way: Way,
    work: &mut Work,
) -> Moved
    requires { (o : ℕ) × (seq : ℕ) × (rest : List Flowed) × AreToMove way o seq period direction readings.now index.now quarters.old rest }
    ensures moved { TheyMove way period direction readings.now index.now quarters.old quarters.new work.old work.new result }
    ensures capacity { quarters.new.capacity ≡ quarters.old.capacity }
{
    let mut less = Flow::zero();
    let mut more = Flow::zero();
    let mut left = readings;
    while let [first, ..] = left {
        let (key, _) = *first;
        let (before, behind) = index.around(key);
        let count = count_in_front(left, &behind);
        let (run, beyond) = left.split_at(count);
        let (gone, came) = parts(way, run);
        let gap = gap_of(&before, &behind);
        let moved = replace_run(quarters, period, direction, &gap, gone, came, work);
        less = less.plus(moved.less);
        more = more.plus(moved.more);
        left = beyond;
    }
    Moved { less, more }
}

// The slot of a transaction; if it has none, it gets one.
fn slot_of(slots: &mut TransactionTable, tx: &TxId) -> u32
    requires { row_of tx.now slots.old.rows ≡ None → length slots.old.rows < slots.old.capacity }
    ensures given { IsSlotGiven tx.now slots.old slots.new result }
    ensures slotted { AreSlotted slots.new }
{
    match slots.get(tx) {
        Some(row) => row.slot,
        None => slots.add(tx).slot,
    }
}

// The energies that went and came in each direction.
fn exchange_of(import: Moved, export: Moved) -> Exchange
    ensures less { result.less ≡ record { import = import.less; export = export.less } }
    ensures more { result.more ≡ record { import = import.more; export = export.more } }
{
    Exchange {
        less: ByDirection {
            import: import.less,
            export: export.less,
        },
        more: ByDirection {
            import: import.more,
            export: export.more,
        },
    }
}

// The live readings by moment: a slot for each transaction that has a live event, and an index of the
// readings by slot, direction, moment, number and place. An event's readings are listed before they are
// moved.
#[derive(Drop)]
pub(crate) struct ByMoment {
    pub(crate) slots: TransactionTable,
    pub(crate) index: ReadingIndex,
    pub(crate) listed: Vec<(MomentKey, Reading)>,
}

// The energies that went and those that came, in each direction.
#[derive(Clone, Copy)]
pub(crate) struct Exchange {
    pub(crate) less: Energies,
    pub(crate) more: Energies,
}

impl ByMoment {
    // No readings, with room for as many as these limits allow.
    pub(crate) fn open(alloc: Global, limits: &Limits) -> Result<Self, AllocError>
        ensures { IfOk result (AreByMoment limits.now []) }
    {
        Ok(ByMoment {
            slots: TransactionTable::open(alloc, limits.transactions())?,
            index: ReadingIndex::open(alloc, limits.readings())?,
            listed: Vec::with_capacity(alloc, MAX_EVENT_READINGS)?,
        })
    }
}

// Puts the listed readings of a direction into the index, or takes them out of it, and replaces the pairs.
fn move_listed(
    by_moment: &mut ByMoment,
    quarters: &mut QuarterTable,
    period: Periods,
    direction: Direction,
    way: Way,
    work: &mut Work,
) -> Moved
    requires { CanMove way period direction by_moment.old.listed.items by_moment.old.index quarters.old }
    ensures moved { AreMoved way period direction by_moment.old.listed.items by_moment.old.index by_moment.new.index quarters.old quarters.new work.old work.new result }
    ensures slots { by_moment.new.slots ≡ by_moment.old.slots }
    ensures room { vec_capacity by_moment.new.listed ≡ vec_capacity by_moment.old.listed }
{
    let listed = &by_moment.listed;
    let index = &mut by_moment.index;
    match way {
        Way::Coming => {
            let moved = replace_runs(
                index,
                quarters,
                period,
                direction,
                listed,
                Way::Coming,
                work,
            );
            put_all(index, listed);
            moved
        }
        Way::Going => {
            take_all(index, listed);
            replace_runs(index, quarters, period, direction, listed, Way::Going, work)
        }
    }
}

// Takes the slot back from a transaction whose last live event went.
fn free_slot(slots: &mut TransactionTable, chains: &Chains, tx: &TxId, way: Way)
    requires there { row_of tx.now slots.old.rows ≢ None }
    requires lives { way ≡ Coming → length (live_of tx.now (stored chains.now)) ≡ 0 → ⊥ }
    ensures kept { (length (live_of tx.now (stored chains.now)) ≡ 0 → ⊥) → slots.new ≡ slots.old }
    ensures rows { length (live_of tx.now (stored chains.now)) ≡ 0 → slots.new.rows ≡ without_row tx.now slots.old.rows }
    ensures capacity { slots.new.capacity ≡ slots.old.capacity }
{
    match way {
        Way::Coming => (),
        Way::Going => {
            if chains.live_count(tx) == 0 {
                slots.remove(tx);
            }
        }
    }
}

// Moves the readings, and their pairs, of a live event that came to the chains, or went from them.
pub(crate) fn move_event(
    chains: &Chains,
    by_moment: &mut ByMoment,
    quarters: &mut QuarterTable,
    period: Periods,
    key: &Key,
    way: Way,
    work: &mut Work,
) -> Exchange
    requires { (less : List Entry) × (more : List Entry) × IsMove way less more chains.now key.now by_moment.old period quarters.old }
    ensures exchanged { (less more : List Entry) → IsMove way less more chains.now key.now by_moment.old period quarters.old
        → IsExchanged Moment key.now.tx (by_way way less more) (stored chains.now) result.less result.more }
    ensures rows { AreQuarterRows Moment chains.now.limits (stored chains.now) period quarters.new }
    ensures timed { AreByMoment chains.now.limits (stored chains.now) by_moment.new }
    ensures work { (less more : List Entry) → IsMove way less more chains.now key.now by_moment.old period quarters.old → IsWork (most_in_runs key.now more) work.old work.new }
{
    let tx = key.tx();
    let slot = slot_of(&mut by_moment.slots, tx);
    list(&mut by_moment.listed, chains, key, slot, Direction::Import);
    let import = move_listed(by_moment, quarters, period, Direction::Import, way, work);
    list(&mut by_moment.listed, chains, key, slot, Direction::Export);
    let export = move_listed(by_moment, quarters, period, Direction::Export, way, work);
    free_slot(&mut by_moment.slots, chains, tx, way);
    exchange_of(import, export)
}
