ghost use Rattle.std.{specs.Prelude.{◌≡◌, ◌+◌, ◌-◌, ◌≤◌, ◌&&◌, true, false, not, is_some, nat_le, length, slice_get, option_map, Some, None, IfOk}, specs.List.count_by};
ghost use Rattle.std.specs.FinMap as finite;
ghost use Rattle.ledger_model.{specs.Content.{live_of, transactions_of}, specs.Step.{marked, readings_stored}, specs.Evse.evse_of, specs.Complete.kinds_of, specs.Deltas.{own_readings, before_key, behind_key, first_reading, last_reading}, specs.Gaps.numbers_of, specs.Ranges.{most_events, most_readings, most_transactions}, specs.declared.reading.Direction.Direction, specs.Event.toward, specs.ByDirection.in_direction};
ghost use Rattle.event_chain.{specs.declared.answers.Room.TheVariants.Fits, specs.declared.answers.Found.TheVariants.{Live, Voided}, specs.Table.row_of, specs.Chains.stored, specs.EventLines.events_of, specs.Room.{room_of, found_of, readings_under}, specs.Kept.{end_count, is_end, IsTxStanding}, specs.Edits.counts_under, specs.Sides.AreSides};

use crate::answers::{Found, Room, TxStanding};
use crate::around::{Around, NONE_AROUND, Sides, around_of, sides_of};
use crate::carries::{Carries, carried_by};
use crate::event_lines::{EventLine, lines_under};
use crate::look_ups::{
    enter, evse_at, first_live, first_naming, kind_at, last_live, leave, locate, look_up,
    number_of, renew, slot_sought,
};
use crate::place_index::PlaceIndex;
use crate::row::TableRow;
use crate::table::TransactionTable;
use crate::tx_ids::TxIds;
use crate::tx_walk::TxWalk;
use event_store::{EventRef, EventStore, Readings};
use key_index::{IndexKey, KeyPlace};
use ledger_model::{ByDirection, Direction, Event, EvseId, Key, Kind, Limits, Reading, TxId};
use std::alloc::{AllocError, Global};
use std::marker::Model;

/// The events of a station by their keys, each live or voided, within its limits.
#[derive(Drop)]
pub struct Chains {
    limits: Limits,
    table: TransactionTable,
    store: EventStore,
    places: PlaceIndex,
}

impl Model for Chains {
    ghost use Rattle.event_chain.specs.Chains.{Chained, chained_code};

    ghost Value = { Chained };

    ghost coded = { chained_code };

    ghost use Rattle.event_chain.{specs.Kept.{IsChains, events_of}, specs.Placed.carriers_of};

    ghost view = { λ c. record { limits = c.limits; events = events_of c.table c.store c.places.stored } };

    ghost invariant = { λ c. IsChains c.limits c.table c.store c.places.stored c.places.live (carriers_of c.places) c.places.naming };
}

// Counts an event that is Started or Ended.
fn ends_of(kind: Kind) -> u32
    ensures value { result ≡ end_count kind }
    ensures few { result ≤ 1 }
{
    match kind {
        Kind::Updated => 0,
        Kind::Started | Kind::Ended => 1,
    }
}

// The row of a transaction with one more live event, of this kind.
fn row_with(row: TableRow, kind: Kind) -> TableRow
    requires { (row.live ≤ most_events) × (row.ends ≤ most_events) }
    ensures { result ≡ record row { live = row.live + 1; ends = row.ends + end_count kind } }
{
    TableRow {
        slot: row.slot,
        live: row.live + 1,
        ends: row.ends + ends_of(kind),
    }
}

// The row of a transaction with one live event less, of this kind.
fn row_without(row: TableRow, kind: Kind) -> TableRow
    requires { (1 ≤ row.live) × (end_count kind ≤ row.ends) }
    ensures { result ≡ record row { live = row.live - 1; ends = row.ends - end_count kind } }
{
    TableRow {
        slot: row.slot,
        live: row.live - 1,
        ends: row.ends - ends_of(kind),
    }
}

// In which directions an event has a reading.
fn carried(event: &EventRef<'_>) -> Carries
    ensures { (d : Direction) → in_direction d result ≡ is_some (first_reading (toward d event.now.1.event.readings)) }
{
    ByDirection {
        import: event.first_reading(Direction::Import).is_some(),
        export: event.first_reading(Direction::Export).is_some(),
    }
}

// Returns whether a transaction is new and no more transactions may be stored.
fn lacks_place(table: &TransactionTable, limit: u32, tx: &TxId) -> bool
    ensures { result ≡ (not (is_some (row_of tx.now table.now.rows)) && nat_le limit (length table.now.rows)) }
{
    limit <= table.len() && table.get(tx).is_none()
}

// How many live events a transaction has, and how many of them are Started or Ended.
fn counts_in(row: Option<TableRow>) -> (u32, u32)
    ensures { result ≡ counts_under row }
{
    match row {
        Some(row) => (row.live, row.ends),
        None => (0, 0),
    }
}

impl Chains {
    /// A map without events, for these limits. Only this call takes memory; the error says that the
    /// allocator refused it.
    pub fn open(alloc: Global, limits: &Limits) -> Result<Self, AllocError>
        ensures limits { IfOk result (λ c. c.limits ≡ limits.now) }
        ensures transactions { IfOk result (λ c. limits.now.transactions ≤ most_transactions) }
        ensures events { IfOk result (λ c. limits.now.events ≤ most_events) }
        ensures readings { IfOk result (λ c. limits.now.readings ≤ most_readings) }
        ensures empty { IfOk result (λ c. c.events ≡ finite.empty) }
    {
        let (transactions, events) = (limits.transactions(), limits.events());
        Ok(Chains {
            limits: *limits,
            table: TransactionTable::open(alloc, transactions)?,
            store: EventStore::open(alloc, events, limits.readings())?,
            places: PlaceIndex::open(alloc, events)?,
        })
    }

    /// Searches for a key once, so that the next calls need no search for it. Their answers stay
    /// the same.
    pub fn seek(&mut self, key: &Key)
        ensures { self.new ≡ self.old }
    {
        let place = look_up(&self.table, &self.places, key).1;
        if let Some((_, row)) = self.table.seek(key.tx()) {
            self.places
                .seek_at(IndexKey::new(row.slot, key.seq()), place);
        }
    }

    /// Where the transaction of the last [`Chains::seek`] is or belongs by its id: a hint for another
    /// map of about the same transactions.
    pub fn near(&self) -> usize {
        self.table.near()
    }

    /// Whether there is room for an event of this transaction under a new key, with this many
    /// readings.
    pub fn room_for(&self, tx: &TxId, readings: usize) -> Room
        ensures { result ≡ room_of self.now.limits (stored self.now) tx.now readings }
    {
        if lacks_place(&self.table, self.limits.transactions(), tx) {
            Room::NoTransaction
        } else if self.limits.events() <= self.places.len() {
            Room::NoEvent
        } else if (self.store.free_readings() as usize) < readings {
            Room::NoReading
        } else {
            Room::Fits
        }
    }

    /// How the event of a key is stored; none if the key is absent.
    pub fn find(&self, key: &Key) -> Option<Found>
        ensures { result ≡ found_of (finite.get self.now.events key.now) }
    {
        match self.event(key) {
            Some(event) if event.is_voided() => Some(Found::Voided),
            Some(_) => Some(Found::Live),
            None => None,
        }
    }

    /// The event of a key; none if the key is absent.
    pub fn event(&self, key: &Key) -> Option<EventRef<'_>>
        ensures { option_map (λ e. e.1) result ≡ finite.get self.now.events key.now }
    {
        self.look(key).0
    }

    /// The event of a key, and where the key is or belongs: a hint for [`Chains::admit`].
    pub fn look(&self, key: &Key) -> (Option<EventRef<'_>>, KeyPlace)
        ensures { option_map (λ e. e.1) result.0 ≡ finite.get self.now.events key.now }
    {
        let found = look_up(&self.table, &self.places, key);
        match found.0 {
            Some(slot) => (Some(self.store.get(slot)), found.1),
            None => (None, found.1),
        }
    }

    // The event of a key that was just searched for.
    fn event_sought(&self, key: &Key) -> Option<EventRef<'_>>
        ensures { option_map (λ e. e.1) result ≡ finite.get self.now.events key.now }
    {
        match slot_sought(&self.table, &self.places, key) {
            Some(slot) => Some(self.store.get(slot)),
            None => None,
        }
    }

    /// Adds a live event under a new key. There must be room for it ([`Chains::room_for`]).
    pub fn insert(&mut self, key: Key, event: &Event)
        requires absent { finite.get self.old.events key ≡ None }
        requires room { room_of self.old.limits (stored self.old) key.tx (length event.now.readings) ≡ Fits }
        ensures limits { self.new.limits ≡ self.old.limits }
        ensures events { self.new.events ≡ finite.insert self.old.events key (record { event = event.now; voided = false }) }
    {
        let place = self.places.near();
        let _ = self.admit(&key, event, place);
    }

    /// Adds a live event; the place that [`Chains::look`] gave is a hint that saves a search. It returns what
    /// [`Chains::neighbours`] would, in each direction in which the event has a reading.
    pub fn admit(&mut self, key: &Key, event: &Event, place: KeyPlace) -> Around
        requires absent { finite.get self.old.events key.now ≡ None }
        requires room { room_of self.old.limits (stored self.old) key.now.tx (length event.now.readings) ≡ Fits }
        ensures limits { self.new.limits ≡ self.old.limits }
        ensures events { self.new.events ≡ finite.insert self.old.events key.now (record { event = event.now; voided = false }) }
        ensures sides { (d : Direction) → AreSides d (is_some (first_reading (toward d event.now.readings))) key.now (stored self.old) (in_direction d result) }
    {
        let tx = key.tx();
        let carries = carried_by(event.readings());
        let found = self.table.seek(tx);
        let mut around = NONE_AROUND;
        around_of(
            &self.table,
            &self.store,
            &self.places,
            found,
            place,
            key,
            carries,
            &mut around,
        );
        let (row, known) = enter(&mut self.table, found, tx);
        let at = IndexKey::new(row.slot, key.seq());
        let slot = self.store.put(at, event);
        let names_evse = event.evse().is_some();
        self.places.insert(place, at, slot, carries, names_evse);
        let after = row_with(row, event.kind());
        renew(&mut self.table, known, tx, after);
        around
    }

    /// Voids a live event; it keeps its slots.
    pub fn unlink(&mut self, key: &Key)
        requires { found_of (finite.get self.old.events key.now) ≡ Some Live }
        ensures limits { self.new.limits ≡ self.old.limits }
        ensures events { self.new.events ≡ marked self.old.events key.now true }
    {
        let at = locate(&self.table, &self.places, key);
        let event = self.store.get(at.slot);
        let kind = event.kind();
        self.store.set_voided(at.slot, true);
        self.places.void(at.key, at.slot);
        let after = row_without(at.row, kind);
        self.table.set(key.tx(), after);
    }

    /// Makes a voided event live again; it takes no slot.
    pub fn relink(&mut self, key: &Key)
        requires { found_of (finite.get self.old.events key.now) ≡ Some Voided }
        ensures limits { self.new.limits ≡ self.old.limits }
        ensures events { self.new.events ≡ marked self.old.events key.now false }
    {
        let at = locate(&self.table, &self.places, key);
        let event = self.store.get(at.slot);
        let carries = carried(&event);
        let names_evse = event.evse().is_some();
        let kind = event.kind();
        self.store.set_voided(at.slot, false);
        self.places.restore(at.key, at.slot, carries, names_evse);
        let after = row_with(at.row, kind);
        self.table.set(key.tx(), after);
    }

    /// Removes a voided event with its readings; a transaction without events gives its row back.
    pub fn remove(&mut self, key: &Key)
        requires { found_of (finite.get self.old.events key.now) ≡ Some Voided }
        ensures limits { self.new.limits ≡ self.old.limits }
        ensures events { self.new.events ≡ finite.remove self.old.events key.now }
    {
        let at = locate(&self.table, &self.places, key);
        self.places.remove(at.key);
        self.store.take_out(at.slot);
        leave(&mut self.table, &self.places, key.tx(), at.row);
    }

    /// The readings of a direction of the event of a key, in the order sent; none if the key is
    /// absent.
    pub fn readings(&self, key: &Key, direction: Direction) -> Readings<'_>
        ensures { result ≡ readings_under direction (finite.get self.now.events key.now) }
    {
        match self.event_sought(key) {
            Some(event) => event.readings(direction),
            None => self.store.no_readings(),
        }
    }

    /// In which directions the event of a key has a reading; in neither if the key is absent.
    pub fn carries(&self, key: &Key) -> Carries
        ensures { (d : Direction) → in_direction d result ≡ is_some (first_reading (readings_under d (finite.get self.now.events key.now))) }
    {
        match self.event_sought(key) {
            Some(event) => carried(&event),
            None => carried_by(&[]),
        }
    }

    /// The live readings of a direction on either side of the place of a key in its transaction, whether
    /// the key is live, voided or absent: the last in front of it, and the first behind it.
    #[inline(always)]
    pub fn neighbours(&self, key: &Key, direction: Direction) -> (Option<Reading>, Option<Reading>)
        ensures before { result.0 ≡ last_reading (own_readings direction key.now.tx (before_key key.now (stored self.now))) }
        ensures behind { result.1 ≡ first_reading (own_readings direction key.now.tx (behind_key key.now (stored self.now))) }
    {
        let row = self.table.get(key.tx());
        let place = self.places.near();
        let mut sides = Sides::NONE;
        sides_of(
            &self.table,
            &self.store,
            &self.places,
            row,
            place,
            key,
            direction,
            &mut sides,
        );
        (sides.before, sides.behind)
    }

    /// How many transactions have an event, live or voided.
    pub fn stored_transactions(&self) -> u32
        ensures { result ≡ length (transactions_of (stored self.now)) }
    {
        self.table.len()
    }

    /// How many events are stored, voided ones among them.
    pub fn stored_events(&self) -> u32
        ensures { result ≡ length (stored self.now) }
    {
        self.places.len()
    }

    /// How many readings are stored, those of voided events among them.
    pub fn stored_readings(&self) -> u32
        ensures { result ≡ readings_stored (stored self.now) }
    {
        self.limits.readings() - self.store.free_readings()
    }

    /// How many live events a transaction has.
    pub fn live_count(&self, tx: &TxId) -> u32
        ensures { result ≡ length (live_of tx.now (stored self.now)) }
    {
        counts_in(self.table.get(tx)).0
    }

    /// How many live events of a transaction are Started or Ended.
    pub fn end_count(&self, tx: &TxId) -> u32
        ensures { result ≡ count_by is_end (kinds_of tx.now (stored self.now)) }
    {
        counts_in(self.table.get(tx)).1
    }

    /// The lowest live number of a transaction.
    pub fn first(&self, tx: &TxId) -> Option<u32>
        ensures { result ≡ slice_get (numbers_of tx.now (stored self.now)) 0 }
    {
        number_of(first_live(&self.places, self.table.get(tx)))
    }

    /// The highest live number of a transaction.
    pub fn last(&self, tx: &TxId) -> Option<u32>
        ensures { let numbers = numbers_of tx.now (stored self.now) in result ≡ slice_get numbers (length numbers - 1) }
    {
        number_of(last_live(&self.places, self.table.get(tx)))
    }

    /// A walk over the live numbers of a transaction, rising.
    pub fn walk(&self, tx: &TxId) -> TxWalk<'_>
        ensures { result ≡ numbers_of tx.now (stored self.now) }
    {
        match self.table.get(tx) {
            Some(row) => TxWalk::over(&self.places, &self.store, Some(row.slot)),
            None => TxWalk::over(&self.places, &self.store, None),
        }
    }

    /// The EVSE that a transaction's lowest live event with an EVSE names, else 0.
    pub fn evse(&self, tx: &TxId) -> EvseId
        ensures { result ≡ evse_of tx.now (stored self.now) }
    {
        evse_at(&self.store, first_naming(&self.places, self.table.get(tx)))
    }

    /// A summary of a transaction's live events, with one look-up of the transaction: the two ends and
    /// their kinds, the two counts, and the EVSE.
    pub fn standing(&self, tx: &TxId) -> TxStanding
        ensures { IsTxStanding tx.now (stored self.now) result }
    {
        let row = self.table.get(tx);
        let first = first_live(&self.places, row);
        let last = last_live(&self.places, row);
        let first_kind = kind_at(&self.store, &first);
        let last_kind = kind_at(&self.store, &last);
        let counts = counts_in(row);
        TxStanding {
            first: number_of(first),
            last: number_of(last),
            first_kind,
            last_kind,
            live: counts.0,
            ends: counts.1,
            evse: evse_at(&self.store, first_naming(&self.places, row)),
        }
    }

    /// The events of a transaction, live and voided, by rising number. The error says that the allocator refused
    /// memory.
    pub fn events(&self, alloc: Global, tx: &TxId) -> Result<Vec<EventLine>, AllocError>
        ensures { IfOk result (λ lines. lines.items ≡ events_of tx.now (stored self.now)) }
    {
        match self.table.get(tx) {
            Some(row) => {
                let stored = self.places.stored(KeyPlace::UNKNOWN);
                lines_under(alloc, &stored, &self.store, row.slot)
            }
            None => Ok(Vec::new(alloc)),
        }
    }

    /// The ids of the transactions that have an event, live or voided, in order.
    pub fn transactions(&self) -> TxIds<'_>
        ensures { result ≡ transactions_of (stored self.now) }
    {
        TxIds::of(&self.table)
    }
}
