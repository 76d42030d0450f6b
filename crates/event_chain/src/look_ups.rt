//! The places of events: their transactions, their ranks, and the slots that hold them.
ghost use Rattle.std.{specs.Prelude.{◌≡◌, ℕ, ◌<◌, true, false, length, None, Some, IsSome, IfSome, slice_get, option_map}, specs.Option.ForSome};
ghost use Rattle.event_chain.{specs.Placed.carriers_of, specs.Table.{row_of, with_row, AreApart, AreRising, AreSlotted, IsRowAt}, specs.Flat.{place_of, segment}, specs.Kept.{HasPlace, IsBare, IsEntered, IsLeft}, specs.Edits.{place_at, first_under, last_under, at_home, places_before, places_behind, first_at, last_at, kind_in, evse_at, IsLocation, IsStored}, specs.Walk.number_in};
ghost use Rattle.key_index.specs.Entries as entries;
ghost use Rattle.key_index.{specs.Entries.{from, first_of, last_of}, specs.Key.rank};
ghost use Rattle.ledger_model.specs.Ranges.{sequence_end};

use crate::marked_places::MarkedPlaces;
use crate::place_index::PlaceIndex;
use crate::row::TableRow;
use crate::table::TransactionTable;
use event_store::EventStore;
use key_index::{IndexKey, KeyPlace};
use ledger_model::{Direction, EvseId, Key, Kind, Reading, TxId};

// The greatest sequence number.
const GREATEST_NUMBER: u32 = 2_147_483_647;

// Where an event is: its transaction's row, its key in the index, and its slot.
#[derive(Clone, Copy)]
pub(crate) struct EventLocation {
    pub(crate) row: TableRow,
    pub(crate) key: IndexKey,
    pub(crate) slot: u32,
}

// The slot of a key of the index; none if it is absent.
fn slot_at(places: &PlaceIndex, near: KeyPlace, key: IndexKey) -> Option<u32>
    ensures { result ≡ place_of key places.now.stored.entries }
{
    places.stored(near).get(key)
}

// Finds a key, also one that was not searched for before: its slot, none if it is absent, and where
// it is or belongs.
pub(crate) fn look_up(
    table: &TransactionTable,
    places: &PlaceIndex,
    key: &Key,
) -> (Option<u32>, KeyPlace)
    ensures { result.0 ≡ place_at table.now.rows places.now.stored.entries key.now }
{
    match table.get(key.tx()) {
        Some(row) => places.find(IndexKey::new(row.slot, key.seq())),
        None => (None, KeyPlace::UNKNOWN),
    }
}

// Finds the key of the last search; none if it is absent.
pub(crate) fn slot_sought(table: &TransactionTable, places: &PlaceIndex, key: &Key) -> Option<u32>
    ensures { result ≡ place_at table.now.rows places.now.stored.entries key.now }
{
    match table.get(key.tx()) {
        Some(row) => slot_at(places, places.near(), IndexKey::new(row.slot, key.seq())),
        None => None,
    }
}

// Finds a key, which must be there.
pub(crate) fn locate(table: &TransactionTable, places: &PlaceIndex, key: &Key) -> EventLocation
    requires { IsSome (place_at table.now.rows places.now.stored.entries key.now) }
    ensures { IsLocation table.now.rows places.now.stored.entries key.now result }
{
    let stored = places.stored(places.near());
    let row = match table.get(key.tx()) {
        Some(row) => row,
        None => unreachable!(),
    };
    let at = IndexKey::new(row.slot, key.seq());
    let slot = match stored.get(at) {
        Some(slot) => slot,
        None => unreachable!(),
    };
    EventLocation { row, key: at, slot }
}

// The row of a transaction: added if none is known, else with its place.
pub(crate) fn enter(
    table: &mut TransactionTable,
    known: Option<(usize, TableRow)>,
    tx: &TxId,
) -> (TableRow, Option<usize>)
    requires known { option_map (λ f. f.1) known ≡ row_of tx.now table.old.rows }
    requires at { IfSome known (λ f. IsRowAt tx.now table.old.rows f.0) }
    requires room { row_of tx.now table.old.rows ≡ None → length table.old.rows < table.old.capacity }
    ensures entered { IsEntered table.old.rows table.new.rows tx.now result.0 }
    ensures at { IfSome result.1 (λ i. IsRowAt tx.now table.new.rows i) }
    ensures capacity { table.new.capacity ≡ table.old.capacity }
{
    match known {
        Some((at, row)) => (row, Some(at)),
        None => (table.add(tx), None),
    }
}

// Changes the counts of a transaction, which must be there; the place of its row may be known.
pub(crate) fn renew(table: &mut TransactionTable, at: Option<usize>, tx: &TxId, row: TableRow)
    requires at { IfSome at (λ i. IsRowAt tx.now table.old.rows i) }
    requires slot { option_map (λ r. r.slot) (row_of tx.now table.old.rows) ≡ Some row.slot }
    ensures rows { table.new.rows ≡ with_row tx.now row table.old.rows }
    ensures capacity { table.new.capacity ≡ table.old.capacity }
    ensures slotted { AreSlotted table.new }
{
    match at {
        Some(at) => table.set_at(at, tx, row),
        None => table.set(tx, row),
    }
}

// The place, if it belongs to the transaction of a slot.
fn own(place: Option<(IndexKey, u32)>, slot: u32) -> Option<(IndexKey, u32)>
    ensures { result ≡ at_home slot place }
{
    match place {
        Some(place) if place.0.transaction() == slot => Some(place),
        _ => None,
    }
}

// Returns whether the transaction of a slot has a place.
fn has_place(places: &PlaceIndex, slot: u32) -> bool
    ensures some { result ≡ true → HasPlace places.now.stored.entries slot }
    ensures bare { result ≡ false → IsBare places.now.stored.entries slot }
{
    let stored = places.stored(places.start());
    first_place(&stored, slot).is_some()
}

// The first place of the transaction of a slot.
pub(crate) fn first_place(index: &MarkedPlaces<'_>, slot: u32) -> Option<(IndexKey, u32)>
    ensures { result ≡ slice_get (segment slot index.now.entries) 0 }
{
    own(index.at_or_after(IndexKey::new(slot, 0)), slot)
}

// The first place of a transaction in an index; none if it has none there.
fn first_in(index: &MarkedPlaces<'_>, row: Option<TableRow>) -> Option<(IndexKey, u32)>
    ensures { result ≡ first_under index.now.entries row }
{
    match row {
        Some(row) => first_place(index, row.slot),
        None => None,
    }
}

// The last place of the transaction of a slot.
fn last_place(index: &MarkedPlaces<'_>, slot: u32) -> Option<(IndexKey, u32)>
    requires { slot < 4294967295 }
    ensures { result ≡ last_of (segment slot index.now.entries) }
{
    own(index.before(IndexKey::new(slot + 1, 0)), slot)
}

// The last place of a transaction in an index; none if it has none there.
fn last_in(index: &MarkedPlaces<'_>, row: Option<TableRow>) -> Option<(IndexKey, u32)>
    requires { ForSome row (λ r. r.slot < 4294967295) }
    ensures { result ≡ last_under index.now.entries row }
{
    match row {
        Some(row) => last_place(index, row.slot),
        None => None,
    }
}

// The last place in front of a key, of the key's transaction.
pub(crate) fn place_before(index: &MarkedPlaces<'_>, key: IndexKey) -> Option<(IndexKey, u32)>
    ensures { result ≡ last_of (places_before key index.now.entries) }
{
    own(index.before(key), key.transaction())
}

// The first place behind a key, of the key's transaction.
pub(crate) fn place_behind(index: &MarkedPlaces<'_>, key: IndexKey) -> Option<(IndexKey, u32)>
    ensures { result ≡ slice_get (places_behind key index.now.entries) 0 }
{
    let (slot, number) = (key.transaction(), key.number());
    if number == GREATEST_NUMBER {
        return None;
    }
    own(index.at_or_after(IndexKey::new(slot, number + 1)), slot)
}

// The first live place of a transaction; none if it has none.
pub(crate) fn first_live(places: &PlaceIndex, row: Option<TableRow>) -> Option<(IndexKey, u32)>
    ensures { result ≡ first_under places.now.live.entries row }
{
    let live = places.live(places.start());
    first_in(&live, row)
}

// The last live place of a transaction; none if it has none.
pub(crate) fn last_live(places: &PlaceIndex, row: Option<TableRow>) -> Option<(IndexKey, u32)>
    requires { ForSome row (λ r. r.slot < 4294967295) }
    ensures { result ≡ last_under places.now.live.entries row }
{
    let live = places.live(places.end());
    last_in(&live, row)
}

// The first place of a transaction's events that name an EVSE; none if none does.
pub(crate) fn first_naming(places: &PlaceIndex, row: Option<TableRow>) -> Option<(IndexKey, u32)>
    ensures { result ≡ first_under places.now.naming.entries row }
{
    let naming = places.naming(places.start());
    first_in(&naming, row)
}

// Returns whether the place is that of the key.
fn is_at(place: &Option<(IndexKey, u32)>, key: IndexKey) -> bool
    ensures { result ≡ false → (p : ℕ × ℕ) → place.now ≡ Some p → p.0 ≡ key → ⊥ }
{
    match place {
        Some(place) => place.0 == key,
        None => false,
    }
}

// The first place behind a key, of the key's transaction, if the first one from the key on is known.
#[inline(always)]
fn behind_found(
    index: &MarkedPlaces<'_>,
    key: IndexKey,
    found: Option<(IndexKey, u32)>,
) -> Option<(IndexKey, u32)>
    requires found { found ≡ first_of (from key index.now.entries) }
    requires rising { entries.AreRising index.now.entries }
    ensures { result ≡ slice_get (places_behind key index.now.entries) 0 }
{
    if is_at(&found, key) {
        return place_behind(index, key);
    }
    own(found, key.transaction())
}

// The places on either side of a key, of the key's transaction.
#[inline(always)]
fn places_around(
    index: &MarkedPlaces<'_>,
    key: IndexKey,
) -> (Option<(IndexKey, u32)>, Option<(IndexKey, u32)>)
    ensures before { result.0 ≡ last_of (places_before key index.now.entries) }
    ensures behind { result.1 ≡ slice_get (places_behind key index.now.entries) 0 }
{
    let found = index.around(key);
    let before = own(found.0, key.transaction());
    let behind = behind_found(index, key, found.1);
    (before, behind)
}

// The places on either side of a key of events with a reading of a direction, of the key's
// transaction.
#[inline(always)]
pub(crate) fn carriers_around(
    places: &PlaceIndex,
    direction: Direction,
    place: KeyPlace,
    key: IndexKey,
) -> (Option<(IndexKey, u32)>, Option<(IndexKey, u32)>)
    ensures before { result.0 ≡ last_of (places_before key (carriers_of places.now direction).entries) }
    ensures behind { result.1 ≡ slice_get (places_behind key (carriers_of places.now direction).entries) 0 }
{
    let carriers = places.carriers(direction, place);
    places_around(&carriers, key)
}

// The last reading of a direction of the event of a place, if there is one.
pub(crate) fn last_at(
    store: &EventStore,
    direction: Direction,
    place: Option<(IndexKey, u32)>,
) -> Option<Reading>
    requires { IsStored store.now.slots place }
    ensures { result ≡ last_at store.now.slots direction place }
{
    match place {
        Some(place) => store.get(place.1).last_reading(direction),
        None => None,
    }
}

// The first reading of a direction of the event of a place, if there is one.
pub(crate) fn first_at(
    store: &EventStore,
    direction: Direction,
    place: Option<(IndexKey, u32)>,
) -> Option<Reading>
    requires { IsStored store.now.slots place }
    ensures { result ≡ first_at store.now.slots direction place }
{
    match place {
        Some(place) => store.get(place.1).first_reading(direction),
        None => None,
    }
}

// The sequence number of a place.
pub(crate) fn number_of(place: Option<(IndexKey, u32)>) -> Option<u32>
    ensures { result ≡ option_map number_in place }
{
    match place {
        Some(place) => Some(place.0.number()),
        None => None,
    }
}

// The kind of the event of a place, if there is one.
pub(crate) fn kind_at(store: &EventStore, place: &Option<(IndexKey, u32)>) -> Option<Kind>
    requires { IsStored store.now.slots place.now }
    ensures { result ≡ option_map (kind_in store.now.slots) place.now }
{
    match place {
        Some(place) => Some(store.get(place.1).kind()),
        None => None,
    }
}

// The EVSE that the event of a place names, or 0.
pub(crate) fn evse_at(store: &EventStore, place: Option<(IndexKey, u32)>) -> EvseId
    requires { IsStored store.now.slots place }
    ensures { result ≡ evse_at store.now.slots place }
{
    match place {
        Some(place) => store.get(place.1).evse().unwrap_or(EvseId::unnamed()),
        None => EvseId::unnamed(),
    }
}

// Removes a transaction if its last place went.
pub(crate) fn leave(table: &mut TransactionTable, places: &PlaceIndex, tx: &TxId, row: TableRow)
    requires { row_of tx.now table.old.rows ≡ Some row }
    ensures left { IsLeft table.old.rows table.new.rows places.now.stored.entries tx.now row }
    ensures capacity { table.new.capacity ≡ table.old.capacity }
    ensures rising { AreRising table.old.rows → AreRising table.new.rows }
    ensures apart { AreApart table.old.rows → AreApart table.new.rows }
{
    if !has_place(places, row.slot) {
        table.remove(tx);
    }
}
