//! The live readings on either side of an event's place.
ghost use Rattle.std.specs.Prelude.{◌≡◌, None, true, option_map};
ghost use Rattle.ledger_model.{specs.ByDirection.in_direction, specs.declared.reading.Direction.Direction};
ghost use Rattle.event_chain.{specs.Table.row_of, specs.Flat.flat, specs.Kept.{IsKeyed, IsSub, is_carrier}, specs.Placed.carriers_of, specs.Sides.AreSides};

use crate::carries::Carries;
use crate::look_ups::{carriers_around, first_at, last_at};
use crate::place_index::PlaceIndex;
use crate::row::TableRow;
use crate::table::TransactionTable;
use event_store::EventStore;
use key_index::{IndexKey, KeyPlace};
use ledger_model::{ByDirection, Direction, Key, Reading};

/// The live readings of a direction just before and just behind an event's place in its transaction;
/// none if the event has no reading of the direction.
#[derive(Clone, Copy)]
pub struct Sides {
    /// The last live reading in front of the place.
    pub before: Option<Reading>,
    /// The first live reading behind the place.
    pub behind: Option<Reading>,
}

/// The live readings on either side of an event's place, in each direction.
pub type Around = ByDirection<Sides>;

// No readings in either direction.
pub(crate) const NONE_AROUND: Around = ByDirection {
    import: Sides::NONE,
    export: Sides::NONE,
};

impl Sides {
    // No readings.
    pub(crate) const NONE: Sides = Sides {
        before: None,
        behind: None,
    };
}

// Finds the readings of a direction on either side of the place of a key. The key's transaction may
// have a row; only the clauses need the table. The readings are written to their final place, since
// each function that returns such values copies them.
#[inline(always)]
pub(crate) fn sides_of(
    table: &TransactionTable,
    store: &EventStore,
    places: &PlaceIndex,
    row: Option<TableRow>,
    place: KeyPlace,
    key: &Key,
    direction: Direction,
    sides: &mut Sides,
)
    requires keyed { IsKeyed table.now.rows places.now.stored.entries store.now.slots }
    requires carry { IsSub (is_carrier direction) places.now.stored.entries store.now.slots (carriers_of places.now direction).entries }
    requires row { row ≡ row_of key.now.tx table.now.rows }
    ensures { AreSides direction true key.now (flat table.now.rows places.now.stored.entries store.now.slots) sides.new }
{
    match row {
        Some(row) => {
            let at = IndexKey::new(row.slot, key.seq());
            let found = carriers_around(places, direction, place, at);
            sides.before = last_at(store, direction, found.0);
            sides.behind = first_at(store, direction, found.1);
        }
        None => {
            sides.before = None;
            sides.behind = None;
        }
    }
}

// Finds the readings of a direction on either side of the place of a key, if the event of the key has a
// reading of the direction.
#[inline(always)]
fn sides_where(
    has: bool,
    table: &TransactionTable,
    store: &EventStore,
    places: &PlaceIndex,
    row: Option<TableRow>,
    place: KeyPlace,
    key: &Key,
    direction: Direction,
    sides: &mut Sides,
)
    requires keyed { IsKeyed table.now.rows places.now.stored.entries store.now.slots }
    requires carry { IsSub (is_carrier direction) places.now.stored.entries store.now.slots (carriers_of places.now direction).entries }
    requires row { row ≡ row_of key.now.tx table.now.rows }
    ensures { AreSides direction has key.now (flat table.now.rows places.now.stored.entries store.now.slots) sides.new }
{
    if !has {
        sides.before = None;
        sides.behind = None;
        return;
    }
    sides_of(table, store, places, row, place, key, direction, sides)
}

// The row of a transaction, if it was found.
fn row_in(known: Option<(usize, TableRow)>) -> Option<TableRow>
    ensures { result ≡ option_map (λ f. f.1) known }
{
    match known {
        Some((_, row)) => Some(row),
        None => None,
    }
}

// Finds the readings on either side of the place of a key, in each direction in which its event has a
// reading.
pub(crate) fn around_of(
    table: &TransactionTable,
    store: &EventStore,
    places: &PlaceIndex,
    known: Option<(usize, TableRow)>,
    place: KeyPlace,
    key: &Key,
    carries: Carries,
    around: &mut Around,
)
    requires keyed { IsKeyed table.now.rows places.now.stored.entries store.now.slots }
    requires carry { (d : Direction) → IsSub (is_carrier d) places.now.stored.entries store.now.slots (carriers_of places.now d).entries }
    requires row { option_map (λ f. f.1) known ≡ row_of key.now.tx table.now.rows }
    ensures { (d : Direction) → AreSides d (in_direction d carries) key.now (flat table.now.rows places.now.stored.entries store.now.slots) (in_direction d around.new) }
{
    let row = row_in(known);
    sides_where(
        carries.import,
        table,
        store,
        places,
        row,
        place,
        key,
        Direction::Import,
        &mut around.import,
    );
    sides_where(
        carries.export,
        table,
        store,
        places,
        row,
        place,
        key,
        Direction::Export,
        &mut around.export,
    );
}
