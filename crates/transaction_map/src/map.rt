ghost use Rattle.std.{specs.Prelude.{◌≡◌, ◌<◌, ◌≤◌, [], length, map, not, None, IfOk, IfErr, IfSome, option_map, slice_get, vec_len, vec_capacity}, specs.List.filter, specs.Ordering.eq_by_cmp, specs.FinMap.{find, put as put_row}};
ghost use Rattle.transaction_map.{specs.Places.{IsAt, IsGap}, specs.Map.{id_cmp, AreRising}};

use crate::named::NamedValue;
use ledger_model::TxId;
use std::alloc::{AllocError, Global};
use std::marker::Model;

/// Values by transaction id, in one sorted run that `open` reserves. Contracts see the rows by
/// rising id, and how many there may be.
#[derive(Drop)]
pub struct TransactionMap<V> {
    rows: Vec<NamedValue<V>>,
    capacity: u32,
    // Where the row of the last search is or belongs: it saves a search, and changes no answer.
    near: usize,
}

impl<V> Model for TransactionMap<V> {
    ghost use Rattle.std.specs.Prelude.{vec_capacity};
    ghost use Rattle.transaction_map.{specs.Map.Mapped, specs.Kept.IsMap};

    ghost Value = { Mapped V };

    ghost view = { λ m. record { rows = m.rows.items; capacity = m.capacity } };

    ghost invariant = { λ m. IsMap m.rows.items m.capacity (vec_capacity m.rows) };
}

// The place of the row of an id among rows by rising id; the error says where it belongs.
#[inline(never)]
fn place<V: Copy>(rows: &[NamedValue<V>], tx: &TxId) -> Result<usize, usize>
    requires { AreRising rows.now }
    ensures at { IfOk result (λ i. IsAt tx.now rows.now i) }
    ensures gap { IfErr result (λ i. IsGap tx.now rows.now i) }
{
    rows.binary_search_by(|row| row.cmp_id(tx))
}

// The place of the row of an id; the error says where it belongs. The call looks at the place
// `near` first.
fn place_near<V: Copy>(rows: &[NamedValue<V>], near: usize, tx: &TxId) -> Result<usize, usize>
    requires { AreRising rows.now }
    ensures at { IfOk result (λ i. IsAt tx.now rows.now i) }
    ensures gap { IfErr result (λ i. IsGap tx.now rows.now i) }
{
    if near < rows.len() && rows[near].is_of(tx) {
        return Ok(near);
    }
    place(rows, tx)
}

impl<V: Copy> TransactionMap<V> {
    /// A map without transactions, with room for `capacity` of them; the error says that the
    /// allocator refused memory.
    pub fn open(alloc: Global, capacity: u32) -> Result<Self, AllocError>
        ensures rows { IfOk result (λ m. m.rows ≡ []) }
        ensures capacity { IfOk result (λ m. m.capacity ≡ capacity) }
    {
        let rows = Vec::with_capacity(alloc, capacity as usize)?;
        Ok(TransactionMap {
            rows,
            capacity,
            near: 0,
        })
    }

    /// The value of a transaction, and the place of its row; none if it is absent. The next calls need no
    /// search for it; their answers stay the same.
    pub fn seek(&mut self, tx: &TxId) -> Option<(usize, V)>
        ensures value { option_map (λ f. f.1) result ≡ find id_cmp tx.now self.old.rows }
        ensures at { IfSome result (λ f. IsAt tx.now self.old.rows f.0) }
        ensures same { self.new ≡ self.old }
    {
        match place_near(&self.rows, self.near, tx) {
            Ok(at) => {
                self.near = at;
                Some((at, self.rows[at].value()))
            }
            Err(at) => {
                self.near = at;
                None
            }
        }
    }

    /// Where the transaction of the last search is or belongs, for [`TransactionMap::look_near`] of a
    /// map that has about the same transactions.
    pub fn near(&self) -> usize {
        self.near
    }

    /// The next search looks at this place first. No answer changes.
    pub fn look_near(&mut self, near: usize)
        ensures { self.new ≡ self.old }
    {
        self.near = near;
    }

    /// How many transactions it holds.
    pub fn len(&self) -> u32
        ensures len { result ≡ length self.now.rows }
        ensures within { length self.now.rows ≤ self.now.capacity }
        ensures rising { AreRising self.now.rows }
    {
        self.rows.len() as u32
    }

    /// How many transactions it may hold.
    pub fn capacity(&self) -> u32
        ensures { result ≡ self.now.capacity }
    {
        self.capacity
    }

    /// The value of a transaction; none if it is absent.
    pub fn get(&self, tx: &TxId) -> Option<V>
        ensures { result ≡ find id_cmp tx.now self.now.rows }
    {
        match place_near(&self.rows, self.near, tx) {
            Ok(at) => Some(self.rows[at].value()),
            Err(_) => None,
        }
    }

    /// The value of a transaction, and the place of its row; none if it is absent.
    pub fn find(&self, tx: &TxId) -> Option<(usize, V)>
        ensures value { option_map (λ f. f.1) result ≡ find id_cmp tx.now self.now.rows }
        ensures at { IfSome result (λ f. IsAt tx.now self.now.rows f.0) }
    {
        match place_near(&self.rows, self.near, tx) {
            Ok(at) => Some((at, self.rows[at].value())),
            Err(_) => None,
        }
    }

    /// The id at a place, the first at 0; none past the last.
    pub fn id_at(&self, place: usize) -> Option<&TxId>
        ensures { option_map (λ id. id.now) result ≡ slice_get (map (λ r. r.0) self.now.rows) place }
    {
        match self.rows.get(place) {
            Some(row) => Some(row.id()),
            None => None,
        }
    }

    /// Writes the value of a transaction, or adds it if it is absent; then the map must have room.
    pub fn put(&mut self, tx: &TxId, value: V)
        requires { find id_cmp tx.now self.old.rows ≡ None → length self.old.rows < self.old.capacity }
        ensures rows { self.new.rows ≡ put_row id_cmp tx.now value self.old.rows }
        ensures capacity { self.new.capacity ≡ self.old.capacity }
    {
        put_in(&mut self.rows, self.near, tx, value);
    }

    /// Writes the value of a transaction that has its row at this place.
    pub fn set_at(&mut self, place: usize, tx: &TxId, value: V)
        requires { IsAt tx.now self.old.rows place }
        ensures rows { self.new.rows ≡ put_row id_cmp tx.now value self.old.rows }
        ensures capacity { self.new.capacity ≡ self.old.capacity }
    {
        write_at(&mut self.rows, place, tx, value);
    }

    /// Takes out the value of a transaction, and returns it; `None` if it is absent.
    pub fn remove(&mut self, tx: &TxId) -> Option<V>
        ensures value { result ≡ find id_cmp tx.now self.old.rows }
        ensures rows { self.new.rows ≡ filter (λ r. not (eq_by_cmp id_cmp tx.now r.0)) self.old.rows }
        ensures capacity { self.new.capacity ≡ self.old.capacity }
    {
        take_out(&mut self.rows, self.near, tx)
    }
}

// Writes the row of an id, which is at this place.
fn write_at<V: Copy>(rows: &mut Vec<NamedValue<V>>, at: usize, tx: &TxId, value: V)
    requires { IsAt tx.now rows.old.items at }
    ensures items { rows.new.items ≡ put_row id_cmp tx.now value rows.old.items }
    ensures capacity { vec_capacity rows.new ≡ vec_capacity rows.old }
{
    rows[at].set(value);
}

// Writes the row of an id, or adds it if the id is new.
fn put_in<V: Copy>(rows: &mut Vec<NamedValue<V>>, near: usize, tx: &TxId, value: V)
    requires rising { AreRising rows.old.items }
    requires room { find id_cmp tx.now rows.old.items ≡ None → vec_len rows.old < vec_capacity rows.old }
    ensures items { rows.new.items ≡ put_row id_cmp tx.now value rows.old.items }
    ensures capacity { vec_capacity rows.new ≡ vec_capacity rows.old }
{
    match place_near(rows, near, tx) {
        Ok(at) => rows[at].set(value),
        Err(at) => {
            // There is room, so this takes no memory and succeeds.
            let _ = rows.insert(at, NamedValue::new(tx.copied(), value));
        }
    }
}

// Takes out the row of an id, and returns its value.
fn take_out<V: Copy>(rows: &mut Vec<NamedValue<V>>, near: usize, tx: &TxId) -> Option<V>
    requires rising { AreRising rows.old.items }
    ensures value { result ≡ find id_cmp tx.now rows.old.items }
    ensures items { rows.new.items ≡ filter (λ r. not (eq_by_cmp id_cmp tx.now r.0)) rows.old.items }
    ensures capacity { vec_capacity rows.new ≡ vec_capacity rows.old }
{
    match place_near(rows, near, tx) {
        Ok(at) => Some(rows.remove(at).value()),
        Err(_) => None,
    }
}
