use key_index::{Entry, Filed, IndexKey, KeyIndex, KeyPlace, Mark, Marks};
use std::test::Fail;

// An index of events: their slots by their keys.
type Index = KeyIndex<IndexKey, u32>;

// The key of a transaction and a sequence number below 2^31.
fn key(transaction: u32, number: u32) -> IndexKey {
    IndexKey::new(transaction, number & 0x7fff_ffff)
}

// What is filed under a key: the number, and marks that follow from it.
fn filed(slot: u32) -> Filed<u32> {
    Filed {
        value: slot,
        marks: Marks {
            live: slot % 2 == 1,
            imports: slot % 5 == 0,
            exports: slot % 7 == 0,
            names: false,
        },
    }
}

// The slot number of a key.
fn slot_of(index: &Index, key: IndexKey) -> Option<u32> {
    match index.get(index.place(key), key) {
        Some(filed) => Some(filed.value),
        None => None,
    }
}

// Puts a key in if it is absent and there is room; returns whether it did.
fn put(index: &mut Index, key: IndexKey, slot: u32) -> bool {
    let place = index.place(key);
    if index.get(place, key).is_some() || index.len() >= index.capacity() {
        return false;
    }
    index.insert(place, key, filed(slot));
    true
}

// Takes a key out if it is there; returns whether it did.
fn cut(index: &mut Index, key: IndexKey) -> bool {
    if index.get(KeyPlace::UNKNOWN, key).is_none() {
        return false;
    }
    index.remove(key);
    true
}

// The slot number of an entry, 0 if there is none.
fn slot_in(entry: Option<Entry<IndexKey, u32>>) -> u32 {
    match entry {
        Some(entry) => entry.filed().value,
        None => 0,
    }
}

// Whether this is the entry of a key, as it was put in.
fn is_of(entry: Option<Entry<IndexKey, u32>>, wanted: IndexKey, slot: u32) -> bool {
    match entry {
        Some(entry) => {
            let filed_there = entry.filed();
            entry.key() == wanted && filed_there == filed(slot)
        }
        None => false,
    }
}

// The slot numbers of the nearest entries with a mark in front of a key and from it on.
fn sides(index: &Index, place: KeyPlace, key: IndexKey, mark: Mark) -> (u32, u32) {
    let before = index.before_marked(place, key, mark);
    let behind = index.at_or_after_marked(place, key, mark);
    (slot_in(before), slot_in(behind))
}

// Three entries of two transactions, put in out of order.
fn three_entries(index: &mut Index) -> bool {
    put(index, key(2, 5), 25) && put(index, key(1, 9), 19) && put(index, key(2, 1), 21)
}

// Whether the three are found by their keys, and nothing by another.
fn finds_three(index: &Index) -> bool {
    index.len() == 3 && slot_of(index, key(1, 9)) == Some(19) && slot_of(index, key(2, 9)).is_none()
}

// Whether each of the three has its neighbours.
fn neighbours_of_three(index: &Index) -> bool {
    let any = KeyPlace::UNKNOWN;
    is_of(index.before(any, key(2, 5)), key(2, 1), 21)
        && index.before(any, key(1, 9)).is_none()
        && is_of(index.at_or_after(any, key(1, 10)), key(2, 1), 21)
        && is_of(index.at_or_after(any, key(2, 5)), key(2, 5), 25)
        && index.at_or_after(any, key(2, 6)).is_none()
}

// Whether the first entry has these parts of a key.
fn begins_with(index: &Index, transaction: u32, number: u32) -> bool {
    match index.at_or_after(KeyPlace::UNKNOWN, key(1, 0)) {
        Some(entry) => {
            let found = entry.key();
            found.transaction() == transaction && found.number() == number
        }
        None => false,
    }
}

#[test]
fn keys_go_by_transaction_then_number(rt: HostRuntime) -> Result<(), Fail> {
    let mut index = KeyIndex::open(rt.alloc(), 4)?;
    assert!(rt; index.capacity() == 4 && index.at_or_after(KeyPlace::UNKNOWN, key(0, 0)).is_none());
    assert!(rt; three_entries(&mut index));
    assert!(rt; finds_three(&index) && neighbours_of_three(&index));
    assert!(rt; cut(&mut index, key(2, 1)));
    assert!(rt; is_of(index.before(KeyPlace::UNKNOWN, key(2, 5)), key(1, 9), 19));
    assert!(rt; begins_with(&index, 1, 9));
    Ok(())
}

// The n-th key of a walk over 65,536 keys that jumps about.
fn jumping(n: u32) -> IndexKey {
    let mixed = n.wrapping_mul(40_503) & 0xffff;
    key(mixed & 0xff, mixed >> 8)
}

// Fills the index by that walk; returns whether each entry went in.
fn fill(index: &mut Index) -> bool {
    for n in 0..65_536 {
        if !put(index, jumping(n), n) {
            return false;
        }
    }
    true
}

// Takes out all but each eighth entry; returns whether each was there.
fn thin(index: &mut Index) -> bool {
    for n in 0..65_536u32 {
        let is_there = slot_of(index, jumping(n)) == Some(n);
        if !is_there || (n % 8 != 0 && !cut(index, jumping(n))) {
            return false;
        }
    }
    true
}

// Fills the index again, in another order.
fn fill_again(index: &mut Index) -> bool {
    for n in 0..57_344u32 {
        if !put(index, key(1_000 + n % 7, n), n) {
            return false;
        }
    }
    true
}

// The key behind another.
fn behind(found: IndexKey) -> IndexKey {
    key(found.transaction(), found.number().wrapping_add(1))
}

// How many entries follow one another, up to one more than there is room for.
fn count_rising(index: &Index) -> u32 {
    let mut at = key(0, 0);
    for count in 0..65_537 {
        match index.at_or_after(KeyPlace::UNKNOWN, at) {
            Some(entry) => at = behind(entry.key()),
            None => return count,
        }
    }
    65_537
}

// Ten entries of one transaction, those of odd numbers live.
fn ten_entries(index: &mut Index) -> bool {
    for n in 1..11u32 {
        if !put(index, key(7, n), n) {
            return false;
        }
    }
    true
}

// Sets the marks of a key if it is there.
fn set_live(index: &mut Index, key: IndexKey, live: bool) -> bool {
    if index.get(KeyPlace::UNKNOWN, key).is_none() {
        return false;
    }
    let marks = Marks {
        live,
        ..Marks::NONE
    };
    index.set_marks(key, marks);
    true
}

#[test]
fn the_nearest_marked_entry_is_found(rt: HostRuntime) -> Result<(), Fail> {
    let mut index = KeyIndex::open(rt.alloc(), 10)?;
    assert!(rt; ten_entries(&mut index));
    let place = index.place(key(7, 6));
    assert!(rt; sides(&index, place, key(7, 6), Mark::Live) == (5, 7));
    assert!(rt; sides(&index, place, key(7, 6), Mark::Imports) == (5, 10));
    assert!(rt; sides(&index, place, key(7, 6), Mark::Names) == (0, 0));
    assert!(rt; set_live(&mut index, key(7, 5), false) && set_live(&mut index, key(7, 6), true));
    assert!(rt; sides(&index, place, key(7, 6), Mark::Live) == (3, 6));
    assert!(rt; sides(&index, place, key(7, 6), Mark::Imports) == (0, 10));
    Ok(())
}

#[test]
fn a_place_of_another_key_is_not_taken(rt: HostRuntime) -> Result<(), Fail> {
    let mut index = KeyIndex::open(rt.alloc(), 12)?;
    assert!(rt; ten_entries(&mut index));
    let stale = index.place(key(7, 2));
    assert!(rt; sides(&index, stale, key(7, 8), Mark::Live) == (7, 9));
    assert!(rt; index.get(stale, key(9, 0)).is_none());
    index_at(&mut index, stale, key(7, 20));
    assert!(rt; is_of(index.before(stale, key(8, 0)), key(7, 20), 41));
    Ok(())
}

// Puts in an entry at a place that may be another key's.
fn index_at(index: &mut Index, place: KeyPlace, key: IndexKey) {
    if index.get(place, key).is_none() && index.len() < index.capacity() {
        index.insert(place, key, filed(41));
    }
}

// Clears the marks of all entries but each thousandth; returns whether each was there.
fn unmark(index: &mut Index) -> bool {
    for n in 0..65_536u32 {
        if !set_live(index, jumping(n), n % 1_000 == 0) {
            return false;
        }
    }
    true
}

// How many live entries follow one another, up to one more than there is room for.
fn count_live(index: &Index) -> u32 {
    let mut at = key(0, 0);
    for count in 0..65_537 {
        match index.at_or_after_marked(KeyPlace::UNKNOWN, at, Mark::Live) {
            Some(entry) => at = behind(entry.key()),
            None => return count,
        }
    }
    65_537
}

#[test]
fn a_full_index_is_emptied_and_filled_in_another_order(rt: HostRuntime) -> Result<(), Fail> {
    let mut index = KeyIndex::open(rt.alloc(), 65_536)?;
    assert!(rt; fill(&mut index) && index.len() == 65_536);
    assert!(rt; !put(&mut index, key(300, 0), 0));
    assert!(rt; count_live(&index) == 32_768);
    assert!(rt; unmark(&mut index) && count_live(&index) == 66);
    assert!(rt; thin(&mut index) && index.len() == 8_192);
    assert!(rt; fill_again(&mut index) && index.len() == 65_536);
    assert!(rt; count_rising(&index) == 65_536);
    Ok(())
}
