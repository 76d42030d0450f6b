//! The leaves of an index: where a key belongs, and how a leaf is split and two are joined.
ghost use Rattle.std.{specs.Prelude.{◌≡◌, ◌+◌, ◌*◌, ◌<◌, ◌≤◌, suc, [], ◌∷◌, ◌++◌, length, take, drop, get_or, slice_set, true, IfSome, IfNone}, specs.List.{insert, remove}, specs.Vec.{vec_len, vec_capacity}};
ghost use Rattle.key_index.{specs.Entries.{below, from, first_of, last_of, AreRising}, specs.Marks.{marked, mark_at}, specs.Places.{in_front, on_from, IsCutAt, IsPlace}, specs.Leaves.{all_of, AreFilled, AreEmpty, Belongs, NoneFit, IsKept, IsReady, HaveRoom}};

use crate::entry::Entry;
use crate::filed::{Mark, Marks};
use crate::key::Ranked;
use crate::leaf::{LEAF_SIZE, Leaf};
use crate::place::KeyPlace;

/// The leaf where a key is or belongs: the last one that begins at the key or before it, or the
/// first leaf.
pub(crate) fn leaf_of<K: Ranked, V: Copy>(leaves: &Vec<Leaf<K, V>>, key: K) -> usize
    requires { (0 < length leaves.now.items) × AreFilled leaves.now.items × AreRising (all_of leaves.now.items) }
    ensures { Belongs (K.rank key) leaves.now.items result }
{
    let mut low = 0;
    let mut high = leaves.len();
    while low < high {
        let middle = low + (high - low) / 2;
        if leaves[middle].entry(0).is_after(key) {
            high = middle;
        } else {
            low = middle + 1;
        }
    }
    low.saturating_sub(1)
}

/// The first entry from a place of a leaf on.
pub(crate) fn first_from<K: Ranked, V: Copy>(
    leaves: &Vec<Leaf<K, V>>,
    at: usize,
    place: usize,
) -> Option<Entry<K, V>>
    requires { (at < length leaves.now.items) × AreFilled leaves.now.items }
    ensures { result ≡ first_of (drop place (get_or leaves.now.items at []) ++ all_of (drop (suc at) leaves.now.items)) }
{
    if place < leaves[at].len() {
        return Some(leaves[at].entry(place));
    }
    if at + 1 < leaves.len() {
        return Some(leaves[at + 1].entry(0));
    }
    None
}

/// The last entry before a place of a leaf.
pub(crate) fn last_before<K: Ranked, V: Copy>(
    leaves: &Vec<Leaf<K, V>>,
    at: usize,
    place: usize,
) -> Option<Entry<K, V>>
    requires { (at < length leaves.now.items) × AreFilled leaves.now.items × (place ≤ length (get_or leaves.now.items at [])) }
    ensures { result ≡ last_of (all_of (take at leaves.now.items) ++ take place (get_or leaves.now.items at [])) }
{
    if place > 0 {
        return Some(leaves[at].entry(place - 1));
    }
    if at > 0 {
        let leaf = &leaves[at - 1];
        return Some(leaf.entry(leaf.len() - 1));
    }
    None
}

/// The place of a key.
pub(crate) fn seek<K: Ranked, V: Copy>(leaves: &Vec<Leaf<K, V>>, key: K) -> KeyPlace
    requires { (0 < length leaves.now.items) × AreFilled leaves.now.items × AreRising (all_of leaves.now.items) }
    ensures { IsPlace (K.rank key) leaves.now.items result }
{
    let at = leaf_of(leaves, key);
    let entry = leaves[at].place_of(key);
    KeyPlace { leaf: at, entry }
}

/// Returns whether a place is that of a key.
fn fits<K: Ranked, V: Copy>(leaves: &Vec<Leaf<K, V>>, place: KeyPlace, key: K) -> bool
    requires { (place.leaf < length leaves.now.items) × AreFilled leaves.now.items × (place.entry ≤ length (get_or leaves.now.items place.leaf [])) }
    ensures { result ≡ true → IsCutAt (K.rank key) (in_front place.leaf place.entry leaves.now.items) (on_from place.leaf place.entry leaves.now.items) }
{
    if let Some(entry) = last_before(leaves, place.leaf, place.entry) {
        if !entry.is_before(key) {
            return false;
        }
    }
    match first_from(leaves, place.leaf, place.entry) {
        Some(entry) => !entry.is_before(key),
        None => true,
    }
}

/// The place of a key: the hint if it fits, else the one that a search finds.
pub(crate) fn settled<K: Ranked, V: Copy>(
    leaves: &Vec<Leaf<K, V>>,
    place: KeyPlace,
    key: K,
) -> KeyPlace
    requires { (0 < length leaves.now.items) × AreFilled leaves.now.items × AreRising (all_of leaves.now.items) }
    ensures { IsPlace (K.rank key) leaves.now.items result }
{
    if place.leaf < leaves.len() {
        if place.entry <= leaves[place.leaf].len() {
            if fits(leaves, place, key) {
                return place;
            }
        }
    }
    seek(leaves, key)
}

/// The last entry with a mark in the leaves in front of one.
fn last_in_front<K: Ranked, V: Copy>(
    leaves: &Vec<Leaf<K, V>>,
    at: usize,
    mark: Mark,
) -> Option<Entry<K, V>>
    requires { at ≤ length leaves.now.items }
    ensures { result ≡ last_of (marked mark (all_of (take at leaves.now.items))) }
{
    let mut front = at;
    while front > 0 {
        front -= 1;
        let leaf = &leaves[front];
        if leaf.count(mark) > 0 {
            return leaf.last_marked(leaf.len(), mark);
        }
    }
    None
}

/// The first entry with a mark in the leaves from one on.
fn first_behind<K: Ranked, V: Copy>(
    leaves: &Vec<Leaf<K, V>>,
    at: usize,
    mark: Mark,
) -> Option<Entry<K, V>>
    ensures { result ≡ first_of (marked mark (all_of (drop at leaves.now.items))) }
{
    let mut back = at;
    while back < leaves.len() {
        let leaf = &leaves[back];
        if leaf.count(mark) > 0 {
            return leaf.first_marked(0, mark);
        }
        back += 1;
    }
    None
}

/// The last entry with a mark in front of a place.
pub(crate) fn last_marked<K: Ranked, V: Copy>(
    leaves: &Vec<Leaf<K, V>>,
    place: KeyPlace,
    mark: Mark,
) -> Option<Entry<K, V>>
    requires { (place.leaf < length leaves.now.items) × (place.entry ≤ length (get_or leaves.now.items place.leaf [])) }
    ensures { result ≡ last_of (marked mark (in_front place.leaf place.entry leaves.now.items)) }
{
    match leaves[place.leaf].last_marked(place.entry, mark) {
        Some(entry) => Some(entry),
        None => last_in_front(leaves, place.leaf, mark),
    }
}

/// The first entry with a mark from a place on.
pub(crate) fn first_marked<K: Ranked, V: Copy>(
    leaves: &Vec<Leaf<K, V>>,
    place: KeyPlace,
    mark: Mark,
) -> Option<Entry<K, V>>
    requires { place.leaf < length leaves.now.items }
    ensures { result ≡ first_of (marked mark (on_from place.leaf place.entry leaves.now.items)) }
{
    match leaves[place.leaf].first_marked(place.entry, mark) {
        Some(entry) => Some(entry),
        None => first_behind(leaves, place.leaf + 1, mark),
    }
}

/// Sets the marks of the entry at a place of a leaf.
pub(crate) fn mark<K: Ranked, V: Copy>(
    leaves: &mut Vec<Leaf<K, V>>,
    at: usize,
    key: K,
    marks: Marks,
)
    requires { (at < length leaves.old.items) × AreRising (get_or leaves.old.items at []) × (length (below (K.rank key) (get_or leaves.old.items at [])) < length (get_or leaves.old.items at [])) }
    ensures items { let leaf = get_or leaves.old.items at [] in leaves.new.items ≡ slice_set leaves.old.items at (mark_at marks (length (below (K.rank key) leaf)) leaf) }
    ensures capacity { vec_capacity leaves.new ≡ vec_capacity leaves.old }
{
    let leaf = &mut leaves[at];
    let place = leaf.place_of(key);
    leaf.set_marks(place, marks);
}

/// Puts an entry at a place of a leaf that is not full.
pub(crate) fn put_at<K: Ranked, V: Copy>(
    leaves: &mut Vec<Leaf<K, V>>,
    place: KeyPlace,
    entry: Entry<K, V>,
)
    requires { (place.leaf < length leaves.old.items) × (length (get_or leaves.old.items place.leaf []) < 128) × (place.entry ≤ length (get_or leaves.old.items place.leaf [])) }
    ensures items { let leaf = get_or leaves.old.items place.leaf [] in leaves.new.items ≡ slice_set leaves.old.items place.leaf (insert leaf place.entry entry) }
    ensures capacity { vec_capacity leaves.new ≡ vec_capacity leaves.old }
{
    let leaf = &mut leaves[place.leaf];
    leaf.insert(place.entry, entry);
}

/// Puts an entry into a leaf that is not full, where its key belongs.
pub(crate) fn put<K: Ranked, V: Copy>(leaves: &mut Vec<Leaf<K, V>>, at: usize, entry: Entry<K, V>)
    requires { (at < length leaves.old.items) × (length (get_or leaves.old.items at []) < 128) × AreRising (get_or leaves.old.items at []) }
    ensures items { let leaf = get_or leaves.old.items at [] in leaves.new.items ≡ slice_set leaves.old.items at (insert leaf (length (below entry.0 leaf)) entry) }
    ensures capacity { vec_capacity leaves.new ≡ vec_capacity leaves.old }
{
    let leaf = &mut leaves[at];
    let place = leaf.place_of(entry.key());
    leaf.insert(place, entry);
}

/// Moves the upper half of a full leaf into an empty one, which comes next.
pub(crate) fn split<K: Ranked, V: Copy>(
    leaves: &mut Vec<Leaf<K, V>>,
    at: usize,
    mut empty: Leaf<K, V>,
)
    requires { (at < length leaves.old.items) × (length (get_or leaves.old.items at []) ≡ 128) × (empty ≡ []) × (vec_len leaves.old < vec_capacity leaves.old) }
    ensures items { let leaf = get_or leaves.old.items at [] in leaves.new.items ≡ insert (slice_set leaves.old.items at (take 64 leaf)) (at + 1) (drop 64 leaf) }
    ensures capacity { vec_capacity leaves.new ≡ vec_capacity leaves.old }
{
    leaves[at].split_at(LEAF_SIZE / 2, &mut empty);
    match leaves.insert(at + 1, empty) {
        Ok(()) => (),
        Err(_) => unreachable!(),
    }
}

/// Moves the entries of a leaf to the end of the one in front of it, and returns it, empty.
pub(crate) fn join<K: Ranked, V: Copy>(leaves: &mut Vec<Leaf<K, V>>, at: usize) -> Leaf<K, V>
    requires { (at + 1 < length leaves.old.items) × (length (get_or leaves.old.items at []) + length (get_or leaves.old.items (at + 1) []) ≤ 128) }
    ensures empty { result ≡ [] }
    ensures items { leaves.new.items ≡ slice_set (remove leaves.old.items (at + 1)) at (get_or leaves.old.items at [] ++ get_or leaves.old.items (at + 1) []) }
    ensures capacity { vec_capacity leaves.new ≡ vec_capacity leaves.old }
{
    let mut next = leaves.remove(at + 1);
    leaves[at].append(&mut next);
    next
}

/// The first of two leaves side by side that fit one.
pub(crate) fn pair_that_fits<K: Ranked, V: Copy>(leaves: &Vec<Leaf<K, V>>) -> Option<usize>
    ensures fits { IfSome result (λ at. (at + 1 < length leaves.now.items) × (length (get_or leaves.now.items at []) + length (get_or leaves.now.items (at + 1) []) ≤ 128)) }
    ensures none { IfNone result (NoneFit leaves.now.items) }
{
    let mut at = 0;
    while at + 1 < leaves.len() {
        if leaves[at].len() + leaves[at + 1].len() <= LEAF_SIZE {
            return Some(at);
        }
        at += 1;
    }
    None
}

/// Takes an empty leaf from the spare ones.
fn taken<K: Ranked, V: Copy>(spare: &mut Vec<Leaf<K, V>>) -> Leaf<K, V>
    requires { AreEmpty spare.old.items × (0 < length spare.old.items) }
    ensures empty { result ≡ [] }
    ensures others { AreEmpty spare.new.items × (length spare.new.items + 1 ≡ length spare.old.items) }
    ensures capacity { vec_capacity spare.new ≡ vec_capacity spare.old }
{
    match spare.pop() {
        Some(leaf) => leaf,
        None => unreachable!(),
    }
}

/// Makes sure that there is a spare leaf: if there is none, joins two neighbours that fit one.
pub(crate) fn reclaim<K: Ranked, V: Copy>(leaves: &mut Vec<Leaf<K, V>>, spare: &mut Vec<Leaf<K, V>>)
    requires kept { IsKept leaves.old.items spare.old.items }
    requires room { HaveRoom leaves.old spare.old }
    requires enough { 2 * length (all_of leaves.old.items) + 128 < 128 * (length leaves.old.items + length spare.old.items) }
    ensures kept { IsKept leaves.new.items spare.new.items }
    ensures same { all_of leaves.new.items ≡ all_of leaves.old.items }
    ensures some { 0 < length spare.new.items }
    ensures total { length leaves.new.items + length spare.new.items ≡ length leaves.old.items + length spare.old.items }
    ensures capacity { (vec_capacity leaves.new ≡ vec_capacity leaves.old) × (vec_capacity spare.new ≡ vec_capacity spare.old) }
{
    if !spare.is_empty() {
        return;
    }
    match pair_that_fits(leaves) {
        Some(at) => {
            let empty = join(leaves, at);
            spare.push_reserved(empty);
        }
        None => unreachable!(),
    }
}

/// Makes sure that the leaf where a key belongs has room, and returns its number.
pub(crate) fn make_room<K: Ranked, V: Copy>(
    leaves: &mut Vec<Leaf<K, V>>,
    spare: &mut Vec<Leaf<K, V>>,
    key: K,
) -> usize
    requires kept { IsKept leaves.old.items spare.old.items }
    requires room { HaveRoom leaves.old spare.old }
    requires some { 0 < length spare.old.items }
    ensures ready { IsReady leaves.old.items leaves.new.items (K.rank key) result }
    ensures empty { AreEmpty spare.new.items }
    ensures total { length leaves.new.items + length spare.new.items ≡ length leaves.old.items + length spare.old.items }
    ensures capacity { (vec_capacity leaves.new ≡ vec_capacity leaves.old) × (vec_capacity spare.new ≡ vec_capacity spare.old) }
{
    if leaves.is_empty() {
        leaves.push_reserved(taken(spare));
        return 0;
    }
    let at = leaf_of(leaves, key);
    if leaves[at].len() < LEAF_SIZE {
        return at;
    }
    split(leaves, at, taken(spare));
    if leaves[at + 1].entry(0).is_after(key) {
        return at;
    }
    at + 1
}

/// Takes the entry of a key out of its leaf.
pub(crate) fn take_out<K: Ranked, V: Copy>(leaves: &mut Vec<Leaf<K, V>>, at: usize, key: K)
    requires { (at < length leaves.old.items) × AreRising (get_or leaves.old.items at []) × (length (below (K.rank key) (get_or leaves.old.items at [])) < length (get_or leaves.old.items at [])) }
    ensures items { let leaf = get_or leaves.old.items at [] in leaves.new.items ≡ slice_set leaves.old.items at (remove leaf (length (below (K.rank key) leaf))) }
    ensures capacity { vec_capacity leaves.new ≡ vec_capacity leaves.old }
{
    let leaf = &mut leaves[at];
    let place = leaf.place_of(key);
    leaf.remove(place);
}

/// Moves a leaf to the spare ones if it is empty.
pub(crate) fn release_empty<K: Ranked, V: Copy>(
    leaves: &mut Vec<Leaf<K, V>>,
    spare: &mut Vec<Leaf<K, V>>,
    at: usize,
)
    requires within { at < length leaves.old.items }
    requires filled { AreFilled (take at leaves.old.items) × AreFilled (drop (suc at) leaves.old.items) }
    requires empty { AreEmpty spare.old.items }
    requires room { HaveRoom leaves.old spare.old }
    ensures filled { AreFilled leaves.new.items }
    ensures empty { AreEmpty spare.new.items }
    ensures same { all_of leaves.new.items ≡ all_of leaves.old.items }
    ensures total { length leaves.new.items + length spare.new.items ≡ length leaves.old.items + length spare.old.items }
    ensures capacity { (vec_capacity leaves.new ≡ vec_capacity leaves.old) × (vec_capacity spare.new ≡ vec_capacity spare.old) }
{
    if leaves[at].len() > 0 {
        return;
    }
    let leaf = leaves.remove(at);
    spare.push_reserved(leaf);
}
