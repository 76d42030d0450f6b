//! An ordered index from keys to values with marks. It takes all its memory when it is opened.
//!
//! A key may have any type that is [`Ranked`], as [`IndexKey`] is: a transaction's slot and a sequence number, ordered
//! by transaction first. The entries are in leaves of up to 128. A full leaf is split into a spare leaf; if none is
//! left, two neighbours that fit one are joined first, and there are always two such. So only [`KeyIndex::open`] takes
//! memory. Beside its value an entry has [`Marks`]. Each leaf counts how many of its entries have each mark, so a
//! search for the nearest marked entry skips a leaf without one.
//!
//! The crate's contract: an index is a list of entries by rising rank of their keys. [`KeyIndex::get`]
//! finds an entry, [`KeyIndex::before`] and [`KeyIndex::at_or_after`] its neighbours,
//! [`KeyIndex::before_marked`] and [`KeyIndex::at_or_after_marked`] the nearest ones with a mark, and
//! [`KeyIndex::around_marked`] both of these at once. [`KeyIndex::insert`] adds an entry in its order,
//! [`KeyIndex::set_marks`] changes an entry's marks, and [`KeyIndex::remove`] removes an entry. Most
//! calls take a [`KeyPlace`] beside the key, a hint that saves the search. [`KeyIndex::place`] gives the
//! place of a key; an old or a wrong place changes no answer.
//!
//! ```text
//! let mut index = KeyIndex::open(rt.alloc(), 100)?;
//! let key = IndexKey::new(3, 7);
//! let place = index.place(key);
//! index.insert(place, key, Filed { value: 41, marks: Marks::NONE });
//! // index.get(place, key) is Some(..) with value 41
//! // index.before(KeyPlace::UNKNOWN, IndexKey::new(3, 9)) is the same entry
//! ```
#![tactic(auto)]

mod counts;
mod entry;
mod filed;
mod index;
mod key;
mod leaf;
mod leaves;
mod place;

pub use entry::Entry;
pub use filed::{Filed, Mark, Marks};
pub use index::KeyIndex;
pub use key::{IndexKey, Ranked};
pub use place::KeyPlace;
// A crate can name an index in a contract only if the types of its fields are exported.
#[doc(hidden)]
pub use counts::Counts;
#[doc(hidden)]
pub use leaf::Leaf;
