//! Readings in the order of their moments.
//!
//! The readings of a transaction in one direction have one owner; a reading's [`MomentKey`] is ordered
//! by owner, then by moment, then by the sequence number of its event and its place there. So readings
//! of one moment are in the order by sequence, and the readings of an owner are next to one another.
//! Only [`ReadingIndex::open`] takes memory.
//!
//! The crate's contract: an index is a list of readings by rising rank. [`ReadingIndex::around`] finds the
//! readings of a key's owner on either side of the key, [`ReadingIndex::put`] puts a reading in at its
//! place, and [`ReadingIndex::take`] takes one out; all else stays the same.
//!
//! ```text
//! let mut index = ReadingIndex::open(rt.alloc(), 100)?;
//! let key = MomentKey::new(3, Direction::Import, reading.moment(), 7, 0);
//! index.put(key, reading);
//! // index.around(later) is (Some(..) with that reading, None) for a later key of the same owner
//! ```
#![tactic(auto)]

mod index;
mod key;
mod placed;

pub use index::ReadingIndex;
pub use key::MomentKey;
pub use placed::PlacedReading;
