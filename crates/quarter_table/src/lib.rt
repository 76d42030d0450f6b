//! How many pairs of readings each settlement period has, and the sums of their differences in each
//! direction.
//!
//! A pair is a reading and the one that follows it in its direction; it counts for the period of the
//! later one. A period has a row exactly while it has a pair, even one of difference zero. Rows are in
//! rising order. Of the calls that a ledger's change makes, only [`QuarterTable::reserve`] takes memory. A pair of a period that has a row costs
//! one binary search, or none if that row was the last one changed. A row that comes or goes moves those
//! behind it: none if periods come in the order of time.
//!
//! A board of a site that settles evenly shares what two readings show by time ([`even_parts`]), and makes a table of these
//! parts ([`QuarterTable::try_share`]), whose rows count parts in place of pairs. Each of these calls looks once at the two
//! levels and counts it. Who knows the difference already shares it without a look ([`share_evenly`]).
//!
//! The crate's contract: after some pairs were added and others removed, in any order, the rows are
//! those of the pairs that are left, each with their number and their sum. [`laws`] says so of
//! [`QuarterTable::add`] and [`QuarterTable::remove`], and that the rows of a station's pairs are the
//! periods of its board.
//!
//! ```text
//! let mut table = QuarterTable::reserve(rt.alloc(), 1)?;
//! table.add(quarter, Direction::Import, rise);
//! table.add(quarter, Direction::Export, fall);
//! // table.rows() is one row of 2 pairs, with the rise among imports and the fall among exports
//! table.remove(quarter, Direction::Import, rise);
//! table.remove(quarter, Direction::Export, fall);
//! // table.rows() is empty
//! ```
#![tactic(auto)]

pub mod laws;
mod place;
mod row;
mod shares;
mod table;

pub use row::QuarterRow;
pub use shares::{even_parts, share_evenly};
pub use table::QuarterTable;
