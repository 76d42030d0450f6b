//! The gaps of any walk over rising numbers.
//!
//! A [`NumberWalk`] goes over rising numbers, from place to place: the live sequence numbers of a
//! transaction, however they are kept. [`Gaps::over`] gives the ranges of missing numbers, in rising
//! order, and [`missing_count`] how many numbers are missing. A CSMS can ask a station for just these
//! messages (`seqNo` of TransactionEventRequest, OCPP 2.0.1 Part 2, block E).
//!
//! The crate's contract: over any walk the gaps are those of the definition: the maximal ranges of
//! numbers that are strictly between two of the walk's numbers and are not among them. No call takes
//! memory, and each goes over the walk at most once.
//!
//! ```text
//! let gaps = Gaps::over(&walk);   // a walk over 3, 4, 7, 9
//! for (from, to) in gaps { .. }   // (5, 6), then (8, 8)
//! missing_count(&walk)            // 3
//! ```
#![tactic(auto)]

mod gaps;
mod missing;
mod walk;

pub use gaps::Gaps;
pub use missing::missing_count;
pub use walk::NumberWalk;
