//! Laws about the readings of a transaction, in the subject's own words.
//!
//! A station often lists readings again: an Ended event repeats the readings of the transaction's
//! earlier events (TransactionEventRequest, OCPP 2.0.1 Part 2, block E). The definitions of the ledger
//! say what energy is; the laws here say that such repeats change no energy, what a run of readings is, and that
//! the parts of a difference add up to it by each rule of settling, even shares at each boundary.
//!
//! The crate's contract: each function has no parameters and does nothing. What it ensures holds for all
//! stored events and all readings. No crate needs these functions to run.
#![tactic(auto)]

mod parts;
mod repeats;
mod shares;
mod stretches;

pub use parts::parts_add_up;
pub use repeats::repeated_readings_change_no_sum;
pub use shares::even_shares;
pub use stretches::runs_are_maximal_stretches;
