//! Laws about one transaction among the others of its station, in the subject's own words.
//!
//! A transaction depends on its own commands alone: whatever else happens at its station, its commands get the
//! same answers, but for the count of changes, and leave the same events. Other transactions can only take the
//! room that the station's limits give. A board is the sum of the boards that its transactions have alone, and
//! so is the board of a site.
//!
//! The crate's contract: [`commands_alone`] takes the commands of one transaction out of a station's, by
//! [`belongs`]. Each other function has no parameters and does nothing: what it ensures holds for all contents,
//! all runs and all boards.
//!
//! ```text
//! commands_alone(alloc, &tx, &commands)?   // of a void of T2 and one of T1, with tx T1: the second
//! ```
#![tactic(auto)]

mod boards;
mod commands;
mod examples;
mod runs;
mod stations;
mod steps;

pub use boards::{
    board_of_a_transaction, boards_are_sums, energies_are_sums, site_boards_are_sums,
};
pub use commands::{belongs, commands_alone};
pub use examples::{examples_of_answers, examples_of_boards};
pub use runs::runs_of_a_transaction;
pub use stations::transactions_of_stations;
pub use steps::steps_of_a_transaction;
