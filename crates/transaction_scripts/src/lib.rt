//! Laws of one transaction in the text of a script, in the subject's own words.
//!
//! Of a script take the lines that declare its plan and its moments, and of all other lines just those that
//! belong to one transaction of one station: its messages, the operator's commands on its events, the questions
//! for its lists. They are a script, which writes for each of them what the whole script writes, but for the
//! count of changes, and ends with what the whole leaves of the transaction. What such scripts show, one for each
//! transaction, adds up to what the whole script shows: to the text of a site's board.
//!
//! The crate's contract: each function has no parameters and does nothing. What it ensures holds for the
//! lines of all scripts. No crate needs these functions to run.
#![tactic(auto)]

mod scripts;

pub use scripts::{
    boards_of_transactions, bytes_of_transactions, plans_of_transactions, scripts_of_transactions,
    totals_of_transactions,
};
