//! The tests of the crates that a station's ledger is made of.
#![tactic(auto)]

#[cfg(test)]
mod tests;
