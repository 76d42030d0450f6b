//! The tests of the decoder: `marked_json`, `ocppj_frame`, `reading_decimal` and `transaction_event`.
#![tactic(auto)]

#[cfg(test)]
mod tests;
