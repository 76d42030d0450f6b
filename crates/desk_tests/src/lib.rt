//! The tests of `station_ledger`, `site_book`, `site_desk`, `board_report`, `station_link` and `script_replay` that need a
//! call: readers and writers that fail, threads, memory that runs out. `tests/compare.sh` compares what a script writes,
//! row by row; `tests/scenes/serving.py` and `living.py` test whole servers, `journalling.py` those with a journal.
#![tactic(auto)]

#[cfg(test)]
mod tests;
