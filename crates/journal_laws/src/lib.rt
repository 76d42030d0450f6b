//! Laws of journals that are restored.
//!
//! A server writes its journal line by line, and a kill or a power cut can leave a part of a line. To restore it, a `#`
//! and a line feed are put behind it. The laws here say that such a journal is one
//! that [`restore`](journal_script::restore) takes.
//!
//! The crate's contract: each function has no parameters and does nothing. What it ensures holds for all journals. No
//! crate needs these functions to run.
#![tactic(auto)]

mod laws;

pub use laws::{cut_journals_restore, heads_are_kept};
