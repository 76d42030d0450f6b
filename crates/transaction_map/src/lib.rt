//! Values by transaction id, in one sorted run.
//!
//! A run has room for as many transactions as [`TransactionMap::open`] reserved; a look-up among 4,096
//! is twelve comparisons of ids. Only `open` asks the allocator.
//!
//! The crate's contract: a map is a list of ids by rising id, each with a value.
//! [`TransactionMap::get`] finds a value, [`TransactionMap::put`] writes or adds it, and
//! [`TransactionMap::remove`] takes it out; all else stays the same. After [`TransactionMap::seek`]
//! these calls find the transaction without a search.
//!
//! ```text
//! let mut map = TransactionMap::open(rt.alloc(), 4)?;
//! map.put(&tx, 7);
//! // map.get(&tx) is Some(7)
//! map.put(&tx, 8);
//! // map.remove(&tx) is Some(8), and map.len() is 0
//! ```
#![tactic(auto)]

mod map;
mod named;

pub use map::TransactionMap;
// A crate can name a map in a contract only if the types of its fields are exported.
#[doc(hidden)]
pub use named::NamedValue;
