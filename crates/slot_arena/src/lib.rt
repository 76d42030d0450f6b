//! A fixed number of slots in one block of memory: a map of fixed size from ids to values.
//!
//! [`SlotArena::with_capacity`] asks the allocator once, and nothing else here asks it. The block
//! is cut into slots. Each free slot holds the number of the next free one, so [`SlotArena::take`]
//! and [`SlotArena::give`] follow one link each. The drop of an arena drops the values that it
//! still holds and gives the block back.
//!
//! The crate's contract: an arena is a list with an `Option` for each id. `take` puts the value at an
//! id that had none, and returns `Err` with the value exactly if no id is free. `give` takes the
//! value out again. `get_mut` changes one value. All else stays the same. An id that was given back
//! may be given out again.
//!
//! ```text
//! let mut arena = SlotArena::with_capacity(rt.alloc(), 2)?;
//! if let Ok(id) = arena.take(7) {
//!     // *arena.get(id) is 7, and arena.free() is 1
//!     let value = arena.give(id);
//!     // value is 7, and arena.free() is 2 again
//! }
//! ```
#![tactic(auto)]

mod arena;
mod block;
mod id;
mod slot;

pub use arena::{MAX_SLOTS, SlotArena};
// A crate can name an arena in a contract only if the types of its fields are exported.
#[doc(hidden)]
pub use block::{Lease, Places, Start};
pub use id::SlotId;
#[doc(hidden)]
pub use slot::Slot;
