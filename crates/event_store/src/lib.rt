//! Stored events in numbered slots, each with its readings, in two arenas that are reserved once.
//!
//! An event takes one slot of the first arena, and one of the second for each of its readings. The
//! readings are a chain; the event's slot keeps where it begins and ends. Only [`EventStore::open`]
//! asks the allocator.
//!
//! The crate's contract: a store is a list with an `Option` for each slot (the key and the event that
//! it holds), and the number of readings held. [`EventStore::put`] puts an event into a free slot,
//! [`EventStore::set_voided`] marks one as voided or not, [`EventStore::take_out`] frees a slot with
//! its readings; all else stays the same. A voided event keeps its slots.
//!
//! ```text
//! let mut store = EventStore::open(rt.alloc(), 2, 9)?;
//! let slot = store.put(IndexKey::new(0, 7), &event);
//! store.get(slot).same_as(&event)     // true
//! ```
#![tactic(auto)]

mod event_ref;
mod event_slot;
mod links;
mod readings;
mod store;

pub use event_ref::EventRef;
#[doc(hidden)]
pub use event_slot::EventSlot;
#[doc(hidden)]
pub use links::ReadingLink;
#[doc(hidden)]
pub use readings::AllReadings;
pub use readings::Readings;
pub use store::EventStore;
