//! The events of a station by transaction and number, live and voided, found by look-ups.
//!
//! Events and their readings are in two arenas. A sorted table has the transactions. One ordered index
//! has the places of all events; each is marked as live, as live with a reading of a direction, and as
//! live and naming an EVSE. The live events of each transaction are also a doubly linked list over
//! their slots, in order. No change asks the allocator. Each call makes a fixed number of
//! look-ups in the index and in the table, and walks over no events; if the nearest event with a mark
//! is far away, it walks over the counts of leaves.
//!
//! The crate's contract: chains are a map from keys to stored events, each live or voided, within the
//! station's limits. [`Chains::insert`] adds a live event; so does [`Chains::admit`], which also
//! returns the live readings on either side of it. [`Chains::unlink`] voids an event,
//! [`Chains::relink`] makes it live again, and [`Chains::remove`] removes a voided one.
//! [`Chains::standing`] gives a transaction's lowest and highest live number with their kinds, two
//! counts, and the EVSE; [`Chains::walk`] goes over its live numbers, one link a step.
//! [`Chains::neighbours`] gives the live readings on either side of a key, and [`Chains::events`] lists the events of a
//! transaction, which takes memory.
//!
//! [`TransactionTable`] is a type of its own below the chains. It has a station's transactions as rows by
//! rising id, each with a slot number that no other row has; the number is used again when its transaction
//! goes. A look-up among 4,096 is twelve comparisons. The list of a transaction's live events is kept only in
//! links by slot, so an event is put in and left out by its neighbours, however long the list is.
//!
//! ```text
//! let mut chains = Chains::open(rt.alloc(), &limits)?;
//! chains.insert(key, &event);     // where find(&key) is None and room_for(..) is Room::Fits
//! chains.unlink(&key);            // find(&key) is Some(Found::Voided)
//! chains.first(key.tx())          // None: no event is live
//! Gaps::over(&chains.walk(key.tx()))  // what is missing between the live numbers
//! ```
#![tactic(auto)]

mod answers;
mod around;
mod carries;
mod chains;
mod event_lines;
mod links;
mod look_ups;
mod marked_places;
mod place_index;
mod row;
mod table;
mod tx_ids;
mod tx_walk;

pub use answers::{Found, Room, TxStanding};
pub use around::{Around, Sides};
pub use carries::Carries;
pub use chains::Chains;
pub use event_lines::EventLine;
pub use row::TableRow;
pub use table::TransactionTable;
pub use tx_ids::TxIds;
pub use tx_walk::{TxPlace, TxWalk};
