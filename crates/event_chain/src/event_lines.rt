//! The events of a transaction, live and voided, in a list.
ghost use Rattle.std.specs.Prelude.{◌≡◌, ℕ, IfOk, Some, map};
ghost use Rattle.slot_arena.specs.Arena.{IsHeld};
ghost use Rattle.event_chain.{specs.EventLines.line_at, specs.Flat.{place_of, segment}};
ghost use Rattle.key_index.specs.Entries.{AreRising};

use crate::look_ups::{first_place, place_behind};
use crate::marked_places::MarkedPlaces;
use event_store::EventStore;
use key_index::IndexKey;
use ledger_model::{EvseId, Kind, Moment};
use std::alloc::{AllocError, Global};

/// An event of a transaction, as a list of the transaction's events shows it.
#[derive(Clone, Copy)]
pub struct EventLine {
    /// Its sequence number, 0 to 2,147,483,647.
    pub number: u32,
    /// Whether it is Started, Updated or Ended.
    pub kind: Kind,
    /// Its moment, by its station's clock.
    pub moment: Moment,
    /// The EVSE that it names, else 0.
    pub evse: EvseId,
    /// How many counted readings it has, at most 1,024.
    pub readings: usize,
    /// Whether it is voided.
    pub voided: bool,
}

// The line of the event of a key and a slot.
fn line_of(store: &EventStore, key: IndexKey, slot: u32) -> EventLine
    requires { IsHeld store.now.slots slot }
    ensures { result ≡ line_at store.now.slots (key, slot) }
{
    let event = store.get(slot);
    EventLine {
        number: key.number(),
        kind: event.kind(),
        moment: event.moment(),
        evse: event.evse().unwrap_or(EvseId::unnamed()),
        readings: event.reading_count(),
        voided: event.is_voided(),
    }
}

// The lines of the events under the transaction of a slot, by rising number.
pub(crate) fn lines_under(
    alloc: Global,
    stored: &MarkedPlaces<'_>,
    store: &EventStore,
    slot: u32,
) -> Result<Vec<EventLine>, AllocError>
    requires rising { AreRising stored.now.entries }
    requires held { (r s : ℕ) → place_of r stored.now.entries ≡ Some s → IsHeld store.now.slots s }
    ensures { IfOk result (λ lines. lines.items ≡ map (line_at store.now.slots) (segment slot stored.now.entries)) }
{
    let mut lines = Vec::new(alloc);
    let mut place = first_place(stored, slot);
    while let Some(at) = place {
        let (key, event) = at;
        lines.push(line_of(store, key, event))?;
        place = place_behind(stored, key);
    }
    Ok(lines)
}
