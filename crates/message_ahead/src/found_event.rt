//! An event of a piece of lines; one vector has the readings of all events of the piece.
//! A `Delivery` has a vector of its own, which another thread than its maker would free.
ghost use Rattle.std.specs.Prelude.{◌≡◌, ◌≤◌, length, IfOk, IfSome, slice_range};
ghost use Rattle.message_ahead.specs.Ahead.{Extends, HasRange, found_delivery};

use arrayvec::ArrayString;
use ledger_model::{Event, EvseId, Key, Kind, Moment, Name, Reading};
use std::alloc::{AllocError, Global};
use transaction_event::Delivery;

/// An event that a line sends.
#[derive(Drop)]
pub struct SentEvent {
    /// The name of the station that sent it.
    pub station: Name,
    /// The delivery that the message asks for.
    pub delivery: Delivery,
}

/// An event of a line, and the places of the line and of the event's readings.
#[derive(Drop)]
pub struct FoundEvent {
    /// How many bytes may still be read where its line begins.
    pub room: usize,
    /// Where its line begins among the lines.
    pub from: usize,
    /// Where its line ends among them, before its carriage return or its line feed.
    pub to: usize,
    /// The name of the station that sent it.
    pub station: Name,
    /// The id of the call.
    pub id: ArrayString<144>,
    /// The event's key.
    pub key: Key,
    /// Whether the event is Started, Updated or Ended.
    pub kind: Kind,
    /// The moment of the event.
    pub moment: Moment,
    /// The EVSE that it names.
    pub evse: Option<EvseId>,
    /// Whether the request had an `idToken`.
    pub token: bool,
    /// Where its readings begin among those of its piece.
    pub first: usize,
    /// Where its readings end among them.
    pub end: usize,
}

impl FoundEvent {
    /// The event that the line between these places sends. Its readings are added to those of its piece.
    pub(crate) fn put(
        room: usize,
        from: usize,
        to: usize,
        sent: SentEvent,
        readings: &mut Vec<Reading>,
    ) -> Result<FoundEvent, AllocError>
        ensures places { IfOk result (λ f. (f.from ≡ from) × (f.to ≡ to)) }
        ensures station { IfOk result (λ f. f.station ≡ sent.station) }
        ensures range { IfOk result (λ f. HasRange readings.new.items f) }
        ensures delivery { IfOk result (λ f. found_delivery readings.new.items f ≡ sent.delivery) }
        ensures kept { Extends readings.old.items readings.new.items }
    {
        let SentEvent { station, delivery } = sent;
        let Delivery {
            id,
            key,
            event,
            token,
        } = delivery;
        let first = readings.len();
        readings.extend_from_slice(event.readings())?;
        Ok(FoundEvent {
            room,
            from,
            to,
            station,
            id,
            key,
            kind: event.kind(),
            moment: event.moment(),
            evse: event.evse(),
            token,
            first,
            end: readings.len(),
        })
    }

    /// The event with readings of its own; None if there was no memory for them.
    pub(crate) fn into_sent(self, alloc: Global, readings: &[Reading]) -> Option<SentEvent>
        requires { HasRange readings.now self }
        ensures { IfSome result (λ s. (s.station ≡ self.station) × (s.delivery ≡ found_delivery readings.now self)) }
    {
        let FoundEvent {
            room: _,
            from: _,
            to: _,
            station,
            id,
            key,
            kind,
            moment,
            evse,
            token,
            first,
            end,
        } = self;
        let event = event_of(alloc, kind, moment, evse, &readings[first..end])?;
        Some(SentEvent {
            station,
            delivery: Delivery {
                id,
                key,
                event,
                token,
            },
        })
    }
}

// The event of these parts, with readings of its own; None if there was no memory for them.
fn event_of(
    alloc: Global,
    kind: Kind,
    moment: Moment,
    evse: Option<EvseId>,
    readings: &[Reading],
) -> Option<Event>
    ensures { IfSome result (λ e. e ≡ record { kind = kind; moment = moment; evse = evse; readings = readings.now }) }
{
    let mut own = Vec::with_capacity(alloc, readings.len()).ok()?;
    own.extend_from_slice(readings).ok()?;
    match Event::new(kind, moment, evse, own) {
        Ok(event) => Some(event),
        Err(_) => None,
    }
}
