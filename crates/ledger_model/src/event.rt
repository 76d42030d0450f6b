ghost use Rattle.std.specs.Prelude.{◌≡◌, ◌≤◌, ◌≢◌, ◌↔◌, length, All, Some, IsTrue, IfSome, IsOk, IfOk, IfErr};
ghost use Rattle.ledger_model.{specs.Event.{IsEvent, IsEventContent, IsMeterReading}, specs.Moment.IsMoment, specs.Ranges.{greatest_evse, most_event_readings}};

use crate::{EvseId, Kind, Listed, Moment, Reading};
use std::marker::Model;

/// How many counted readings an event may have (this product's profile).
pub const MAX_EVENT_READINGS: usize = 1_024;

/// A transaction event: its kind, its moment, the EVSE that it names, and its counted readings in the
/// order sent (TransactionEventRequest, OCPP 2.0.1 Part 2, block E).
#[derive(Drop)]
pub struct Event {
    kind: Kind,
    moment: Moment,
    evse: Option<EvseId>,
    readings: Listed<Reading>,
}

impl Model for Event {
    ghost use Rattle.ledger_model.specs.Event.{EventContent, IsEventContent};

    ghost Value = { EventContent };

    ghost view = { λ e. record { kind = e.kind; moment = e.moment; evse = e.evse; readings = e.readings } };

    ghost invariant = { λ e. IsEventContent (record { kind = e.kind; moment = e.moment; evse = e.evse; readings = e.readings }) };
}

// Returns whether both lists have the same readings in the same order.
fn are_same(readings: &[Reading], others: &[Reading]) -> bool
    ensures { IsTrue result ↔ (readings.now ≡ others.now) }
{
    readings == others
}

// Returns whether the EVSE has number 0, which no event may name.
fn names_none(evse: &Option<EvseId>) -> bool
    ensures none { IsTrue result ↔ (evse.now ≡ Some 0) }
    ensures range { IfSome evse.now (λ number. number ≤ greatest_evse) }
{
    match evse {
        Some(evse) => evse.number() == 0,
        None => false,
    }
}

// Reads a moment and the parts of each reading, which are in range by their types.
fn read_parts(moment: Moment, readings: &[Reading])
    ensures moment { IsMoment moment }
    ensures readings { All IsMeterReading readings.now }
{
    for reading in readings {
        let _ = (reading.moment().nanos(), reading.level());
    }
    let _ = moment.nanos();
}

impl Event {
    /// The event of these parts. The error gives the readings back: there are more than 1,024, or the
    /// EVSE is 0.
    pub fn new(
        kind: Kind,
        moment: Moment,
        evse: Option<EvseId>,
        readings: Vec<Reading>,
    ) -> Result<Self, Vec<Reading>>
        ensures valid { IsOk result ↔ IsEvent evse readings.items }
        ensures kind { IfOk result (λ e. e.kind ≡ kind) }
        ensures moment { IfOk result (λ e. e.moment ≡ moment) }
        ensures evse { IfOk result (λ e. e.evse ≡ evse) }
        ensures readings { IfOk result (λ e. e.readings ≡ readings.items) }
        ensures given_back { IfErr result (λ back. back.items ≡ readings.items) }
    {
        if names_none(&evse) || readings.len() > MAX_EVENT_READINGS {
            return Err(readings);
        }
        read_parts(moment, &readings);
        Ok(Event {
            kind,
            moment,
            evse,
            readings: Listed::of(readings),
        })
    }

    // It is in range, as its type guarantees. The call does nothing; callers cite it for that fact.
    pub(crate) fn keeps_ranges(&self)
        ensures { IsEventContent self.now }
    {
        let _ = &self.kind;
    }

    /// Whether the event is Started, Updated or Ended.
    pub fn kind(&self) -> Kind
        ensures { result ≡ self.now.kind }
    {
        self.kind
    }

    /// The moment of the event, by its station's clock.
    pub fn moment(&self) -> Moment
        ensures value { result ≡ self.now.moment }
        ensures range { IsMoment result }
    {
        self.moment
    }

    /// The EVSE that the event names, 1 to 64, if it names one.
    pub fn evse(&self) -> Option<EvseId>
        ensures value { result ≡ self.now.evse }
        ensures named { result ≢ Some 0 }
        ensures range { IfSome result (λ number. number ≤ greatest_evse) }
    {
        self.evse
    }

    /// The counted readings, at most 1,024, in the order sent.
    pub fn readings(&self) -> &[Reading]
        ensures value { result.now ≡ self.now.readings }
        ensures few { length result.now ≤ most_event_readings }
        ensures ranges { All IsMeterReading result.now }
    {
        self.readings.as_slice()
    }

    /// The vector of the readings.
    pub fn into_readings(self) -> Vec<Reading>
        ensures { result.items ≡ self.readings }
    {
        self.readings.into_vec()
    }

    /// Returns whether both events are equal: in kind, moment, EVSE and readings.
    pub fn is_same(&self, other: &Event) -> bool
        ensures { IsTrue result ↔ (self.now ≡ other.now) }
    {
        self.kind == other.kind
            && self.moment == other.moment
            && self.evse == other.evse
            && are_same(self.readings.as_slice(), other.readings.as_slice())
    }
}
