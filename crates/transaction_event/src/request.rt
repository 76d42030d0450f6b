//! A TransactionEventRequest, as an event of the ledger.
ghost use Rattle.std.specs.Prelude.{◌≡◌, ◌≢◌, Ok, Err, IfOk, IfErr};
ghost use Rattle.marked_json.specs.Reading.{node};
ghost use Rattle.transaction_event.{specs.Growth.{RequestGrows, PayloadGrows}, specs.RequestMembers.{AreFound, request_with}, specs.declared.fault.PayloadFault.TheVariants.OutOfMemory};
ghost use Rattle.transaction_event.specs.Request as spec;

use crate::PayloadFault;
use crate::meter::meter_values;
use crate::request_members::RequestMembers;
use ledger_model::{Event, Key};
use marked_json::Node;
use std::alloc::Global;

#[tactic(auto, unfolding(crate::specs::Request::request_of))]
fn read_event(alloc: Global, members: &RequestMembers) -> Result<(Key, Event, bool), PayloadFault>
    requires { AreFound members.now }
    ensures ok { IfOk result
        (λ r. spec.request_of (request_with members.now) ≡ Ok (record { key = r.0; event = r.1; token = r.2 })) }
    ensures err { IfErr result (λ f. f ≢ OutOfMemory → spec.request_of (request_with members.now) ≡ Err f) }
    ensures memory { IfErr result (λ f. f ≡ OutOfMemory → RequestGrows (request_with members.now)) }
{
    let kind = members.kind()?;
    let timestamp = members.timestamp()?;
    members.trigger_reason()?;
    let key = members.key()?;
    let evse = members.evse()?;
    let token = members.has_token()?;
    let readings = meter_values(alloc, members, &timestamp)?;
    let event = Event::new(kind, timestamp.moment(), evse, readings.into_vec()).unwrap();
    Ok((key, event, token))
}

/// Reads the payload of a TransactionEventRequest (OCPP 2.0.1 Part 2, block E): the event's key, the
/// event with its counted readings, and whether an `idToken` was there.
///
/// The checks come in this order, and the first fault is reported: the payload is an object;
/// `eventType`; `timestamp`; `triggerReason`; `seqNo`, 0 to 2,147,483,647; `transactionInfo` with its
/// `transactionId`; `evse` with its `id`, 1 to 64; `idToken`; `meterValue`, each element in turn, and
/// in it each sampled value. `OutOfMemory` comes only if the list of readings could not grow: at a
/// counted reading, after all checks before it passed.
pub fn event_of(alloc: Global, payload: Node) -> Result<(Key, Event, bool), PayloadFault>
    ensures ok { IfOk result
        (λ r. spec.event_reading (node payload.entry)
        ≡ Ok (record { key = r.0; event = r.1; token = r.2 })) }
    ensures err { IfErr result
        (λ f. f ≢ OutOfMemory → spec.event_reading (node payload.entry) ≡ Err f) }
    ensures memory { IfErr result (λ f. f ≡ OutOfMemory → PayloadGrows (node payload.entry)) }
{
    if !payload.is_object() {
        return Err(PayloadFault::Format);
    }
    read_event(alloc, &RequestMembers::of(payload))
}
