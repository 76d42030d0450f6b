//! The members of a TransactionEventRequest, and what each of them says.
ghost use Rattle.std.specs.Prelude.{◌≡◌, ◌≢◌, ◌≤◌, option_map, Some, IfOk, IfErr, codes};
ghost use Rattle.marked_json.specs.Reading.{node, text_of, items_of, left_of};
ghost use Rattle.transaction_event.{specs.Steps.checked_map, specs.Member.{required, optional}, specs.Timestamp.timestamp, specs.RequestMembers.{AreFound, request_with}, specs.declared.fault.PayloadFault.TheVariants.OutOfMemory};
ghost use Rattle.transaction_event.specs.Request as spec;

use crate::PayloadFault;
use crate::integer::{required_integer, required_integer_of};
use crate::member::{
    optional_items_of, optional_object_of, required_object_of, required_text, required_text_of,
};
use crate::timestamp::NamedMoment;
use ledger_model::{EvseId, GREATEST_EVSE, Key, Kind, SEQUENCE_END, TxId};
use marked_json::{Items, Node, Wanted};

/// The members of a request that the reader looks at, all found in one walk.
#[derive(Drop)]
pub struct RequestMembers<'a> {
    request: Node<'a>,
    event_type: Option<Node<'a>>,
    timestamp: Option<Node<'a>>,
    trigger_reason: Option<Node<'a>>,
    seq_no: Option<Node<'a>>,
    transaction_info: Option<Node<'a>>,
    evse: Option<Node<'a>>,
    id_token: Option<Node<'a>>,
    meter_value: Option<Node<'a>>,
}

fn kind_named(name: &str) -> Result<Kind, PayloadFault>
    ensures value { result ≡ spec.kind_named name.now }
    ensures memory { IfErr result (λ f. f ≢ OutOfMemory) }
{
    match name {
        "Started" => Ok(Kind::Started),
        "Updated" => Ok(Kind::Updated),
        "Ended" => Ok(Kind::Ended),
        _ => Err(PayloadFault::Range),
    }
}

fn tx_named(text: &str) -> Result<TxId, PayloadFault>
    ensures value { result ≡ spec.tx_named text.now }
    ensures memory { IfErr result (λ f. f ≢ OutOfMemory) }
{
    TxId::new(text).ok_or(PayloadFault::Range)
}

fn evse_number(evse: Option<Node>) -> Result<Option<EvseId>, PayloadFault>
    ensures value { result ≡ spec.evse_number (option_map node evse.entry) }
    ensures named { IfOk result (λ evse. evse ≢ Some 0) }
    ensures memory { IfErr result (λ f. f ≢ OutOfMemory) }
{
    match evse {
        Some(evse) => {
            let number = required_integer(evse, "id", 1, i64::from(GREATEST_EVSE))?;
            Ok(EvseId::new(number.unsigned_abs() as u8))
        }
        None => Ok(None),
    }
}

impl<'a> RequestMembers<'a> {
    /// The members of a request.
    pub fn of(request: Node<'a>) -> RequestMembers<'a>
        ensures found { AreFound result }
        ensures request { request_with result ≡ node request.entry }
    {
        let mut wanted = [
            Wanted::new("eventType"),
            Wanted::new("timestamp"),
            Wanted::new("triggerReason"),
            Wanted::new("seqNo"),
            Wanted::new("transactionInfo"),
            Wanted::new("evse"),
            Wanted::new("idToken"),
            Wanted::new("meterValue"),
        ];
        request.find(&mut wanted);
        let [kind, timestamp, reason, seq, info, evse, token, values] = wanted;
        RequestMembers {
            request,
            event_type: kind.found(),
            timestamp: timestamp.found(),
            trigger_reason: reason.found(),
            seq_no: seq.found(),
            transaction_info: info.found(),
            evse: evse.found(),
            id_token: token.found(),
            meter_value: values.found(),
        }
    }

    /// The kind of the event: `eventType`. Faults: `Missing`, `WrongType`, `Range`.
    #[tactic(auto, unfolding(crate::specs::Request::kind_of))]
    pub fn kind(&self) -> Result<Kind, PayloadFault>
        requires { AreFound self.now }
        ensures value { result ≡ spec.kind_of (request_with self.now) }
        ensures memory { IfErr result (λ f. f ≢ OutOfMemory) }
    {
        kind_named(required_text_of(self.event_type)?)
    }

    /// The moment of the event: `timestamp`. Faults: `Missing`, `WrongType`, `Moment`.
    #[tactic(auto, unfolding(crate::specs::Timestamp::timestamp))]
    pub fn timestamp(&self) -> Result<NamedMoment<'a>, PayloadFault>
        requires { AreFound self.now }
        ensures value { result ≡ timestamp (request_with self.now) }
        ensures memory { IfErr result (λ f. f ≢ OutOfMemory) }
    {
        NamedMoment::of(self.timestamp)
    }

    /// Any text: `triggerReason`. Faults: `Missing`, `WrongType`.
    pub fn trigger_reason(&self) -> Result<&'a str, PayloadFault>
        requires { AreFound self.now }
        ensures value { checked_map (λ s. s.now) result
            ≡ required text_of (codes "triggerReason") (request_with self.now) }
        ensures memory { IfErr result (λ f. f ≢ OutOfMemory) }
    {
        required_text_of(self.trigger_reason)
    }

    /// The key of the event: `seqNo`, 0 to 2,147,483,647, and the `transactionId` of
    /// `transactionInfo`. Faults: `Missing`, `WrongType`, `Range`.
    #[tactic(auto, unfolding(crate::specs::Request::key_of))]
    pub fn key(&self) -> Result<Key, PayloadFault>
        requires { AreFound self.now }
        ensures value { result ≡ spec.key_of (request_with self.now) }
        ensures memory { IfErr result (λ f. f ≢ OutOfMemory) }
    {
        let seq = required_integer_of(self.seq_no, 0, i64::from(SEQUENCE_END) - 1)?;
        let info = required_object_of(self.transaction_info)?;
        let tx = tx_named(required_text(info, "transactionId")?)?;
        Ok(Key::new(tx, seq.unsigned_abs() as u32).unwrap())
    }

    /// The EVSE of the event, if it names one: `evse` with its `id`, 1 to 64. Faults: `Missing` (an
    /// `evse` without `id`), `WrongType`, `Range`.
    #[tactic(auto, unfolding(crate::specs::Request::evse_of))]
    pub fn evse(&self) -> Result<Option<EvseId>, PayloadFault>
        requires { AreFound self.now }
        ensures value { result ≡ spec.evse_of (request_with self.now) }
        ensures named { IfOk result (λ evse. evse ≢ Some 0) }
        ensures memory { IfErr result (λ f. f ≢ OutOfMemory) }
    {
        evse_number(optional_object_of(self.evse)?)
    }

    /// Whether an `idToken` is there; its members are not read. Fault: `WrongType`.
    #[tactic(auto, unfolding(crate::specs::Request::has_token))]
    pub fn has_token(&self) -> Result<bool, PayloadFault>
        requires { AreFound self.now }
        ensures value { result ≡ spec.has_token (request_with self.now) }
        ensures memory { IfErr result (λ f. f ≢ OutOfMemory) }
    {
        Ok(optional_object_of(self.id_token)?.is_some())
    }

    /// The elements of `meterValue`, if it is there. Fault: `WrongType`.
    pub fn meter_values(&self) -> Result<Option<Items<'a>>, PayloadFault>
        requires { AreFound self.now }
        ensures value { checked_map (option_map left_of) result
            ≡ optional items_of (codes "meterValue") (request_with self.now) }
        ensures memory { IfErr result (λ f. f ≢ OutOfMemory) }
    {
        optional_items_of(self.meter_value)
    }
}
