//! The replies to a TransactionEventRequest.
ghost use Rattle.std.{specs.Prelude.{◌≡◌, ◌≤◌, length, true}, specs.List.list_all};
ghost use Rattle.ocppj_frame.{specs.Reply.{character_count, is_letter}, specs.Ranges.longest_message_id};
ghost use Rattle.ledger_model.specs.Refusal.{refusal_name};
ghost use Rattle.transaction_event.specs.Reply as spec;

use crate::PayloadFault;
use arrayvec::ArrayString;
use ledger_model::{Answer, Refusal};
use ocppj_frame::{Body, ErrorCode, error_text, put_result};

fn fault_code(fault: PayloadFault) -> ErrorCode
    ensures { result ≡ spec.fault_code fault }
{
    match fault {
        PayloadFault::Format => ErrorCode::FormatViolation,
        PayloadFault::Missing | PayloadFault::TooManyReadings => {
            ErrorCode::OccurrenceConstraintViolation
        }
        PayloadFault::WrongType => ErrorCode::TypeConstraintViolation,
        PayloadFault::Range | PayloadFault::Decimal | PayloadFault::Moment => {
            ErrorCode::PropertyConstraintViolation
        }
        PayloadFault::OutOfMemory => ErrorCode::InternalError,
    }
}

/// The CALLERROR to a payload with a fault, without blanks; the fault's name is its description.
pub fn fault_reply(id: &str, fault: PayloadFault) -> ArrayString<512>
    requires { character_count id.now ≤ longest_message_id }
    ensures { result.bytes ≡ spec.fault_reply id.now fault }
{
    error_text(id, fault_code(fault), fault.name())
}

fn refusal_code(refusal: Refusal) -> ErrorCode
    requires { spec.refuses_delivery refusal ≡ true }
    ensures { result ≡ spec.refusal_code refusal }
{
    match refusal {
        Refusal::ConflictingEvent => ErrorCode::GenericError,
        Refusal::TooManyTransactions
        | Refusal::EventsFull
        | Refusal::ReadingsFull
        | Refusal::ChangesExhausted => ErrorCode::InternalError,
        Refusal::NoSuchEvent | Refusal::AlreadyVoided | Refusal::NotVoided => unreachable!(),
    }
}

fn name_of(refusal: Refusal) -> &'static str
    ensures name { result.now ≡ refusal_name refusal }
    ensures short { length result.now ≤ 32 }
    ensures letters { list_all is_letter result.now ≡ true }
{
    refusal.name()
}

/// The reply to an event by the answer to its delivery (OCPP 2.0.1 Part 4): a CALLRESULT if it was
/// accepted or is a repeat, with `idTokenInfo` if the request had an `idToken`; else a CALLERROR with
/// the refusal's name. The id has at most 36 characters, counted as Unicode scalar values, and the
/// answer must be one that a delivery can get.
pub fn event_reply(id: &str, token: bool, answer: &Answer) -> ArrayString<512>
    requires id { character_count id.now ≤ longest_message_id }
    requires delivery { spec.answers_delivery answer.now ≡ true }
    ensures { result.bytes ≡ spec.event_reply_bytes id.now token answer.now }
{
    let mut reply = ArrayString::new();
    put_event_reply(&mut reply, id, token, answer);
    reply
}

/// Puts the reply to an event, as [`event_reply`] gives it, into a text, in place of what was there.
pub fn put_event_reply(reply: &mut ArrayString<512>, id: &str, token: bool, answer: &Answer)
    requires id { character_count id.now ≤ longest_message_id }
    requires delivery { spec.answers_delivery answer.now ≡ true }
    ensures { reply.new.bytes ≡ spec.event_reply_bytes id.now token answer.now }
{
    if let Answer::Refused(refusal) = answer {
        *reply = error_text(id, refusal_code(*refusal), name_of(*refusal));
        return;
    }
    if token {
        put_result(reply, id, Body::TokenAccepted);
        return;
    }
    put_result(reply, id, Body::Empty);
}
