//! A station's text, and what it asks for.
ghost use Rattle.std.specs.Prelude.{◌≡◌, ◌≢◌, ◌≤◌, ℕ, false, length};
ghost use Rattle.transaction_event.specs.MessageMeaning.{IsMeaningOf, IsMeaningOfFrame, IsMemoryTold, IsMemoryToldOfFrame, HasShortId, IsOutOfMemory, with_reply};
ghost use Rattle.ocppj_frame.{specs.Ranges.longest_message, specs.Frame.Called, specs.Call.{id_of, action_of, payload_of}, specs.declared.action.Action.TheVariants.TransactionEvent};

use crate::delivery::Delivery;
use crate::reply::fault_reply;
use crate::request::event_of;
use arrayvec::ArrayString;
use ledger_model::{Event, Key, Moment};
use ocppj_frame::{Action, Body, Call, Framed, read_frame_into, result_text};
use reading_decimal::moment_text;
use std::alloc::Global;

/// What a station's text asks for.
#[derive(Drop)]
pub enum Message {
    /// An event to deliver. [`event_reply`](crate::event_reply) makes its reply from the ledger's
    /// answer.
    Event {
        /// The id of the call, of at most 36 characters.
        id: ArrayString<144>,
        /// The event's key.
        key: Key,
        /// The event with its counted readings.
        event: Event,
        /// Whether the request had an `idToken`.
        token: bool,
    },
    /// A ready reply.
    Reply {
        /// The reply.
        text: ArrayString<512>,
        /// Whether it reports OutOfMemory.
        memory: bool,
    },
    /// An answer of the station, which gets no reply.
    Silent,
}

/// As [`Message`], but the text of a ready reply is in the caller's buffer, so the value is smaller.
#[derive(Drop)]
pub enum Asked {
    /// An event to deliver.
    Event(Delivery),
    /// A ready reply; its text is in the caller's buffer.
    Reply {
        /// Whether it reports OutOfMemory.
        memory: bool,
    },
    /// An answer of the station, which gets no reply.
    Silent,
}

fn kept_id(call: &Call) -> ArrayString<144>
    ensures { result.bytes ≡ id_of call.now }
{
    let mut id = ArrayString::new();
    id.push_str(call.id());
    id
}

// What the call of a TransactionEventRequest means.
fn event_asked(alloc: Global, call: &Call, reply: &mut ArrayString<512>) -> Asked
    ensures meaning { (now : ℕ) → IsMeaningOfFrame now (Called (id_of call.now) TransactionEvent (payload_of call.now)) (with_reply result reply.new) }
    ensures memory { IsMemoryToldOfFrame (Called (id_of call.now) TransactionEvent (payload_of call.now)) (with_reply result reply.new) }
    ensures short { HasShortId (with_reply result reply.new) }
{
    let (key, event, token) = match event_of(alloc, call.payload()) {
        Ok(asked) => asked,
        Err(fault) => {
            *reply = fault_reply(call.id(), fault);
            return Asked::Reply {
                memory: fault.is_out_of_memory(),
            };
        }
    };
    Asked::Event(Delivery {
        id: kept_id(call),
        key,
        event,
        token,
    })
}

// The reply to a call of another action.
fn other_reply(call: &Call, now: Moment) -> ArrayString<512>
    requires { action_of call.now ≢ TransactionEvent }
    ensures meaning { IsMeaningOfFrame now (Called (id_of call.now) (action_of call.now) (payload_of call.now)) (Message.Reply result false) }
    ensures memory { IsMemoryToldOfFrame (Called (id_of call.now) (action_of call.now) (payload_of call.now)) (Message.Reply result false) }
{
    let id = call.id();
    match call.action() {
        Action::BootNotification => result_text(id, Body::Boot(moment_text(now))),
        Action::Heartbeat => result_text(id, Body::Now(moment_text(now))),
        Action::StatusNotification | Action::MeterValues => result_text(id, Body::Empty),
        Action::TransactionEvent => unreachable!(),
    }
}

/// What a station's text means at a moment. Memory can run out only while a text of at most 262,144 bytes
/// is read as JSON, or at a counted reading of a payload, after all checks before it passed.
pub fn message_of(alloc: Global, text: &str, now: Moment) -> Message
    ensures meaning { IsMeaningOf text.now now result }
    ensures memory { IsMemoryTold text.now result }
    ensures while_reading { IsOutOfMemory result → length text.now ≤ longest_message }
    ensures short { HasShortId result }
{
    let mut reply = ArrayString::new();
    match read_message(alloc, text, now, &mut reply) {
        Asked::Event(
            Delivery {
                id,
                key,
                event,
                token,
            },
        ) => Message::Event {
            id,
            key,
            event,
            token,
        },
        Asked::Reply { memory } => Message::Reply {
            text: reply,
            memory,
        },
        Asked::Silent => Message::Silent,
    }
}

/// Reads a text as [`message_of`] does. It puts the text of a ready reply into `reply`, in place of what was there;
/// after any other result, what `reply` has means nothing.
pub fn read_message(alloc: Global, text: &str, now: Moment, reply: &mut ArrayString<512>) -> Asked
    ensures meaning { IsMeaningOf text.now now (with_reply result reply.new) }
    ensures memory { IsMemoryTold text.now (with_reply result reply.new) }
    ensures while_reading { IsOutOfMemory (with_reply result reply.new) → length text.now ≤ longest_message }
    ensures short { HasShortId (with_reply result reply.new) }
{
    let call = match read_frame_into(alloc, text, reply) {
        Framed::Call(call) => call,
        Framed::Silent => return Asked::Silent,
        Framed::Reply { memory } => return Asked::Reply { memory },
    };
    if let Action::TransactionEvent = call.action() {
        return event_asked(alloc, &call, reply);
    }
    *reply = other_reply(&call, now);
    Asked::Reply { memory: false }
}
