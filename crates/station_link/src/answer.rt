//! The answer to one text of a station.
ghost use Rattle.std.specs.Prelude.{◌≡◌, ◌≤◌, IsTrue, IfOk, OnErr, codes, length, true, option_map};
ghost use Rattle.ledger_model.specs.declared.command.Command.{Command};
ghost use Rattle.ocppj_frame.specs.Ranges.{longest_message};
ghost use Rattle.transaction_event.specs.Reply.{answers_delivery, memory_reply};
ghost use Rattle.station_link.specs.Answer.{Answers, Asks, IsGivenAt, IsNextPass, IsSubmitted, Outcomes, reply_of};

use crate::delivers::{Delivers, Ordered};
use arrayvec::ArrayString;
use ledger_model::{Answer, Moment};
use ocppj_frame::{ErrorCode, error_text};
use site_desk::{Gate, Pass};
use std::alloc::{AllocError, Global};
use std::sync::Wait;
use std::time::Clock;
use transaction_event::{Asked, Delivery, deliveries_are_answered, put_event_reply, read_message};

/// The result of one text of a station.
#[derive(Drop)]
pub struct Answered<D: Delivers> {
    /// The reply; `None` if the text gets none.
    pub text: Option<ArrayString<512>>,
    /// The desk's answer to the text's event; `None` if it has none, or if there was no memory.
    pub outcome: Option<Answer>,
    /// What the desk returned with the answer.
    pub seen: Option<D::Seen>,
    /// Whether the reply reports OutOfMemory; nothing changed then.
    pub memory: bool,
}

// The result of one text of a station, with the reply in the caller's buffer.
#[derive(Drop)]
pub(crate) struct Replied<D: Delivers> {
    // Whether it has a reply, which is then in the buffer.
    pub(crate) has_reply: bool,
    // The desk's answer to the text's event; `None` if it has none, or if there was no memory.
    pub(crate) outcome: Option<Answer>,
    // What the desk returned with the answer.
    pub(crate) seen: Option<D::Seen>,
    // Whether the reply reports OutOfMemory; nothing changed then.
    pub(crate) memory: bool,
}

// The answer to the delivery of an event, which always has a reply.
fn deliver<D: Delivers, G: Gate, R: Wait + Clock>(
    desk: &D,
    rt: &R,
    alloc: Global,
    pass: &mut Pass,
    ordered: Ordered<'_>,
    gate: &G,
) -> Result<(Answer, Option<D::Seen>), AllocError>
    requires { Asks ordered.text.now ordered.key ordered.event }
    ensures submitted { IfOk result (λ r. IsSubmitted (D.stations desk.now) pass.old (Command.Deliver ordered.entry.key ordered.entry.event) r.0 pass.new) }
    ensures given { IfOk result (λ r. IsGivenAt D.gives (D.stations desk.now) pass.old.station (Command.Deliver ordered.entry.key ordered.entry.event) r.0 r.1) }
    ensures answered { IfOk result (λ r. answers_delivery r.0 ≡ true) }
    ensures same { OnErr result (pass.new ≡ pass.old) }
    ensures next { IsNextPass pass.old pass.new }
{
    deliveries_are_answered();
    desk.deliver(rt, alloc, pass, ordered, gate)
}

// The reply that reports OutOfMemory.
fn memory_reply() -> ArrayString<512>
    ensures { result.bytes ≡ memory_reply (codes "-1") }
{
    error_text("-1", ErrorCode::InternalError, "OutOfMemory")
}

/// Answers a text of a pass's station at a moment (OCPP 2.0.1 Part 4). It delivers an event to the desk, and the
/// reply is that to the desk's answer; any other text has a ready reply or none. It may wait for the locks of
/// the station and its site. It takes memory only before the desk takes the event, so a text that finds none
/// changes nothing.
pub fn answer_text<D: Delivers, G: Gate, R: Wait + Clock>(
    desk: &D,
    rt: &R,
    alloc: Global,
    pass: &mut Pass,
    text: &str,
    now: Moment,
    gate: &G,
) -> Answered<D>
    ensures answers { Answers D.gives (D.stations desk.now) pass.old text.now now (option_map (λ t. t.bytes) result.text) pass.new result.seen result.memory }
    ensures outcome { Outcomes D.gives (D.stations desk.now) pass.old text.now now result.outcome (option_map (λ t. t.bytes) result.text) pass.new result.seen result.memory }
    ensures next { IsNextPass pass.old pass.new }
    ensures while_reading { IsTrue result.memory → length text.now ≤ longest_message }
{
    let mut reply = ArrayString::new();
    let Replied {
        has_reply,
        outcome,
        seen,
        memory,
    } = put_answer(desk, rt, alloc, pass, text, now, gate, &mut reply);
    Answered {
        text: if has_reply { Some(reply) } else { None },
        outcome,
        seen,
        memory,
    }
}

// Answers a text as `answer_text` does, and puts the reply into `reply`, in place of what was there. If the text gets
// no reply, what `reply` has means nothing.
pub(crate) fn put_answer<D: Delivers, G: Gate, R: Wait + Clock>(
    desk: &D,
    rt: &R,
    alloc: Global,
    pass: &mut Pass,
    text: &str,
    now: Moment,
    gate: &G,
    reply: &mut ArrayString<512>,
) -> Replied<D>
    ensures answers { Answers D.gives (D.stations desk.now) pass.old text.now now (reply_of result.has_reply reply.new.bytes) pass.new result.seen result.memory }
    ensures outcome { Outcomes D.gives (D.stations desk.now) pass.old text.now now result.outcome (reply_of result.has_reply reply.new.bytes) pass.new result.seen result.memory }
    ensures next { IsNextPass pass.old pass.new }
    ensures while_reading { IsTrue result.memory → length text.now ≤ longest_message }
{
    match read_message(alloc, text, now, reply) {
        Asked::Event(
            Delivery {
                id,
                key,
                event,
                token,
            },
        ) => match deliver(desk, rt, alloc, pass, Ordered { text, key, event }, gate) {
            Ok((answer, seen)) => {
                put_event_reply(reply, id.as_str(), token, &answer);
                Replied {
                    has_reply: true,
                    outcome: Some(answer),
                    seen,
                    memory: false,
                }
            }
            Err(_) => {
                *reply = memory_reply();
                Replied {
                    has_reply: true,
                    outcome: None,
                    seen: None,
                    memory: true,
                }
            }
        },
        Asked::Reply { memory } => Replied {
            has_reply: true,
            outcome: None,
            seen: None,
            memory,
        },
        Asked::Silent => Replied {
            has_reply: false,
            outcome: None,
            seen: None,
            memory: false,
        },
    }
}
