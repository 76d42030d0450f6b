ghost use Rattle.std.specs.Prelude.{◌≡◌, ◌≤◌, length};
ghost use Rattle.marked_json.specs.Reading.{tree};
ghost use Rattle.ocppj_frame.{specs.Frame.{frame, frame_of, refused, elements_of}, specs.Incoming.{Reads, IsMemoryTold, IsOutOfMemory, IsCall, with_reply}, specs.Reply.memory_bytes, specs.Ranges.longest_message};

use crate::call::Call;
use crate::error_code::ErrorCode;
use crate::frame_fault::FrameFault;
use crate::message_id::{FrameId, MessageId};
use crate::reply::error_text;
use crate::verdict::{Verdict, verdict_on};
use arrayvec::ArrayString;
use marked_json::{JsonFault, Marked, read_marked};
use std::alloc::Global;

/// How many bytes the text of a message may have (this product's profile).
pub const MAX_MESSAGE: usize = 262_144;

/// What a station's text asks for.
#[derive(Drop)]
pub enum Incoming {
    /// A call, which needs a reply.
    Call(Call),
    /// An answer to a call, which gets no reply.
    Silent,
    /// A ready reply to a text that is no call of a known action.
    Reply {
        /// The reply.
        text: ArrayString<512>,
        /// Whether it reports OutOfMemory.
        memory: bool,
    },
}

/// As [`Incoming`], but the text of a ready reply is in the caller's buffer, so the value is smaller.
#[derive(Drop)]
pub enum Framed {
    /// A call, which needs a reply.
    Call(Call),
    /// An answer to a call, which gets no reply.
    Silent,
    /// A ready reply; its text is in the caller's buffer.
    Reply {
        /// Whether it reports OutOfMemory.
        memory: bool,
    },
}

/// Reads a text as an OCPP-J frame (OCPP 2.0.1 Part 4). The first check that fails decides: a text above
/// 262,144 bytes, no JSON, no frame, an answer (silence), another type, another action, a payload that
/// is no object. If memory runs out while the text is read, that is a ready reply too, with `memory`
/// set.
pub fn read_frame(alloc: Global, text: &str) -> Incoming
    ensures meaning { Reads (frame text.now) result }
    ensures memory { IsMemoryTold result }
    ensures while_reading { IsOutOfMemory result → length text.now ≤ longest_message }
    ensures short { IsCall result → length text.now ≤ longest_message }
{
    let mut reply = ArrayString::new();
    match read_frame_into(alloc, text, &mut reply) {
        Framed::Call(call) => Incoming::Call(call),
        Framed::Silent => Incoming::Silent,
        Framed::Reply { memory } => Incoming::Reply {
            text: reply,
            memory,
        },
    }
}

/// Reads a text as [`read_frame`] does. It puts the text of a ready reply into `reply`, in place of what was there;
/// after any other result, what `reply` has means nothing.
pub fn read_frame_into(alloc: Global, text: &str, reply: &mut ArrayString<512>) -> Framed
    ensures meaning { Reads (frame text.now) (with_reply result reply.new) }
    ensures memory { IsMemoryTold (with_reply result reply.new) }
    ensures while_reading { IsOutOfMemory (with_reply result reply.new) → length text.now ≤ longest_message }
    ensures short { IsCall (with_reply result reply.new) → length text.now ≤ longest_message }
{
    if text.len() > MAX_MESSAGE {
        return refusal(None, FrameFault::TextTooLong, reply);
    }
    let marked = match read_marked(alloc, text) {
        Ok(marked) => marked,
        Err(JsonFault::OutOfMemory) => {
            *reply = memory_text();
            return Framed::Reply { memory: true };
        }
        Err(_) => return refusal(None, FrameFault::NotJson, reply),
    };
    read_tree(marked, reply)
}

// What a text asks for, after it was read.
fn read_tree(marked: Marked, reply: &mut ArrayString<512>) -> Framed
    ensures meaning { Reads (frame_of (elements_of (tree marked))) (with_reply result reply.new) }
    ensures memory { IsMemoryTold (with_reply result reply.new) }
    ensures read { ¬ IsOutOfMemory (with_reply result reply.new) }
{
    let (id, action) = match verdict_on(marked.root()) {
        Verdict::Call { id, action } => (MessageId::new(id.as_str()), action),
        Verdict::Silent => return Framed::Silent,
        Verdict::Refused { id, fault } => return refusal(id, fault, reply),
    };
    Framed::Call(Call {
        id,
        action,
        frame: marked,
    })
}

// Puts the reply that reports a fault into the text.
fn refusal(id: Option<FrameId<'_>>, fault: FrameFault, reply: &mut ArrayString<512>) -> Framed
    ensures meaning { Reads (refused id.entry fault) (with_reply result reply.new) }
    ensures memory { IsMemoryTold (with_reply result reply.new) }
    ensures ready { ¬ IsOutOfMemory (with_reply result reply.new) }
{
    let id = id.unwrap_or(FrameId::unknown());
    *reply = error_text(id.as_str(), fault.code(), fault.name());
    Framed::Reply { memory: false }
}

// The reply that reports OutOfMemory.
fn memory_text() -> ArrayString<512>
    ensures { result.bytes ≡ memory_bytes }
{
    let id = FrameId::unknown();
    error_text(id.as_str(), ErrorCode::InternalError, "OutOfMemory")
}
