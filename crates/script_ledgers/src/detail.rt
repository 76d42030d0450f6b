//! The text of a message's line: its reply, or what became of it as well.
ghost use Rattle.std.specs.Prelude.{◌≡◌, ◌++◌, OnOk, option_map};
ghost use Rattle.script_ledgers.specs.Detail.{event_text, message_text, ready_text};

use ledger_model::Answer;
use script_lines::{put_delivered, put_line, put_ready};
use std::alloc::AllocError;

/// What a line shows of a message.
#[derive(Clone, Copy)]
pub enum Detail {
    /// The reply, as `msg` does.
    Reply,
    /// What becomes of the event and then the reply, as `deliver` does.
    Outcome,
}

/// Appends the text of a line with an event that got this answer and this reply. The error says that the allocator
/// refused memory.
pub fn put_event_text(
    reply: &mut Vec<u8>,
    detail: Detail,
    answer: Answer,
    text: &str,
) -> Result<(), AllocError>
    ensures { OnOk result (reply.new.items ≡ reply.old.items ++ event_text detail answer text.now) }
{
    match detail {
        Detail::Reply => put_line(reply, text),
        Detail::Outcome => put_delivered(reply, answer, text),
    }
}

/// Appends the text of a line with a message that has this ready reply. The error says that the allocator refused
/// memory.
pub fn put_ready_text(reply: &mut Vec<u8>, detail: Detail, text: &str) -> Result<(), AllocError>
    ensures { OnOk result (reply.new.items ≡ reply.old.items ++ ready_text detail text.now) }
{
    match detail {
        Detail::Reply => put_line(reply, text),
        Detail::Outcome => put_ready(reply, text),
    }
}

/// Appends the text of a line with a message that got this reply, if any; an event got this answer. The error says that
/// the allocator refused memory.
pub fn put_message_text(
    reply: &mut Vec<u8>,
    detail: Detail,
    outcome: Option<Answer>,
    text: Option<&str>,
) -> Result<(), AllocError>
    ensures { OnOk result (reply.new.items ≡ reply.old.items ++ message_text detail outcome (option_map (λ t. t.now) text.entry)) }
{
    match (text, outcome) {
        (None, _) => put_line(reply, "silent"),
        (Some(text), None) => put_ready_text(reply, detail, text),
        (Some(text), Some(answer)) => put_event_text(reply, detail, answer, text),
    }
}
