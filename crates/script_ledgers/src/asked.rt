//! The answer to a question for what a text asks for.
ghost use Rattle.std.specs.Prelude.{◌≡◌, ◌++◌, OnOk};
ghost use Rattle.script_ledgers.specs.Script.{asked_line, event_line};
ghost use Rattle.transaction_event.specs.Message.{message};

use arrayvec::ArrayString;
use itoa::Buffer;
use ledger_model::{Key, Moment};
use script_lines::{put_line, put_ready};
use std::alloc::{AllocError, Global};
use transaction_event::{Asked, read_message};

/// Puts what a text asks for at a moment behind the reply: `event <transaction> <seqNo>`, `reply <reply>` or `silent`. The
/// error says that the allocator refused memory.
pub fn put_asked(
    alloc: Global,
    reply: &mut Vec<u8>,
    text: &str,
    now: Moment,
) -> Result<(), AllocError>
    ensures { OnOk result (reply.new.items ≡ reply.old.items ++ asked_line (message text.now now)) }
{
    let mut ready = ArrayString::new();
    match read_message(alloc, text, now, &mut ready) {
        Asked::Event(delivery) => put_key(reply, &delivery.key),
        Asked::Reply { memory } => {
            if memory {
                return Err(AllocError);
            }
            put_ready(reply, ready.as_str())
        }
        Asked::Silent => put_line(reply, "silent"),
    }
}

// Appends `event <transaction> <seqNo>`.
fn put_key(reply: &mut Vec<u8>, key: &Key) -> Result<(), AllocError>
    ensures { OnOk result (reply.new.items ≡ reply.old.items ++ event_line key.now) }
{
    reply.extend_from_slice(b"event ")?;
    reply.extend_from_slice(key.tx().text().as_bytes())?;
    reply.push(b' ')?;
    put_line(reply, Buffer::new().format(key.seq()))
}
