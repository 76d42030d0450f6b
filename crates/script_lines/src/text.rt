ghost use Rattle.std.specs.Prelude.{◌≡◌, ◌++◌, OnOk};
ghost use Rattle.script_lines.specs.Texts.{answer_text, delivered_line, ended_line, fault_line, reply_line};

use crate::script_line::LineFault;
use itoa::Buffer;
use ledger_model::Answer;
use std::alloc::AllocError;

/// Appends a text and a line feed. The error says that the allocator refused memory.
pub fn put_line(reply: &mut Vec<u8>, text: &str) -> Result<(), AllocError>
    ensures { OnOk result (reply.new.items ≡ reply.old.items ++ ended_line text.now) }
{
    reply.extend_from_slice(text.as_bytes())?;
    reply.push(b'\n')?;
    Ok(())
}

/// Appends `fault <name>` and a line feed. The error says that the allocator refused memory.
pub fn put_fault(reply: &mut Vec<u8>, fault: LineFault) -> Result<(), AllocError>
    ensures { OnOk result (reply.new.items ≡ reply.old.items ++ fault_line fault) }
{
    reply.extend_from_slice(b"fault ")?;
    reply.extend_from_slice(fault.name().as_bytes())?;
    reply.extend_from_slice(b"\n")?;
    Ok(())
}

/// Appends `accepted <n>` or `refused <name>` and a line feed. The error says that the allocator
/// refused memory.
pub fn put_answer(reply: &mut Vec<u8>, answer: Answer) -> Result<(), AllocError>
    ensures { OnOk result (reply.new.items ≡ reply.old.items ++ ended_line (answer_text answer)) }
{
    put_answer_text(reply, answer)?;
    reply.push(b'\n')?;
    Ok(())
}

/// Appends `accepted <n> <reply>`, `repeat <reply>` or `refused <name> <reply>` and a line feed. The error says that the
/// allocator refused memory.
pub fn put_delivered(reply: &mut Vec<u8>, answer: Answer, text: &str) -> Result<(), AllocError>
    ensures { OnOk result (reply.new.items ≡ reply.old.items ++ delivered_line answer text.now) }
{
    put_answer_text(reply, answer)?;
    reply.push(b' ')?;
    put_line(reply, text)
}

/// Appends `reply <reply>` and a line feed. The error says that the allocator refused memory.
pub fn put_ready(reply: &mut Vec<u8>, text: &str) -> Result<(), AllocError>
    ensures { OnOk result (reply.new.items ≡ reply.old.items ++ reply_line text.now) }
{
    reply.extend_from_slice(b"reply ")?;
    put_line(reply, text)
}

// Appends `accepted <n>`, `repeat` or `refused <name>`.
fn put_answer_text(reply: &mut Vec<u8>, answer: Answer) -> Result<(), AllocError>
    ensures { OnOk result (reply.new.items ≡ reply.old.items ++ answer_text answer) }
{
    match answer {
        Answer::Accepted(changes) => {
            reply.extend_from_slice(b"accepted ")?;
            reply.extend_from_slice(Buffer::new().format(changes).as_bytes())
        }
        Answer::Repeat => reply.extend_from_slice(b"repeat"),
        Answer::Refused(why) => {
            reply.extend_from_slice(b"refused ")?;
            reply.extend_from_slice(why.name().as_bytes())
        }
    }
}
