//! What may be in front of a line, and how a line is written.
ghost use Rattle.std.{specs.Prelude.{◌≡◌, ℕ, ◌↔◌, ◌++◌, List, [], ◌∷◌, IsTrue, OnOk, codes}, specs.Io.Buffered.{writer_buffer, writer_contents}, specs.Io.KnownBytes.Appends};
ghost use Rattle.kept_desk.specs.Entries.{IsComment, IsNote, bytes_of, line_text, message_text};
ghost use Rattle.script_lines.{specs.Writing.WritesFront, specs.Lines.HasNoFeed};

use crate::line::Line;
use arrayvec::ArrayString;
use ledger_model::Name;
use script_lines::{MAX_LINE_BYTES, WriteStopped, write_bytes};
use std::io::{BufWriter, Write};

/// Returns whether these bytes may be in front of a line: there are none, or they are a comment
/// line of at most [`MAX_LINE_BYTES`] with its line feed.
pub fn is_note(bytes: &[u8]) -> bool
    ensures { IsTrue result → IsNote bytes.now }
{
    bytes.is_empty() || is_comment(bytes)
}

// Returns whether these bytes are a comment line of at most `MAX_LINE_BYTES` with its line feed.
fn is_comment(bytes: &[u8]) -> bool
    ensures { IsTrue result → IsComment bytes.now }
{
    let count = bytes.len();
    if count < 2 {
        return false;
    }
    if count > MAX_LINE_BYTES + 1 {
        return false;
    }
    if bytes[0] != b'#' {
        return false;
    }
    if bytes[count - 1] != b'\n' {
        return false;
    }
    has_no_feed(&bytes[1..count - 1])
}

// Returns whether no byte is a line feed.
fn has_no_feed(bytes: &[u8]) -> bool
    ensures { IsTrue result ↔ HasNoFeed bytes.now }
{
    bytes.iter().all(|byte| *byte != b'\n')
}

// Writes the bytes in front of a line, the line and a line feed, and flushes them: nothing is left in the buffer then.
pub(crate) fn write_entry<W: Write + Drop>(
    writer: &mut BufWriter<W>,
    note: &[u8],
    line: Line<'_>,
) -> Result<(), WriteStopped>
    ensures written { (written : List ℕ) × Appends (writer_contents W.contents writer.old) (writer_contents W.contents writer.new) written
        × WritesFront result (note.now ++ line_text (bytes_of line.entry)) written }
    ensures handed_on { OnOk result (writer_buffer writer.new ≡ []) }
{
    write_bytes(writer, note)?;
    write_line(writer, line)
}

// Writes a line and a line feed, and flushes them: nothing is left in the buffer then.
fn write_line<W: Write + Drop>(
    writer: &mut BufWriter<W>,
    line: Line<'_>,
) -> Result<(), WriteStopped>
    ensures written { (written : List ℕ) × Appends (writer_contents W.contents writer.old) (writer_contents W.contents writer.new) written
        × WritesFront result (line_text (bytes_of line.entry)) written }
    ensures handed_on { OnOk result (writer_buffer writer.new ≡ []) }
{
    match line {
        Line::Bytes(bytes) => write_ended(writer, bytes),
        Line::Message(name, text) => write_message(writer, name, text),
    }
}

// The most bytes of a message's line before its text: `msg`, two spaces and a name.
const FRONT_BYTES: usize = 53;

// A message's line before its text.
fn message_front(name: &Name) -> ArrayString<FRONT_BYTES>
    ensures { result.bytes ≡ codes "msg " ++ (name.now ++ 32 ∷ []) }
{
    let mut front = ArrayString::new();
    front.push_str("msg ");
    front.push_str(name.text());
    front.push_str(" ");
    front
}

// Writes the line of a message, and flushes it.
fn write_message<W: Write + Drop>(
    writer: &mut BufWriter<W>,
    name: &Name,
    text: &str,
) -> Result<(), WriteStopped>
    ensures written { (written : List ℕ) × Appends (writer_contents W.contents writer.old) (writer_contents W.contents writer.new) written
        × WritesFront result (line_text (message_text name.now text.now)) written }
    ensures handed_on { OnOk result (writer_buffer writer.new ≡ []) }
{
    let front = message_front(name);
    write_bytes(writer, front.as_str().as_bytes())?;
    write_ended(writer, text.as_bytes())
}

// Writes these bytes and a line feed, and flushes them.
fn write_ended<W: Write + Drop>(writer: &mut BufWriter<W>, bytes: &[u8]) -> Result<(), WriteStopped>
    ensures written { (written : List ℕ) × Appends (writer_contents W.contents writer.old) (writer_contents W.contents writer.new) written
        × WritesFront result (line_text bytes.now) written }
    ensures handed_on { OnOk result (writer_buffer writer.new ≡ []) }
{
    write_bytes(writer, bytes)?;
    end_line(writer)
}

// Writes a line feed and flushes.
fn end_line<W: Write + Drop>(writer: &mut BufWriter<W>) -> Result<(), WriteStopped>
    ensures written { (written : List ℕ) × Appends (writer_contents W.contents writer.old) (writer_contents W.contents writer.new) written
        × WritesFront result (10 ∷ []) written }
    ensures handed_on { OnOk result (writer_buffer writer.new ≡ []) }
{
    write_bytes(writer, b"\n")?;
    match writer.flush() {
        Ok(()) => Ok(()),
        Err(_) => Err(WriteStopped),
    }
}
