//! The lines of a journal.
ghost use Rattle.std.{specs.Prelude.{◌≡◌, ◌↔◌, ◌≤◌, ◌-◌, true, length, IsTrue, IfOk, OnOk}, specs.Io.BufRead.strip_last};
ghost use Rattle.ledger_model.{specs.declared.command.Command.TheVariants.Deliver, specs.Name.is_name};
ghost use Rattle.script_lines.{specs.LineMeaning.line_meaning, specs.Lines.{HasNoFeed, line_bytes}, specs.Ranges.longest_line};
ghost use Rattle.kept_desk.{specs.Entries.message_text, specs.Speaking.{AsksFor, Says}};
ghost use Rattle.journal_script.specs.Speaking.{SpeaksFor};

use kept_desk::Line;
use ledger_model::{Event, Key, Moment, Name};
use memchr::memchr;
use script_lines::{MAX_LINE_BYTES, ScriptLine, read_line, without_return};
use std::alloc::{AllocError, Global};
use transaction_event::{Message, message_of};

/// The line of a station's message in a journal.
#[derive(Drop)]
pub enum MessageLine {
    /// The text is one line that is not too long, and is in the journal as it is.
    AsItIs,
    /// This line: line feeds and carriage returns between the tokens of the text are spaces in it.
    Spaced(Vec<u8>),
    /// No line asks for the same delivery as the message.
    Unspoken,
}

impl MessageLine {
    ghost use Rattle.std.specs.Prelude.{◌≡◌, IfOk, IfSome, IsTrue, option_map};
    ghost use Rattle.ledger_model.{specs.declared.command.Command.Command, specs.declared.command.Command.TheVariants.Deliver};
    ghost use Rattle.kept_desk.{specs.Entries.bytes_of, specs.Speaking.{AsksFor, Speaks}};
    ghost use Rattle.journal_script.specs.Speaking.{SpeaksFor, StandsAsItIs, spoken_line};

    /// The line of this text of a station. Memory is taken only if the text is not in the journal as it is.
    ///
    /// Condition: the text asks for this delivery.
    pub fn of(
        alloc: Global,
        name: &Name,
        text: &str,
        key: &Key,
        event: &Event,
    ) -> Result<Self, AllocError>
        requires { AsksFor text.now (Deliver key.now event.now) }
        ensures speaks { IfOk result (SpeaksFor name.now text.now (Deliver key.now event.now)) }
        ensures as_it_is { IfOk result (λ line. StandsAsItIs name.now text.now → line ≡ MessageLine.AsItIs) }
    {
        if stands_as_it_is(name, text) {
            return Ok(MessageLine::AsItIs);
        }
        spaced_line(alloc, name, text, key, event)
    }

    /// The line as a journal takes it, if there is one. The name and the text are those that it was made for.
    pub fn spoken<'a>(&'a self, name: &'a Name, text: &'a str) -> Option<Line<'a>>
        ensures line { option_map bytes_of result ≡ spoken_line name.now text.now self.now }
        ensures speaks { (command : Command) → SpeaksFor name.now text.now command self.now → IfSome result (λ line. Speaks name.now (bytes_of line) command) }
    {
        match self {
            MessageLine::AsItIs => Some(Line::Message(name, text)),
            MessageLine::Spaced(line) => Some(Line::Bytes(line.as_slice())),
            MessageLine::Unspoken => None,
        }
    }
}

// How many bytes a message's line has besides a name and a text.
const FRAME_BYTES: usize = 5;

// Returns whether the message's line is a line of a script as it is: at most `MAX_LINE_BYTES`, without a line feed and
// with no carriage return at its end.
fn stands_as_it_is(name: &Name, text: &str) -> bool
    ensures named { is_name name.now ≡ true }
    ensures feedless { IsTrue result → HasNoFeed text.now }
    ensures bare { IsTrue result → strip_last 13 text.now ≡ text.now }
    ensures short { IsTrue result → length text.now ≤ longest_line - 5 - length name.now }
    ensures all { HasNoFeed text.now → strip_last 13 text.now ≡ text.now → length text.now ≤ longest_line - 5 - length name.now → IsTrue result }
{
    let bytes = text.as_bytes();
    let most = (MAX_LINE_BYTES - FRAME_BYTES).saturating_sub(name.text().len());
    bytes.len() <= most && is_bare(bytes) && is_line(bytes)
}

// The line of a text that is not in the journal as it is. No law says that a text with spaces for line feeds asks for
// the same, so such a line is read.
fn spaced_line(
    alloc: Global,
    name: &Name,
    text: &str,
    key: &Key,
    event: &Event,
) -> Result<MessageLine, AllocError>
    ensures { IfOk result (SpeaksFor name.now text.now (Deliver key.now event.now)) }
{
    let mut line = Vec::new(alloc);
    put_message(&mut line, name, text)?;
    put_spaces(&mut line);
    if is_script_line(&line) && is_delivery(alloc, Some(&line), name, key, event) {
        Ok(MessageLine::Spaced(line))
    } else {
        Ok(MessageLine::Unspoken)
    }
}

// Makes the line `msg <name> <text>`.
fn put_message(line: &mut Vec<u8>, name: &Name, text: &str) -> Result<(), AllocError>
    ensures named { is_name name.now ≡ true }
    ensures text { OnOk result (line.new.items ≡ message_text name.now text.now) }
{
    let station = name.text();
    line.clear();
    line.extend_from_slice(b"msg ")?;
    line.extend_from_slice(station.as_bytes())?;
    line.push(b' ')?;
    line.extend_from_slice(text.as_bytes())
}

// Puts a space in the place of each line feed and carriage return.
fn put_spaces(line: &mut Vec<u8>) {
    for byte in line.iter_mut() {
        if *byte == b'\n' || *byte == b'\r' {
            *byte = b' ';
        }
    }
}

/// Returns whether the bytes are one line of a script as they are: at most [`MAX_LINE_BYTES`],
/// without a line feed and with no carriage return at their end.
pub fn is_script_line(line: &[u8]) -> bool
    ensures feedless { IsTrue result → HasNoFeed line.now }
    ensures bare { IsTrue result → strip_last 13 line.now ≡ line.now }
    ensures short { IsTrue result → length line.now ≤ longest_line }
    ensures all { HasNoFeed line.now → strip_last 13 line.now ≡ line.now → length line.now ≤ longest_line → IsTrue result }
{
    line.len() <= MAX_LINE_BYTES && is_bare(line) && is_line(line)
}

// Returns whether no byte is a line feed.
fn is_line(bytes: &[u8]) -> bool
    ensures { IsTrue result ↔ HasNoFeed bytes.now }
{
    memchr(b'\n', bytes).is_none()
}

// Returns whether no carriage return ends the bytes.
fn is_bare(line: &[u8]) -> bool
    ensures { IsTrue result ↔ (strip_last 13 line.now ≡ line.now) }
{
    without_return(line).len() == line.len()
}

// Returns whether the line asks for this delivery by a message of this station.
fn is_delivery(alloc: Global, line: Option<&[u8]>, name: &Name, key: &Key, event: &Event) -> bool
    ensures { IsTrue result → Says (line_meaning (line_bytes line.entry)) name.now (Deliver key.now event.now) }
{
    match &read_line(line) {
        ScriptLine::Sends(to, said) => is_same_name(to, name) && asks(alloc, said, key, event),
        _ => false,
    }
}

fn is_same_name(to: &Name, name: &Name) -> bool
    ensures { IsTrue result → to.now ≡ name.now }
{
    *to == *name
}

// Returns whether the text asks for this delivery.
fn asks(alloc: Global, text: &str, key: &Key, event: &Event) -> bool
    ensures { IsTrue result → AsksFor text.now (Deliver key.now event.now) }
{
    match message_of(alloc, text, Moment::first()) {
        Message::Event {
            id: _,
            key: other,
            event: content,
            token: _,
        } => is_same_event(&other, &content, key, event),
        Message::Reply { .. } | Message::Silent => false,
    }
}

// Returns whether both keys are the same, and both events.
fn is_same_event(other: &Key, content: &Event, key: &Key, event: &Event) -> bool
    ensures { IsTrue result → (other.now ≡ key.now) × (content.now ≡ event.now) }
{
    *other == *key && content.is_same(event)
}
