//! The events of a piece of lines, read by one thread.
ghost use Rattle.std.{specs.Prelude.{◌≡◌, ◌≤◌, ◌<◌, ◌-◌, ◌+◌, ℕ, [], All, length, IfOk, IfSome, IsTrue, take, drop}, specs.Arc.arc_value};
ghost use Rattle.message_ahead.specs.Ahead.{Asks, Extends, IsFound, Sends};

use crate::found_event::{FoundEvent, SentEvent};
use crate::pieces::Pieces;
use arrayvec::ArrayString;
use ledger_model::{Moment, Reading};
use memchr::memrchr;
use script_lines::{ScriptLine, read_line};
use std::alloc::{AllocError, Global};
use std::sync::Arc;
use transaction_event::{Asked, Delivery, read_message};

// About the number of bytes of a line with an event.
const USUAL_LINE: usize = 256;

/// The events that were found in a piece of lines, in two blocks: one of events, and one of all their readings.
#[derive(Drop)]
pub struct Chunk {
    alloc: Global,
    pieces: Arc<Pieces, Global>,
    // The last event first.
    found: Vec<FoundEvent>,
    readings: Vec<Reading>,
    // Whether the allocator refused memory.
    is_short: bool,
    ghost read: { All (IsFound (arc_value pieces).bytes.items readings.items) found.items },
}

impl Chunk {
    /// Reads the events of a piece of these lines; `room` bytes may still be read before the first line. If memory runs
    /// out, the chunk has the events that were found by then.
    pub fn read(alloc: Global, pieces: Arc<Pieces, Global>, piece: usize, room: usize) -> Chunk {
        let (begin, end) = pieces.bounds(piece);
        let mut found = Vec::new(alloc);
        let mut readings = Vec::new(alloc);
        let lines = (end - begin) / USUAL_LINE;
        let is_short = found.reserve(lines).is_err()
            || readings.reserve(lines).is_err()
            || find(
                alloc,
                &pieces.bytes,
                begin,
                end,
                room,
                &mut found,
                &mut readings,
            )
            .is_err();
        Chunk {
            alloc,
            pieces,
            found,
            readings,
            is_short,
        }
    }

    /// Whether the allocator refused memory while the chunk was read.
    pub fn is_short(&self) -> bool {
        self.is_short
    }

    /// The event of the line that begins where `room` bytes may still be read, if it was found and not taken, and if
    /// its line has these bytes. Events of earlier lines are dropped.
    pub fn take(&mut self, room: usize, line: &[u8]) -> Option<SentEvent>
        ensures { IfSome result (λ s. Sends line.now s.station s.delivery) }
    {
        'stale: loop {
            match self.found.last() {
                Some(next) if next.room >= room => {}
                _ => return None,
            }
            let Some(next) = self.found.pop() else {
                return None;
            };
            if next.room == room {
                return sent_by(self.alloc, &self.pieces.bytes, &self.readings, next, line);
            }
        }
    }
}

// The event that was found, if its line has these bytes.
fn sent_by(
    alloc: Global,
    bytes: &[u8],
    readings: &[Reading],
    found: FoundEvent,
    line: &[u8],
) -> Option<SentEvent>
    requires { IsFound bytes.now readings.now found }
    ensures { IfSome result (λ s. Sends line.now s.station s.delivery) }
{
    if is_line_at(bytes, found.from, found.to, line) {
        found.into_sent(alloc, readings)
    } else {
        None
    }
}

// Whether these are the bytes between these places.
fn is_line_at(bytes: &[u8], from: usize, to: usize, line: &[u8]) -> bool
    requires { (from ≤ to) × (to ≤ length bytes.now) }
    ensures { IsTrue result → take (to - from) (drop from bytes.now) ≡ line.now }
{
    &bytes[from..to] == line
}

// Finds the events of the lines between these places, the last first.
fn find(
    alloc: Global,
    bytes: &[u8],
    begin: usize,
    end: usize,
    room: usize,
    found: &mut Vec<FoundEvent>,
    readings: &mut Vec<Reading>,
) -> Result<(), AllocError>
    requires within { (begin ≤ end) × (end ≤ length bytes.now) }
    requires found { All (IsFound bytes.now readings.old.items) found.old.items }
    ensures { All (IsFound bytes.now readings.new.items) found.new.items }
{
    let mut end = end;
    'lines: while end > begin {
        let start = begin + line_start(&bytes[begin..end - 1]);
        if let Some(event) = event_of_line(alloc, bytes, start, end - 1, room, readings)? {
            found.push(event)?;
        }
        end = start;
    }
    Ok(())
}

// The place behind these bytes' last line feed, where a line begins.
fn line_start(bytes: &[u8]) -> usize
    ensures { result ≤ length bytes.now }
{
    match memrchr(b'\n', bytes) {
        Some(feed) => feed + 1,
        None => 0,
    }
}

// The event that the line from `start` to `end` sends; its line feed is at `end`.
fn event_of_line(
    alloc: Global,
    bytes: &[u8],
    start: usize,
    end: usize,
    room: usize,
    readings: &mut Vec<Reading>,
) -> Result<Option<FoundEvent>, AllocError>
    requires { (start ≤ end) × (end ≤ length bytes.now) }
    ensures found { IfOk result (λ event. IfSome event (λ f. IsFound bytes.now readings.new.items f)) }
    ensures kept { Extends readings.old.items readings.new.items }
{
    let to = line_end(bytes, start, end);
    match event_sent(alloc, &bytes[start..to])? {
        Some(sent) => {
            let room = room.saturating_sub(start);
            let event = FoundEvent::put(room, start, to, sent, readings)?;
            Ok(Some(event))
        }
        None => Ok(None),
    }
}

// The end of a line with its line feed at `end`: before its carriage return, if it has one.
fn line_end(bytes: &[u8], start: usize, end: usize) -> usize
    requires { (start ≤ end) × (end ≤ length bytes.now) }
    ensures { (start ≤ result) × (result ≤ end) }
{
    if start < end && bytes[end - 1] == b'\r' {
        end - 1
    } else {
        end
    }
}

// The event that a line sends, if it does.
fn event_sent(alloc: Global, line: &[u8]) -> Result<Option<SentEvent>, AllocError>
    ensures { IfOk result (λ event. IfSome event (λ s. Sends line.now s.station s.delivery)) }
{
    let ScriptLine::Sends(station, text) = read_line(Some(line)) else {
        return Ok(None);
    };
    match delivery_of(alloc, text)? {
        Some(delivery) => Ok(Some(SentEvent { station, delivery })),
        None => Ok(None),
    }
}

// The event that a text asks to deliver, if it does.
fn delivery_of(alloc: Global, text: &str) -> Result<Option<Delivery>, AllocError>
    ensures { IfOk result (λ event. IfSome event (λ d. Asks text.now d)) }
{
    let mut reply = ArrayString::new();
    // An event means the same at any moment.
    match read_message(alloc, text, Moment::first(), &mut reply) {
        Asked::Event(delivery) => Ok(Some(delivery)),
        Asked::Reply { memory: true } => Err(AllocError),
        Asked::Reply { memory: false } | Asked::Silent => Ok(None),
    }
}
