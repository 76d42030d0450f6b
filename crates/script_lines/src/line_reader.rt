ghost use Rattle.std.{specs.Prelude.{◌≡◌, ℕ, ◌<◌, ◌≤◌, ◌+◌, ◌^◌, List, [], length, OnSome}, specs.Io.KnownBytes.{Keeps, Consumes, IsAtEnd}, specs.Io.BufRead.strip_last};
ghost use Rattle.script_lines.{specs.Lines.line_bytes, specs.Reading.{TakesLine, line_of}};

mod piece;

use crate::fault::ReplayFault;
use crate::line_reader::piece::{Piece, read_piece};
use std::alloc::Global;
use std::io;
use std::io::{BufRead, Write};

/// How many bytes a script's line may have before its line feed.
pub const MAX_LINE_BYTES: usize = 262_400;

/// What ended a line.
#[derive(Clone, Copy)]
pub enum LineEnd {
    /// A line feed.
    Feed,
    /// The end of the input.
    Input,
}

/// Reads a script line by line, within the limits that it was made with.
#[derive(Drop)]
pub struct LineReader {
    /// The bytes of the line under way, at most one more than a line may have.
    pub held: Vec<u8>,
    /// How many bytes a line may have.
    pub max_line_bytes: usize,
    /// How many bytes may still be read.
    pub room: usize,
    /// Whether all bytes that the reader showed were consumed, so the next look may wait for more.
    pub is_drained: bool,
}

impl LineReader {
    /// A reader of lines of at most `max_line_bytes` bytes; it reads at most `room` bytes in all. It takes no memory
    /// yet.
    pub fn open(alloc: Global, max_line_bytes: usize, room: usize) -> LineReader
        ensures held { result.held.items ≡ [] }
        ensures max_line_bytes { result.max_line_bytes ≡ max_line_bytes }
        ensures room { result.room ≡ room }
    {
        LineReader {
            held: Vec::new(alloc),
            max_line_bytes,
            room,
            is_drained: false,
        }
    }

    /// Reads one line into `held`, which keeps at most one byte more than a line may have. Faults:
    /// `ReadFault`, `OutOfMemory`, and `TooMuchInput` if a byte past `room` was read.
    pub fn next_line<R: BufRead>(&mut self, reader: &mut R) -> Result<LineEnd, ReplayFault>
        requires { self.old.max_line_bytes < 2 ^ 62 }
        ensures takes { (bytes : List ℕ) × Consumes (R.remaining reader.old) (R.remaining reader.new) bytes
            × TakesLine self.old.max_line_bytes self.old.room self.new.room result bytes self.new.held.items }
        ensures end { result ≡ Ok LineEnd.Input → OnSome (R.remaining reader.old) (IsAtEnd (R.remaining reader.new)) }
        ensures max_line_bytes { self.new.max_line_bytes ≡ self.old.max_line_bytes }
    {
        self.next_line_flushing(reader, &mut io::sink())
    }

    /// Reads one line as [`LineReader::next_line`] does. It flushes the output before it asks the reader for bytes that
    /// the reader does not show yet. A failed flush is a `WriteFault`.
    pub fn next_line_flushing<R: BufRead, W: Write>(
        &mut self,
        reader: &mut R,
        writer: &mut W,
    ) -> Result<LineEnd, ReplayFault>
        requires { self.old.max_line_bytes < 2 ^ 62 }
        ensures takes { (bytes : List ℕ) × Consumes (R.remaining reader.old) (R.remaining reader.new) bytes
            × TakesLine self.old.max_line_bytes self.old.room self.new.room result bytes self.new.held.items }
        ensures end { result ≡ Ok LineEnd.Input → OnSome (R.remaining reader.old) (IsAtEnd (R.remaining reader.new)) }
        ensures max_line_bytes { self.new.max_line_bytes ≡ self.old.max_line_bytes }
        ensures writer { Keeps (W.contents writer.old) (W.contents writer.new) }
    {
        self.held.clear();
        'pieces: loop {
            if self.is_drained && writer.flush().is_err() {
                return Err(ReplayFault::WriteFault);
            }
            match read_piece(reader, &mut self.held, self.max_line_bytes, self.room)? {
                Piece::End => return Ok(LineEnd::Input),
                Piece::Beyond => return Err(ReplayFault::TooMuchInput),
                Piece::Part(count, is_drained) => {
                    self.room -= count;
                    self.is_drained = is_drained;
                    continue 'pieces;
                }
                Piece::WholeLine(count, is_drained) => {
                    self.room -= count;
                    self.is_drained = is_drained;
                    return Ok(LineEnd::Feed);
                }
            }
        }
    }

    /// The line that was read, with this end; without its carriage return if a line feed ended it. `None` if
    /// it is too long.
    pub fn line(&self, end: LineEnd) -> Option<&[u8]>
        ensures { line_bytes result ≡ line_of end self.now.max_line_bytes self.now.held.items }
    {
        if self.held.len() > self.max_line_bytes {
            return None;
        }
        match end {
            LineEnd::Feed => Some(without_return(&self.held)),
            LineEnd::Input => Some(&self.held),
        }
    }
}

/// The bytes without one carriage return at their end, if there is one.
pub fn without_return(raw: &[u8]) -> &[u8]
    ensures is { result.now ≡ strip_last 13 raw.now }
    ensures shorter { length result.now ≤ length raw.now }
{
    match raw {
        [front @ .., b'\r'] => front,
        _ => raw,
    }
}
