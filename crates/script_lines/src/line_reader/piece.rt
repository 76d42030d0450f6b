ghost use Rattle.std.{specs.Prelude.{◌≡◌, ℕ, ◌+◌, ◌<◌, ◌≤◌, ◌^◌, ◌++◌, List, length, take, OnOk, OnErr, OnSome}, specs.Io.KnownBytes.{Consumes, IsAtEnd}};
ghost use Rattle.script_lines.specs.Reading.{TakesPiece};

use crate::fault::ReplayFault;
use memchr::memchr;
use std::alloc::AllocError;
use std::io::BufRead;

/// The part of a line that one look at the reader gave, and whether all bytes that the reader
/// showed were consumed.
#[derive(Clone, Copy)]
pub enum Piece {
    /// The input is at its end.
    End,
    /// A byte past the limit was read.
    Beyond,
    /// This many bytes of a line that goes on.
    Part(usize, bool),
    /// This many bytes; the last is the line feed that ends the line.
    WholeLine(usize, bool),
}

/// Reads up to the next line feed, but at most `room` bytes and at most the bytes that the reader
/// shows. With no room left it reads one byte, which is `Beyond`. Keeps the first `max_line_bytes +
/// 1` bytes of the line in `held`. Faults: `ReadFault`, `OutOfMemory`.
pub fn read_piece<R: BufRead>(
    reader: &mut R,
    held: &mut Vec<u8>,
    max_line_bytes: usize,
    room: usize,
) -> Result<Piece, ReplayFault>
    requires short { max_line_bytes < 2 ^ 62 }
    requires kept { length held.old.items ≤ max_line_bytes + 1 }
    ensures takes { (bytes : List ℕ) × Consumes (R.remaining reader.old) (R.remaining reader.new) bytes
        × TakesPiece max_line_bytes room result bytes held.old.items held.new.items }
    ensures end { result ≡ Ok Piece.End → OnSome (R.remaining reader.old) (IsAtEnd (R.remaining reader.new)) }
{
    let Ok(shown) = reader.fill_buf() else {
        return Err(ReplayFault::ReadFault);
    };
    if shown.is_empty() {
        return Ok(Piece::End);
    }
    if room == 0 {
        reader.consume(1);
        return Ok(Piece::Beyond);
    }
    let near = &shown[..shown.len().min(room)];
    match memchr(b'\n', near) {
        Some(at) => {
            let is_drained = at + 1 == shown.len();
            let kept = keep(held, &near[..at], max_line_bytes);
            reader.consume(at + 1);
            piece_where_kept(kept, Piece::WholeLine(at + 1, is_drained))
        }
        None => {
            let count = near.len();
            let is_drained = count == shown.len();
            let kept = keep(held, near, max_line_bytes);
            reader.consume(count);
            piece_where_kept(kept, Piece::Part(count, is_drained))
        }
    }
}

// The piece, if there was memory for its bytes.
fn piece_where_kept(kept: Result<(), AllocError>, piece: Piece) -> Result<Piece, ReplayFault>
    ensures ok { OnOk kept (result ≡ Ok piece) }
    ensures err { OnErr kept (result ≡ Err ReplayFault.OutOfMemory) }
{
    match kept {
        Ok(()) => Ok(piece),
        Err(_) => Err(ReplayFault::OutOfMemory),
    }
}

// Appends the bytes that `held` still has room for, up to `max_line_bytes + 1` bytes.
fn keep(held: &mut Vec<u8>, bytes: &[u8], max_line_bytes: usize) -> Result<(), AllocError>
    requires short { max_line_bytes < 2 ^ 62 }
    requires kept { length held.old.items ≤ max_line_bytes + 1 }
    ensures { OnOk result (held.new.items ≡ take (max_line_bytes + 1) (held.old.items ++ bytes.now)) }
{
    let free = max_line_bytes + 1 - held.len();
    held.extend_from_slice(&bytes[..bytes.len().min(free)])
}
