//! Lines to come, cut into pieces that threads claim one by one.
ghost use Rattle.std.specs.Prelude.{◌≤◌, ◌<◌, length};

use memchr::memchr;
use std::alloc::{AllocError, Global};
use std::sync::atomic::{AtomicUsize, Ordering};

/// Whole lines, cut into pieces of whole lines. Each piece is claimed once, by whichever thread comes first.
#[derive(Drop)]
pub struct Pieces {
    /// The lines.
    pub bytes: Vec<u8>,
    // Where each piece ends.
    ends: Vec<usize>,
    // How many claims were made.
    claims: AtomicUsize,
}

impl Pieces {
    /// Cuts lines, the last of them ended by a line feed, into pieces of about `size` bytes each, or of one line if
    /// that is longer. It keeps them in the given buffer.
    ///
    /// Condition: `size` is not 0.
    pub fn cut(
        alloc: Global,
        place: Vec<u8>,
        lines: &[u8],
        size: usize,
    ) -> Result<Pieces, AllocError>
        requires { 0 < size }
    {
        let mut bytes = place;
        bytes.clear();
        bytes.extend_from_slice(lines)?;
        let mut ends = Vec::with_capacity(alloc, lines.len() / size + 1)?;
        let mut end = 0;
        while end < lines.len() {
            end = piece_end(lines, end, size);
            ends.push(end)?;
        }
        Ok(Pieces {
            bytes,
            ends,
            claims: AtomicUsize::new(0),
        })
    }

    /// The lines.
    pub(crate) fn into_bytes(self) -> Vec<u8> {
        self.bytes
    }

    /// How many pieces there are.
    pub fn count(&self) -> usize {
        self.ends.len()
    }

    /// The number of a piece that nobody had claimed; it is the caller's from then on. `None` if all are claimed.
    pub fn claim(&self) -> Option<usize> {
        let piece = self.claims.fetch_add(1, Ordering::SeqCst);
        if piece < self.ends.len() {
            Some(piece)
        } else {
            None
        }
    }

    /// Where the piece of this number begins and ends, both at the lines' end if there is no such
    /// piece.
    pub fn bounds(&self, piece: usize) -> (usize, usize)
        ensures { (result.0 ≤ result.1) × (result.1 ≤ length self.now.bytes.items) }
    {
        let end = self.end(piece);
        let begin = if piece == 0 { 0 } else { self.end(piece - 1) };
        (begin.min(end), end)
    }

    // Where a piece ends.
    fn end(&self, piece: usize) -> usize
        ensures { result ≤ length self.now.bytes.items }
    {
        match self.ends.get(piece) {
            Some(end) => (*end).min(self.bytes.len()),
            None => self.bytes.len(),
        }
    }
}

// The end of the piece that begins here.
fn piece_end(lines: &[u8], start: usize, size: usize) -> usize
    requires { (start < length lines.now) × (0 < size) }
    ensures { (start < result) × (result ≤ length lines.now) }
{
    let near = start.saturating_add(size - 1).min(lines.len() - 1);
    match memchr(b'\n', &lines[near..]) {
        Some(feed) => near + feed + 1,
        None => lines.len(),
    }
}
