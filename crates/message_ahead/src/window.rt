//! Lines that are read ahead, by threads and by the caller.
ghost use Rattle.std.specs.Prelude.{◌<◌};

use crate::chunk::Chunk;
use crate::pieces::Pieces;
use rtrb::{Consumer, Producer, RingBuffer};
use std::alloc::{AllocError, Global};
use std::sync::Arc;

// A piece that was read.
#[derive(Drop)]
pub(crate) struct PieceRead {
    piece: usize,
    chunk: Chunk,
}

/// Lines to come, and the events read from them. A thread claims a piece before it reads it, and so does the caller: if
/// the piece that it reaches is not read yet, it reads another one that nobody has begun, and looks again.
#[derive(Drop)]
pub(crate) struct Window {
    pieces: Arc<Pieces, Global>,
    // How many bytes may still be read where its lines begin.
    room: usize,
    // The pieces that the threads have read; each thread has a ring of its own.
    rings: Vec<Consumer<PieceRead>>,
    // The chunks that were read and not reached yet, by piece.
    chunks: Vec<Option<Chunk>>,
    // The piece under way.
    at: usize,
    // Whether the caller claimed its lines and reads them as they come.
    is_own: bool,
}

/// What a thread of a window works on.
#[derive(Drop)]
pub(crate) struct Work {
    pieces: Arc<Pieces, Global>,
    room: usize,
    ring: Producer<PieceRead>,
}

impl Window {
    /// These lines, in pieces of about `size` bytes; `room` bytes may still be read before the first line. They are
    /// kept in the given buffer.
    pub(crate) fn open(
        alloc: Global,
        place: Vec<u8>,
        lines: &[u8],
        size: usize,
        room: usize,
    ) -> Result<Window, AllocError>
        requires { 0 < size }
    {
        let pieces = Pieces::cut(alloc, place, lines, size)?;
        let mut chunks = Vec::with_capacity(alloc, pieces.count())?;
        for _ in 0..pieces.count() {
            chunks.push(None)?;
        }
        Ok(Window {
            pieces: Arc::new(alloc, pieces)?,
            room,
            rings: Vec::new(alloc),
            chunks,
            at: 0,
            is_own: false,
        })
    }

    /// The buffer of its lines, if no thread reads them any more.
    pub(crate) fn into_place(self) -> Option<Vec<u8>> {
        let Window {
            pieces,
            rings,
            chunks,
            ..
        } = self;
        // The rings hold what was read of these lines.
        drop(rings);
        drop(chunks);
        match Arc::into_inner(pieces) {
            Some(pieces) => Some(pieces.into_bytes()),
            None => None,
        }
    }

    /// The work for one more thread.
    pub(crate) fn work(&mut self, alloc: Global) -> Result<Work, AllocError> {
        let pieces = Arc::try_clone(&self.pieces)?;
        let (ring, own) = RingBuffer::new(alloc, self.pieces.count())?;
        self.rings.push(own)?;
        Ok(Work {
            pieces,
            room: self.room,
            ring,
        })
    }

    /// How many pieces there are.
    pub(crate) fn count(&self) -> usize {
        self.pieces.count()
    }

    /// Whether the line that begins where `room` bytes may still be read is in another piece than the one
    /// under way.
    pub(crate) fn is_passed(&self, room: usize) -> bool {
        self.pieces.bounds(self.at).1 <= self.offset(room)
    }

    /// The chunk of the piece of this line, if somebody has read it. There is none if nobody has begun the piece, or if
    /// others have begun all that are left.
    pub(crate) fn reach(&mut self, alloc: Global, room: usize) -> Option<Chunk> {
        self.pass(room);
        for _ in 0..self.pieces.count() {
            if let Some(chunk) = self.arrived() {
                return Some(chunk);
            }
            match self.pieces.claim() {
                Some(piece) => {
                    if piece == self.at {
                        self.is_own = true;
                        return None;
                    }
                    self.read(alloc, piece);
                }
                None => return None,
            }
        }
        None
    }

    /// The chunk of the piece under way, if it came since.
    pub(crate) fn arrived(&mut self) -> Option<Chunk> {
        if self.is_own {
            return None;
        }
        self.collect();
        match self.chunks.get_mut(self.at) {
            Some(chunk) => chunk.take(),
            None => None,
        }
    }

    // Goes on to the piece of this line.
    fn pass(&mut self, room: usize) {
        for at in self.at..self.pieces.count() {
            if !self.is_passed(room) {
                return;
            }
            self.at = at + 1;
            self.is_own = false;
        }
    }

    // Reads a piece, as a thread would.
    fn read(&mut self, alloc: Global, piece: usize) {
        if let Ok(pieces) = Arc::try_clone(&self.pieces) {
            let chunk = Chunk::read(alloc, pieces, piece, self.room);
            self.put(PieceRead { piece, chunk });
        }
    }

    // Takes the chunks that threads have read.
    fn collect(&mut self) {
        for ring in self.rings.iter_mut() {
            for _ in 0..self.pieces.count() {
                match ring.pop() {
                    Ok(read) => put(&mut self.chunks, read),
                    Err(_) => break,
                }
            }
        }
    }

    fn put(&mut self, read: PieceRead) {
        put(&mut self.chunks, read);
    }

    // How many bytes of its lines are in front of the line.
    fn offset(&self, room: usize) -> usize {
        self.room.saturating_sub(room)
    }
}

// Keeps a chunk at the place of its piece.
fn put(chunks: &mut [Option<Chunk>], read: PieceRead) {
    let PieceRead { piece, chunk } = read;
    if let Some(place) = chunks.get_mut(piece) {
        *place = Some(chunk);
    }
}

impl Work {
    /// Reads pieces that nobody has begun, until there are none.
    pub(crate) fn run(self, alloc: Global) {
        let Work { pieces, room, ring } = self;
        let mut ring = ring;
        for _ in 0..pieces.count() {
            let (Some(piece), Ok(shared)) = (pieces.claim(), Arc::try_clone(&pieces)) else {
                return;
            };
            let chunk = Chunk::read(alloc, shared, piece, room);
            if ring.push(PieceRead { piece, chunk }).is_err() {
                return;
            }
        }
    }
}
