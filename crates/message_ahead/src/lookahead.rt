//! Threads that read ahead, and the events that they found.
ghost use Rattle.std.specs.Prelude.{◌≤◌, ◌<◌, length, IfSome};
ghost use Rattle.message_ahead.specs.Ahead.{Sends};

use crate::chunk::Chunk;
use crate::found_event::SentEvent;
use crate::window::Window;
use memchr::memrchr;
use std::alloc::{AllocError, Global};
use std::sync::Arc;
use std::sync::atomic::{AtomicBool, Ordering};
use std::thread;
use std::thread::{JoinHandle, Threads};

// The most and the least bytes of lines that a piece has.
const MOST_OF_PIECE: usize = 16_384;

const LEAST_OF_PIECE: usize = 4_096;

// The least number of pieces of a window, unless its pieces are the shortest.
const PIECES: usize = 12;

// The fewest bytes of lines for which threads are started, and the fewest for which all are
// started.
const SHORTEST: usize = 16_384;

const LONG: usize = 262_144;

// How many threads read at once: at most, and in a window that is not long.
const MAX_THREADS: usize = 3;

const FEW_THREADS: usize = 2;

/// Threads that read events of lines to come, and the events that were found.
///
/// A place in the input is given by how many bytes may still be read there; this number falls from line
/// to line.
#[derive(Drop)]
pub struct Lookahead {
    alloc: Global,
    // The room at the line under way.
    room: usize,
    // Where the bytes of the last look end.
    seen: usize,
    // How many threads may read at once; None before the first is needed.
    threads: Option<usize>,
    // The lines that are read ahead.
    window: Option<Window>,
    // What was read of the piece under way.
    ready: Option<Chunk>,
    // The threads that are not known to have ended.
    running: Vec<Running>,
    // Whether the allocator refused memory.
    is_short: bool,
}

// A thread that was started.
#[derive(Drop)]
struct Running {
    thread: JoinHandle<()>,
    is_done: Arc<AtomicBool, Global>,
}

impl Lookahead {
    /// Nothing is read ahead yet. It takes no memory.
    pub fn new(alloc: Global) -> Lookahead {
        Lookahead {
            alloc,
            room: usize::MAX,
            seen: usize::MAX,
            threads: None,
            window: None,
            ready: None,
            running: Vec::new(alloc),
            is_short: false,
        }
    }

    /// Whether the allocator refused memory, here or to a thread whose lines were reached. The events that
    /// were read are right all the same.
    pub fn is_short(&self) -> bool {
        self.is_short
    }

    /// Notes that the next line begins where `room` bytes may still be read. Returns whether a look at the
    /// bytes to come is due.
    pub fn is_due(&mut self, room: usize) -> bool {
        self.room = room;
        room <= self.seen || self.is_passing()
    }

    // Whether the line under way begins another piece.
    fn is_passing(&self) -> bool {
        match &self.window {
            Some(window) => window.is_passed(self.room),
            None => false,
        }
    }

    /// Takes over the events of the lines from here on that were read, and reads some lines itself if they are not
    /// there yet. If no byte of `shown`, the bytes that come next, was shown before, it starts threads for the lines in
    /// it.
    pub fn look<X: Threads>(&mut self, rt: &X, shown: &[u8]) {
        if self.room <= self.seen {
            self.open(rt, shown);
        }
        self.ready = match &mut self.window {
            Some(window) => window.reach(self.alloc, self.room),
            None => None,
        };
        self.is_short |= is_short(&self.ready);
    }

    // Starts threads for the lines in `shown`, if there are enough.
    fn open<X: Threads>(&mut self, rt: &X, shown: &[u8]) {
        self.seen = self.room.saturating_sub(shown.len());
        self.join(rt);
        let place = self.place();
        let threads = match self.threads {
            Some(threads) => threads,
            None => thread_count(rt),
        };
        self.threads = Some(threads);
        let lines = whole_lines(shown);
        if threads == 0 || lines.len() < SHORTEST {
            return;
        }
        if self.begin(rt, place, lines, threads).is_err() {
            self.threads = Some(0);
            self.is_short = true;
        }
    }

    // The buffer of the lines that were read ahead last; an empty one if threads may still read those.
    fn place(&mut self) -> Vec<u8> {
        self.ready = None;
        let place = match self.window.take() {
            Some(window) => window.into_place(),
            None => None,
        };
        match place {
            Some(place) => place,
            None => Vec::new(self.alloc),
        }
    }

    // Joins the threads that have reported their end.
    fn join<X: Threads>(&mut self, rt: &X) {
        for place in (0..self.running.len()).rev() {
            let is_done = match self.running.get(place) {
                Some(running) => running.is_done.load(Ordering::SeqCst),
                None => false,
            };
            if is_done {
                let running = self.running.swap_remove(place);
                running.thread.join(rt);
            }
        }
    }

    // Opens a window of lines, kept in this buffer, and starts its threads.
    fn begin<X: Threads>(
        &mut self,
        rt: &X,
        place: Vec<u8>,
        lines: &[u8],
        threads: usize,
    ) -> Result<(), AllocError> {
        let size = piece_size(lines.len());
        let mut window = Window::open(self.alloc, place, lines, size, self.room)?;
        let most = if lines.len() < LONG {
            FEW_THREADS
        } else {
            MAX_THREADS
        };
        for _ in 0..threads.min(most).min(window.count()) {
            if !self.start(rt, &mut window)? {
                break;
            }
        }
        self.window = Some(window);
        Ok(())
    }

    // Starts a thread of a window, and returns whether one could be started.
    fn start<X: Threads>(&mut self, rt: &X, window: &mut Window) -> Result<bool, AllocError> {
        let alloc = self.alloc;
        let work = window.work(alloc)?;
        let is_done = Arc::new(alloc, AtomicBool::new(false))?;
        let done = Arc::try_clone(&is_done)?;
        self.running.reserve(1)?;
        let started = thread::spawn(rt, move || {
            work.run(alloc);
            done.store(true, Ordering::SeqCst);
        });
        match started {
            Ok(thread) => {
                self.running.push(Running { thread, is_done })?;
                Ok(true)
            }
            Err(_) => Ok(false),
        }
    }

    /// The event that the line under way sends, if it was read ahead and the line has these bytes.
    pub fn take(&mut self, line: &[u8]) -> Option<SentEvent>
        ensures { IfSome result (λ s. Sends line.now s.station s.delivery) }
    {
        if self.ready.is_none() {
            self.take_late();
        }
        match &mut self.ready {
            Some(chunk) => chunk.take(self.room, line),
            None => None,
        }
    }

    // Takes over the events of the piece under way that came since it was reached.
    fn take_late(&mut self) {
        self.ready = match &mut self.window {
            Some(window) => window.arrived(),
            None => None,
        };
        self.is_short |= is_short(&self.ready);
    }
}

// Whether memory ran out when this was read.
fn is_short(ready: &Option<Chunk>) -> bool {
    match ready {
        Some(chunk) => chunk.is_short(),
        None => false,
    }
}

// How many bytes a piece has, for this many bytes of lines.
fn piece_size(bytes: usize) -> usize
    ensures { 0 < result }
{
    (bytes / PIECES).clamp(LEAST_OF_PIECE, MOST_OF_PIECE)
}

// The whole lines at the front of `shown`.
fn whole_lines(shown: &[u8]) -> &[u8] {
    match memrchr(b'\n', shown) {
        Some(feed) => &shown[..feed + 1],
        None => &[],
    }
}

// How many threads may read beside the caller's.
fn thread_count<X: Threads>(rt: &X) -> usize {
    match thread::available_parallelism(rt) {
        Ok(processors) => (processors.get() - 1).min(MAX_THREADS),
        Err(_) => 0,
    }
}
