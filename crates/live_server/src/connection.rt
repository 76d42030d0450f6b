//! The time of one connection: how long the server waits for its stream, and whether it is still
//! wanted.
ghost use Rattle.std.specs.Io.{ReadsAtMost, WritesAtMost};

use station_link::{Attendant, Why};
use std::cell::Cell;
use std::io;
use std::io::{ErrorKind, Read, Write};
use std::net::{Shutdown, TcpStream};
use std::sync::atomic::{AtomicBool, Ordering};
use std::time::{Clock, Duration, Instant};

// How long a read or a write of the stream waits before it looks at the time, and whether the connection is still
// wanted.
const TICK_MILLIS: u64 = 250;

// How many ticks a session waits for its station's next bytes, 600 seconds: twice the interval of heartbeats in the
// reply to a BootNotification.
const SILENT_TICKS: u64 = 4 * 600;

// More ticks than any other limit has.
const MOST_TICKS: u64 = 128;

// The most bytes of a write for which the time begins only when it waits. Such a write hardly ever waits, and then
// needs no clock.
const SHORT_WRITE: usize = 1_024;

// How long the server reads what the peer had sent, after its own last bytes.
const LEAVING_SECONDS: u64 = 1;

// How long the server waits for a connection, in seconds.
#[derive(Clone, Copy)]
pub(crate) struct Patience {
    // For its opening handshake, or its request.
    pub(crate) opening: u64,
    // For a write, from its first byte to its last; for a short one from its first wait.
    pub(crate) writing: u64,
}

// The phase of a connection.
#[derive(Clone, Copy)]
enum Phase {
    // In its opening handshake or its request, which began at this time.
    Opening(Instant),
    // In its session, or its answer.
    Serving,
    // After the server's last bytes, which went at this time.
    Leaving(Instant),
}

// The state of one connection, which its stream and its session share.
#[derive(Drop)]
pub(crate) struct Connection<'a, R: Clock> {
    rt: &'a R,
    closing: &'a AtomicBool,
    // Whether the connection has to end.
    mark: &'a AtomicBool,
    patience: Patience,
    phase: Cell<Phase>,
    silent: Cell<u64>,
    // When the time of the write under way began.
    writing: Cell<Option<Instant>>,
}

impl<'a, R: Clock> Connection<'a, R> {
    // A connection that begins.
    pub(crate) fn open(
        rt: &'a R,
        closing: &'a AtomicBool,
        mark: &'a AtomicBool,
        patience: Patience,
    ) -> io::Result<Self> {
        let now = Instant::now(rt)?;
        Ok(Connection {
            rt,
            closing,
            mark,
            patience,
            phase: Cell::new(Phase::Opening(now)),
            silent: Cell::new(0),
            writing: Cell::new(None),
        })
    }

    // The handshake is done, or the request read.
    pub(crate) fn serves(&self) {
        self.phase.set(Phase::Serving);
    }

    // Returns whether this many seconds have passed since then, or the clock fails.
    fn is_over(&self, since: Instant, seconds: u64) -> bool {
        match since.elapsed(self.rt) {
            Ok(elapsed) => elapsed >= Duration::from_secs(seconds),
            Err(_) => true,
        }
    }

    // Returns whether the time of its phase is over, or the server wants it no longer before its session.
    fn is_due(&self) -> bool {
        match self.phase.get() {
            Phase::Opening(since) => {
                self.dismissal().is_some() || self.is_over(since, self.patience.opening)
            }
            Phase::Serving => false,
            Phase::Leaving(since) => self.is_over(since, LEAVING_SECONDS),
        }
    }

    // Returns whether the write under way has to be given up.
    fn is_write_over(&self) -> bool {
        let Some(since) = self.writing.get() else {
            return false;
        };
        match self.phase.get() {
            Phase::Opening(began) => self.is_over(began, self.patience.opening),
            _ => self.is_over(since, self.patience.writing),
        }
    }

    // Begins the time of the write under way, if it has not begun yet.
    fn times_write(&self) -> io::Result<()> {
        if self.writing.get().is_none() {
            self.writing.set(Some(Instant::now(self.rt)?));
        }
        Ok(())
    }

    // Counts a tick without bytes, and returns whether it was one too many.
    fn is_silent(&self) -> bool {
        let ticks = self.silent.get().saturating_add(1);
        self.silent.set(ticks);
        ticks >= SILENT_TICKS
    }
}

impl<R: Clock> Attendant for Connection<'_, R> {
    ghost use Rattle.station_link.specs.Session.{IsDismissal};

    ghost dismisses = { λ _ why. IsDismissal why };

    fn dismissal(&self) -> Option<Why> {
        if self.closing.load(Ordering::SeqCst) {
            Some(Why::ServerCloses)
        } else if self.mark.load(Ordering::SeqCst) {
            Some(Why::Replaced)
        } else {
            None
        }
    }

    fn is_patient(&self) -> bool {
        true
    }

    fn reason(&self, why: Why) -> &'static str {
        why.name()
    }

    fn leaves(&self) {
        if let Ok(now) = Instant::now(self.rt) {
            self.phase.set(Phase::Leaving(now));
        }
    }
}

// Returns whether a read or a write gave up waiting, and may go on.
fn is_tick(moved: &io::Result<usize>) -> bool {
    match moved {
        Ok(_) => false,
        Err(error) => error.kind() == ErrorKind::WouldBlock,
    }
}

// Returns whether all of the bytes were written.
fn is_whole(written: &io::Result<usize>, bytes: &[u8]) -> bool {
    match written {
        Ok(count) => *count == bytes.len(),
        Err(_) => false,
    }
}

// The stream of a connection. A read gives up with `WouldBlock` after a tick if a session may go on, and with another
// error if the connection has to end.
#[derive(Drop)]
pub(crate) struct ConnectionStream<'a, R: Clock> {
    connection: &'a Connection<'a, R>,
    stream: TcpStream,
}

impl<'a, R: Clock> ConnectionStream<'a, R> {
    // The stream of a connection, with the limits of its waiting.
    pub(crate) fn open(connection: &'a Connection<'a, R>, stream: TcpStream) -> io::Result<Self> {
        let tick = Duration::from_millis(TICK_MILLIS);
        stream.set_read_timeout(Some(tick))?;
        stream.set_write_timeout(Some(tick))?;
        stream.set_nodelay(true)?;
        Ok(ConnectionStream { connection, stream })
    }

    // Ends the output to the peer.
    pub(crate) fn shut(&self) -> io::Result<()> {
        self.stream.shutdown(Shutdown::Write)
    }

    // A read of a handshake or a request, or of the bytes that are left at the end, which is tried again until the
    // connection has to end.
    fn read_patiently(&mut self, buf: &mut [u8]) -> io::Result<usize>
        ensures { ReadsAtMost result buf.new }
    {
        for _ in 0..MOST_TICKS {
            if self.connection.is_due() {
                break;
            }
            let read = self.stream.read(buf);
            if !is_tick(&read) {
                return read;
            }
        }
        Err(io::Error::from(ErrorKind::TimedOut))
    }

    // A read of a session.
    fn read_tick(&mut self, buf: &mut [u8]) -> io::Result<usize>
        ensures { ReadsAtMost result buf.new }
    {
        if self.connection.dismissal().is_some() {
            return Err(io::Error::from(ErrorKind::WouldBlock));
        }
        let read = self.stream.read(buf);
        if is_tick(&read) {
            if self.connection.is_silent() {
                return Err(io::Error::from(ErrorKind::TimedOut));
            }
        } else if read.is_ok() {
            self.connection.silent.set(0);
        }
        read
    }
}

impl<R: Clock> Read for ConnectionStream<'_, R> {
    fn read(&mut self, buf: &mut [u8]) -> io::Result<usize> {
        match self.connection.phase.get() {
            Phase::Serving => self.read_tick(buf),
            Phase::Opening(_) | Phase::Leaving(_) => self.read_patiently(buf),
        }
    }
}

impl<R: Clock> Write for ConnectionStream<'_, R> {
    fn write(&mut self, buf: &[u8]) -> io::Result<usize> {
        if buf.len() > SHORT_WRITE {
            self.connection.times_write()?;
        }
        for _ in 0..MOST_TICKS {
            if self.connection.is_write_over() {
                break;
            }
            let written = self.stream.write(buf);
            if is_whole(&written, buf) {
                return written;
            }
            self.connection.times_write()?;
            if !is_tick(&written) {
                return written;
            }
        }
        Err(io::Error::from(ErrorKind::TimedOut))
    }

    fn flush(&mut self) -> io::Result<()> {
        self.connection.writing.set(None);
        self.stream.flush()
    }
}
