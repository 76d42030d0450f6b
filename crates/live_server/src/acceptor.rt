//! The listeners where threads wait for connections, and how the end calls the threads away.
use running_desk::Sockets;
use std::net::{TcpListener, TcpStream};
use std::sync::Wait;
use std::sync::atomic::{AtomicBool, AtomicU64, Ordering};
use std::thread;
use std::time::{Clock, Duration};

// How long a thread waits after a failed accept, for example when descriptors run out.
const PAUSE_MILLIS: u64 = 100;

// How long the end waits between two looks at the threads that have not left yet.
const LOOK_MILLIS: u64 = 10;

// How many connections the end makes to a listener at once. If there were more than its queue holds, they would wait
// for a second or more.
const MOST_WAKINGS: u64 = 32;

// The listeners of a live server: that of stations, and that of browsers, if it has one.
#[derive(Drop)]
pub(crate) struct Acceptors {
    pub(crate) stations: Acceptor,
    pub(crate) browsers: Option<Acceptor>,
}

impl Acceptors {
    // Waits until all threads have left. The server has to be closing.
    pub(crate) fn call_away<R: Wait + Clock + Sockets>(&self, rt: &R) {
        self.stations.call_away(rt);
        if let Some(acceptor) = &self.browsers {
            acceptor.call_away(rt);
        }
    }
}

// A listener, and how many threads came to it, wait there, and have left it for good.
#[derive(Drop)]
pub(crate) struct Acceptor {
    pub(crate) listener: TcpListener,
    entered: AtomicU64,
    waiting: AtomicU64,
    left: AtomicU64,
}

impl Acceptor {
    // The acceptor of a listener; nobody waits there yet.
    pub(crate) fn new(listener: TcpListener) -> Self {
        Acceptor {
            listener,
            entered: AtomicU64::new(0),
            waiting: AtomicU64::new(0),
            left: AtomicU64::new(0),
        }
    }

    // The next connection; `None` once the server closes. A failed accept is tried again.
    pub(crate) fn next<R: Wait + Clock>(&self, rt: &R, closing: &AtomicBool) -> Option<TcpStream> {
        for _ in rt.forever() {
            self.waiting.fetch_add(1, Ordering::SeqCst);
            let accepted = if closing.load(Ordering::SeqCst) {
                None
            } else {
                Some(self.listener.accept())
            };
            self.waiting.fetch_sub(1, Ordering::SeqCst);
            if closing.load(Ordering::SeqCst) {
                return None;
            }
            match accepted {
                Some(Ok((stream, _from))) => return Some(stream),
                _ => thread::sleep(rt, Duration::from_millis(PAUSE_MILLIS)),
            }
        }
        unreachable!()
    }

    // Notes that a thread was started, if it was; returns whether it was.
    pub(crate) fn is_entered(&self, is_started: bool) -> bool {
        if is_started {
            self.entered.fetch_add(1, Ordering::SeqCst);
        }
        is_started
    }

    // Notes that a thread has left for good.
    pub(crate) fn leave(&self) {
        self.left.fetch_add(1, Ordering::SeqCst);
    }

    // Waits until all its threads have left, and wakes by connections those that wait in an accept.
    fn call_away<R: Wait + Clock + Sockets>(&self, rt: &R) {
        let _ = self.listener.set_nonblocking(true);
        for _ in rt.forever() {
            if self.left.load(Ordering::SeqCst) >= self.entered.load(Ordering::SeqCst) {
                return;
            }
            self.wake(rt);
            thread::sleep(rt, Duration::from_millis(LOOK_MILLIS));
        }
    }

    // Connects to the listener, once for each thread that waits there, so each has something to accept.
    fn wake<R: Sockets>(&self, rt: &R) {
        let waiting = self.waiting.load(Ordering::SeqCst);
        for _ in 0..waiting.min(MOST_WAKINGS) {
            if let Ok(address) = self.listener.local_addr() {
                let _ = TcpStream::connect(rt, address);
            }
        }
    }
}
