//! The workers of a live server: which connections have to end, and whether the server closes.
use crate::seats::Seats;
use site_desk::Plan;
use std::alloc::{AllocError, Global};
use std::sync::atomic::{AtomicBool, AtomicU64, Ordering};
use std::sync::{Mutex, Wait};
use std::thread;
use std::time::{Clock, Duration};

// The time between two looks at whether all connections have ended.
const LOOK_MILLIS: u64 = 10;

// How many workers wait for connections while every station has two sessions.
const SPARE_WORKERS: usize = 32;

// The state that workers look at while they wait.
#[derive(Drop)]
pub(crate) struct Workers {
    // Whether the server closes.
    pub(crate) closing: AtomicBool,
    // For each worker, whether its connection has to end.
    pub(crate) marks: Vec<AtomicBool>,
    seats: Mutex<Seats>,
    // How many connections the server serves in all, how many came, and how many have ended.
    most: u64,
    came: AtomicU64,
    ended: AtomicU64,
}

impl Workers {
    // Two workers for each station and some more, which serve nobody, for so many connections in all, or without end.
    pub(crate) fn open(
        alloc: Global,
        plan: &Plan,
        connections: Option<u8>,
    ) -> Result<Self, AllocError> {
        let sessions = plan.stations.len().saturating_mul(2);
        let workers = sessions.saturating_add(SPARE_WORKERS);
        let mut marks = Vec::with_capacity(alloc, workers)?;
        for _ in 0..workers {
            marks.push(AtomicBool::new(false))?;
        }
        Ok(Workers {
            closing: AtomicBool::new(false),
            marks,
            seats: Mutex::new(Seats::open(alloc, workers)?),
            most: match connections {
                Some(connections) => u64::from(connections),
                None => u64::MAX,
            },
            came: AtomicU64::new(0),
            ended: AtomicU64::new(0),
        })
    }

    // Counts a connection that came, and returns whether to serve it.
    pub(crate) fn admits_one(&self) -> bool {
        self.came.fetch_add(1, Ordering::SeqCst) < self.most
    }

    // Waits until as many connections have ended as the server serves in all.
    pub(crate) fn wait_for_all<R: Wait + Clock>(&self, rt: &R) {
        for _ in rt.forever() {
            if self.ended.load(Ordering::SeqCst) >= self.most {
                return;
            }
            thread::sleep(rt, Duration::from_millis(LOOK_MILLIS));
        }
    }

    // A worker's handshake begins; if few workers are left, the oldest handshake has to end.
    pub(crate) fn greet<R: Wait>(&self, rt: &R, worker: usize) {
        let mut seats = self.seats.lock(rt);
        self.mark(worker, false);
        if let Some(oldest) = seats.greet(worker) {
            self.mark(oldest, true);
        }
    }

    // A worker's session of this station begins; the oldest of three has to end.
    pub(crate) fn begin<R: Wait>(&self, rt: &R, worker: usize, station: u16) {
        let mut seats = self.seats.lock(rt);
        self.mark(worker, false);
        if let Some(oldest) = seats.begin(worker, station) {
            self.mark(oldest, true);
        }
    }

    // A worker's connection has ended.
    pub(crate) fn end<R: Wait>(&self, rt: &R, worker: usize) {
        self.seats.lock(rt).end(worker);
        self.ended.fetch_add(1, Ordering::SeqCst);
    }

    // Notes whether a worker's connection has to end.
    fn mark(&self, worker: usize, has_to_go: bool) {
        if let Some(mark) = self.marks.get(worker) {
            mark.store(has_to_go, Ordering::SeqCst);
        }
    }
}
