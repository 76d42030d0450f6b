//! Which worker serves which connection, and which connection has to end.
ghost use Rattle.std.specs.Prelude.{◌≡◌, ◌+◌, ◌%◌, ◌^◌, ◌<◌, IfOk, None, Some, length, replicate, slice_get, slice_set};
ghost use Rattle.live_server.specs.Seated.{HasGreeted, HasBegun, IsOldestOf, IsTold, count_at, free, is_at, older_by, serving};

use std::alloc::{AllocError, Global};

// How many sessions of one station may run at once.
const MAX_SESSIONS: usize = 2;

// How many workers should be left for further connections.
const MIN_FREE: usize = 16;

// A connection that a worker serves.
#[derive(Clone, Copy)]
pub(crate) struct ServedConnection {
    // The station of its session; none in its handshake.
    pub(crate) station: Option<u16>,
    // Its number among all handshakes and sessions that began.
    pub(crate) number: u64,
}

/// Which worker serves a handshake, and which a session of which station.
#[derive(Drop)]
pub struct Seats {
    // What each worker serves; a connection that was asked to end no longer counts.
    pub(crate) served: Vec<Option<ServedConnection>>,
    pub(crate) begun: u64,
}

impl Seats {
    /// Seats for `workers` workers, which serve nobody.
    pub fn open(alloc: Global, workers: usize) -> Result<Seats, AllocError>
        ensures { IfOk result (λ s. s.served.items ≡ replicate workers None) }
    {
        let mut served = Vec::new(alloc);
        served.resize(workers, None)?;
        Ok(Seats { served, begun: 0 })
    }

    /// Notes that a worker's connection is in its handshake, and returns the worker of the oldest handshake if fewer
    /// than 16 workers were left.
    pub fn greet(&mut self, worker: usize) -> Option<usize>
        ensures greeted { HasGreeted worker self.new.begun self.old.served.items result self.new.served.items }
        ensures number { self.new.begun ≡ (self.old.begun + 1) % 2 ^ 64 }
    {
        let oldest = if self.free() < MIN_FREE {
            self.take_oldest(None)
        } else {
            None
        };
        self.note(worker, None);
        oldest
    }

    /// Notes that a worker's session of this station begins, and returns the worker of the station's oldest session if
    /// there is now one too many.
    pub fn begin(&mut self, worker: usize, station: u16) -> Option<usize>
        ensures begun { HasBegun worker station self.new.begun self.old.served.items result self.new.served.items }
        ensures number { self.new.begun ≡ (self.old.begun + 1) % 2 ^ 64 }
    {
        self.note(worker, Some(station));
        if self.count_of(Some(station)) <= MAX_SESSIONS {
            return None;
        }
        self.take_oldest(Some(station))
    }

    /// Notes that a worker's connection ended.
    pub fn end(&mut self, worker: usize)
        ensures served { self.new.served.items ≡ slice_set self.old.served.items worker None }
        ensures begun { self.new.begun ≡ self.old.begun }
    {
        if let Some(row) = self.served.get_mut(worker) {
            *row = None;
        }
    }

    // Notes what a worker serves from now on.
    fn note(&mut self, worker: usize, station: Option<u16>)
        ensures served { self.new.served.items ≡ serving worker station self.new.begun self.old.served.items }
        ensures begun { self.new.begun ≡ (self.old.begun + 1) % 2 ^ 64 }
    {
        self.begun = self.begun.wrapping_add(1);
        let number = self.begun;
        if let Some(row) = self.served.get_mut(worker) {
            *row = Some(ServedConnection { station, number });
        }
    }

    // The worker of the oldest session of a station, or of the oldest handshake; that no longer
    // counts.
    fn take_oldest(&mut self, station: Option<u16>) -> Option<usize>
        ensures told { IsTold station self.old.served.items result self.new.served.items }
        ensures begun { self.new.begun ≡ self.old.begun }
    {
        let oldest = self.oldest_of(station)?;
        self.end(oldest);
        Some(oldest)
    }

    // How many workers serve nobody.
    fn free(&self) -> usize
        ensures { result ≡ free self.now.served.items }
    {
        self.served.iter().filter(|row| row.is_none()).count()
    }

    // How many sessions of a station there are, or handshakes.
    fn count_of(&self, station: Option<u16>) -> usize
        ensures { result ≡ count_at station self.now.served.items }
    {
        self.served.iter().filter(|row| is_at(station, row)).count()
    }

    // The worker of the oldest session of a station, or of the oldest handshake.
    fn oldest_of(&self, station: Option<u16>) -> Option<usize>
        ensures { IsOldestOf (length self.now.served.items) station self.now.served.items result }
    {
        let mut oldest = None;
        for worker in 0..self.served.len() {
            oldest = older_of(&self.served, worker, oldest, station);
        }
        oldest
    }
}

// Returns whether a worker has a session of this station, or a handshake if there is none.
fn is_at(station: Option<u16>, row: &Option<ServedConnection>) -> bool
    ensures { result ≡ is_at station row.now }
{
    match row {
        Some(one) => one.station == station,
        None => false,
    }
}

// The worker of the oldest session of a station, or of the oldest handshake, among the workers up to this one;
// `oldest` is that of those before it.
fn older_of(
    rows: &[Option<ServedConnection>],
    worker: usize,
    oldest: Option<usize>,
    station: Option<u16>,
) -> Option<usize>
    requires there { worker < length rows.now }
    requires oldest { IsOldestOf worker station rows.now oldest }
    ensures { IsOldestOf (worker + 1) station rows.now result }
{
    let Some(one) = rows[worker] else {
        return oldest;
    };
    if one.station != station {
        return oldest;
    }
    match oldest {
        Some(other) => oldest_of_two(rows, other, worker, one.number),
        None => Some(worker),
    }
}

// The first of these workers, unless it serves nobody or its number is greater than this one, the
// second worker's.
fn oldest_of_two(
    rows: &[Option<ServedConnection>],
    first: usize,
    second: usize,
    number: u64,
) -> Option<usize>
    requires { first < length rows.now }
    ensures { result ≡ older_by (slice_get rows.now first) first second number }
{
    match rows[first] {
        Some(one) if one.number <= number => Some(first),
        _ => Some(second),
    }
}
