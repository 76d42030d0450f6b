//! Limits of stations that are nine tenths used; each is reported once.
ghost use Rattle.std.specs.Prelude.{◌*◌, ◌≤◌, ◌↔◌, IsTrue};

use crate::log::Log;
use ledger_model::{Limits, Name};
use site_desk::{Gate, Plan};
use station_ledger::UsedLimits;
use std::alloc::{AllocError, Global};
use std::cell::Cell;
use std::io::Write;
use std::sync::Wait;
use std::sync::atomic::{AtomicBool, Ordering};
use std::time::Clock;

// What a station's limits count.
const COUNTED: [&str; 4] = ["transactions", "events", "readings", "changes"];

// The limits of a station, and whether each was reported.
#[derive(Drop)]
struct StationLimits {
    limits: [u64; 4],
    reported: [AtomicBool; 4],
}

impl StationLimits {
    // These limits; none was reported yet.
    fn of(limits: Limits) -> Self {
        let none = || AtomicBool::new(false);
        let transactions = u64::from(limits.transactions());
        let (events, readings) = (u64::from(limits.events()), u64::from(limits.readings()));
        StationLimits {
            limits: [transactions, events, readings, limits.changes()],
            reported: [none(), none(), none(), none()],
        }
    }
}

// The limits of all stations of a plan.
#[derive(Drop)]
pub(crate) struct NearLimits {
    stations: Vec<StationLimits>,
}

impl NearLimits {
    // The limits of this plan; none was reported yet.
    pub(crate) fn open(alloc: Global, plan: &Plan) -> Result<Self, AllocError> {
        let mut stations = Vec::with_capacity(alloc, plan.stations.len())?;
        for station in plan.stations.as_slice() {
            stations.push(StationLimits::of(station.limits))?;
        }
        Ok(NearLimits { stations })
    }

    // Reports each limit of the station of this number and name that is nine tenths used now and was not reported yet.
    fn tell<R: Wait, L: Write + Drop>(
        &self,
        rt: &R,
        log: &Log<L>,
        station: u16,
        name: &Name,
        used: UsedLimits,
    ) {
        let Some(own) = self.stations.get(station as usize) else {
            return;
        };
        let (transactions, events) = (used.transactions.into(), used.events.into());
        let used = [transactions, events, used.readings.into(), used.changes];
        for row in 0..COUNTED.len() {
            if is_new(&own.reported[row], used[row], own.limits[row]) {
                log.tell_near(rt, name, COUNTED[row], used[row], own.limits[row]);
            }
        }
    }
}

// Returns whether nine tenths of a limit are used and that was not reported yet.
fn is_new(told: &AtomicBool, used: u64, limit: u64) -> bool {
    is_near(used, limit) && !told.swap(true, Ordering::SeqCst)
}

// Returns whether nine tenths of a limit are used.
fn is_near(used: u64, limit: u64) -> bool
    ensures { IsTrue result ↔ (9 * limit ≤ 10 * used) }
{
    limit - limit / 10 <= used
}

// Reports the limits of a session's station after each event that came to the desk.
#[derive(Drop)]
pub(crate) struct LimitObserver<'a, L: Write + Drop> {
    pub(crate) near: &'a NearLimits,
    pub(crate) log: &'a Log<L>,
    pub(crate) station: u16,
    // How much the station used of its limits after the last event, if it was not looked at since.
    pub(crate) used: Cell<Option<UsedLimits>>,
}

impl<'a, L: Write + Drop> Gate for LimitObserver<'a, L> {
    fn held<R: Wait + Clock>(&self, _rt: &R, _station: &Name) {}

    fn settled(&self, used: UsedLimits) {
        self.used.set(Some(used));
    }

    fn after<R: Wait + Clock>(&self, rt: &R, station: &Name, _call: u64) {
        if let Some(used) = self.used.replace(None) {
            self.near.tell(rt, self.log, self.station, station, used);
        }
    }
}
