//! A thread that glances at the totals while a live server serves.
use crate::shared::{Shared, Viewers};
use running_desk::{Serves, tell_totals};
use std::io::Write;
use std::sync::Wait;
use std::sync::atomic::Ordering;
use std::thread;
use std::time::{Clock, Duration};

// The time from one glance to the next.
const SECONDS_BETWEEN: u64 = 1;

impl<S: Serves, R: Wait + Clock, L: Write + Drop> Shared<'_, S, R, L> {
    // Glances at the totals of each viewer's site as often as is asked for, a second apart, and reports them. If an
    // operator ends the server, it glances until then.
    pub(crate) fn watch(&self, mut viewers: Viewers<S>) -> Viewers<S> {
        for glance in 0..self.live.glances {
            if glance > 0 {
                thread::sleep(self.rt, Duration::from_secs(SECONDS_BETWEEN));
            }
            if self.live.connections.is_none() && self.workers.closing.load(Ordering::SeqCst) {
                break;
            }
            let mut lines = self.log.lines.lock(self.rt);
            for viewer in viewers.iter_mut() {
                tell_totals(viewer, self.running.plan.sites.as_slice(), &mut *lines);
            }
        }
        viewers
    }
}
