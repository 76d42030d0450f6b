//! The values that all threads of a live server share.
ghost use Rattle.std.specs.Prelude.{◌≡◌, All, IfOk};
ghost use Rattle.station_link.specs.Attended.{IsAnswered};

use crate::log::Log;
use crate::near_limits::NearLimits;
use crate::service::Live;
use crate::session_answers::SessionAnswers;
use crate::workers::Workers;
use running_desk::{Running, Serves};
use site_book::Viewer;
use site_desk::Pass;
use station_link::Delivers;
use std::alloc::{AllocError, Global};
use std::io::Write;
use std::sync::Mutex;

// The viewers of a desk's totals.
pub(crate) type Viewers<S> = Vec<Viewer<<S as Delivers>::Names>>;

// The values that all threads of a live server share.
#[derive(Drop)]
pub(crate) struct Shared<'a, S: Serves, R, L: Write + Drop> {
    pub(crate) rt: &'a R,
    pub(crate) alloc: Global,
    pub(crate) running: Running<'a, S, R>,
    pub(crate) live: Live,
    pub(crate) workers: Workers,
    pub(crate) log: Log<L>,
    pub(crate) near: NearLimits,
    // What came with the answers of sessions that have ended.
    pub(crate) answers: Mutex<SessionAnswers<S>>,
}

impl<'a, S: Serves, R, L: Write + Drop> Shared<'a, S, R, L> {
    // A running desk, its workers, which serve nobody yet, and the log of these lines.
    pub(crate) fn open(running: Running<'a, S, R>, live: Live, lines: L) -> Result<Self, AllocError>
        ensures plan { IfOk result (λ s. s.running.plan.now ≡ running.entry.plan.now) }
        ensures serves { IfOk result (λ s. s.running.serves.now ≡ running.entry.serves.now) }
        ensures desk { IfOk result (λ s. s.running.desk.now ≡ running.entry.desk.now) }
        ensures live { IfOk result (λ s. s.live ≡ live) }
    {
        let (rt, alloc) = (running.rt, running.alloc);
        let near = NearLimits::open(alloc, running.plan)?;
        let workers = Workers::open(alloc, running.plan, live.connections)?;
        Ok(Shared {
            rt,
            alloc,
            running,
            live,
            workers,
            log: Log::open(lines, live.is_logged),
            near,
            answers: Mutex::new(SessionAnswers::new(alloc)),
        })
    }

    // All passes in the desk's pool, and what came with the answers of sessions.
    pub(crate) fn into_parts(self) -> (Vec<Pass>, Vec<S::Seen>)
        ensures { All (IsAnswered S.gives) result.1.items }
    {
        let answers = self.answers.into_inner();
        (self.running.into_passes(), answers.into_seen())
    }
}
