use super::memory::{Frames, Peer};
use super::{Scene, head, plays, serve};
use ledger_model::Name;
use site_book::Naming;
use site_desk::{Desk, MAX_PASSES, Pass};
use station_link::Why;
use std::alloc::Global;
use std::sync::Wait;
use std::thread::Threads;
use std::time::Clock;

// Returns whether a session of station B is refused, with a close frame of this code and nothing
// else.
fn is_refused<J: Naming + Send + Sync, R: Threads + Wait + Clock>(
    rt: &R,
    alloc: Global,
    desk: &Desk<J>,
    (why, code): (Why, u16),
) -> Option<bool> {
    let head = head(alloc, "B")?;
    let served = serve(rt, alloc, desk, Peer::of(head.as_str().as_bytes(), &[]));
    let mut answers = Frames::of_server(alloc);
    answers.close(code).ok()?;
    Some(served.why == why && served.frames() == answers.bytes())
}

// Takes all passes of station B; returns whether it gave them.
fn takes_all<J: Naming + Send + Sync, R: Threads + Wait + Clock>(
    rt: &R,
    desk: &Desk<J>,
) -> Option<bool> {
    let name = Name::new("B")?;
    for _ in 0..MAX_PASSES {
        if desk.enlist(rt, &name).is_err() {
            return Some(false);
        }
    }
    Some(true)
}

// A station that gave out all its passes; they are lost.
pub(super) fn all_taken<J: Naming + Send + Sync, R: Threads + Wait + Clock>(
    rt: &R,
    alloc: Global,
    desk: &Desk<J>,
) -> Option<[Option<Pass>; 2]> {
    if takes_all(rt, desk)? && is_refused(rt, alloc, desk, (Why::TooManyPasses, 1011))? {
        Some([None, None])
    } else {
        None
    }
}

#[test]
fn no_pass_left(rt: HostRuntime) {
    assert!(rt; plays(&rt, rt.alloc(), Scene::NoPassLeft) == Some(None));
}
