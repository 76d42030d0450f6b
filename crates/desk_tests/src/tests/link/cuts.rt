use super::memory::Peer;
use super::{EndedSession, FIRST, Scene, head, plays, serve, text_frames};
use site_book::Naming;
use site_desk::{Desk, Pass};
use station_link::Why;
use std::alloc::Global;
use std::sync::Wait;
use std::thread::Threads;
use std::time::Clock;

// A's two sessions: the reply of the first can't be sent, and the message is sent again on a new stream.
fn sent_twice<J: Naming + Send + Sync, R: Threads + Wait + Clock>(
    rt: &R,
    alloc: Global,
    desk: &Desk<J>,
) -> Option<(EndedSession, EndedSession)> {
    let head = head(alloc, "A")?;
    let sent = text_frames(alloc, true, &[FIRST])?;
    let peer = Peer::of(head.as_str().as_bytes(), sent.bytes());
    let first = serve(rt, alloc, desk, Peer { writes: 1, ..peer });
    let second = serve(rt, alloc, desk, peer);
    Some((first, second))
}

pub(super) fn sends_again<J: Naming + Send + Sync, R: Threads + Wait + Clock>(
    rt: &R,
    alloc: Global,
    desk: &Desk<J>,
) -> Option<[Option<Pass>; 2]> {
    let (first, second) = sent_twice(rt, alloc, desk)?;
    let answers = text_frames(alloc, false, &["[3,\"1\",{}]"])?;
    let is_lost = first.is(Why::WriteFault, 1, &[]);
    if is_lost && second.is(Why::PeerClosed, 0, answers.bytes()) {
        Some([first.pass, second.pass])
    } else {
        None
    }
}

#[test]
fn lost_reply(rt: HostRuntime) {
    assert!(rt; plays(&rt, rt.alloc(), Scene::LostReply) == Some(Some((1, 0))));
}
