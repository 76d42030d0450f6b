use super::memory::{CLOSE, Frames, Memory, PING, PONG, Peer, TEXT};
use super::{Scene, TenOClock, plays, text_frames};
use energy_flow::Work;
use ledger_model::{Answer, Name};
use site_book::Naming;
use site_desk::{Desk, NoGate, Pass};
use station_link::{MomentSource, SimFault, SimStation, answer_text};
use std::alloc::Global;
use std::cell::RefCell;
use std::io;
use std::random::RandomSource;
use std::sync::Wait;
use std::thread::Threads;
use std::time::Clock;

// What the simulated station of number 7 sends of a transaction of three events.
const TEXTS: [&str; 4] = [
    "[2,\"1\",\"TransactionEvent\",{\"eventType\":\"Started\",\"timestamp\":\"2026-01-01T00:00:00Z\",\"triggerReason\":\"MeterValuePeriodic\",\"seqNo\":0,\"transactionInfo\":{\"transactionId\":\"SIM-7\"},\"meterValue\":[{\"timestamp\":\"2026-01-01T00:00:00Z\",\"sampledValue\":[{\"value\":1000}]}],\"evse\":{\"id\":1}}]",
    "[2,\"2\",\"TransactionEvent\",{\"eventType\":\"Ended\",\"timestamp\":\"2026-01-01T00:10:00Z\",\"triggerReason\":\"MeterValuePeriodic\",\"seqNo\":2,\"transactionInfo\":{\"transactionId\":\"SIM-7\"},\"meterValue\":[{\"timestamp\":\"2026-01-01T00:10:00Z\",\"sampledValue\":[{\"value\":1200}]}],\"evse\":{\"id\":1}}]",
    "[2,\"3\",\"TransactionEvent\",{\"eventType\":\"Updated\",\"timestamp\":\"2026-01-01T00:05:00Z\",\"triggerReason\":\"MeterValuePeriodic\",\"seqNo\":1,\"transactionInfo\":{\"transactionId\":\"SIM-7\"},\"meterValue\":[{\"timestamp\":\"2026-01-01T00:05:00Z\",\"sampledValue\":[{\"value\":1100}]}],\"evse\":{\"id\":1}}]",
    "[2,\"4\",\"TransactionEvent\",{\"eventType\":\"Started\",\"timestamp\":\"2026-01-01T00:00:00Z\",\"triggerReason\":\"MeterValuePeriodic\",\"seqNo\":0,\"transactionInfo\":{\"transactionId\":\"SIM-7\"},\"meterValue\":[{\"timestamp\":\"2026-01-01T00:00:00Z\",\"sampledValue\":[{\"value\":1000}]}],\"evse\":{\"id\":1}}]",
];

const REPLIES: [&str; 4] = [
    "[3,\"1\",{}]",
    "[3,\"2\",{}]",
    "[3,\"3\",{}]",
    "[3,\"4\",{}]",
];

// Returns whether these are the expected strings.
fn are(strings: &[String], expected: &[&str]) -> bool {
    let mut pairs = strings.iter().zip(expected);
    strings.len() == expected.len() && pairs.all(|(text, expected)| text.as_str() == *expected)
}

// Returns whether a text of the pass has this reply, and its event is accepted, or is a repeat.
fn is_answered<J: Naming + Send + Sync, R: Wait + Clock>(
    rt: &R,
    alloc: Global,
    desk: &Desk<J>,
    pass: &mut Pass,
    (text, reply): (&str, &str),
    is_accepted: bool,
) -> Option<bool> {
    let now = TenOClock.now()?;
    let answered = answer_text(desk, rt, alloc, pass, text, now, &NoGate);
    let is_reply = answered.text?.as_str() == reply;
    let is_as_wanted = match answered.outcome {
        Some(Answer::Accepted(_)) => is_accepted,
        Some(Answer::Repeat) => !is_accepted,
        _ => false,
    };
    Some(is_reply && is_as_wanted && !answered.memory)
}

// The pass of the station's texts when they are answered one by one: only the last one is a repeat, of the first.
fn pass_of_texts<J: Naming + Send + Sync, R: Threads + Wait + Clock>(
    rt: &R,
    alloc: Global,
    desk: &Desk<J>,
    name: &Name,
) -> Option<Pass> {
    let mut pass = desk.enlist(rt, name).ok()?;
    for number in 0..TEXTS.len() {
        let asked = (TEXTS[number], REPLIES[number]);
        if !is_answered(rt, alloc, desk, &mut pass, asked, number != 3)? {
            return None;
        }
    }
    Some(pass)
}

// The events, complete transactions and energy of a station.
fn shown<J: Naming + Send + Sync, R: Wait + Threads>(
    rt: &R,
    alloc: Global,
    desk: &Desk<J>,
    name: &Name,
) -> Option<(u64, u64, u64)> {
    let mut work = Work::open(rt);
    let board = desk.station_board(rt, alloc, name, &mut work).ok()?;
    let figures = board.figures();
    Some((figures.events, figures.complete, figures.up))
}

pub(super) fn each_text<J: Naming + Send + Sync, R: Threads + Wait + Clock>(
    rt: &R,
    alloc: Global,
    desk: &Desk<J>,
) -> Option<[Option<Pass>; 2]> {
    let name = Name::new("A")?;
    let pass = pass_of_texts(rt, alloc, desk, &name)?;
    if shown(rt, alloc, desk, &name)? == (3, 1, 200_000) {
        Some([Some(pass), None])
    } else {
        None
    }
}

// Returns whether the simulated station sends these texts.
fn are_its_texts(alloc: Global) -> bool {
    match SimStation::new(7, 3).texts(alloc) {
        Ok(texts) => are(&texts, &TEXTS),
        Err(_) => false,
    }
}

#[test]
fn simulated_texts(rt: HostRuntime) {
    assert!(rt; are_its_texts(rt.alloc()));
    assert!(rt; plays(&rt, rt.alloc(), Scene::EachText) == Some(Some((3, 0))));
}

// Random bytes that are all 0.
struct Zeros;

impl RandomSource for Zeros {
    fn fill_bytes(&self, buf: &mut [u8]) -> io::Result<()> {
        buf.fill(0);
        Ok(())
    }
}

// The answer to a request with a key of such bytes.
const ANSWER: &[u8] =
    b"HTTP/1.1 101 Switching Protocols\r\nConnection: Upgrade\r\nUpgrade: websocket\r\nSec-WebSocket-Accept: ICX+Yqv66kxgM0FcWaLWlFLwTAI=\r\nSec-WebSocket-Protocol: ocpp2.0.1\r\n\r\n";

// The station's run against a server, and what it wrote.
fn run(alloc: Global, peer: Peer<'_>) -> (Result<Vec<String>, SimFault>, Vec<u8>) {
    let written = RefCell::new(Vec::new(alloc));
    let replies = SimStation::new(7, 3).run(&Zeros, alloc, Memory::new(peer, &written));
    (replies, written.into_inner())
}

// A ping, and the replies.
fn answers(alloc: Global) -> Option<Frames> {
    let mut frames = Frames::of_server(alloc);
    frames.add(PING, b"").ok()?;
    for reply in REPLIES {
        frames.add(TEXT, reply.as_bytes()).ok()?;
    }
    Some(frames)
}

// The bytes that the station sends then: the pong goes behind its first text, and a close behind
// the last.
fn sent(alloc: Global) -> Option<Frames> {
    let mut frames = Frames::of_client(alloc);
    for text in TEXTS {
        frames.add(TEXT, text.as_bytes()).ok()?;
        if text == TEXTS[0] {
            frames.add(PONG, b"").ok()?;
        }
    }
    frames.add(CLOSE, b"").ok()?;
    Some(frames)
}

// Returns whether the station connects, sends its texts and gets its replies.
fn plays_its_part(alloc: Global) -> Option<bool> {
    let answers = answers(alloc)?;
    let (replies, written) = run(alloc, Peer::of(ANSWER, answers.bytes()));
    let written = written.as_slice();
    let asks = written.starts_with(b"GET /ocpp/CS-7 HTTP/1.1\r\n");
    Some(are(&replies.ok()?, &REPLIES) && asks && written.ends_with(sent(alloc)?.bytes()))
}

#[test]
fn simulated_station(rt: HostRuntime) {
    assert!(rt; plays_its_part(rt.alloc()) == Some(true));
}

// Why the station did not get all its replies.
fn fault(alloc: Global, peer: Peer<'_>) -> Option<SimFault> {
    run(alloc, peer).0.err()
}

// Returns whether the station gives up if its stream ends in the handshake, fails, ends, or takes
// no more.
fn gives_up(alloc: Global) -> Option<bool> {
    let answers = text_frames(alloc, false, &[REPLIES[0]])?;
    let peer = Peer::of(ANSWER, answers.bytes());
    let cut = fault(alloc, Peer { given: 20, ..peer })?;
    let fails = fault(
        alloc,
        Peer {
            fails: true,
            ..peer
        },
    )?;
    let ends = fault(alloc, peer)?;
    let unwritten = fault(alloc, Peer { writes: 2, ..peer })?;
    Some(
        cut == SimFault::HandshakeFailed
            && fails == SimFault::ReadFault
            && ends == SimFault::ReadFault
            && unwritten == SimFault::WriteFault,
    )
}

#[test]
fn simulated_station_gives_up(rt: HostRuntime) {
    assert!(rt; gives_up(rt.alloc()) == Some(true));
}
