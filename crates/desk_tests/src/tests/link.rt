mod codes;
mod cuts;
mod memory;
mod sims;

ghost use Rattle.std.specs.Prelude.{ℕ, ◌<◌, length};
ghost use Rattle.site_book.specs.Tables.{HasTable, NamedBy};

use crate::tests::plans::{opened, plan_of};
use codes::all_taken;
use cuts::sends_again;
use ledger_model::Moment;
use memory::{Frames, Memory, Peer, TEXT};
use sims::each_text;
use site_book::{Naming, Tables};
use site_desk::{Desk, NoGate, Pass, Plan};
use station_link::{MomentSource, SessionEnd, Why, serve_connection};
use std::alloc::Global;
use std::cell::RefCell;
use std::marker::Brand;
use std::sync::Wait;
use std::thread::Threads;
use std::time::Clock;

// The request of a station of this name, with the subprotocol beside another.
fn head(alloc: Global, station: &str) -> Option<String> {
    let text = format!(in alloc;
        "GET /ocpp/{station} HTTP/1.1\r\nHost: h\r\nConnection: Upgrade\r\nUpgrade: websocket\r\nSec-WebSocket-Version: 13\r\nSec-WebSocket-Key: dGhlIHNhbXBsZSBub25jZQ==\r\nSec-WebSocket-Protocol: ocpp1.6, ocpp2.0.1\r\n\r\n"
    );
    text.ok()
}

// The first event of transaction T1, at ten o'clock.
const FIRST: &str =
    "[2,\"1\",\"TransactionEvent\",{\"eventType\":\"Started\",\"timestamp\":\"2026-03-01T10:00:00Z\",\"triggerReason\":\"MeterValuePeriodic\",\"seqNo\":0,\"transactionInfo\":{\"transactionId\":\"T1\"},\"meterValue\":[{\"timestamp\":\"2026-03-01T10:00:00Z\",\"sampledValue\":[{\"value\":1000}]}]}]";

// A clock that always says ten o'clock.
#[derive(Drop)]
struct TenOClock;

impl MomentSource for TenOClock {
    ghost reads = { λ _ _ _. Unit {0} };

    fn now(&mut self) -> Option<Moment> {
        Moment::new(1_772_359_200_000_000_000)
    }
}

// What a test plays on the desk of the plan.
#[derive(Clone, Copy)]
enum Scene {
    NoPassLeft,
    LostReply,
    EachText,
}

// The passes after a scene; none if the scene saw something wrong.
fn play<J: Naming + Send + Sync, R: Threads + Wait + Clock>(
    rt: &R,
    alloc: Global,
    desk: &Desk<J>,
    scene: Scene,
) -> Option<[Option<Pass>; 2]> {
    match scene {
        Scene::NoPassLeft => all_taken(rt, alloc, desk),
        Scene::LostReply => sends_again(rt, alloc, desk),
        Scene::EachText => each_text(rt, alloc, desk),
    }
}

fn at_desk<J: Naming + Send + Sync, R: Threads + Wait + Clock>(
    rt: &R,
    alloc: Global,
    tables: Tables,
    plan: &Plan,
    scene: Scene,
) -> Option<Option<(u64, u64)>>
    requires named { NamedBy J.table tables }
    requires there { (site : ℕ) → site < length plan.now.sites.items → HasTable tables site }
{
    let (desk, _viewers) = opened::<J>(alloc, tables, plan)?;
    let passes = play(rt, alloc, &desk, scene)?;
    Some(changes_at_close(alloc, desk, passes))
}

// How many changes the stations A and B of one site made, if the desk closes with the passes of the scene.
fn plays<R: Threads + Wait + Clock>(
    rt: &R,
    alloc: Global,
    scene: Scene,
) -> Option<Option<(u64, u64)>> {
    let plan = plan_of(&["north"], &[(0, "A"), (0, "B")], 0)?;
    let tables = Tables::make(alloc, plan.sites.len() as u16).ok()?;
    at_desk::<Brand, R>(rt, alloc, tables, &plan, scene)
}

// A session that was served: how it ended, and what the server wrote.
#[derive(Drop)]
struct EndedSession {
    why: Why,
    pass: Option<Pass>,
    written: Vec<u8>,
}

impl EndedSession {
    // How many changes its pass made.
    fn changes(&self) -> Option<u64> {
        Some(self.pass.as_ref()?.changes())
    }

    // Returns whether it ended for this reason, after this many changes, and answered with these
    // frames.
    fn is(&self, why: Why, changes: u64, frames: &[u8]) -> bool {
        self.why == why && self.changes() == Some(changes) && self.frames() == frames
    }

    // The frames behind the answer to the handshake; all that was written, if there is no such answer.
    fn frames(&self) -> &[u8] {
        let written = self.written.as_slice();
        match written
            .windows(4)
            .position(|four| four == b"\r\n\r\n".as_slice())
        {
            Some(at) => written.get(at.saturating_add(4)..).unwrap_or(&[]),
            None => written,
        }
    }
}

// Text messages of a client, or of a server.
fn text_frames(alloc: Global, of_client: bool, texts: &[&str]) -> Option<Frames> {
    let mut frames = Frames::of(alloc, of_client);
    for text in texts {
        frames.add(TEXT, text.as_bytes()).ok()?;
    }
    Some(frames)
}

// The session with this peer.
fn serve<J: Naming + Send + Sync, R: Threads + Wait + Clock>(
    rt: &R,
    alloc: Global,
    desk: &Desk<J>,
    peer: Peer<'_>,
) -> EndedSession {
    let written = RefCell::new(Vec::new(alloc));
    let stream = Memory::new(peer, &written);
    let SessionEnd { why, pass, .. } = serve_connection(
        rt,
        alloc,
        stream,
        desk,
        &NoGate,
        &mut TenOClock,
    );
    EndedSession {
        why,
        pass,
        written: written.into_inner(),
    }
}

// How many changes A and B made when the desk is closed with these passes.
fn changes_at_close<J: Naming + Send + Sync>(
    alloc: Global,
    desk: Desk<J>,
    given: [Option<Pass>; 2],
) -> Option<(u64, u64)> {
    let mut passes = Vec::new(alloc);
    for pass in given {
        if let Some(pass) = pass {
            passes.push(pass).ok()?;
        }
    }
    let closed = desk.close(passes, Vec::new(alloc)).ok()?;
    if closed.stations() == 2 {
        Some((closed.changes(0), closed.changes(1)))
    } else {
        None
    }
}
