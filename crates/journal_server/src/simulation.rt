//! Simulated stations that play against a server of their own.
ghost use Rattle.std.specs.Prelude.{◌≡◌, ◌≤◌, [], IfOk, None, Some, codes, length, vec_len, vec_capacity};
ghost use Rattle.station_link.specs.Sim.{IsSimulated};
ghost use Rattle.journal_server.{specs.Left.left_of, specs.Served.{IsNewRun, TellsNew}, specs.Simulated.{IsSimulatedRun, simulated_name, simulated_sites, simulated_stations}};

use crate::fault::JournalFault;
use crate::run::Served;
use crate::serve::serve_live;
use arrayvec::ArrayString;
use itoa::Buffer;
use ledger_model::{Limits, Name, Order, Periods};
use live_server::Live;
use running_desk::{Host, Output, ServiceFault, Sockets, address_of, listen};
use site_desk::Plan;
use station_link::{SimFault, SimStation};
use std::alloc::Global;
use std::io::Sink;
use std::net::{SocketAddr, TcpListener, TcpStream};
use std::random::RandomSource;
use std::thread::{JoinHandle, Scope, Threads};
use std::time::Duration;
use std::{io, thread};

/// How many events a simulated station's transaction may have.
pub const MAX_SIMULATED_EVENTS: u32 = 64;

// How long a simulated station waits for a reply.
const REPLY_SECONDS: u64 = 60;

type Played = JoinHandle<Result<(), SimFault>>;

/// Plays `stations` simulated stations, each with a transaction of `events` events, against a server of their own on a
/// port of 127.0.0.1 that the system chooses. After all have ended it returns the server's result, with the board of
/// their site, `sim`. The console comes back as it was.
///
/// Condition: 1 to 64 stations, and 2 to 64 events.
pub fn simulate<R: Host + RandomSource, T: Output>(
    rt: &R,
    stations: u16,
    events: u32,
    console: T,
) -> Result<Served<Sink, T>, JournalFault>
    requires { IsSimulated stations events }
    ensures { IfOk result (λ s. IsSimulatedRun stations (left_of (λ _. None) s) × (s.console ≡ console)) }
{
    let alloc = rt.alloc();
    let plan = simulated_plan(stations);
    let listener = listen(rt, 0)?;
    let streams = connect_all(rt, alloc, &listener, stations)?;
    let played = Vec::with_capacity(alloc, stations as usize)?;
    let (served, fault) = play_all(rt, &plan, listener, streams, events, played);
    if let Some(fault) = fault {
        return Err(JournalFault::Service(ServiceFault::from(fault)));
    }
    let served = served?;
    Ok(Served {
        journal: served.journal,
        unwritten: served.unwritten,
        is_broken: served.is_broken,
        boards: served.boards,
        passes: served.passes,
        ended: served.ended,
        console,
    })
}

// The plan of a site `sim` with `stations` stations `CS-1`, `CS-2` and so on, with default limits, the
// default length of periods and readings by sequence.
fn simulated_plan(stations: u16) -> Plan
    requires { stations ≤ 64 }
    ensures sites { result.sites.items ≡ simulated_sites stations }
    ensures stations { result.stations.items ≡ simulated_stations stations }
{
    let mut plan = Plan::new();
    let site = site_name();
    for before in 0..stations {
        let station = station_name(before + 1);
        plan.declare(
            site.copied(),
            0,
            Periods::default(),
            Order::Sequence,
            station,
            Limits::default(),
        );
    }
    plan
}

// The name `sim`.
fn site_name() -> Name
    ensures { result ≡ codes "sim" }
{
    Name::new("sim").unwrap()
}

// The name `CS-<number>`.
fn station_name(number: u16) -> Name
    requires { number ≤ 64 }
    ensures { result ≡ simulated_name number }
{
    let mut text = ArrayString::<8>::new();
    text.push_str("CS-");
    text.push_str(Buffer::new().format(number));
    Name::new(text.as_str()).unwrap()
}

// A connection for each station. They wait for the server in the listener's queue.
fn connect_all<R: Sockets>(
    rt: &R,
    alloc: Global,
    listener: &TcpListener,
    stations: u16,
) -> Result<Vec<TcpStream>, ServiceFault>
    ensures { IfOk result (λ streams. length streams.items ≡ stations) }
{
    let address = address_of(listener)?;
    let mut streams = Vec::with_capacity(alloc, stations as usize)?;
    for _ in 0..stations {
        let Ok(stream) = connect(rt, address) else {
            return Err(ServiceFault::Sim(SimFault::HandshakeFailed));
        };
        streams.push(stream)?;
    }
    Ok(streams)
}

// A connection that waits as long as a station waits for its reply, and no longer.
fn connect<R: Sockets>(rt: &R, address: SocketAddr) -> io::Result<TcpStream> {
    let stream = TcpStream::connect(rt, address)?;
    stream.set_read_timeout(Some(Duration::from_secs(REPLY_SECONDS)))?;
    stream.set_write_timeout(Some(Duration::from_secs(REPLY_SECONDS)))?;
    stream.set_nodelay(true)?;
    Ok(stream)
}

// The result of the server of simulated stations, and the fault of the first station that had one.
type Run = (Result<Served<Sink, Sink>, JournalFault>, Option<SimFault>);

// Plays each station on a thread of its own while this one serves them. The listener closes when all are served, so no
// station waits for an answer that never comes.
fn play_all<R: Host + RandomSource>(
    rt: &R,
    plan: &Plan,
    listener: TcpListener,
    streams: Vec<TcpStream>,
    events: u32,
    played: Vec<Played>,
) -> Run
    requires most { length streams.items ≤ 64 }
    requires events { (2 ≤ events) × (events ≤ 64) }
    requires none { vec_len played ≡ 0 }
    requires room { length streams.items ≤ vec_capacity played }
    ensures { IfOk result.0 (λ s. IsNewRun plan.now.sites.items plan.now.stations.items None (left_of (λ _. None) s) (TellsNew s.ended plan.now.stations.items (Some []) None None)) }
{
    let connections = streams.len() as u8;
    thread::scope(
        thread::scope_env(),
        rt,
        |scope| -> Run
            requires { (length streams.items ≡ connections) × (connections ≤ 64) × (2 ≤ events) × (events ≤ 64) × (vec_len played ≡ 0) × (connections ≤ vec_capacity played) }
            ensures { IfOk result.0
                (λ s. IsNewRun plan.entry.now.sites.items plan.entry.now.stations.items None (left_of (λ _. None) s) (TellsNew s.ended plan.entry.now.stations.items (Some []) None None)) }
        {
            let (played, refused) = start_all(scope, rt, rt.alloc(), streams, events, played);
            let live = Live {
                port: 0,
                glances: 0,
                is_logged: false,
                board_port: None,
                connections: Some(connections),
            };
            let mut nothing: &[u8] = &[];
            let (console, lines) = (io::sink(), io::sink());
            let served = serve_live(rt, plan, live, Some(listener), &mut nothing, console, lines);
            (served, first_fault(rt, played, refused))
        },
    )
}

// Starts a station on each stream, and returns the fault of one if its thread can't start.
fn start_all<'s, E: 's, R: Threads + RandomSource + Sync>(
    scope: &'s Scope<'s, E>,
    rt: &'s R,
    alloc: Global,
    streams: Vec<TcpStream>,
    events: u32,
    mut played: Vec<Played>,
) -> (Vec<Played>, Option<SimFault>)
    requires most { length streams.items ≤ 64 }
    requires events { (2 ≤ events) × (events ≤ 64) }
    requires none { vec_len played ≡ 0 }
    requires room { length streams.items ≤ vec_capacity played }
{
    let mut refused = None;
    let mut number = 0;
    for stream in streams {
        number += 1;
        match scope.spawn(move || play(rt, alloc, number, events, stream)) {
            Ok(station) => played.push_reserved(station),
            Err(_) => refused = Some(SimFault::OutOfMemory),
        }
    }
    (played, refused)
}

// Plays a station. On a desk of its own its events are refused only for a lack of memory, which the
// reply reports.
fn play<R: RandomSource>(
    rt: &R,
    alloc: Global,
    number: u16,
    events: u32,
    stream: TcpStream,
) -> Result<(), SimFault>
    requires { IsSimulated number events }
{
    let replies = SimStation::new(number, events).run(rt, alloc, stream)?;
    if replies
        .iter()
        .all(|reply| reply.as_str().starts_with("[3,"))
    {
        Ok(())
    } else {
        Err(SimFault::OutOfMemory)
    }
}

// The fault of the first station that had one; else that of a thread that did not start.
fn first_fault<R: Threads>(
    rt: &R,
    played: Vec<Played>,
    refused: Option<SimFault>,
) -> Option<SimFault> {
    let mut fault = None;
    for station in played {
        if let Err(other) = station.join(rt) {
            fault = fault.or(Some(other));
        }
    }
    fault.or(refused)
}
