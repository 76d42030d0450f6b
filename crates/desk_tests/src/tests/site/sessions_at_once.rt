// If sessions went on one after the other, or under one lock, B would never get an answer here.
ghost use Rattle.std.specs.Prelude.{ℕ, ◌<◌, length};
ghost use Rattle.site_book.specs.Tables.{HasTable, NamedBy};

use super::client::{A, B, sends_one};
use crate::tests::gate::HoldsA;
use crate::tests::plans::plan_of;
use ledger_model::Moment;
use site_book::{Naming, Tables};
use site_desk::{Desk, Pass, Plan};
use station_link::{MomentSource, serve_connection};
use std::alloc::Global;
use std::marker::Brand;
use std::net::{Ipv4Addr, Net, SocketAddr, TcpListener, TcpStream};
use std::sync::Wait;
use std::test::Fail;
use std::thread;
use std::thread::Threads;
use std::time::Clock;

// A clock that fails.
#[derive(Drop)]
struct NoMoment;

impl MomentSource for NoMoment {
    ghost reads = { λ _ _ _. Unit {0} };

    fn now(&mut self) -> Option<Moment> {
        None
    }
}

// Returns whether A is answered, and B, which connects after the gate holds A.
fn ask_both<R: Threads + Wait + Clock + Sync + Net<Listener = TcpListener, Stream = TcpStream>>(
    rt: &R,
    alloc: Global,
    address: SocketAddr,
    gate: &HoldsA,
) -> bool {
    let (a, b) = thread::join(
        rt,
        move || sends_one(rt, alloc, address, A),
        move || {
            gate.wait_for_a(rt);
            sends_one(rt, alloc, address, B)
        },
    );
    a == Some(true) && b == Some(true)
}

// Serves the next connection, and gives its pass.
fn serve_next<J: Naming + Send + Sync, R: Threads + Wait + Clock>(
    rt: &R,
    alloc: Global,
    desk: &Desk<J>,
    listener: &TcpListener,
    gate: &HoldsA,
) -> Option<Pass> {
    let (stream, _from) = listener.accept().ok()?;
    serve_connection(rt, alloc, stream, desk, gate, &mut NoMoment).pass
}

// Serves two connections at once, and gives their passes.
fn serve_both<J: Naming + Send + Sync, R: Threads + Wait + Clock + Sync>(
    rt: &R,
    alloc: Global,
    desk: &Desk<J>,
    listener: &TcpListener,
    gate: &HoldsA,
) -> Option<Vec<Pass>> {
    let (a, b) = thread::join(
        rt,
        move || serve_next(rt, alloc, desk, listener, gate),
        move || serve_next(rt, alloc, desk, listener, gate),
    );
    let mut passes = Vec::new(alloc);
    passes.push(a?).ok()?;
    passes.push(b?).ok()?;
    Some(passes)
}

// The passes of both connections, if both were answered, and B while A was held.
fn served_both<
    J: Naming + Send + Sync,
    R: Threads + Wait + Clock + Sync + Net<Listener = TcpListener, Stream = TcpStream>,
>(rt: &R, alloc: Global, desk: &Desk<J>) -> Option<Vec<Pass>> {
    let listener = TcpListener::bind(rt, (Ipv4Addr::LOCALHOST, 0)).ok()?;
    let address = listener.local_addr().ok()?;
    let (listener, gate) = (&listener, HoldsA::new());
    let held = &gate;
    let (passes, are_answered) = thread::join(
        rt,
        move || serve_both(rt, alloc, desk, listener, held),
        move || ask_both(rt, alloc, address, held),
    );
    if are_answered && gate.is_kept(rt) {
        passes
    } else {
        None
    }
}

// How many changes A and B made when the desk is closed with all its passes and viewers.
fn changes_of_both<
    J: Naming + Send + Sync,
    R: Threads + Wait + Clock + Sync + Net<Listener = TcpListener, Stream = TcpStream>,
>(rt: &R, alloc: Global, tables: Tables, plan: &Plan) -> Option<(u64, u64)>
    requires named { NamedBy J.table tables }
    requires there { (site : ℕ) → site < length plan.now.sites.items → HasTable tables site }
{
    let (desk, _viewers) = Desk::<J>::open(alloc, tables, plan).ok()?;
    let passes = served_both(rt, alloc, &desk)?;
    let closed = desk.close(passes, Vec::new(alloc)).ok()?;
    if closed.stations() == 2 {
        Some((closed.changes(0), closed.changes(1)))
    } else {
        None
    }
}

// How many changes A and B made at a desk of their own.
fn plays<R: Threads + Wait + Clock + Sync + Net<Listener = TcpListener, Stream = TcpStream>>(
    rt: &R,
    alloc: Global,
) -> Result<Option<(u64, u64)>, Fail> {
    let plan = plan_of(&["north"], &[(0, "A"), (0, "B")], 0).ok_or("no plan")?;
    let tables = Tables::make(alloc, plan.sites.len() as u16)?;
    Ok(changes_of_both::<Brand, R>(rt, alloc, tables, &plan))
}

#[test]
fn gate_holds_one_station(rt: HostRuntime) -> Result<(), Fail> {
    assert!(rt; plays(&rt, rt.alloc())? == Some((1, 1)));
    Ok(())
}
