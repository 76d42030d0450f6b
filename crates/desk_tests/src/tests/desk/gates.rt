use super::scenes::{Scene, plays};
use super::{FIRST, both_of, delivery_of, pass_of, tells};
use crate::tests::gate::HoldsA;
use ledger_model::{Answer, Kind};
use site_book::Naming;
use site_desk::{Desk, NoGate, Pass};
use std::alloc::Global;
use std::sync::Wait;
use std::test::Fail;
use std::thread;
use std::thread::Threads;
use std::time::Clock;

// Delivers the first event under the gate. Returns the pass if that is its first change.
fn send<J: Naming, R: Wait + Clock>(
    rt: &R,
    alloc: Global,
    desk: &Desk<J>,
    gate: &HoldsA,
    mut pass: Pass,
) -> Option<Pass> {
    let command = delivery_of(alloc, FIRST)?;
    match desk.submit(rt, &mut pass, command, gate).0 {
        Answer::Accepted(1) => Some(pass),
        _ => None,
    }
}

// Sends an event to B after the gate holds A.
fn send_then<J: Naming, R: Wait + Clock>(
    rt: &R,
    alloc: Global,
    desk: &Desk<J>,
    gate: &HoldsA,
    pass: Pass,
) -> Option<Pass> {
    gate.wait_for_a(rt);
    let pass = send(rt, alloc, desk, gate, pass);
    gate.b_was_answered(rt);
    pass
}

// Both at once.
fn send_both<J: Naming + Send + Sync, R: Threads + Wait + Clock + Sync>(
    rt: &R,
    alloc: Global,
    desk: &Desk<J>,
    gate: &HoldsA,
) -> Option<Vec<Pass>> {
    let a = pass_of(rt, desk, "A")?;
    let b = pass_of(rt, desk, "B")?;
    let (a, b) = thread::join(
        rt,
        move || send(rt, alloc, desk, gate, a),
        move || send_then(rt, alloc, desk, gate, b),
    );
    both_of(alloc, a, b)
}

// B is answered while the gate keeps A under its lock.
pub fn held_station<J: Naming + Send + Sync, R: Threads + Wait + Clock + Sync>(
    rt: &R,
    alloc: Global,
    desk: &Desk<J>,
) -> Option<Vec<Pass>> {
    let gate = HoldsA::new();
    let passes = send_both(rt, alloc, desk, &gate)?;
    if gate.is_kept(rt) { Some(passes) } else { None }
}

#[test]
fn gate_holds_one_station(rt: HostRuntime) -> Result<(), Fail> {
    plays(&rt, rt.alloc(), Scene::HeldStation)
}

// Delivers 400 events, with every second number from 0 or 1 on; returns the pass if all were
// accepted.
fn deliver_each_second<J: Naming, R: Wait + Clock>(
    rt: &R,
    alloc: Global,
    desk: &Desk<J>,
    mut pass: Pass,
    first: u32,
) -> Option<Pass> {
    for k in 0..400 {
        let told = tells(Kind::Updated, first.min(1) + 2 * k, k as u64, 10 * k as u64);
        let (answer, _) = desk.submit(rt, &mut pass, delivery_of(alloc, told)?, &NoGate);
        if !matches!(answer, Answer::Accepted(_)) {
            return None;
        }
    }
    Some(pass)
}

// Two passes of one station at once. A post that is made after the station's lock was given up would tear
// the row.
pub fn two_passes<J: Naming + Send + Sync, R: Threads + Wait + Clock + Sync>(
    rt: &R,
    alloc: Global,
    desk: &Desk<J>,
) -> Option<Vec<Pass>> {
    let one = pass_of(rt, desk, "A")?;
    let other = pass_of(rt, desk, "A")?;
    let (one, other) = thread::join(
        rt,
        move || deliver_each_second(rt, alloc, desk, one, 0),
        move || deliver_each_second(rt, alloc, desk, other, 1),
    );
    both_of(alloc, one, other)
}

#[test]
fn posts_after_unlock(rt: HostRuntime) -> Result<(), Fail> {
    plays(&rt, rt.alloc(), Scene::TwoPasses)
}
