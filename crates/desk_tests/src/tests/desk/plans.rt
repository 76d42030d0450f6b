use super::scenes::{Scene, plays};
use super::{
    FIRST, deliver, figures, has, has_figures, has_totals, is_tied, key_of, pass_of, tells,
};
use energy_flow::Work;
use ledger_model::{Answer, Command, Kind, Name};
use site_book::{Naming, Viewer};
use site_desk::{BoardFault, CloseFault, Closed, Desk, EnlistFault, MAX_PASSES, NoGate, Pass};
use std::alloc::Global;
use std::sync::Wait;
use std::test::Fail;
use std::thread::Threads;
use std::time::Clock;

// A desk that was not closed, with all that it handed back.
#[derive(Drop)]
struct Back<J: Naming> {
    desk: Desk<J>,
    passes: Vec<Pass>,
    viewers: Vec<Viewer<J>>,
}

// The close is refused with this fault, and hands back all that it was given.
fn not_closed<J: Naming>(back: Back<J>, fault: CloseFault) -> Option<Back<J>> {
    let counts = (back.passes.len(), back.viewers.len());
    let refused = back.desk.close(back.passes, back.viewers).err()?;
    let passes = refused.passes.into_vec();
    let viewers = refused.viewers.into_vec();
    if refused.fault != fault || (passes.len(), viewers.len()) != counts {
        return None;
    }
    Some(Back {
        desk: refused.desk,
        passes,
        viewers,
    })
}

// A close without the passes, and then one without the viewers, hands all back; then a close
// succeeds.
pub fn closes_with_all<J: Naming>(
    alloc: Global,
    desk: Desk<J>,
    passes: Vec<Pass>,
    viewers: Vec<Viewer<J>>,
) -> Option<Closed<J>> {
    let whole = Back {
        desk,
        passes: Vec::new(alloc),
        viewers,
    };
    let back = not_closed(whole, CloseFault::PassMissing)?;
    let unseen = Back {
        desk: back.desk,
        passes,
        viewers: Vec::new(alloc),
    };
    let unseen = not_closed(unseen, CloseFault::ViewerMissing)?;
    unseen.desk.close(unseen.passes, back.viewers).ok()
}

// A pass that delivers three events.
fn three_events<J: Naming, R: Wait + Threads + Clock>(
    rt: &R,
    alloc: Global,
    desk: &Desk<J>,
) -> Option<Pass> {
    let mut pass = pass_of(rt, desk, "A")?;
    for (number, told) in [
        (1, FIRST),
        (2, tells(Kind::Updated, 2, 31, 1_600)),
        (3, tells(Kind::Updated, 1, 14, 1_200)),
    ] {
        if deliver(rt, alloc, desk, &mut pass, told)? != Answer::Accepted(number) {
            return None;
        }
    }
    Some(pass)
}

// Returns whether A has its board of the three events.
fn shows_board<J: Naming, R: Wait + Threads>(
    rt: &R,
    alloc: Global,
    desk: &Desk<J>,
) -> Option<bool> {
    let mut work = Work::open(rt);
    let name = Name::new("A")?;
    let board = desk.station_board(rt, alloc, &name, &mut work).ok()?;
    let is_summed = board.figures() == figures([3, 0, 1, 0, 0, 600_000, 0]);
    Some(board.quarters().len() == 2 && is_summed)
}

// Returns whether Z has neither a board nor a pass.
fn knows_no_z<J: Naming, R: Wait + Threads>(rt: &R, alloc: Global, desk: &Desk<J>) -> Option<bool> {
    let name = Name::new("Z")?;
    let mut work = Work::open(rt);
    let none = desk.station_board(rt, alloc, &name, &mut work).err()?;
    let unknown = desk.enlist(rt, &name).err()?;
    Some(none == BoardFault::UnknownStation && unknown == EnlistFault::UnknownStation)
}

// Posts, boards and passes of a station.
pub fn posts<J: Naming, R: Threads + Wait + Clock>(
    rt: &R,
    alloc: Global,
    desk: &Desk<J>,
) -> Option<Vec<Pass>> {
    let pass = three_events(rt, alloc, desk)?;
    if shows_board(rt, alloc, desk)? && knows_no_z(rt, alloc, desk)? {
        one_of(alloc, pass)
    } else {
        None
    }
}

#[test]
fn posts_and_plans(rt: HostRuntime) -> Result<(), Fail> {
    plays(&rt, rt.alloc(), Scene::Posts)
}

// A pass that delivers the first event and voids it; both answers come with a `Told`.
fn two_changes<J: Naming, R: Wait + Threads + Clock>(
    rt: &R,
    alloc: Global,
    desk: &Desk<J>,
) -> Option<Pass> {
    let mut pass = pass_of(rt, desk, "A")?;
    let first = super::delivery_of(alloc, FIRST)?;
    let void = Command::Void(key_of(0)?);
    for (number, command) in [(1, first), (2, void)] {
        let (answer, told) = desk.submit(rt, &mut pass, command, &NoGate);
        if answer != Answer::Accepted(number) || told.is_none() {
            return None;
        }
    }
    Some(pass)
}

// A pass as a list.
fn one_of(alloc: Global, pass: Pass) -> Option<Vec<Pass>> {
    let mut passes = Vec::new(alloc);
    passes.push(pass).ok()?;
    Some(passes)
}

// Changes at a desk that does what it should.
pub fn changes<J: Naming, R: Wait + Threads + Clock>(
    rt: &R,
    alloc: Global,
    desk: &Desk<J>,
) -> Option<Vec<Pass>> {
    one_of(alloc, two_changes(rt, alloc, desk)?)
}

// Returns whether the desk closed on the two changes.
pub fn has_changes<J: Naming>(closed: &Closed<J>) -> bool {
    let voided = figures([0, 1, 0, 0, 0, 0, 0]);
    has(closed, 1, 1)
        && is_tied(closed, 0, 2)
        && has_figures(closed, 0, voided)
        && has_totals(closed, 0, voided)
}

#[test]
fn desk_refuses_all(rt: HostRuntime) -> Result<(), Fail> {
    plays(&rt, rt.alloc(), Scene::Changes)
}

// This fails for a desk that refuses a pass although the station has one more: no clause knows how many
// passes the cell behind the lock gave out.
pub fn each_pass<J: Naming, R: Wait + Threads>(
    rt: &R,
    alloc: Global,
    desk: &Desk<J>,
) -> Option<Vec<Pass>> {
    let station = Name::new("A")?;
    let mut passes = Vec::with_capacity(alloc, MAX_PASSES).ok()?;
    for _ in 0..MAX_PASSES {
        passes.push(desk.enlist(rt, &station).ok()?).ok()?;
    }
    if desk.enlist(rt, &station).err()? == EnlistFault::TooManyPasses {
        Some(passes)
    } else {
        None
    }
}

#[test]
fn enlist_refuses_all(rt: HostRuntime) -> Result<(), Fail> {
    plays(&rt, rt.alloc(), Scene::EachPass)
}

// How many events the board of a station shows.
fn events_of<J: Naming, R: Wait + Threads>(
    rt: &R,
    alloc: Global,
    desk: &Desk<J>,
    text: &str,
) -> Option<u64> {
    let mut work = Work::open(rt);
    let name = Name::new(text)?;
    let board = desk.station_board(rt, alloc, &name, &mut work).ok()?;
    Some(board.figures().events)
}

// This fails for the board of another station under equal limits: no clause knows what is behind which
// lock.
pub fn second_board<J: Naming, R: Threads + Wait + Clock>(
    rt: &R,
    alloc: Global,
    desk: &Desk<J>,
) -> Option<Vec<Pass>> {
    let mut pass = pass_of(rt, desk, "B")?;
    let answer = deliver(rt, alloc, desk, &mut pass, FIRST)?;
    let a = events_of(rt, alloc, desk, "A")?;
    let b = events_of(rt, alloc, desk, "B")?;
    if answer == Answer::Accepted(1) && (a, b) == (0, 1) {
        one_of(alloc, pass)
    } else {
        None
    }
}

#[test]
fn board_of_first_station(rt: HostRuntime) -> Result<(), Fail> {
    plays(&rt, rt.alloc(), Scene::SecondBoard)
}
