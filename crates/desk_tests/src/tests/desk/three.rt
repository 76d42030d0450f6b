ghost use Rattle.std.specs.Prelude.{◌≡◌, ◌≤◌, IfOk, IfSome, length};
ghost use Rattle.board_report.{specs.Plans.IsBoardWithin, specs.Sums.{station_quarters, AreOfPeriod, QuartersFit}};
ghost use Rattle.ledger_model.{specs.Settling.default_periods, specs.Ranges.most_readings};

use super::scenes::{Scene, plays};
use super::{
    Asked, FIRST, deliver, delivery_of, figures, has, has_figures, has_totals, is_tied, key_of,
    pass_of, tells,
};
use board_report::{SiteBoard, site_board, write_board};
use energy_flow::Work;
use ledger_model::{Answer, Command, Figures, Kind, Name, Order, Periods, Refusal};
use site_book::{Naming, Viewer};
use site_desk::{Closed, Desk, NoGate, Pass};
use station_ledger::{StationBoard, StationLedger};
use std::alloc::{AllocError, Global};
use std::sync::Wait;
use std::test::Fail;
use std::thread;
use std::thread::Threads;
use std::time::Clock;

const MIDDLE: Asked = Asked {
    kind: Kind::Updated,
    seq: 1,
    minute: 14,
    evse: None,
    read: 14,
    watt_hours: 1_200,
};

const LATER: Asked = Asked {
    kind: Kind::Updated,
    seq: 2,
    minute: 31,
    evse: None,
    read: 31,
    watt_hours: 1_600,
};

// The later event with another kind, moment, EVSE, moment of its reading, and register level.
const OTHERS: [Asked; 5] = [
    Asked {
        kind: Kind::Ended,
        ..LATER
    },
    Asked {
        minute: 32,
        ..LATER
    },
    Asked {
        evse: Some(1),
        ..LATER
    },
    Asked { read: 30, ..LATER },
    Asked {
        watt_hours: 1_601,
        ..LATER
    },
];

// What a replay of the same commands writes for `board north` (`tests/rows/three_threads.rows`).
const BOARD: &str = "board north period=900
total events=6 voided=0 transactions=2 complete=0 missing=0 up=650000 down=1500000 export_up=0 export_down=0
period 2026-03-01T10:00:00Z up=250000 down=1500000 export_up=0 export_down=0
period 2026-03-01T10:30:00Z up=400000 down=0 export_up=0 export_down=0
station A
total events=3 voided=0 transactions=1 complete=0 missing=0 up=600000 down=0 export_up=0 export_down=0
evse 0 up=600000 down=0 export_up=0 export_down=0
period 2026-03-01T10:00:00Z up=200000 down=0 export_up=0 export_down=0
period 2026-03-01T10:30:00Z up=400000 down=0 export_up=0 export_down=0
tx t1 evse=0 events=3 first=0 last=2 complete=no missing=0 up=600000 down=0 export_up=0 export_down=0
station B
total events=3 voided=0 transactions=1 complete=0 missing=0 up=50000 down=1500000 export_up=0 export_down=0
evse 0 up=50000 down=1500000 export_up=0 export_down=0
period 2026-03-01T10:00:00Z up=50000 down=1500000 export_up=0 export_down=0
tx t1 evse=0 events=3 first=0 last=2 complete=no missing=0 up=50000 down=1500000 export_up=0 export_down=0
end
";

// A's side: two events.
fn on_a<J: Naming, R: Wait + Clock>(
    rt: &R,
    alloc: Global,
    desk: &Desk<J>,
    mut pass: Pass,
) -> Option<Pass> {
    for told in [LATER, MIDDLE] {
        let answer = deliver(rt, alloc, desk, &mut pass, told)?;
        if !matches!(answer, Answer::Accepted(_)) {
            return None;
        }
    }
    Some(pass)
}

// The operator's side: event 0 is voided and restored.
fn by_operator<J: Naming, R: Wait + Clock>(rt: &R, desk: &Desk<J>, mut pass: Pass) -> Option<Pass> {
    let void = Command::Void(key_of(0)?);
    let restore = Command::Restore(key_of(0)?);
    for command in [void, restore] {
        let (answer, _) = desk.submit(rt, &mut pass, command, &NoGate);
        if !matches!(answer, Answer::Accepted(_)) {
            return None;
        }
    }
    Some(pass)
}

// B's side: three events of a falling register; the viewer learns the last. Returns what the viewer
// sees then.
fn on_b<J: Naming, R: Wait + Clock>(
    rt: &R,
    alloc: Global,
    desk: &Desk<J>,
    mut pass: Pass,
    mut viewer: Viewer<J>,
) -> Option<(Pass, Viewer<J>, Figures)> {
    deliver(
        rt,
        alloc,
        desk,
        &mut pass,
        tells(Kind::Started, 0, 0, 1_600),
    )?;
    deliver(rt, alloc, desk, &mut pass, tells(Kind::Updated, 1, 5, 100))?;
    let last = delivery_of(alloc, tells(Kind::Updated, 2, 10, 150))?;
    let told = desk.submit(rt, &mut pass, last, &NoGate).1?;
    if told.site() != viewer.site() {
        return None;
    }
    viewer.learn(told);
    let seen = viewer.glance();
    Some((pass, viewer, seen))
}

// The three sides after them: the passes of A, B and the operator, the viewer, and what it saw.
#[derive(Drop)]
struct Sides<J: Naming> {
    a: Pass,
    b: Pass,
    operator: Pass,
    viewer: Viewer<J>,
    seen: Figures,
}

// The three sides at once.
fn at_once<J: Naming + Send + Sync, R: Threads + Wait + Clock + Sync>(
    rt: &R,
    alloc: Global,
    desk: &Desk<J>,
    passes: (Pass, Pass, Pass),
    viewer: Viewer<J>,
) -> Option<Sides<J>> {
    let (a, b, operator) = passes;
    let (a, (operator, b)) = thread::join(
        rt,
        move || on_a(rt, alloc, desk, a),
        move || {
            thread::join(
                rt,
                move || by_operator(rt, desk, operator),
                move || on_b(rt, alloc, desk, b, viewer),
            )
        },
    );
    let (b, viewer, seen) = b?;
    Some(Sides {
        a: a?,
        b,
        operator: operator?,
        viewer,
        seen,
    })
}

// Passes of A, B and A again, after the first event is there.
fn enlisted<J: Naming, R: Threads + Wait + Clock>(
    rt: &R,
    alloc: Global,
    desk: &Desk<J>,
) -> Option<(Pass, Pass, Pass)> {
    let mut a = pass_of(rt, desk, "A")?;
    let b = pass_of(rt, desk, "B")?;
    let operator = pass_of(rt, desk, "A")?;
    match deliver(rt, alloc, desk, &mut a, FIRST)? {
        Answer::Accepted(1) => Some((a, b, operator)),
        _ => None,
    }
}

// Returns whether an event that differs in one part of its content is refused, for each part.
fn conflicts<J: Naming, R: Wait + Clock>(
    rt: &R,
    alloc: Global,
    desk: &Desk<J>,
    pass: &mut Pass,
) -> bool {
    for told in OTHERS {
        let answer = deliver(rt, alloc, desk, pass, told);
        if answer != Some(Answer::Refused(Refusal::ConflictingEvent)) {
            return false;
        }
    }
    true
}

// Returns whether a repeat is one, and the erasure of what is not voided is refused.
fn repeats<J: Naming, R: Wait + Clock>(
    rt: &R,
    alloc: Global,
    desk: &Desk<J>,
    pass: &mut Pass,
) -> Option<bool> {
    let again = deliver(rt, alloc, desk, pass, LATER)?;
    let erase = Command::Erase(key_of(0)?);
    let (answer, told) = desk.submit(rt, pass, erase, &NoGate);
    let is_refused = answer == Answer::Refused(Refusal::NotVoided) && told.is_none();
    Some(again == Answer::Repeat && is_refused)
}

// A's figures, and B's.
fn first() -> Figures {
    figures([3, 0, 1, 0, 0, 600_000, 0])
}

fn second() -> Figures {
    figures([3, 0, 1, 0, 0, 50_000, 1_500_000])
}

// Returns whether the station's board has these figures, this many periods, and one transaction.
fn has_board<J: Naming, R: Wait + Threads>(
    rt: &R,
    alloc: Global,
    desk: &Desk<J>,
    text: &str,
    expected: (Figures, usize),
) -> Option<bool> {
    let mut work = Work::open(rt);
    let name = Name::new(text)?;
    let board = desk.station_board(rt, alloc, &name, &mut work).ok()?;
    let shown = (board.figures(), board.quarters().len());
    Some(shown == expected && board.transactions().len() == 1)
}

// The board of a station; it is within the limits of its ledger.
fn board_within(
    alloc: Global,
    ledger: &StationLedger,
    work: &mut Work,
) -> Result<StationBoard, AllocError>
    ensures few { ledger.now.limits.readings ≤ most_readings }
    ensures within { IfOk result (λ b. IsBoardWithin ledger.now.limits b) }
{
    let _readings = ledger.limits().readings();
    ledger.board(alloc, work)
}

// The boards of both stations by name, if both have the default length of periods; their sums fit.
fn boards_of<J: Naming>(
    alloc: Global,
    closed: &Closed<J>,
    first: Name,
    second: Name,
    work: &mut Work,
) -> Result<Option<Vec<(Name, StationBoard)>>, AllocError>
    requires { length closed.now.cells ≡ 2 }
    ensures fit { IfOk result (λ r. IfSome r (λ boards. QuartersFit (station_quarters boards.items))) }
    ensures periods { IfOk result (λ r. IfSome r (λ boards. AreOfPeriod default_periods boards.items)) }
{
    let a = board_within(alloc, closed.ledger(0), work)?;
    let b = board_within(alloc, closed.ledger(1), work)?;
    if a.period() != Periods::default() || b.period() != Periods::default() {
        return Ok(None);
    }
    Ok(Some(vec![in alloc; (first, a), (second, b)]?))
}

// The board of the site over both stations.
fn board_of<J: Naming>(alloc: Global, closed: &Closed<J>, work: &mut Work) -> Option<SiteBoard> {
    if closed.stations() != 2 || closed.sites() != 1 {
        return None;
    }
    let stations = boards_of(alloc, closed, Name::new("A")?, Name::new("B")?, work).ok()??;
    let name = Name::new("north")?;
    site_board(
        alloc,
        &name,
        Periods::default(),
        Order::Sequence,
        closed.totals(0),
        stations,
    )
    .ok()
}

// Returns whether the threads leave the board of their script.
fn is_board_of_script<J: Naming>(
    alloc: Global,
    closed: &Closed<J>,
    work: &mut Work,
) -> Option<bool> {
    let text = write_board(alloc, &board_of(alloc, closed, work)?).ok()?;
    Some(text.as_slice() == BOARD.as_bytes())
}

// Returns whether each station's board and the answers of A are right after the three sides.
fn is_right<J: Naming, R: Wait + Threads + Clock>(
    rt: &R,
    alloc: Global,
    desk: &Desk<J>,
    a: &mut Pass,
) -> Option<bool> {
    let is_asked = conflicts(rt, alloc, desk, a) && repeats(rt, alloc, desk, a)?;
    let first = has_board(rt, alloc, desk, "A", (first(), 2))?;
    let second = has_board(rt, alloc, desk, "B", (second(), 1))?;
    Some(is_asked && first && second)
}

// The three passes as a list.
fn list_of(alloc: Global, a: Pass, b: Pass, operator: Pass) -> Option<Vec<Pass>> {
    let mut passes = Vec::with_capacity(alloc, 3).ok()?;
    for pass in [a, b, operator] {
        passes.push(pass).ok()?;
    }
    Some(passes)
}

// Two stations and an operator at once. The viewer sees B's posts.
pub fn three_sides<J: Naming + Send + Sync, R: Threads + Wait + Clock + Sync>(
    rt: &R,
    alloc: Global,
    desk: &Desk<J>,
    viewers: &mut Vec<Viewer<J>>,
) -> Option<Vec<Pass>> {
    let passes = enlisted(rt, alloc, desk)?;
    let mut sides = at_once(rt, alloc, desk, passes, viewers.pop()?)?;
    viewers.push(sides.viewer).ok()?;
    if sides.seen.down == 1_500_000 && is_right(rt, alloc, desk, &mut sides.a)? {
        list_of(alloc, sides.a, sides.b, sides.operator)
    } else {
        None
    }
}

// Returns whether the desk closed on what the three sides did.
pub fn has_three<J: Naming>(alloc: Global, closed: &Closed<J>, work: &mut Work) -> bool {
    let both = figures([6, 0, 2, 0, 0, 650_000, 1_500_000]);
    has(closed, 2, 1)
        && is_tied(closed, 0, 5)
        && is_tied(closed, 1, 3)
        && has_figures(closed, 0, first())
        && has_figures(closed, 1, second())
        && has_totals(closed, 0, both)
        && is_board_of_script(alloc, closed, work) == Some(true)
}

#[test]
fn three_threads(rt: HostRuntime) -> Result<(), Fail> {
    plays(&rt, rt.alloc(), Scene::ThreeSides)
}
