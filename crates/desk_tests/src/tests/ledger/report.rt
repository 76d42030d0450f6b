ghost use Rattle.std.specs.Prelude.{◌≡◌, ◌≤◌, IfOk};
ghost use Rattle.ledger_model.{specs.Limits.{Bounds, default_limits}, specs.Settling.default_periods};
ghost use Rattle.board_report.{specs.Plans.IsBoardWithin, specs.Sums.{station_quarters, AreOfPeriod, QuartersFit}};

use board_report::{SiteBoard, energy_text, site_board, total_text, write_board};
use energy_flow::{Flow, Level, Work, difference};
use ledger_model::{
    Answer, Command, Direction, Event, Figures, Key, Kind, Limits, Moment, Name, Order, Period,
    Periods, Reading, Settle, TxId,
};
use station_ledger::{StationBoard, StationLedger};
use std::alloc::{AllocError, AllocFailed, Global};

// A delivery for transaction T1: the event's kind, number, minute after ten o'clock and reading in
// watt-hours.
#[derive(Clone, Copy)]
struct Asked(Kind, u32, u64, u64);

// A site: the figures that are handed in, its stations with the deliveries to each, and its text.
#[derive(Clone, Copy)]
struct Site {
    figures: [u64; 7],
    stations: &'static [(&'static str, &'static [Asked])],
    text: &'static str,
}

const START: Asked = Asked(Kind::Started, 0, 0, 1_000);

const MIDDLE: Asked = Asked(Kind::Updated, 1, 14, 1_200);

const LATER: Asked = Asked(Kind::Updated, 2, 31, 1_600);

const FALLING: &[Asked] = &[
    Asked(Kind::Started, 0, 0, 1_600),
    Asked(Kind::Updated, 1, 5, 100),
    Asked(Kind::Updated, 2, 10, 150),
];

const TWO_STATIONS: Site = Site {
    figures: [6, 0, 2, 0, 0, 650_000, 1_500_000],
    stations: &[("A", &[START, LATER, MIDDLE]), ("B", FALLING)],
    text: "board north period=900
total events=6 voided=0 transactions=2 complete=0 missing=0 up=650000 down=1500000 export_up=0 export_down=0
period 2026-03-01T10:00:00Z up=250000 down=1500000 export_up=0 export_down=0
period 2026-03-01T10:30:00Z up=400000 down=0 export_up=0 export_down=0
station A
total events=3 voided=0 transactions=1 complete=0 missing=0 up=600000 down=0 export_up=0 export_down=0
evse 0 up=600000 down=0 export_up=0 export_down=0
period 2026-03-01T10:00:00Z up=200000 down=0 export_up=0 export_down=0
period 2026-03-01T10:30:00Z up=400000 down=0 export_up=0 export_down=0
tx t1 evse=0 events=3 first=0 last=2 complete=no missing=0 up=600000 down=0 export_up=0 export_down=0
station B
total events=3 voided=0 transactions=1 complete=0 missing=0 up=50000 down=1500000 export_up=0 export_down=0
evse 0 up=50000 down=1500000 export_up=0 export_down=0
period 2026-03-01T10:00:00Z up=50000 down=1500000 export_up=0 export_down=0
tx t1 evse=0 events=3 first=0 last=2 complete=no missing=0 up=50000 down=1500000 export_up=0 export_down=0
end
",
};

const NO_STATION: Site = Site {
    figures: [0, 0, 0, 0, 0, 0, 0],
    stations: &[],
    text: "board north period=900
total events=0 voided=0 transactions=0 complete=0 missing=0 up=0 down=0 export_up=0 export_down=0
end
",
};

fn command(alloc: Global, asked: Asked) -> Option<Command> {
    let Asked(kind, seq, minute, watt_hours) = asked;
    let moment = Moment::new((1_772_359_200 + 60 * minute.min(59)) * 1_000_000_000)?;
    let mwh = 1_000 * watt_hours.min(10_000_000_000);
    let mut readings = Vec::new(alloc);
    readings
        .push(Reading::new(moment, mwh, Direction::Import)?)
        .ok()?;
    let event = Event::new(kind, moment, None, readings).ok()?;
    Some(Command::Deliver(Key::new(TxId::new("T1")?, seq)?, event))
}

// Why there is no board: no memory, a command that is refused, or a text that is no name.
#[derive(Drop)]
struct Refused;

impl From<AllocError> for Refused {
    fn from(_error: AllocError) -> Refused {
        Refused
    }
}

impl From<AllocFailed<(Name, StationBoard)>> for Refused {
    fn from(_error: AllocFailed<(Name, StationBoard)>) -> Refused {
        Refused
    }
}

// The board of a station that took these commands.
fn station(alloc: Global, work: &mut Work, asked: &[Asked]) -> Result<StationBoard, Refused>
    ensures within { IfOk result (λ b. IsBoardWithin default_limits b) }
    ensures period { IfOk result (λ b. b.period ≡ default_periods) }
{
    let mut ledger = StationLedger::open(
        alloc,
        Limits::default(),
        Period::default(),
        Order::Sequence,
        Settle::default(),
    )?;
    for one in asked {
        if !is_taken(&mut ledger, command(alloc, *one), work) {
            return Err(Refused);
        }
    }
    Ok(ledger.board(alloc, work)?)
}

// Whether there is a command, and the ledger accepts it.
fn is_taken(ledger: &mut StationLedger, command: Option<Command>, work: &mut Work) -> bool
    ensures limits { ledger.new.limits ≡ ledger.old.limits }
    ensures period { ledger.new.period ≡ ledger.old.period }
{
    match command {
        Some(command) => matches!(ledger.apply(command, work), Answer::Accepted(_)),
        None => false,
    }
}

// The boards of a site's stations by name; a plan of default limits has at most 64 stations.
fn stations(
    alloc: Global,
    work: &mut Work,
    told: &[(&'static str, &'static [Asked])],
) -> Result<Vec<(Name, StationBoard)>, Refused>
    ensures fit { IfOk result (λ boards. QuartersFit (station_quarters boards.items)) }
    ensures periods { IfOk result (λ boards. AreOfPeriod default_periods boards.items) }
{
    if told.len() > 64 {
        return Err(Refused);
    }
    let mut boards = Vec::new(alloc);
    for (name, asked) in told {
        let name = Name::new(name).ok_or(Refused)?;
        let board = station(alloc, work, asked)?;
        boards.push((name, board))?;
    }
    Ok(boards)
}

fn figures(numbers: [u64; 7]) -> Figures {
    let [events, voided, transactions, complete, missing, up, down] = numbers;
    Figures {
        events,
        voided,
        transactions,
        complete,
        missing,
        up,
        down,
        ..Figures::zero()
    }
}

fn board_of(alloc: Global, work: &mut Work, site: &Site) -> Option<SiteBoard> {
    let boards = stations(alloc, work, site.stations).ok()?;
    let (name, figures) = (Name::new("north")?, figures(site.figures));
    site_board(
        alloc,
        &name,
        Periods::default(),
        Order::Sequence,
        figures,
        boards,
    )
    .ok()
}

// The text of a site's board. If it found no memory, it is asked for once more.
fn text_of(alloc: Global, work: &mut Work, site: &Site) -> Option<Vec<u8>> {
    let board = match board_of(alloc, work, site) {
        Some(board) => board,
        None => board_of(alloc, work, site)?,
    };
    match write_board(alloc, &board) {
        Ok(text) => Some(text),
        Err(_) => write_board(alloc, &board).ok(),
    }
}

// Returns whether this is the text of a site's board.
fn is_text(alloc: Global, work: &mut Work, site: &Site) -> bool {
    match text_of(alloc, work, site) {
        Some(text) => text.as_slice() == site.text.as_bytes(),
        None => false,
    }
}

#[test]
fn a_site_without_stations_has_a_board(rt: HostRuntime) {
    let mut work = Work::open(&rt);
    assert!(rt; is_text(rt.alloc(), &mut work, &NO_STATION));
}

// Run with each allocation refused in turn: a board that finds no memory can be made again.
#[test]
fn a_board_without_memory_is_made_again(rt: HostRuntime) {
    let mut work = Work::open(&rt);
    assert!(rt; is_text(rt.alloc(), &mut work, &TWO_STATIONS));
}

const GREATEST: &str =
    "total events=18446744073709551615 voided=18446744073709551615 transactions=18446744073709551615 complete=18446744073709551615 missing=18446744073709551615 up=18446744073709551615 down=18446744073709551615 export_up=18446744073709551615 export_down=18446744073709551615";

// Returns whether the longest total line fits.
fn is_greatest() -> bool {
    let figures = Figures {
        export_up: u64::MAX,
        export_down: u64::MAX,
        ..figures([u64::MAX; 7])
    };
    let greatest = total_text(&figures);
    greatest.as_str() == GREATEST && greatest.len() == 268
}

fn is_energy(flow: Flow, want: &str) -> bool {
    energy_text(flow).as_str() == want
}

// Returns whether the energies of the greatest rise, of the greatest fall and of both are written
// as they should be.
fn are_energies(rise: Flow, fall: Flow) -> bool {
    is_energy(Flow::zero(), "energy up=0 down=0")
        && is_energy(rise, "energy up=18446744073709551615 down=0")
        && is_energy(fall, "energy up=0 down=18446744073709551615")
        && rise.can_plus(fall)
        && is_energy(
            rise.plus(fall),
            "energy up=18446744073709551615 down=18446744073709551615",
        )
}

#[test]
fn texts_of_the_greatest_numbers(rt: HostRuntime) {
    assert!(rt; is_greatest());
    let mut work = Work::open(&rt);
    let rise = difference(Level::new(0), Level::new(u64::MAX), &mut work);
    let fall = difference(Level::new(u64::MAX), Level::new(0), &mut work);
    assert!(rt; are_energies(rise, fall));
}
