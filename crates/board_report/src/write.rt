// The text of a board, line by line.
ghost use Rattle.std.{specs.Prelude.{◌≡◌, ◌++◌, OnOk, IfOk}, specs.List.flat_map};
ghost use Rattle.ledger_model.specs.Quarter.{IsQuarterOf};
ghost use Rattle.board_report.{specs.Sums.AreQuartersOf, specs.Texts.{field, line, energy_fields, start_text, events_fields, completeness_fields, total_text as total_text_of, quarter_line, evse_line, yes_or_no, transaction_line, gap_line, transaction_text, station_text, heading, order_field, settle_field, board_text}};

use crate::board::SiteBoard;
use crate::fixed::total_text;
use arrayvec::ArrayString;
use energy_flow::Flow;
use itoa::Buffer;
use ledger_model::{ByDirection, Figures, Name, Order, Periods, Quarter, Settle};
use reading_decimal::{moment_text, quarter_start};
use station_ledger::{EvseLine, QuarterLine, StationBoard, TxLine};
use std::alloc::{AllocError, Global};

// Appends a label and a number.
#[tactic(auto, unfolding(crate::specs::Texts::field))]
pub(crate) fn put_field(text: &mut Vec<u8>, label: &str, number: u64) -> Result<(), AllocError>
    ensures { OnOk result (text.new.items ≡ text.old.items ++ field label.now number) }
{
    text.extend_from_slice(label.as_bytes())?;
    text.extend_from_slice(Buffer::new().format(number).as_bytes())
}

// Appends a word, a text and a line feed.
fn put_text(text: &mut Vec<u8>, word: &str, shown: &str) -> Result<(), AllocError>
    ensures { OnOk result (text.new.items ≡ text.old.items ++ line (word.now ++ shown.now)) }
{
    text.extend_from_slice(word.as_bytes())?;
    text.extend_from_slice(shown.as_bytes())?;
    text.push(b'\n')?;
    Ok(())
}

// Appends ` up=<n> down=<n> export_up=<n> export_down=<n>`.
#[tactic(auto, unfolding(crate::specs::Texts::flows_fields))]
pub(crate) fn put_fields(text: &mut Vec<u8>, energy: ByDirection<Flow>) -> Result<(), AllocError>
    ensures { OnOk result (text.new.items ≡ text.old.items ++ energy_fields energy) }
{
    put_field(text, " up=", energy.import.up())?;
    put_field(text, " down=", energy.import.down())?;
    put_field(text, " export_up=", energy.export.up())?;
    put_field(text, " export_down=", energy.export.down())
}

// Appends the same fields and a line feed.
fn put_flows(text: &mut Vec<u8>, energy: ByDirection<Flow>) -> Result<(), AllocError>
    ensures { OnOk result (text.new.items ≡ text.old.items ++ line (energy_fields energy)) }
{
    put_fields(text, energy)?;
    text.push(b'\n')?;
    Ok(())
}

// Appends the total line.
fn put_total(text: &mut Vec<u8>, figures: &Figures) -> Result<(), AllocError>
    ensures { OnOk result (text.new.items ≡ text.old.items ++ line (total_text_of figures.now)) }
{
    text.extend_from_slice(total_text(figures).as_str().as_bytes())?;
    text.push(b'\n')?;
    Ok(())
}

// The first moment of a period.
#[tactic(auto, unfolding(crate::specs::Texts::start_text))]
pub(crate) fn start_text(quarter: Quarter, period: Periods) -> ArrayString<20>
    requires { IsQuarterOf period.length quarter }
    ensures { result.bytes ≡ start_text period quarter }
{
    moment_text(quarter_start(quarter, period.length()))
}

// Appends the line of a period.
#[tactic(auto, unfolding(crate::specs::Texts::quarter_line))]
fn put_quarter(text: &mut Vec<u8>, period: Periods, shown: &QuarterLine) -> Result<(), AllocError>
    requires { IsQuarterOf period.length shown.now.0 }
    ensures { OnOk result (text.new.items ≡ text.old.items ++ quarter_line period shown.now) }
{
    text.extend_from_slice(b"period ")?;
    text.extend_from_slice(start_text(shown.quarter(), period).as_str().as_bytes())?;
    put_flows(text, shown.energy())
}

// Appends the line of an EVSE.
#[tactic(auto, unfolding(crate::specs::Texts::evse_line))]
fn put_evse(text: &mut Vec<u8>, shown: &EvseLine) -> Result<(), AllocError>
    ensures { OnOk result (text.new.items ≡ text.old.items ++ evse_line shown.now) }
{
    put_field(text, "evse ", u64::from(shown.evse().number()))?;
    put_flows(text, shown.energy())
}

// Appends the line of a gap.
#[tactic(auto, unfolding(crate::specs::Texts::gap_line))]
fn put_gap(text: &mut Vec<u8>, gap: (u32, u32)) -> Result<(), AllocError>
    ensures { OnOk result (text.new.items ≡ text.old.items ++ gap_line gap) }
{
    put_field(text, "gap ", u64::from(gap.0))?;
    put_field(text, "..", u64::from(gap.1))?;
    text.push(b'\n')?;
    Ok(())
}

// `yes` or `no`.
fn yes_or_no(is: bool) -> &'static str
    ensures { result.now ≡ yes_or_no is }
{
    if is { "yes" } else { "no" }
}

// Appends the EVSE, the events and the first and last number of a transaction.
#[tactic(auto, unfolding(crate::specs::Texts::events_fields))]
fn put_events(text: &mut Vec<u8>, shown: &TxLine) -> Result<(), AllocError>
    ensures { OnOk result (text.new.items ≡ text.old.items ++ events_fields shown.now) }
{
    put_field(text, " evse=", u64::from(shown.evse().number()))?;
    put_field(text, " events=", shown.events())?;
    put_field(text, " first=", u64::from(shown.first()))?;
    put_field(text, " last=", u64::from(shown.last()))
}

// Appends whether a transaction is complete, and what it misses.
#[tactic(auto, unfolding(crate::specs::Texts::completeness_fields))]
fn put_completeness(text: &mut Vec<u8>, shown: &TxLine) -> Result<(), AllocError>
    ensures { OnOk result (text.new.items ≡ text.old.items ++ completeness_fields shown.now) }
{
    text.extend_from_slice(b" complete=")?;
    text.extend_from_slice(yes_or_no(shown.is_complete()).as_bytes())?;
    put_field(text, " missing=", shown.missing())
}

// Appends the line of a transaction.
#[tactic(auto, unfolding(crate::specs::Texts::transaction_line))]
fn put_transaction(text: &mut Vec<u8>, shown: &TxLine) -> Result<(), AllocError>
    ensures { OnOk result (text.new.items ≡ text.old.items ++ transaction_line shown.now) }
{
    text.extend_from_slice(b"tx ")?;
    text.extend_from_slice(shown.tx().text().as_bytes())?;
    put_events(text, shown)?;
    put_completeness(text, shown)?;
    put_flows(text, shown.energy())
}

// Appends the lines of gaps.
fn put_gaps(text: &mut Vec<u8>, gaps: &[(u32, u32)]) -> Result<(), AllocError>
    ensures { OnOk result (text.new.items ≡ text.old.items ++ flat_map gap_line gaps.now) }
{
    for gap in gaps {
        put_gap(text, *gap)?;
    }
    Ok(())
}

// Appends the line of a transaction and those of its gaps.
#[tactic(auto, unfolding(crate::specs::Texts::transaction_text))]
fn put_with_gaps(text: &mut Vec<u8>, shown: &TxLine) -> Result<(), AllocError>
    ensures { OnOk result (text.new.items ≡ text.old.items ++ transaction_text shown.now) }
{
    put_transaction(text, shown)?;
    put_gaps(text, shown.gaps())
}

// Appends the lines of periods.
fn put_quarters(
    text: &mut Vec<u8>,
    period: Periods,
    quarters: &[QuarterLine],
) -> Result<(), AllocError>
    requires { AreQuartersOf period quarters.now }
    ensures { OnOk result (text.new.items ≡ text.old.items ++ flat_map (quarter_line period) quarters.now) }
{
    for quarter in quarters {
        put_quarter(text, period, quarter)?;
    }
    Ok(())
}

// Appends the lines of EVSEs.
fn put_evses(text: &mut Vec<u8>, evses: &[EvseLine]) -> Result<(), AllocError>
    ensures { OnOk result (text.new.items ≡ text.old.items ++ flat_map evse_line evses.now) }
{
    for evse in evses {
        put_evse(text, evse)?;
    }
    Ok(())
}

// Appends the lines of transactions, each with its gaps.
fn put_transactions(text: &mut Vec<u8>, transactions: &[TxLine]) -> Result<(), AllocError>
    ensures { OnOk result (text.new.items ≡ text.old.items ++ flat_map transaction_text transactions.now) }
{
    for transaction in transactions {
        put_with_gaps(text, transaction)?;
    }
    Ok(())
}

// Appends the lines of a station.
#[tactic(auto, unfolding(crate::specs::Texts::station_text))]
fn put_station(text: &mut Vec<u8>, station: &(Name, StationBoard)) -> Result<(), AllocError>
    ensures { OnOk result (text.new.items ≡ text.old.items ++ station_text station.now) }
{
    let board = &station.1;
    put_text(text, "station ", station.0.text())?;
    put_total(text, &board.figures())?;
    put_evses(text, board.evses())?;
    put_quarters(text, board.period(), board.quarters())?;
    put_transactions(text, board.transactions())
}

// Appends the lines of stations.
fn put_stations(text: &mut Vec<u8>, stations: &[(Name, StationBoard)]) -> Result<(), AllocError>
    ensures { OnOk result (text.new.items ≡ text.old.items ++ flat_map station_text stations.now) }
{
    for station in stations {
        put_station(text, station)?;
    }
    Ok(())
}

// Nothing for readings by sequence, ` order=moment` for readings by moment.
pub(crate) fn order_field(order: Order) -> &'static str
    ensures { result.now ≡ order_field order }
{
    match order {
        Order::Sequence => "",
        Order::Moment => " order=moment",
    }
}

// Nothing if differences count in the period of their later reading, ` settle=closing` if they count in the
// period that it closes, ` settle=even` if they are shared by time.
pub(crate) fn settle_field(settle: Settle) -> &'static str
    ensures { result.now ≡ settle_field settle }
{
    match settle {
        Settle::Later => "",
        Settle::Closing => " settle=closing",
        Settle::Even => " settle=even",
    }
}

// Appends the name of a site, the length of its periods, the order of its readings if that is by moment, and
// the rule of settling if that is not by the later reading.
#[tactic(auto, unfolding(crate::specs::Texts::heading))]
fn put_heading(text: &mut Vec<u8>, board: &SiteBoard) -> Result<(), AllocError>
    ensures { OnOk result (text.new.items ≡ text.old.items ++ heading board.now.name board.now.period board.now.order) }
{
    text.extend_from_slice(b"board ")?;
    text.extend_from_slice(board.name().text().as_bytes())?;
    put_field(
        text,
        " period=",
        u64::from(board.period().length().seconds()),
    )?;
    text.extend_from_slice(order_field(board.order()).as_bytes())?;
    text.extend_from_slice(settle_field(board.period().rule()).as_bytes())?;
    text.push(b'\n')?;
    Ok(())
}

/// The text of a site's board: its name with its settlement periods and its order of readings, its total
/// and its periods; then each station with its name, its total, its EVSEs, its periods and its transactions,
/// each of these with its gaps; then `end`. Each line ends with a line feed. The error says that the allocator
/// refused memory.
pub fn write_board(alloc: Global, board: &SiteBoard) -> Result<Vec<u8>, AllocError>
    ensures { IfOk result (λ text. text.items ≡ board_text board.now) }
{
    let mut text = Vec::new(alloc);
    put_heading(&mut text, board)?;
    put_total(&mut text, &board.figures())?;
    put_quarters(&mut text, board.period(), board.quarters())?;
    put_stations(&mut text, board.stations())?;
    text.extend_from_slice(b"end\n")?;
    Ok(text)
}
