//! The texts of a transaction's events and readings, line by line.
ghost use Rattle.std.{specs.Prelude.{◌≡◌, ◌+◌, ◌++◌, All, None, codes, not, OnOk, IfOk}, specs.List.{count_by, flat_map}};
ghost use Rattle.ledger_model.specs.Quarter.{IsQuarterOf};
ghost use Rattle.board_report.{specs.Listing.{event_line, events_heading, events_text, exact_text, kind_text, part_line, reading_fields, reading_text, readings_behind, readings_heading, readings_text, voided_text}, specs.Looks.{listing_looks, pairs_behind, reading_looks}, specs.Texts.flow_fields};
ghost use Rattle.station_ledger.specs.Quarters.{IsWork};

use crate::write::{order_field, put_field, put_fields, settle_field, start_text};
use energy_flow::{Flow, Work, difference};
use itoa::Buffer;
use ledger_model::{Kind, Moment, Name, Periods, Quarter, Reading, TxId};
use reading_decimal::moment_text;
use station_ledger::{EventLine, PlacedReading, TxListing, parts_between};
use std::alloc::{AllocError, Global};

const NANOS_PER_SECOND: u64 = 1_000_000_000;

// How many bytes the text of a whole second has before its `Z`.
const SECOND_BYTES: usize = 19;

// Appends a moment: to its second if it is a whole one, else to its nanosecond.
fn put_moment(text: &mut Vec<u8>, moment: Moment) -> Result<(), AllocError>
    ensures { OnOk result (text.new.items ≡ text.old.items ++ exact_text moment) }
{
    let second = moment_text(moment);
    let second = second.as_str().as_bytes();
    let nanos = moment.nanos() % NANOS_PER_SECOND;
    if nanos == 0 {
        return text.extend_from_slice(second);
    }
    text.extend_from_slice(&second[..SECOND_BYTES])?;
    text.push(b'.')?;
    let mut digits = Buffer::new();
    text.extend_from_slice(&digits.format(NANOS_PER_SECOND + nanos).as_bytes()[1..])?;
    text.push(b'Z')?;
    Ok(())
}

// The kind of an event.
fn kind_text(kind: Kind) -> &'static str
    ensures { result.now ≡ kind_text kind }
{
    match kind {
        Kind::Started => "Started",
        Kind::Updated => "Updated",
        Kind::Ended => "Ended",
    }
}

// ` live` or ` voided`.
fn voided_text(voided: bool) -> &'static str
    ensures { result.now ≡ voided_text voided }
{
    if voided { " voided" } else { " live" }
}

// Appends the line of an event.
#[tactic(auto, unfolding(crate::specs::Listing::event_line))]
fn put_event(text: &mut Vec<u8>, shown: &EventLine) -> Result<(), AllocError>
    ensures { OnOk result (text.new.items ≡ text.old.items ++ event_line shown.now) }
{
    put_field(text, "event ", u64::from(shown.number))?;
    text.extend_from_slice(b" ")?;
    text.extend_from_slice(kind_text(shown.kind).as_bytes())?;
    text.extend_from_slice(b" ")?;
    put_moment(text, shown.moment)?;
    put_field(text, " evse=", u64::from(shown.evse.number()))?;
    put_field(text, " readings=", shown.readings as u64)?;
    text.extend_from_slice(voided_text(shown.voided).as_bytes())?;
    text.push(b'\n')?;
    Ok(())
}

// Appends the lines of events.
fn put_events(text: &mut Vec<u8>, events: &[EventLine]) -> Result<(), AllocError>
    ensures { OnOk result (text.new.items ≡ text.old.items ++ flat_map event_line events.now) }
{
    for event in events {
        put_event(text, event)?;
    }
    Ok(())
}

// How many events are live, and how many are voided.
fn counts(events: &[EventLine]) -> (u64, u64)
    ensures live { result.0 ≡ count_by (λ e. not e.voided) events.now }
    ensures voided { result.1 ≡ count_by (λ e. e.voided) events.now }
{
    let mut live = 0;
    let mut voided = 0;
    for event in events {
        if event.voided {
            voided += 1;
        } else {
            live += 1;
        }
    }
    (live, voided)
}

// Appends a word, the name of a station, and the id of a transaction.
fn put_place(text: &mut Vec<u8>, word: &str, name: &Name, tx: &TxId) -> Result<(), AllocError>
    ensures { OnOk result (text.new.items ≡ text.old.items ++ (word.now ++ (name.now ++ (codes " " ++ tx.now)))) }
{
    text.extend_from_slice(word.as_bytes())?;
    text.extend_from_slice(name.text().as_bytes())?;
    text.extend_from_slice(b" ")?;
    text.extend_from_slice(tx.text().as_bytes())
}

// Appends the heading of a list of events.
#[tactic(auto, unfolding(crate::specs::Listing::events_heading))]
fn put_events_heading(
    text: &mut Vec<u8>,
    name: &Name,
    tx: &TxId,
    events: &[EventLine],
) -> Result<(), AllocError>
    ensures { OnOk result (text.new.items ≡ text.old.items ++ events_heading name.now tx.now events.now) }
{
    let (live, voided) = counts(events);
    put_place(text, "events ", name, tx)?;
    put_field(text, " live=", live)?;
    put_field(text, " voided=", voided)?;
    text.push(b'\n')?;
    Ok(())
}

/// The text of a list of a transaction's events, live and voided: a heading with their numbers, a line for each event,
/// and `end`. Each line ends with a line feed. The error says that the allocator refused memory.
pub fn write_events(
    alloc: Global,
    name: &Name,
    tx: &TxId,
    listing: &TxListing,
) -> Result<Vec<u8>, AllocError>
    ensures { IfOk result (λ text. text.items ≡ events_text name.now tx.now listing.now) }
{
    let mut text = Vec::new(alloc);
    let events = listing.events.as_slice();
    put_events_heading(&mut text, name, tx, events)?;
    put_events(&mut text, events)?;
    text.extend_from_slice(b"end\n")?;
    Ok(text)
}

// Appends ` up=<n> down=<n>`.
fn put_flow(text: &mut Vec<u8>, flow: Flow) -> Result<(), AllocError>
    ensures { OnOk result (text.new.items ≡ text.old.items ++ flow_fields flow.up flow.down) }
{
    put_field(text, " up=", flow.up())?;
    put_field(text, " down=", flow.down())
}

// Appends the line of a part.
#[tactic(auto, unfolding(crate::specs::Listing::part_line))]
fn put_part(text: &mut Vec<u8>, period: Periods, part: (Quarter, Flow)) -> Result<(), AllocError>
    requires { IsQuarterOf period.length part.0 }
    ensures { OnOk result (text.new.items ≡ text.old.items ++ part_line period part) }
{
    let (quarter, flow) = part;
    text.extend_from_slice(b"part ")?;
    text.extend_from_slice(start_text(quarter, period).as_str().as_bytes())?;
    put_flow(text, flow)?;
    text.push(b'\n')?;
    Ok(())
}

// Appends the lines of parts.
fn put_parts(
    text: &mut Vec<u8>,
    period: Periods,
    parts: &[(Quarter, Flow)],
) -> Result<(), AllocError>
    requires { All (λ t. IsQuarterOf period.length t.0) parts.now }
    ensures { OnOk result (text.new.items ≡ text.old.items ++ flat_map (part_line period) parts.now) }
{
    for part in parts {
        put_part(text, period, *part)?;
    }
    Ok(())
}

// Appends the number and the place of a reading, its moment and its level.
#[tactic(auto, unfolding(crate::specs::Listing::reading_fields))]
fn put_level(
    text: &mut Vec<u8>,
    word: &str,
    shown: &PlacedReading,
    work: &mut Work,
) -> Result<(), AllocError>
    ensures work { IsWork 1 work.old work.new }
    ensures text { OnOk result (text.new.items ≡ text.old.items ++ reading_fields word.now shown.now) }
{
    put_field(text, word, u64::from(shown.number))?;
    put_field(text, ".", shown.place as u64)?;
    text.extend_from_slice(b" ")?;
    put_moment(text, shown.reading.moment())?;
    text.extend_from_slice(b" ")?;
    shown.reading.level().write(text, work)
}

// Appends the line of a reading, with what it and the one before show, and the lines of the parts of that.
#[tactic(auto, unfolding(crate::specs::Listing::reading_text))]
fn put_reading(
    text: &mut Vec<u8>,
    alloc: Global,
    word: &str,
    period: Periods,
    before: Option<Reading>,
    shown: &PlacedReading,
    work: &mut Work,
) -> Result<(), AllocError>
    ensures work { IsWork (1 + pairs_behind before 1) work.old work.new }
    ensures text { OnOk result (text.new.items ≡ text.old.items ++ reading_text word.now period before shown.now) }
{
    put_level(text, word, shown, work)?;
    let Some(before) = before else {
        text.push(b'\n')?;
        return Ok(());
    };
    let reading = shown.reading;
    let flow = difference(before.level(), reading.level(), work);
    put_flow(text, flow)?;
    text.push(b'\n')?;
    let parts = parts_between(alloc, period, before, reading, flow)?;
    put_parts(text, period, &parts)
}

// Appends the lines of readings in a row.
fn put_readings(
    text: &mut Vec<u8>,
    alloc: Global,
    word: &str,
    period: Periods,
    readings: &[PlacedReading],
    work: &mut Work,
) -> Result<(), AllocError>
    ensures work { IsWork (reading_looks readings.now) work.old work.new }
    ensures text { OnOk result (text.new.items ≡ text.old.items ++ readings_behind word.now period None readings.now) }
{
    let mut before = None;
    let mut left = readings;
    while let [first, more @ ..] = left {
        put_reading(text, alloc, word, period, before, first, work)?;
        before = Some(first.reading);
        left = more;
    }
    Ok(())
}

// Appends the heading of a list of readings.
#[tactic(auto, unfolding(crate::specs::Listing::readings_heading))]
fn put_readings_heading(
    text: &mut Vec<u8>,
    name: &Name,
    tx: &TxId,
    listing: &TxListing,
) -> Result<(), AllocError>
    ensures { OnOk result (text.new.items ≡ text.old.items ++ readings_heading name.now tx.now listing.now) }
{
    put_place(text, "readings ", name, tx)?;
    text.extend_from_slice(order_field(listing.order).as_bytes())?;
    text.extend_from_slice(settle_field(listing.period.rule()).as_bytes())?;
    put_fields(text, listing.energy)?;
    text.push(b'\n')?;
    Ok(())
}

/// The text of a list of a transaction's live readings: a heading with its energies; the readings of the import
/// register, in the site's order; those of the export register; and `end`. A reading's line has the number of its event,
/// its place there, its moment and its level. Behind the first of a register it has, too, what the register rose and
/// fell since the one before, and a line for each part of that follows it. Each line ends with a line feed. `work` counts
/// each look at a level, also before the error: at most one for each reading and one for each pair. The error says that
/// the allocator refused memory.
pub fn write_readings(
    alloc: Global,
    name: &Name,
    tx: &TxId,
    listing: &TxListing,
    work: &mut Work,
) -> Result<Vec<u8>, AllocError>
    ensures work { IsWork (listing_looks listing.now) work.old work.new }
    ensures text { IfOk result (λ text. text.items ≡ readings_text name.now tx.now listing.now) }
{
    let mut text = Vec::new(alloc);
    let period = listing.period;
    put_readings_heading(&mut text, name, tx, listing)?;
    put_readings(
        &mut text,
        alloc,
        "import ",
        period,
        listing.imported.as_slice(),
        work,
    )?;
    put_readings(
        &mut text,
        alloc,
        "export ",
        period,
        listing.exported.as_slice(),
        work,
    )?;
    text.extend_from_slice(b"end\n")?;
    Ok(text)
}
