ghost use Rattle.std.{specs.Prelude.{◌≡◌, false, option_map, codes}, specs.Char.is_ascii_digit, specs.List.list_all, specs.Str.bytes_eq};
ghost use Rattle.script_lines.{specs.Lines.line_bytes, specs.ScriptLines.{meaning_of, meaning_of_form}};
ghost use Rattle.script_lines.specs.LineMeaning as spec;

use ledger_model::{Command, Key, Moment, Name, Order, Settle, TxId};
use reading_decimal::moment_of;

/// Why a line of a script changes no plan, content or moment. The first fault that applies, in this
/// order, is reported.
#[derive(Clone, Copy)]
pub enum LineFault {
    /// The line has more than 262,400 bytes before its line feed.
    LineTooLong,
    /// The line is no UTF-8, or has an unknown first word, a wrong number of words, or a word that is not
    /// allowed in its place.
    BadLine,
    /// It is a declaration after the ledgers were opened.
    DeclaredLate,
    /// Its limits are out of range, its settlement period is none of the four, or there would be more
    /// stations, readings or sites than a plan may have.
    PlanLimit,
    /// The station of this name is declared already, at whatever site.
    StationTwice,
    /// No station of this name is declared.
    UnknownStation,
    /// No station of this site is declared.
    UnknownSite,
    /// The station has no event of this transaction, live or voided.
    UnknownTransaction,
}

impl LineFault {
    /// The name that a script's text shows.
    pub fn name(self) -> &'static str
        ensures { result.now ≡ spec.fault_name self }
    {
        match self {
            LineFault::LineTooLong => "LineTooLong",
            LineFault::BadLine => "BadLine",
            LineFault::DeclaredLate => "DeclaredLate",
            LineFault::PlanLimit => "PlanLimit",
            LineFault::StationTwice => "StationTwice",
            LineFault::UnknownStation => "UnknownStation",
            LineFault::UnknownSite => "UnknownSite",
            LineFault::UnknownTransaction => "UnknownTransaction",
        }
    }
}

/// What an operator does to an event.
#[derive(Clone, Copy)]
pub enum Operation {
    /// Leaves it out of all totals, but keeps it stored.
    Void,
    /// Counts it again.
    Restore,
    /// Removes it.
    Erase,
}

impl Operation {
    // The command of this operation on the event of this key.
    fn command(self, key: Key) -> Command
        ensures { result ≡ spec.command_of self key }
    {
        match self {
            Operation::Void => Command::Void(key),
            Operation::Restore => Command::Restore(key),
            Operation::Erase => Command::Erase(key),
        }
    }
}

/// What a list of a transaction shows.
#[derive(Clone, Copy)]
pub enum TxList {
    /// Its events, live and voided.
    Events,
    /// Its live readings, and what each two of them in a row show.
    Readings,
}

/// What a line of a script says.
#[derive(Drop)]
pub enum ScriptLine<'a> {
    /// An empty line or a comment.
    Nothing,
    /// A line that changes no plan, content or moment, and names its fault.
    Fails(LineFault),
    /// `limits <transactions> <events> <readings> <changes>`: the limits of the stations that follow.
    Limits(u64, u64, u64, u64),
    /// `station <site> <station>`: one more station of the plan.
    Declares(Name, Name),
    /// `period <site> <seconds>`: the length of a site's settlement periods.
    SetsPeriod(Name, u64),
    /// `order <site> <word>`: the order in which a site takes the readings of a transaction.
    SetsOrder(Name, Order),
    /// `settle <site> <word>`: the rule by which differences count in a site's settlement periods.
    SetsSettle(Name, Settle),
    /// `now <time>`: the moment of the messages that follow.
    Tells(Moment),
    /// `msg <station> <text>`: a message of a station.
    Sends(Name, &'a str),
    /// `deliver <station> <text>`: the same, with what becomes of it.
    Delivers(Name, &'a str),
    /// `void`, `restore` or `erase` with `<station> <transaction id> <seqNo>`: a command on a station.
    Commands(Name, Command),
    /// `energy <station>`: a question for the energy that a station imported.
    AsksEnergy(Name),
    /// `export <station>`: a question for the energy that a station exported.
    AsksExport(Name),
    /// `total <station>`: a question for the figures of a station.
    AsksTotal(Name),
    /// `board <site>`: a question for the board of a site.
    AsksBoard(Name),
    /// `events` or `readings` with `<station> <transaction id>`: a question for a list of a transaction.
    Lists(TxList, Name, TxId),
    /// `asks <text>`: a question for what a message's text asks for.
    AsksMeaning(&'a str),
    /// `mark <word>`: a line that is answered with itself.
    Marks(Name),
}

/// What the line says; `None` is a line that is too long.
pub fn read_line(line: Option<&[u8]>) -> ScriptLine<'_>
    ensures { meaning_of result ≡ spec.line_meaning (line_bytes line.entry) }
{
    match line {
        None => ScriptLine::Fails(LineFault::LineTooLong),
        Some([]) => ScriptLine::Nothing,
        Some([b'#', ..]) => ScriptLine::Nothing,
        Some(bytes) => by_words(bytes),
    }
}

// The words of a line that is no comment.
fn by_words(bytes: &[u8]) -> ScriptLine<'_>
    ensures { meaning_of result ≡ spec.by_words bytes.now }
{
    match str::from_utf8(bytes) {
        Ok(text) => by_first_word(text),
        Err(_) => ScriptLine::Fails(LineFault::BadLine),
    }
}

// The first word says which form the line has.
fn by_first_word(text: &str) -> ScriptLine<'_>
    ensures { meaning_of result ≡ spec.by_text text.now }
{
    let Some((word, rest)) = parted(text) else {
        return ScriptLine::Fails(LineFault::BadLine);
    };
    if word == "msg" {
        msg_line(rest)
    } else {
        other_line(word, rest)
    }
}

// A line of any form but a message's.
fn other_line<'a>(word: &str, rest: &'a str) -> ScriptLine<'a>
    requires { bytes_eq word.now (codes "msg") ≡ false }
    ensures { meaning_of result ≡ spec.by_first_word (word.now, rest.now) }
{
    match line_of_form(word, rest) {
        Some(line) => line,
        None => ScriptLine::Fails(LineFault::BadLine),
    }
}

// The line of the form that the word names; `None` if the words are not those of the form.
fn line_of_form<'a>(word: &str, rest: &'a str) -> Option<ScriptLine<'a>>
    requires { bytes_eq word.now (codes "msg") ≡ false }
    ensures { meaning_of_form result ≡ spec.by_first_word (word.now, rest.now) }
{
    match word {
        "deliver" => deliver_line(rest),
        "asks" => Some(ScriptLine::AsksMeaning(rest)),
        "station" => station_line(rest),
        "limits" => limits_line(rest),
        "period" => period_line(rest),
        "order" => order_line(rest),
        "settle" => settle_line(rest),
        "now" => now_line(rest),
        "energy" => Some(ScriptLine::AsksEnergy(Name::new(rest)?)),
        "export" => Some(ScriptLine::AsksExport(Name::new(rest)?)),
        "total" => Some(ScriptLine::AsksTotal(Name::new(rest)?)),
        "board" => Some(ScriptLine::AsksBoard(Name::new(rest)?)),
        "events" => list_line(TxList::Events, rest),
        "readings" => list_line(TxList::Readings, rest),
        "mark" => Some(ScriptLine::Marks(Name::new(rest)?)),
        "void" => command_line(Operation::Void, rest),
        "restore" => command_line(Operation::Restore, rest),
        "erase" => command_line(Operation::Erase, rest),
        _ => None,
    }
}

// The text before the first space, and the text after it.
fn parted(text: &str) -> Option<(&str, &str)>
    ensures { option_map (λ words. (words.0.now, words.1.now)) result ≡ spec.parted text.now }
{
    text.split_once(' ')
}

// Returns whether the bytes are digits.
fn are_digits(bytes: &[u8]) -> bool
    ensures { result ≡ list_all is_ascii_digit bytes.now }
{
    bytes.iter().all(|byte| byte.is_ascii_digit())
}

// Returns whether the word is `0`, or a digit 1 to 9 with digits after it.
fn is_number(word: &str) -> bool
    ensures { result ≡ spec.is_number word.now }
{
    let bytes = word.as_bytes();
    !bytes.is_empty() && are_digits(bytes) && (bytes[0] != b'0' || bytes.len() == 1)
}

// The number of a word, below 2^64.
fn number(word: &str) -> Option<u64>
    ensures { result ≡ spec.number word.now }
{
    if !is_number(word) {
        return None;
    }
    match word.parse::<u64>() {
        Ok(number) => Some(number),
        Err(_) => None,
    }
}

/// The order of readings that a word names: `sequence` or `moment`; `None` for any other word.
pub fn order_of(word: &str) -> Option<Order>
    ensures { result ≡ spec.order_word word.now }
{
    match word {
        "sequence" => Some(Order::Sequence),
        "moment" => Some(Order::Moment),
        _ => None,
    }
}

/// The rule of settling that a word names: `later`, `closing` or `even`.
pub fn settle_of(word: &str) -> Option<Settle>
    ensures { result ≡ spec.settle_word word.now }
{
    match word {
        "later" => Some(Settle::Later),
        "closing" => Some(Settle::Closing),
        "even" => Some(Settle::Even),
        _ => None,
    }
}

// The key of a transaction's id and a sequence number.
fn key_of(tx: &str, seq: u64) -> Option<Key>
    ensures { result ≡ spec.key tx.now seq }
{
    Key::new(TxId::new(tx)?, u32::try_from(seq).ok()?)
}

// `limits <transactions> <events> <readings> <changes>`
fn limits_line(rest: &str) -> Option<ScriptLine<'_>>
    ensures { meaning_of_form result ≡ spec.limits_line (spec.words 4 rest.now) }
{
    let (transactions, rest) = parted(rest)?;
    let (events, rest) = parted(rest)?;
    let (readings, changes) = parted(rest)?;
    Some(ScriptLine::Limits(
        number(transactions)?,
        number(events)?,
        number(readings)?,
        number(changes)?,
    ))
}

// `station <site> <station>`
fn station_line(rest: &str) -> Option<ScriptLine<'_>>
    ensures { meaning_of_form result ≡ spec.station_line (spec.words 2 rest.now) }
{
    let (site, station) = parted(rest)?;
    Some(ScriptLine::Declares(Name::new(site)?, Name::new(station)?))
}

// `period <site> <seconds>`
fn period_line(rest: &str) -> Option<ScriptLine<'_>>
    ensures { meaning_of_form result ≡ spec.period_line (spec.words 2 rest.now) }
{
    let (site, seconds) = parted(rest)?;
    Some(ScriptLine::SetsPeriod(Name::new(site)?, number(seconds)?))
}

// `order <site> <word>`
fn order_line(rest: &str) -> Option<ScriptLine<'_>>
    ensures { meaning_of_form result ≡ spec.order_line (spec.words 2 rest.now) }
{
    let (site, word) = parted(rest)?;
    Some(ScriptLine::SetsOrder(Name::new(site)?, order_of(word)?))
}

// `settle <site> <word>`
fn settle_line(rest: &str) -> Option<ScriptLine<'_>>
    ensures { meaning_of_form result ≡ spec.settle_line (spec.words 2 rest.now) }
{
    let (site, word) = parted(rest)?;
    Some(ScriptLine::SetsSettle(Name::new(site)?, settle_of(word)?))
}

// `now <time>`
fn now_line(rest: &str) -> Option<ScriptLine<'_>>
    ensures { meaning_of_form result ≡ spec.now_line (spec.words 2 rest.now) }
{
    if parted(rest).is_some() {
        return None;
    }
    match moment_of(rest) {
        Ok(moment) => Some(ScriptLine::Tells(moment)),
        Err(_) => None,
    }
}

// `msg <station> <text>`
fn msg_line(rest: &str) -> ScriptLine<'_>
    ensures { meaning_of result ≡ spec.msg_line (spec.words 2 rest.now) }
{
    let Some((station, text)) = parted(rest) else {
        return ScriptLine::Fails(LineFault::BadLine);
    };
    match Name::new(station) {
        Some(name) => ScriptLine::Sends(name, text),
        None => ScriptLine::Fails(LineFault::BadLine),
    }
}

// `deliver <station> <text>`
fn deliver_line(rest: &str) -> Option<ScriptLine<'_>>
    ensures { meaning_of_form result ≡ spec.deliver_line (spec.words 2 rest.now) }
{
    let (station, text) = parted(rest)?;
    Some(ScriptLine::Delivers(Name::new(station)?, text))
}

// `void`, `restore` or `erase` with `<station> <transaction id> <seqNo>`
fn command_line(what: Operation, rest: &str) -> Option<ScriptLine<'_>>
    ensures { meaning_of_form result ≡ spec.command_line what (spec.words 3 rest.now) }
{
    let (station, rest) = parted(rest)?;
    let (tx, seq) = parted(rest)?;
    let name = Name::new(station)?;
    let key = key_of(tx, number(seq)?)?;
    Some(ScriptLine::Commands(name, what.command(key)))
}

// `events` or `readings` with `<station> <transaction id>`
fn list_line(what: TxList, rest: &str) -> Option<ScriptLine<'_>>
    ensures { meaning_of_form result ≡ spec.list_line what (spec.words 2 rest.now) }
{
    let (station, tx) = parted(rest)?;
    Some(ScriptLine::Lists(what, Name::new(station)?, TxId::new(tx)?))
}
