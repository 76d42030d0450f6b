//! What the options of a command ask for.
ghost use Rattle.std.specs.Prelude.{◌≡◌, option_map};
ghost use Rattle.clap.specs.Matches.{found_of};
ghost use Rattle.ocpp_board.specs.Arguments.{AsksConnections, AsksLength, AsksLive, AsksOrder, AsksPeriod, AsksPlan, AsksServe, AsksSimulate, IsAskable, IsCounted, asked_rule};

use crate::limit_words::limits_of;
use crate::station_words::{WordFault, plan_of};
use clap::ArgMatches;
use journal_server::{Journalling, MAX_SIMULATED_EVENTS, Restoring};
use ledger_model::{MAX_STATIONS, Order, Period, Periods, Settle};
use live_server::Live;
use script_lines::{order_of, settle_of};
use site_desk::Plan;

/// How many stations a simulation may have: as many as a plan.
pub const MAX_SIMULATED_STATIONS: u16 = MAX_STATIONS as u16;

/// How many connections a server may be asked to serve.
pub const MAX_CONNECTIONS: u8 = 64;

/// What the program is asked to do.
pub enum Task<'a> {
    /// To answer a script.
    Replay,
    /// To serve the stations of a plan, and whether with a journal on standard output; or what is wrong with their
    /// words.
    Serve(Result<Plan, WordFault<'a>>, Journalling, bool),
    /// To serve the stations of a script that standard input begins with, and whether with a journal.
    ServeRestored(Restoring, bool),
    /// To play simulated stations: how many, 1 to 64, and how many events each has, 2 to 64.
    Simulate(u16, u32),
}

/// What the words of `serve` ask for.
pub fn serve_asked<'a>(matches: &ArgMatches<'a>) -> Task<'a>
    ensures range { IsAskable result }
    ensures asked { AsksServe (found_of matches.now) result }
{
    let journalling = Journalling {
        live: live_of(matches),
        has_receipt_times: matches.get_flag("receipt-times"),
    };
    let is_journalled = matches.get_flag("journal");
    if matches.get_flag("restore") {
        let allows_left_out = matches.get_flag("allow-left-out");
        let restoring = Restoring {
            journalling,
            allows_left_out,
        };
        Task::ServeRestored(restoring, is_journalled)
    } else {
        let plan = plan_asked(matches, journalling.live.glances);
        Task::Serve(plan, journalling, is_journalled)
    }
}

// The plan of the words of `serve`, with a viewer for each site if its totals are watched.
fn plan_asked<'a>(matches: &ArgMatches<'a>, glances: u16) -> Result<Plan, WordFault<'a>>
    ensures { AsksPlan (found_of matches.now) glances result }
{
    let Some(limits) = limits_of(matches.get_strs("limits")) else {
        return Err(WordFault::BadLimits);
    };
    let words = matches.get_strs("stations").unwrap_or(&[]);
    let viewers = if glances > 0 { 1 } else { 0 };
    let (period, order) = (period_of(matches), order_asked(matches));
    plan_of(words, viewers, period, order, limits)
}

/// What the options of a server ask for.
pub fn live_of(matches: &ArgMatches<'_>) -> Live
    ensures range { IsCounted result.connections }
    ensures asked { AsksLive (found_of matches.now) result }
{
    Live {
        port: matches.get_one::<u16>("port").unwrap_or(0),
        glances: matches.get_one::<u16>("watch").unwrap_or(0),
        is_logged: matches.get_flag("log"),
        board_port: matches.get_one::<u16>("board-port"),
        connections: connections_of(matches),
    }
}

// After how many connections a server ends; none if its operator's lines end it. The number is in range already; the
// clamp shows it to the checker.
fn connections_of(matches: &ArgMatches<'_>) -> Option<u8>
    ensures range { IsCounted result }
    ensures asked { AsksConnections (found_of matches.now) result }
{
    if matches.get_flag("live") {
        return None;
    }
    let connections = matches.get_one::<u8>("connections").unwrap_or(1);
    Some(connections.clamp(1, MAX_CONNECTIONS))
}

/// The settlement periods of all sites.
pub fn period_of(matches: &ArgMatches<'_>) -> Periods
    ensures { AsksPeriod (found_of matches.now) result }
{
    let rule = rule_of_word(matches.get_str("settle"));
    Periods::new(length_of(matches), rule)
}

// The rule of settling that a word asks for.
fn rule_of_word(word: Option<&str>) -> Settle
    ensures { result ≡ asked_rule (option_map (λ w. w.now) word.entry) }
{
    match word {
        Some(word) => settle_of(word).unwrap_or(Settle::Later),
        None => Settle::Later,
    }
}

// The length of the settlement periods of all sites. It is one of the four already, which the checker sees by the match.
fn length_of(matches: &ArgMatches<'_>) -> Period
    ensures { AsksLength (found_of matches.now) result }
{
    match matches.get_one::<u16>("period") {
        Some(seconds) => Period::new(seconds).unwrap_or(Period::default()),
        None => Period::default(),
    }
}

/// The order in which all sites take the readings of a transaction.
pub fn order_asked(matches: &ArgMatches<'_>) -> Order
    ensures { AsksOrder (found_of matches.now) result }
{
    match matches.get_str("order") {
        Some(word) => order_of(word).unwrap_or(Order::Sequence),
        None => Order::Sequence,
    }
}

/// What the words of `sim` ask for. The numbers are in range already; the clamps show it to the
/// checker.
pub fn sim_asked<'a>(matches: &ArgMatches<'a>) -> Task<'a>
    ensures range { IsAskable result }
    ensures asked { AsksSimulate (found_of matches.now) result }
{
    let stations = matches.get_one::<u16>("stations").unwrap_or(2);
    let events = matches.get_one::<u32>("events").unwrap_or(3);
    Task::Simulate(
        stations.clamp(1, MAX_SIMULATED_STATIONS),
        events.clamp(2, MAX_SIMULATED_EVENTS),
    )
}
