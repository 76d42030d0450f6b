//! The program's commands and options.
ghost use Rattle.std.specs.Prelude.{◌≡◌, ◌∷◌, ◌++◌, [], IfOk, codes, true};
ghost use Rattle.clap.{specs.Simple.{app_of, is_simple}, specs.Walk.rule_of};
ghost use Rattle.ocpp_board.{specs.Commands.{argument_of, board_commands, commands_of, defaulted, flag, placed, replay_words, serve_begun, serve_lived, serve_numbered, serve_words, sim_begun, sim_words, valued, with_argument, words_of}, specs.Options.{IsCommand, IsOption, IsPlaced, IsProgram, TakesOptions}};

use crate::asked::{MAX_CONNECTIONS, MAX_SIMULATED_STATIONS};
use clap::{Arg, ArgAction, Command, value_parser};
use journal_server::MAX_SIMULATED_EVENTS;
use script_lines::script_help;
use std::alloc::{AllocError, Global};

// How many times a server's totals may be shown.
const MAX_GLANCES: i64 = 600;

// The seconds that a settlement period may have.
const PERIODS: [&str; 4] = ["300", "900", "1800", "3600"];

// The orders of readings that a site may have.
const ORDERS: [&str; 2] = ["sequence", "moment"];

// The rules by which differences may count in settlement periods.
const RULES: [&str; 3] = ["later", "closing", "even"];

// What options do that have no number.
const ORDER: &str =
    "How all sites take a transaction's readings: by the numbers of their events, or by their own moments";

const SETTLE: &str =
    "How all sites settle a difference: in the period of its later reading, in the one that this reading closes, or by even shares of the time";

const LIVE: &str =
    "Serve until standard input ends or says `close`, and answer its lines meanwhile";

const JOURNAL: &str =
    "With --live, write a journal to standard output: a line for each change before its answer";

const TIMES: &str =
    "With --journal, write the time at which each line was taken in front of it, as a comment";

const RESTORE: &str =
    "With --live, begin with the script on standard input up to its line `listen`";

const LEFT_OUT: &str = "With --restore, serve although a line of the script is lost";

const LOG: &str = "With --live, report on standard error which sessions begin and end";

// What help calls the four limits.
const LIMITS: [&str; 4] = ["TRANSACTIONS", "EVENTS", "READINGS", "CHANGES"];

const ABOUT: &str =
    "The transaction ledger and site board of an OCPP 2.0.1 charging station management system";

const VERSION: &str = "0.3.0";

const LINES: &str = script_help!(
    "Without a command, ocpp_board replays.\n\n",
    "\n\
Exit status: 0; 1 with `fault <name>` on standard error where a command stopped before its
end (ReadFault, WriteFault, TooMuchInput, OutOfMemory, ListenFailed, HandshakeFailed, Torn);
2 for a fault of the arguments."
);

const SERVE_EXAMPLE: &str = "\
Writes `listening 127.0.0.1:<port>`, serves the connections, each of a station at
ws://127.0.0.1:<port>/ocpp/<station> with the subprotocol ocpp2.0.1, and when all have ended
writes the board of each site. It ends after one connection unless --connections says more.
Nothing is kept when it ends, but by --journal.

A connection is given up after 600 seconds in which its station sends nothing, and after 30
seconds in which it takes nothing.

Example: two stations of one site, the totals each second for a minute, four connections:
  ocpp_board serve --port 9000 --connections 4 --watch 60 north/CS-01 north/CS-02

With --live it serves connections without end, two of each station at once: a third ends the
oldest. Meanwhile it answers lines on standard input, as `ocpp_board --help` lists them, but for
declarations and `now`; it ends when its input ends or says `close`, and writes the boards.
  ocpp_board serve --live --port 9000 --log --board-port 9080 north/CS-01 north/CS-02

With --journal standard output is a script of the declarations and of each accepted change, which
is out before its answer; all else goes to standard error. With --receipt-times a comment stands
before each line: the time at which the server took it, as # 2026-03-01T10:00:00.123456789Z.
With --restore standard input begins with such a script, up to a line `listen`; the line before
that has to end with `#`, which spoils what a kill may have left of a line. `left out <line>
<answer>` reports a line that changed nothing, and `restored <n>` how many changes the stations hold.
Where such a line is not one that a kill cut, the server ends with `fault LeftOut`, but with
--allow-left-out.
  ocpp_board serve --live --journal --port 9000 north/CS-01 north/CS-02 >> journal < orders
  { cat journal; printf '#\nlisten\n'; tail -n 0 -f orders; } |
    ocpp_board serve --live --journal --restore --port 9000 >> journal

Exit status: 0; 1 with `fault <name>` (ListenFailed, ReadFault, WriteFault, OutOfMemory,
Torn, NotRestored, NotMarked, LeftOut, TooMuchInput); 2 for a fault of the arguments, or with `fault BadLimits`, `fault BadStation`,
`fault PlanLimit` or `fault StationTwice`. A second line has the cause: the ranges of limits, the word, the station, or
the system's words for the port.";

const SIM_EXAMPLE: &str = "\
Each station CS-<k> of site sim sends its transaction SIM-<k> out of order and its first event
twice, over a WebSocket connection of its own to a server in the same process; then the board
of the site is written.

Example:
  ocpp_board sim --stations 2 --events 3

Exit status: 0; 1 with `fault <name>` (ListenFailed, HandshakeFailed, ReadFault, WriteFault,
OutOfMemory, Torn); 2 for a fault of the arguments.";

/// The program and its commands, which are `board_commands`. The matches of its words are those of `clap`'s definition.
pub fn program<'a>(alloc: Global) -> Result<Command<'a>, AllocError>
    ensures simple { IfOk result (λ p. is_simple (app_of p) ≡ true) }
    ensures commands { IfOk result (λ p. commands_of (app_of p) ≡ board_commands) }
{
    let program = Command::new(alloc, "ocpp_board")
        .version(VERSION)
        .about(ABOUT)
        .after_help(LINES);
    with_commands(alloc, program)
}

// The program with its commands.
fn with_commands<'a>(alloc: Global, program: Command<'a>) -> Result<Command<'a>, AllocError>
    requires program { IsProgram (app_of program) }
    requires none { commands_of (app_of program) ≡ [] }
    ensures simple { IfOk result (λ p. is_simple (app_of p) ≡ true) }
    ensures commands { IfOk result (λ p. commands_of (app_of p) ≡ board_commands) }
{
    let program = with_command(program, replay_command(alloc))?;
    let program = with_command(program, serve_command(alloc)?)?;
    let program = with_command(program, sim_command(alloc)?)?;
    Ok(program)
}

// The program with one command more.
fn with_command<'a>(program: Command<'a>, command: Command<'a>) -> Result<Command<'a>, AllocError>
    requires program { IsProgram (app_of program) }
    requires command { IsCommand command }
    ensures program { IfOk result (λ p. IsProgram (app_of p)) }
    ensures words { IfOk result (λ p. commands_of (app_of p) ≡ commands_of (app_of program.entry) ++ words_of (app_of command.entry).top ∷ []) }
{
    program.subcommand(command)
}

// The command with one option more.
fn with_option<'a>(command: Command<'a>, option: Arg<'a>) -> Result<Command<'a>, AllocError>
    requires command { TakesOptions command }
    requires option { IsOption option }
    ensures takes { IfOk result TakesOptions }
    ensures words { IfOk result (λ r. words_of (app_of r).top ≡ with_argument (words_of (app_of command.entry).top) (argument_of (rule_of option.entry))) }
{
    command.arg(option)
}

// The command with words by their place behind its options.
fn with_words<'a>(command: Command<'a>, words: Arg<'a>) -> Result<Command<'a>, AllocError>
    requires command { TakesOptions command }
    requires words { IsPlaced words }
    ensures command { IfOk result IsCommand }
    ensures words { IfOk result (λ r. words_of (app_of r).top ≡ with_argument (words_of (app_of command.entry).top) (argument_of (rule_of words.entry))) }
{
    command.arg(words)
}

// The command `replay`.
fn replay_command<'a>(alloc: Global) -> Command<'a>
    ensures command { IsCommand result }
    ensures words { words_of (app_of result).top ≡ replay_words }
{
    Command::new(alloc, "replay").about("Answers a script from standard input on standard output")
}

// The command `serve`.
fn serve_command<'a>(alloc: Global) -> Result<Command<'a>, AllocError>
    ensures command { IfOk result IsCommand }
    ensures words { IfOk result (λ r. words_of (app_of r).top ≡ serve_words) }
{
    let command = Command::new(alloc, "serve")
        .about("Serves charging stations over WebSocket, and writes the boards when all have left")
        .after_help(SERVE_EXAMPLE);
    let command = with_numbers(alloc, command)?;
    let command = with_life(alloc, command)?;
    let command = with_words(command, station_words(alloc)?)?;
    Ok(command)
}

// The command with the options that have a value.
fn with_numbers<'a>(alloc: Global, command: Command<'a>) -> Result<Command<'a>, AllocError>
    requires takes { TakesOptions command }
    requires words { words_of (app_of command).top ≡ serve_begun }
    ensures takes { IfOk result TakesOptions }
    ensures words { IfOk result (λ r. words_of (app_of r).top ≡ serve_numbered) }
{
    let command = with_option(command, port_option(alloc))?;
    let command = with_option(command, connections_option(alloc))?;
    let command = with_option(command, watch_option(alloc))?;
    let command = with_option(command, period_option(alloc))?;
    let command = with_option(command, order_option(alloc))?;
    let command = with_option(command, settle_option(alloc))?;
    let command = with_option(command, limits_option(alloc))?;
    Ok(command)
}

// The command with the options of a live server.
fn with_life<'a>(alloc: Global, command: Command<'a>) -> Result<Command<'a>, AllocError>
    requires takes { TakesOptions command }
    requires words { words_of (app_of command).top ≡ serve_numbered }
    ensures takes { IfOk result TakesOptions }
    ensures words { IfOk result (λ r. words_of (app_of r).top ≡ serve_lived) }
{
    let command = with_option(command, live_option(alloc)?)?;
    let command = with_option(command, journal_option(alloc)?)?;
    let command = with_option(command, times_option(alloc)?)?;
    let command = with_option(command, restore_option(alloc)?)?;
    let command = with_option(command, left_out_option(alloc)?)?;
    let command = with_option(command, log_option(alloc)?)?;
    let command = with_option(command, board_port_option(alloc)?)?;
    Ok(command)
}

// An option without a value.
fn flag<'a>(alloc: Global, name: &'a str, help: &'a str) -> Arg<'a>
    ensures option { IsOption result }
    ensures words { argument_of (rule_of result) ≡ flag name.entry.now }
{
    Arg::new(alloc, name)
        .long(name)
        .action(ArgAction::SetTrue)
        .help(help)
}

// An option with a value; this is its value if it is not used.
fn option<'a>(
    alloc: Global,
    name: &'a str,
    value: &'a str,
    default: &'a str,
    help: &'a str,
) -> Arg<'a>
    ensures option { IsOption result }
    ensures words { argument_of (rule_of result) ≡ defaulted name.entry.now default.entry.now }
{
    Arg::new(alloc, name)
        .long(name)
        .value_name(value)
        .default_value(default)
        .help(help)
}

fn port_option<'a>(alloc: Global) -> Arg<'a>
    ensures option { IsOption result }
    ensures words { argument_of (rule_of result) ≡ defaulted (codes "port") (codes "0") }
{
    let help = "The port of 127.0.0.1 to listen on; 0 lets the system choose";
    option(alloc, "port", "PORT", "0", help).value_parser(value_parser!(u16))
}

fn connections_option<'a>(alloc: Global) -> Arg<'a>
    ensures option { IsOption result }
    ensures words { argument_of (rule_of result) ≡ defaulted (codes "connections") (codes "1") }
{
    let help = "How many connections to serve before it ends, 1 to 64; one unless this is given";
    option(alloc, "connections", "COUNT", "1", help).value_parser(value_parser!(u8).range(
        1..=i64::from(MAX_CONNECTIONS),
    ))
}

fn watch_option<'a>(alloc: Global) -> Arg<'a>
    ensures option { IsOption result }
    ensures words { argument_of (rule_of result) ≡ defaulted (codes "watch") (codes "0") }
{
    let help =
        "How many times to write each site's totals to standard error, one second apart, 0 to 600";
    option(alloc, "watch", "TIMES", "0", help).value_parser(value_parser!(u16).range(
        0..=MAX_GLANCES,
    ))
}

fn period_option<'a>(alloc: Global) -> Arg<'a>
    ensures option { IsOption result }
    ensures words { argument_of (rule_of result) ≡ defaulted (codes "period") (codes "900") }
{
    let help = "The settlement period of all sites' boards, in seconds";
    option(alloc, "period", "SECONDS", "900", help).value_parser(PERIODS.as_slice())
}

fn order_option<'a>(alloc: Global) -> Arg<'a>
    ensures option { IsOption result }
    ensures words { argument_of (rule_of result) ≡ defaulted (codes "order") (codes "sequence") }
{
    option(alloc, "order", "WORD", "sequence", ORDER).value_parser(ORDERS.as_slice())
}

fn settle_option<'a>(alloc: Global) -> Arg<'a>
    ensures option { IsOption result }
    ensures words { argument_of (rule_of result) ≡ defaulted (codes "settle") (codes "later") }
{
    option(alloc, "settle", "WORD", "later", SETTLE).value_parser(RULES.as_slice())
}

fn limits_option<'a>(alloc: Global) -> Arg<'a>
    ensures option { IsOption result }
    ensures words { argument_of (rule_of result) ≡ valued (codes "limits") 4 }
{
    Arg::new(alloc, "limits")
        .long("limits")
        .value_names(LIMITS.as_slice())
        .num_args(LIMITS.len())
        .help(
            "What each station may keep, as the script's line `limits` says it [default: 1024 16384 16384 9223372036854775808]",
        )
        .value_parser(value_parser!(u64))
}

fn live_option<'a>(alloc: Global) -> Result<Arg<'a>, AllocError>
    ensures option { IfOk result IsOption }
    ensures words { IfOk result (λ r. argument_of (rule_of r) ≡ flag (codes "live")) }
{
    flag(alloc, "live", LIVE).conflicts_with("connections")
}

fn journal_option<'a>(alloc: Global) -> Result<Arg<'a>, AllocError>
    ensures option { IfOk result IsOption }
    ensures words { IfOk result (λ r. argument_of (rule_of r) ≡ flag (codes "journal")) }
{
    flag(alloc, "journal", JOURNAL).requires_arg("live")
}

fn times_option<'a>(alloc: Global) -> Result<Arg<'a>, AllocError>
    ensures option { IfOk result IsOption }
    ensures words { IfOk result (λ r. argument_of (rule_of r) ≡ flag (codes "receipt-times")) }
{
    flag(alloc, "receipt-times", TIMES).requires_arg("journal")
}

fn restore_option<'a>(alloc: Global) -> Result<Arg<'a>, AllocError>
    ensures option { IfOk result IsOption }
    ensures words { IfOk result (λ r. argument_of (rule_of r) ≡ flag (codes "restore")) }
{
    let option = flag(alloc, "restore", RESTORE).conflicts_with("stations")?;
    without_plan(option.requires_arg("live")?)
}

fn left_out_option<'a>(alloc: Global) -> Result<Arg<'a>, AllocError>
    ensures option { IfOk result IsOption }
    ensures words { IfOk result (λ r. argument_of (rule_of r) ≡ flag (codes "allow-left-out")) }
{
    let left_out = flag(alloc, "allow-left-out", LEFT_OUT).conflicts_with("stations")?;
    left_out.requires_arg("restore")
}

fn log_option<'a>(alloc: Global) -> Result<Arg<'a>, AllocError>
    ensures option { IfOk result IsOption }
    ensures words { IfOk result (λ r. argument_of (rule_of r) ≡ flag (codes "log")) }
{
    flag(alloc, "log", LOG).requires_arg("live")
}

// The option, which does not go with those that say how sites and stations are.
fn without_plan<'a>(option: Arg<'a>) -> Result<Arg<'a>, AllocError>
    requires { IsOption option }
    ensures option { IfOk result IsOption }
    ensures words { IfOk result (λ r. argument_of (rule_of r) ≡ argument_of (rule_of option.entry)) }
{
    option
        .conflicts_with("period")?
        .conflicts_with("order")?
        .conflicts_with("settle")?
        .conflicts_with("limits")
}

fn board_port_option<'a>(alloc: Global) -> Result<Arg<'a>, AllocError>
    ensures option { IfOk result IsOption }
    ensures words { IfOk result (λ r. argument_of (rule_of r) ≡ valued (codes "board-port") 1) }
{
    Arg::new(alloc, "board-port")
        .long("board-port")
        .value_name("PORT")
        .value_parser(value_parser!(u16))
        .help(
            "With --live, the port of 127.0.0.1 where browsers find boards; 0 lets the system choose",
        )
        .requires_arg("live")
}

fn station_words<'a>(alloc: Global) -> Result<Arg<'a>, AllocError>
    ensures placed { IfOk result IsPlaced }
    ensures words { IfOk result (λ r. argument_of (rule_of r) ≡ placed (codes "stations")) }
{
    Arg::new(alloc, "stations")
        .value_name("SITE/STATION")
        .num_args(1..)
        .action(ArgAction::Append)
        .help("The stations, each with its site")
        .required_unless_present("restore")
}

// The command `sim`.
fn sim_command<'a>(alloc: Global) -> Result<Command<'a>, AllocError>
    ensures command { IfOk result IsCommand }
    ensures words { IfOk result (λ r. words_of (app_of r).top ≡ sim_words) }
{
    let command = Command::new(alloc, "sim")
        .about("Plays simulated stations against a server in the same process")
        .after_help(SIM_EXAMPLE);
    with_counts(alloc, command)
}

// The command with the numbers of stations and events.
fn with_counts<'a>(alloc: Global, command: Command<'a>) -> Result<Command<'a>, AllocError>
    requires takes { TakesOptions command }
    requires words { words_of (app_of command).top ≡ sim_begun }
    ensures command { IfOk result IsCommand }
    ensures words { IfOk result (λ r. words_of (app_of r).top ≡ sim_words) }
{
    let command = with_option(command, stations_option(alloc))?;
    let command = with_option(command, events_option(alloc))?;
    Ok(command)
}

fn stations_option<'a>(alloc: Global) -> Arg<'a>
    ensures option { IsOption result }
    ensures words { argument_of (rule_of result) ≡ defaulted (codes "stations") (codes "2") }
{
    let help = "How many stations, 1 to 64";
    option(alloc, "stations", "COUNT", "2", help).value_parser(value_parser!(u16).range(
        1..=i64::from(MAX_SIMULATED_STATIONS),
    ))
}

fn events_option<'a>(alloc: Global) -> Arg<'a>
    ensures option { IsOption result }
    ensures words { argument_of (rule_of result) ≡ defaulted (codes "events") (codes "3") }
{
    let help = "How many events each sends, 2 to 64";
    option(alloc, "events", "COUNT", "3", help).value_parser(value_parser!(u32).range(
        2..=i64::from(MAX_SIMULATED_EVENTS),
    ))
}
