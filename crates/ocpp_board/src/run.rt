//! A run of the program, from its words to its exit status.
ghost use Rattle.std.{specs.Prelude.{◌≡◌, ◌≢◌, Err, map}, specs.declared.io.ErrorKind.ErrorKind};
ghost use Rattle.clap.specs.Values.{kind_of};
ghost use Rattle.clap.specs.declared.error.kind.ErrorKind.TheVariants as why;
ghost use Rattle.ocpp_board.{specs.Arguments.IsAskable, specs.Run.{IsProgramRun, IsRefusal, Runs}};
ghost use Rattle.script_lines.specs.declared.fault.ReplayFault.{ReplayFault};
ghost use Rattle.script_replay.specs.Whole.{IsMistake, IsReported};

use crate::arguments::read_arguments;
use crate::asked::Task;
use crate::options::program;
use crate::process::Process;
use crate::report::refuse_plan;
use crate::serving::{journalled, live, restored, restored_live, simulated};
use clap::Error;
use script_replay::{Ended, ReplayFault, end_run, refuse, run_replay, show};
use site_desk::Pass;
use std::alloc::Global;
use std::convert::AsStr;
use std::io::{ErrorKind, Write};

// The text for a word that is no UTF-8, as `clap` writes it.
const NO_TEXT: &[u8] =
    b"error: invalid UTF-8 was detected in one or more arguments\n\nFor more information, try '--help'.\n";

/// The inputs and outputs of a run.
#[derive(Drop)]
pub struct Streams<R, W, C, E, L> {
    /// Standard input.
    pub input: R,
    /// Standard output.
    pub output: W,
    /// Standard error. A server with a journal on its output writes here its ports, the answers to its operator,
    /// and its boards.
    pub console: C,
    /// Standard error. A run reports here how it ended.
    pub errors: E,
    /// Standard error. A server shows totals and logs sessions here.
    pub lines: L,
}

/// The inputs and outputs of a run in a process.
pub type StreamsOf<P> = Streams<
    <P as Process>::Input,
    <P as Process>::Output,
    <P as Process>::Console,
    <P as Process>::Errors,
    <P as Process>::Lines,
>;

/// The result of a run.
#[derive(Drop)]
pub struct Ran<W, C, E> {
    /// The output, standard error, and the exit status.
    pub ended: Ended<W, E>,
    /// The console of a server with a journal that closed its desk; `None` for any other run.
    pub console: Option<C>,
    /// The passes of a server's desk. Each counted the commands that were accepted with it.
    pub passes: Vec<Pass>,
}

/// The result of a run in a process.
pub type RanOf<P> = Ran<<P as Process>::Output, <P as Process>::Console, <P as Process>::Errors>;

/// Runs the program, by the commands and options of [`program`]: does what its words ask for; the first word is its
/// name.
pub fn run<P: Process, S: AsStr>(rt: &P::Runtime, words: &[S], streams: StreamsOf<P>) -> RanOf<P>
    ensures run { IsProgramRun P.Output.contents P.Console.contents P.Errors.contents (map S.text words.now) (P.Input.remaining streams.input) streams.output streams.console streams.errors result }
{
    let alloc = rt.alloc();
    let Ok(program) = program(alloc) else {
        let memory = Err(ReplayFault::OutOfMemory);
        return unserved(alloc, end_run(Some(streams.output), streams.errors, memory));
    };
    match read_arguments(program, words) {
        Ok(asked) => run_asked::<P>(rt, asked, streams),
        Err(error) => unserved(
            alloc,
            refuse_words(alloc, streams.output, streams.errors, &error),
        ),
    }
}

// Does what the words ask for.
fn run_asked<P: Process>(rt: &P::Runtime, asked: Task<'_>, streams: StreamsOf<P>) -> RanOf<P>
    requires { IsAskable asked }
    ensures { Runs P.Output.contents P.Console.contents P.Errors.contents asked.entry (P.Input.remaining streams.input) streams.output streams.console streams.errors result }
{
    let alloc = rt.alloc();
    match asked {
        Task::Replay => {
            let ended = run_replay(rt, streams.input, streams.output, streams.errors);
            unserved(alloc, ended)
        }
        Task::Serve(plan, asked, is_journalled) => match plan {
            Ok(plan) if is_journalled => journalled::<P>(rt, &plan, asked, streams),
            Ok(plan) => live::<P>(rt, &plan, asked, streams),
            Err(fault) => refuse_plan(alloc, fault, streams.output, streams.errors),
        },
        Task::ServeRestored(restoring, true) => restored::<P>(rt, restoring, streams),
        Task::ServeRestored(restoring, false) => restored_live::<P>(rt, restoring, streams),
        Task::Simulate(stations, events) => simulated::<P>(rt, stations, events, streams),
    }
}

/// A run without a server.
pub fn unserved<W, C, E>(alloc: Global, ended: Ended<W, E>) -> Ran<W, C, E>
    ensures { result.ended ≡ ended }
{
    Ran {
        ended,
        console: None,
        passes: Vec::new(alloc),
    }
}

// Ends a run if its words don't fit the program's options: with the text of help or of the version if they ask for
// that, else with what is wrong with them on standard error.
fn refuse_words<W: Write, E: Write>(
    alloc: Global,
    output: W,
    errors: E,
    error: &Error,
) -> Ended<W, E>
    ensures refused { IsRefusal W.contents E.contents (kind_of error.now) output errors result }
    ensures memory { kind_of error.now ≡ why.OutOfMemory → IsReported E.contents errors result (Err ReplayFault.OutOfMemory) }
{
    let mut text = Vec::new(alloc);
    if error.kind() == clap::error::ErrorKind::OutOfMemory || write!(text, "{error}").is_err() {
        return end_run(Some(output), errors, Err(ReplayFault::OutOfMemory));
    }
    if error.use_stderr() {
        refuse(output, errors, &text)
    } else {
        show(output, errors, &text)
    }
}

/// Ends a run with words that can't be read: one is no UTF-8, or there is no memory for them.
pub fn refuse_unread<R: Drop, W, C: Drop, E: Write, L: Drop>(
    streams: Streams<R, W, C, E, L>,
    why: ErrorKind,
) -> Ended<W, E>
    ensures mistake { why ≡ ErrorKind.InvalidData → IsMistake E.contents NO_TEXT.now streams.output streams.errors result }
    ensures memory { why ≢ ErrorKind.InvalidData → IsReported E.contents streams.errors result (Err ReplayFault.OutOfMemory) }
{
    if why == ErrorKind::InvalidData {
        refuse(streams.output, streams.errors, NO_TEXT)
    } else {
        end_run(
            Some(streams.output),
            streams.errors,
            Err(ReplayFault::OutOfMemory),
        )
    }
}
