//! A run of the program, from its words to its exit status.
ghost use Rattle.std.{specs.Prelude.{◌≡◌, ◌≢◌, Err, map}, specs.declared.io.ErrorKind.ErrorKind};
ghost use Rattle.ocpp_replay.{specs.Program.IsRun, specs.Words.words_meaning};
ghost use Rattle.script_lines.specs.declared.fault.ReplayFault.{ReplayFault};
ghost use Rattle.script_replay.specs.Whole.{IsMistake, IsReported, Shows};

use crate::words::{Action, HELP, USAGE, VERSION, read_words};
use script_replay::{Ended, ReplayFault, end_run, refuse, run_replay, show};
use std::convert::AsStr;
use std::io::{ErrorKind, Read, Write};
use std::thread::Threads;

/// Runs the program: does what its words ask for, with an input, an output and standard error. The first word is the
/// program's name.
pub fn run<X: AllocGlobal + Threads, S: AsStr, R: Read + Drop, W: Write + Drop, E: Write + Drop>(
    rt: &X,
    words: &[S],
    input: R,
    output: W,
    errors: E,
) -> Ended<W, E>
    ensures run { IsRun W.contents E.contents (words_meaning (map S.text words.now)) (R.remaining input) output errors result }
{
    match read_words(words) {
        Action::Replay => run_replay(rt, input, output, errors),
        Action::Help => show_text(output, errors, HELP),
        Action::Version => show_text(output, errors, VERSION),
        Action::Unknown => refuse_with(output, errors, USAGE),
    }
}

/// Ends a run with words that can't be read: one is no UTF-8, or there is no memory for them.
pub fn refuse_words<W, E: Write>(output: W, errors: E, why: ErrorKind) -> Ended<W, E>
    ensures mistake { why ≡ ErrorKind.InvalidData → IsMistake E.contents USAGE.now output errors result }
    ensures memory { why ≢ ErrorKind.InvalidData → IsReported E.contents errors result (Err ReplayFault.OutOfMemory) }
{
    if why == ErrorKind::InvalidData {
        refuse_with(output, errors, USAGE)
    } else {
        end_run(Some(output), errors, Err(ReplayFault::OutOfMemory))
    }
}

// Writes a text of the program's own, and ends the run.
fn show_text<W: Write, E: Write>(output: W, errors: E, text: &str) -> Ended<W, E>
    ensures { Shows W.contents E.contents text.now output errors result }
{
    show(output, errors, text.as_bytes())
}

// Writes this text to standard error, and ends the run.
fn refuse_with<W, E: Write>(output: W, errors: E, text: &str) -> Ended<W, E>
    ensures { IsMistake E.contents text.now output errors result }
{
    refuse(output, errors, text.as_bytes())
}
