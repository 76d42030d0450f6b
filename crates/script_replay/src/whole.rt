//! A replay of a whole input, with its exit status and its report on standard error.
ghost use Rattle.std.specs.Prelude.{◌≡◌};
ghost use Rattle.script_replay.specs.Whole.{IsMistake, IsReplayRun, IsReported, IsWholeReplay, Shows, Writes, exit_status, fault_report, replay_fault_name, report};

use crate::buffers::buffered;
use crate::stream::replay_buffered;
use script_lines::{ReplayFault, WriteStopped, write_bytes};
use std::io::{Read, Write};
use std::thread::Threads;

/// The exit status if a program's words ask for nothing that it does.
pub const MISTAKEN: u8 = 2;

/// The result of a replay of a whole input.
#[derive(Drop)]
pub struct Replayed<W> {
    /// The output; `None` if there was no memory for its buffer.
    pub output: Option<W>,
    /// How the replay ended.
    pub ended: Result<(), ReplayFault>,
}

/// Replays an input to its end and writes the text to an output, each through a buffer. Bytes that a failed write left
/// in the buffer are not written later.
pub fn replay_whole<X: AllocGlobal + Threads, R: Read + Drop, W: Write + Drop>(
    rt: &X,
    input: R,
    output: W,
) -> Replayed<W>
    ensures replay { IsWholeReplay W.contents (R.remaining input) (W.contents output) result.output result.ended }
{
    match buffered(rt, input, output) {
        Ok((mut reader, mut writer)) => {
            let ended = replay_buffered(rt, &mut reader, &mut writer);
            let (output, _kept) = writer.into_parts();
            Replayed {
                output: Some(output),
                ended,
            }
        }
        Err(_) => Replayed {
            output: None,
            ended: Err(ReplayFault::OutOfMemory),
        },
    }
}

/// The result of a run of a program.
#[derive(Drop)]
pub struct Ended<W, E> {
    /// The output; `None` if there was no memory for its buffer.
    pub output: Option<W>,
    /// Standard error.
    pub errors: E,
    /// The exit status.
    pub status: u8,
    /// Whether standard error took the whole report.
    pub reported: Result<(), WriteStopped>,
}

/// Replays an input to its end as [`replay_whole`] does, and reports a fault on standard error: all that a program does
/// when its words ask for a replay.
pub fn run_replay<X: AllocGlobal + Threads, R: Read + Drop, W: Write + Drop, E: Write + Drop>(
    rt: &X,
    input: R,
    output: W,
    errors: E,
) -> Ended<W, E>
    ensures run { IsReplayRun W.contents E.contents (R.remaining input) output errors result }
{
    let Replayed { output, ended } = replay_whole(rt, input, output);
    end_run(output, errors, ended)
}

/// Ends a run with its exit status and, after a fault, with `fault <name>` on standard error.
pub fn end_run<W, E: Write>(
    output: Option<W>,
    mut errors: E,
    ended: Result<(), ReplayFault>,
) -> Ended<W, E>
    ensures output { result.output ≡ output }
    ensures report { IsReported E.contents errors result ended }
{
    let reported = report_end(&mut errors, ended);
    Ended {
        output,
        errors,
        status: status_of(ended),
        reported,
    }
}

/// Writes a text of the program's own, such as its help, and ends the run.
pub fn show<W: Write, E: Write>(mut output: W, errors: E, text: &[u8]) -> Ended<W, E>
    ensures { Shows W.contents E.contents text.now output errors result }
{
    let ended = match write_bytes(&mut output, text) {
        Ok(()) => Ok(()),
        Err(WriteStopped) => Err(ReplayFault::WriteFault),
    };
    end_run(Some(output), errors, ended)
}

/// Ends a run with words that ask for nothing that the program does: it writes this text to standard error,
/// and nothing to its output.
pub fn refuse<W, E: Write>(output: W, mut errors: E, text: &[u8]) -> Ended<W, E>
    ensures { IsMistake E.contents text.now output errors result }
{
    let reported = write_bytes(&mut errors, text);
    Ended {
        output: Some(output),
        errors,
        status: MISTAKEN,
        reported,
    }
}

// The exit status of a replay: 0 after `Ok`, 1 after a fault.
fn status_of(ended: Result<(), ReplayFault>) -> u8
    ensures { result ≡ exit_status ended }
{
    match ended {
        Ok(()) => 0,
        Err(_) => 1,
    }
}

// Writes `fault <name>` if a replay ended with a fault.
fn report_end<E: Write>(errors: &mut E, ended: Result<(), ReplayFault>) -> Result<(), WriteStopped>
    ensures { Writes (E.contents errors.old) (E.contents errors.new) result (report ended) }
{
    match ended {
        Ok(()) => Ok(()),
        Err(fault) => write_bytes(errors, fault_line(fault)),
    }
}

// The line that reports a fault.
fn fault_line(fault: ReplayFault) -> &'static [u8]
    ensures { result.now ≡ fault_report (replay_fault_name fault) }
{
    match fault {
        ReplayFault::ReadFault => b"fault ReadFault\n",
        ReplayFault::WriteFault => b"fault WriteFault\n",
        ReplayFault::TooMuchInput => b"fault TooMuchInput\n",
        ReplayFault::OutOfMemory => b"fault OutOfMemory\n",
    }
}
