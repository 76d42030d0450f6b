//! How a server's end is reported on standard error.
ghost use Rattle.std.specs.Prelude.{◌≡◌, ◌++◌, ℕ, List};
ghost use Rattle.ocpp_board.specs.Run.{IsServerEnd, IsServerReport, IsWordMistake, server_name, server_status, service_name, word_name};
ghost use Rattle.script_replay.specs.Whole.{Writes, fault_report};

use crate::run::{Ran, unserved};
use crate::station_words::WordFault;
use board_report::BoardsFault;
use journal_script::RestoreFault;
use journal_server::JournalFault;
use ledger_model::{
    MAX_CHANGES, MAX_EVENTS, MAX_PLAN_READINGS, MAX_SITES, MAX_STATIONS, MAX_TRANSACTIONS,
};
use running_desk::ServiceFault;
use script_lines::{ReplayFault, WriteStopped, write_bytes};
use script_replay::{Ended, MISTAKEN};
use site_desk::{CloseFault, DeskFault, Plan};
use station_link::SimFault;
use std::alloc::Global;
use std::io;
use std::io::Write;

// The exit status if a server stopped before its end.
const STOPPED: u8 = 1;

/// Ends the run of a server with its exit status and, after a fault, with `fault <name>` and the line of its cause on
/// standard error.
pub fn end_server<W, E: Write>(
    alloc: Global,
    output: Option<W>,
    mut errors: E,
    ended: Result<(), JournalFault>,
    plan: Option<&Plan>,
) -> Ended<W, E>
    ensures output { result.output ≡ output }
    ensures end { IsServerEnd E.contents errors result ended }
{
    let cause = cause_of(alloc, ended, plan);
    let reported = report_server(&mut errors, ended, &cause);
    Ended {
        output,
        errors,
        status: status_of(ended),
        reported,
    }
}

// Writes `fault <name>` and its cause if a server ended with a fault.
fn report_server<E: Write>(
    errors: &mut E,
    ended: Result<(), JournalFault>,
    cause: &[u8],
) -> Result<(), WriteStopped>
    ensures { (text : List ℕ) × IsServerReport ended text × Writes (E.contents errors.old) (E.contents errors.new) result text }
{
    match ended {
        Ok(()) => Ok(()),
        Err(fault) => report_lines(errors, fault_line(fault), cause),
    }
}

// Writes a line, and if that succeeds the lines behind it.
fn report_lines<E: Write>(errors: &mut E, line: &[u8], cause: &[u8]) -> Result<(), WriteStopped>
    ensures { Writes (E.contents errors.old) (E.contents errors.new) result (line.now ++ cause.now) }
{
    match write_bytes(errors, line) {
        Ok(()) => write_bytes(errors, cause),
        Err(stopped) => Err(stopped),
    }
}

// The exit status of a server by its end.
fn status_of(ended: Result<(), JournalFault>) -> u8
    ensures { result ≡ server_status ended }
{
    match ended {
        Ok(()) => 0,
        Err(
            JournalFault::Service(
                ServiceFault::Desk(DeskFault::PlanLimit | DeskFault::StationTwice),
            ),
        ) => MISTAKEN,
        Err(_) => STOPPED,
    }
}

// The line `fault <name>` of a server.
fn fault_line(fault: JournalFault) -> &'static [u8]
    ensures { result.now ≡ fault_report (server_name fault) }
{
    match fault {
        JournalFault::Service(fault) => service_line(fault),
        JournalFault::Restore(RestoreFault::NotRestored) => b"fault NotRestored\n",
        JournalFault::Restore(RestoreFault::NotMarked) => b"fault NotMarked\n",
        JournalFault::Restore(RestoreFault::ReadFault) => b"fault ReadFault\n",
        JournalFault::Restore(RestoreFault::TooMuchInput) => b"fault TooMuchInput\n",
        JournalFault::Restore(RestoreFault::OutOfMemory) => b"fault OutOfMemory\n",
        JournalFault::LeftOut => b"fault LeftOut\n",
    }
}

// The line `fault <name>` of a server, with a journal or without.
fn service_line(fault: ServiceFault) -> &'static [u8]
    ensures { result.now ≡ fault_report (service_name fault) }
{
    match fault {
        ServiceFault::ListenFailed(_, _) => b"fault ListenFailed\n",
        ServiceFault::Desk(DeskFault::PlanLimit) => b"fault PlanLimit\n",
        ServiceFault::Desk(DeskFault::StationTwice) => b"fault StationTwice\n",
        ServiceFault::Sim(SimFault::HandshakeFailed) => b"fault HandshakeFailed\n",
        ServiceFault::Input(ReplayFault::TooMuchInput) => b"fault TooMuchInput\n",
        ServiceFault::Sim(SimFault::ReadFault) | ServiceFault::Input(ReplayFault::ReadFault) => {
            b"fault ReadFault\n"
        }
        ServiceFault::Sim(SimFault::WriteFault)
        | ServiceFault::Input(ReplayFault::WriteFault)
        | ServiceFault::Output(BoardsFault::WriteFault) => b"fault WriteFault\n",
        ServiceFault::Close(CloseFault::PassMissing) => b"fault PassMissing\n",
        ServiceFault::Close(CloseFault::ViewerMissing) => b"fault ViewerMissing\n",
        ServiceFault::Close(CloseFault::Torn) => b"fault Torn\n",
        ServiceFault::Desk(DeskFault::OutOfMemory)
        | ServiceFault::Sim(SimFault::OutOfMemory)
        | ServiceFault::Input(ReplayFault::OutOfMemory)
        | ServiceFault::Output(BoardsFault::OutOfMemory)
        | ServiceFault::OutOfMemory => b"fault OutOfMemory\n",
    }
}

// The line that gives the cause of a fault of a server with this plan: which station is there twice, or the system's
// words for the port. It is empty if there is nothing more to say, or no memory for it.
fn cause_of(alloc: Global, ended: Result<(), JournalFault>, plan: Option<&Plan>) -> Vec<u8> {
    let mut cause = Vec::new(alloc);
    let Err(JournalFault::Service(fault)) = ended else {
        return cause;
    };
    match (fault, plan) {
        (ServiceFault::Desk(DeskFault::StationTwice), Some(plan)) => {
            if let Some(name) = plan.station_twice() {
                let _ = writeln!(cause, "the station {} is there twice", name.text());
            }
        }
        (ServiceFault::ListenFailed(port, Some(code)), _) => {
            let error = io::Error::from_raw_os_error(code);
            let _ = writeln!(cause, "127.0.0.1:{port}: {error}");
        }
        _ => {}
    }
    cause
}

/// Ends a run with words that make no plan.
pub fn refuse_plan<W, C, E: Write>(
    alloc: Global,
    fault: WordFault<'_>,
    output: W,
    mut errors: E,
) -> Ran<W, C, E>
    ensures { IsWordMistake E.contents fault.entry output errors result.ended }
{
    let cause = cause_of_word(alloc, fault);
    let reported = report_lines(&mut errors, word_line(fault), &cause);
    let ended = Ended {
        output: Some(output),
        errors,
        status: MISTAKEN,
        reported,
    };
    unserved(alloc, ended)
}

// The line `fault <name>` of words that make no plan.
fn word_line(fault: WordFault<'_>) -> &'static [u8]
    ensures { result.now ≡ fault_report (word_name fault.entry) }
{
    match fault {
        WordFault::BadLimits => b"fault BadLimits\n",
        WordFault::BadStation(_) => b"fault BadStation\n",
        WordFault::PlanLimit(_) => b"fault PlanLimit\n",
    }
}

// The line that says why words make no plan. It is empty if there is no memory for it.
fn cause_of_word(alloc: Global, fault: WordFault<'_>) -> Vec<u8> {
    let mut cause = Vec::new(alloc);
    let _ = match fault {
        WordFault::BadLimits => writeln!(
            cause,
            "limits are transactions 1 to {MAX_TRANSACTIONS}, events and readings 1 to {MAX_EVENTS}, changes 1 to {MAX_CHANGES}"
        ),
        WordFault::BadStation(word) => {
            writeln!(cause, "{word}: not a site and a station parted by one /")
        }
        WordFault::PlanLimit(word) => writeln!(
            cause,
            "{word}: a server has at most {MAX_STATIONS} stations of {MAX_SITES} sites, which may keep {MAX_PLAN_READINGS} readings in all"
        ),
    };
    cause
}
