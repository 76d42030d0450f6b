//! Servers, as the program runs them: each reads and writes through buffers.
ghost use Rattle.std.{specs.Prelude.{◌≡◌, Ok, OnOk, false, true}, specs.Io.Buffered.writer_contents};
ghost use Rattle.ocpp_board.{specs.declared.asked.Task.Task, specs.Run.Runs, specs.Serving.{EndsJournalled, EndsUnwritten}};
ghost use Rattle.station_link.specs.Sim.{IsSimulated};

use crate::process::Process;
use crate::report::end_server;
use crate::run::{Ran, RanOf, StreamsOf, unserved};
use board_report::{BoardsFault, write_out};
use journal_server::{
    JournalFault, Journalling, Restoring, Served, serve_journalled, serve_live, serve_restored,
    simulate,
};
use running_desk::ServiceFault;
use script_replay::buffered;
use site_desk::Plan;
use std::alloc::Global;
use std::io;
use std::io::{BufWriter, Sink, Write};

// The fault of a server without memory for its buffers.
const NO_MEMORY: JournalFault = JournalFault::Service(ServiceFault::OutOfMemory);

// The fault of a server whose boards can't be written.
const UNWRITTEN: JournalFault = JournalFault::Service(ServiceFault::Output(
    BoardsFault::WriteFault,
));

/// Serves a plan until its operator's lines end, or a number of connections.
pub fn live<P: Process>(
    rt: &P::Runtime,
    plan: &Plan,
    asked: Journalling,
    streams: StreamsOf<P>,
) -> RanOf<P>
    ensures { Runs P.Output.contents P.Console.contents P.Errors.contents (Task.Serve (Ok plan.now) asked false)
        (P.Input.remaining streams.input) streams.output streams.console streams.errors result }
{
    let Ok((mut reader, writer)) = buffered(rt, streams.input, streams.output) else {
        return end_unwritten(rt.alloc(), Err(NO_MEMORY), None, streams.errors);
    };
    let live = asked.live;
    let served = serve_live(rt, plan, live, None, &mut reader, writer, streams.lines);
    end_unwritten(rt.alloc(), served, Some(plan), streams.errors)
}

/// Serves a plan until its operator's lines end; its output is a journal.
pub fn journalled<P: Process>(
    rt: &P::Runtime,
    plan: &Plan,
    journalling: Journalling,
    streams: StreamsOf<P>,
) -> RanOf<P>
    ensures { Runs P.Output.contents P.Console.contents P.Errors.contents (Task.Serve (Ok plan.now) journalling true)
        (P.Input.remaining streams.input) streams.output streams.console streams.errors result }
{
    let Ok((mut reader, journal)) = buffered(rt, streams.input, streams.output) else {
        return end_journalled(rt.alloc(), Err(NO_MEMORY), None, streams.errors);
    };
    let (console, lines) = (streams.console, streams.lines);
    let served = serve_journalled(rt, plan, journalling, &mut reader, journal, console, lines);
    end_journalled(rt.alloc(), served, Some(plan), streams.errors)
}

/// Serves the stations of the script that the input begins with; its output goes on with the journal.
pub fn restored<P: Process>(
    rt: &P::Runtime,
    restoring: Restoring,
    streams: StreamsOf<P>,
) -> RanOf<P>
    ensures { Runs P.Output.contents P.Console.contents P.Errors.contents (Task.ServeRestored restoring true) (P.Input.remaining streams.input) streams.output streams.console streams.errors result }
{
    let Ok((mut reader, journal)) = buffered(rt, streams.input, streams.output) else {
        return end_journalled(rt.alloc(), Err(NO_MEMORY), None, streams.errors);
    };
    let (console, lines) = (streams.console, streams.lines);
    let served = serve_restored(rt, restoring, &mut reader, journal, console, lines);
    end_journalled(rt.alloc(), served, None, streams.errors)
}

/// Serves the stations of the script that the input begins with, without a journal. Its output takes what the console
/// of a server with a journal takes.
pub fn restored_live<P: Process>(
    rt: &P::Runtime,
    restoring: Restoring,
    streams: StreamsOf<P>,
) -> RanOf<P>
    ensures { Runs P.Output.contents P.Console.contents P.Errors.contents (Task.ServeRestored restoring false) (P.Input.remaining streams.input) streams.output streams.console streams.errors result }
{
    let Ok((mut reader, writer)) = buffered(rt, streams.input, streams.output) else {
        return end_unwritten(rt.alloc(), Err(NO_MEMORY), None, streams.errors);
    };
    let Ok(nowhere) = BufWriter::with_capacity(rt.alloc(), 0, io::sink()) else {
        return end_unwritten(rt.alloc(), Err(NO_MEMORY), None, streams.errors);
    };
    let served = serve_restored(rt, restoring, &mut reader, nowhere, writer, streams.lines);
    end_unwritten(rt.alloc(), served, None, streams.errors)
}

/// Plays simulated stations against a server of their own.
pub fn simulated<P: Process>(
    rt: &P::Runtime,
    stations: u16,
    events: u32,
    streams: StreamsOf<P>,
) -> RanOf<P>
    requires { IsSimulated stations events }
    ensures { Runs P.Output.contents P.Console.contents P.Errors.contents (Task.Simulate stations events) (P.Input.remaining streams.input) streams.output streams.console streams.errors result }
{
    let Ok((_reader, writer)) = buffered(rt, streams.input, streams.output) else {
        return end_unwritten(rt.alloc(), Err(NO_MEMORY), None, streams.errors);
    };
    let served = simulate(rt, stations, events, writer);
    end_unwritten(rt.alloc(), served, None, streams.errors)
}

// Ends a server without a journal: its output takes the boards.
fn end_unwritten<W: Write + Drop, C, E: Write>(
    alloc: Global,
    served: Result<Served<Sink, BufWriter<W>>, JournalFault>,
    plan: Option<&Plan>,
    errors: E,
) -> Ran<W, C, E>
    ensures { EndsUnwritten W.contents (writer_contents W.contents) E.contents errors served result }
{
    match served {
        Ok(served) => {
            let mut writer = served.console;
            let is_shown = writer.write_all(&served.boards).is_ok() && writer.flush().is_ok();
            let ended = end_of(is_shown, served.ended);
            let (output, _kept) = writer.into_parts();
            Ran {
                ended: end_server(alloc, Some(output), errors, ended, plan),
                console: None,
                passes: served.passes,
            }
        }
        Err(fault) => unserved(alloc, end_server(alloc, None, errors, Err(fault), plan)),
    }
}

// Ends a server with a journal: its console takes the boards. Bytes that a failed write left in the journal's buffer
// are not written, since their change was refused.
fn end_journalled<W, C: Write, E: Write>(
    alloc: Global,
    served: Result<Served<W, C>, JournalFault>,
    plan: Option<&Plan>,
    errors: E,
) -> Ran<W, C, E>
    ensures { EndsJournalled C.contents E.contents errors served result }
{
    match served {
        Ok(served) => {
            let mut console = served.console;
            let is_shown = write_out(&mut console, &served.boards).is_ok();
            let ended = end_of(is_shown, served.ended);
            Ran {
                ended: end_server(alloc, Some(served.journal), errors, ended, plan),
                console: Some(console),
                passes: served.passes,
            }
        }
        Err(fault) => unserved(alloc, end_server(alloc, None, errors, Err(fault), plan)),
    }
}

// How a server ended, by whether its boards were written.
fn end_of(is_shown: bool, ended: Result<(), ServiceFault>) -> Result<(), JournalFault>
    ensures shown { OnOk result (is_shown ≡ true) }
    ensures well { OnOk result (ended ≡ Ok tt) }
{
    match ended {
        _ if !is_shown => Err(UNWRITTEN),
        Ok(()) => Ok(()),
        Err(fault) => Err(JournalFault::Service(fault)),
    }
}
