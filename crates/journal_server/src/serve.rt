//! Servers with a journal: one that begins anew, and one that is restored.
ghost use Rattle.std.{specs.Prelude.{◌≡◌, ◌&&◌, [], false, true, not, None, IfErr, IfOk, OnOk}, specs.Io.Buffered.{writer_buffer, writer_contents, writer_inner}, specs.Io.KnownBytes.Appends};
ghost use Rattle.journal_script.specs.Restoring.{Grows, IsUnmarked, loses};
ghost use Rattle.script_ledgers.specs.Script.{start};
ghost use Rattle.script_lines.{specs.Lines.lines_of, specs.Ranges.longest_line};
ghost use Rattle.journal_server.{specs.Left.left_of, specs.Served.{IsNewRun, IsRefused, IsRestoredRun, TellsNew, TellsRestored}};
ghost use Rattle.live_server.specs.Told.{operator_input};

use crate::fault::JournalFault;
use crate::run::{Ends, Served, new_cells, run_plan};
use board_report::BoardsFault;
use itoa::Buffer;
use journal_script::{RestoreFault, are_in_order, journal_head, restore, run_head};
use live_server::Live;
use running_desk::{Host, Input, Output, ServiceFault};
use script_lines::write_bytes;
use site_desk::{CloseFault, Plan, StationCell};
use std::io;
use std::io::{BufWriter, Sink, Write};
use std::net::TcpListener;

// The fault of a plan whose sites a script can't declare in their order, which no run meets.
const TORN: ServiceFault = ServiceFault::Close(CloseFault::Torn);

/// The options of a server with a journal.
#[derive(Clone, Copy)]
pub struct Journalling {
    /// Those of a live server.
    pub live: Live,
    /// Whether a comment with the moment of its receipt is in front of each line.
    pub has_receipt_times: bool,
}

/// The options of a restored server.
#[derive(Clone, Copy)]
pub struct Restoring {
    /// Those of a server with a journal.
    pub journalling: Journalling,
    /// Whether it serves even if a line of the script that it begins with is lost.
    pub allows_left_out: bool,
}

/// Serves a plan's stations until the operator's lines end or say `close`, or the journal can't be written. It writes
/// `listening 127.0.0.1:<port>` to the console, and serves connections, up to two sessions of each station at once.
/// Meanwhile it answers the lines of the input on the console; each answer is out before the next line is read. The
/// journal takes a comment, the plan's declarations, and the line of each accepted change, with the time of its receipt
/// in front if that is asked for. The writer behind the buffer took a line before its change is answered. At the end it
/// ends all sessions, and returns the board of each site as a value. If the journal can't be written, nothing more is
/// accepted, and the server ends with `WriteFault`; it returns its boards all the same. It reports sessions and totals
/// to `lines`.
///
/// It reports a plan with a fault before it writes anything.
pub fn serve_journalled<R: Host, I: Input, W: Output, T: Output, L: Output>(
    rt: &R,
    plan: &Plan,
    journalling: Journalling,
    input: &mut I,
    journal: BufWriter<W>,
    console: T,
    lines: L,
) -> Result<Served<W, T>, JournalFault>
    ensures { IfOk result (λ s. IsNewRun plan.now.sites.items plan.now.stations.items (writer_contents W.contents journal) (left_of W.contents s)
        (TellsNew s.ended plan.now.stations.items (operator_input journalling.live.connections (I.remaining input.old)) (T.contents console) (T.contents s.console))) }
{
    let ends = Ends {
        listener: None,
        journal,
        console,
        lines,
    };
    serve_plan(rt, plan, journalling, input, ends)
}

/// Serves a plan's stations as [`serve_journalled`] does, with a journal that is written nowhere; at this listener, if
/// there is one already.
pub fn serve_live<R: Host, I: Input, T: Output, L: Output>(
    rt: &R,
    plan: &Plan,
    live: Live,
    listener: Option<TcpListener>,
    input: &mut I,
    console: T,
    lines: L,
) -> Result<Served<Sink, T>, JournalFault>
    ensures { IfOk result (λ s. IsNewRun plan.now.sites.items plan.now.stations.items None (left_of (λ _. None) s)
        (TellsNew s.ended plan.now.stations.items (operator_input live.connections (I.remaining input.old)) (T.contents console) (T.contents s.console))) }
{
    let Ok(journal) = BufWriter::with_capacity(rt.alloc(), 0, io::sink()) else {
        return Err(JournalFault::Service(ServiceFault::OutOfMemory));
    };
    let journalling = Journalling {
        live,
        has_receipt_times: false,
    };
    let ends = Ends {
        listener,
        journal,
        console,
        lines,
    };
    serve_plan(rt, plan, journalling, input, ends)
}

// Serves a plan's stations with these options.
fn serve_plan<R: Host, I: Input, W: Output, T: Output, L: Output>(
    rt: &R,
    plan: &Plan,
    journalling: Journalling,
    input: &mut I,
    mut ends: Ends<W, T, L>,
) -> Result<Served<W, T>, JournalFault>
    ensures { IfOk result (λ s. IsNewRun plan.now.sites.items plan.now.stations.items (writer_contents W.contents ends.journal) (left_of W.contents s)
        (TellsNew s.ended plan.now.stations.items (operator_input journalling.live.connections (I.remaining input.old)) (T.contents ends.console) (T.contents s.console))) }
{
    if let Some(fault) = plan.fault() {
        return Err(JournalFault::Service(ServiceFault::from(fault)));
    }
    if !are_in_order(plan.stations.as_slice(), 0, plan.sites.len() as u16) {
        return Err(JournalFault::Service(TORN));
    }
    let head = journal_head(rt.alloc(), plan)?;
    let cells = new_cells(rt.alloc(), plan)?;
    write_head(&mut ends.journal, head.as_slice())?;
    let passes = Vec::new(rt.alloc());
    let served = run_plan(rt, plan, cells, passes, journalling, input, ends)?;
    Ok(served)
}

/// Serves the stations of a script as [`serve_journalled`] serves those of a plan: it restores the script at the front
/// of the input, up to the line `listen`, and goes on behind it. It writes neither restored lines nor the declarations
/// again. It reports a line that changed nothing as `left out <line number> <answer>`, and then how many changes the
/// stations hold, as `restored <n>`. An operator's lines follow on the input.
///
/// If a line is lost, that is, it changed nothing and no kill cut it, the server ends with `LeftOut` before it writes a
/// journal or listens, unless the options allow it: the stations then hold less than the script says, as when a
/// declaration is missing.
pub fn serve_restored<R: Host, I: Input, W: Output, T: Output, L: Output>(
    rt: &R,
    restoring: Restoring,
    input: &mut I,
    mut journal: BufWriter<W>,
    mut console: T,
    lines: L,
) -> Result<Served<W, T>, JournalFault>
    ensures serves { IfOk result (λ s. IsRestoredRun restoring.allows_left_out (I.remaining input.old) (writer_contents W.contents journal) (left_of W.contents s)
        (TellsRestored s.ended restoring.journalling.live.connections (T.contents console) (T.contents s.console))) }
    ensures unmarked { IfErr result (λ e. e ≡ JournalFault.Restore RestoreFault.NotMarked → IsRefused (I.remaining input.old) (λ read. IsUnmarked read)) }
    ensures left_out { IfErr result
        (λ e. e ≡ JournalFault.LeftOut → (restoring.allows_left_out ≡ false) × IsRefused (I.remaining input.old) (λ read. loses start (lines_of longest_line read) ≡ true)) }
{
    let restored = match restore(rt, input, &mut console) {
        Ok(restored) => restored,
        Err(fault) => return Err(JournalFault::Restore(fault)),
    };
    if is_refused(restored.has_lost, restoring.allows_left_out) {
        return Err(JournalFault::LeftOut);
    }
    tell_restored(&mut console, restored.cells.as_slice());
    let Ok(head) = run_head(rt.alloc()) else {
        return Err(JournalFault::Service(ServiceFault::OutOfMemory));
    };
    if let Err(fault) = write_head(&mut journal, head.as_slice()) {
        return Err(JournalFault::Service(fault));
    }
    let ends = Ends {
        listener: None,
        journal,
        console,
        lines,
    };
    let (cells, passes) = (restored.cells, restored.passes);
    let plan = restored.draft.plan();
    match run_plan(rt, plan, cells, passes, restoring.journalling, input, ends) {
        Ok(served) => Ok(served),
        Err(fault) => Err(JournalFault::Service(fault)),
    }
}

// Returns whether a script is refused, by whether a line of it is lost and whether that is allowed.
fn is_refused(has_lost: bool, allows_left_out: bool) -> bool
    ensures { result ≡ (has_lost && not allows_left_out) }
{
    has_lost && !allows_left_out
}

// Writes the beginning of a run; nothing of it is left in the buffer then.
fn write_head<W: Output>(journal: &mut BufWriter<W>, head: &[u8]) -> Result<(), ServiceFault>
    ensures begins { OnOk result (Appends (writer_contents W.contents journal.old) (W.contents (writer_inner journal.new)) head.now) }
    ensures handed_on { OnOk result (writer_buffer journal.new ≡ []) }
{
    if journal.write_all(head).is_err() || journal.flush().is_err() {
        return Err(ServiceFault::Output(BoardsFault::WriteFault));
    }
    Ok(())
}

// Reports how many changes the restored stations hold. A report that can't be written is dropped.
fn tell_restored<T: Write>(console: &mut T, cells: &[StationCell])
    ensures { Grows (T.contents console.old) (T.contents console.new) }
{
    let mut changes: u64 = 0;
    for cell in cells {
        changes = changes.saturating_add(cell.ledger().changes());
    }
    tell_changes(console, changes);
    let _ = console.flush();
}

// Writes `restored` and a number of changes.
fn tell_changes<T: Write>(console: &mut T, changes: u64)
    ensures { Grows (T.contents console.old) (T.contents console.new) }
{
    let mut digits = Buffer::new();
    let _ = write_bytes(console, b"restored ");
    let _ = write_bytes(console, digits.format(changes).as_bytes());
    let _ = write_bytes(console, b"\n");
}
