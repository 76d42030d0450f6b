//! A server with a journal, from its desk to its boards.
ghost use Rattle.std.{specs.Prelude.{◌≡◌, ◌<◌, ◌++◌, ℕ, List, [], None, All, IfOk, IsOk, OnOk, length}, specs.Io.Buffered.{writer_buffer, writer_inner}};
ghost use Rattle.kept_desk.{specs.Opened.{contents_of, names_of}, specs.Kept.AreBoardsBehind};
ghost use Rattle.site_book.{specs.Tables.{HasTable, NamedBy}, specs.Prefix.IsPrefix};
ghost use Rattle.site_desk.{specs.Parts.AreNewCells, specs.Plan.plan_fault, specs.Roster.{AreCellsOf, AreNewPlaces}};
ghost use Rattle.live_server.{specs.Browsing.IsSeenWithBoards, specs.Told.operator_input};
ghost use Rattle.journal_server.{specs.Left.left_of, specs.Served.{IsEnded, IsItsScript, IsKeptAnswer, Leaves, TellsNew}};
ghost use Rattle.station_link.specs.Attended.{IsAnswered};

use crate::serve::Journalling;
use crate::serving::Serving;
use board_report::write_boards;
use energy_flow::Work;
use kept_desk::{JournalTable, KeptDesk, Moment, Opening};
use live_server::{Ran, Run, serve_plan_at};
use running_desk::{Host, Input, Output, ServiceFault};
use site_book::{Naming, Tables, Viewer};
use site_desk::{Parts, Pass, Plan, StationCell};
use std::alloc::{AllocError, Global};
use std::io::BufWriter;
use std::marker::Brand;
use std::net::TcpListener;
use std::thread::Threads;

/// The result of a server with a journal.
#[derive(Drop)]
pub struct Served<W, T> {
    /// The writer of the journal, behind its buffer.
    pub journal: W,
    /// The bytes that a failed write left in the buffer. They are not written later, since their
    /// change was refused.
    pub unwritten: Vec<u8>,
    /// Whether a write or a flush of the journal failed.
    pub is_broken: bool,
    /// The board of each site, in the plan's order.
    pub boards: Vec<u8>,
    /// All passes of its desk. Each counted the commands that were accepted with it.
    pub passes: Vec<Pass>,
    /// How the operator's lines ended.
    pub ended: Result<(), ServiceFault>,
    /// The console, which took the lines of the ports and the answers to the operator.
    pub console: T,
}

// The outputs of a server: its journal, its console, and the lines of sessions and totals; and a listener that is there
// already, if there is one.
#[derive(Drop)]
pub(crate) struct Ends<W: Output, T, L> {
    pub(crate) listener: Option<TcpListener>,
    pub(crate) journal: BufWriter<W>,
    pub(crate) console: T,
    pub(crate) lines: L,
}

// What a desk with a journal begins with: the tables of its stations' figures and of its journal, and its cells.
#[derive(Drop)]
struct DeskParts {
    tables: Tables,
    table: JournalTable,
    cells: Vec<StationCell>,
}

// The cells of a plan's stations, without events.
pub(crate) fn new_cells(alloc: Global, plan: &Plan) -> Result<Vec<StationCell>, ServiceFault>
    ensures { IfOk result (λ cells. AreNewCells plan.now.sites.items plan.now.stations.items cells.items) }
{
    let tables = Tables::make(alloc, plan.sites.len() as u16)?;
    cells_over::<Brand>(alloc, tables, plan)
}

// The same, over tables that J names.
fn cells_over<J: Naming>(
    alloc: Global,
    tables: Tables,
    plan: &Plan,
) -> Result<Vec<StationCell>, ServiceFault>
    requires named { NamedBy J.table tables }
    requires there { (site : ℕ) → site < length plan.now.sites.items → HasTable tables site }
    ensures { IfOk result (λ cells. AreNewCells plan.now.sites.items plan.now.stations.items cells.items) }
{
    let parts = Parts::<J>::open(alloc, tables, plan)?;
    Ok(parts.cells.into_vec())
}

// Serves the stations of a plan over these cells until the operator's lines, which come from the input, end, or until
// as many connections have ended as are asked for.
pub(crate) fn run_plan<R: Host, I: Input, W: Output, T: Output, L: Output>(
    rt: &R,
    plan: &Plan,
    cells: Vec<StationCell>,
    passes: Vec<Pass>,
    journalling: Journalling,
    input: &mut I,
    ends: Ends<W, T, L>,
) -> Result<Served<W, T>, ServiceFault>
    requires faultless { plan_fault plan.now.sites.items plan.now.stations.items ≡ None }
    requires cells { AreCellsOf plan.now.sites.items plan.now.stations.items cells.items }
    requires empty { writer_buffer ends.journal ≡ [] }
    ensures { IfOk result (λ s. (front : List ℕ) → Leaves front plan.now.sites.items plan.now.stations.items cells.items
        → IsItsScript front plan.now.sites.items plan.now.stations.items cells.items (W.contents (writer_inner ends.journal)) (left_of W.contents s)
        (TellsNew s.ended plan.now.stations.items (operator_input journalling.live.connections (I.remaining input.old))
        (T.contents ends.console) (T.contents s.console) plan.now.sites.items cells.items)) }
{
    let tables = Tables::make(rt.alloc(), plan.sites.len() as u16)?;
    let table = JournalTable::new(rt.alloc())?;
    let desk_parts = DeskParts {
        tables,
        table,
        cells,
    };
    run_over::<Brand, Brand, R, I, W, T, L>(rt, plan, desk_parts, passes, journalling, input, ends)
}

// The same, under the naming of the desk's tables and of its journal.
fn run_over<
    J: Naming + Send + Sync,
    K: Opening + Send + Sync,
    R: Host,
    I: Input,
    W: Output,
    T: Output,
    L: Output,
>(
    rt: &R,
    plan: &Plan,
    desk_parts: DeskParts,
    passes: Vec<Pass>,
    journalling: Journalling,
    input: &mut I,
    ends: Ends<W, T, L>,
) -> Result<Served<W, T>, ServiceFault>
    requires named { NamedBy J.table desk_parts.tables }
    requires there { (site : ℕ) → site < length plan.now.sites.items → HasTable desk_parts.tables site }
    requires table { desk_parts.table ≡ K.table }
    requires before { W.contents (writer_inner ends.journal) ≡ K.before }
    requires empty { writer_buffer ends.journal ≡ [] }
    requires first { K.first ≡ contents_of desk_parts.cells.items }
    requires names { K.name ≡ names_of plan.now.stations.items }
    requires faultless { plan_fault plan.now.sites.items plan.now.stations.items ≡ None }
    requires cells { AreCellsOf plan.now.sites.items plan.now.stations.items desk_parts.cells.items }
    ensures { IfOk result (λ s. IsEnded (names_of plan.now.stations.items) (contents_of desk_parts.cells.items) (W.contents (writer_inner ends.journal))
        plan.now.sites.items plan.now.stations.items (left_of W.contents s)
        (TellsNew s.ended plan.now.stations.items (operator_input journalling.live.connections (I.remaining input.old))
        (T.contents ends.console) (T.contents s.console) plan.now.sites.items desk_parts.cells.items)) }
{
    let alloc = rt.alloc();
    let live = journalling.live;
    let (console, lines) = (ends.console, ends.lines);
    let (kept, viewers) = open_over::<J, K, W>(
        alloc,
        plan,
        desk_parts,
        live.glances,
        ends.journal,
    )?;
    let has_receipt_times = journalling.has_receipt_times;
    let serving = Serving {
        kept,
        has_receipt_times,
    };
    let listener = ends.listener;
    let run = Run {
        rt,
        plan,
        live,
        listener,
    };
    let ran = serve_plan_at(run, &serving, passes, viewers, input, console, lines)?;
    end_run(rt, alloc, plan, serving.kept, ran)
}

// The desk of a plan over cells that took commands before, with a journal that has no lines yet, and its viewers.
fn open_over<J: Naming, K: Opening, W: Output>(
    alloc: Global,
    plan: &Plan,
    desk_parts: DeskParts,
    glances: u16,
    journal: BufWriter<W>,
) -> Result<(KeptDesk<J, K, W>, Vec<Viewer<J>>), AllocError>
    requires named { NamedBy J.table desk_parts.tables }
    requires there { (site : ℕ) → site < length plan.now.sites.items → HasTable desk_parts.tables site }
    requires table { desk_parts.table ≡ K.table }
    requires before { W.contents (writer_inner journal) ≡ K.before }
    requires empty { writer_buffer journal ≡ [] }
    requires first { K.first ≡ contents_of desk_parts.cells.items }
    requires names { K.name ≡ names_of plan.now.stations.items }
    requires faultless { plan_fault plan.now.sites.items plan.now.stations.items ≡ None }
    requires cells { AreCellsOf plan.now.sites.items plan.now.stations.items desk_parts.cells.items }
    ensures opened { IfOk result (λ r. AreNewPlaces plan.now.sites.items plan.now.stations.items r.0.stations) }
    ensures sites { IfOk result (λ r. r.0.sites ≡ length plan.now.sites.items) }
{
    let each = if glances > 0 { 1 } else { 0 };
    let parts = Parts::over(alloc, desk_parts.tables, plan, desk_parts.cells, each)?;
    let (kept, numbered) = KeptDesk::open(alloc, plan, parts, desk_parts.table, journal)?;
    let mut viewers = Vec::with_capacity(alloc, numbered.len())?;
    for (_site, viewer) in numbered {
        viewers.push(viewer)?;
    }
    Ok((kept, viewers))
}

// How the operator's lines ended, and what was seen of the journal with the answers to them.
fn seen_of<M: Drop>(
    alloc: Global,
    ended: Result<Vec<M>, ServiceFault>,
) -> (Result<(), ServiceFault>, Vec<M>)
    ensures well { OnOk result.0 (IsOk ended) }
    ensures seen { IfOk ended (λ seen. result.1.items ≡ seen.items) }
{
    match ended {
        Ok(seen) => (Ok(()), seen),
        Err(fault) => (Err(fault), Vec::new(alloc)),
    }
}

// These moments, and those behind them.
fn with_more<M: Drop>(mut seen: Vec<M>, mut more: Vec<M>) -> Result<Vec<M>, AllocError>
    ensures { IfOk result (λ all. all.items ≡ seen.items ++ more.items) }
{
    seen.append(&mut more)?;
    Ok(seen)
}

// Closes a desk with a journal after its sessions have ended, and makes the board of each site, in the plan's
// order.
fn end_run<J: Naming + Send + Sync, K: Opening + Send + Sync, W: Output, T: Output, R: Threads>(
    rt: &R,
    alloc: Global,
    plan: &Plan,
    kept: KeptDesk<J, K, W>,
    ran: Ran<Serving<J, K, W>, T>,
) -> Result<Served<W, T>, ServiceFault>
    requires opened { AreNewPlaces plan.now.sites.items plan.now.stations.items kept.stations }
    requires sites { kept.sites ≡ length plan.now.sites.items }
    requires faultless { plan_fault plan.now.sites.items plan.now.stations.items ≡ None }
    requires answered { All (IsAnswered (IsKeptAnswer K.first)) ran.answers.items }
    requires browsed { All (IsSeenWithBoards (AreBoardsBehind K.first kept.stations)) ran.boards.items }
    ensures { IfOk result (λ s. IsEnded K.name K.first K.before plan.now.sites.items plan.now.stations.items (left_of W.contents s)
        (λ log. (s.console ≡ ran.output) × OnOk s.ended (IsOk ran.ended) × IfOk ran.ended (λ seen. All (λ m. IsPrefix m log) seen.items))) }
{
    let (ended, seen) = seen_of(alloc, ran.ended);
    let more = with_more(seen, ran.answers)?;
    let moments = with_more(more, ran.boards)?;
    let mut boards = Vec::new(alloc);
    let closed = match kept.close(ran.passes, ran.viewers, moments) {
        Ok(closed) => closed,
        Err(refused) => return Err(ServiceFault::from(refused.fault)),
    };
    let mut work = Work::open(rt);
    if let Err(_fault) = write_boards(alloc, plan, &closed.closed, &mut boards, &mut work) {
        return Err(ServiceFault::OutOfMemory);
    }
    let (journal, unwritten) = closed.writer.into_parts();
    Ok(Served {
        journal,
        unwritten,
        is_broken: closed.is_broken,
        boards,
        passes: closed.closed.into_passes(),
        ended,
        console: ran.output,
    })
}
