ghost use Rattle.std.{specs.Prelude.{◌≡◌, ◌≢◌, ℕ, [], All, length, map, IfOk, IfErr, None, Some, slice_get}, specs.Io.Buffered.{writer_buffer, writer_inner}};
ghost use Rattle.kept_desk.{specs.Entries.{IsNote, bytes_of, entry}, specs.Kept.{AreBoardsBehind, IsReceived, IsWrittenDown}, specs.Opened.{AreFirst, AreNames}, specs.Speaking.SpeaksOf};
ghost use Rattle.ledger_model.{specs.declared.answer.Answer.Answer, specs.declared.answer.Refusal.Refusal, specs.Board.sum_of_figures};
ghost use Rattle.site_desk.{specs.declared.fault.CloseFault.CloseFault, specs.declared.roster.StationPlace.StationPlace, specs.Close.{IsClosable, Saw}, specs.Plan.plan_fault, specs.Roster.AreNewPlaces, specs.Submit.{IsUnchanged, Submitted}, specs.Operator.{AreBoardsAt, site_looks}};
ghost use Rattle.station_ledger.specs.Quarters.{IsWork};

use crate::at_moment::AtMoment;
use crate::cell::KeptCell;
use crate::cells::{confirm_all, free_cells, keep_cells};
use crate::closed::{KeptClosed, KeptRefused};
use crate::journal::Journal;
use crate::journal_table::JournalTable;
use crate::line::Line;
use crate::moment::Moment;
use crate::opening::Opening;
use crate::way::Journalled;
use energy_flow::Work;
use ledger_model::{Answer, Command, Figures, Name};
use site_book::{Naming, Told, Viewer};
use site_desk::{BoardFault, CloseRefused, Closed, Desk, Gate, Parts, Pass, Plan, StationCell};
use station_ledger::StationBoard;
use std::alloc::{AllocError, Global};
use std::io::{BufWriter, Write};
use std::marker::Model;
use std::sync::{Mutex, Wait};
use std::time::Clock;

/// The stations and sites of a plan under locks, as a [`Desk`], with a journal under a lock of its own;
/// a thread that holds that lock asks for no other. Contracts see what they see of a [`Desk`].
#[derive(Drop)]
pub struct KeptDesk<J: Naming, K: Opening, W: Write + Drop> {
    desk: Desk<J, KeptCell<K>>,
    log: Mutex<Journal<K, W>>,
    spare: Vec<StationCell>,
}

impl<J: Naming, K: Opening, W: Write + Drop> Model for KeptDesk<J, K, W> {
    ghost use Rattle.site_desk.specs.Roster.{Roster};

    ghost Value = { Roster };

    ghost use Rattle.std.specs.Prelude.{vec_len, vec_capacity};
    ghost use Rattle.kept_desk.specs.Kept.{IsKeptDesk};

    ghost view = { λ d. d.desk };

    ghost invariant = { λ d. IsKeptDesk K.name d.desk.stations (vec_len d.spare) (vec_capacity d.spare) };
}

impl<J: Naming, K: Opening, W: Write + Drop> KeptDesk<J, K, W> {
    /// The desk of a plan over these parts, with a journal without entries that writes behind what its
    /// writer has already, and the viewers, each with its site's number. The error says that the
    /// allocator refused memory.
    ///
    /// Conditions: K names this table, the bytes that the writer behind the buffer has, and the stations' contents and
    /// names; nothing is left in the buffer; the plan has no fault ([`Plan::fault`] tests it), and the parts are a cell
    /// for each of its stations and a book for each of its sites, as [`Parts::open`] gives them and after any commands.
    pub fn open(
        alloc: Global,
        plan: &Plan,
        parts: Parts<J>,
        table: JournalTable,
        writer: BufWriter<W>,
    ) -> Result<(Self, Vec<(u16, Viewer<J>)>), AllocError>
        requires table { table ≡ K.table }
        requires before { W.contents (writer_inner writer) ≡ K.before }
        requires empty { writer_buffer writer ≡ [] }
        requires first { AreFirst K.first parts.cells }
        requires names { AreNames K.name plan.now.stations.items }
        requires faultless { plan_fault plan.now.sites.items plan.now.stations.items ≡ None }
        requires cells { length parts.cells ≡ length plan.now.stations.items }
        requires books { length parts.books ≡ length plan.now.sites.items }
        ensures stations { IfOk result (λ r. AreNewPlaces plan.now.sites.items plan.now.stations.items r.0.stations) }
        ensures sites { IfOk result (λ r. r.0.sites ≡ length plan.now.sites.items) }
        ensures viewers { IfOk result (λ r. r.1.items ≡ parts.viewers) }
        ensures given { IfOk result (λ r. r.0.viewers ≡ length r.1.items) }
    {
        let Parts {
            cells,
            books,
            viewers,
        } = parts;
        let viewers = viewers.into_vec();
        let spare = Vec::with_capacity(alloc, plan.stations.len())?;
        let mut log = Journal::open(table, writer);
        let cells = keep_cells(alloc, cells.into_vec(), &mut log)?;
        let desk = Desk::over(alloc, plan, cells, books.into_vec(), viewers.len())?;
        let kept = KeptDesk {
            desk,
            log: Mutex::new(log),
            spare,
        };
        Ok((kept, viewers))
    }

    /// The desk without its journal, to read it and to get passes.
    pub fn desk(&self) -> &Desk<J, KeptCell<K>>
        ensures { result.now ≡ self.now }
    {
        &self.desk
    }

    /// The boards of a site as [`Desk::site_boards`] gives them, and the moment of the journal that they show: each
    /// board is that of the content that its station's entries at that moment lead to. The call takes the journal's
    /// lock while it holds those of the site, and gives it back before it makes the boards. Errors are those of
    /// [`Desk::site_boards`], and `work` counts what it counts there.
    pub fn site_boards<R: Wait>(
        &self,
        rt: &R,
        alloc: Global,
        site: u16,
        work: &mut Work,
    ) -> Result<(Vec<(Name, StationBoard)>, Figures, Moment<K>), BoardFault>
        ensures work { IsWork (site_looks self.now.stations site) work.old work.new }
        ensures boards { IfOk result (λ r. AreBoardsAt self.now.stations site r.0.items) }
        ensures behind { IfOk result (λ r. AreBoardsBehind K.first self.now.stations site r.0.items r.2) }
        ensures totals { IfOk result (λ r. r.1 ≡ sum_of_figures (map (λ s. s.1.figures) r.0.items)) }
    {
        let way = AtMoment { log: &self.log };
        self.desk.site_boards_by(rt, alloc, site, &way, work)
    }

    /// Returns whether a line could not be written whole; the journal then takes no more. It waits
    /// for nobody: while a line is being written, it returns false.
    pub fn is_broken(&self) -> bool {
        match self.log.try_lock() {
            Some(log) => log.is_broken(),
            None => false,
        }
    }

    /// Takes a command of a pass and returns the answer, as [`Desk::submit`] does. If the command is
    /// accepted, its line was written and flushed before, under the station's lock and the journal's; it is
    /// settled under the station's lock and its site's. `ChangesExhausted` also answers if the line can't be
    /// written, and then every later command that would be accepted. It answers, too, if the site's book is
    /// not as it should be behind a written line, which no run with fewer than 2^62 accepted changes of a
    /// site meets; then the station's cell leaves service, and the desk doesn't close over it. An accepted
    /// answer comes with the journal's moment at which the line's entry was the last one; a repeat or a refusal
    /// with the moment at which it was given.
    ///
    /// Conditions: in front of the line is nothing or a comment line, which is written with it
    /// ([`is_note`](crate::is_note) tests it), and the line speaks for the command on the pass's station.
    pub fn submit<G: Gate, R: Wait + Clock>(
        &self,
        rt: &R,
        pass: &mut Pass,
        command: Command,
        note: &[u8],
        line: Line<'_>,
        gate: &G,
    ) -> (Answer, Option<Told<J>>, Option<Moment<K>>)
        requires note { IsNote note.now }
        requires speaks { (at : StationPlace) → slice_get self.now.stations pass.old.station ≡ Some at → SpeaksOf at.name (bytes_of line) command }
        ensures settled { (at : StationPlace) → slice_get self.now.stations pass.old.station ≡ Some at → Submitted at pass.old command result.0 pass.new result.1 }
        ensures received { (at : StationPlace) → slice_get self.now.stations pass.old.station ≡ Some at
            → IsReceived at (K.first pass.old.station) result.0 (entry pass.old.station note.now (bytes_of line.entry) command) result.1 result.2 }
        ensures stranger { slice_get self.now.stations pass.old.station ≡ None → (result.0 ≡ Answer.Refused Refusal.ChangesExhausted) × IsUnchanged pass.old pass.new result.1 }
    {
        let way = Journalled {
            log: &self.log,
            note,
            line,
        };
        self.desk.submit_by(rt, pass, command, gate, &way)
    }

    /// Closes the desk as [`Desk::close`] does, and then compares each station's share, and each moment that
    /// is handed in, with the journal. It takes no memory. The error gives all back as it was, with the
    /// fault.
    pub fn close(
        self,
        passes: Vec<Pass>,
        viewers: Vec<Viewer<J>>,
        moments: Vec<Moment<K>>,
    ) -> Result<KeptClosed<J, W>, KeptRefused<J, K, W>>
        ensures kept { IfOk result (λ s. IsWrittenDown K.name K.first K.before s.is_broken (W.contents (writer_inner s.writer)) (writer_buffer s.writer) s.closed.cells moments.items) }
        ensures stations { IfOk result (λ s. length s.closed.cells ≡ length self.stations) }
        ensures sites { IfOk result (λ s. length s.closed.books ≡ self.sites) }
        ensures whole { IfOk result (λ s. IsClosable self.stations self.viewers s.closed.cells s.closed.books passes.items viewers.items) }
        ensures given { IfOk result (λ s. s.closed.passes ≡ passes.items) }
        ensures seen { IfOk result (λ s. All (Saw s.closed.books) viewers.items) }
        ensures viewer { IfErr result (λ r. r.fault ≡ CloseFault.ViewerMissing → length viewers.items ≢ self.viewers) }
        ensures desk { IfErr result (λ r. r.desk ≡ self) }
        ensures passes { IfErr result (λ r. r.passes ≡ passes.items) }
        ensures viewers { IfErr result (λ r. r.viewers ≡ viewers.items) }
        ensures moments { IfErr result (λ r. r.moments.items ≡ moments.items) }
    {
        let KeptDesk { desk, log, spare } = self;
        match desk.dismantle(passes, viewers) {
            Ok((kept, books, passes)) => {
                let (mut log, mut cells) = (log.into_inner(), spare);
                free_cells(kept, &mut log, &mut cells);
                confirm_all(moments, &mut log);
                let is_broken = log.is_broken();
                Ok(KeptClosed {
                    closed: Closed::of(cells, books, passes),
                    writer: log.into_writer(),
                    is_broken,
                })
            }
            Err(refused) => {
                let CloseRefused {
                    desk,
                    passes,
                    viewers,
                    fault,
                } = refused;
                Err(KeptRefused {
                    desk: KeptDesk { desk, log, spare },
                    passes,
                    viewers,
                    moments,
                    fault,
                })
            }
        }
    }
}
