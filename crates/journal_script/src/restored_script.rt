ghost use Rattle.std.{specs.Prelude.{◌≡◌, ◌≢◌, ℕ, ◌+◌, ◌<◌, ◌≤◌, ◌^◌, None, IfErr, IfOk, OnOk}, specs.Io.KnownBytes.Keeps};
ghost use Rattle.script_lines.specs.Ranges.{longest_line};
ghost use Rattle.site_book.specs.Tables.{HasTable, NamedBy};
ghost use Rattle.site_desk.{specs.Plan.plan_fault, specs.Roster.AreCellsOf};
ghost use Rattle.script_ledgers.specs.Running.{AreTheirPasses};
ghost use Rattle.journal_script.{specs.Place.{place_of, posts_of}, specs.Restoring.Grows, specs.Reading.{IsLeft, ReadsTo, TakesLine, begun, read_on}};

use crate::fault::RestoreFault;
use crate::restored::Restored;
use crate::source::Source;
use energy_flow::Work;
use message_ahead::Lookahead;
use script_ledgers::ScriptAhead;
use site_book::{Naming, Tables};
use std::alloc::Global;
use std::io::{BufRead, Write};
use std::thread::Threads;

// A script that is being restored: the state after its lines so far, and its source.
#[derive(Drop)]
pub(crate) struct RestoredScript<J: Naming> {
    script: ScriptAhead<J, Lookahead>,
    source: Source,
}

impl<J: Naming> RestoredScript<J> {
    // A script before its first line.
    //
    // Condition: the tables are those that J names, and there is one for each site that a plan may have.
    pub(crate) fn begin(alloc: Global, tables: Tables) -> Self
        requires named { NamedBy J.table tables }
        requires there { (site : ℕ) → site < 16 → HasTable tables site }
        ensures begun { (place_of result).standing ≡ begun }
        ensures none { posts_of result ≡ 0 }
        ensures most { result.source.lines.max_line_bytes ≡ longest_line }
        ensures few { result.source.lines.room < 2 ^ 61 }
    {
        RestoredScript {
            script: ScriptAhead::<J, Lookahead>::begin(tables, Lookahead::new(alloc)),
            source: Source::open(alloc),
        }
    }

    // Reads and answers all lines up to `listen`.
    pub(crate) fn read_lines<X: AllocGlobal + Threads, R: BufRead, T: Write>(
        &mut self,
        rt: &X,
        reader: &mut R,
        told: &mut T,
    ) -> Result<(), RestoreFault>
        requires short { self.old.source.lines.max_line_bytes < 2 ^ 62 }
        requires few { posts_of self.old + self.old.source.lines.room < 2 ^ 62 }
        ensures reads { OnOk result (ReadsTo self.old.source.lines.max_line_bytes (place_of self.old).standing (place_of self.new).standing (R.remaining reader.old) (R.remaining reader.new)) }
        ensures grows { OnOk result (Grows (T.contents told.old) (T.contents told.new)) }
        ensures fails { IfErr result (λ e. e ≢ RestoreFault.NotMarked) }
    {
        let mut work = Work::open(rt);
        'lines: loop {
            self.look(rt, reader)?;
            if !self.next(reader)? {
                return Ok(());
            }
            self.answer(rt, told, &mut work)?;
            continue 'lines;
        }
    }

    // Lets threads read the lines to come that the reader shows.
    fn look<X: Threads, R: BufRead>(&mut self, rt: &X, reader: &mut R) -> Result<(), RestoreFault>
        ensures place { place_of self.new ≡ place_of self.old }
        ensures posts { posts_of self.new ≡ posts_of self.old }
        ensures reader { Keeps (R.remaining reader.old) (R.remaining reader.new) }
        ensures fails { IfErr result (λ e. e ≢ RestoreFault.NotMarked) }
    {
        match self.script.look(rt, &self.source.lines, reader) {
            Ok(()) => Ok(()),
            Err(_) => Err(RestoreFault::ReadFault),
        }
    }

    // Reads the next line; false if it is `listen`.
    fn next<R: BufRead>(&mut self, reader: &mut R) -> Result<bool, RestoreFault>
        requires { self.old.source.lines.max_line_bytes < 2 ^ 62 }
        ensures takes { IfOk result (λ more. TakesLine more self.old.source.lines self.new.source.lines (R.remaining reader.old) (R.remaining reader.new)) }
        ensures most { self.new.source.lines.max_line_bytes ≡ self.old.source.lines.max_line_bytes }
        ensures standing { (place_of self.new).standing ≡ (place_of self.old).standing }
        ensures posts { posts_of self.new ≡ posts_of self.old }
        ensures fails { IfErr result (λ e. e ≢ RestoreFault.NotMarked) }
    {
        self.source.next(reader)
    }

    // Answers the line that was read last.
    fn answer<X: AllocGlobal + Threads, T: Write>(
        &mut self,
        rt: &X,
        told: &mut T,
        work: &mut Work,
    ) -> Result<(), RestoreFault>
        requires few { posts_of self.old < 2 ^ 62 }
        ensures step { OnOk result (place_of self.new ≡ read_on (place_of self.old)) }
        ensures posts { OnOk result (posts_of self.new ≤ posts_of self.old + 1) }
        ensures grows { OnOk result (Grows (T.contents told.old) (T.contents told.new)) }
        ensures fails { IfErr result (λ e. e ≢ RestoreFault.NotMarked) }
    {
        let mut reply = Vec::new(rt.alloc());
        self.script
            .answer(rt, self.source.line(), &mut reply, work)?;
        self.source.tell(told, &reply);
        Ok(())
    }

    // The result, and whether the line before `listen` ends with `#`.
    pub(crate) fn into_restored<X: AllocGlobal + Threads>(
        self,
        rt: &X,
    ) -> Result<(Restored, bool), RestoreFault>
        ensures left { IfOk result (λ r. IsLeft (place_of self).standing r.0 r.1) }
        ensures makes_desk { IfOk result (λ r. (plan_fault r.0.draft.sites r.0.draft.stations ≡ None) × AreCellsOf r.0.draft.sites r.0.draft.stations r.0.cells.items) }
        ensures passes { IfOk result (λ r. AreTheirPasses r.0.cells.items r.0.passes.items) }
        ensures fails { IfErr result (λ e. e ≢ RestoreFault.NotMarked) }
    {
        let RestoredScript { script, source } = self;
        let (draft, cells, passes) = script.into_script().into_parts(rt)?;
        let has_lost = source.left_out.has_lost;
        let restored = Restored {
            draft,
            cells,
            passes,
            has_lost,
        };
        Ok((restored, source.left_out.is_marked))
    }
}
