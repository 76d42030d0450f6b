ghost use Rattle.std.specs.Prelude.{◌≡◌, List, [], ◌∷◌, ◌++◌, length, IfOk, IfSome, None, Some};
ghost use Rattle.kept_desk.{specs.Entries.{IsNote, bytes_of, entry, of_station}, specs.Kept.{IsLeftOwn, IsReceived, KeepsCell}, specs.Speaking.SpeaksOf};
ghost use Rattle.ledger_model.{specs.declared.answer.Answer.Answer, specs.declared.answer.Refusal.Refusal, specs.Laws.IsAccepted};
ghost use Rattle.site_desk.{specs.Cell.{IsInService, no_station}, specs.Settle.cell_after, specs.Submit.{CanJudge, Submitted, TellsOf}};
ghost use Rattle.station_ledger.specs.Judged.{IsJudged};

use crate::broken::Broken;
use crate::journal::Journal;
use crate::moment::Moment;
use crate::opening::Opening;
use crate::share::Share;
use crate::way::Journalled;
use ledger_model::{Answer, Command, Refusal};
use site_book::{Naming, SiteBook, Told};
use site_desk::{HasCell, Located, Pass, StationCell, TooManyPasses, enlist_cell, settle_at};
use station_ledger::Judgement;
use std::io::Write;
use std::marker::Model;
use std::sync::{Mutex, Wait};
use std::thread::Threads;

/// A station's cell and its share of the journal. Contracts see the cell. While it is in service, the
/// commands of its entries, each accepted, always lead from what the station held when the desk was
/// opened to its content.
#[derive(Drop)]
pub struct KeptCell<K: Opening> {
    cell: StationCell,
    share: Share<K>,
}

impl<K: Opening> Model for KeptCell<K> {
    ghost use Rattle.site_desk.specs.Cell.{Cell, cell_code};
    ghost use Rattle.kept_desk.specs.Kept.{KeepsCell};

    ghost Value = { Cell };

    ghost coded = { cell_code };

    ghost view = { λ k. k.cell };

    ghost invariant = { λ k. KeepsCell K.first k.cell k.share };
}

impl<K: Opening> HasCell for KeptCell<K> {
    ghost cell = { λ c. c };

    fn cell(&self) -> &StationCell {
        &self.cell
    }

    fn enlist<R: Threads>(&mut self, rt: &R) -> Result<Pass, TooManyPasses> {
        enlist_cell(rt, &mut self.cell)
    }
}

// A command, and what the cell's ledger answers to it.
#[derive(Drop)]
struct Judged {
    command: Command,
    judgement: Judgement,
}

impl<K: Opening> KeptCell<K> {
    // The cell of a station as it was when the desk was opened, with a share without entries.
    pub(crate) fn new(cell: StationCell, share: Share<K>) -> Self
        requires station { share.station ≡ cell.station }
        requires none { share.entries ≡ [] }
        requires first { cell.content ≡ K.first cell.station }
        ensures { result ≡ cell }
    {
        KeptCell { cell, share }
    }

    // Compares its share with the journal: the cell's own entries there lead to its content.
    pub(crate) fn compare<W: Write + Drop>(&mut self, log: &mut Journal<K, W>)
        ensures cell { self.new ≡ self.old }
        ensures log { log.new ≡ log.old }
        ensures left { IsLeftOwn K.first log.old.entries self.old }
    {
        log.compare(&mut self.share);
    }

    // Both parts, after the journal is out of its lock.
    pub(crate) fn into_parts(self) -> (StationCell, Share<K>)
        ensures cell { result.0 ≡ self }
        ensures left { KeepsCell K.first self result.1 }
    {
        let KeptCell { cell, share } = self;
        (cell, share)
    }

    // Submits a command of a pass. If the ledger would accept it, its line is written first. A line that
    // can't be written changes nothing. Any other answer comes with the journal's moment.
    pub(crate) fn submit<J: Naming, W: Write + Drop, R: Wait>(
        &mut self,
        rt: &R,
        book: &Mutex<SiteBook<J>>,
        at: Located<'_>,
        pass: &mut Pass,
        command: Command,
        way: &Journalled<'_, K, W>,
    ) -> (Answer, Option<Told<J>>, Option<Moment<K>>)
        requires can { CanJudge at.number at.place.now self.old pass.old }
        requires note { IsNote way.now.note.now }
        requires speaks { SpeaksOf (K.name at.number) (bytes_of way.now.line) command }
        ensures submitted { Submitted at.entry.place.now pass.old command result.0 pass.new result.1 }
        ensures received { IsReceived at.entry.place.now (K.first at.entry.number) result.0 (entry at.entry.number way.now.note.now (bytes_of way.now.line) command) result.1 result.2 }
    {
        let judgement = self.cell.ledger().judgement(&command);
        match judgement.answer {
            Answer::Accepted(_) => {
                let judged = Judged { command, judgement };
                self.submit_written(rt, book, at, pass, judged, way)
            }
            Answer::Repeat => (Answer::Repeat, None, Some(way.look(rt, &mut self.share))),
            Answer::Refused(why) => {
                let moment = way.look(rt, &mut self.share);
                (Answer::Refused(why), None, Some(moment))
            }
        }
    }

    // Writes the line of a command that the ledger will accept, and then settles it.
    fn submit_written<J: Naming, W: Write + Drop, R: Wait>(
        &mut self,
        rt: &R,
        book: &Mutex<SiteBook<J>>,
        at: Located<'_>,
        pass: &mut Pass,
        judged: Judged,
        way: &Journalled<'_, K, W>,
    ) -> (Answer, Option<Told<J>>, Option<Moment<K>>)
        requires can { CanJudge at.number at.place.now self.old pass.old }
        requires judged { IsJudged self.old.limits self.old.content judged.command judged.judgement.answer }
        requires accepted { IsAccepted judged.judgement.answer }
        requires note { IsNote way.now.note.now }
        requires speaks { SpeaksOf (K.name at.number) (bytes_of way.now.line) judged.command }
        ensures submitted { Submitted at.entry.place.now pass.old judged.command result.0 pass.new result.1 }
        ensures received { IsReceived at.entry.place.now (K.first at.entry.number) result.0 (entry at.entry.number way.now.note.now (bytes_of way.now.line) judged.command) result.1 result.2 }
    {
        let Ok(moment) = way.write(rt, &mut self.share, &judged.command) else {
            return (Answer::Refused(Refusal::ChangesExhausted), None, None);
        };
        let settled = settle_written(rt, &mut self.cell, book, at, pass, judged);
        with_moment(settled, moment)
    }
}

// The answer to a command whose line was written, with the moment if it was accepted.
fn with_moment<J: Naming, K: Opening>(
    settled: Option<(u64, Option<Told<J>>)>,
    moment: Moment<K>,
) -> (Answer, Option<Told<J>>, Option<Moment<K>>)
    ensures accepted { IfSome settled (λ s. (result.0 ≡ Answer.Accepted s.0) × (result.1 ≡ s.1) × (result.2 ≡ Some moment)) }
    ensures other { settled ≡ None → (result.0 ≡ Answer.Refused Refusal.ChangesExhausted) × (result.1 ≡ None) × (result.2 ≡ None) }
{
    match settled {
        Some((n, told)) => (Answer::Accepted(n), told, Some(moment)),
        None => (Answer::Refused(Refusal::ChangesExhausted), None, None),
    }
}

// Settles a command after its line was written, under the lock of the site's book, and returns the number of the
// change. If it can't be settled, as when the book is not as it should be, which no run with fewer than 2^62 accepted
// changes of a site meets, the cell leaves service: its lines no longer lead to what it holds.
fn settle_written<J: Naming, R: Wait>(
    rt: &R,
    cell: &mut StationCell,
    book: &Mutex<SiteBook<J>>,
    at: Located<'_>,
    pass: &mut Pass,
    judged: Judged,
) -> Option<(u64, Option<Told<J>>)>
    requires can { CanJudge at.number at.place.now cell.old pass.old }
    requires judged { IsJudged cell.old.limits cell.old.content judged.command judged.judgement.answer }
    ensures settled { IsInService cell.new → cell.new ≡ cell_after cell.old pass.old judged.command }
    ensures tells { IfSome result (λ r. TellsOf at.entry.place.now cell.old.content judged.command (Answer.Accepted r.0) r.1) }
    ensures submitted { IfSome result (λ r. Submitted at.entry.place.now pass.old judged.command (Answer.Accepted r.0) pass.new r.1) }
    ensures unchanged { result ≡ None → pass.new ≡ pass.old }
{
    let Judged { command, judgement } = judged;
    let Some((answer, told)) = settle_at(rt, cell, book, at, pass, command, judgement) else {
        leave_service(cell);
        return None;
    };
    match answer {
        Answer::Accepted(n) => Some((n, told)),
        Answer::Repeat => {
            leave_service(cell);
            None
        }
        Answer::Refused(_why) => {
            leave_service(cell);
            None
        }
    }
}

// A cell whose written line was not settled leaves service.
fn leave_service(cell: &mut StationCell)
    ensures { cell.new ≡ record cell.old { station = no_station } }
{
    cell.retire();
}
