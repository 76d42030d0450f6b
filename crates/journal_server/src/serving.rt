//! A desk with a journal, as a live server serves it.
ghost use Rattle.std.specs.Prelude.{◌≡◌, IfOk, None, OnErr, Some, slice_get};
ghost use Rattle.kept_desk.specs.Entries.{IsNote};
ghost use Rattle.ledger_model.{specs.declared.answer.Answer.Answer, specs.declared.answer.Refusal.Refusal, specs.declared.command.Command.Command};
ghost use Rattle.script_lines.{specs.LineMeaning.{commands, line_meaning}, specs.Lines.line_bytes};
ghost use Rattle.site_desk.{specs.declared.roster.StationPlace.StationPlace, specs.Roster.IsNamed};
ghost use Rattle.station_link.specs.Answer.{Asks, IsSettled, IsSubmitted};

use arrayvec::ArrayString;
use energy_flow::Work;
use journal_script::{MessageLine, RECEIPT_BYTES, is_script_line, laws, receipt_note};
use kept_desk::{KeptCell, KeptDesk, Line, Moment, Opening};
use ledger_model::{Answer, Command, Name, Refusal};
use running_desk::{MayBreak, Seen, Serves, SystemMoments};
use site_book::Naming;
use site_desk::{BoardFault, Desk, Gate, NoGate, Pass};
use station_link::{Delivers, MomentSource, Ordered};
use std::alloc::{AllocError, Global};
use std::io::Write;
use std::sync::Wait;
use std::time::Clock;

// A desk with a journal, as a live server serves it.
#[derive(Drop)]
pub(crate) struct Serving<J: Naming, K: Opening, W: Write + Drop> {
    pub(crate) kept: KeptDesk<J, K, W>,
    // Whether a comment with the time of its receipt is in front of each line.
    pub(crate) has_receipt_times: bool,
}

impl<J: Naming, K: Opening, W: Write + Drop> Serving<J, K, W> {
    // What is in front of a line that is taken now: a comment with the present moment if that is asked for.
    fn note<R: Clock>(&self, rt: &R) -> ArrayString<RECEIPT_BYTES>
        ensures { IsNote result.bytes }
    {
        receipt_note(if self.has_receipt_times {
            SystemMoments { rt }.now()
        } else {
            None
        })
    }
}

// The answer that nothing more is accepted.
fn exhausted<K: Opening>() -> (Answer, Option<Moment<K>>)
    ensures answer { result.0 ≡ Answer.Refused Refusal.ChangesExhausted }
    ensures seen { result.1 ≡ None }
{
    (Answer::Refused(Refusal::ChangesExhausted), None)
}

impl<J: Naming + Send + Sync, K: Opening + Send + Sync, W: Write + Drop> Delivers
    for Serving<J, K, W> {
    type Names = J;

    type Seen = Moment<K>;

    ghost use Rattle.journal_server.specs.Served.{IsKeptAnswer};

    ghost stations = { λ s. s.kept.stations };

    ghost gives = { IsKeptAnswer K.first };

    #[tactic(auto, using(crate::proofs::Submitted::nothing_more, crate::proofs::Submitted::gives_nothing))]
    fn deliver<G: Gate, R: Wait + Clock>(
        &self,
        rt: &R,
        alloc: Global,
        pass: &mut Pass,
        ordered: Ordered<'_>,
        gate: &G,
    ) -> Result<(Answer, Option<Moment<K>>), AllocError> {
        let Ordered { text, key, event } = ordered;
        let Some(name) = self.kept.desk().name_of(pass.station()) else {
            return Ok(exhausted());
        };
        if name.text().is_empty() {
            return Ok(exhausted());
        }
        laws::events();
        let made = MessageLine::of(alloc, name, text, &key, &event)?;
        let Some(line) = made.spoken(name, text) else {
            return Ok(exhausted());
        };
        let note = self.note(rt);
        let (command, note) = (Command::Deliver(key, event), note.as_str().as_bytes());
        let (answer, _told, seen) = self.kept.submit(rt, pass, command, note, line, gate);
        Ok((answer, seen))
    }
}

impl<J: Naming + Send + Sync, K: Opening + Send + Sync, W: Write + Drop> Serves
    for Serving<J, K, W> {
    type Cell = KeptCell<K>;

    ghost use Rattle.kept_desk.specs.Kept.{AreBoardsBehind};

    ghost roster = { λ s. s.kept };

    ghost shows = { λ s. AreBoardsBehind K.first s.kept.stations };

    fn desk(&self) -> &Desk<J, KeptCell<K>> {
        self.kept.desk()
    }

    #[tactic(auto, using(crate::proofs::Submitted::settles_nothing, crate::proofs::Submitted::gives_nothing))]
    fn command<R: Wait + Clock>(
        &self,
        rt: &R,
        pass: &mut Pass,
        name: &Name,
        what: Command,
        line: Option<&[u8]>,
    ) -> (Answer, Option<Moment<K>>) {
        let Some(bytes) = line else {
            return exhausted();
        };
        if name.text().is_empty() || !is_script_line(bytes) {
            return exhausted();
        }
        let note = self.note(rt);
        let note = note.as_str().as_bytes();
        let line = Line::Bytes(bytes);
        let (answer, _told, seen) = self.kept.submit(rt, pass, what, note, line, &NoGate);
        (answer, seen)
    }

    fn boards<R: Wait>(
        &self,
        rt: &R,
        alloc: Global,
        site: u16,
        work: &mut Work,
    ) -> Result<Seen<Moment<K>>, BoardFault> {
        self.kept.site_boards(rt, alloc, site, work)
    }
}

impl<J: Naming, K: Opening, W: Write + Drop> MayBreak for Serving<J, K, W> {
    fn is_broken(&self) -> bool {
        self.kept.is_broken()
    }
}
