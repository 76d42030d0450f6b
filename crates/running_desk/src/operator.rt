//! An operator's lines, which are answered while stations are served.
ghost use Rattle.std.{specs.Prelude.{◌≡◌, ◌≤◌, ◌<◌, ◌⊎◌, ℕ, List, [], ◌++◌, IfErr, IfOk, OnErr, OnOk, Some, slice_get, vec_capacity}, specs.List.position, specs.Str.bytes_eq};
ghost use Rattle.script_lines.{specs.LineMeaning.{commands, line_meaning}, specs.Lines.line_bytes, specs.declared.script_line.LineFault.LineFault, specs.Texts.fault_line};
ghost use Rattle.site_desk.{specs.declared.roster.StationPlace.StationPlace, specs.Roster.IsNamed};
ghost use Rattle.running_desk.{specs.declared.operator.Unanswered.Unanswered, specs.Replied.{IsBoard, IsCommandLine, IsCommanded, IsList, IsMessageLine, IsMessaged, IsReply, IsSent, IsSubmitted, IsTotals, LacksRoom, MayLackMemory, totals_line}, specs.Ordered.{ends, lines_in}, specs.Replies.{AddsReplies, AddsReply}};
ghost use Rattle.script_ledgers.specs.Script.{asked_line};
ghost use Rattle.transaction_event.specs.Message.{message};
ghost use Rattle.station_link.{specs.Attended.if_seen, specs.declared.ending.Why.Why};

use crate::fault::ServiceFault;
use crate::moments::SystemMoments;
use crate::orders::{Came, Orders};
use crate::running::{Running, site_of};
use crate::serves::Serves;
use board_report::{BoardsFault, energy_text, export_text, total_text, write_out};
use energy_flow::{Flow, Work};
use gathered_input::Readiness;
use ledger_model::{Command, Figures, Name, TxId};
use script_ledgers::{Detail, put_asked, put_listed, put_mark, put_message_text};
use script_lines::{LineFault, ScriptLine, TxList, put_answer, put_fault, put_line, read_line};
use site_desk::{BoardFault, NoGate, Pass};
use station_link::{Why, answer_text, present};
use std::alloc::{AllocError, Global};
use std::io::{BufRead, Write};
use std::sync::Wait;
use std::thread::Threads;
use std::time::Clock;

// The line that ends a live server.
const CLOSE: &[u8] = b"close";

// The answer to a line for which there is no memory.
const NO_MEMORY: &[u8] = b"fault OutOfMemory\n";

// The greatest length of the answer to a message or a command; room for it is made before anything
// changes.
const MOST_ANSWER: usize = 542;

// The answer to a line if what is behind its station's or its site's locks is not as it should be, which no run
// meets.
const TORN: &str = "fault Torn";

// Why a line has no answer.
#[derive(Clone, Copy)]
enum Unanswered {
    // There was no memory for its answer. A message and a command then have changed nothing.
    NoMemory,
    // It was carried out, and there was no memory for its answer, which no run meets: room is made before.
    Lost,
}

impl From<AllocError> for Unanswered {
    ghost from_gives = { λ _ r. r ≡ Unanswered.NoMemory };

    fn from(_error: AllocError) -> Unanswered {
        Unanswered::NoMemory
    }
}

// How a line was answered: with what was seen of the desk's journal, if anything was.
type Answered<M> = Result<Option<M>, Unanswered>;

impl<S: Serves, R: Threads + Wait + Clock> Running<'_, S, R> {
    /// Answers line after line of the input until it ends, a line says `close`, or no change is accepted any more, which is
    /// a `WriteFault`. An answer is out before the next line is read. While there is no line, it looks ten times a second
    /// whether changes are still accepted. It returns what was seen of the desk's journal with the answers, in their order.
    pub fn operate<I: BufRead + Readiness, W: Write>(
        &self,
        input: &mut I,
        writer: &mut W,
    ) -> Result<Vec<S::Seen>, ServiceFault>
        ensures { IfOk result (λ seen. AddsReplies S.gives (S.shows self.now.serves.now) self.now.plan.now.sites.items self.now.desk.now.stations
            (lines_in (I.remaining input.old)) (W.contents writer.old) (W.contents writer.new) seen.items) }
    {
        let mut orders = Orders::open(self.rt, self.alloc, input, self.serves);
        let mut seen = Vec::new(self.alloc);
        for _ in self.rt.forever() {
            let came = orders.next()?;
            if is_last(came, orders.line()) {
                return Ok(seen);
            }
            let own = self.put_reply(orders.line(), writer)?;
            keep(&mut seen, own)?;
            if self.serves.is_broken() {
                return Err(ServiceFault::Output(BoardsFault::WriteFault));
            }
            if let Came::LastLine = came {
                return Ok(seen);
            }
        }
        unreachable!()
    }

    // Writes the answer to a line.
    fn put_reply<W: Write>(
        &self,
        line: Option<&[u8]>,
        writer: &mut W,
    ) -> Result<Option<S::Seen>, ServiceFault>
        ensures { IfOk result (λ seen. AddsReply S.gives (S.shows self.now.serves.now) self.now.plan.now.sites.items self.now.desk.now.stations
            (line_bytes line.entry) (W.contents writer.old) (W.contents writer.new) seen) }
    {
        let mut reply = Vec::new(self.alloc);
        let (text, seen) = match self.answer_line(line, &mut reply) {
            Ok(seen) => (reply.as_slice(), seen),
            Err(Unanswered::NoMemory) => (NO_MEMORY, None),
            Err(Unanswered::Lost) => return Err(ServiceFault::OutOfMemory),
        };
        write_out(writer, text)?;
        Ok(seen)
    }

    // Appends the answer to an operator's line, which is that of a script's line after its declarations. Moments come
    // from the clock, so a line that gives one is `BadLine`.
    fn answer_line(&self, line: Option<&[u8]>, reply: &mut Vec<u8>) -> Answered<S::Seen>
        requires empty { reply.old.items ≡ [] }
        requires none { vec_capacity reply.old ≡ 0 }
        ensures answer { IfOk result
            (λ seen. IsReply S.gives (S.shows self.now.serves.now) self.now.plan.now.sites.items self.now.desk.now.stations
            (line_meaning (line_bytes line.entry)) reply.new.items seen) }
        ensures memory { IfErr result (λ why. why ≡ Unanswered.NoMemory
            → MayLackMemory self.now.desk.now.stations (line_meaning (line_bytes line.entry)) (vec_capacity reply.new)) }
    {
        match read_line(line) {
            ScriptLine::Sends(name, text) => {
                return self.receive(&name, text, Detail::Reply, reply);
            }
            ScriptLine::Delivers(name, text) => {
                return self.receive(&name, text, Detail::Outcome, reply);
            }
            ScriptLine::Commands(name, what) => {
                return self.put_command(&name, what, line, reply);
            }
            ScriptLine::AsksBoard(name) => return self.put_board(&name, reply),
            ScriptLine::Nothing => {}
            ScriptLine::Fails(fault) => put_fault(reply, fault)?,
            ScriptLine::Limits(_, _, _, _)
            | ScriptLine::Declares(_, _)
            | ScriptLine::SetsPeriod(_, _)
            | ScriptLine::SetsOrder(_, _)
            | ScriptLine::SetsSettle(_, _) => put_fault(reply, LineFault::DeclaredLate)?,
            ScriptLine::Tells(_) => put_fault(reply, LineFault::BadLine)?,
            ScriptLine::AsksEnergy(name) => self.put_totals(&name, WhichTotals::Import, reply)?,
            ScriptLine::AsksExport(name) => self.put_totals(&name, WhichTotals::Export, reply)?,
            ScriptLine::AsksTotal(name) => self.put_totals(&name, WhichTotals::Figures, reply)?,
            ScriptLine::Lists(what, name, tx) => self.put_list(what, &name, &tx, reply)?,
            ScriptLine::AsksMeaning(text) => self.put_meaning(text, reply)?,
            ScriptLine::Marks(word) => put_mark(reply, &word)?,
        }
        Ok(None)
    }

    // Delivers a message of the station of this name at the clock's moment, and appends the text of its line.
    fn receive(
        &self,
        name: &Name,
        text: &str,
        detail: Detail,
        reply: &mut Vec<u8>,
    ) -> Answered<S::Seen>
        requires empty { reply.old.items ≡ [] }
        requires none { vec_capacity reply.old ≡ 0 }
        ensures sent { OnOk result ((moment : ℕ) × IsSent detail self.now.desk.now.stations name.now text.now moment reply.new.items) }
        ensures messaged { IfOk result (λ seen. IsMessaged detail S.gives self.now.desk.now.stations name.now text.now reply.new.items seen) }
        ensures memory { IfErr result (λ why. why ≡ Unanswered.NoMemory → LacksRoom self.now.desk.now.stations name.now (vec_capacity reply.new)) }
    {
        match self.pass_of(name) {
            Ok(mut pass) => {
                let delivered = self.deliver(&mut pass, text, detail, reply);
                let _lost = self.lay(pass);
                delivered
            }
            Err(fault) => match put_pass_fault(reply, fault) {
                Ok(()) => Ok(None),
                Err(_) => Err(Unanswered::NoMemory),
            },
        }
    }

    // Makes room, delivers a message with a pass, and appends the text of its line.
    fn deliver(
        &self,
        pass: &mut Pass,
        text: &str,
        detail: Detail,
        reply: &mut Vec<u8>,
    ) -> Answered<S::Seen>
        requires { reply.old.items ≡ [] }
        ensures line { IfOk result (λ seen. IsMessageLine detail S.gives self.now.desk.now.stations pass.old text.now pass.new reply.new.items seen) }
        ensures memory { IfErr result (λ why. why ≡ Unanswered.NoMemory → vec_capacity reply.new < MOST_ANSWER) }
    {
        match make_room(reply) {
            Ok(()) => self.take_text(pass, text, detail, reply),
            Err(_) => Err(Unanswered::NoMemory),
        }
    }

    // Delivers a message with a pass, and appends the text of its line, for which there is room.
    fn take_text(
        &self,
        pass: &mut Pass,
        text: &str,
        detail: Detail,
        reply: &mut Vec<u8>,
    ) -> Answered<S::Seen>
        requires empty { reply.old.items ≡ [] }
        requires room { MOST_ANSWER ≤ vec_capacity reply.old }
        ensures line { IfOk result (λ seen. IsMessageLine detail S.gives self.now.desk.now.stations pass.old text.now pass.new reply.new.items seen) }
        ensures lost { IfErr result (λ why. why ≡ Unanswered.Lost) }
    {
        let now = present(&mut SystemMoments { rt: self.rt });
        let answered = answer_text(self.serves, self.rt, self.alloc, pass, text, now, &NoGate);
        let text = answered.text.as_ref().map(|text| text.as_str());
        match put_message_text(reply, detail, answered.outcome, text) {
            Ok(()) => Ok(answered.seen),
            Err(_) => Err(Unanswered::Lost),
        }
    }

    // Appends what a text asks for at the clock's moment.
    fn put_meaning(&self, text: &str, reply: &mut Vec<u8>) -> Result<(), AllocError>
        requires { reply.old.items ≡ [] }
        ensures { OnOk result ((moment : ℕ) × (reply.new.items ≡ asked_line (message text.now moment))) }
    {
        let now = present(&mut SystemMoments { rt: self.rt });
        put_asked(self.alloc, reply, text, now)
    }

    // Submits an operator's command on the station of this name, and appends its answer.
    fn put_command(
        &self,
        name: &Name,
        what: Command,
        line: Option<&[u8]>,
        reply: &mut Vec<u8>,
    ) -> Answered<S::Seen>
        requires line { line_meaning (line_bytes line) ≡ commands name.now what }
        requires empty { reply.old.items ≡ [] }
        requires none { vec_capacity reply.old ≡ 0 }
        ensures answer { OnOk result (IsCommanded self.now.desk.now.stations name.now what reply.new.items) }
        ensures submitted { IfOk result (λ seen. IsSubmitted S.gives self.now.desk.now.stations name.now what reply.new.items seen) }
        ensures memory { IfErr result (λ why. why ≡ Unanswered.NoMemory → LacksRoom self.now.desk.now.stations name.now (vec_capacity reply.new)) }
    {
        match self.pass_of(name) {
            Ok(mut pass) => {
                let submitted = self.submit(&mut pass, name, what, line, reply);
                let _lost = self.lay(pass);
                submitted
            }
            Err(fault) => match put_pass_fault(reply, fault) {
                Ok(()) => Ok(None),
                Err(_) => Err(Unanswered::NoMemory),
            },
        }
    }

    // Makes room, submits an operator's command with a pass of the station of this name, and appends its answer.
    fn submit(
        &self,
        pass: &mut Pass,
        name: &Name,
        what: Command,
        line: Option<&[u8]>,
        reply: &mut Vec<u8>,
    ) -> Answered<S::Seen>
        requires named { IsNamed self.now.desk.now.stations name.now pass.old.station }
        requires line { line_meaning (line_bytes line) ≡ commands name.now what }
        requires empty { reply.old.items ≡ [] }
        ensures line { IfOk result (λ seen. (at : StationPlace) → slice_get self.now.desk.now.stations pass.old.station ≡ Some at
            → IsCommandLine (S.gives pass.old.station at) at pass.old what pass.new reply.new.items seen) }
        ensures memory { IfErr result (λ why. why ≡ Unanswered.NoMemory → vec_capacity reply.new < MOST_ANSWER) }
    {
        match make_room(reply) {
            Ok(()) => self.take_command(pass, name, what, line, reply),
            Err(_) => Err(Unanswered::NoMemory),
        }
    }

    // Submits an operator's command with a pass of the station of this name, and appends its answer, for which there is
    // room.
    fn take_command(
        &self,
        pass: &mut Pass,
        name: &Name,
        what: Command,
        line: Option<&[u8]>,
        reply: &mut Vec<u8>,
    ) -> Answered<S::Seen>
        requires named { IsNamed self.now.desk.now.stations name.now pass.old.station }
        requires line { line_meaning (line_bytes line) ≡ commands name.now what }
        requires empty { reply.old.items ≡ [] }
        requires room { MOST_ANSWER ≤ vec_capacity reply.old }
        ensures line { IfOk result (λ seen. (at : StationPlace) → slice_get self.now.desk.now.stations pass.old.station ≡ Some at
            → IsCommandLine (S.gives pass.old.station at) at pass.old what pass.new reply.new.items seen) }
        ensures lost { IfErr result (λ why. why ≡ Unanswered.Lost) }
    {
        let (answer, seen) = self.serves.command(self.rt, pass, name, what, line);
        match put_answer(reply, answer) {
            Ok(()) => Ok(seen),
            Err(_) => Err(Unanswered::Lost),
        }
    }

    // Appends totals of the station of this name.
    fn put_totals(
        &self,
        name: &Name,
        asked: WhichTotals,
        reply: &mut Vec<u8>,
    ) -> Result<(), AllocError>
        requires { reply.old.items ≡ [] }
        ensures { OnOk result (IsTotals self.now.desk.now.stations name.now asked reply.new.items) }
    {
        match self.desk.station_totals(self.rt, name) {
            Ok(totals) => put_total(reply, asked, totals),
            Err(BoardFault::UnknownStation) => put_fault(reply, LineFault::UnknownStation),
            Err(BoardFault::Torn) => put_line(reply, TORN),
            Err(BoardFault::OutOfMemory) => Err(AllocError),
        }
    }

    // Appends a list of a transaction of the station of this name.
    fn put_list(
        &self,
        what: TxList,
        name: &Name,
        tx: &TxId,
        reply: &mut Vec<u8>,
    ) -> Result<(), AllocError>
        requires { reply.old.items ≡ [] }
        ensures { OnOk result (IsList self.now.desk.now.stations what name.now tx.now reply.new.items) }
    {
        match self.desk.station_listing(self.rt, self.alloc, name, tx) {
            Ok(listing) => {
                let mut work = Work::open(self.rt);
                put_listed(self.alloc, reply, what, name, tx, &listing, &mut work)
            }
            Err(BoardFault::UnknownStation) => put_fault(reply, LineFault::UnknownStation),
            Err(BoardFault::Torn) => put_line(reply, TORN),
            Err(BoardFault::OutOfMemory) => Err(AllocError),
        }
    }

    // Appends the board of the site of this name.
    fn put_board(&self, name: &Name, reply: &mut Vec<u8>) -> Answered<S::Seen>
        requires { reply.old.items ≡ [] }
        ensures { IfOk result (λ seen. IsBoard (S.shows self.now.serves.now) self.now.plan.now.sites.items self.now.desk.now.stations
            (position (λ s. bytes_eq name.now s.name) self.now.plan.now.sites.items) reply.new.items seen) }
    {
        let Some(site) = site_of(self.plan, name) else {
            put_fault(reply, LineFault::UnknownSite)?;
            return Ok(None);
        };
        match self.board(site) {
            Ok((text, seen)) => {
                *reply = text;
                Ok(Some(seen))
            }
            Err(BoardFault::OutOfMemory) => Err(Unanswered::NoMemory),
            Err(BoardFault::Torn | BoardFault::UnknownStation) => {
                put_line(reply, TORN)?;
                Ok(None)
            }
        }
    }
}

// Appends what was seen with an answer, if anything was, to what was seen before.
fn keep<M: Drop>(seen: &mut Vec<M>, own: Option<M>) -> Result<(), AllocError>
    ensures { OnOk result (seen.new.items ≡ seen.old.items ++ if_seen own) }
{
    if let Some(one) = own {
        seen.push(one)?;
    }
    Ok(())
}

// Returns whether what came ends the server: a line that says `close`, or the end of the input and
// nothing else.
fn is_last(came: Came, line: Option<&[u8]>) -> bool
    ensures { result ≡ ends came (line_bytes line.entry) }
{
    match came {
        Came::End => true,
        Came::Line | Came::LastLine => match line {
            Some(bytes) => bytes == CLOSE,
            None => false,
        },
    }
}

// Makes room for the answer to a message or a command.
fn make_room(reply: &mut Vec<u8>) -> Result<(), AllocError>
    requires { reply.old.items ≡ [] }
    ensures items { reply.new.items ≡ reply.old.items }
    ensures room { OnOk result (MOST_ANSWER ≤ vec_capacity reply.new) }
    ensures full { OnErr result (vec_capacity reply.new < MOST_ANSWER) }
{
    reply.reserve(MOST_ANSWER)
}

// Appends why there was no pass.
fn put_pass_fault(reply: &mut Vec<u8>, fault: Why) -> Result<(), AllocError>
    requires { reply.old.items ≡ [] }
    ensures unknown { OnOk result ((fault ≡ Why.UnknownStation) × (reply.new.items ≡ fault_line LineFault.UnknownStation)) }
    ensures same { OnErr result ((fault ≡ Why.UnknownStation) ⊎ (vec_capacity reply.new ≡ vec_capacity reply.old)) }
{
    match fault {
        Why::UnknownStation => put_fault(reply, LineFault::UnknownStation),
        _ => Err(AllocError),
    }
}

/// Which totals of a station a line asks for.
#[derive(Clone, Copy)]
pub enum WhichTotals {
    Figures,
    Import,
    Export,
}

// Appends the line of the totals that the line asks for: the figures, the imported or the exported energy.
fn put_total(
    reply: &mut Vec<u8>,
    asked: WhichTotals,
    totals: (Figures, Flow, Flow),
) -> Result<(), AllocError>
    requires { reply.old.items ≡ [] }
    ensures { OnOk result (reply.new.items ≡ totals_line asked totals.0 totals.1 totals.2) }
{
    match asked {
        WhichTotals::Figures => put_line(reply, total_text(&totals.0).as_str()),
        WhichTotals::Import => put_line(reply, energy_text(totals.1).as_str()),
        WhichTotals::Export => put_line(reply, export_text(totals.2).as_str()),
    }
}
