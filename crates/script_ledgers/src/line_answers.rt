//! The answers of opened ledgers to the lines of a script.
ghost use Rattle.std.{specs.Prelude.{◌≡◌, ℕ, ◌+◌, ◌<◌, ◌≤◌, ◌^◌, ◌++◌, List, [], length, true, OnOk, IfOk, slice_get, take, Some, refl}, specs.List.position, specs.Str.bytes_eq};
ghost use Rattle.board_report.specs.Texts.{board_text};
ghost use Rattle.message_ahead.specs.Ahead.{Asks};
ghost use Rattle.script_lines.{specs.LineMeaning.{asks_energy, asks_export, asks_total, commands, lists, sends}, specs.ScriptLines.meaning_of};
ghost use Rattle.script_ledgers.{specs.Detail.message_line, specs.Received.TakesMessageAt, specs.Running.SettlesAt, specs.Script.{board_answer, board_of_site, step_by}, specs.State.{posts_of, script_of}};
ghost use Rattle.transaction_event.specs.MessageMeaning.{HasShortId, asking, with_reply};

use crate::asked::put_asked;
use crate::detail::{Detail, put_event_text, put_ready_text};
use crate::listed::{put_listed, put_mark};
use crate::opened_script::OpenedScript;
use board_report::{energy_text, export_text, site_text, total_text};
use energy_flow::Work;
use ledger_model::{Answer, Command, Name, TxId};
use message_ahead::SentEvent;
use script_lines::{LineFault, ScriptLine, TxList, put_answer, put_fault, put_line};
use site_book::Naming;
use site_desk::settle;
use std::alloc::AllocError;
use transaction_event::{Asked, Delivery, put_event_reply, read_message};

impl<J: Naming> OpenedScript<J> {
    // Puts the answer to a line of this meaning into the reply.
    pub(crate) fn answer_asked(
        &mut self,
        asked: ScriptLine<'_>,
        reply: &mut Vec<u8>,
        work: &mut Work,
    ) -> Result<(), AllocError>
        requires empty { reply.old.items ≡ [] }
        requires few { posts_of self.old < 2 ^ 62 }
        ensures step { OnOk result (step_by (script_of self.old) (meaning_of asked.entry) ≡ (script_of self.new, reply.new.items)) }
        ensures posts { OnOk result (posts_of self.new ≤ posts_of self.old + 1) }
        ensures work { work.old ≤ work.new }
    {
        match asked {
            ScriptLine::Nothing => Ok(()),
            ScriptLine::Fails(fault) => put_fault(reply, fault),
            ScriptLine::Limits(_, _, _, _)
            | ScriptLine::Declares(_, _)
            | ScriptLine::SetsOrder(_, _)
            | ScriptLine::SetsSettle(_, _)
            | ScriptLine::SetsPeriod(_, _) => put_fault(reply, LineFault::DeclaredLate),
            ScriptLine::Tells(moment) => {
                self.draft.tell(moment);
                Ok(())
            }
            ScriptLine::Sends(name, text) => self.receive(&name, text, Detail::Reply, reply, work),
            ScriptLine::Delivers(name, text) => self.receive(
                &name,
                text,
                Detail::Outcome,
                reply,
                work,
            ),
            ScriptLine::Commands(name, command) => self.command(&name, command, reply, work),
            ScriptLine::AsksEnergy(name) => self.put_energy(&name, reply),
            ScriptLine::AsksExport(name) => self.put_export(&name, reply),
            ScriptLine::AsksTotal(name) => self.put_total(&name, reply),
            ScriptLine::AsksBoard(name) => self.put_board(&name, reply, work),
            ScriptLine::Lists(what, name, tx) => self.put_list(what, &name, &tx, reply, work),
            ScriptLine::AsksMeaning(text) => {
                put_asked(self.alloc, reply, text, self.draft.moment())
            }
            ScriptLine::Marks(word) => put_mark(reply, &word),
        }
    }

    // Delivers an event that was read ahead, and puts the answer into the reply.
    pub(crate) fn receive_ahead(
        &mut self,
        sent: SentEvent,
        reply: &mut Vec<u8>,
        work: &mut Work,
    ) -> Result<(), AllocError>
        requires empty { reply.old.items ≡ [] }
        requires short { HasShortId (asking sent.delivery) }
        requires few { posts_of self.old < 2 ^ 62 }
        ensures step { (text : List ℕ) → Asks text sent.delivery → OnOk result (step_by (script_of self.old) (sends sent.station text) ≡ (script_of self.new, reply.new.items)) }
        ensures posts { OnOk result (posts_of self.new ≤ posts_of self.old + 1) }
        ensures work { work.old ≤ work.new }
    {
        let SentEvent { station, delivery } = sent;
        match self.station_number(&station) {
            Some(number) => {
                self.hints.keep(&station, number);
                self.deliver(number, delivery, Detail::Reply, reply, work)
            }
            None => put_fault(reply, LineFault::UnknownStation),
        }
    }

    // Reads and delivers a station's message, and puts its text into the reply.
    fn receive(
        &mut self,
        name: &Name,
        text: &str,
        detail: Detail,
        reply: &mut Vec<u8>,
        work: &mut Work,
    ) -> Result<(), AllocError>
        requires empty { reply.old.items ≡ [] }
        requires few { posts_of self.old < 2 ^ 62 }
        ensures step { OnOk result (step_by (script_of self.old) (message_line detail name.now text.now) ≡ (script_of self.new, reply.new.items)) }
        ensures posts { OnOk result (posts_of self.new ≤ posts_of self.old + 1) }
        ensures work { work.old ≤ work.new }
    {
        match self.station_number(name) {
            Some(number) => {
                self.hints.keep(name, number);
                let asked = read_message(self.alloc, text, self.draft.moment(), &mut self.text);
                self.answer_message(number, asked, detail, reply, work)
            }
            None => put_fault(reply, LineFault::UnknownStation),
        }
    }

    // The number of the station of this name, if there is one. It looks first where it was found
    // last.
    fn station_number(&self, name: &Name) -> Option<usize>
        ensures { result ≡ position (λ s. bytes_eq name.now s.name) self.now.draft.stations }
    {
        self.draft.station_near(name, self.hints.number(name))
    }

    // Takes an operator's command on a station, and puts the answer into the reply.
    fn command(
        &mut self,
        name: &Name,
        command: Command,
        reply: &mut Vec<u8>,
        work: &mut Work,
    ) -> Result<(), AllocError>
        requires empty { reply.old.items ≡ [] }
        requires few { posts_of self.old < 2 ^ 62 }
        ensures step { OnOk result (step_by (script_of self.old) (commands name.now command) ≡ (script_of self.new, reply.new.items)) }
        ensures posts { OnOk result (posts_of self.new ≤ posts_of self.old + 1) }
        ensures work { work.old ≤ work.new }
    {
        match self.draft.station(name) {
            Some(number) => {
                let answer = self.settle(number, command, work);
                put_answer(reply, answer)
            }
            None => put_fault(reply, LineFault::UnknownStation),
        }
    }

    // Delivers the event of a message to the station of this number, if the message has one, and puts its text
    // into the reply. A message that found no memory delivers nothing.
    fn answer_message(
        &mut self,
        number: usize,
        asked: Asked,
        detail: Detail,
        reply: &mut Vec<u8>,
        work: &mut Work,
    ) -> Result<(), AllocError>
        requires empty { reply.old.items ≡ [] }
        requires there { number < length self.old.draft.stations }
        requires short { HasShortId (with_reply asked self.old.text) }
        requires few { posts_of self.old < 2 ^ 62 }
        ensures takes { OnOk result (TakesMessageAt detail number (script_of self.old) (script_of self.new) (with_reply asked self.old.text) reply.new.items) }
        ensures posts { OnOk result (posts_of self.new ≤ posts_of self.old + 1) }
        ensures work { work.old ≤ work.new }
    {
        match asked {
            Asked::Event(delivery) => self.deliver(number, delivery, detail, reply, work),
            Asked::Reply { memory } => {
                if memory {
                    return Err(AllocError);
                }
                put_ready_text(reply, detail, self.text.as_str())
            }
            Asked::Silent => put_line(reply, "silent"),
        }
    }

    // Delivers an event to the station of this number, and puts its text into the reply.
    fn deliver(
        &mut self,
        number: usize,
        delivery: Delivery,
        detail: Detail,
        reply: &mut Vec<u8>,
        work: &mut Work,
    ) -> Result<(), AllocError>
        requires empty { reply.old.items ≡ [] }
        requires there { number < length self.old.draft.stations }
        requires short { HasShortId (asking delivery) }
        requires few { posts_of self.old < 2 ^ 62 }
        ensures takes { OnOk result (TakesMessageAt detail number (script_of self.old) (script_of self.new) (asking delivery) reply.new.items) }
        ensures posts { OnOk result (posts_of self.new ≤ posts_of self.old + 1) }
        ensures work { work.old ≤ work.new }
    {
        let Delivery {
            id,
            key,
            event,
            token,
        } = delivery;
        let answer = self.settle(number, Command::Deliver(key, event), work);
        put_event_reply(&mut self.text, id.as_str(), token, &answer);
        put_event_text(reply, detail, answer, self.text.as_str())
    }

    // Settles a command on the station of this number.
    fn settle(&mut self, number: usize, command: Command, work: &mut Work) -> Answer
        requires there { number < length self.old.draft.stations }
        requires few { posts_of self.old < 2 ^ 62 }
        ensures settled { SettlesAt number (script_of self.old) (script_of self.new) command result }
        ensures posts { posts_of self.new ≤ posts_of self.old + 1 }
        ensures work { work.old ≤ work.new }
    {
        let cell = &mut self.cells[number];
        let site = cell.site() as usize;
        let tally = &mut self.tallies[number];
        let judgement = cell.ledger().judgement(&command);
        let (answer, _) = settle(cell, &mut self.books[site], tally, work, command, judgement);
        answer
    }

    // Puts a station's imported energy into the reply.
    fn put_energy(&self, name: &Name, reply: &mut Vec<u8>) -> Result<(), AllocError>
        ensures { OnOk result (reply.new.items ≡ reply.old.items ++ (step_by (script_of self.now) (asks_energy name.now)).1) }
    {
        match self.draft.station(name) {
            Some(number) => {
                let energy = self.cells[number].ledger().energy();
                put_line(reply, energy_text(energy).as_str())
            }
            None => put_fault(reply, LineFault::UnknownStation),
        }
    }

    // Puts a station's exported energy into the reply.
    fn put_export(&self, name: &Name, reply: &mut Vec<u8>) -> Result<(), AllocError>
        ensures { OnOk result (reply.new.items ≡ reply.old.items ++ (step_by (script_of self.now) (asks_export name.now)).1) }
    {
        match self.draft.station(name) {
            Some(number) => {
                let energy = self.cells[number].ledger().export();
                put_line(reply, export_text(energy).as_str())
            }
            None => put_fault(reply, LineFault::UnknownStation),
        }
    }

    // Puts the figures of a station into the reply.
    fn put_total(&self, name: &Name, reply: &mut Vec<u8>) -> Result<(), AllocError>
        ensures { OnOk result (reply.new.items ≡ reply.old.items ++ (step_by (script_of self.now) (asks_total name.now)).1) }
    {
        match self.draft.station(name) {
            Some(number) => {
                let figures = self.cells[number].ledger().figures();
                put_line(reply, total_text(&figures).as_str())
            }
            None => put_fault(reply, LineFault::UnknownStation),
        }
    }

    // Puts the board of a site into the reply.
    fn put_board(&self, name: &Name, reply: &mut Vec<u8>, work: &mut Work) -> Result<(), AllocError>
        requires { reply.old.items ≡ [] }
        ensures work { work.old ≤ work.new }
        ensures text { OnOk result (reply.new.items ≡ board_answer (script_of self.now) name.now) }
    {
        match self.draft.site(name) {
            Some(site) => {
                *reply = self.board_text(name, site, work)?;
                Ok(())
            }
            None => put_fault(reply, LineFault::UnknownSite),
        }
    }

    // Puts a list of a transaction into the reply.
    fn put_list(
        &self,
        what: TxList,
        name: &Name,
        tx: &TxId,
        reply: &mut Vec<u8>,
        work: &mut Work,
    ) -> Result<(), AllocError>
        requires { reply.old.items ≡ [] }
        ensures work { work.old ≤ work.new }
        ensures text { OnOk result (reply.new.items ≡ (step_by (script_of self.now) (lists what name.now tx.now)).1) }
    {
        match self.draft.station(name) {
            Some(number) => {
                let listing = self.cells[number].ledger().listing(self.alloc, tx)?;
                put_listed(self.alloc, reply, what, name, tx, &listing, work)
            }
            None => put_fault(reply, LineFault::UnknownStation),
        }
    }

    // The text of the board of the site of this name and number. Its totals are those of the site's
    // book.
    fn board_text(&self, name: &Name, site: usize, work: &mut Work) -> Result<Vec<u8>, AllocError>
        requires { position (λ s. bytes_eq name.now s.name) self.now.draft.sites ≡ Some site }
        ensures work { work.old ≤ work.new }
        ensures text { IfOk result (λ text. text.items ≡ board_text (board_of_site (script_of self.now) name.now)) }
    {
        let totals = self.books[site].totals();
        site_text(
            self.alloc,
            self.draft.plan(),
            &self.cells,
            site,
            name,
            totals,
            work,
        )
    }
}
