ghost use Rattle.std.{specs.Prelude.{◌≡◌, ℕ, ◌+◌, ◌<◌, ◌≤◌, ◌^◌, [], OnOk}, specs.Io.KnownBytes.Keeps};
ghost use Rattle.script_ledgers.specs.Script.{line_step, start};
ghost use Rattle.script_lines.specs.Lines.{line_bytes};
ghost use Rattle.site_book.specs.Tables.{HasTable, NamedBy};

use crate::script_state::ScriptState;
use energy_flow::Work;
use message_ahead::Ahead;
use script_lines::LineReader;
use site_book::{Naming, Tables};
use std::alloc::AllocError;
use std::io;
use std::io::BufRead;
use std::marker::Model;

/// A script, and what reads its events ahead once its ledgers are opened. Contracts see it as the script's state.
#[derive(Drop)]
pub struct ScriptAhead<J: Naming, A> {
    script: ScriptState<J>,
    // The events of lines to come that were read.
    ahead: A,
}

impl<J: Naming, A> Model for ScriptAhead<J, A> {
    ghost use Rattle.script_ledgers.specs.State.{State, state_code};

    ghost Value = { State };

    ghost coded = { state_code };

    ghost view = { λ s. s.script };
}

impl<J: Naming, A: Drop> ScriptAhead<J, A> {
    /// The state before the first line ([`ScriptState::begin`]), with nothing read ahead.
    pub fn begin(tables: Tables, ahead: A) -> Self
        requires named { NamedBy J.table tables }
        requires there { (site : ℕ) → site < 16 → HasTable tables site }
        ensures { result ≡ record { script = start; posts = 0 } }
    {
        ScriptAhead {
            script: ScriptState::begin(tables),
            ahead,
        }
    }

    /// Lets the lines to come that the reader shows be read, if that is due. It consumes none of them and waits for none.
    /// If the reader fails to show them, it returns the reader's error.
    pub fn look<X, R: BufRead>(
        &mut self,
        rt: &X,
        lines: &LineReader,
        reader: &mut R,
    ) -> io::Result<()>
    where
        A: Ahead<X>,
        ensures reader { Keeps (R.remaining reader.old) (R.remaining reader.new) }
        ensures same { self.new ≡ self.old }
    {
        if self.script.is_opened() {
            self.ahead.look_on(rt, lines, reader)
        } else {
            Ok(())
        }
    }

    /// Puts the text that answers one line into the reply, as [`ScriptState::answer`] does: the answer to its event if
    /// that was read ahead.
    pub fn answer<X: AllocGlobal>(
        &mut self,
        rt: &X,
        line: Option<&[u8]>,
        reply: &mut Vec<u8>,
        work: &mut Work,
    ) -> Result<(), AllocError>
    where
        A: Ahead<X>,
        requires empty { reply.old.items ≡ [] }
        requires few { self.old.posts < 2 ^ 62 }
        ensures step { OnOk result (line_step self.old.script (line_bytes line.entry) ≡ (self.new.script, reply.new.items)) }
        ensures posts { OnOk result (self.new.posts ≤ self.old.posts + 1) }
        ensures work { work.old ≤ work.new }
    {
        if self.ahead.has_no_memory() {
            return Err(AllocError);
        }
        if let Some(bytes) = line {
            if let Some(sent) = self.ahead.take_event(bytes) {
                return self.script.receive_ahead(sent, reply, work);
            }
        }
        self.script.answer(rt, line, reply, work)
    }

    /// The script, without what was read ahead.
    pub fn into_script(self) -> ScriptState<J>
        ensures { result ≡ self }
    {
        self.script
    }
}
