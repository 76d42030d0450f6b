ghost use Rattle.std.{specs.Prelude.{◌≡◌, ℕ, ◌+◌, ◌<◌, ◌≤◌, ◌^◌, List, OnOk, OnSome}, specs.Io.KnownBytes.{Appends, IsAtEnd}};
ghost use Rattle.script_lines.specs.Lines.{line_bytes};
ghost use Rattle.script_replay.{specs.Answering.WritesLine, specs.Outcome.IsReplay};
ghost use Rattle.site_book.specs.Tables.{HasTable, NamedBy};
ghost use Rattle.script_ledgers.specs.Script.{script_text};

use energy_flow::Work;
use message_ahead::Ahead;
use script_ledgers::{MAX_SCRIPT_BYTES, ScriptAhead};
use script_lines::{LineEnd, LineReader, MAX_LINE_BYTES, ReplayFault, WriteStopped, write_bytes};
use site_book::{Naming, Tables};
use std::io::{BufRead, Write};

// Replays a script over tables that J names, with what reads its events ahead. It writes the answer of each line before
// it waits for more input; it leaves the last flush to the caller.
pub(crate) fn replay_lines<J: Naming, X: AllocGlobal, A: Ahead<X> + Drop, R: BufRead, W: Write>(
    rt: &X,
    tables: Tables,
    ahead: A,
    reader: &mut R,
    writer: &mut W,
    work: &mut Work,
) -> Result<(), ReplayFault>
    requires named { NamedBy J.table tables }
    requires there { (site : ℕ) → site < 16 → HasTable tables site }
    ensures run { IsReplay (R.remaining reader.old) (R.remaining reader.new) (W.contents writer.old) (W.contents writer.new) result }
    ensures end { OnOk result (OnSome (R.remaining reader.old) (IsAtEnd (R.remaining reader.new))) }
    ensures work { work.old ≤ work.new }
{
    let mut script = ScriptAhead::<J, A>::begin(tables, ahead);
    let mut lines = LineReader::open(rt.alloc(), MAX_LINE_BYTES, MAX_SCRIPT_BYTES);
    let mut reply = Vec::new(rt.alloc());
    'lines: loop {
        if script.look(rt, &lines, reader).is_err() {
            return Err(ReplayFault::ReadFault);
        }
        match lines.next_line_flushing(reader, writer)? {
            LineEnd::Feed => {
                let line = lines.line(LineEnd::Feed);
                answer_line(rt, &mut script, line, &mut reply, writer, work)?;
                continue 'lines;
            }
            LineEnd::Input => {
                if lines.held.is_empty() {
                    return Ok(());
                }
                let line = lines.line(LineEnd::Input);
                answer_line(rt, &mut script, line, &mut reply, writer, work)?;
                return Ok(());
            }
        }
    }
}

// Answers one line, and writes its text.
fn answer_line<J: Naming, X: AllocGlobal, A: Ahead<X> + Drop, W: Write>(
    rt: &X,
    script: &mut ScriptAhead<J, A>,
    line: Option<&[u8]>,
    reply: &mut Vec<u8>,
    writer: &mut W,
    work: &mut Work,
) -> Result<(), ReplayFault>
    requires few { script.old.posts < 2 ^ 62 }
    ensures count { OnOk result (script.new.posts ≤ script.old.posts + 1) }
    ensures work { work.old ≤ work.new }
    ensures run { (written : List ℕ) × Appends (W.contents writer.old) (W.contents writer.new) written
        × WritesLine (script_text script.old.script) (script_text script.new.script) (line_bytes line.entry) result written }
{
    reply.clear();
    match script.answer(rt, line, reply, work) {
        Ok(()) => match write_bytes(writer, reply) {
            Ok(()) => Ok(()),
            Err(WriteStopped) => Err(ReplayFault::WriteFault),
        },
        Err(_) => Err(ReplayFault::OutOfMemory),
    }
}
