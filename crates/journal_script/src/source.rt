ghost use Rattle.std.specs.Prelude.{◌≡◌, ◌≢◌, ◌↔◌, ◌<◌, ◌^◌, codes, Some, IsTrue, IfErr, IfOk};
ghost use Rattle.script_ledgers.specs.Script.{Script, line_step, start};
ghost use Rattle.script_lines.{specs.Lines.line_bytes, specs.Ranges.longest_line};
ghost use Rattle.journal_script.{specs.Restoring.Grows, specs.Reading.{TakesLine, begun, held_line, read_line, standing}};

use crate::fault::RestoreFault;
use crate::left_out::LeftOut;
use script_ledgers::MAX_SCRIPT_BYTES;
use script_lines::{LineEnd, LineReader, MAX_LINE_BYTES};
use std::alloc::Global;
use std::io::{BufRead, Write};

// The line that ends a script to restore.
const LISTEN: &[u8] = b"listen";

// A script that is being restored: its lines, and which of them were left out.
#[derive(Drop)]
pub(crate) struct Source {
    pub(crate) lines: LineReader,
    pub(crate) left_out: LeftOut,
}

impl Source {
    // A script before its first line.
    pub(crate) fn open(alloc: Global) -> Self
        ensures begun { standing start result.left_out ≡ begun }
        ensures most { result.lines.max_line_bytes ≡ longest_line }
        ensures few { result.lines.room < 2 ^ 61 }
    {
        Source {
            lines: LineReader::open(alloc, MAX_LINE_BYTES, MAX_SCRIPT_BYTES),
            left_out: LeftOut::new(),
        }
    }

    // Reads the next line; false if it is `listen`.
    pub(crate) fn next<R: BufRead>(&mut self, reader: &mut R) -> Result<bool, RestoreFault>
        requires { self.old.lines.max_line_bytes < 2 ^ 62 }
        ensures takes { IfOk result (λ more. TakesLine more self.old.lines self.new.lines (R.remaining reader.old) (R.remaining reader.new)) }
        ensures most { self.new.lines.max_line_bytes ≡ self.old.lines.max_line_bytes }
        ensures left_out { self.new.left_out ≡ self.old.left_out }
        ensures fails { IfErr result (λ e. e ≢ RestoreFault.NotMarked) }
    {
        match self.lines.next_line(reader)? {
            LineEnd::Feed => Ok(!is_listen(self.lines.line(LineEnd::Feed))),
            LineEnd::Input => Err(RestoreFault::NotRestored),
        }
    }

    // The line that was read last.
    pub(crate) fn line(&self) -> Option<&[u8]>
        ensures { line_bytes result ≡ held_line self.now.lines }
    {
        self.lines.line(LineEnd::Feed)
    }

    // Counts the line that was read last, and reports it if its answer is a fault, a refusal or a CALLERROR.
    pub(crate) fn tell<T: Write>(&mut self, told: &mut T, reply: &[u8])
        ensures step { (s t : Script) → line_step s (held_line self.old.lines) ≡ (t, reply.now)
            → standing t self.new.left_out ≡ read_line (standing s self.old.left_out) (held_line self.old.lines) }
        ensures lines { self.new.lines ≡ self.old.lines }
        ensures grows { Grows (T.contents told.old) (T.contents told.new) }
    {
        self.left_out
            .tell(told, self.lines.line(LineEnd::Feed), reply);
    }
}

// Returns whether the line is `listen`.
fn is_listen(line: Option<&[u8]>) -> bool
    ensures { IsTrue result ↔ (line_bytes line.entry ≡ Some (codes "listen")) }
{
    match line {
        Some(bytes) => bytes == LISTEN,
        None => false,
    }
}
