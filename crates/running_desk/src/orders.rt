//! An operator's lines, as they are read.
ghost use Rattle.std.specs.Prelude.{◌≡◌, IfOk};
ghost use Rattle.script_lines.specs.Lines.{line_bytes};
ghost use Rattle.running_desk.specs.Ordered.{Comes, came_of, lines_in};

use crate::attentive::Attentive;
use crate::fault::ServiceFault;
use crate::serves::MayBreak;
use board_report::BoardsFault;
use gathered_input::Readiness;
use script_lines::{LineEnd, LineReader, MAX_LINE_BYTES};
use std::alloc::Global;
use std::io::BufRead;
use std::sync::Wait;

/// What came from an operator.
#[derive(Clone, Copy)]
pub enum Came {
    /// A line.
    Line,
    /// The last line, without a line feed.
    LastLine,
    /// The end of the input.
    End,
}

// An operator's lines, as they are read.
#[derive(Drop)]
pub(crate) struct Orders<'a, I, S, R> {
    pub(crate) reader: Attentive<'a, I, S, R>,
    pub(crate) lines: LineReader,
    pub(crate) end: LineEnd,
    ghost short: { lines.max_line_bytes ≡ 262400 },
}

impl<'a, I: BufRead + Readiness, S: MayBreak, R: Wait> Orders<'a, I, S, R> {
    ghost use Rattle.running_desk.specs.Reading.{orders_coming, orders_last};

    // The lines of a reader; it waits for them while changes are accepted.
    pub(crate) fn open(rt: &'a R, alloc: Global, input: &'a mut I, serves: &'a S) -> Self
        ensures coming { orders_coming I.remaining result ≡ lines_in (I.remaining input.old) }
    {
        Orders {
            reader: Attentive { input, serves, rt },
            lines: LineReader::open(alloc, MAX_LINE_BYTES, usize::MAX),
            end: LineEnd::Feed,
        }
    }

    // Waits for the next line. If no change is accepted any more, that is a `WriteFault`.
    pub(crate) fn next(&mut self) -> Result<Came, ServiceFault>
        ensures { IfOk result (λ came. Comes (orders_coming I.remaining self.old) came (orders_last self.new) (orders_coming I.remaining self.new)) }
    {
        match self.lines.next_line(&mut self.reader) {
            Ok(end) => {
                self.end = end;
                Ok(ending_of(&self.lines, end))
            }
            Err(_) if self.reader.serves.is_broken() => {
                Err(ServiceFault::Output(BoardsFault::WriteFault))
            }
            Err(fault) => Err(ServiceFault::Input(fault)),
        }
    }

    // The line that came last, without its end; `None` if it has more than 262,400 bytes.
    pub(crate) fn line(&self) -> Option<&[u8]>
        ensures { line_bytes result ≡ orders_last self.now }
    {
        self.lines.line(self.end)
    }
}

// Which kind of line ends like this.
fn ending_of(lines: &LineReader, end: LineEnd) -> Came
    ensures { result ≡ came_of end lines.now.held.items }
{
    match end {
        LineEnd::Feed => Came::Line,
        LineEnd::Input if lines.held.is_empty() => Came::End,
        LineEnd::Input => Came::LastLine,
    }
}
