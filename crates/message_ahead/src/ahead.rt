//! What reads the events of lines to come.
use crate::found_event::SentEvent;
use crate::lookahead::Lookahead;
use script_lines::LineReader;
use std::io;
use std::io::BufRead;
use std::thread::Threads;

/// What may read the events of lines to come, for a caller that answers line after line. With a runtime X that starts
/// threads that is a [`Lookahead`]; [`Alone`] reads nothing ahead and needs nothing of a runtime.
pub trait Ahead<X> {
    ghost use Rattle.std.{specs.Prelude.IfSome, specs.Io.KnownBytes.Keeps};
    ghost use Rattle.message_ahead.specs.Ahead.{Sends};

    /// Notes where the next line begins, and reads the lines to come that the reader shows, if that is due. It consumes
    /// none of them and waits for none. If the reader fails to show them, it returns the reader's error.
    fn look_on<R: BufRead>(&mut self, rt: &X, lines: &LineReader, reader: &mut R) -> io::Result<()>
        ensures { Keeps (R.remaining reader.old) (R.remaining reader.new) };

    /// Whether the allocator refused memory for lines that were reached.
    fn has_no_memory(&self) -> bool;

    /// The event that the line under way sends, if it was read ahead and the line has these bytes.
    fn take_event(&mut self, line: &[u8]) -> Option<SentEvent>
        ensures { IfSome result (λ s. Sends line.now s.station s.delivery) };
}

/// Reads nothing ahead.
#[derive(Clone, Copy)]
pub struct Alone;

impl<X> Ahead<X> for Alone {
    fn look_on<R: BufRead>(
        &mut self,
        _rt: &X,
        _lines: &LineReader,
        _reader: &mut R,
    ) -> io::Result<()> {
        Ok(())
    }

    fn has_no_memory(&self) -> bool {
        false
    }

    fn take_event(&mut self, _line: &[u8]) -> Option<SentEvent> {
        None
    }
}

impl<X: Threads> Ahead<X> for Lookahead {
    fn look_on<R: BufRead>(
        &mut self,
        rt: &X,
        lines: &LineReader,
        reader: &mut R,
    ) -> io::Result<()> {
        let is_due = self.is_due(lines.room);
        if lines.is_drained || !is_due {
            return Ok(());
        }
        let shown = reader.fill_buf()?;
        self.look(rt, shown);
        Ok(())
    }

    fn has_no_memory(&self) -> bool {
        self.is_short()
    }

    fn take_event(&mut self, line: &[u8]) -> Option<SentEvent> {
        self.take(line)
    }
}
