ghost use Rattle.std.{specs.Prelude.{ℕ, ◌<◌, ◌≡◌, [], OnOk, OnSome}, specs.Io.Buffered.{writer_buffer, writer_contents}, specs.Io.KnownBytes.IsAtEnd};
ghost use Rattle.script_replay.specs.Outcome.{IsReplay};

use crate::replay::replay_lines;
use energy_flow::Work;
use ledger_model::MAX_SITES;
use message_ahead::Lookahead;
use script_lines::ReplayFault;
use site_book::Tables;
use std::io::{BufRead, BufWriter, Write};
use std::marker::Brand;
use std::thread::Threads;

/// Replays a script: reads its lines and writes the text of each.
///
/// After `Ok` the reader was read to its end, and the bytes written are the text of the bytes read. After a ReadFault
/// or TooMuchInput they are the text of the complete lines read. After a WriteFault they are a front of the text of the
/// complete lines read, or of all lines if the reader is at its end. After OutOfMemory they are the text of the lines
/// before that of the last byte read.
pub fn replay_stream<X: AllocGlobal + Threads, R: BufRead, W: Write>(
    rt: &X,
    reader: &mut R,
    writer: &mut W,
) -> Result<(), ReplayFault>
    ensures run { IsReplay (R.remaining reader.old) (R.remaining reader.new) (W.contents writer.old) (W.contents writer.new) result }
    ensures end { OnOk result (OnSome (R.remaining reader.old) (IsAtEnd (R.remaining reader.new))) }
{
    let result = replay_unflushed(rt, reader, writer);
    match writer.flush() {
        Ok(()) => result,
        Err(_) => result.and(Err(ReplayFault::WriteFault)),
    }
}

/// Replays a script like [`replay_stream`], through a buffer. After `Ok` nothing is left in the buffer: the writer
/// behind it got each byte of the text.
pub fn replay_buffered<X: AllocGlobal + Threads, R: BufRead, W: Write + Drop>(
    rt: &X,
    reader: &mut R,
    writer: &mut BufWriter<W>,
) -> Result<(), ReplayFault>
    ensures run { IsReplay (R.remaining reader.old) (R.remaining reader.new) (writer_contents W.contents writer.old) (writer_contents W.contents writer.new) result }
    ensures end { OnOk result (OnSome (R.remaining reader.old) (IsAtEnd (R.remaining reader.new))) }
    ensures handed_on { OnOk result (writer_buffer writer.new ≡ []) }
{
    let replayed = replay_unflushed(rt, reader, writer);
    let flushed = writer.flush();
    match flushed {
        Ok(()) => replayed,
        Err(_) => replayed.and(Err(ReplayFault::WriteFault)),
    }
}

// Replays a script; leaves the last flush to the caller.
fn replay_unflushed<X: AllocGlobal + Threads, R: BufRead, W: Write>(
    rt: &X,
    reader: &mut R,
    writer: &mut W,
) -> Result<(), ReplayFault>
    ensures run { IsReplay (R.remaining reader.old) (R.remaining reader.new) (W.contents writer.old) (W.contents writer.new) result }
    ensures end { OnOk result (OnSome (R.remaining reader.old) (IsAtEnd (R.remaining reader.new))) }
{
    match Tables::make(rt.alloc(), MAX_SITES as u16) {
        Ok(tables) => {
            let ahead = Lookahead::new(rt.alloc());
            let mut work = Work::open(rt);
            replay_lines::<Brand, X, Lookahead, R, W>(rt, tables, ahead, reader, writer, &mut work)
        }
        Err(_) => Err(ReplayFault::OutOfMemory),
    }
}
