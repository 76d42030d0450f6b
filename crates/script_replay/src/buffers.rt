//! The buffers of a program's input and output.
ghost use Rattle.std.{specs.Prelude.{◌≡◌, ◌⊎◌, [], IfOk}, specs.Io.Buffered.{reader_buffer, reader_inner, reader_remaining, writer_buffer, writer_contents, writer_inner}};

use std::io::{BufReader, BufWriter, Read, Result, Write};
use std::thread;
use std::thread::Threads;

// How many bytes of the input are read at once if threads read ahead: many lines.
const INPUT_AHEAD: usize = 2_097_152;

// How many if there is one processor, and so nothing is read ahead: as many as its own cache has
// room for.
const INPUT_ALONE: usize = 262_144;

// How many bytes of the output are written at once.
const OUTPUT_BUFFER: usize = 65_536;

/// The input and the output of a replay, each behind a buffer: of 2 MiB for the input, or of 256 KiB if there is
/// one processor, and of 64 KiB for the output. The only error is OutOfMemory.
pub fn buffered<X: AllocGlobal + Threads, R: Read + Drop, W: Write + Drop>(
    rt: &X,
    input: R,
    output: W,
) -> Result<(BufReader<R>, BufWriter<W>)>
    ensures reads { IfOk result (λ streams. reader_inner streams.0 ≡ input) }
    ensures nothing_read { IfOk result (λ streams. reader_buffer streams.0 ≡ []) }
    ensures writes { IfOk result (λ streams. writer_inner streams.1 ≡ output) }
    ensures nothing_written { IfOk result (λ streams. writer_buffer streams.1 ≡ []) }
    ensures input { IfOk result (λ streams. reader_remaining R.remaining streams.0 ≡ R.remaining input) }
    ensures output { IfOk result (λ streams. writer_contents W.contents streams.1 ≡ W.contents output) }
{
    let reader = BufReader::with_capacity(rt.alloc(), input_buffer(rt), input)?;
    let writer = BufWriter::with_capacity(rt.alloc(), OUTPUT_BUFFER, output)?;
    Ok((reader, writer))
}

// How many bytes of the input are read at once.
fn input_buffer<X: Threads>(rt: &X) -> usize
    ensures { (result ≡ INPUT_AHEAD) ⊎ (result ≡ INPUT_ALONE) }
{
    match thread::available_parallelism(rt) {
        Ok(processors) if processors.get() > 1 => INPUT_AHEAD,
        _ => INPUT_ALONE,
    }
}
