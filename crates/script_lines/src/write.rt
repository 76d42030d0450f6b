//! Writing bytes to their end.
ghost use Rattle.std.{specs.Prelude.{ℕ, List}, specs.Io.KnownBytes.Appends};
ghost use Rattle.script_lines.specs.Writing.{WritesFront};

use std::io::Write;

/// A write failed, or took no byte.
#[derive(Clone, Copy)]
pub struct WriteStopped;

/// Writes all of these bytes. It ends at a write that fails or takes no byte; a front of the bytes was
/// written then.
pub fn write_bytes<W: Write>(writer: &mut W, bytes: &[u8]) -> Result<(), WriteStopped>
    ensures { (written : List ℕ) × Appends (W.contents writer.old) (W.contents writer.new) written
        × WritesFront result bytes.now written }
{
    let mut done = 0;
    while done < bytes.len() {
        match writer.write(&bytes[done..]) {
            Ok(0) => return Err(WriteStopped),
            Ok(count) => done += count,
            Err(_) => return Err(WriteStopped),
        }
    }
    Ok(())
}
