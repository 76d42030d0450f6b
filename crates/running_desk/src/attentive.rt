//! A reader that waits for bytes only while changes are accepted.
ghost use Rattle.std.specs.Prelude.{◌≡◌};

use crate::serves::MayBreak;
use gathered_input::Readiness;
use std::io;
use std::io::{BufRead, ErrorKind, Read};
use std::sync::Wait;

// How long it waits for bytes before it looks whether changes are still accepted, in milliseconds.
const PATIENCE_MILLIS: u16 = 100;

// A reader that waits for bytes while changes are accepted, and then gives a fault. Contracts see its input.
#[derive(Drop)]
pub(crate) struct Attentive<'a, I, S, R> {
    pub(crate) input: &'a mut I,
    pub(crate) serves: &'a S,
    pub(crate) rt: &'a R,
}

impl<'a, I: BufRead + Readiness, S: MayBreak, R: Wait> Attentive<'a, I, S, R> {
    // Waits until a read doesn't wait.
    fn wait(&self) -> io::Result<()> {
        for _ in self.rt.forever() {
            if self.input.is_ready_within(PATIENCE_MILLIS) {
                return Ok(());
            }
            if self.serves.is_broken() {
                return Err(io::Error::from(ErrorKind::Other));
            }
        }
        Ok(())
    }
}

impl<I: BufRead + Readiness, S: MayBreak, R: Wait> Read for Attentive<'_, I, S, R> {
    ghost remaining = { λ a. I.remaining a.input.now };

    fn read(&mut self, buf: &mut [u8]) -> io::Result<usize> {
        self.wait()?;
        self.input.read(buf)
    }
}

impl<I: BufRead + Readiness, S: MayBreak, R: Wait> BufRead for Attentive<'_, I, S, R> {
    ghost consumable_len = { λ a. I.consumable_len a.input.now };

    fn fill_buf(&mut self) -> io::Result<&[u8]> {
        self.wait()?;
        self.input.fill_buf()
    }

    fn consume(&mut self, amount: usize) {
        self.input.consume(amount)
    }
}
