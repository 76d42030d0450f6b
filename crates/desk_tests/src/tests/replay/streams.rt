// The readers and writers of the tests.
use std::cell::Cell;
use std::io;
use std::io::{BufRead, ErrorKind, Read, Write};

// Shows `step` bytes at a time, and fails at the end.
#[derive(Drop)]
pub struct FailingReader<'a> {
    pub rest: &'a [u8],
    pub step: usize,
}

impl Read for FailingReader<'_> {
    fn read(&mut self, buf: &mut [u8]) -> io::Result<usize> {
        let _ = buf;
        Err(io::Error::from(ErrorKind::Other))
    }
}

impl BufRead for FailingReader<'_> {
    fn fill_buf(&mut self) -> io::Result<&[u8]> {
        if self.rest.is_empty() {
            return Err(io::Error::from(ErrorKind::Other));
        }
        let count = self.step.min(self.rest.len());
        Ok(&self.rest[..count])
    }

    fn consume(&mut self, amount: usize) {
        let count = amount.min(self.rest.len());
        self.rest = &self.rest[count..];
    }
}

// Shows `step` bytes at a time, and fails once, after it was asked so many times.
#[derive(Drop)]
pub struct FlakyReader<'a> {
    pub rest: &'a [u8],
    pub step: usize,
    pub asked: usize,
    pub has_failed: bool,
}

impl Read for FlakyReader<'_> {
    fn read(&mut self, buf: &mut [u8]) -> io::Result<usize> {
        let _ = buf;
        Err(io::Error::from(ErrorKind::Other))
    }
}

impl BufRead for FlakyReader<'_> {
    fn fill_buf(&mut self) -> io::Result<&[u8]> {
        if self.asked == 0 && !self.has_failed {
            self.has_failed = true;
            return Err(io::Error::from(ErrorKind::Other));
        }
        self.asked = self.asked.saturating_sub(1);
        let count = self.step.min(self.rest.len());
        Ok(&self.rest[..count])
    }

    fn consume(&mut self, amount: usize) {
        let count = amount.min(self.rest.len());
        self.rest = &self.rest[count..];
    }
}

// Takes `room` bytes, and then fails or takes none.
#[derive(Drop)]
pub struct FailingWriter {
    pub taken: Vec<u8>,
    pub room: usize,
    pub takes_none: bool,
}

impl Write for FailingWriter {
    fn write(&mut self, buf: &[u8]) -> io::Result<usize> {
        let count = buf.len().min(self.room);
        if count == 0 && !self.takes_none {
            return Err(io::Error::from(ErrorKind::Other));
        }
        self.taken.extend_from_slice(&buf[..count])?;
        self.room -= count;
        Ok(count)
    }

    fn flush(&mut self) -> io::Result<()> {
        Ok(())
    }
}

// Shows `step` bytes at a time, and refuses to wait for more while an answer is not flushed.
#[derive(Drop)]
pub struct WaitingReader<'a> {
    pub rest: &'a [u8],
    pub step: usize,
    pub shown: usize,
    pub unflushed: &'a Cell<usize>,
}

impl Read for WaitingReader<'_> {
    fn read(&mut self, buf: &mut [u8]) -> io::Result<usize> {
        let _ = buf;
        Err(io::Error::from(ErrorKind::Other))
    }
}

impl BufRead for WaitingReader<'_> {
    fn fill_buf(&mut self) -> io::Result<&[u8]> {
        if self.shown == 0 {
            if self.unflushed.get() > 0 {
                return Err(io::Error::from(ErrorKind::Other));
            }
            self.shown = self.step.min(self.rest.len());
        }
        let count = self.shown.min(self.rest.len());
        Ok(&self.rest[..count])
    }

    fn consume(&mut self, amount: usize) {
        let count = amount.min(self.rest.len());
        self.rest = &self.rest[count..];
        self.shown = self.shown.saturating_sub(amount);
    }
}

// Counts the bytes that were written since the last flush, and the flushes.
#[derive(Drop)]
pub struct CountingWriter<'a> {
    pub unflushed: &'a Cell<usize>,
    pub flushes: u32,
}

impl Write for CountingWriter<'_> {
    fn write(&mut self, buf: &[u8]) -> io::Result<usize> {
        self.unflushed
            .set(self.unflushed.get().saturating_add(buf.len()));
        Ok(buf.len())
    }

    fn flush(&mut self) -> io::Result<()> {
        self.unflushed.set(0);
        self.flushes = self.flushes.saturating_add(1);
        Ok(())
    }
}

// Takes all bytes, and fails at a flush after so many have passed.
#[derive(Drop)]
pub struct FailingFlush {
    pub passes: u32,
}

impl Write for FailingFlush {
    fn write(&mut self, buf: &[u8]) -> io::Result<usize> {
        Ok(buf.len())
    }

    fn flush(&mut self) -> io::Result<()> {
        match self.passes.checked_sub(1) {
            Some(left) => {
                self.passes = left;
                Ok(())
            }
            None => Err(io::Error::from(ErrorKind::Other)),
        }
    }
}
