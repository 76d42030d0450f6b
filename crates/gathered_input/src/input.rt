//! An input that collects everything that is ready in one read.
ghost use Rattle.std.{specs.Prelude.{◌≡◌, ◌≤◌, ◌++◌, ℕ, List, length, take}, specs.Io.KnownBytes.Consumes};
ghost use Rattle.gathered_input.specs.Told.{IsTruly};

use crate::readiness::{Readiness, StandardInput};
use std::io::{Read, Stdin};
use std::marker::Model;
use std::thread::Threads;
use std::{io, thread};

// After a read of at least this many bytes, more may be ready; after less, the writer is no faster than the reader.
const MUCH: usize = 32_768;

// How often a read looks for more bytes before it ends without them.
const LOOKS: usize = 256;

/// An input that collects everything that is ready in one read. A contract sees the input that it
/// reads from.
#[derive(Drop)]
pub struct GatheredInput<R: Read, L> {
    input: R,
    readiness: L,
    // Whether another processor can run the writer during a look.
    is_gathering: bool,
    // What a read gave in place of bytes, kept for the next read because this one already has
    // bytes.
    stop: Option<Stop>,
}

// What a read gives in place of bytes: the end or a fault.
#[derive(Drop)]
enum Stop {
    End,
    Fault(io::Error),
}

impl<R: Read, L> Model for GatheredInput<R, L> {
    ghost Value = { R };

    ghost view = { λ g. g.input };

    ghost invariant = { λ g. IsTruly (R.remaining g.input) g.stop };
}

/// Standard input, with everything that is ready collected in one read.
pub fn gathered<X: Threads>(rt: &X, input: Stdin) -> GatheredInput<Stdin, StandardInput>
    ensures { result ≡ input }
{
    GatheredInput::new(rt, input, StandardInput)
}

impl<R: Read, L: Readiness> GatheredInput<R, L> {
    /// This input; `readiness` says whether it is ready. With one processor nothing is collected.
    pub fn new<X: Threads>(rt: &X, input: R, readiness: L) -> GatheredInput<R, L>
        ensures { result ≡ input }
    {
        GatheredInput {
            input,
            readiness,
            is_gathering: has_processors(rt),
            stop: None,
        }
    }
}

impl<R: Read, L: Readiness> Read for GatheredInput<R, L> {
    ghost remaining = { R.remaining };

    fn read(&mut self, buf: &mut [u8]) -> io::Result<usize> {
        match self.stop.take() {
            Some(Stop::End) => return Ok(0),
            Some(Stop::Fault(error)) => return Err(error),
            None => {}
        }
        let first = self.input.read(buf)?;
        if first < MUCH || !self.is_gathering {
            return Ok(first);
        }
        let (count, stop) = gather(&mut self.input, &self.readiness, buf, first);
        self.stop = stop;
        Ok(count)
    }
}

/// Ready if its input is ready, or if it has kept an end or a fault for the next read.
impl<R: Read, L: Readiness> Readiness for GatheredInput<R, L> {
    fn is_ready_within(&self, millis: u16) -> bool {
        self.stop.is_some() || self.readiness.is_ready_within(millis)
    }
}

// Reads on behind the first bytes while each read gives much and more is ready. Returns how many bytes there are then,
// and what a read gave in place of more. It ends after a read that gave little, since a writer that waits for answers
// may write one line at a time.
fn gather<R: Read, L: Readiness>(
    input: &mut R,
    readiness: &L,
    buf: &mut [u8],
    first: usize,
) -> (usize, Option<Stop>)
    requires first { first ≤ length buf.old }
    ensures within { result.0 ≤ length buf.old }
    ensures bytes { (more : List ℕ) × Consumes (R.remaining input.old) (R.remaining input.new) more × (take result.0 buf.new ≡ take first buf.old ++ more) }
    ensures stop { IsTruly (R.remaining input.new) result.1 }
{
    let mut count = first;
    'more: while count < buf.len() && has_more(readiness) {
        match input.read(&mut buf[count..]) {
            Ok(0) => return (count, Some(Stop::End)),
            Ok(more) => {
                count += more;
                if more < MUCH {
                    break 'more;
                }
            }
            Err(error) => return (count, Some(Stop::Fault(error))),
        }
    }
    (count, None)
}

// Whether more becomes ready within `LOOKS` looks.
fn has_more<L: Readiness>(readiness: &L) -> bool {
    for _ in 0..LOOKS {
        if readiness.is_ready_within(0) {
            return true;
        }
    }
    false
}

// Whether there is a second processor.
fn has_processors<X: Threads>(rt: &X) -> bool {
    match thread::available_parallelism(rt) {
        Ok(processors) => processors.get() > 1,
        Err(_) => false,
    }
}

#[cfg(test)]
mod tests {
    use super::*;
    use std::alloc::Global;
    use std::cell::Cell;
    use std::io::ErrorKind;
    use std::test::Fail;

    // Gives so many bytes at its first read and so many at each later one, as long as there are some; then its end or a
    // fault. It counts its reads.
    #[derive(Drop)]
    struct Steps<'a> {
        rest: &'a [u8],
        step: usize,
        later: usize,
        fails: bool,
        reads: &'a Cell<usize>,
    }

    impl Read for Steps<'_> {
        fn read(&mut self, buf: &mut [u8]) -> io::Result<usize> {
            self.reads.set(self.reads.get().saturating_add(1));
            if self.rest.is_empty() && self.fails {
                return Err(io::Error::from(ErrorKind::Other));
            }
            let count = self.step.min(self.rest.len()).min(buf.len());
            buf[..count].copy_from_slice(&self.rest[..count]);
            self.rest = &self.rest[count..];
            self.step = self.later;
            Ok(count)
        }
    }

    // Is ready or not, and counts the calls.
    #[derive(Clone, Copy)]
    struct Fixed<'a> {
        is_ready: bool,
        looks: &'a Cell<usize>,
    }

    impl Readiness for Fixed<'_> {
        fn is_ready_within(&self, _millis: u16) -> bool {
            self.looks.set(self.looks.get().saturating_add(1));
            self.is_ready
        }
    }

    fn some_bytes(alloc: Global) -> Result<Vec<u8>, Fail> {
        let mut bytes = Vec::new(alloc);
        for at in 0..200_000u32 {
            bytes.push((at % 251) as u8)?;
        }
        Ok(bytes)
    }

    type Gathering<'a> = GatheredInput<Steps<'a>, Fixed<'a>>;

    fn gathering<'a>(
        bytes: &'a [u8],
        step: usize,
        is_ready: bool,
        counts: (&'a Cell<usize>, &'a Cell<usize>),
    ) -> Gathering<'a> {
        GatheredInput {
            input: Steps {
                rest: bytes,
                step,
                later: step,
                fails: false,
                reads: counts.0,
            },
            readiness: Fixed {
                is_ready,
                looks: counts.1,
            },
            is_gathering: true,
            stop: None,
        }
    }

    // Reads once for each expected entry, which is how many bytes the read gives (none: a fault) and how often the input
    // was read by then. Whether all was so and the bytes came in their order.
    fn are_read(
        input: &mut Gathering<'_>,
        bytes: &[u8],
        read: &mut [u8],
        expected: &[(Option<usize>, usize)],
    ) -> bool {
        let mut rest = bytes;
        for &(given, reads) in expected {
            if input.read(read).ok() != given || input.input.reads.get() != reads {
                return false;
            }
            let count = given.unwrap_or(0);
            if rest.get(..count) != read.get(..count) {
                return false;
            }
            rest = rest.get(count..).unwrap_or(&[]);
        }
        true
    }

    #[test]
    fn a_read_gathers_what_is_there_in_its_order(rt: HostRuntime) -> Result<(), Fail> {
        let bytes = some_bytes(rt.alloc())?;
        let (reads, looks) = (Cell::new(0), Cell::new(0));
        let mut input = gathering(&bytes, 40_000, true, (&reads, &looks));
        // The second read meets the end and gives the rest; the third tells the end, and a further one asks anew.
        let expected = [
            (Some(120_000), 3),
            (Some(80_000), 6),
            (Some(0), 6),
            (Some(0), 7),
        ];
        assert!(rt; are_read(&mut input, &bytes, &mut [0; 120_000], &expected));
        Ok(())
    }

    #[test]
    fn lines_behind_a_burst_do_not_hold_it_back(rt: HostRuntime) -> Result<(), Fail> {
        let bytes = some_bytes(rt.alloc())?;
        let (reads, looks) = (Cell::new(0), Cell::new(0));
        let mut input = gathering(&bytes, 100_000, true, (&reads, &looks));
        input.input.later = 300;
        let expected = [(Some(100_300), 2), (Some(300), 3)];
        assert!(rt; are_read(&mut input, &bytes, &mut [0; 150_000], &expected));
        assert_eq!(rt; looks.get(), 1);
        Ok(())
    }

    // How often a read of an input that gives so many bytes looks for more; none if it does not give just these.
    fn looks_for_more(
        bytes: &[u8],
        step: usize,
        is_ready: bool,
        is_gathering: bool,
    ) -> Option<usize> {
        let (reads, looks) = (Cell::new(0), Cell::new(0));
        let mut input = gathering(bytes, step, is_ready, (&reads, &looks));
        input.is_gathering = is_gathering;
        are_read(&mut input, bytes, &mut [0; 150_000], &[(Some(step), 1)]).then_some(looks.get())
    }

    #[test]
    fn nothing_is_waited_for(rt: HostRuntime) -> Result<(), Fail> {
        let bytes = some_bytes(rt.alloc())?;
        // So little that the read looks for no more; much, and nothing comes behind it; one processor.
        assert_eq!(rt; looks_for_more(&bytes, MUCH - 1, true, true), Some(0));
        assert_eq!(rt; looks_for_more(&bytes, MUCH, false, true), Some(LOOKS));
        assert_eq!(rt; looks_for_more(&bytes, MUCH, true, false), Some(0));
        Ok(())
    }

    #[test]
    fn a_fault_is_told_behind_what_was_gathered(rt: HostRuntime) -> Result<(), Fail> {
        let bytes = some_bytes(rt.alloc())?;
        let bytes = bytes.get(..50_000).unwrap_or(&[]);
        let (reads, looks) = (Cell::new(0), Cell::new(0));
        let mut input = gathering(bytes, 50_000, true, (&reads, &looks));
        input.input.fails = true;
        let expected = [(Some(50_000), 2), (None, 2), (None, 3)];
        assert!(rt; are_read(&mut input, bytes, &mut [0; 150_000], &expected));
        Ok(())
    }
}
