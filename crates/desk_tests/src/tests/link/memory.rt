use std::alloc::{AllocError, Global};
use std::cell::RefCell;
use std::io;
use std::io::{ErrorKind, Read, Write};

// What the other side of a stream does: the bytes that it sends, with those of the handshake apart, since
// they come in a read of their own; after how many bytes it ends or fails; and how many writes it takes.
#[derive(Clone, Copy)]
pub(super) struct Peer<'a> {
    pub(super) head: &'a [u8],
    pub(super) frames: &'a [u8],
    pub(super) given: usize,
    pub(super) fails: bool,
    pub(super) writes: usize,
}

impl<'a> Peer<'a> {
    // A peer that sends all these bytes and takes all that is written.
    pub(super) fn of(head: &'a [u8], frames: &'a [u8]) -> Self {
        Peer {
            head,
            frames,
            given: usize::MAX,
            fails: false,
            writes: usize::MAX,
        }
    }
}

// A stream to such a peer. What is written to it is kept.
#[derive(Drop)]
pub(super) struct Memory<'a> {
    peer: Peer<'a>,
    at: usize,
    writes: usize,
    written: &'a RefCell<Vec<u8>>,
}

impl<'a> Memory<'a> {
    pub(super) fn new(peer: Peer<'a>, written: &'a RefCell<Vec<u8>>) -> Self {
        Memory {
            peer,
            at: 0,
            writes: 0,
            written,
        }
    }

    // What the next read may give: the rest of the head, or of the frames, up to the end.
    fn next(&self) -> &'a [u8] {
        let head = self.peer.head;
        let rest = match self.at.checked_sub(head.len()) {
            None => head.get(self.at..).unwrap_or(&[]),
            Some(at) => self.peer.frames.get(at..).unwrap_or(&[]),
        };
        let left = self.peer.given.saturating_sub(self.at);
        rest.get(..left).unwrap_or(rest)
    }
}

impl Read for Memory<'_> {
    fn read(&mut self, buf: &mut [u8]) -> io::Result<usize> {
        let next = self.next();
        if next.is_empty() && self.peer.fails {
            return Err(io::Error::from(ErrorKind::ConnectionReset));
        }
        let n = buf.len().min(next.len());
        buf[..n].copy_from_slice(&next[..n]);
        self.at = self.at.saturating_add(n);
        Ok(n)
    }
}

impl Write for Memory<'_> {
    fn write(&mut self, buf: &[u8]) -> io::Result<usize> {
        if self.writes >= self.peer.writes {
            return Err(io::Error::from(ErrorKind::BrokenPipe));
        }
        self.writes += 1;
        match self.written.try_borrow_mut() {
            Ok(mut written) => match written.extend_from_slice(buf) {
                Ok(()) => Ok(buf.len()),
                Err(_) => Err(io::Error::from(ErrorKind::OutOfMemory)),
            },
            Err(_) => Err(io::Error::from(ErrorKind::Other)),
        }
    }

    fn flush(&mut self) -> io::Result<()> {
        Ok(())
    }
}

// The first byte of a frame: the last one of its message, or not, and its kind (RFC 6455 section 5.2).
pub(super) const TEXT: u8 = 0x81;

pub(super) const CLOSE: u8 = 0x88;

pub(super) const PING: u8 = 0x89;

pub(super) const PONG: u8 = 0x8a;

// Frames as bytes.
#[derive(Drop)]
pub(super) struct Frames {
    bytes: Vec<u8>,
    // A client masks its frames; the key is 0 throughout, so payloads stay as they are.
    is_client: bool,
}

impl Frames {
    pub(super) fn of(alloc: Global, is_client: bool) -> Self {
        Frames {
            bytes: Vec::new(alloc),
            is_client,
        }
    }

    pub(super) fn of_client(alloc: Global) -> Self {
        Frames::of(alloc, true)
    }

    pub(super) fn of_server(alloc: Global) -> Self {
        Frames::of(alloc, false)
    }

    pub(super) fn bytes(&self) -> &[u8] {
        self.bytes.as_slice()
    }

    // One frame more.
    pub(super) fn add(&mut self, first: u8, payload: &[u8]) -> Result<(), AllocError> {
        self.bytes.push(first)?;
        self.add_length(payload.len())?;
        if self.is_client {
            self.bytes.extend_from_slice(&[0; 4])?;
        }
        self.bytes.extend_from_slice(payload)
    }

    // The length of a frame's payload, with the bit that says whether it is masked.
    fn add_length(&mut self, length: usize) -> Result<(), AllocError> {
        let mask = if self.is_client { 0x80 } else { 0 };
        let bytes = &mut self.bytes;
        if length < 126 {
            bytes.push(mask | length as u8)?;
            Ok(())
        } else if length < 1 << 16 {
            bytes.push(mask | 126)?;
            bytes.extend_from_slice(&(length as u16).to_be_bytes())
        } else {
            bytes.push(mask | 127)?;
            bytes.extend_from_slice(&(length as u64).to_be_bytes())
        }
    }

    // A close frame with a code.
    pub(super) fn close(&mut self, code: u16) -> Result<(), AllocError> {
        self.add(CLOSE, &code.to_be_bytes())
    }
}
