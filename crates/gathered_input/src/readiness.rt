//! Whether an input has something to read.

use libc::STDIN_FILENO;
use libc::net::{POLLIN, poll};
use libc::types::pollfd;
use std::io::{BufReader, Read};

/// Says whether a read of an input would wait.
pub trait Readiness {
    /// Whether a read would give bytes, the end or a fault within `millis` milliseconds; 0 asks
    /// about now.
    fn is_ready_within(&self, millis: u16) -> bool;
}

/// The readiness of standard input, by POSIX's `poll`.
#[derive(Clone, Copy)]
pub struct StandardInput;

impl Readiness for StandardInput {
    fn is_ready_within(&self, millis: u16) -> bool {
        let mut asked = [pollfd {
            fd: STDIN_FILENO,
            events: POLLIN,
            revents: 0,
        }];
        poll(&mut asked, i32::from(millis)) > 0
    }
}

/// Bytes in memory are there at once.
impl Readiness for &[u8] {
    fn is_ready_within(&self, _millis: u16) -> bool {
        true
    }
}

/// A buffered reader is ready while its buffer has bytes.
impl<R: Read + Readiness> Readiness for BufReader<R> {
    fn is_ready_within(&self, millis: u16) -> bool {
        !self.buffer().is_empty() || self.get_ref().is_ready_within(millis)
    }
}
