ghost use Rattle.std.{specs.Prelude.{◌≡◌, ◌||◌, false}, specs.Io.BufRead.ends_with_byte};
ghost use Rattle.script_lines.specs.Lines.{line_bytes};
ghost use Rattle.journal_script.specs.Restoring.{Grows, is_cut, is_lost, is_marked, leaves_nothing};

use itoa::Buffer;
use script_lines::write_bytes;
use std::io::Write;

/// The first line of a run in a journal, a comment. If a kill left a part of a line in front of it, both are one line,
/// which changes nothing.
pub const RUN_LINE: &[u8] = b"# a run of ocpp_board begins";

// Counts the lines of a script, and reports those with an answer that says that they changed
// nothing.
#[derive(Drop)]
pub(crate) struct LeftOut {
    pub(crate) lines: u64,
    // Whether the last line ends with `#`.
    pub(crate) is_marked: bool,
    // Whether a line is lost: it changed nothing, and no kill cut it.
    pub(crate) has_lost: bool,
}

impl LeftOut {
    pub(crate) fn new() -> Self
        ensures marked { result.is_marked ≡ false }
        ensures lost { result.has_lost ≡ false }
    {
        LeftOut {
            lines: 0,
            is_marked: false,
            has_lost: false,
        }
    }

    // Counts one more line, and reports it if its answer is a fault, a refusal or a CALLERROR. A report that can't
    // be written is dropped.
    pub(crate) fn tell<T: Write>(&mut self, told: &mut T, line: Option<&[u8]>, reply: &[u8])
        ensures marked { self.new.is_marked ≡ is_marked (line_bytes line.entry) }
        ensures lost { self.new.has_lost ≡ (self.old.has_lost || is_lost reply.now (line_bytes line.entry)) }
        ensures grows { Grows (T.contents told.old) (T.contents told.new) }
    {
        self.lines = self.lines.wrapping_add(1);
        self.is_marked = is_marked(line);
        let leaves_nothing = leaves_nothing(reply);
        self.has_lost = self.has_lost || (leaves_nothing && !is_cut(line));
        if leaves_nothing {
            tell_line(told, self.lines, reply);
        }
    }
}

// Reports a line by its number, with the answer to it.
fn tell_line<T: Write>(told: &mut T, number: u64, reply: &[u8])
    ensures { Grows (T.contents told.old) (T.contents told.new) }
{
    tell_number(told, number);
    let _ = write_bytes(told, b" ");
    let _ = write_bytes(told, reply);
}

// Writes `left out` and the number of a line.
fn tell_number<T: Write>(told: &mut T, number: u64)
    ensures { Grows (T.contents told.old) (T.contents told.new) }
{
    let mut digits = Buffer::new();
    let number = digits.format(number);
    let _ = write_bytes(told, b"left out ");
    let _ = write_bytes(told, number.as_bytes());
}

// Returns whether an answer is a fault, a refusal or a CALLERROR.
fn leaves_nothing(reply: &[u8]) -> bool
    ensures { result ≡ leaves_nothing reply.now }
{
    reply.starts_with(b"fault ")
        || reply.starts_with(b"refused ")
        || reply.starts_with(b"[4,")
        || reply.starts_with(b"reply [4,")
}

// Returns whether a line ends with `#`.
fn is_marked(line: Option<&[u8]>) -> bool
    ensures { result ≡ is_marked (line_bytes line.entry) }
{
    match line {
        Some(bytes) => ends_with_mark(bytes),
        None => false,
    }
}

// Returns whether a line ends as one that a kill cut.
fn is_cut(line: Option<&[u8]>) -> bool
    ensures { result ≡ is_cut (line_bytes line.entry) }
{
    match line {
        Some(bytes) => ends_with_mark(bytes) || bytes.ends_with(RUN_LINE),
        None => false,
    }
}

// Returns whether the bytes end with `#`.
fn ends_with_mark(bytes: &[u8]) -> bool
    ensures { result ≡ ends_with_byte 35 bytes.now }
{
    match bytes {
        [.., b'#'] => true,
        _ => false,
    }
}
