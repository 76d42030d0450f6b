//! The comment in front of a line: when it was received.
ghost use Rattle.kept_desk.specs.Entries.{IsNote};

use arrayvec::ArrayString;
use kept_desk::is_note;
use ledger_model::Moment;
use reading_decimal::moment_text;
use std::fmt;
use std::fmt::Write;

/// How many bytes a comment with the time of receipt has: `# 2026-03-01T10:00:00.123456789Z` and a line feed.
pub const RECEIPT_BYTES: usize = 33;

const NANOS_PER_SECOND: u64 = 1_000_000_000;

/// The comment line of a moment to its nanosecond, as `# 2026-03-01T10:00:00.123456789Z`; no bytes without a moment.
pub fn receipt_note(moment: Option<Moment>) -> ArrayString<RECEIPT_BYTES>
    ensures { IsNote result.bytes }
{
    if let Some(moment) = moment {
        let note = comment_of(moment);
        if is_note(note.as_str().as_bytes()) {
            return note;
        }
    }
    ArrayString::new()
}

// A moment to its nanosecond, as a comment line; no bytes if there is no room for them.
fn comment_of(moment: Moment) -> ArrayString<RECEIPT_BYTES> {
    let mut comment = ArrayString::new();
    match put_comment(&mut comment, moment) {
        Ok(()) => comment,
        Err(_) => ArrayString::new(),
    }
}

fn put_comment(comment: &mut ArrayString<RECEIPT_BYTES>, moment: Moment) -> fmt::Result {
    let second = moment_text(moment);
    let nanos = moment.nanos() % NANOS_PER_SECOND;
    match second.as_str().strip_suffix('Z') {
        Some(second) => write!(comment, "# {second}.{nanos:09}Z\n"),
        None => Err(fmt::Error),
    }
}
