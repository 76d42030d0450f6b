//! The lines in which a live server reports sessions, totals and limits.
use arrayvec::ArrayString;
use ledger_model::{MAX_NAME, Name};
use station_link::Why;
use std::io::Write;
use std::sync::{Mutex, Wait};

// Writes the reports of sessions, totals and limits.
#[derive(Drop)]
pub(crate) struct Log<L: Write + Drop> {
    pub(crate) lines: Mutex<L>,
    // Whether sessions are reported.
    has_sessions: bool,
}

impl<L: Write + Drop> Log<L> {
    pub(crate) fn open(lines: L, has_sessions: bool) -> Self {
        Log {
            lines: Mutex::new(lines),
            has_sessions,
        }
    }

    // Reports how much of a station's limit of this name is used.
    pub(crate) fn tell_near<R: Wait>(
        &self,
        rt: &R,
        name: &Name,
        what: &str,
        used: u64,
        limit: u64,
    ) {
        let name = name.text();
        let _ = writeln!(self.lines.lock(rt), "near {name} {what} {used} of {limit}");
    }

    // Reports that a session began.
    pub(crate) fn tell_begun<R: Wait>(&self, rt: &R, name: &Name) {
        if self.has_sessions {
            let name = name.text();
            let _ = writeln!(self.lines.lock(rt), "session {name} begun");
        }
    }

    // Reports how a session ended.
    pub(crate) fn tell_ended<R: Wait>(
        &self,
        rt: &R,
        name: &Name,
        why: Why,
        texts: u64,
        changes: u64,
    ) {
        if self.has_sessions {
            let name = name.text();
            let why = why.name();
            let _ = writeln!(
                self.lines.lock(rt),
                "session {name} ended {why} messages={texts} changes={changes}"
            );
        }
    }

    // Reports that a connection got no session, with the part of its path where the name should be.
    pub(crate) fn tell_refused<R: Wait>(&self, rt: &R, why: Why, shown: &ArrayString<MAX_NAME>) {
        if self.has_sessions {
            let why = why.name();
            let gap = if shown.is_empty() { "" } else { " " };
            let shown = shown.as_str();
            let _ = writeln!(self.lines.lock(rt), "session - refused {why}{gap}{shown}");
        }
    }
}
