//! A desk with a journal: before each change of a station, its line is written.
//!
//! A [`KeptDesk`] is a [`Desk`](site_desk::Desk) that keeps, beside each station's cell, the station's
//! [`Share`](crate::Share) of one [`Journal`](crate::Journal). Cell and share are under the station's lock
//! ([`KeptCell`]), and the journal is under a lock of its own. [`KeptDesk::submit`] takes the station's lock and the
//! journal's. If the ledger would accept the command, it writes and flushes the line that the caller gives, and a
//! comment line in front of it if the caller gives one. Then it gives the journal's lock back, takes the site's, and
//! settles. So a write holds up other commands and boards, and no totals of other stations. A journal that can't be
//! written accepts nothing more. What any desk shows while it runs is read through [`KeptDesk::desk`].
//!
//! The crate's contract: whenever a station's lock is free, the commands of the station's own lines in the journal,
//! each accepted, lead from what it held when the desk was opened to what it holds. If the change of a written line
//! can't be settled, which no run meets, the station's cell leaves service, and nothing more is taken, shown or closed
//! there. [`KeptDesk::close`] says this of all stations at once: there is one list of entries; the writer took its
//! text; each station's own entries, and no others, lead to its ledger's content; each entry's line asks for its
//! command on the station of its name, as a line of a script does (`specs/Speaking.antt`). The contract of `submit` is
//! that of [`Desk::submit`](site_desk::Desk::submit), word for word; and each answer but ChangesExhausted comes with a
//! [`Moment`] of the journal: the entries that it had then. After an accepted command its line is the last of them;
//! with a repeat or a refusal the station's entries among them lead to the content that gives this answer. The boards
//! of a site come with the moment that they show ([`KeptDesk::site_boards`]). The entries of each moment that `close`
//! gets are the first of those in its contract.
//!
//! The journal is a type of its own below the desk, and knows nothing of ledgers. A [`Journal`] writes lines for
//! stations. [`Journal::add`] writes and flushes one line, and then notes it as an [`Entry`] with its command, in the
//! journal and in the [`Share`] of the line's station. Notes take no memory and have no bytes: a share is its station's
//! number. While nothing has failed, nothing is left in the buffer of the journal's writer, so the writer behind it
//! took each entry's line before the entry was noted. The text that was written is that of one list of entries, and
//! each station's share has just the entries of its own station in that list, in their order. So if a station's content
//! was proved to come from its share's entries, it comes from the station's own entries in what was written
//! ([`Journal::compare`], [`Journal::into_writer`]). A write or a flush that fails breaks the journal for good: nothing
//! more is noted, and behind the text is a front of at most one entry. No station has two shares, since shares are made
//! in rising order of stations.
//!
//! The type parameters: J names the tables of the sites. K names the journal, so that a share reaches no other, and
//! the stations' contents and names when the desk was opened ([`Opening`]). W is the writer behind the journal's
//! buffer.
//!
//! ```text
//! let (desk, viewers) = KeptDesk::open(alloc, &plan, parts, table, writer)?;
//! let mut pass = desk.desk().enlist(rt, &name)?;
//! let line = Line::Bytes(b"void A T1 3");
//! desk.submit(rt, &mut pass, Command::Void(key), b"", line, &NoGate);   // (Accepted(1), Some(told), Some(moment))
//! let closed = desk.close(passes, viewers, moments)?;                        // closed.writer took the line
//! ```
#![tactic(auto)]

mod at_moment;
mod broken;
mod cell;
mod cells;
mod closed;
mod desk;
mod entry;
mod journal;
mod journal_table;
mod line;
mod moment;
mod opening;
mod share;
mod steps;
mod table;
mod way;
mod write;

pub use broken::Broken;
pub use cell::KeptCell;
pub use closed::{KeptClosed, KeptRefused};
pub use desk::KeptDesk;
pub use entry::Entry;
pub use journal::Journal;
pub use journal_table::JournalTable;
pub use line::Line;
pub use moment::Moment;
pub use opening::Opening;
pub use share::Share;
pub use write::is_note;
