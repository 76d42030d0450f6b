//! How a desk with a journal takes a command.
ghost use Rattle.std.specs.Prelude.{◌≡◌, List, ◌++◌, ◌∷◌, [], IfOk, OnOk, OnErr};
ghost use Rattle.kept_desk.{specs.declared.entry.Entry.Entry, specs.Entries.{IsNote, bytes_of, entry, of_station}, specs.Kept.IsNoted, specs.Speaking.SpeaksOf};
ghost use Rattle.ledger_model.specs.declared.command.Command.{Command};

use crate::broken::Broken;
use crate::cell::KeptCell;
use crate::journal::Journal;
use crate::line::Line;
use crate::moment::Moment;
use crate::opening::Opening;
use crate::share::Share;
use ledger_model::{Answer, Command, Refusal};
use site_book::{Naming, SiteBook, Told};
use site_desk::{HasCell, Located, Pass, Settles, can_judge};
use std::io::Write;
use std::sync::{Mutex, MutexGuard, Wait};
use std::thread::yield_now;

// The journal, the line that speaks for the command, and the bytes in front of it.
#[derive(Drop)]
pub(crate) struct Journalled<'a, K: Opening, W: Write + Drop> {
    pub(crate) log: &'a Mutex<Journal<K, W>>,
    pub(crate) note: &'a [u8],
    pub(crate) line: Line<'a>,
}

impl<'a, K: Opening, W: Write + Drop> Journalled<'a, K, W> {
    // Writes the line under the journal's lock, notes it with its command, and returns the moment.
    pub(crate) fn write<R: Wait>(
        &self,
        rt: &R,
        share: &mut Share<K>,
        command: &Command,
    ) -> Result<Moment<K>, Broken>
        requires note { IsNote self.now.note.now }
        requires speaks { SpeaksOf (K.name share.old.station) (bytes_of self.now.line) command.now }
        ensures known { OnOk result (share.new ≡ record share.old { entries = share.old.entries ++ entry share.old.station self.now.note.now (bytes_of self.now.line) command.now ∷ [] }) }
        ensures noted { IfOk result (IsNoted share.old (entry share.old.station self.now.note.now (bytes_of self.now.line) command.now)) }
        ensures same { OnErr result (share.new ≡ share.old) }
    {
        let mut log = hold(rt, self.log);
        log.add(share, self.note, self.line, command)
    }

    // The journal's moment now: it has all entries of the share, and no others of its station.
    pub(crate) fn look<R: Wait>(&self, rt: &R, share: &mut Share<K>) -> Moment<K>
        ensures own { share.old.entries ≡ of_station share.old.station result }
        ensures same { share.new ≡ share.old }
    {
        let mut guard = hold(rt, self.log);
        let log: &mut Journal<K, W> = &mut guard;
        log.compare(share);
        log.moment()
    }
}

impl<'a, J: Naming, K: Opening, W: Write + Drop> Settles<J, KeptCell<K>, Moment<K>>
    for Journalled<'a, K, W> {
    ghost use Rattle.kept_desk.{specs.Entries.{IsNote, bytes_of, entry}, specs.Kept.IsReceived, specs.Speaking.SpeaksOf};

    ghost asks = { λ w number command. IsNote w.note.now × SpeaksOf (K.name number) (bytes_of w.line) command };

    ghost gives = { λ w number at command answer told moment. IsReceived at (K.first number) answer (entry number w.note.now (bytes_of w.line) command) told moment };

    fn settle<R: Wait>(
        &self,
        rt: &R,
        held: &mut KeptCell<K>,
        book: &Mutex<SiteBook<J>>,
        at: Located<'_>,
        pass: &mut Pass,
        command: Command,
    ) -> (Answer, Option<Told<J>>, Option<Moment<K>>) {
        if can_judge(held.cell(), at.number, at.place, pass) {
            held.submit(rt, book, at, pass, command, self)
        } else {
            (Answer::Refused(Refusal::ChangesExhausted), None, None)
        }
    }
}

// How often a thread looks at a lock that another thread has before it sleeps.
const LOOKS: u32 = 60;

// Takes a lock that is held for one write at a time: letting other threads run meanwhile costs less than to
// sleep and be woken.
pub(crate) fn hold<'b, T, R: Wait>(rt: &R, lock: &'b Mutex<T>) -> MutexGuard<'b, T> {
    for _ in 0..LOOKS {
        if let Some(guard) = lock.try_lock() {
            return guard;
        }
        yield_now();
    }
    lock.lock(rt)
}
