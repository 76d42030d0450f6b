ghost use Rattle.std.{specs.Prelude.{◌≡◌, ◌+◌, ◌≤◌, Bool, true, false, [], ◌∷◌, ◌++◌, IfOk, OnOk, OnErr}, specs.Io.Buffered.{writer_buffer, writer_inner}};
ghost use Rattle.site_book.specs.Prefix.{IsPrefix};
ghost use Rattle.kept_desk.{specs.Entries.{IsNote, bytes_of, entry, of_station}, specs.Journal.IsWritten, specs.Speaking.{AreSpoken, SpeaksOf}};

use crate::broken::Broken;
use crate::journal_table::JournalTable;
use crate::line::Line;
use crate::moment::Moment;
use crate::opening::Opening;
use crate::share::Share;
use crate::steps::{agree, confirm, enlist, note_entry, receive};
use crate::table::{EntryTable, TableSeat};
use crate::write::write_entry;
use ledger_model::Command;
use std::io::{BufWriter, Write};
use std::marker::{Brand, Model, PhantomData};

/// A list of entries. Each was written and flushed before it was noted, and its line speaks for its command. W
/// is the writer behind the buffer; nothing is left in the buffer while no write and no flush has failed.
#[derive(Drop)]
pub struct Journal<K: Opening, W: Write + Drop> {
    table: EntryTable,
    seat: TableSeat,
    writer: BufWriter<W>,
    shares: u32,
    broken: bool,
    named: PhantomData<K>,
}

impl<K: Opening, W: Write + Drop> Model for Journal<K, W> {
    ghost use Rattle.std.specs.Io.Buffered.{writer_buffer, writer_inner};
    ghost use Rattle.kept_desk.{specs.Journal.Ledger, specs.Held.IsJournal};

    ghost Value = { Ledger };

    ghost view = { λ j. record { entries = j.seat.me.0.log; shares = j.shares; broken = j.broken } };

    ghost invariant = { λ j. IsJournal K.table K.name K.before j.shares j.broken (W.contents (writer_inner j.writer)) (writer_buffer j.writer) j.table.shared.table_id j.seat.table_id j.seat.me };
}

impl<K: Opening, W: Write + Drop> Journal<K, W> {
    /// A journal without entries and shares that writes behind what its writer has already.
    ///
    /// Conditions: K names this table, and the bytes that the writer behind the buffer has; nothing is left in the
    /// buffer.
    pub fn open(table: JournalTable, writer: BufWriter<W>) -> Self
        requires table { table ≡ K.table }
        requires before { W.contents (writer_inner writer) ≡ K.before }
        requires empty { writer_buffer writer ≡ [] }
        ensures { result ≡ record { entries = []; shares = 0; broken = false } }
    {
        let (table, seat) = table.into_parts();
        Journal {
            table,
            seat,
            writer,
            shares: 0,
            broken: false,
            named: PhantomData,
        }
    }

    /// A number above those of all stations that have a share.
    pub fn shares(&self) -> u32
        ensures { result ≡ self.now.shares }
    {
        self.shares
    }

    /// Returns whether a write or a flush failed; the journal then takes no more lines.
    pub fn is_broken(&self) -> bool
        ensures { result ≡ self.now.broken }
    {
        self.broken
    }

    /// A new share, for this station: it has that station's entries.
    ///
    /// Condition: neither this station nor one of a greater number has a share ([`Journal::shares`]
    /// tests it), so no station gets two.
    pub fn enlist(&mut self, station: u16) -> Share<K>
        requires { self.old.shares ≤ station }
        ensures share { result ≡ record { station = station; entries = of_station station self.old.entries } }
        ensures journal { self.new ≡ record self.old { shares = station + 1 } }
    {
        let table = &self.table;
        let seat = enlist::<Brand>(&table.shared, &mut self.seat, station);
        self.shares = u32::from(station) + 1;
        Share {
            station,
            seat,
            named: PhantomData,
        }
    }

    /// Writes the bytes in front of the line, the line and a line feed, and flushes them. Then it notes the entry, here
    /// and in the share, and returns the moment. After an error nothing is noted, and the journal takes no more lines.
    /// Only contracts see the command that is noted.
    ///
    /// Conditions: in front of the line is nothing or a comment line ([`is_note`](crate::is_note) tests it), and the
    /// line speaks for the command on the share's station.
    pub fn add(
        &mut self,
        share: &mut Share<K>,
        note: &[u8],
        line: Line<'_>,
        command: &Command,
    ) -> Result<Moment<K>, Broken>
        requires note { IsNote note.now }
        requires speaks { SpeaksOf (K.name share.old.station) (bytes_of line) command.now }
        ensures added { OnOk result (self.new ≡ record self.old { entries = self.old.entries ++ entry share.old.station note.now (bytes_of line.entry) command.now ∷ [] }) }
        ensures known { OnOk result (share.new ≡ record share.old { entries = share.old.entries ++ entry share.old.station note.now (bytes_of line.entry) command.now ∷ [] }) }
        ensures own { OnOk result (share.old.entries ≡ of_station share.old.station self.old.entries) }
        ensures moment { IfOk result (λ m. m ≡ self.new.entries) }
        ensures whole { OnOk result (self.old.broken ≡ false) }
        ensures broken { OnErr result (self.new ≡ record self.old { broken = true }) }
        ensures same { OnErr result (share.new ≡ share.old) }
    {
        if self.broken {
            return Err(Broken);
        }
        self.broken = true;
        write_entry(&mut self.writer, note, line)?;
        let table = &self.table;
        note_entry::<Brand>(
            &table.shared,
            &mut self.seat,
            &mut share.seat,
            share.station,
            note,
            line,
            command,
        );
        let seat = receive(&table.shared, &mut self.seat);
        self.broken = false;
        Ok(Moment {
            seat,
            named: PhantomData,
        })
    }

    /// Compares a share with the journal: its entries are just those of its station, in their order.
    pub fn compare(&mut self, share: &mut Share<K>)
        ensures own { share.old.entries ≡ of_station share.old.station self.old.entries }
        ensures same { (self.new ≡ self.old) × (share.new ≡ share.old) }
    {
        let table = &self.table;
        agree(&table.shared, &mut self.seat, &mut share.seat);
    }

    /// The entries that it has now.
    pub fn moment(&mut self) -> Moment<K>
        ensures moment { result ≡ self.old.entries }
        ensures same { self.new ≡ self.old }
    {
        let table = &self.table;
        let seat = receive(&table.shared, &mut self.seat);
        Moment {
            seat,
            named: PhantomData,
        }
    }

    /// Compares a moment with the journal: its entries are the journal's first ones.
    pub fn confirm(&mut self, moment: Moment<K>)
        ensures first { IsPrefix moment self.old.entries }
        ensures same { self.new ≡ self.old }
    {
        let table = &self.table;
        confirm(&table.shared, &mut self.seat, moment.seat);
    }

    /// The writer. Since the journal was opened, the text of the entries was written, and the writer behind
    /// the buffer took all of it. Behind it is a front of one more line, if the journal is broken.
    pub fn into_writer(self) -> BufWriter<W>
        ensures written { IsWritten self.broken K.before (W.contents (writer_inner result)) (writer_buffer result) self.entries }
        ensures spoken { AreSpoken K.name self.entries }
    {
        let Journal {
            table: _,
            seat: _,
            writer,
            shares: _,
            broken: _,
            named: _,
        } = self;
        writer
    }
}
