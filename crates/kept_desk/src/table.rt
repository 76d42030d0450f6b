//! The table where a journal and its shares have seats. Its one word is never written: only what the
//! seats know counts.
use crate::entry::Entry;
use atomic_table::{Join, Play, Seat, Shared, Split, Table, TableRule};
use std::alloc::Global;
use std::collections::LinkedList;
use std::marker::{Brand, PhantomData};

// What a seat knows. No value of it is ever made.
pub(crate) struct View {
    // It is the journal's seat.
    pub(crate) is_journal: bool,
    // All entries.
    pub(crate) log: LinkedList<Entry>,
    // A number above those of all stations that have a share.
    pub(crate) made: u32,
    // It is a station's share.
    pub(crate) is_share: bool,
    pub(crate) station: u16,
    // The entries of that station.
    pub(crate) mine: LinkedList<Entry>,
    // It is a receipt.
    pub(crate) is_receipt: bool,
    // The entries up to the one that it was given for.
    pub(crate) seen: LinkedList<Entry>,
}

// The rule of a journal's table.
pub(crate) struct OneList;

impl TableRule<(), View, ()> for OneList {
    ghost use Rattle.std.specs.Prelude.{[]};
    ghost use Rattle.kept_desk.specs.Rule.{Tied, keeping};

    ghost holds = { λ _ s. Tied s };

    ghost first = { λ _. keeping [] 0 };
}

pub(crate) type EntryTable = Table<(), View, (), OneList, Global>;

pub(crate) type Words = Shared<(), View, (), OneList>;

pub(crate) type TableSeat = Seat<(), View>;

// Names the entries that are added, only for the proof: a load carries none.
pub(crate) trait TheEntries {
    ghost use Rattle.std.specs.Prelude.{List};
    ghost use Rattle.kept_desk.specs.declared.entry.Entry.{Entry};

    ghost entries: { List Entry };
}

impl TheEntries for Brand {
    ghost use Rattle.std.specs.Prelude.{[]};

    ghost entries = { [] };
}

// Names the station that gets a share, only for the proof.
pub(crate) trait TheStation {
    ghost use Rattle.std.specs.Prelude.{ℕ};

    ghost station: { ℕ };
}

impl TheStation for Brand {
    ghost station = { 0 };
}

// The journal and the share that it took in learn the entries that E names.
pub(crate) struct Adds<E> {
    entries: PhantomData<E>,
}

impl<E: TheEntries> Play<(), View> for Adds<E> {
    ghost use Rattle.kept_desk.specs.Rule.{Added};

    ghost then = { Added E.entries };
}

// The share's entries are compared with the journal's.
pub(crate) struct Compares;

impl Play<(), View> for Compares {
    ghost use Rattle.kept_desk.specs.Rule.{Compared};

    ghost then = { Compared };
}

// A share leaves all that it knows to a new seat.
pub(crate) struct Leaves;

impl Split<View> for Leaves {
    ghost use Rattle.kept_desk.specs.Rule.{holding, nobody};

    ghost left = { λ _. nobody };

    ghost right = { λ v. holding v.station v.mine };
}

// The journal takes in what a share left.
pub(crate) struct TakesIn;

impl Join<View> for TakesIn {
    ghost use Rattle.kept_desk.specs.Rule.{joined, nobody};

    ghost both = { λ v w. joined v.log v.made w.station w.mine };

    ghost spent = { nobody };
}

// The journal gives the share back.
pub(crate) struct Gives;

impl Split<View> for Gives {
    ghost use Rattle.kept_desk.specs.Rule.{keeping, holding};

    ghost left = { λ v. keeping v.log v.made };

    ghost right = { λ v. holding v.station v.mine };
}

// The journal makes the share of the station that K names.
pub(crate) struct Enlists<K> {
    station: PhantomData<K>,
}

impl<K: TheStation> Split<View> for Enlists<K> {
    ghost use Rattle.std.specs.Prelude.{◌+◌};
    ghost use Rattle.kept_desk.{specs.Entries.of_station, specs.Rule.{keeping, holding}};

    ghost left = { λ v. keeping v.log (K.station + 1) };

    ghost right = { λ v. holding K.station (of_station K.station v.log) };
}

// The journal gives a receipt of all its entries.
pub(crate) struct Receives;

impl Split<View> for Receives {
    ghost use Rattle.kept_desk.specs.Rule.{keeping, knowing};

    ghost left = { λ v. keeping v.log v.made };

    ghost right = { λ v. knowing v.log };
}

// The journal takes in a receipt.
pub(crate) struct ReadsReceipt;

impl Join<View> for ReadsReceipt {
    ghost use Rattle.kept_desk.specs.Rule.{nobody, reading};

    ghost both = { λ v w. reading v.log v.made w.seen };

    ghost spent = { nobody };
}

// The receipt's entries are compared with the journal's.
pub(crate) struct Confirms;

impl Play<(), View> for Confirms {
    ghost use Rattle.kept_desk.specs.Rule.{Confirmed};

    ghost then = { Confirmed };
}

// The journal parts with the receipt.
pub(crate) struct PartsWithReceipt;

impl Split<View> for PartsWithReceipt {
    ghost use Rattle.kept_desk.specs.Rule.{keeping, nobody};

    ghost left = { λ v. keeping v.log v.made };

    ghost right = { λ _. nobody };
}
