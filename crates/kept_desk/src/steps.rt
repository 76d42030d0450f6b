//! The single steps on a journal's table. Each contract says what its seats know then.
ghost use Rattle.std.specs.Prelude.{◌≡◌, ◌+◌, ◌≤◌, [], ◌∷◌, ◌++◌};
ghost use Rattle.kept_desk.{specs.Entries.{bytes_of, entry, of_station}, specs.Held.Sits, specs.Rule.{keeping, holding, joined, knowing, reading}};
ghost use Rattle.site_book.specs.Prefix.{IsPrefix};

use crate::line::Line;
use crate::table::{
    Adds, Compares, Confirms, Enlists, Gives, Leaves, PartsWithReceipt, ReadsReceipt, Receives,
    TableSeat, TakesIn, TheEntries, TheStation, Words,
};
use ledger_model::Command;

// A share leaves all that it knows to a new seat, since a seat that is joined can't be kept.
pub(crate) fn leave(words: &Words, share: &mut TableSeat) -> TableSeat
    requires sits { Sits words.now.table_id share.old.table_id }
    requires holds { share.old.me ≡ (holding share.old.me.0.station share.old.me.0.mine, []) }
    ensures sits { Sits words.now.table_id result.table_id }
    ensures left { result.me ≡ share.old.me }
{
    words.split_seat::<Leaves>(share)
}

// The journal takes in what a share left.
pub(crate) fn absorb(words: &Words, seat: &mut TableSeat, other: TableSeat)
    requires sits { Sits words.now.table_id seat.old.table_id × Sits words.now.table_id other.table_id }
    requires keeps { seat.old.me ≡ (keeping seat.old.me.0.log seat.old.me.0.made, []) }
    requires holds { other.me ≡ (holding other.me.0.station other.me.0.mine, []) }
    ensures sits { Sits words.now.table_id seat.new.table_id }
    ensures joined { seat.new.me ≡ (joined seat.old.me.0.log seat.old.me.0.made other.me.0.station other.me.0.mine, []) }
{
    words.join_seat::<TakesIn>(seat, other);
}

// Both learn the entry of this line.
pub(crate) fn append<E: TheEntries>(
    words: &Words,
    seat: &mut TableSeat,
    station: u16,
    note: &[u8],
    line: Line<'_>,
    command: &Command,
)
    requires entries { E.entries ≡ entry station note.now (bytes_of line) command.now ∷ [] }
    requires sits { Sits words.now.table_id seat.old.table_id }
    requires joined { seat.old.me ≡ (joined seat.old.me.0.log seat.old.me.0.made station seat.old.me.0.mine, []) }
    ensures sits { Sits words.now.table_id seat.new.table_id }
    ensures added { seat.new.me
        ≡ (
          joined (seat.old.me.0.log ++ entry station note.now (bytes_of line.entry) command.now ∷ []) seat.old.me.0.made station
              (seat.old.me.0.mine ++ entry station note.now (bytes_of line.entry) command.now ∷ []),
          [],
        ) }
{
    words.load::<Adds<E>>(seat, 0);
}

// The share's entries are those of its station.
pub(crate) fn compare(words: &Words, seat: &mut TableSeat)
    requires sits { Sits words.now.table_id seat.old.table_id }
    requires joined { seat.old.me ≡ (joined seat.old.me.0.log seat.old.me.0.made seat.old.me.0.station seat.old.me.0.mine, []) }
    ensures sits { Sits words.now.table_id seat.new.table_id }
    ensures same { seat.new.me ≡ seat.old.me }
    ensures own { seat.old.me.0.mine ≡ of_station seat.old.me.0.station seat.old.me.0.log }
{
    words.load::<Compares>(seat, 0);
}

// The journal gives the share back.
pub(crate) fn give(words: &Words, seat: &mut TableSeat) -> TableSeat
    requires sits { Sits words.now.table_id seat.old.table_id }
    requires joined { seat.old.me ≡ (joined seat.old.me.0.log seat.old.me.0.made seat.old.me.0.station seat.old.me.0.mine, []) }
    ensures sits { Sits words.now.table_id seat.new.table_id × Sits words.now.table_id result.table_id }
    ensures keeps { seat.new.me ≡ (keeping seat.old.me.0.log seat.old.me.0.made, []) }
    ensures holds { result.me ≡ (holding seat.old.me.0.station seat.old.me.0.mine, []) }
{
    words.split_seat::<Gives>(seat)
}

// The journal makes the share of the station that K names.
pub(crate) fn enlist<K: TheStation>(words: &Words, seat: &mut TableSeat, station: u16) -> TableSeat
    requires station { K.station ≡ station }
    requires sits { Sits words.now.table_id seat.old.table_id }
    requires keeps { seat.old.me ≡ (keeping seat.old.me.0.log seat.old.me.0.made, []) }
    requires fresh { seat.old.me.0.made ≤ station }
    ensures sits { Sits words.now.table_id seat.new.table_id × Sits words.now.table_id result.table_id }
    ensures keeps { seat.new.me ≡ (keeping seat.old.me.0.log (station + 1), []) }
    ensures holds { result.me ≡ (holding station (of_station station seat.old.me.0.log), []) }
{
    words.split_seat::<Enlists<K>>(seat)
}

// The journal and a share note this line of the share's station. The share had all entries of the
// station before.
pub(crate) fn note_entry<E: TheEntries>(
    words: &Words,
    seat: &mut TableSeat,
    share: &mut TableSeat,
    station: u16,
    note: &[u8],
    line: Line<'_>,
    command: &Command,
)
    requires entries { E.entries ≡ entry station note.now (bytes_of line) command.now ∷ [] }
    requires sits { Sits words.now.table_id seat.old.table_id × Sits words.now.table_id share.old.table_id }
    requires keeps { seat.old.me ≡ (keeping seat.old.me.0.log seat.old.me.0.made, []) }
    requires holds { share.old.me ≡ (holding station share.old.me.0.mine, []) }
    ensures sits { Sits words.now.table_id seat.new.table_id × Sits words.now.table_id share.new.table_id }
    ensures own { share.old.me.0.mine ≡ of_station station seat.old.me.0.log }
    ensures keeps { seat.new.me ≡ (keeping (seat.old.me.0.log ++ entry station note.now (bytes_of line.entry) command.now ∷ []) seat.old.me.0.made, []) }
    ensures holds { share.new.me ≡ (holding station (share.old.me.0.mine ++ entry station note.now (bytes_of line.entry) command.now ∷ []), []) }
{
    let left = leave(words, share);
    absorb(words, seat, left);
    compare(words, seat);
    append::<E>(words, seat, station, note, line, command);
    *share = give(words, seat);
}

// The journal and a share are compared.
pub(crate) fn agree(words: &Words, seat: &mut TableSeat, share: &mut TableSeat)
    requires sits { Sits words.now.table_id seat.old.table_id × Sits words.now.table_id share.old.table_id }
    requires keeps { seat.old.me ≡ (keeping seat.old.me.0.log seat.old.me.0.made, []) }
    requires holds { share.old.me ≡ (holding share.old.me.0.station share.old.me.0.mine, []) }
    ensures sits { Sits words.now.table_id seat.new.table_id × Sits words.now.table_id share.new.table_id }
    ensures same { (seat.new.me ≡ seat.old.me) × (share.new.me ≡ share.old.me) }
    ensures own { share.old.me.0.mine ≡ of_station share.old.me.0.station seat.old.me.0.log }
{
    let left = leave(words, share);
    absorb(words, seat, left);
    compare(words, seat);
    *share = give(words, seat);
}

// The journal gives a receipt of all its entries.
pub(crate) fn receive(words: &Words, seat: &mut TableSeat) -> TableSeat
    requires sits { Sits words.now.table_id seat.old.table_id }
    requires keeps { seat.old.me ≡ (keeping seat.old.me.0.log seat.old.me.0.made, []) }
    ensures sits { Sits words.now.table_id seat.new.table_id × Sits words.now.table_id result.table_id }
    ensures keeps { seat.new.me ≡ (keeping seat.old.me.0.log seat.old.me.0.made, []) }
    ensures knows { result.me ≡ (knowing seat.old.me.0.log, []) }
{
    words.split_seat::<Receives>(seat)
}

// The journal takes in a receipt.
pub(crate) fn read_receipt(words: &Words, seat: &mut TableSeat, receipt: TableSeat)
    requires sits { Sits words.now.table_id seat.old.table_id × Sits words.now.table_id receipt.table_id }
    requires keeps { seat.old.me ≡ (keeping seat.old.me.0.log seat.old.me.0.made, []) }
    requires knows { receipt.me ≡ (knowing receipt.me.0.seen, []) }
    ensures sits { Sits words.now.table_id seat.new.table_id }
    ensures reads { seat.new.me ≡ (reading seat.old.me.0.log seat.old.me.0.made receipt.me.0.seen, []) }
{
    words.join_seat::<ReadsReceipt>(seat, receipt);
}

// The receipt's entries are the first of the journal's.
pub(crate) fn compare_receipt(words: &Words, seat: &mut TableSeat)
    requires sits { Sits words.now.table_id seat.old.table_id }
    requires reads { seat.old.me ≡ (reading seat.old.me.0.log seat.old.me.0.made seat.old.me.0.seen, []) }
    ensures sits { Sits words.now.table_id seat.new.table_id }
    ensures same { seat.new.me ≡ seat.old.me }
    ensures first { IsPrefix seat.old.me.0.seen seat.old.me.0.log }
{
    words.load::<Confirms>(seat, 0);
}

// The journal parts with the receipt that it read.
pub(crate) fn part(words: &Words, seat: &mut TableSeat)
    requires sits { Sits words.now.table_id seat.old.table_id }
    requires reads { seat.old.me ≡ (reading seat.old.me.0.log seat.old.me.0.made seat.old.me.0.seen, []) }
    ensures sits { Sits words.now.table_id seat.new.table_id }
    ensures keeps { seat.new.me ≡ (keeping seat.old.me.0.log seat.old.me.0.made, []) }
{
    let _spent = words.split_seat::<PartsWithReceipt>(seat);
}

// The journal and a receipt are compared.
pub(crate) fn confirm(words: &Words, seat: &mut TableSeat, receipt: TableSeat)
    requires sits { Sits words.now.table_id seat.old.table_id × Sits words.now.table_id receipt.table_id }
    requires keeps { seat.old.me ≡ (keeping seat.old.me.0.log seat.old.me.0.made, []) }
    requires knows { receipt.me ≡ (knowing receipt.me.0.seen, []) }
    ensures sits { Sits words.now.table_id seat.new.table_id }
    ensures same { seat.new.me ≡ seat.old.me }
    ensures first { IsPrefix receipt.me.0.seen seat.old.me.0.log }
{
    read_receipt(words, seat, receipt);
    compare_receipt(words, seat);
    part(words, seat);
}
