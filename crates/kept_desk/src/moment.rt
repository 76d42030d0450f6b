use crate::opening::Opening;
use crate::table::TableSeat;
use std::marker::{Model, PhantomData};

/// A moment of a journal. Contracts see the entries that the journal had then. It may be dropped; if it is
/// handed in when its journal's desk is closed, its entries are the first of the journal's. It has no bytes.
#[derive(Drop)]
pub struct Moment<K: Opening> {
    pub(crate) seat: TableSeat,
    pub(crate) named: PhantomData<K>,
}

impl<K: Opening> Model for Moment<K> {
    ghost use Rattle.std.specs.Prelude.{List};
    ghost use Rattle.kept_desk.{specs.declared.entry.Entry.Entry, specs.Held.IsMoment};

    ghost Value = { List Entry };

    ghost view = { λ r. r.seat.me.0.seen };

    ghost invariant = { λ r. IsMoment K.table r.seat.table_id r.seat.me };
}
