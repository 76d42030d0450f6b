ghost use Rattle.std.specs.Prelude.{◌≡◌};

use crate::opening::Opening;
use crate::table::TableSeat;
use std::marker::{Model, PhantomData};

/// A station's share of a journal. Contracts see the station's number and its entries. A station has at
/// most one share, so the content kept beside it can be shown to come from just these entries.
#[derive(Drop)]
pub struct Share<K: Opening> {
    pub(crate) station: u16,
    pub(crate) seat: TableSeat,
    pub(crate) named: PhantomData<K>,
}

impl<K: Opening> Model for Share<K> {
    ghost use Rattle.kept_desk.{specs.Journal.OwnEntries, specs.Held.IsShare};

    ghost Value = { OwnEntries };

    ghost view = { λ s. record { station = s.station; entries = s.seat.me.0.mine } };

    ghost invariant = { λ s. IsShare K.table s.station s.seat.table_id s.seat.me };
}

impl<K: Opening> Share<K> {
    /// The station's number.
    pub fn station(&self) -> u16
        ensures { result ≡ self.now.station }
    {
        self.station
    }
}
