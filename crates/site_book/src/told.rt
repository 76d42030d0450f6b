ghost use Rattle.std.specs.Prelude.{◌≡◌, length};

use crate::naming::Naming;
use crate::table::TableSeat;
use ledger_model::Figures;
use std::marker::{Model, PhantomData};

/// All posts of a book up to one post, which gave it. It may be dropped, or a viewer of the same site
/// learns it.
#[derive(Drop)]
pub struct Told<J: Naming> {
    pub(crate) site: u16,
    pub(crate) seat: TableSeat,
    pub(crate) posts: u64,
    pub(crate) totals: Figures,
    pub(crate) desk: PhantomData<J>,
}

impl<J: Naming> Model for Told<J> {
    ghost use Rattle.site_book.{specs.Book.{Known, known}, specs.Kept.IsTold};

    ghost Value = { Known };

    ghost view = { λ t. known t.site t.seat.me.0.log };

    ghost invariant = { λ t. IsTold J.table t.site t.posts t.totals t.seat.table_id t.seat.me };
}

impl<J: Naming> Told<J> {
    /// The number of the site of the book that gave it.
    pub fn site(&self) -> u16
        ensures { result ≡ self.now.site }
    {
        self.site
    }

    /// How many posts the book had, the one that gave it included.
    pub fn posts(&self) -> u64
        ensures { result ≡ length self.now.posts }
    {
        self.posts
    }
}
