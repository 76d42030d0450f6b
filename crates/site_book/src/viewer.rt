ghost use Rattle.std.{specs.Prelude.{◌≡◌, ◌⊎◌, [], length}, specs.Arc.arc_value};
ghost use Rattle.ledger_model.specs.Posts.{totals_after};
ghost use Rattle.site_book.{specs.Book.known, specs.Kept.Sits, specs.Prefix.IsPrefix, specs.Rule.seeing};

use crate::naming::Naming;
use crate::rounds::gather;
use crate::steps::{grow, keep, look, look_again};
use crate::table::{SiteTable, TableSeat};
use crate::told::Told;
use ledger_model::Figures;
use std::alloc::Global;
use std::marker::{Model, PhantomData};
use std::sync::Arc;

/// Reads the totals of a site's book, from any thread, and waits for nobody.
#[derive(Drop)]
pub struct Viewer<J: Naming> {
    site: u16,
    table: Arc<SiteTable, Global>,
    seat: TableSeat,
    posts: u64,
    totals: Figures,
    desk: PhantomData<J>,
}

impl<J: Naming> Model for Viewer<J> {
    ghost use Rattle.std.specs.Arc.{arc_value};
    ghost use Rattle.site_book.{specs.Book.{Known, known}, specs.Kept.IsViewer};

    ghost Value = { Known };

    ghost view = { λ v. known v.site v.seat.me.0.log };

    ghost invariant = { λ v. IsViewer J.table v.site v.posts v.totals (arc_value v.table).shared.table_id v.seat.table_id v.seat.me };
}

impl<J: Naming> Viewer<J> {
    // A viewer that knows no post.
    pub(crate) fn new(site: u16, table: Arc<SiteTable, Global>, seat: TableSeat) -> Self
        requires named { (arc_value table).shared.table_id ≡ J.table site }
        requires sits { Sits (arc_value table).shared.table_id seat.table_id }
        requires knows { seat.me ≡ (seeing [] [], []) }
        ensures { result ≡ known site [] }
    {
        Viewer {
            site,
            table,
            seat,
            posts: 0,
            totals: Figures::zero(),
            desk: PhantomData,
        }
    }

    /// The number of the site that it views.
    pub fn site(&self) -> u16
        ensures { result ≡ self.now.site }
    {
        self.site
    }

    /// How many posts it saw or learnt.
    pub fn posts(&self) -> u64
        ensures { result ≡ length self.now.posts }
    {
        self.posts
    }

    /// The site's totals after some first posts of its book, which include all that this viewer saw
    /// or learnt before. It tries once to read the version, the totals and the version again, with
    /// one load for each figure and two of the version. If a post came between, it gives the totals that this viewer last saw
    /// or learnt.
    pub fn glance(&mut self) -> Figures
        ensures totals { result ≡ totals_after self.new.posts }
        ensures later { IsPrefix self.old.posts self.new.posts }
        ensures site { self.new.site ≡ self.old.site }
    {
        let words = &self.table.shared;
        let version = look(words, &mut self.seat);
        if version % 2 == 0 {
            let read = gather(words, &mut self.seat);
            if look_again(words, &mut self.seat) == version {
                self.posts = version / 2;
                self.totals = Figures::from_array(read);
            }
        }
        self.totals
    }

    /// Takes in the posts of its site's book. The viewer then knows the longer of the two lists of
    /// posts; the shorter one is its beginning.
    pub fn learn(&mut self, told: Told<J>)
        requires { told.site ≡ self.old.site }
        ensures mine { IsPrefix self.old.posts self.new.posts }
        ensures told { IsPrefix told.posts self.new.posts }
        ensures longer { (self.new.posts ≡ self.old.posts) ⊎ (self.new.posts ≡ told.posts) }
        ensures site { self.new.site ≡ self.old.site }
    {
        let Told {
            site: _,
            seat,
            posts,
            totals,
            desk: _,
        } = told;
        let words = &self.table.shared;
        if self.posts < posts {
            grow(words, &mut self.seat, seat);
            self.posts = posts;
            self.totals = totals;
        } else {
            keep(words, &mut self.seat, seat);
        }
        look(words, &mut self.seat);
    }

    // Its seat, for the book to join.
    pub(crate) fn into_seat(self) -> TableSeat
        ensures sits { Sits (J.table self.site) result.table_id }
        ensures knows { (result.me.0.log ≡ self.posts) × (result.me.1 ≡ []) }
    {
        let Viewer {
            site: _,
            table: _,
            seat,
            posts: _,
            totals: _,
            desk: _,
        } = self;
        seat
    }
}
