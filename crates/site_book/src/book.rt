ghost use Rattle.std.{specs.Prelude.{◌≡◌, ◌↔◌, ◌<◌, ◌^◌, [], ◌∷◌, ◌++◌, length, map, IsTrue, IfOk, OnOk, OnErr, None, Some, slice_get, slice_set, replicate, All}, specs.List.range_with_len};
ghost use Rattle.ledger_model.{specs.Board.sum_of_figures, specs.Figures.no_figures, specs.Posts.{row_after, totals_after}};
ghost use Rattle.site_book.{specs.Book.{ArePlanned, Admits, known}, specs.Prefix.IsPrefix, specs.Tables.{HasTable, NamedBy}};

use crate::naming::Naming;
use crate::rounds::announce;
use crate::row::BookRow;
use crate::steps::{absorb, recall, share};
use crate::sums::replaced;
use crate::table::{SiteTable, TableSeat};
use crate::tables::Tables;
use crate::told::Told;
use crate::viewer::Viewer;
use ledger_model::{Figures, Limits};
use std::alloc::{AllocError, Global};
use std::marker::{Model, PhantomData};
use std::sync::Arc;

/// A site's book: the figures of each of its stations, and their totals, which viewers read.
#[derive(Drop)]
pub struct SiteBook<J: Naming> {
    site: u16,
    table: Arc<SiteTable, Global>,
    seat: TableSeat,
    rows: Vec<BookRow>,
    totals: Figures,
    posts: u64,
    desk: PhantomData<J>,
}

impl<J: Naming> Model for SiteBook<J> {
    ghost use Rattle.std.{specs.Prelude.map, specs.Arc.arc_value};
    ghost use Rattle.site_book.{specs.Book.Book, specs.Kept.IsBook};

    ghost Value = { Book };

    ghost view = { λ b. record { site = b.site; limits = map (λ r. r.limits) b.rows.items; posts = b.seat.me.0.log } };

    ghost invariant = { λ b. IsBook J.table b.site b.rows.items b.totals b.posts (arc_value b.table).shared.table_id b.seat.table_id b.seat.me };
}

impl<J: Naming> SiteBook<J> {
    /// The book of a site, with a row for each of these limits, all figures zero, and its viewers. It
    /// takes the site's table; if memory runs out, the table stays where it was.
    ///
    /// Conditions: the tables are those that J names, the site's table is there ([`Tables::has`] tests
    /// it), and one plan can have these stations: at most 64, with limits of at most 1,048,576
    /// readings in all.
    pub fn open(
        alloc: Global,
        tables: &mut Tables,
        site: u16,
        limits: &[Limits],
        viewers: u16,
    ) -> Result<(Self, Vec<Viewer<J>>), AllocError>
        requires named { NamedBy J.table tables.old }
        requires there { HasTable tables.old site }
        requires planned { ArePlanned limits.now }
        ensures book { IfOk result (λ r. r.0 ≡ record { site = site; limits = limits.now; posts = [] }) }
        ensures viewers { IfOk result (λ r. r.1.items ≡ replicate viewers (known site [])) }
        ensures taken { OnOk result (tables.new ≡ slice_set tables.old site None) }
        ensures stays { OnErr result (tables.new ≡ tables.old) }
        ensures named { NamedBy J.table tables.new }
    {
        let rows = blank_rows(alloc, limits)?;
        let mut unused = tables.take(site);
        match unused.viewers(alloc, site, viewers) {
            Ok(viewers) => {
                let (table, seat) = unused.into_parts();
                let book = SiteBook {
                    site,
                    table,
                    seat,
                    rows,
                    totals: Figures::zero(),
                    posts: 0,
                    desk: PhantomData,
                };
                Ok((book, viewers))
            }
            Err(error) => {
                tables.put_back(site, unused);
                Err(error)
            }
        }
    }

    /// The site's number.
    pub fn site(&self) -> u16
        ensures { result ≡ self.now.site }
    {
        self.site
    }

    /// How many rows it has, one for each station.
    pub fn rows(&self) -> u16
        ensures { result ≡ length self.now.limits }
    {
        self.rows.len() as u16
    }

    /// How many posts were made.
    pub fn posts(&self) -> u64
        ensures { result ≡ length self.now.posts }
    {
        self.posts
    }

    /// The figures that were posted last for the row, zero before any.
    pub fn row(&self, row: u16) -> Figures
        requires { row < length self.now.limits }
        ensures { result ≡ row_after row self.now.posts }
    {
        self.rows[row as usize].figures
    }

    /// The sums over the rows.
    pub fn totals(&self) -> Figures
        ensures totals { result ≡ totals_after self.now.posts }
        ensures sums { result ≡ sum_of_figures (map (λ row. row_after row self.now.posts) (range_with_len 0 (length self.now.limits))) }
    {
        self.totals
    }

    /// Returns whether the row is there and was opened with these limits.
    pub fn holds(&self, row: u16, limits: &Limits) -> bool
        ensures { IsTrue result ↔ (slice_get self.now.limits row ≡ Some limits.now) }
    {
        match self.rows.get(row as usize) {
            Some(kept) => kept.limits == *limits,
            None => false,
        }
    }

    /// Returns whether one more post can be made: fewer than 2^62 were.
    pub fn can_post(&self) -> bool
        ensures { IsTrue result ↔ (length self.now.posts < 2 ^ 62) }
    {
        self.posts < 1 << 62
    }

    /// Writes a station's figures into its row. The result carries all posts up to this one. The call
    /// takes no memory and waits for nobody: a store for each figure, two of the version, and one load.
    ///
    /// Conditions: the row is there ([`SiteBook::holds`] tests it), the figures are within its limits
    /// ([`Figures::within`] tests it), and fewer than 2^62 posts were made ([`SiteBook::can_post`]
    /// tests it).
    pub fn post(&mut self, row: u16, figures: Figures) -> Told<J>
        requires admitted { Admits self.old.limits row figures }
        requires room { length self.old.posts < 2 ^ 62 }
        ensures posted { self.new ≡ record self.old { posts = self.old.posts ++ (row, figures) ∷ [] } }
        ensures told { result ≡ known self.old.site self.new.posts }
    {
        let kept = &mut self.rows[row as usize];
        let totals = replaced(&self.totals, &kept.figures, &figures);
        kept.figures = figures;
        let words = &self.table.shared;
        announce(
            words,
            &mut self.seat,
            2 * self.posts,
            &(row, figures),
            &totals,
        );
        self.posts += 1;
        self.totals = totals;
        Told {
            site: self.site,
            seat: share(words, &mut self.seat),
            posts: self.posts,
            totals,
            desk: PhantomData,
        }
    }

    /// Takes a viewer back. The posts that it knew are the first of the book's.
    pub fn absorb_viewer(&mut self, viewer: Viewer<J>)
        requires { viewer.site ≡ self.old.site }
        ensures same { self.new ≡ self.old }
        ensures known { IsPrefix viewer.posts self.old.posts }
    {
        let words = &self.table.shared;
        absorb(words, &mut self.seat, viewer.into_seat());
        recall(words, &mut self.seat);
    }
}

// A row for each of these limits, with all figures zero.
fn blank_rows(alloc: Global, limits: &[Limits]) -> Result<Vec<BookRow>, AllocError>
    ensures limits { IfOk result (λ rows. map (λ r. r.limits) rows.items ≡ limits.now) }
    ensures blank { IfOk result (λ rows. All (λ r. r.figures ≡ no_figures) rows.items) }
{
    let mut rows = Vec::with_capacity(alloc, limits.len())?;
    for each in limits {
        rows.push(BookRow::new(each))?;
    }
    Ok(rows)
}
