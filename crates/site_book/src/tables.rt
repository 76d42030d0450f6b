ghost use Rattle.std.{specs.Prelude.{◌≡◌, ◌↔◌, ℕ, ◌<◌, [], length, IsTrue, IfOk, OnErr, Some, None, slice_get, slice_set, replicate}, specs.Arc.arc_value};
ghost use Rattle.site_book.{specs.Book.known, specs.Kept.IsUnused, specs.Tables.HasTable};

use crate::naming::Naming;
use crate::steps::share;
use crate::table::{SiteTable, TableSeat};
use crate::viewer::Viewer;
use ledger_model::FIGURES;
use std::alloc::{AllocError, Global};
use std::marker::Model;
use std::sync::Arc;

// The words of a site's table: a version, and behind it the figures.
const WORDS: usize = FIGURES + 1;

// A site's table that no book has taken yet, with its first seat, which will be the book's.
#[derive(Drop)]
pub(crate) struct Unused {
    table: Arc<SiteTable, Global>,
    seat: TableSeat,
}

impl Model for Unused {
    ghost use Rattle.std.specs.Arc.{arc_value};
    ghost use Rattle.atomic_table.specs.Seated.{TableId, table_id_coded};
    ghost use Rattle.site_book.specs.Kept.{IsUnused};

    ghost Value = { TableId };

    ghost coded = { table_id_coded };

    ghost view = { λ u. (arc_value u.table).shared.table_id };

    ghost invariant = { λ u. IsUnused (arc_value u.table).shared.table_id u.seat.table_id u.seat.me };
}

impl Unused {
    fn new(alloc: Global) -> Result<Self, AllocError> {
        let (table, seat) = SiteTable::of_words(alloc, &[0; WORDS], &())?;
        Ok(Unused {
            table: Arc::new(alloc, table)?,
            seat,
        })
    }

    pub(crate) fn into_parts(self) -> (Arc<SiteTable, Global>, TableSeat)
        ensures table { (arc_value result.0).shared.table_id ≡ self }
        ensures seat { IsUnused self result.1.table_id result.1.me }
    {
        let Unused { table, seat } = self;
        (table, seat)
    }

    // A viewer that knows no post.
    fn viewer<J: Naming>(&mut self, site: u16) -> Result<Viewer<J>, AllocError>
        requires { self.old ≡ J.table site }
        ensures same { self.new ≡ self.old }
        ensures viewer { IfOk result (λ v. v ≡ known site []) }
    {
        let table = Arc::try_clone(&self.table)?;
        let seat = share(&table.shared, &mut self.seat);
        Ok(Viewer::new(site, table, seat))
    }

    // `count` viewers that know no post.
    pub(crate) fn viewers<J: Naming>(
        &mut self,
        alloc: Global,
        site: u16,
        count: u16,
    ) -> Result<Vec<Viewer<J>>, AllocError>
        requires { self.old ≡ J.table site }
        ensures same { self.new ≡ self.old }
        ensures viewers { IfOk result (λ v. v.items ≡ replicate count (known site [])) }
    {
        let mut viewers = Vec::with_capacity(alloc, count as usize)?;
        for _ in 0..count {
            viewers.push(self.viewer(site)?)?;
        }
        Ok(viewers)
    }
}

/// The tables of a desk's sites; each site's book takes one. Contracts see the list of their names,
/// by site number.
#[derive(Drop)]
pub struct Tables {
    tables: Vec<Option<Unused>>,
}

impl Model for Tables {
    ghost use Rattle.site_book.specs.Tables.{Unopened, unopened_code};

    ghost Value = { Unopened };

    ghost coded = { unopened_code };

    ghost view = { λ t. t.tables.items };
}

impl Tables {
    /// One table for each of `sites` sites. Only this call and
    /// [`SiteBook::open`](crate::SiteBook::open) take memory.
    pub fn make(alloc: Global, sites: u16) -> Result<Self, AllocError>
        ensures count { IfOk result (λ t. length t ≡ sites) }
        ensures tables { IfOk result (λ t. (site : ℕ) → site < sites → HasTable t site) }
    {
        let mut tables = Vec::with_capacity(alloc, sites as usize)?;
        for _ in 0..sites {
            tables.push(Some(Unused::new(alloc)?))?;
        }
        Ok(Tables { tables })
    }

    /// Returns whether the site's table is there, and no book has taken it.
    pub fn has(&self, site: u16) -> bool
        ensures { IsTrue result ↔ HasTable self.now site }
    {
        match self.tables.get(site as usize) {
            Some(table) => table.is_some(),
            None => false,
        }
    }

    // Takes the site's table out.
    pub(crate) fn take(&mut self, site: u16) -> Unused
        requires { HasTable self.old site }
        ensures table { slice_get self.old site ≡ Some (Some result) }
        ensures taken { self.new ≡ slice_set self.old site None }
    {
        self.tables[site as usize].take().unwrap()
    }

    // Puts the site's table back.
    pub(crate) fn put_back(&mut self, site: u16, table: Unused)
        requires { site < length self.old }
        ensures { self.new ≡ slice_set self.old site (Some table) }
    {
        self.tables[site as usize] = Some(table);
    }
}
