ghost use Rattle.std.specs.Prelude.{◌≡◌, ◌↔◌, ℕ, ◌<◌, ◌≤◌, ◌^◌, [], ◌∷◌, ◌++◌, length, map, IfOk, OnOk, None, Some};
ghost use Rattle.ledger_model.{specs.Board.figures_by, specs.Content.entries};
ghost use Rattle.site_book.{specs.Book.{ArePlanned, known}, specs.Tables.{HasTable, NamedBy}};
ghost use Rattle.site_desk.{specs.declared.fault.DeskFault.DeskFault, specs.Parts.{AreApart, AreBooksOf, AreHeld, AreNewBooks, AreNewCells, AreRowsKept, AreTied, HaveFewPosts, limits_at, new_viewers, row_at, viewed_by}, specs.Plan.plan_fault, specs.Roster.AreCellsOf, specs.Settle.Holds};

use crate::cell::StationCell;
use crate::fault::DeskFault;
use crate::plan::{Plan, SitePlan, StationPlan, order_of, period_of};
use arrayvec::ArrayVec;
use ledger_model::{Limits, Listed, MAX_STATIONS};
use site_book::{Naming, SiteBook, Tables, Viewer};
use std::alloc::{AllocError, Global};

/// The parts of a desk without its locks: a cell for each station and a book for each site, both in
/// the plan's order, and the viewers, each with its site's number, site by site.
#[derive(Drop)]
pub struct Parts<J: Naming> {
    pub cells: Listed<StationCell>,
    pub books: Listed<SiteBook<J>>,
    pub viewers: Listed<(u16, Viewer<J>)>,
}

impl<J: Naming> Parts<J> {
    /// The parts of a plan, all without events. Faults of the plan come first, `OutOfMemory` last; a
    /// refusal drops the tables.
    ///
    /// Condition: the tables are those that J names, and each site has its own, as
    /// [`Tables::make`](site_book::Tables::make) gives them.
    pub fn open(alloc: Global, tables: Tables, plan: &Plan) -> Result<Self, DeskFault>
        requires named { NamedBy J.table tables }
        requires there { (site : ℕ) → site < length plan.now.sites.items → HasTable tables site }
        ensures limits { (result ≡ Err DeskFault.PlanLimit) ↔ (plan_fault plan.now.sites.items plan.now.stations.items ≡ Some DeskFault.PlanLimit) }
        ensures twice { (result ≡ Err DeskFault.StationTwice) ↔ (plan_fault plan.now.sites.items plan.now.stations.items ≡ Some DeskFault.StationTwice) }
        ensures faultless { OnOk result (plan_fault plan.now.sites.items plan.now.stations.items ≡ None) }
        ensures cells { IfOk result (λ p. AreNewCells plan.now.sites.items plan.now.stations.items p.cells) }
        ensures books { IfOk result (λ p. AreNewBooks plan.now.stations.items (length plan.now.sites.items) p.books) }
        ensures viewers { IfOk result (λ p. p.viewers ≡ new_viewers 0 plan.now.sites.items) }
        ensures tied { IfOk result (λ p. AreTied p.cells p.books) }
        ensures apart { IfOk result (λ p. AreApart p.cells) }
    {
        if let Some(fault) = plan.fault() {
            return Err(fault);
        }
        match open_parts(alloc, tables, plan) {
            Ok(parts) => Ok(parts),
            Err(_) => Err(DeskFault::OutOfMemory),
        }
    }

    /// The parts of a plan over cells that took commands before. Their figures are posted in new books. Each site
    /// has `viewers` viewers, whatever the plan says. A refusal drops the tables.
    ///
    /// Conditions: the tables are as for [`Parts::open`], the plan has no fault ([`Plan::fault`] tests it), and
    /// the cells are those of its stations, in the plan's order.
    pub fn over(
        alloc: Global,
        tables: Tables,
        plan: &Plan,
        cells: Vec<StationCell>,
        viewers: u16,
    ) -> Result<Self, AllocError>
        requires named { NamedBy J.table tables }
        requires there { (site : ℕ) → site < length plan.now.sites.items → HasTable tables site }
        requires faultless { plan_fault plan.now.sites.items plan.now.stations.items ≡ None }
        requires cells { AreCellsOf plan.now.sites.items plan.now.stations.items cells.items }
        ensures cells { IfOk result (λ p. p.cells ≡ cells.items) }
        ensures books { IfOk result (λ p. length p.books ≡ length plan.now.sites.items) }
        ensures rows { IfOk result (λ p. AreBooksOf plan.now.stations.items (length plan.now.sites.items) p.books) }
        ensures tied { IfOk result (λ p. AreTied p.cells p.books) }
        ensures viewers { IfOk result (λ p. p.viewers ≡ new_viewers 0 (viewed_by (Some viewers) plan.now.sites.items)) }
    {
        let (sites, stations) = (plan.sites.as_slice(), plan.stations.as_slice());
        let (mut books, viewers) = open_books(alloc, tables, sites, stations, Some(viewers))?;
        post_all(&cells, &mut books);
        Ok(Parts {
            cells: Listed::of(cells),
            books: Listed::of(books),
            viewers: Listed::of(viewers),
        })
    }
}

// Posts the figures of each cell in the book of its site, which has no posts.
fn post_all<J: Naming>(cells: &[StationCell], books: &mut [SiteBook<J>])
    requires few { length cells.now ≤ 64 }
    requires held { AreHeld cells.now books.old }
    requires apart { AreApart cells.now }
    requires none { HaveFewPosts books.old 0 }
    ensures tied { AreTied cells.now books.new }
    ensures rows { AreRowsKept books.old books.new }
    ensures count { length books.new ≡ length books.old }
{
    for cell in cells {
        post_figures(cell, &mut books[cell.site() as usize]);
    }
}

// Posts the figures of a cell in its row.
fn post_figures<J: Naming>(cell: &StationCell, book: &mut SiteBook<J>)
    requires held { Holds cell.now book.old }
    requires room { length book.old.posts < 2 ^ 62 }
    ensures { book.new ≡ record book.old { posts = book.old.posts ++ (cell.now.row, figures_by cell.now.order (entries cell.now.content)) ∷ [] } }
{
    book.post(cell.row(), cell.ledger().figures());
}

// The parts of a plan that has no fault.
fn open_parts<J: Naming>(alloc: Global, tables: Tables, plan: &Plan) -> Result<Parts<J>, AllocError>
    requires named { NamedBy J.table tables }
    requires there { (site : ℕ) → site < length plan.now.sites.items → HasTable tables site }
    requires faultless { plan_fault plan.now.sites.items plan.now.stations.items ≡ None }
    ensures cells { IfOk result (λ p. AreNewCells plan.now.sites.items plan.now.stations.items p.cells) }
    ensures books { IfOk result (λ p. AreNewBooks plan.now.stations.items (length plan.now.sites.items) p.books) }
    ensures viewers { IfOk result (λ p. p.viewers ≡ new_viewers 0 plan.now.sites.items) }
    ensures tied { IfOk result (λ p. AreTied p.cells p.books) }
    ensures apart { IfOk result (λ p. AreApart p.cells) }
{
    let sites = plan.sites.as_slice();
    let stations = plan.stations.as_slice();
    let cells = open_cells(alloc, sites, stations)?;
    let (books, viewers) = open_books(alloc, tables, sites, stations, None)?;
    Ok(Parts {
        cells: Listed::of(cells),
        books: Listed::of(books),
        viewers: Listed::of(viewers),
    })
}

// A cell for each station, by its site's settlement period and order of readings.
fn open_cells(
    alloc: Global,
    sites: &[SitePlan],
    stations: &[StationPlan],
) -> Result<Vec<StationCell>, AllocError>
    requires { length stations.now ≤ 64 }
    ensures { IfOk result (λ cells. AreNewCells sites.now stations.now cells.items) }
{
    let mut cells = Vec::with_capacity(alloc, stations.len())?;
    for k in 0..stations.len() {
        let station = &stations[k];
        let row = row_of(stations, station.site, k);
        let period = period_of(sites, station.site);
        let order = order_of(sites, station.site);
        cells.push(StationCell::open(
            alloc,
            k as u16,
            station.site,
            row,
            station.limits,
            period,
            order,
        )?)?;
    }
    Ok(cells)
}

// The row of the station of this number at a site.
pub(crate) fn row_of(stations: &[StationPlan], site: u16, number: usize) -> u16
    requires few { length stations.now ≤ 64 }
    requires there { number ≤ length stations.now }
    ensures { result ≡ row_at stations.now site number }
{
    let mut row = 0;
    for k in 0..number {
        if stations[k].site == site {
            row += 1;
        }
    }
    row
}

// The limits of the stations of a site.
fn limits_of(stations: &[StationPlan], site: u16) -> ArrayVec<Limits, MAX_STATIONS>
    requires { length stations.now ≤ 64 }
    ensures { result.items ≡ limits_at stations.now site }
{
    let mut limits = ArrayVec::new();
    for station in stations {
        if station.site == site {
            limits.push(station.limits);
        }
    }
    limits
}

// A book for each site, and all viewers: the given number for each site, or else as many as the
// plan says.
fn open_books<J: Naming>(
    alloc: Global,
    mut tables: Tables,
    sites: &[SitePlan],
    stations: &[StationPlan],
    viewers_each: Option<u16>,
) -> Result<(Vec<SiteBook<J>>, Vec<(u16, Viewer<J>)>), AllocError>
    requires named { NamedBy J.table tables }
    requires there { (site : ℕ) → site < length sites.now → HasTable tables site }
    requires few { (length sites.now ≤ 16) × (length stations.now ≤ 64) }
    requires faultless { plan_fault sites.now stations.now ≡ None }
    ensures books { IfOk result (λ r. AreNewBooks stations.now (length sites.now) r.0.items) }
    ensures viewers { IfOk result (λ r. r.1.items ≡ new_viewers 0 (viewed_by viewers_each sites.now)) }
{
    let mut books = Vec::with_capacity(alloc, sites.len())?;
    let mut viewers = Vec::new(alloc);
    for site in 0..sites.len() {
        let limits = limits_of(stations, site as u16);
        let (book, seats) = SiteBook::open(
            alloc,
            &mut tables,
            site as u16,
            limits.as_slice(),
            viewers_each.unwrap_or(sites[site].viewers),
        )?;
        books.push(book)?;
        add_viewers(&mut viewers, site as u16, seats)?;
    }
    Ok((books, viewers))
}

// Adds the viewers of a site.
fn add_viewers<J: Naming>(
    viewers: &mut Vec<(u16, Viewer<J>)>,
    site: u16,
    seats: Vec<Viewer<J>>,
) -> Result<(), AllocError>
    ensures { OnOk result (viewers.new.items ≡ viewers.old.items ++ map (λ v. (site, v)) seats.items) }
{
    for viewer in seats {
        viewers.push((site, viewer))?;
    }
    Ok(())
}
