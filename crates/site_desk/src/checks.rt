//! What a desk compares before it is closed.
ghost use Rattle.std.specs.Prelude.{◌≡◌, ◌≢◌, IsTrue, IfNone, IfSome, length, map};
ghost use Rattle.site_desk.{specs.Close.{AreAllPasses, AreSummed, AreViewed, AreWhole, IsClosable, IsCounted, IsPlaced, IsSummed, IsWhole, changes_of, figures_at, figures_with, passes_of}, specs.Parts.IsTied, specs.declared.fault.CloseFault.CloseFault};

use crate::cell::StationCell;
use crate::fault::CloseFault;
use crate::has_cell::HasCell;
use crate::pass::Pass;
use crate::roster::StationPlace;
use crate::steps::{are_same, tied};
use crate::submit::stands_at;
use ledger_model::Figures;
use site_book::{Naming, SiteBook, Viewer};

// How many of the passes belong to the station.
fn passes_of(passes: &[Pass], number: usize) -> usize
    ensures { result ≡ passes_of number passes.now }
{
    let mut count = 0;
    for pass in passes {
        if pass.station() as usize == number {
            count += 1;
        }
    }
    count
}

// How many changes the station's passes made, if that fits in 64 bits.
fn changes_of(passes: &[Pass], number: usize) -> Option<u64>
    ensures { IfSome result (λ n. n ≡ changes_of number passes.now) }
{
    let mut changes: u64 = 0;
    for pass in passes {
        if pass.station() as usize == number {
            changes = changes.checked_add(pass.changes())?;
        }
    }
    Some(changes)
}

// Returns whether all passes that the cells gave out are here.
pub(crate) fn are_all_passes<C: HasCell>(cells: &[C], passes: &[Pass]) -> bool
    ensures { IsTrue result → AreAllPasses (map C.cell cells.now) passes.now }
{
    for k in 0..cells.len() {
        if passes_of(passes, k) != cells[k].cell().passes() {
            return false;
        }
    }
    true
}

// Returns whether the cell is where the plan has it.
fn is_placed(cell: &StationCell, number: usize, places: &[StationPlace]) -> bool
    ensures { IsTrue result → IsPlaced places.now number cell.now }
{
    match places.get(number) {
        Some(place) => stands_at(cell, number, place),
        None => false,
    }
}

// Returns whether the station's passes made as many changes as its ledger counts.
fn is_counted(cell: &StationCell, number: usize, passes: &[Pass]) -> bool
    ensures { IsTrue result → IsCounted passes.now number cell.now }
{
    match changes_of(passes, number) {
        Some(changes) => cell.ledger().changes() == changes,
        None => false,
    }
}

// Returns whether the cell's row is in its site's book and shows its figures.
fn is_tied<J: Naming>(cell: &StationCell, books: &[SiteBook<J>]) -> bool
    ensures { IsTrue result → IsTied books.now cell.now }
{
    match books.get(cell.site() as usize) {
        Some(book) => book.holds(cell.row(), cell.ledger().limits()) && tied(cell, book),
        None => false,
    }
}

// Returns whether the cell is placed, counted and tied.
fn is_whole<J: Naming>(
    cell: &StationCell,
    number: usize,
    places: &[StationPlace],
    books: &[SiteBook<J>],
    passes: &[Pass],
) -> bool
    ensures { IsTrue result → IsWhole places.now books.now passes.now number cell.now }
{
    is_placed(cell, number, places) && is_counted(cell, number, passes) && is_tied(cell, books)
}

// Returns whether each cell is placed, counted and tied.
pub(crate) fn are_whole<C: HasCell, J: Naming>(
    cells: &[C],
    places: &[StationPlace],
    books: &[SiteBook<J>],
    passes: &[Pass],
) -> bool
    ensures { IsTrue result → AreWhole places.now books.now passes.now (map C.cell cells.now) }
{
    for k in 0..cells.len() {
        if !is_whole(cells[k].cell(), k, places, books, passes) {
            return false;
        }
    }
    true
}

// These sums, with the cell's figures added if it belongs to the site; none if they don't fit.
fn plus_at(cell: &StationCell, site: usize, sum: &Figures) -> Option<Figures>
    ensures { IfSome result (λ f. f ≡ figures_with cell.now site sum.now) }
{
    if cell.site() as usize == site {
        cell.ledger().figures().checked_add(sum)
    } else {
        Some(*sum)
    }
}

// The sums over the stations of a site, if they fit.
fn figures_at<C: HasCell>(cells: &[C], site: usize) -> Option<Figures>
    ensures { IfSome result (λ f. f ≡ figures_at (map C.cell cells.now) site) }
{
    let mut sum = Figures::zero();
    for done in 0..cells.len() {
        sum = plus_at(cells[cells.len() - 1 - done].cell(), site, &sum)?;
    }
    Some(sum)
}

// Returns whether the book is that of this site, and its totals are the sums over the site's
// stations.
fn is_summed<C: HasCell, J: Naming>(book: &SiteBook<J>, site: usize, cells: &[C]) -> bool
    ensures { IsTrue result → IsSummed (map C.cell cells.now) site book.now }
{
    match figures_at(cells, site) {
        Some(figures) => book.site() as usize == site && are_same(&book.totals(), &figures),
        None => false,
    }
}

// Returns whether each book's totals are the sums over its site's stations.
pub(crate) fn are_summed<C: HasCell, J: Naming>(books: &[SiteBook<J>], cells: &[C]) -> bool
    ensures { IsTrue result → AreSummed (map C.cell cells.now) books.now }
{
    for site in 0..books.len() {
        if !is_summed(&books[site], site, cells) {
            return false;
        }
    }
    true
}

// Returns whether each viewer's site is one of the desk's.
pub(crate) fn are_viewed<J: Naming>(viewers: &[Viewer<J>], sites: usize) -> bool
    ensures { IsTrue result → AreViewed sites viewers.now }
{
    for viewer in viewers {
        if viewer.site() as usize >= sites {
            return false;
        }
    }
    true
}

// What keeps a desk from being closed, if anything does.
pub(crate) fn fault_of<C: HasCell, J: Naming>(
    places: &[StationPlace],
    given: usize,
    cells: &[C],
    books: &[SiteBook<J>],
    passes: &[Pass],
    viewers: &[Viewer<J>],
) -> Option<CloseFault>
    ensures whole { IfNone result (IsClosable places.now given (map C.cell cells.now) books.now passes.now viewers.now) }
    ensures missing { result ≡ Some CloseFault.ViewerMissing → length viewers.now ≢ given }
{
    if !are_all_passes(cells, passes) {
        return Some(CloseFault::PassMissing);
    }
    if viewers.len() != given {
        return Some(CloseFault::ViewerMissing);
    }
    let is_whole = are_whole(cells, places, books, passes);
    if is_whole && are_summed(books, cells) && are_viewed(viewers, books.len()) {
        None
    } else {
        Some(CloseFault::Torn)
    }
}
