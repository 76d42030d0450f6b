//! Values into and out of their locks, without memory.
ghost use Rattle.std.specs.Prelude.{◌≡◌, ℕ, ◌+◌, ◌<◌, ◌≤◌, All, length, Some, slice_get, vec_len, vec_capacity};
ghost use Rattle.site_book.specs.Book.{Book};
ghost use Rattle.site_desk.specs.Close.{AreViewed, Saw};

use crossbeam_utils::CachePadded;
use ledger_model::{MAX_SITES, MAX_STATIONS};
use site_book::{Naming, SiteBook, Viewer};
use std::alloc::{AllocError, Global};
use std::sync::Mutex;

// A value behind a lock of its own, on cache lines of its own.
pub(crate) type Locked<T> = CachePadded<Mutex<T>>;

// Room for all values behind a desk's locks.
#[derive(Drop)]
pub(crate) struct Spare<J: Naming, C> {
    pub(crate) cells: Vec<C>,
    pub(crate) books: Vec<SiteBook<J>>,
    ghost no_cells: { vec_len cells ≡ 0 },
    ghost no_books: { vec_len books ≡ 0 },
    ghost cell_room: { 64 ≤ vec_capacity cells },
    ghost book_room: { 16 ≤ vec_capacity books },
}

impl<J: Naming, C: Drop> Spare<J, C> {
    // Room for as many stations and sites as a plan may have.
    pub(crate) fn open(alloc: Global) -> Result<Self, AllocError> {
        let cells = Vec::with_capacity(alloc, MAX_STATIONS)?;
        let books = Vec::with_capacity(alloc, MAX_SITES)?;
        Ok(Spare { cells, books })
    }
}

// Gives each viewer back to its site's book.
pub(crate) fn give_back_viewers<J: Naming>(books: &mut Vec<SiteBook<J>>, viewers: Vec<Viewer<J>>)
    requires numbers { (site : ℕ) (b : Book) → slice_get books.old.items site ≡ Some b → b.site ≡ site }
    requires viewed { AreViewed (length books.old.items) viewers.items }
    ensures same { books.new.items ≡ books.old.items }
    ensures seen { All (Saw books.old.items) viewers.items }
{
    for viewer in viewers {
        give_back_viewer(books, viewer);
    }
}

// Gives a viewer back to its site's book.
fn give_back_viewer<J: Naming>(books: &mut Vec<SiteBook<J>>, viewer: Viewer<J>)
    requires numbers { (site : ℕ) (b : Book) → slice_get books.old.items site ≡ Some b → b.site ≡ site }
    requires viewed { viewer.site < length books.old.items }
    ensures same { books.new.items ≡ books.old.items }
    ensures seen { Saw books.old.items viewer }
{
    let book = &mut books[viewer.site() as usize];
    book.absorb_viewer(viewer);
}

// Puts each value behind a lock of its own, in order.
pub(crate) fn lock_up<T>(free: &mut Vec<T>, locked: &mut Vec<Locked<T>>)
    requires { vec_len locked.old + vec_len free.old ≤ vec_capacity locked.old }
    ensures none { vec_len free.new ≡ 0 }
    ensures all { vec_len locked.new ≡ vec_len locked.old + vec_len free.old }
    ensures room { vec_capacity free.new ≡ vec_capacity free.old }
{
    for _ in 0..free.len() {
        let value = free.remove(0);
        locked.push_reserved(CachePadded::new(Mutex::new(value)));
    }
}

// Moves each value out of its lock, in order.
pub(crate) fn unlock<T>(locked: &mut Vec<Locked<T>>, free: &mut Vec<T>)
    requires { vec_len free.old + vec_len locked.old ≤ vec_capacity free.old }
    ensures none { vec_len locked.new ≡ 0 }
    ensures all { vec_len free.new ≡ vec_len free.old + vec_len locked.old }
    ensures room { vec_capacity locked.new ≡ vec_capacity locked.old }
    ensures same { vec_capacity free.new ≡ vec_capacity free.old }
{
    for _ in 0..locked.len() {
        let value = locked.remove(0).into_inner().into_inner();
        free.push_reserved(value);
    }
}
