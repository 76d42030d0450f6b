//! The table that a book and its viewers share: word 0 is the version, and behind it are the totals.
use atomic_table::{Join, Play, Seat, Shared, Split, Table, TableRule};
use ledger_model::Figures;
use std::alloc::Global;
use std::collections::LinkedList;
use std::marker::{Brand, PhantomData};

// What a seat knows. No value of it is made.
pub(crate) struct View {
    // It is the book's seat.
    pub(crate) writes: bool,
    // The posts that it made, saw or learnt.
    pub(crate) log: LinkedList<(u16, Figures)>,
    // The shorter list, after a join.
    pub(crate) old: LinkedList<(u16, Figures)>,
    // The post under way, none or one.
    pub(crate) pending: LinkedList<(u16, Figures)>,
    // How many totals of the post under way are stored.
    pub(crate) stored: u64,
    // It has loaded the version in a glance.
    pub(crate) looks: bool,
    pub(crate) version: u64,
    // The totals read since.
    pub(crate) read: LinkedList<u64>,
}

// The rule of a site's table.
pub(crate) struct Totals;

impl TableRule<(), View, ()> for Totals {
    ghost use Rattle.std.specs.Prelude.{[]};
    ghost use Rattle.site_book.specs.Rule.{Rows, writing};

    ghost holds = { λ _ s. Rows s };

    ghost first = { λ _. writing [] [] [] 0 };
}

pub(crate) type SiteTable = Table<(), View, (), Totals, Global>;

pub(crate) type Words = Shared<(), View, (), Totals>;

pub(crate) type TableSeat = Seat<(), View>;

// Names the post that the book opens, only for the proof: a store carries no post.
pub(crate) trait ThePost {
    ghost use Rattle.ledger_model.specs.Posts.{Post};

    ghost post: { Post };
}

impl ThePost for Brand {
    ghost use Rattle.site_book.specs.Rule.{no_post};

    ghost post = { no_post };
}

// The book opens the post that Q names.
pub(crate) struct Opens<Q> {
    post: PhantomData<Q>,
}

impl<Q: ThePost> Play<(), View> for Opens<Q> {
    ghost use Rattle.site_book.specs.Rule.{Opened};

    ghost then = { Opened Q.post };
}

// The book stores one total.
pub(crate) struct Stores;

impl Play<(), View> for Stores {
    ghost use Rattle.site_book.specs.Rule.{Stored};

    ghost then = { Stored };
}

// The book closes the post under way.
pub(crate) struct Closes;

impl Play<(), View> for Closes {
    ghost use Rattle.site_book.specs.Rule.{Closed};

    ghost then = { Closed };
}

// A viewer loads the version.
pub(crate) struct Looks;

impl Play<(), View> for Looks {
    ghost use Rattle.site_book.specs.Rule.{Looked};

    ghost then = { Looked };
}

// The book loads the version.
pub(crate) struct Recalls;

impl Play<(), View> for Recalls {
    ghost use Rattle.site_book.specs.Rule.{Recalled};

    ghost then = { Recalled };
}

// A viewer loads one total.
pub(crate) struct Loads;

impl Play<(), View> for Loads {
    ghost use Rattle.site_book.specs.Rule.{Loaded};

    ghost then = { Loaded };
}

// A viewer loads the version again.
pub(crate) struct Checks;

impl Play<(), View> for Checks {
    ghost use Rattle.site_book.specs.Rule.{Checked};

    ghost then = { Checked };
}

// A new seat that knows what the split one knows.
pub(crate) struct Shares;

impl Split<View> for Shares {
    ghost use Rattle.std.specs.Prelude.{[]};
    ghost use Rattle.site_book.specs.Rule.{seeing};

    ghost left = { λ v. v };

    ghost right = { λ v. seeing v.log [] };
}

// A viewer joins a seat that knows no more posts than it does.
pub(crate) struct Keeps;

impl Join<View> for Keeps {
    ghost use Rattle.std.specs.Prelude.{[]};
    ghost use Rattle.site_book.specs.Rule.{seeing};

    ghost both = { λ v w. seeing v.log w.log };

    ghost spent = { seeing [] [] };
}

// A viewer joins a seat that knows at least as many posts.
pub(crate) struct Grows;

impl Join<View> for Grows {
    ghost use Rattle.std.specs.Prelude.{[]};
    ghost use Rattle.site_book.specs.Rule.{seeing};

    ghost both = { λ v w. seeing w.log v.log };

    ghost spent = { seeing [] [] };
}

// The book joins a viewer's seat.
pub(crate) struct TakesIn;

impl Join<View> for TakesIn {
    ghost use Rattle.std.specs.Prelude.{[]};
    ghost use Rattle.site_book.specs.Rule.{seeing, writing};

    ghost both = { λ v w. writing v.log w.log [] 0 };

    ghost spent = { seeing [] [] };
}
