//! A site's totals, read by viewers that wait for nobody.
//!
//! A [`SiteBook`] keeps a row of [`Figures`](ledger_model::Figures) for each station of a site, and
//! their totals. [`SiteBook::post`] writes a station's new figures into its row and gives a [`Told`],
//! which carries the book's posts. A [`Viewer`] reads the totals from any thread by [`Viewer::glance`],
//! and takes a `Told` in by [`Viewer::learn`]. None of these calls takes a lock or memory: the totals
//! are in a table of a version and the figures, which changes in single steps. Only
//! [`Tables::make`] and [`SiteBook::open`] take memory.
//!
//! The crate's contract: contracts see a book as the list of its posts, and a viewer and a `Told` as
//! the posts that they know. Rows and totals are those of the definition of posts. A glance gives the
//! totals after some first posts of the book, which include all that its viewer saw or learnt before;
//! the viewer knows these posts from then on. So a viewer never goes back, and never sees totals that
//! were not those after some post. No contract says how many posts it lags behind.
//!
//! The type parameter of the three types names the tables of one desk ([`Naming`]).
//!
//! ```text
//! let mut tables = Tables::make(alloc, 1)?;
//! let (mut book, mut viewers) = SiteBook::open(alloc, &mut tables, 0, &[limits], 1)?;
//! let told = book.post(0, figures);         // the row's figures in place of its old ones
//! viewers[0].glance();                      // the totals: with no post under way, `figures`
//! viewers[0].learn(told);                   // the viewer knows that post, whatever it saw before
//! ```
#![tactic(auto)]

mod book;
mod naming;
mod rounds;
mod row;
mod steps;
mod sums;
mod table;
mod tables;
mod told;
mod viewer;

pub use book::SiteBook;
pub use naming::Naming;
pub use tables::Tables;
pub use told::Told;
pub use viewer::Viewer;
