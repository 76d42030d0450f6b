//! The stations and sites of a running desk: ledgers and books under locks, tied rows, and the
//! close.
//!
//! A [`StationCell`] is what stands behind a station's lock: its number and its site's, its row in that site's book, its
//! ledger, and how many changes each [`Pass`] made that it gave out. A pass is its [`Tally`], which counts the same, and
//! the count of the looks at levels that its commands took. [`settle`] takes a command at a tally with the
//! judgement of the cell's ledger and a lent count of looks; if it is accepted, the station's new figures are posted in the book, in one step, and
//! the row stays tied to the ledger. As many accepted commands as its passes made lead from the empty content to a
//! cell's content, under its limits.
//!
//! A [`Plan`] has sites and stations. [`Parts::open`] makes a cell for each station and a book for each site; the
//! book's rows show the stations' figures. A [`Desk`] has the same parts, each cell and each book behind a lock
//! of its own, so stations take commands at the same time. [`Desk::submit`] judges a command under the station's lock,
//! and settles an accepted one under its site's lock too. Meanwhile viewers glance at the totals and wait for nobody.
//! [`Desk::close`] compares all that was behind the locks and gives up the locks: a [`Closed`]. An operator reads a
//! running desk by [`Desk::station_totals`] and [`Desk::site_boards`]; these boards are of one moment. Only `open`,
//! [`Desk::station_board`] and `site_boards` take memory. The boards are lent a count of looks, which a site that does
//! not settle evenly leaves as it is.
//!
//! A desk may keep more than a cell behind a station's lock, as one with a journal does: any type that [`HasCell`]
//! ([`Desk::over`], [`Desk::dismantle`]). It then takes commands in a way of its own that [`Settles`]
//! ([`Desk::submit_by`]; its parts are [`can_judge`] and [`settle_at`]). If a change that was already written can't be
//! settled, the cell leaves service ([`StationCell::retire`]).
//!
//! The crate's contract: the answer of [`Desk::submit`] is the step's answer at some content that accepted commands
//! lead to, since nobody knows beforehand what is behind a lock. A command is accepted only if all that `settle` asks
//! was found under both locks. If `close` succeeds, all counts agree, all rows are tied, all totals are sums over
//! stations, and what each viewer knew begins its site's posts. Only tests show that a run settles commands at all, and
//! does so on the latest content.
//!
//! ```text
//! let (desk, viewers) = Desk::open(alloc, Tables::make(alloc, sites)?, &plan)?;
//! let mut pass = desk.enlist(rt, &name)?;
//! desk.submit(rt, &mut pass, Command::Void(key), &NoGate);      // (Accepted(1), Some(told))
//! let closed = desk.close(passes, viewers)?;                    // no lock is left
//! closed.row(0) == closed.ledger(0).figures()
//! ```
#![tactic(auto)]

mod cell;
mod checks;
mod closed;
mod desk;
mod fault;
mod gate;
mod has_cell;
mod locks;
mod notes;
mod operator;
mod parts;
mod pass;
mod plan;
mod roster;
mod settles;
mod steps;
mod submit;

pub use cell::{MAX_PASSES, StationCell, enlist_cell};
pub use closed::{CloseRefused, Closed};
pub use desk::Desk;
pub use fault::{BoardFault, CloseFault, DeskFault, EnlistFault, TooManyPasses};
pub use gate::{Gate, NoGate};
pub use has_cell::HasCell;
pub use notes::Notes;
pub use parts::Parts;
pub use pass::{Pass, Tally};
pub use plan::{MAX_VIEWERS, Plan, SitePlan, StationPlan};
pub use roster::{Located, StationPlace};
pub use settles::Settles;
pub use steps::{are_same, settle, tied};
pub use submit::{can_judge, settle_at};
