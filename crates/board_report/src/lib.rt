//! The boards of sites, and their text.
//!
//! A desk has one list of stations and one of cells, with each station's cell in its place. The stations of a site are
//! those that name its number. [`site_text`] makes their boards, adds up their periods and writes the whole text of the
//! site's board. A replay uses it, and so does [`closed_board`], which makes the board of a site of a closed desk.
//! [`write_boards`] writes those of all its sites, and [`running_board`] makes the board of a site of a running desk.
//!
//! Below it, [`site_board`] puts the boards of a site's stations together under the site's name: it adds up their
//! energies period by period, and keeps the figures and the stations' boards as they are. [`write_board`] writes such a
//! [`SiteBoard`] as lines of plain text, for people and for programs. [`total_text`], [`energy_text`] and
//! [`export_text`] write only the figures or an energy, without memory; the total line of a board has the same text as
//! a live total.
//!
//! The crate's one contract: each text has exactly the bytes that a short definition gives for the values, one definition
//! for each kind of line; and a site's board has each of the site's stations once, in the plan's order, its board from
//! scratch from its cell's content, and shows each quarter that one of them shows, once and rising, with the sum over
//! them. Of a closed desk the totals are the sums over the site's stations. The quarters of a board are quarters of its
//! settlement period. A caller of `site_board` sees to it that all boards are by the site's periods, and that the sums of
//! each quarter stay below 2^64, which the boards of one plan always do ([`plans_fit`]).
//!
//! ```text
//! site_text(alloc, &plan, &cells, site, &name, book.totals())?
//!                               // board north period=900
//!                               // total events=2 voided=0 transactions=1 complete=0 ..
//!                               // period 2026-03-01T10:30:00Z up=600000 down=0 export_up=0 export_down=0
//!                               // station A
//!                               // ..
//!                               // end
//! energy_text(flow)             // energy up=600000 down=0
//! ```
#![tactic(auto)]

mod board;
mod boards;
mod closed;
mod fixed;
mod laws;
mod listing;
mod running;
mod sums;
mod write;

pub use board::{SiteBoard, site_board};
pub use boards::site_text;
pub use closed::{BoardsFault, closed_board, write_boards, write_out};
pub use fixed::{energy_text, export_text, total_text};
pub use laws::plans_fit;
pub use listing::{write_events, write_readings};
pub use running::{running_board, running_text};
pub use write::write_board;
