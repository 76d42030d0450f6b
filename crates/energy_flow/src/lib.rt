//! Energy as flows between register levels, and the count of looks at levels.
//!
//! An energy register shows only levels. Energy is the difference of two of them: a [`Flow`], with
//! rises and falls added up separately, in milliwatt-hours. Only [`difference`] and [`Level::write`] look into a
//! [`Level`]: the one gives a flow, the other appends digits to a text. Each counts itself in the [`Work`] that its
//! caller lends it. Every flow but zero is made of flows that `difference` gave: by [`Flow::plus`], [`Flow::minus`] and
//! [`Flow::share`]. So a function that is lent no `Work` looks at no level, and gives no energy that was not counted
//! before. What remains without a count is whether two levels are the same.
//!
//! The crate's contract: `difference` gives the rise and the fall, and counts one; `write` appends the decimal digits,
//! and counts one; [`Flow::plus`], [`Flow::minus`] and [`Flow::share`] go field by field; [`Flow::net`] is up less down.
//!
//! ```text
//! let flow = difference(Level::new(1_000), Level::new(1_600), &mut work);
//! // flow.up() is 600, flow.down() is 0, and work.count() is one more than before
//! ```
#![tactic(auto)]

mod flow;
mod level;
mod work;

pub use flow::{Flow, difference};
pub use level::Level;
pub use work::Work;
