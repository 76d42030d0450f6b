use script_ledgers::Draft;
use site_desk::{Pass, StationCell};

/// The result of a restored script.
#[derive(Drop)]
pub struct Restored {
    /// The plan that the script declares, which has no fault, and the last moment that it gave.
    pub draft: Draft,
    /// The cell of each station, in the plan's order, with the content that the script leads to.
    pub cells: Vec<StationCell>,
    /// For each station, in the plan's order, the one pass of its cell; it made all the script's changes.
    pub passes: Vec<Pass>,
    /// Whether a line is lost: it was left out, and does not end as a line that a kill cut, with `#` or with the first
    /// line of the next run.
    pub has_lost: bool,
}
