use energy_flow::Flow;
use ledger_model::{ByDirection, Quarter};

/// A settlement period with the number of its pairs in both directions together, and the sums of their
/// differences in each. In a table the number is above 0.
#[derive(Clone, Copy)]
pub struct QuarterRow {
    /// The period of the later reading of each pair.
    pub quarter: Quarter,
    /// How many pairs there are.
    pub pairs: u32,
    /// The rises and the falls of each register, in milliwatt-hours.
    pub energy: ByDirection<Flow>,
}
