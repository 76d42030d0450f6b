// What the definitions of this crate mean together, each as the contract of a call without a body.
ghost use Rattle.board_report.specs.Plans.{PlansFit};

/// The boards of one plan can be added up: if the limits allow its stations no more than 1,048,576
/// readings in all, the sums of each period stay below 2^64.
pub fn plans_fit()
    ensures { PlansFit }
{}
