ghost use Rattle.std.{specs.Prelude.{◌≡◌, ◌≤◌, ℕ, List}, specs.List.AllByRecursion};
ghost use Rattle.ledger_model.{specs.Energy.{Pair, energy_over, parts_of, parts_over}, specs.Parts.energy_of_parts, specs.Periods.Periods};

/// By each rule of settling the parts of differences add up to the differences. A rise has no part that falls, a fall
/// none that rises.
pub fn parts_add_up()
    ensures sums { (period : Periods) (ps : List Pair) → energy_of_parts (parts_over period ps) ≡ energy_over ps }
    ensures rises { (period : Periods) (p : Pair) → p.0.mwh ≤ p.1.mwh → AllByRecursion (λ t. t.1.down ≡ 0) (parts_of period p) }
    ensures falls { (period : Periods) (p : Pair) → p.1.mwh ≤ p.0.mwh → AllByRecursion (λ t. t.1.up ≡ 0) (parts_of period p) }
{}
