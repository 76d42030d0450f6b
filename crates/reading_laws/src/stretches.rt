//! Laws of the runs that an event's readings form.
ghost use Rattle.std.specs.Prelude.{◌≡◌, Bool, List, length};
ghost use Rattle.ledger_model.{specs.InTime.runs, specs.ReadingOrder.Numbered};
ghost use Rattle.reading_laws.specs.Stretches.{AreMaximalStretches, Stretch};

/// The number of runs of readings that pass a test is the number of their longest stretches. Every list
/// of readings can be cut into such stretches, with readings that fail the test between them; and however
/// it is cut, there are as many stretches as runs.
pub fn runs_are_maximal_stretches()
    ensures counted { (own : Numbered → Bool) (xs front : List Numbered) (ss : List (Stretch Numbered)) → AreMaximalStretches own xs front ss → runs own xs ≡ length ss }
    ensures there { (own : Numbered → Bool) (xs : List Numbered) → (front : List Numbered) × (ss : List (Stretch Numbered)) × AreMaximalStretches own xs front ss }
{}
