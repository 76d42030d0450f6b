//! Laws of differences that are shared by time.
ghost use Rattle.std.specs.Prelude.{◌≡◌, ◌<◌, ℕ, [], ◌∷◌};
ghost use Rattle.ledger_model.{specs.Energy.{Pair, difference, parts_of}, specs.Settling.closed_at};
ghost use Rattle.reading_laws.specs.EvenShares.{AreEvenShares, IsWithinDay, evenly};

/// By `even`, the parts of a difference that begin before a boundary add up to the share at that boundary, as if the
/// energy came evenly. If the later reading is not after the earlier one, or more than a day after it, the whole counts
/// in the period that the later moment closes.
pub fn even_shares()
    ensures shared { (length : ℕ) (p : Pair) → 0 < length → IsWithinDay p → AreEvenShares length p (parts_of (evenly length) p) }
    ensures whole { (length : ℕ) (p : Pair) → ¬ IsWithinDay p → parts_of (evenly length) p ≡ (closed_at length p.1.moment, difference p) ∷ [] }
{}
