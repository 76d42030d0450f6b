ghost use Rattle.std.specs.Prelude.{◌≡◌, ◌<◌, length};
ghost use Rattle.ledger_model.{specs.BoardLaws.AreRising, specs.Gaps.missing};

use crate::NumberWalk;

/// How many numbers are in the walk's gaps, below 2^32.
pub fn missing_count<W: NumberWalk>(walk: &W) -> u64
    ensures { result ≡ missing (W.numbers walk.now) }
{
    match walk.start() {
        Some(first) => missing_after(walk, first),
        None => 0,
    }
}

// How many numbers are missing from a place on.
#[tactic(auto, using(crate::proofs::Steps::rising_on, crate::proofs::Steps::missing_on, crate::proofs::Steps::gaps_last))]
fn missing_after<W: NumberWalk>(walk: &W, first: W::Place) -> u64
    requires stands { 0 < length (W.ahead walk.now first) }
    requires rising { AreRising (W.ahead walk.now first) }
    ensures { result ≡ missing (W.ahead walk.now first) }
{
    let mut total: u64 = 0;
    let mut here = first;
    while let Some(after) = walk.next(here) {
        let (low, high) = (walk.number(here), walk.number(after));
        total += u64::from(high - low) - 1;
        here = after;
    }
    total
}
