ghost use Rattle.std.specs.Prelude.{◌≡◌, ◌<◌, [], length, IfSome, IfNone};
ghost use Rattle.ledger_model.specs.BoardLaws.{AreRising};

use gap_list::{Gaps, NumberWalk, missing_count};
use std::marker::Model;
use std::process::Abort;
use std::test::Fail;

// A walk over a slice; a place is the rest of the slice.
#[derive(Drop)]
struct SliceWalk<'a> {
    numbers: &'a [u32],
}

impl<'a> Model for SliceWalk<'a> {
    ghost use Rattle.std.specs.Prelude.{List, ℕ};
    ghost use Rattle.ledger_model.specs.BoardLaws.{AreRising};

    ghost Value = { List ℕ };

    ghost view = { λ w. w.numbers.now };

    ghost invariant = { λ w. AreRising w.numbers.now };
}

impl<'a> NumberWalk for SliceWalk<'a> {
    ghost use Rattle.std.specs.Prelude.{drop};

    type Place = &'a [u32];

    ghost numbers = { λ w. w };

    ghost ahead = { λ w place. place.now };

    fn start(&self) -> Option<&'a [u32]> {
        some_left(self.numbers)
    }

    fn number(&self, place: &'a [u32]) -> u32 {
        place[0]
    }

    fn next(&self, place: &'a [u32]) -> Option<&'a [u32]> {
        some_left(&place[1..])
    }
}

// The numbers, unless there are none.
fn some_left(numbers: &[u32]) -> Option<&[u32]>
    ensures some { IfSome result (λ left. left.now ≡ numbers.now) }
    ensures held { IfSome result (λ left. 0 < length left.now) }
    ensures none { IfNone result (numbers.now ≡ []) }
{
    if numbers.is_empty() {
        None
    } else {
        Some(numbers)
    }
}

// Whether these are the gaps of a walk.
fn are_gaps(walk: &SliceWalk<'_>, gaps: &[(u32, u32)]) -> bool {
    let mut left = gaps;
    for gap in Gaps::over(walk) {
        match left {
            [first, rest @ ..] if *first == gap => left = rest,
            _ => return false,
        }
    }
    left.is_empty()
}

// Compares the gaps of these numbers, and how many are missing, with what they should be.
fn expect_gaps(rt: &impl Abort, label: &str, numbers: &[u32], gaps: &[(u32, u32)], missing: u64)
    requires { AreRising numbers.now }
{
    let walk = SliceWalk { numbers };
    assert!(rt; are_gaps(&walk, gaps), "{label}: gaps");
    assert!(rt;
        missing_count(&walk) == missing,
        "{label}: how many are missing"
    );
}

#[test]
fn gaps_of_short_walks(rt: HostRuntime) -> Result<(), Fail> {
    expect_gaps(&rt, "no number", &[], &[], 0);
    expect_gaps(&rt, "one number", &[5], &[], 0);
    expect_gaps(&rt, "no gap", &[3, 4, 5], &[], 0);
    expect_gaps(&rt, "two gaps, apart", &[3, 4, 7, 9], &[(5, 6), (8, 8)], 3);
    expect_gaps(
        &rt,
        "a gap on each side of a number",
        &[0, 2, 4],
        &[(1, 1), (3, 3)],
        2,
    );
    Ok(())
}

#[test]
fn widest_gap(rt: HostRuntime) -> Result<(), Fail> {
    let last = u32::MAX >> 1;
    expect_gaps(
        &rt,
        "all sequence numbers",
        &[0, 2_147_483_647],
        &[(1, last - 1)],
        2_147_483_646,
    );
    expect_gaps(
        &rt,
        "all numbers",
        &[0, u32::MAX],
        &[(1, u32::MAX - 1)],
        4_294_967_294,
    );
    Ok(())
}
