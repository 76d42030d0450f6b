ghost use Rattle.std.{specs.Prelude.{◌≡◌, List, ℕ}, specs.Iterator.{YieldsFirst, item_count}};
ghost use Rattle.ledger_model.{specs.BoardLaws.AreGaps, specs.Gaps.gaps};

use crate::NumberWalk;
use std::marker::Model;

/// The gaps of a walk that are still to come: each with its first and its last missing number, in
/// rising order.
#[derive(Drop)]
pub struct Gaps<'a, W: NumberWalk> {
    walk: &'a W,
    place: Option<W::Place>,
}

impl<'a, W: NumberWalk> Model for Gaps<'a, W> {
    ghost use Rattle.std.specs.Prelude.{List};
    ghost use Rattle.ledger_model.specs.Gaps.{Gap, gaps};
    ghost use Rattle.gap_list.specs.Walk.{left, StandsAt};

    ghost Value = { List Gap };

    ghost view = { λ g. gaps (left W.ahead g.walk.now g.place) };

    ghost invariant = { λ g. StandsAt W.ahead g.walk.now g.place };
}

impl<'a, W: NumberWalk> Gaps<'a, W> {
    /// The gaps of the walk: the maximal ranges of the numbers missing between its own, in rising
    /// order.
    pub fn over(walk: &'a W) -> Self
        ensures gaps { result ≡ gaps (W.numbers walk.now) }
        ensures missing { AreGaps (W.numbers walk.now) result }
    {
        let place = walk.start();
        Gaps { walk, place }
    }
}

impl<'a, W: NumberWalk> Iterator for Gaps<'a, W> {
    type Item = (u32, u32);

    ghost next_gives = { YieldsFirst (λ s. s) };

    ghost remaining = { item_count (λ s. s) };

    fn next(&mut self) -> Option<(u32, u32)> {
        let mut here = self.place?;
        while let Some(after) = self.walk.next(here) {
            let (low, high) = (self.walk.number(here), self.walk.number(after));
            if high > 0 && low < high - 1 {
                self.place = Some(after);
                return Some((low + 1, high - 1));
            }
            here = after;
        }
        self.place = None;
        None
    }
}
