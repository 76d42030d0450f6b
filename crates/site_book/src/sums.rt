ghost use Rattle.std.specs.Prelude.{◌≡◌, ◌<◌, ◌≤◌, ◌^◌};
ghost use Rattle.ledger_model.specs.Board.{plus_figures};
ghost use Rattle.site_book.specs.Sums.{AreAtMost, AreWords};

use ledger_model::{FIGURES, Figures};

// The totals with a row's new figures in place of its old ones.
pub(crate) fn replaced(totals: &Figures, old: &Figures, new: &Figures) -> Figures
    requires words { AreWords (plus_figures totals.now new.now) }
    requires old { AreAtMost old.now (plus_figures totals.now new.now) }
    ensures { plus_figures result old.now ≡ plus_figures totals.now new.now }
{
    let mut sums = totals.to_array();
    let (was, is) = (old.to_array(), new.to_array());
    for k in 0..FIGURES {
        sums[k] = sums[k] + is[k] - was[k];
    }
    Figures::from_array(sums)
}
