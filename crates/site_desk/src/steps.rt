ghost use Rattle.std.specs.Prelude.{◌≡◌, ◌↔◌, ◌<◌, ◌^◌, length, IsTrue};
ghost use Rattle.site_desk.{specs.Cell.{Knows, held}, specs.Settle.{Holds, IsSettled, Tied}};
ghost use Rattle.station_ledger.specs.Judged.{IsJudged};

use crate::cell::StationCell;
use crate::pass::Tally;
use energy_flow::Work;
use ledger_model::{Answer, Command, Figures};
use site_book::{Naming, SiteBook, Told};
use station_ledger::Judgement;

/// Takes a judged command of the pass of this tally at its station and returns the answer. If it is accepted, the
/// station's new figures are posted in its row, and a `Told` of the book comes with the answer; any
/// other answer changes nothing. It takes no memory. `work` counts the looks at levels that the command takes.
///
/// Conditions: the cell knows the tally ([`StationCell::knows`] tests it), the book holds the cell's row
/// ([`SiteBook::holds`] tests it) and can post ([`SiteBook::can_post`] tests it), the row is tied ([`tied`]
/// tests it), and this is the judgement of the command by the cell's ledger as it is now
/// ([`StationLedger::judgement`](station_ledger::StationLedger::judgement) gives it).
pub fn settle<J: Naming>(
    cell: &mut StationCell,
    book: &mut SiteBook<J>,
    tally: &mut Tally,
    work: &mut Work,
    command: Command,
    judgement: Judgement,
) -> (Answer, Option<Told<J>>)
    requires known { Knows cell.old tally.old }
    requires held { Holds cell.old book.old }
    requires room { length book.old.posts < 2 ^ 62 }
    requires tied { Tied cell.old book.old }
    requires judged { IsJudged cell.old.limits cell.old.content command judgement.answer }
    ensures { IsSettled cell.old book.old (held tally.old work.old) command result.0 result.1 cell.new book.new (held tally.new work.new) }
{
    let answer = cell.change(tally, work, command, judgement);
    match answer {
        Answer::Accepted(_) => {
            let told = book.post(cell.row(), cell.ledger().figures());
            (answer, Some(told))
        }
        Answer::Repeat => (Answer::Repeat, None),
        Answer::Refused(why) => (Answer::Refused(why), None),
    }
}

/// Returns whether the cell's row shows the figures of the cell's ledger.
///
/// Condition: the book holds the cell's row ([`SiteBook::holds`] tests it).
pub fn tied<J: Naming>(cell: &StationCell, book: &SiteBook<J>) -> bool
    requires { Holds cell.now book.now }
    ensures { IsTrue result ↔ Tied cell.now book.now }
{
    are_same(&book.row(cell.row()), &cell.ledger().figures())
}

/// Returns whether both are the same figures.
pub fn are_same(figures: &Figures, others: &Figures) -> bool
    ensures { IsTrue result ↔ (figures.now ≡ others.now) }
{
    figures == others
}
