ghost use Rattle.std.specs.Prelude.{◌≡◌, IsNone, IsTrue, IfOk, IfSome};
ghost use Rattle.ledger_model.{specs.Board.board_by, specs.Content.entries, specs.Figures.AreWithin};
ghost use Rattle.site_desk.{specs.Roster.StandsAt, specs.Submit.{CanJudge, CanSettle, IsBoardWithin, Submitted, TellsOf}, specs.Settle.cell_after};
ghost use Rattle.station_ledger.{specs.Judged.IsJudged, specs.Looks.looks_within, specs.Quarters.IsWork};

use crate::cell::StationCell;
use crate::pass::Pass;
use crate::roster::{Located, StationPlace};
use crate::steps::{settle, tied};
use energy_flow::Work;
use ledger_model::{Answer, Command, Refusal};
use site_book::{Naming, SiteBook, Told};
use station_ledger::{Judgement, StationBoard};
use std::alloc::{AllocError, Global};
use std::sync::{Mutex, Wait};

// Returns whether the cell is that of the station of this number and place.
pub(crate) fn stands_at(cell: &StationCell, number: usize, place: &StationPlace) -> bool
    ensures { IsTrue result → StandsAt number place.now cell.now }
{
    cell.station() as usize == number
        && cell.site() == place.site
        && cell.row() == place.row
        && *cell.ledger().limits() == place.limits
        && cell.ledger().period() == place.period
        && cell.ledger().order() == place.order
}

/// Returns whether a command of the pass may be judged at the cell of the station of this number
/// and place, whatever its site's book is.
pub fn can_judge(cell: &StationCell, number: usize, place: &StationPlace, pass: &Pass) -> bool
    ensures { IsTrue result → CanJudge number place.now cell.now pass.now }
{
    cell.is_in_service() && stands_at(cell, number, place) && cell.knows(&pass.tally)
}

// Returns whether a command of the pass may be settled, if it may be judged.
fn can_post<J: Naming>(
    cell: &StationCell,
    book: &SiteBook<J>,
    number: usize,
    place: &StationPlace,
    pass: &Pass,
) -> bool
    requires { CanJudge number place.now cell.now pass.now }
    ensures { IsTrue result → CanSettle number place.now cell.now book.now pass.now }
{
    book.site() == place.site
        && book.holds(cell.row(), cell.ledger().limits())
        && book.can_post()
        && tied(cell, book)
}

// Settles a judged command. Its clauses also say what that means to a caller that doesn't know what was behind the
// locks.
fn settle_locked<J: Naming>(
    cell: &mut StationCell,
    book: &mut SiteBook<J>,
    number: usize,
    place: &StationPlace,
    pass: &mut Pass,
    command: Command,
    judgement: Judgement,
) -> (Answer, Option<Told<J>>)
    requires can { CanSettle number place.now cell.old book.old pass.old }
    requires judged { IsJudged cell.old.limits cell.old.content command judgement.answer }
    ensures cell { cell.new ≡ cell_after cell.old pass.old command }
    ensures tells { TellsOf place.now cell.old.content command result.0 result.1 }
    ensures submitted { Submitted place.now pass.old command result.0 pass.new result.1 }
{
    settle(
        cell,
        book,
        &mut pass.tally,
        &mut pass.work,
        command,
        judgement,
    )
}

// Takes a command, which may be judged, at the value behind the station's lock, as `Desk::submit` does. One that the
// ledger does not accept changes nothing, so the call does not wait for the site's book then.
pub(crate) fn try_settle<J: Naming, R: Wait>(
    rt: &R,
    cell: &mut StationCell,
    book: &Mutex<SiteBook<J>>,
    at: Located<'_>,
    pass: &mut Pass,
    command: Command,
) -> (Answer, Option<Told<J>>)
    requires can { CanJudge at.number at.place.now cell.old pass.old }
    ensures { Submitted at.entry.place.now pass.old command result.0 pass.new result.1 }
{
    let judgement = cell.ledger().judgement(&command);
    match judgement.answer {
        Answer::Accepted(_) => {
            match settle_at(rt, cell, book, at, pass, command, judgement) {
                Some(settled) => settled,
                None => (Answer::Refused(Refusal::ChangesExhausted), None),
            }
        }
        Answer::Repeat => (Answer::Repeat, None),
        Answer::Refused(why) => (Answer::Refused(why), None),
    }
}

/// Settles a judged command ([`settle`]) under the lock of the site's book, for which it waits. If the book is not as
/// it should be, which no run with fewer than 2^62 accepted changes of a site meets, nothing changes, and there is no
/// answer.
///
/// Conditions: the command may be judged ([`can_judge`] tests it), and this is the judgement of the command by the
/// cell's ledger as it is now ([`StationLedger::judgement`](station_ledger::StationLedger::judgement) gives it).
pub fn settle_at<J: Naming, R: Wait>(
    rt: &R,
    cell: &mut StationCell,
    book: &Mutex<SiteBook<J>>,
    at: Located<'_>,
    pass: &mut Pass,
    command: Command,
    judgement: Judgement,
) -> Option<(Answer, Option<Told<J>>)>
    requires can { CanJudge at.number at.place.now cell.old pass.old }
    requires judged { IsJudged cell.old.limits cell.old.content command judgement.answer }
    ensures cell { IfSome result (λ _. cell.new ≡ cell_after cell.old pass.old command) }
    ensures tells { IfSome result (λ r. TellsOf at.entry.place.now cell.old.content command r.0 r.1) }
    ensures submitted { IfSome result (λ r. Submitted at.entry.place.now pass.old command r.0 pass.new r.1) }
    ensures unchanged { IsNone result → (cell.new ≡ cell.old) × (pass.new ≡ pass.old) }
{
    let mut book = book.lock(rt);
    if can_post(cell, &book, at.number, at.place, pass) {
        let settled = settle_locked(
            cell, &mut book, at.number, at.place, pass, command, judgement,
        );
        Some(settled)
    } else {
        None
    }
}

// The board of a cell's station.
pub(crate) fn board_of(
    cell: &StationCell,
    alloc: Global,
    work: &mut Work,
) -> Result<StationBoard, AllocError>
    ensures work { IsWork (looks_within cell.now.period.rule cell.now.limits.readings) work.old work.new }
    ensures board { IfOk result (IsBoardWithin cell.now.limits cell.now.period cell.now.order) }
    ensures shown { IfOk result (λ b. b ≡ board_by cell.now.order cell.now.period (entries cell.now.content)) }
    ensures within { IfOk result (λ b. AreWithin cell.now.limits b.figures) }
{
    cell.ledger().board(alloc, work)
}
