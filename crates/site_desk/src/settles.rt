ghost use Rattle.site_desk.specs.Submit.{Submitted};

use crate::cell::StationCell;
use crate::pass::Pass;
use crate::roster::Located;
use crate::submit::{can_judge, try_settle};
use ledger_model::{Answer, Command, Refusal};
use site_book::{Naming, SiteBook, Told};
use std::sync::{Mutex, Wait};

/// How a command is taken once a desk holds the station's lock ([`Desk::submit_by`](crate::Desk::submit_by)).
/// With the answer it may give a receipt (N). `gives` is what the receipt says of the command on the station
/// of this number and place, and of the book's `Told`.
pub trait Settles<J: Naming, C, N> {
    ghost use Rattle.std.specs.Prelude.{ℕ, Option};
    ghost use Rattle.ledger_model.{specs.declared.answer.Answer.Answer, specs.declared.command.Command.Command};
    ghost use Rattle.site_book.specs.Book.{Known};
    ghost use Rattle.site_desk.specs.declared.roster.StationPlace.{StationPlace};

    ghost asks: { Self → ℕ → Command → Type 0 };

    ghost gives: { Self → ℕ → StationPlace → Command → Answer → Option Known → Option N → Type 0 };

    /// Takes a command of a pass at the value behind the lock of the station of this number, and returns the
    /// answer as [`Desk::submit`](crate::Desk::submit) does. It takes the lock of the site's book if it
    /// needs it.
    ///
    /// Condition: what this way asks of a command on this station.
    fn settle<R: Wait>(
        &self,
        rt: &R,
        held: &mut C,
        book: &Mutex<SiteBook<J>>,
        at: Located<'_>,
        pass: &mut Pass,
        command: Command,
    ) -> (Answer, Option<Told<J>>, Option<N>)
        requires { asks self.now at.number command }
        ensures submitted { Submitted at.entry.place.now pass.old command result.0 pass.new result.1 }
        ensures given { gives self.now at.entry.number at.entry.place.now command result.0 result.1 result.2 };
}

// The way of a desk without a journal: at the cell itself, without a receipt.
pub(crate) struct AtCell;

impl<J: Naming> Settles<J, StationCell, ()> for AtCell {
    ghost asks = { λ _ _ _. Unit {0} };

    ghost gives = { λ _ _ _ _ _ _ _. Unit {0} };

    fn settle<R: Wait>(
        &self,
        rt: &R,
        held: &mut StationCell,
        book: &Mutex<SiteBook<J>>,
        at: Located<'_>,
        pass: &mut Pass,
        command: Command,
    ) -> (Answer, Option<Told<J>>, Option<()>) {
        if can_judge(held, at.number, at.place, pass) {
            let (answer, told) = try_settle(rt, held, book, at, pass, command);
            (answer, told, None)
        } else {
            (Answer::Refused(Refusal::ChangesExhausted), None, None)
        }
    }
}
