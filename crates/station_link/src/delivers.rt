//! The taker of a session's events.
use ledger_model::{Answer, Command, Event, Key};
use site_book::Naming;
use site_desk::{Desk, Gate, Pass};
use std::alloc::{AllocError, Global};
use std::sync::Wait;
use std::time::Clock;

/// A station's text, and the delivery that it asks for.
#[derive(Drop)]
pub struct Ordered<'a> {
    /// The text.
    pub text: &'a str,
    /// The key of the event.
    pub key: Key,
    /// The event.
    pub event: Event,
}

/// Takes the events that the texts of sessions ask to deliver: a desk, or one with a journal. With an answer it may
/// return what it saw of its journal then; `gives` is what that says of the command on the station of this number and
/// place.
pub trait Delivers {
    /// The naming of its sites' tables.
    type Names: Naming + Send + Sync;

    /// What it returns with an answer.
    type Seen: Drop + Send;

    ghost use Rattle.std.specs.Prelude.{◌≡◌, ℕ, List, Option, IfOk, OnErr};
    ghost use Rattle.ledger_model.{specs.declared.answer.Answer.Answer, specs.declared.command.Command.Command};
    ghost use Rattle.site_desk.specs.declared.roster.StationPlace.{StationPlace};
    ghost use Rattle.station_link.specs.Answer.{Asks, IsGivenAt, IsSubmitted};

    ghost stations: { Self → List StationPlace };

    ghost gives: { ℕ → StationPlace → Command → Answer → Option Self.Seen → Type 0 };

    /// Takes the delivery that a text asks for, with a pass, and returns the answer as
    /// [`Desk::submit`](site_desk::Desk::submit) does. If there is no memory, nothing changes.
    ///
    /// Condition: the text asks for this delivery.
    fn deliver<G: Gate, R: Wait + Clock>(
        &self,
        rt: &R,
        alloc: Global,
        pass: &mut Pass,
        ordered: Ordered<'_>,
        gate: &G,
    ) -> Result<(Answer, Option<Self::Seen>), AllocError>
        requires { Asks ordered.text.now ordered.key ordered.event }
        ensures submitted { IfOk result (λ r. IsSubmitted (stations self.now) pass.old (Command.Deliver ordered.entry.key ordered.entry.event) r.0 pass.new) }
        ensures given { IfOk result (λ r. IsGivenAt gives (stations self.now) pass.old.station (Command.Deliver ordered.entry.key ordered.entry.event) r.0 r.1) }
        ensures same { OnErr result (pass.new ≡ pass.old) };
}

impl<J: Naming + Send + Sync> Delivers for Desk<J> {
    type Names = J;

    type Seen = ();

    ghost stations = { λ d. d.stations };

    ghost gives = { λ _ _ _ _ _. Unit {0} };

    fn deliver<G: Gate, R: Wait + Clock>(
        &self,
        rt: &R,
        _alloc: Global,
        pass: &mut Pass,
        ordered: Ordered<'_>,
        gate: &G,
    ) -> Result<(Answer, Option<()>), AllocError> {
        let Ordered {
            text: _,
            key,
            event,
        } = ordered;
        let (answer, _told) = self.submit(rt, pass, Command::Deliver(key, event), gate);
        Ok((answer, None))
    }
}
