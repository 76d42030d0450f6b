//! The attendant of a session.
use crate::ending::Why;

/// Watches over a session: it may end the session, and says whether a read that gave up waiting
/// goes on.
pub trait Attendant {
    ghost use Rattle.std.specs.Prelude.{◌≢◌, IfSome};
    ghost use Rattle.station_link.specs.declared.ending.Why.{Why};

    /// The reasons for which it may end the session.
    ghost dismisses: { Self → Why → Type 0 };

    /// Why the session is no longer wanted, if so. The session asks before each message, and each time that
    /// a read of the stream gives up waiting (`WouldBlock`).
    fn dismissal(&self) -> Option<Why>
        ensures known { IfSome result (dismisses self.now) }
        ensures unspent { IfSome result (λ why. why ≢ Why.MessagesSpent) };

    /// Returns whether to try a read again that gave up waiting. If not, the session ends.
    fn is_patient(&self) -> bool;

    /// The reason in the close frame of a session that ended for this cause.
    fn reason(&self, why: Why) -> &'static str;

    /// The session is over, except for its close frame and the reads after it.
    fn leaves(&self);
}

/// Nobody attends: the session ends by itself, also if a read gives up waiting, and its close frame has no reason.
#[derive(Clone, Copy)]
pub struct Nobody;

impl Attendant for Nobody {
    ghost dismisses = { λ _ _. ⊥ };

    fn dismissal(&self) -> Option<Why> {
        None
    }

    fn is_patient(&self) -> bool {
        false
    }

    fn reason(&self, _why: Why) -> &'static str {
        ""
    }

    fn leaves(&self) {}
}
