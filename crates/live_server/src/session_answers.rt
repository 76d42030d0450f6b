//! What came with the answers of sessions.
use station_link::Delivers;
use std::alloc::Global;
use std::marker::Model;

// What came with the answers of sessions that have ended. Contracts see a list, in which each came with the answer to
// a station's text.
#[derive(Drop)]
pub(crate) struct SessionAnswers<D: Delivers> {
    seen: Vec<D::Seen>,
}

impl<D: Delivers> Model for SessionAnswers<D> {
    ghost use Rattle.std.specs.Prelude.{List, All};
    ghost use Rattle.station_link.specs.Attended.{IsAnswered};

    ghost Value = { List D.Seen };

    ghost view = { λ s. s.seen.items };

    ghost invariant = { λ s. All (IsAnswered D.gives) s.seen.items };
}

impl<D: Delivers> SessionAnswers<D> {
    ghost use Rattle.std.specs.Prelude.{◌≡◌, [], All};
    ghost use Rattle.station_link.specs.Attended.{IsAnswered};

    // No session has ended yet.
    pub(crate) fn new(alloc: Global) -> Self
        ensures { result ≡ [] }
    {
        SessionAnswers {
            seen: Vec::new(alloc),
        }
    }

    // Adds what came with the answers of one more session; if there is no memory for it, it is let go.
    pub(crate) fn add(&mut self, mut seen: Vec<D::Seen>)
        requires { All (IsAnswered D.gives) seen.items }
    {
        let _ = self.seen.append(&mut seen);
    }

    // What came with the answers of all sessions.
    pub(crate) fn into_seen(self) -> Vec<D::Seen>
        ensures { All (IsAnswered D.gives) result.items }
    {
        self.seen
    }
}
