ghost use Rattle.station_link.specs.Moment.{IsPresent};

use ledger_model::Moment;

/// A source of the present moment, for sessions.
pub trait MomentSource {
    ghost use Rattle.std.specs.Prelude.{ℕ, Option};

    ghost reads: { Self → Option ℕ → Self → Type 0 };

    /// The present moment; `None` if it is unknown, which counts as 2000-01-01T00:00:00Z. `reads` is what a reading
    /// says of the source before it and after it.
    fn now(&mut self) -> Option<Moment>
        ensures { reads self.old result self.new };
}

/// The present moment, or the first of all if it is unknown: the source is read once.
pub fn present<C: MomentSource>(clock: &mut C) -> Moment
    ensures { IsPresent C.reads clock.old result clock.new }
{
    match clock.now() {
        Some(moment) => moment,
        None => Moment::first(),
    }
}
