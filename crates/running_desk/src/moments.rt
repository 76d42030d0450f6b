use ledger_model::Moment;
use station_link::MomentSource;
use std::time::Clock;

/// The moments of the system's clock.
#[derive(Drop)]
pub struct SystemMoments<'a, R: Clock> {
    /// The clock.
    pub rt: &'a R,
}

impl<'a, R: Clock> MomentSource for SystemMoments<'a, R> {
    // (std states nothing of what its clock gives)
    ghost reads = { λ _ _ _. Unit {0} };

    fn now(&mut self) -> Option<Moment> {
        let since = self.rt.since_1970().ok()?;
        let nanos = u64::try_from(since.as_nanos()).ok()?;
        Moment::new(nanos)
    }
}
