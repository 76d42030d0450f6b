ghost use Rattle.std.specs.Prelude.{◌≡◌, ◌<◌, ◌≤◌, ◌*◌, ◌^◌, ◌↔◌, IsTrue};
ghost use Rattle.energy_flow.{specs.Flow.{no_energy, plus, minus, net, difference_of, share_of, CanPlus, CanMinus}, specs.Work.counted};

use crate::{Level, Work};
use std::marker::Model;

/// Energy that a register rose by and fell by, in milliwatt-hours, each below 2^64.
#[derive(Clone, Copy, PartialEq, Eq)]
pub struct Flow {
    up: u64,
    down: u64,
}

impl Model for Flow {
    ghost use Rattle.energy_flow.specs.Flow.{Energy};

    ghost Value = { Energy };

    ghost view = { λ f. record { up = f.up; down = f.down } };

    ghost inverse = { λ e. record { up = e.up; down = e.down } };
}

impl Flow {
    /// No energy.
    pub fn zero() -> Self
        ensures { result ≡ no_energy }
    {
        Flow { up: 0, down: 0 }
    }

    // The rise or the fall from one number of milliwatt-hours to another.
    fn between(earlier: u64, later: u64) -> Self
        ensures { result ≡ difference_of earlier later }
    {
        Flow {
            up: later.saturating_sub(earlier),
            down: earlier.saturating_sub(later),
        }
    }

    /// The rises, in milliwatt-hours.
    pub fn up(self) -> u64
        ensures { result ≡ self.up }
    {
        self.up
    }

    /// The falls, in milliwatt-hours.
    pub fn down(self) -> u64
        ensures { result ≡ self.down }
    {
        self.down
    }

    /// Up less down, in milliwatt-hours; negative if the register fell by more than it rose.
    pub fn net(self) -> i128
        ensures { result ≡ net self }
    {
        self.up as i128 - self.down as i128
    }

    /// Returns whether `plus` stays within 64 bits.
    pub fn can_plus(self, other: Flow) -> bool
        ensures { IsTrue result ↔ CanPlus self other }
    {
        other.up <= u64::MAX - self.up && other.down <= u64::MAX - self.down
    }

    /// The sum of both, field by field. `can_plus` tests the condition.
    pub fn plus(self, other: Flow) -> Self
        requires { CanPlus self other }
        ensures { result ≡ plus self other }
    {
        Flow {
            up: self.up + other.up,
            down: self.down + other.down,
        }
    }

    /// Returns whether `other` can be subtracted from this flow.
    pub fn can_minus(self, other: Flow) -> bool
        ensures { IsTrue result ↔ CanMinus self other }
    {
        other.up <= self.up && other.down <= self.down
    }

    /// This flow less the other, field by field. `can_minus` tests the condition.
    pub fn minus(self, other: Flow) -> Self
        requires { CanMinus self other }
        ensures { result ≡ minus self other }
    {
        Flow {
            up: self.up - other.up,
            down: self.down - other.down,
        }
    }

    /// `part` of `whole` equal shares of this flow, field by field and rounded down. Before it is divided, each field
    /// times `part` stays below 2^64.
    pub fn share(self, part: u64, whole: u64) -> Self
        requires within { part ≤ whole }
        requires some { 0 < whole }
        requires up { self.up * part < 2 ^ 64 }
        requires down { self.down * part < 2 ^ 64 }
        ensures { result ≡ share_of self part whole }
    {
        Flow {
            up: self.up * part / whole,
            down: self.down * part / whole,
        }
    }
}

/// The rise or the fall from the earlier to the later of two levels of one register. Counts one look in
/// `work`.
pub fn difference(earlier: Level, later: Level, work: &mut Work) -> Flow
    ensures flow { result ≡ difference_of earlier later }
    ensures work { work.new ≡ counted work.old 1 }
    ensures grows { work.old ≤ work.new }
{
    work.add_one();
    Flow::between(earlier.mwh, later.mwh)
}

#[cfg(test)]
mod tests {
    use super::*;

    #[test]
    fn rises_and_falls_are_kept_apart(rt: HostRuntime) {
        let mut work = Work::open(&rt);
        let rise = difference(Level::new(1_000_000), Level::new(1_600_000), &mut work);
        let fall = difference(Level::new(1_600_000), Level::new(100_000), &mut work);
        assert_eq!(rt; (rise.up(), rise.down(), rise.net()), (600_000, 0, 600_000));
        assert_eq!(rt;
            (fall.up(), fall.down(), fall.net()),
            (0, 1_500_000, -1_500_000)
        );
        assert_eq!(rt; work.count(), 2);
        assert!(rt; rise.can_plus(fall) && !rise.can_minus(fall));
        assert!(rt; rise.plus(fall).minus(fall) == rise);
        assert!(rt; rise.share(1, 3).up() == 200_000 && fall.share(2, 3).down() == 1_000_000);
        assert_eq!(rt; Flow::zero().net(), 0);
    }
}
