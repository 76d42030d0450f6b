ghost use Rattle.std.specs.Prelude.{◌≡◌, ◌≤◌, ◌++◌, OnOk, decimal};
ghost use Rattle.energy_flow.specs.Work.{counted};

use crate::Work;
use itoa::Buffer;
use std::alloc::AllocError;
use std::marker::Model;

/// What an energy register showed, in milliwatt-hours. Two levels can be compared for equality. Only
/// [`difference`](crate::difference) and [`Level::write`] look into them, and both count it.
#[derive(Clone, Copy, PartialEq, Eq)]
pub struct Level {
    pub(crate) mwh: u64,
}

impl Model for Level {
    ghost use Rattle.std.specs.Prelude.{ℕ};

    ghost Value = { ℕ };

    ghost view = { λ l. l.mwh };

    ghost inverse = { λ n. record { mwh = n } };
}

impl Level {
    /// The level of this many milliwatt-hours.
    pub fn new(mwh: u64) -> Self
        ensures { result ≡ mwh }
    {
        Level { mwh }
    }

    /// Appends what the register showed, in milliwatt-hours, as decimal digits. Counts one look in `work`. After the
    /// error, that the allocator refused memory, the look is counted, too.
    pub fn write(self, text: &mut Vec<u8>, work: &mut Work) -> Result<(), AllocError>
        ensures text { OnOk result (text.new.items ≡ text.old.items ++ decimal self) }
        ensures work { work.new ≡ counted work.old 1 }
        ensures grows { work.old ≤ work.new }
    {
        work.add_one();
        text.extend_from_slice(Buffer::new().format(self.mwh).as_bytes())
    }
}

#[cfg(test)]
mod tests {
    use super::*;

    #[test]
    fn level_is_written_and_counted(rt: HostRuntime) -> Result<(), AllocError> {
        let mut work = Work::open(&rt);
        let mut text = Vec::from_slice(rt.alloc(), b"at ")?;
        Level::new(1_600_000).write(&mut text, &mut work)?;
        assert!(rt; text.as_slice() == b"at 1600000".as_slice());
        assert_eq!(rt; work.count(), 1);
        Ok(())
    }
}
