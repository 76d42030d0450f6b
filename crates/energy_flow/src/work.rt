ghost use Rattle.std.specs.Prelude.{◌≡◌, ◌≤◌};
ghost use Rattle.energy_flow.specs.Work.{counted};

use std::marker::Model;
use std::thread::Threads;

/// A count of looks at levels: differences that were evaluated and levels that were written. Its holder lends it to
/// the functions that look. It can't be copied, and a Rattle body opens one only where a runtime with threads is at
/// hand. Its layout is that of one 64-bit number, so a caller in C can lend a count to a library that has no such
/// runtime.
#[repr(C)]
#[derive(Drop)]
pub struct Work {
    count: u64,
}

impl Model for Work {
    ghost use Rattle.std.specs.Prelude.{ℕ};

    ghost Value = { ℕ };

    ghost view = { λ w. w.count };

    ghost inverse = { λ n. record { count = n } };
}

impl Work {
    /// A count of zero. The runtime is not used; asking for one keeps other code from opening a
    /// count.
    pub fn open<R: Threads>(_rt: &R) -> Self
        ensures { result ≡ 0 }
    {
        Work { count: 0 }
    }

    /// The looks so far; 2^64 - 1 means that many or more.
    pub fn count(&self) -> u64
        ensures { result ≡ self.now }
    {
        self.count
    }

    /// Counts one look more.
    pub(crate) fn add_one(&mut self)
        ensures count { self.new ≡ counted self.old 1 }
        ensures grows { self.old ≤ self.new }
    {
        self.count = self.count.saturating_add(1);
    }
}
