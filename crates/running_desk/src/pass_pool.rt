//! The passes that sessions left.
ghost use Rattle.std.{specs.Prelude.{◌≡◌, ◌==◌}, specs.List.position};
ghost use Rattle.running_desk.specs.Pooled.{IsLaid, IsReserved, IsTaken};

use site_desk::Pass;
use std::alloc::AllocError;
use std::marker::Model;

/// Keeps the passes of ended sessions for later sessions of the same stations. Contracts see the passes in it, and how
/// many more have room.
#[derive(Drop)]
pub struct PassPool {
    passes: Vec<Pass>,
    // How many passes were given out, in the pool or not. There is room for them all.
    given: usize,
}

impl Model for PassPool {
    ghost use Rattle.std.specs.Prelude.{◌≤◌, ◌-◌, vec_capacity, vec_len};
    ghost use Rattle.running_desk.specs.Pooled.{Pooled};

    ghost Value = { Pooled };

    ghost view = { λ s. record { passes = s.passes.items; room = s.given - vec_len s.passes } };

    ghost invariant = { λ s. (vec_len s.passes ≤ s.given) × (s.given ≤ vec_capacity s.passes) };
}

impl PassPool {
    /// A pool with the passes that were given out.
    pub fn of(passes: Vec<Pass>) -> PassPool
        ensures passes { result.passes ≡ passes.items }
        ensures room { result.room ≡ 0 }
    {
        let given = passes.len();
        PassPool { passes, given }
    }

    /// Makes room for one more pass. If there is no memory for it, nothing changes.
    pub fn reserve(&mut self) -> Result<(), AllocError>
        ensures { IsReserved self.old result self.new }
    {
        let Some(wanted) = self.given.checked_add(1) else {
            return Err(AllocError);
        };
        self.passes.reserve(wanted - self.passes.len())?;
        self.given = wanted;
        Ok(())
    }

    /// Takes the first pass of this station out of the pool.
    pub fn take(&mut self, station: u16) -> Option<Pass>
        ensures { IsTaken (position (λ p. p.station == station) self.old.passes) self.old result self.new }
    {
        match self.place_of(station) {
            Some(place) => Some(self.passes.remove(place)),
            None => None,
        }
    }

    // The place of the first pass of this station.
    fn place_of(&self, station: u16) -> Option<usize>
        ensures { result ≡ position (λ p. p.station == station) self.now.passes }
    {
        self.passes
            .as_slice()
            .iter()
            .position(|pass| pass.station() == station)
    }

    /// Puts a pass behind the others. The error gives it back if there is no room for it.
    pub fn lay(&mut self, pass: Pass) -> Result<(), Pass>
        ensures { IsLaid pass self.old result self.new }
    {
        if self.passes.len() >= self.given {
            return Err(pass);
        }
        match self.passes.push(pass) {
            Ok(()) => Ok(()),
            Err(refused) => Err(refused.value),
        }
    }

    /// All passes in the pool.
    pub fn into_passes(self) -> Vec<Pass>
        ensures { result.items ≡ self.passes }
    {
        self.passes
    }
}
