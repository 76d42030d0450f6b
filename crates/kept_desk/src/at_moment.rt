//! The note of cells with shares that is made while their locks are held: the moment of the
//! journal.
ghost use Rattle.std.{specs.Prelude.{◌≡◌, All, IfOk}, specs.Sync.Mutex.mutex_guard_value};
ghost use Rattle.kept_desk.specs.Kept.{IsLeftOwn};

use crate::cell::KeptCell;
use crate::journal::Journal;
use crate::moment::Moment;
use crate::opening::Opening;
use crate::way::hold;
use site_desk::Notes;
use std::alloc::{AllocError, Global};
use std::io::Write;
use std::sync::{Mutex, MutexGuard, Wait};

// The journal. Its lock is taken briefly while those of the cells are held.
#[derive(Drop)]
pub(crate) struct AtMoment<'a, K: Opening, W: Write + Drop> {
    pub(crate) log: &'a Mutex<Journal<K, W>>,
}

impl<'a, K: Opening, W: Write + Drop> Notes<KeptCell<K>, Moment<K>> for AtMoment<'a, K, W> {
    ghost use Rattle.kept_desk.specs.Kept.{IsLeftOwn};

    ghost notes = { λ w moment c. IsLeftOwn K.first moment c };

    fn note<'b, R: Wait>(
        &self,
        rt: &R,
        alloc: Global,
        held: Vec<MutexGuard<'b, KeptCell<K>>>,
    ) -> Result<(Vec<MutexGuard<'b, KeptCell<K>>>, Moment<K>), AllocError>
        ensures { IfOk result (λ r. All (λ g. IsLeftOwn K.first r.1 (mutex_guard_value g)) r.0.items) }
    {
        let mut guard = hold(rt, self.log);
        let log: &mut Journal<K, W> = &mut guard;
        let held = compare_all(alloc, held, log)?;
        Ok((held, log.moment()))
    }
}

// Compares each cell's share with the journal.
fn compare_all<'b, K: Opening, W: Write + Drop>(
    alloc: Global,
    held: Vec<MutexGuard<'b, KeptCell<K>>>,
    log: &mut Journal<K, W>,
) -> Result<Vec<MutexGuard<'b, KeptCell<K>>>, AllocError>
    ensures log { log.new ≡ log.old }
    ensures left { IfOk result (λ r. All (λ g. IsLeftOwn K.first log.old.entries (mutex_guard_value g)) r.items) }
{
    let mut compared = Vec::with_capacity(alloc, held.len())?;
    for guard in held {
        compared.push(compare_one(guard, log))?;
    }
    Ok(compared)
}

// Compares one cell's share with the journal.
fn compare_one<'b, K: Opening, W: Write + Drop>(
    mut guard: MutexGuard<'b, KeptCell<K>>,
    log: &mut Journal<K, W>,
) -> MutexGuard<'b, KeptCell<K>>
    ensures log { log.new ≡ log.old }
    ensures left { IsLeftOwn K.first log.old.entries (mutex_guard_value result) }
{
    let kept: &mut KeptCell<K> = &mut guard;
    kept.compare(log);
    guard
}
