use crate::has_cell::HasCell;
use std::alloc::{AllocError, Global};
use std::sync::{MutexGuard, Wait};

/// A note (N) of the values behind the locks of a site's stations, made while all of these are held
/// ([`Desk::site_boards_by`](crate::Desk::site_boards_by)). `notes` is what the note says of each
/// cell.
pub trait Notes<C: HasCell, N> {
    ghost use Rattle.std.{specs.Prelude.{IfOk, All}, specs.Sync.Mutex.mutex_guard_value};
    ghost use Rattle.site_desk.specs.Cell.{Cell};

    ghost notes: { Self → N → Cell → Type 0 };

    /// Makes the note, and returns the locks, still held.
    fn note<'a, R: Wait>(
        &self,
        rt: &R,
        alloc: Global,
        held: Vec<MutexGuard<'a, C>>,
    ) -> Result<(Vec<MutexGuard<'a, C>>, N), AllocError>
        ensures { IfOk result (λ r. All (λ g. notes self.now r.1 (C.cell (mutex_guard_value g))) r.0.items) };
}
