use script_lines::ReplayFault;
use std::alloc::AllocError;
use thiserror::Error;

/// Why a script was not restored. Nothing that was read is kept.
#[derive(Clone, Copy, Debug, Error)]
pub enum RestoreFault {
    /// The input ended before the line `listen`.
    #[error("NotRestored")]
    NotRestored,
    /// The line before `listen` does not end with `#`. Behind a journal there must be a `#` and a line feed, so that
    /// no part of a line left by a kill is a command, and then the line `listen`: `printf '#\nlisten\n'`.
    #[error("NotMarked")]
    NotMarked,
    /// A read failed.
    #[error("ReadFault")]
    ReadFault,
    /// The script has more bytes than a replay may read: 1 GiB.
    #[error("TooMuchInput")]
    TooMuchInput,
    /// There was no memory for a line, its answer or the ledgers.
    #[error("OutOfMemory")]
    OutOfMemory,
}

impl From<AllocError> for RestoreFault {
    ghost use Rattle.std.specs.Prelude.{◌≢◌};
    ghost use Rattle.journal_script.specs.declared.fault.RestoreFault.TheVariants.{NotMarked};

    ghost from_gives = { λ error e. e ≢ NotMarked };

    fn from(_error: AllocError) -> RestoreFault {
        RestoreFault::OutOfMemory
    }
}

impl From<ReplayFault> for RestoreFault {
    ghost use Rattle.std.specs.Prelude.{◌≢◌};
    ghost use Rattle.journal_script.specs.declared.fault.RestoreFault.TheVariants.{NotMarked};

    ghost from_gives = { λ fault e. e ≢ NotMarked };

    fn from(fault: ReplayFault) -> RestoreFault {
        match fault {
            ReplayFault::ReadFault | ReplayFault::WriteFault => RestoreFault::ReadFault,
            ReplayFault::TooMuchInput => RestoreFault::TooMuchInput,
            ReplayFault::OutOfMemory => RestoreFault::OutOfMemory,
        }
    }
}
