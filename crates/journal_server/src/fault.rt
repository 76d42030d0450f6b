use journal_script::RestoreFault;
use running_desk::ServiceFault;
use std::alloc::AllocError;
use thiserror::Error;

/// Why a server with a journal ended without its boards.
#[derive(Clone, Copy, Debug, Error)]
pub enum JournalFault {
    /// A fault that a server without a journal may have too.
    #[error(transparent)]
    Service(#[from] ServiceFault),
    /// The script that it should begin with can't be restored.
    #[error(transparent)]
    Restore(#[from] RestoreFault),
    /// A line of the script that it should begin with is lost: it was left out, and no kill cut it.
    #[error("LeftOut")]
    LeftOut,
}

impl From<AllocError> for JournalFault {
    fn from(error: AllocError) -> JournalFault {
        JournalFault::Service(ServiceFault::from(error))
    }
}
