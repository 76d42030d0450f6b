use board_report::BoardsFault;
use script_lines::ReplayFault;
use site_desk::{CloseFault, DeskFault};
use station_link::SimFault;
use std::alloc::{AllocError, AllocFailed};
use thiserror::Error;

/// Why a server or a simulation ended without its boards.
#[derive(Clone, Copy, Debug, Error)]
pub enum ServiceFault {
    /// The server can't listen on this port, 0 if the system was to choose one; with the system's error number, if
    /// there is one.
    #[error("ListenFailed")]
    ListenFailed(u16, Option<i32>),
    /// No desk is opened for the plan.
    #[error("{0:?}")]
    Desk(#[from] DeskFault),
    /// A simulated station did not get all its replies.
    #[error("{0:?}")]
    Sim(#[from] SimFault),
    /// The operator's lines can't be read.
    #[error(transparent)]
    Input(#[from] ReplayFault),
    /// The output, the journal or a board can't be written.
    #[error("{0:?}")]
    Output(#[from] BoardsFault),
    /// The values behind the desk's locks, its passes and its viewers did not fit together, which no run meets.
    #[error("{0:?}")]
    Close(#[from] CloseFault),
    /// There is no memory for it, or no thread.
    #[error("OutOfMemory")]
    OutOfMemory,
}

impl From<AllocError> for ServiceFault {
    fn from(_error: AllocError) -> ServiceFault {
        ServiceFault::OutOfMemory
    }
}

impl<T: Drop> From<AllocFailed<T>> for ServiceFault {
    fn from(_error: AllocFailed<T>) -> ServiceFault {
        ServiceFault::OutOfMemory
    }
}
