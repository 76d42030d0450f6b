use thiserror::Error;

/// Why a replay ended before the end of its script, or could not write all of its answer.
#[derive(Clone, Copy, Debug, PartialEq, Eq, Error)]
pub enum ReplayFault {
    /// A read failed; an interrupted read is a failure too.
    #[error("ReadFault")]
    ReadFault,
    /// A write or a flush failed, or a write took no byte.
    #[error("WriteFault")]
    WriteFault,
    /// The script has more bytes than a replay may read.
    #[error("TooMuchInput")]
    TooMuchInput,
    /// There was no memory for a line, its answer or the ledgers.
    #[error("OutOfMemory")]
    OutOfMemory,
}
