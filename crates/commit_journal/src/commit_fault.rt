//! Why a journal was not written.
use thiserror::Error;

/// Why a batch was not committed, or no journal was made.
#[derive(Clone, Copy, Debug, PartialEq, Eq, Error)]
pub enum CommitFault {
    /// The batch has `need` bytes, and the store may grow by `left` bytes. Nothing was written.
    #[error("full: {need} bytes needed, {left} left")]
    Full { need: u64, left: u64 },
    /// An earlier call of this journal met a disk fault, so that nobody knows what stands behind its log.
    #[error("closed")]
    Closed,
    /// The disk failed.
    #[error("disk fault")]
    DiskFault,
    /// There was no memory.
    #[error("out of memory")]
    OutOfMemory,
}
