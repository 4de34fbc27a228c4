//! Why a command was not applied.
use thiserror::Error;

/// Why a command was neither done nor refused.
#[derive(Clone, Copy, Debug, PartialEq, Eq, Error)]
pub enum ApplyFault {
    /// The source of random bytes failed. Owner and disk are as they were; bytes may be gone.
    #[error("random fault")]
    RandomFault,
    /// The source ended after `left` of the `need` bytes. Owner and disk are as they were; the bytes are gone.
    #[error("random short: {need} bytes needed, {left} left")]
    RandomShort { left: u32, need: u32 },
    /// The disk failed. This owner does nothing more.
    #[error("disk fault")]
    DiskFault,
    /// An earlier call of this owner met a disk fault.
    #[error("closed")]
    Closed,
    /// There was no memory. Owner and disk are as they were.
    #[error("out of memory")]
    OutOfMemory,
}

impl From<cry_base::OutOfMemory> for ApplyFault {
    fn from(_: cry_base::OutOfMemory) -> ApplyFault {
        ApplyFault::OutOfMemory
    }
}
