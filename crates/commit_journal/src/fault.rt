//! Why a store was not read.
use cry_base::OutOfMemory;
use cry_io::Failed;
use std::alloc::AllocError;
use thiserror::Error;

/// Why a store was not read. Places are counted in bytes from the start of the file.
#[derive(Clone, Copy, Debug, PartialEq, Eq, Error)]
pub enum OpenFault {
    /// There are fewer than 42 bytes, or the first 9 are not those of a store of version 1.
    #[error("not a store")]
    NotAStore,
    /// The owner check is not that of the key.
    #[error("wrong key")]
    WrongKey,
    /// What stands at this place has no form that it may have there: behind an open gate no batch, or in a payload a
    /// bad field.
    #[error("damaged at byte {at}")]
    Damaged { at: u64 },
    /// The batch of this number was changed by someone who has not the owner's key. The place is that of the owner tag
    /// or of the slot that is wrong.
    #[error("batch {batch} tampered with at byte {at}")]
    Tampered { batch: u32, at: u64 },
    /// The disk failed.
    #[error("disk fault")]
    DiskFault,
    /// There was no memory.
    #[error("out of memory")]
    OutOfMemory,
}

impl From<Failed> for OpenFault {
    ghost use Rattle.std.specs.Prelude.{◌≡◌};
    ghost use Rattle.commit_journal.specs.declared.fault.OpenFault.TheVariants as faults;

    ghost from_gives = { λ _ fault. fault ≡ faults.DiskFault };

    fn from(_error: Failed) -> Self {
        OpenFault::DiskFault
    }
}

impl From<OutOfMemory> for OpenFault {
    ghost use Rattle.std.specs.Prelude.{◌≡◌};
    ghost use Rattle.commit_journal.specs.declared.fault.OpenFault.TheVariants as faults;

    ghost from_gives = { λ _ fault. fault ≡ faults.OutOfMemory };

    fn from(_error: OutOfMemory) -> Self {
        OpenFault::OutOfMemory
    }
}

impl From<AllocError> for OpenFault {
    ghost use Rattle.std.specs.Prelude.{◌≡◌};
    ghost use Rattle.commit_journal.specs.declared.fault.OpenFault.TheVariants as faults;

    ghost from_gives = { λ _ fault. fault ≡ faults.OutOfMemory };

    fn from(_error: AllocError) -> Self {
        OpenFault::OutOfMemory
    }
}
