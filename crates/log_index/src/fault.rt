//! Why a checkpoint was not written.
use cry_base::OutOfMemory;
use cry_io::Failed;
use thiserror::Error;

/// Why a checkpoint was not written.
#[derive(Clone, Copy, Debug, PartialEq, Eq, Error)]
pub enum IndexFault {
    /// The disk failed.
    #[error("disk fault")]
    DiskFault,
    /// There was no memory for the file's bytes, or they are more than its lengths can say.
    #[error("out of memory")]
    OutOfMemory,
}

impl From<Failed> for IndexFault {
    ghost use Rattle.std.specs.Prelude.{◌≡◌};
    ghost use Rattle.log_index.specs.declared.fault.IndexFault.TheVariants as faults;

    ghost from_gives = { λ _ fault. fault ≡ faults.DiskFault };

    fn from(_error: Failed) -> Self {
        IndexFault::DiskFault
    }
}

impl From<OutOfMemory> for IndexFault {
    ghost use Rattle.std.specs.Prelude.{◌≡◌};
    ghost use Rattle.log_index.specs.declared.fault.IndexFault.TheVariants as faults;

    ghost from_gives = { λ _ fault. fault ≡ faults.OutOfMemory };

    fn from(_error: OutOfMemory) -> Self {
        IndexFault::OutOfMemory
    }
}
