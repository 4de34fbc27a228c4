//! Why a note or a payload made no step.
use cry_base::OutOfMemory;
use move_plan::ChangeFault;
use thiserror::Error;

/// Why a note or a payload was not taken.
#[derive(Clone, Copy, Debug, PartialEq, Eq, Error)]
pub enum FoldFault {
    /// The note, or the payload, doesn't fit the state.
    #[error("the note does not fit")]
    Unfit,
    /// There was no memory for the step.
    #[error("out of memory")]
    OutOfMemory,
}

impl From<OutOfMemory> for FoldFault {
    ghost use Rattle.std.specs.Prelude.{◌≡◌};
    ghost use Rattle.public_fold.specs.declared.fault.FoldFault.TheVariants as faults;

    ghost from_gives = { λ _ fault. fault ≡ faults.OutOfMemory };

    fn from(_error: OutOfMemory) -> Self {
        FoldFault::OutOfMemory
    }
}

impl From<ChangeFault> for FoldFault {
    ghost use Rattle.std.specs.Prelude.{◌≡◌};
    ghost use Rattle.public_fold.specs.Faults.{fault_of};

    ghost from_gives = { λ error fault. fault ≡ fault_of error };

    fn from(error: ChangeFault) -> Self {
        match error {
            ChangeFault::Unfit => FoldFault::Unfit,
            ChangeFault::OutOfMemory => FoldFault::OutOfMemory,
        }
    }
}
