//! Why a note gave no change.
use cry_base::OutOfMemory;
use thiserror::Error;

/// Why `change_of` gave none.
#[derive(Clone, Copy, Debug, PartialEq, Eq, Error)]
pub enum ChangeFault {
    /// The note doesn't fit the shape and the grants.
    #[error("the note does not fit")]
    Unfit,
    /// There was no memory for the change.
    #[error("out of memory")]
    OutOfMemory,
}

impl From<OutOfMemory> for ChangeFault {
    ghost use Rattle.std.specs.Prelude.{◌≡◌};
    ghost use Rattle.move_plan.specs.declared.fault.ChangeFault.TheVariants as faults;

    ghost from_gives = { λ _ fault. fault ≡ faults.OutOfMemory };

    fn from(_error: OutOfMemory) -> Self {
        ChangeFault::OutOfMemory
    }
}
