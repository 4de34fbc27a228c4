//! Why a line could not be read.
use cry_base::OutOfMemory;
use thiserror::Error;

/// Why a line gave nothing.
#[derive(Clone, Copy, Debug, PartialEq, Eq, Error)]
pub enum LineFault {
    /// The bytes aren't a line of the form that is due.
    #[error("bad line")]
    BadLine,
    /// There was no memory for what the line holds.
    #[error("out of memory")]
    OutOfMemory,
}

impl From<OutOfMemory> for LineFault {
    ghost use Rattle.std.specs.Prelude.{◌≡◌};
    ghost use Rattle.script_text.specs.declared.fault.LineFault.TheVariants as faults;

    ghost from_gives = { λ _ fault. fault ≡ faults.OutOfMemory };

    fn from(_error: OutOfMemory) -> Self {
        LineFault::OutOfMemory
    }
}
