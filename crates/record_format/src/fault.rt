//! Why bytes could not be read as a payload.
use cry_base::OutOfMemory;
use thiserror::Error;

/// Why `read_payload` gave none.
#[derive(Clone, Copy, Debug, PartialEq, Eq, Error)]
pub enum PayloadFault {
    /// The bytes spell no payload. `at` is the offset of the first field that is cut short or has a value that
    /// isn't allowed, or of the first byte after the last record.
    #[error("no payload: bad field at byte {at}")]
    Format { at: usize },
    /// There was no memory for the records.
    #[error("out of memory")]
    OutOfMemory,
}

/// Why a reader of a field stopped.
#[derive(Clone, Copy, Debug)]
pub enum Stop {
    /// The field is bad; so many bytes are left from its first byte on.
    Bad { left: usize },
    /// There was no memory for what was read.
    OutOfMemory,
}

impl From<OutOfMemory> for Stop {
    ghost use Rattle.std.specs.Prelude.{◌≡◌};
    ghost use Rattle.record_format.specs.declared.fault.Stop.TheVariants as stops;

    ghost from_gives = { λ _ stop. stop ≡ stops.OutOfMemory };

    fn from(_error: OutOfMemory) -> Self {
        Stop::OutOfMemory
    }
}
