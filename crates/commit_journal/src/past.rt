//! What is known between two batches.
ghost use Rattle.std.specs.Prelude.{◌≡◌};

use cry_base::Epoch;

/// The log up to a gate: where the next batch would begin, the number and epoch of the last one (0 for none), the tag
/// that the next owner tag hangs on, and the gate's byte. Who has it can read the next batch, and nothing before it.
#[derive(Clone, Copy, Debug)]
pub struct Past {
    pub(crate) at: u64,
    pub(crate) number: u32,
    pub(crate) epoch: Epoch,
    pub(crate) tag: [u8; 32],
    pub(crate) gate: u8,
}

impl Past {
    /// The place where the next batch would begin.
    pub fn place(&self) -> u64
        ensures { result ≡ self.now.at }
    {
        self.at
    }

    /// The number of the last batch, and 0 before the first.
    pub fn number(&self) -> u32
        ensures { result ≡ self.now.number }
    {
        self.number
    }
}
