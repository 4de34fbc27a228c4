//! A sink for replies that nobody hears.
use cry_io::{Failed, Sink};

/// It takes all, keeps nothing, and never fails.
#[derive(Drop)]
pub(crate) struct Silent;

impl Sink for Silent {
    ghost use Rattle.std.specs.Prelude.{None};

    ghost written = { λ s. None };

    ghost faults = { λ s. 0 };

    fn write(&mut self, piece: &[u8]) -> Result<usize, Failed> {
        Ok(piece.len())
    }
}
