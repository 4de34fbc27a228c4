//! What a checkpoint file begins with, 49 bytes, numbers big-endian (docs/FORMAT.md, "The checkpoint"):
//!
//! ```text
//!  0   9  CRYPTIDX, form 1     13  32  owner tag of that batch
//!  9   4  number of a batch    45   4  length of the body, which stands behind
//! ```
ghost use Rattle.std.specs.Prelude.{◌≡◌};
ghost use Rattle.index_format.specs.Reading as reading;
ghost use Rattle.index_format.specs.Spelling as spelling;
ghost use Rattle.record_format.specs.Reading.{Gives};

use crate::Fixed;
use cry_base::Text;
use record_format::fields::{array_of, bytes_of, u32_of};
use record_format::{Stop, put_number};

/// The first bytes of a checkpoint file: its name, and its form.
const MAGIC: [u8; 9] = *b"CRYPTIDX\x01";

/// Which batch a checkpoint was taken behind, and how long its body is.
#[derive(Clone, Copy, Debug, PartialEq, Eq)]
pub struct IndexHead {
    /// The number of the batch.
    pub batch: u32,
    /// The batch's owner tag.
    pub tag: [u8; 32],
    /// The length of the body.
    pub body_len: u32,
}

#[tactic(auto, unfolding(record_format::specs::Fields::and_then, crate::specs::Reading::magic_at))]
fn magic_of(bytes: &[u8]) -> Result<(&[u8], &[u8]), Stop>
    ensures { Gives (λ x. (x.0.now, x.1.now)) result (reading.magic_at bytes.now) }
{
    let (first, rest) = bytes_of(9, bytes)?;
    if first != MAGIC.as_slice() {
        return Err(Stop::Bad { left: bytes.len() });
    }
    Ok((first, rest))
}

impl Fixed for IndexHead {
    ghost spell = { spelling.spell_head };

    ghost value_at = { reading.head_at };

    ghost size = { 49 };

    fn len() -> u64 {
        49
    }

    #[tactic(auto, unfolding(record_format::specs::Fields::and_then, crate::specs::Reading::head_at))]
    fn read(bytes: &[u8]) -> Result<(Self, &[u8]), Stop> {
        let (_, rest) = magic_of(bytes)?;
        let (batch, rest) = u32_of(rest)?;
        let (tag, rest) = array_of(rest)?;
        let (body_len, rest) = u32_of(rest)?;
        let head = IndexHead {
            batch,
            tag,
            body_len,
        };
        Ok((head, rest))
    }

    #[tactic(auto, unfolding(crate::specs::Spelling::spell_head))]
    fn put(&self, out: &mut Text) {
        out.put_all(&MAGIC);
        put_number(self.batch, out);
        out.put_all(&self.tag);
        put_number(self.body_len, out);
    }
}
