//! The head of a batch, as layout.rt draws it.
ghost use Rattle.std.specs.Prelude.{◌≡◌, ◌+◌, ◌≤◌, ◌^◌, slice_range, IsTrue};
ghost use Rattle.std.specs.Int.{w32, from_be_bytes};
ghost use Rattle.cry_base.specs.Layout.{batch_len, head_len};
ghost use Rattle.cry_base.specs.Limits.{most_store_bytes};
ghost use Rattle.commit_journal.specs.Log as log;
ghost use Rattle.commit_journal.specs.Opening as opening;

use crate::layout::{BATCH_LEN, COMMAND, EPOCH, HEAD_LEN};
use crate::past::Past;
use cry_base::{Epoch, STORE_BYTES};

/// What a batch says of itself.
#[derive(Clone, Copy, Debug)]
pub(crate) struct Head {
    pub(crate) type_byte: u8,
    pub(crate) number: u32,
    pub(crate) epoch: Epoch,
    pub(crate) size: u32,
}

fn number_at(bytes: &[u8; HEAD_LEN], from: usize) -> u32
    requires { from + 4 ≤ head_len }
    ensures { result ≡ from_be_bytes w32 (slice_range bytes.now from (from + 4)) }
{
    let mut field = [0; 4];
    field.copy_from_slice(&bytes[from..from + 4]);
    u32::from_be_bytes(field)
}

#[tactic(auto, unfolding(crate::specs::Log::head_of))]
pub(crate) fn head_of(bytes: &[u8; HEAD_LEN]) -> Head
    ensures { result ≡ log.head_of bytes.now }
{
    Head {
        type_byte: bytes[0],
        number: number_at(bytes, 1),
        epoch: Epoch(number_at(bytes, 5)),
        size: number_at(bytes, 9),
    }
}

fn fits_epoch(past: &Past, head: &Head) -> bool
    ensures { result ≡ log.fits_epoch past.now head.now }
{
    match head.type_byte {
        EPOCH => head.size == 0 && u64::from(head.epoch.0) == u64::from(past.epoch.0) + 1,
        COMMAND => 1 <= past.epoch.0 && head.epoch.0 == past.epoch.0,
        _ => false,
    }
}

/// Whether a batch with this head may stand behind the gate, where `left` bytes are left.
#[tactic(auto, unfolding(crate::specs::Log::is_batch))]
pub(crate) fn is_batch(past: &Past, head: &Head, left: u64) -> bool
    requires { past.now.at ≤ 2 ^ 32 }
    ensures exact { result ≡ log.is_batch past.now head.now left }
    ensures inside { IsTrue result → batch_len + head.now.size ≤ left }
    ensures small { IsTrue result → past.now.at + (batch_len + head.now.size) ≤ most_store_bytes }
    ensures next { IsTrue result → opening.IsNext past.now head.now }
{
    let len = BATCH_LEN + u64::from(head.size);
    len <= left
        && past.at + len <= STORE_BYTES
        && u64::from(head.number) == u64::from(past.number) + 1
        && fits_epoch(past, head)
}
