//! The reading of a checkpoint file: which one its bytes begin with, if any.
ghost use Rattle.std.specs.Prelude.{◌≡◌, ◌⊎◌, ◌+◌, ◌^◌, ◌<◌, ◌≤◌, ◌++◌, [], Ok, drop, length, take};
ghost use Rattle.std.specs.Prelude.{IfOk, IfSome, MatchOption};
ghost use Rattle.cry_io.specs.Reading.{IsOnlyRead};
ghost use Rattle.cry_io.specs.Told.{WhereTold};
ghost use Rattle.index_format.specs.Plain.{IndexBody, plain_body};
ghost use Rattle.index_format.specs.Reading.{head_at};
ghost use Rattle.index_format.specs.Spelling.{spell_body};
ghost use Rattle.index_format.specs.declared.head.IndexHead.{IndexHead as TheHead};
ghost use Rattle.index_format.specs.Writable.{IsWritableBody};
ghost use Rattle.log_index.specs.Plain.{PlainCheckpoint, spell_index};
ghost use Rattle.log_index.specs.Sound.{IsReadAs, IsShown, IsSoundCheckpoint, IsSoundIndex};

use crate::Checkpoint;
use crate::body::of_rows;
use crate::tag::is_tagged;
use chacha_seal::{Key, OwnerK};
use cry_base::{Mem, OutOfMemory};
use cry_io::Disk;
use index_format::{BodyRows, Fixed, IndexHead, read_plain_body};
use record_format::Stop;
use std::alloc::Global;

/// The bytes before a body.
const HEAD_LEN: usize = 49;

/// The bytes of the tag behind it.
const TAG_LEN: usize = 32;

/// Reads the checkpoint that the disk's bytes begin with, where that is sound and under the owner's tag. What stands behind it means
/// nothing. The disk is never written.
///
/// `None` comes exactly where the bytes begin with no such file, or the disk failed in this call. No more memory is taken for the
/// file's bytes than the disk has, whatever length they claim.
pub fn read_checkpoint<E: Disk>(
    alloc: Global,
    side: &mut E,
    owner: &Key<OwnerK>,
) -> Mem<Option<Checkpoint>>
    ensures found { IfOk result (λ o. WhereTold (E.shown side.old) (λ s. MatchOption o
        (((p : PlainCheckpoint) → IsShown owner.now.bytes p s → ⊥) ⊎ (E.faults side.old < E.faults side.new))
        (λ c. (p : PlainCheckpoint) × IsShown owner.now.bytes p s × IsReadAs p c))) }
    // So it is on a disk that tells nothing, too.
    ensures is_sound { IfOk result (λ o. IfSome o (λ c. (p : PlainCheckpoint) × IsSoundIndex p × IsReadAs p c)) }
    ensures in_order { IfOk result (λ o. IfSome o IsSoundCheckpoint) }
    ensures read_only { IsOnlyRead E.Disk side.old side.new }
    ensures counts { E.faults side.old ≤ E.faults side.new }
{
    let Some(front) = read_front(side) else {
        return Ok(None);
    };
    let Some(head) = head_of(&front)? else {
        return Ok(None);
    };
    let len = head.body_len as usize + TAG_LEN;
    let Some(behind) = read_behind(alloc, side, len)? else {
        return Ok(None);
    };
    checkpoint_in(alloc, owner, &front, &head, &behind)
}

/// The first bytes of the disk, up to a body, where it has them.
fn read_front<E: Disk>(side: &mut E) -> Option<[u8; HEAD_LEN]>
    ensures found { MatchOption result ((E.size_of side.old < 49) ⊎ (E.faults side.old < E.faults side.new))
        (λ front. (49 ≤ E.size_of side.old) × WhereTold (E.shown side.old) (λ s. front ≡ take 49 s)) }
    ensures read_only { IsOnlyRead E.Disk side.old side.new }
    ensures counts { E.faults side.old ≤ E.faults side.new }
{
    if side.size() < HEAD_LEN as u64 {
        return None;
    }
    let mut front = [0; HEAD_LEN];
    side.read_at(0, &mut front).ok()?;
    Some(front)
}

/// So many bytes from the place of a body on, where the disk has them.
fn read_behind<E: Disk>(alloc: Global, side: &mut E, len: usize) -> Mem<Option<Vec<u8>>>
    requires small { len < 2 ^ 33 }
    requires front { 49 ≤ E.size_of side.old }
    ensures found { IfOk result (λ o. MatchOption o ((E.size_of side.old < 49 + len) ⊎ (E.faults side.old < E.faults side.new))
        (λ bytes. (length bytes.items ≡ len) × (49 + len ≤ E.size_of side.old)
        × WhereTold (E.shown side.old) (λ s. bytes.items ≡ take len (drop 49 s)))) }
    ensures read_only { IsOnlyRead E.Disk side.old side.new }
    ensures counts { E.faults side.old ≤ E.faults side.new }
{
    if side.size() < (HEAD_LEN + len) as u64 {
        return Ok(None);
    }
    let mut bytes = Vec::from_elem(alloc, 0, len)?;
    match side.read_at(HEAD_LEN as u64, &mut bytes) {
        Ok(()) => Ok(Some(bytes)),
        Err(_) => Ok(None),
    }
}

/// The head that the bytes spell.
fn head_of(front: &[u8; HEAD_LEN]) -> Mem<Option<IndexHead>>
    ensures { IfOk result (λ o. MatchOption o ((h : TheHead) → head_at front.now ≡ Ok (h, []) → ⊥)
        (λ h. head_at front.now ≡ Ok (h, []))) }
{
    match IndexHead::read(front) {
        Ok((head, [])) => Ok(Some(head)),
        Ok(_) | Err(Stop::Bad { left: _ }) => Ok(None),
        Err(Stop::OutOfMemory) => Err(OutOfMemory),
    }
}

/// The rows that the bytes spell.
fn rows_of(alloc: Global, body: &[u8]) -> Mem<Option<BodyRows>>
    ensures { IfOk result (λ o. MatchOption o ((b : IndexBody) → IsWritableBody b → body.now ≡ spell_body b → ⊥)
        (λ rows. IsWritableBody (plain_body rows) × (body.now ≡ spell_body (plain_body rows)))) }
{
    match read_plain_body(alloc, body) {
        Ok((rows, [])) => Ok(Some(rows)),
        Ok(_) | Err(Stop::Bad { left: _ }) => Ok(None),
        Err(Stop::OutOfMemory) => Err(OutOfMemory),
    }
}

/// The checkpoint whose file is these bytes: those of a head, and what stands behind them, a body and a tag.
fn checkpoint_in(
    alloc: Global,
    owner: &Key<OwnerK>,
    front: &[u8; HEAD_LEN],
    head: &IndexHead,
    behind: &[u8],
) -> Mem<Option<Checkpoint>>
    requires head { head_at front.now ≡ Ok (head.now, []) }
    requires long { length behind.now ≡ head.now.body_len + 32 }
    ensures found { IfOk result (λ o. MatchOption o
        ((p : PlainCheckpoint) → IsSoundIndex p → front.now ++ behind.now ≡ spell_index owner.now.bytes p → ⊥)
        (λ c. (p : PlainCheckpoint) × IsSoundIndex p × (front.now ++ behind.now ≡ spell_index owner.now.bytes p) × IsReadAs p c)) }
    ensures in_order { IfOk result (λ o. IfSome o IsSoundCheckpoint) }
{
    if head.batch == 0 {
        return Ok(None);
    }
    let (body, tag) = behind.split_at(head.body_len as usize);
    if !is_tagged(owner, front, body, tag) {
        return Ok(None);
    }
    let Some(rows) = rows_of(alloc, body)? else {
        return Ok(None);
    };
    of_rows(alloc, head, &rows)
}
