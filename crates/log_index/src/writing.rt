//! The writing of a checkpoint file.
ghost use Rattle.std.specs.Prelude.{◌≡◌, ◌<◌, ◌≤◌, ◌^◌, [], ◌∷◌, Err, length, is_some};
ghost use Rattle.std.specs.Prelude.{IfOk, IsErr, IsTrue, OnErr, OnOk};
ghost use Rattle.batch_log.specs.Handing.{Hands};
ghost use Rattle.batch_log.specs.Moments.{GoesOn};
ghost use Rattle.cry_io.specs.Stops.{IsDurable, Torn, Written};
ghost use Rattle.cry_io.specs.Told.{WhereBothTold};
ghost use Rattle.index_format.specs.Plain.{plain_body};
ghost use Rattle.index_format.specs.Spelling.{spell_body};
ghost use Rattle.index_format.specs.Writable.{HasFewSpots};
ghost use Rattle.log_index.specs.Plain.{PlainCheckpoint, spell_index};
ghost use Rattle.log_index.specs.Sound.{SpellsCheckpoint};

use crate::body::to_rows;
use crate::tag::index_tag;
use crate::{Checkpoint, IndexFault};
use batch_log::write_and_sync;
use chacha_seal::{Key, OwnerK};
use cry_base::{Mem, OutOfMemory, Text};
use cry_io::Disk;
use index_format::{BodyRows, Fixed, IndexHead, write_plain_body};
use std::alloc::Global;

/// The bytes of a file that stand around its body: a head of 49, and a tag.
const FRAME_LEN: usize = 81;

/// Writes a checkpoint at the front of the disk, under the owner's tag, and makes it stay. What stood there is written over; what stands
/// behind stays, and means nothing.
///
/// `DiskFault` comes only where the disk's faults rose in this call. Then any bytes may stand in the file's range. At `OutOfMemory` the
/// disk is as it was; so a checkpoint is answered, too, whose body has 2^32 bytes or more and so no spelling.
pub fn write_checkpoint<E: Disk>(
    alloc: Global,
    side: &mut E,
    owner: &Key<OwnerK>,
    checkpoint: &Checkpoint,
) -> Result<(), IndexFault>
    ensures told { is_some (E.shown side.new) ≡ is_some (E.shown side.old) }
    ensures written { OnOk result (WhereBothTold (E.shown side.old) (E.shown side.new) (λ x y. (p : PlainCheckpoint)
        → SpellsCheckpoint checkpoint.now p → Written 0 (spell_index owner.now.bytes p) x y)) }
    ensures durable { OnOk result (IsDurable (E.may_leave side.new) (E.shown side.new)) }
    ensures torn { OnErr result (WhereBothTold (E.shown side.old) (E.shown side.new) (λ x y. (p : PlainCheckpoint)
        → SpellsCheckpoint checkpoint.now p → Torn 0 (length (spell_index owner.now.bytes p)) x y)) }
    ensures untouched { result ≡ Err IndexFault.OutOfMemory → side.new ≡ side.old }
    ensures later { E.moment side.old ≤ E.moment side.new }
    ensures time { GoesOn (E.moment side.old) (E.since side.old) (E.since side.new) }
    // It is handed one write and nothing else.
    ensures hands { (p : PlainCheckpoint) → SpellsCheckpoint checkpoint.now p
        → Hands (record { place = 0; bytes = spell_index owner.now.bytes p } ∷ []) (IsErr result)
        (E.shown side.old) (E.shown side.new) (E.since side.new (E.moment side.old)) }
    ensures counts { E.faults side.old ≤ E.faults side.new }
    ensures disk_fault { result ≡ Err IndexFault.DiskFault → E.faults side.old < E.faults side.new }
{
    let file = file_of(alloc, owner, checkpoint)?;
    write_and_sync(side, 0, file.as_slice())?;
    Ok(())
}

/// The bytes of a checkpoint's file.
#[tactic(auto, unfolding(crate::specs::Plain::spell_index, index_format::specs::Spelling::spell_front))]
fn file_of(alloc: Global, owner: &Key<OwnerK>, checkpoint: &Checkpoint) -> Mem<Text>
    ensures { IfOk result (λ file. (p : PlainCheckpoint) × SpellsCheckpoint checkpoint.now p
        × (file.items ≡ spell_index owner.now.bytes p)) }
{
    let rows = to_rows(alloc, checkpoint)?;
    let body = body_of(alloc, &rows)?;
    let head = IndexHead {
        batch: checkpoint.batch,
        tag: checkpoint.tag,
        body_len: len_of(body.as_slice())?,
    };
    let mut file = Text::new(alloc);
    file.reserve(FRAME_LEN + body.as_slice().len())?;
    head.put(&mut file);
    file.put_all(body.as_slice());
    let tag = index_tag(owner, file.as_slice(), &[]);
    file.put_all(&tag);
    Ok(file)
}

/// The bytes of a body, where four bytes can say each of its counts.
fn body_of(alloc: Global, rows: &BodyRows) -> Mem<Text>
    ensures { IfOk result (λ body. body.items ≡ spell_body (plain_body rows.now)) }
{
    if !has_few_spots(rows) {
        return Err(OutOfMemory);
    }
    let mut body = Text::new(alloc);
    write_plain_body(rows, &mut body)?;
    Ok(body)
}

/// The length of a body, where four bytes can say it.
fn len_of(body: &[u8]) -> Mem<u32>
    ensures { IfOk result (λ len. len ≡ length body.now) }
{
    match body.len().try_into() {
        Ok(len) => Ok(len),
        Err(_) => Err(OutOfMemory),
    }
}

/// Whether four bytes can say each count.
fn has_few_spots(rows: &BodyRows) -> bool
    ensures { IsTrue result → HasFewSpots (plain_body rows.now) }
{
    let state = &rows.state;
    state.checks.as_slice().len() == state.numbers.holders_made as usize
        && is_few(state.folders.as_slice())
        && is_few(state.files.as_slice())
        && is_few(state.grants.as_slice())
        && is_few(state.keys.as_slice())
        && is_few(state.marks.as_slice())
        && is_few(rows.links.as_slice())
        && is_few(rows.contents.as_slice())
}

fn is_few<T>(rows: &[T]) -> bool
    ensures { IsTrue result → length rows.now < 2 ^ 32 }
{
    rows.len() <= u32::MAX as usize
}
