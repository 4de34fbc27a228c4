//! A checkpoint's body as rows.
ghost use Rattle.std.specs.Prelude.{◌≤◌, IfOk, IfSome, MatchOption};
ghost use Rattle.index_format.specs.Plain.{plain_body};
ghost use Rattle.index_format.specs.Writable.{IsWritableBody};
ghost use Rattle.log_index.specs.Plain.{plain_of};
ghost use Rattle.log_index.specs.Sound.{IsReadAs, IsSoundBody, IsSoundCheckpoint, SpellsBody};

use crate::Checkpoint;
use crate::objects::objects;
use crate::spots::{rows_of, spots_of};
use cry_base::Mem;
use index_format::{BodyRows, IndexHead};
use public_fold::PublicState;
use role_graph::edges;
use std::alloc::Global;

/// The checkpoint that the rows say, where they are sound.
pub(crate) fn of_rows(alloc: Global, head: &IndexHead, rows: &BodyRows) -> Mem<Option<Checkpoint>>
    requires first { 1 ≤ head.now.batch }
    requires rows { IsWritableBody (plain_body rows.now) }
    ensures found { IfOk result (λ o. MatchOption o (IsSoundBody head.now.batch (plain_body rows.now) → ⊥)
        (λ c. IsSoundBody head.now.batch (plain_body rows.now) × IsReadAs (plain_of head.now (plain_body rows.now)) c)) }
    ensures in_order { IfOk result (λ o. IfSome o IsSoundCheckpoint) }
{
    let Some(state) = PublicState::of_rows(alloc, &rows.state)? else {
        return Ok(None);
    };
    let edges = edges(alloc, state.shape(), state.grants())?;
    let Some(links) = spots_of(alloc, head.batch, edges.as_slice(), rows.links.as_slice())? else {
        return Ok(None);
    };
    let objects = objects(alloc, &state)?;
    let Some(contents) = spots_of(
        alloc,
        head.batch,
        objects.as_slice(),
        rows.contents.as_slice(),
    )?
    else {
        return Ok(None);
    };
    Ok(Some(Checkpoint {
        batch: head.batch,
        tag: head.tag,
        state,
        links,
        contents,
    }))
}

/// The rows that spell a checkpoint's body.
pub(crate) fn to_rows(alloc: Global, checkpoint: &Checkpoint) -> Mem<BodyRows>
    ensures { IfOk result (λ rows. SpellsBody checkpoint.now (plain_body rows)) }
{
    let state = checkpoint.state.to_rows(alloc)?;
    let links = rows_of(alloc, checkpoint.links.as_slice())?;
    let contents = rows_of(alloc, checkpoint.contents.as_slice())?;
    Ok(BodyRows {
        state,
        links,
        contents,
    })
}
