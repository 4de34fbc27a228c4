//! Judges a whole batch in memory (docs/FORMAT.md, "The file").
ghost use Rattle.std.specs.Prelude.{◌≡◌, ◌≢◌, ◌+◌, ◌≤◌, ◌^◌, ◌++◌, length, slice_range, option_copied, Err, IfOk};
ghost use Rattle.cry_base.specs.Layout.{batch_len, header_len, payload_offset, slot_offset, tag_offset};
ghost use Rattle.cry_base.specs.Limits.{most_store_bytes};
ghost use Rattle.chacha_seal.specs.Sealing.{masked};
ghost use Rattle.commit_journal.specs.Answering.{Answers};
ghost use Rattle.commit_journal.specs.Placed.{plain_body};
ghost use Rattle.commit_journal.specs.Log as log;
ghost use Rattle.commit_journal.specs.Opening as opening;
ghost use Rattle.commit_journal.specs.Readers as readers;
ghost use Rattle.commit_journal.specs.Places.{HasSize, IsStanding, TurnStands};
ghost use Rattle.commit_journal.specs.Turns.{plain_option, plain_turn, GoesOnAt};

use crate::head::Head;
use crate::layout::{BATCH_LEN, EPOCH, HEAD_LEN, OPEN, PAYLOAD, SLOT};
use crate::past::Past;
use crate::{Body, OpenFault, Placed};
use chacha_seal::{LogKey, mask_in_place};
use hmac_seal::{hmac, tags_equal};
use record_format::{PayloadFault, read_payload};
use std::alloc::Global;

/// One batch more, and what is known behind it.
#[derive(Debug, Drop)]
pub(crate) struct Turn {
    pub(crate) placed: Placed,
    pub(crate) past: Past,
}

pub(crate) fn array_at(bytes: &[u8], from: usize) -> [u8; 32]
    requires { from + 32 ≤ length bytes.now }
    ensures { result ≡ slice_range bytes.now from (from + 32) }
{
    let mut array = [0; 32];
    array.copy_from_slice(&bytes[from..from + 32]);
    array
}

#[tactic(auto, unfolding(crate::specs::Log::tag_due))]
pub(crate) fn tag_due(owner: &LogKey, previous: &[u8; 32], size: usize, batch: &[u8]) -> [u8; 32]
    requires { length batch.now ≡ batch_len + size }
    ensures { result ≡ log.tag_due owner.now.bytes previous.now size batch.now }
{
    let mut tag = owner.tag_start();
    tag.add(previous);
    tag.add(&batch[..HEAD_LEN]);
    tag.add(payload_and_check(size, batch));
    tag.end()
}

/// The payload of a batch and the check behind it.
fn payload_and_check(size: usize, batch: &[u8]) -> &[u8]
    requires { length batch.now ≡ batch_len + size }
    ensures { result.now ≡ log.payload_in size batch.now ++ log.check_in size batch.now }
{
    &batch[PAYLOAD..PAYLOAD + size + 32]
}

/// Takes the veil away from a payload, and reads it.
#[tactic(auto, unfolding(crate::specs::Log::body_of))]
pub(crate) fn body_of(
    alloc: Global,
    past: &Past,
    head: &Head,
    slot: &[u8; 32],
    payload: &mut [u8],
) -> Result<Body, OpenFault>
    requires { past.now.at ≤ 2 ^ 32 }
    ensures size { IfOk result (HasSize (length payload.old)) }
    ensures type_of { IfOk result (opening.HasType head.now.type_byte) }
    ensures answer { Answers plain_body result (log.placed_body past.now (log.body_of head.now (masked slot.now payload.old))) }
    ensures no_disk { result ≢ Err OpenFault.DiskFault }
    ensures no_key { result ≢ Err OpenFault.WrongKey }
{
    if head.type_byte == EPOCH {
        return Ok(Body::NewEpoch);
    }
    mask_in_place(slot, payload);
    match read_payload(alloc, payload) {
        Ok(payload) => Ok(Body::Commands(payload)),
        Err(PayloadFault::Format { at }) => Err(OpenFault::Damaged {
            at: past.at + PAYLOAD as u64 + at as u64,
        }),
        Err(PayloadFault::OutOfMemory) => Err(OpenFault::OutOfMemory),
    }
}

/// Whether the slot of a batch is its veil key.
#[tactic(auto, unfolding(crate::specs::Readers::is_published))]
fn is_published(size: usize, batch: &[u8]) -> bool
    requires whole { length batch.now ≡ batch_len + size }
    ensures { result ≡ readers.is_published size batch.now }
{
    let slot = array_at(batch, SLOT);
    let check = array_at(batch, PAYLOAD + size);
    tags_equal(&hmac(&slot, &batch[PAYLOAD..PAYLOAD + size], &[]), &check)
}

fn unpublished(past: &Past, head: &Head) -> OpenFault
    requires behind { past.now.at ≤ most_store_bytes }
    ensures { result ≡ OpenFault.Tampered head.now.number (past.now.at + slot_offset) }
{
    OpenFault::Tampered {
        batch: head.number,
        at: past.at + SLOT as u64,
    }
}

/// A batch whose payload is unmasked in it with this veil key, and what is known behind it.
#[tactic(auto, unfolding(crate::specs::Readers::unmasked_turn, crate::specs::Answering::and_then))]
pub(crate) fn unmask(
    alloc: Global,
    past: &Past,
    head: &Head,
    veil: &[u8; 32],
    batch: &mut [u8],
) -> Result<Turn, OpenFault>
    requires whole { length batch.old ≡ batch_len + head.now.size }
    requires behind { header_len ≤ past.now.at }
    requires fits { past.now.at + (batch_len + head.now.size) ≤ most_store_bytes }
    ensures answer { Answers plain_turn result (readers.unmasked_turn veil.now past.now head.now batch.old) }
    ensures turn { IfOk result (opening.IsTurnOf past.now head.now) }
    ensures stands { IfOk result (λ turn. IsStanding turn.placed) }
    ensures no_disk { result ≢ Err OpenFault.DiskFault }
    ensures no_key { result ≢ Err OpenFault.WrongKey }
{
    let size = head.size as usize;
    let tag = array_at(batch, PAYLOAD + size + 32);
    let gate = batch[PAYLOAD + size + 64];
    let payload = &mut batch[PAYLOAD..PAYLOAD + size];
    let body = body_of(alloc, past, head, veil, payload)?;
    Ok(turn_of(past, head, body, tag, gate))
}

#[tactic(auto, unfolding(crate::specs::Log::published_turn, crate::specs::Readers::is_published))]
fn judge_published(
    alloc: Global,
    past: &Past,
    head: &Head,
    batch: &mut [u8],
) -> Result<Option<Turn>, OpenFault>
    requires whole { length batch.old ≡ batch_len + head.now.size }
    requires behind { header_len ≤ past.now.at }
    requires fits { past.now.at + (batch_len + head.now.size) ≤ most_store_bytes }
    ensures answer { Answers plain_option result (log.published_turn past.now head.now batch.old) }
    ensures next { IfOk result (GoesOnAt (past.now.at + (batch_len + head.now.size))) }
    ensures turn { IfOk result (opening.IsNextOf past.now head.now) }
    ensures stands { IfOk result TurnStands }
    ensures no_disk { result ≢ Err OpenFault.DiskFault }
    ensures no_key { result ≢ Err OpenFault.WrongKey }
{
    let size = head.size as usize;
    if !is_published(size, batch) {
        if batch[PAYLOAD + size + 64] == OPEN {
            return Err(unpublished(past, head));
        }
        return Ok(None);
    }
    let slot = array_at(batch, SLOT);
    let turn = unmask(alloc, past, head, &slot, batch)?;
    Ok(Some(turn))
}

pub(crate) fn turn_of(past: &Past, head: &Head, body: Body, tag: [u8; 32], gate: u8) -> Turn
    requires behind { header_len ≤ past.now.at }
    requires fits { past.now.at + (batch_len + head.now.size) ≤ most_store_bytes }
    requires size { HasSize head.now.size body }
    ensures stands { IsStanding result.placed }
    ensures placed { result.placed
        ≡ record { batch = head.now.number; epoch = head.now.epoch; place = past.now.at + payload_offset; body = body } }
    ensures past { result.past ≡ record {
      at = past.now.at + (batch_len + head.now.size);
      number = head.now.number;
      epoch = head.now.epoch;
      tag =
          tag;
      gate = gate;
    } }
{
    Turn {
        placed: Placed {
            batch: head.number,
            epoch: head.epoch,
            place: past.at + PAYLOAD as u64,
            body,
        },
        past: Past {
            at: past.at + (BATCH_LEN + u64::from(head.size)),
            number: head.number,
            epoch: head.epoch,
            tag,
            gate,
        },
    }
}

/// Whether the owner tag of a batch is the one that is due. Without the owner's key it isn't tested.
#[tactic(auto, unfolding(crate::specs::Readers::has_tag))]
pub(crate) fn has_tag(owner: Option<&LogKey>, past: &Past, head: &Head, batch: &[u8]) -> bool
    requires whole { length batch.now ≡ batch_len + head.now.size }
    ensures { result ≡ readers.has_tag (readers.key_bytes (option_copied owner.entry)) past.now head.now batch.now }
{
    let size = head.size as usize;
    match owner {
        Some(owner) => {
            let tag = array_at(batch, PAYLOAD + size + 32);
            tags_equal(&tag_due(owner, &past.tag, size, batch), &tag)
        }
        None => true,
    }
}

/// The fault of a wrong owner tag.
pub(crate) fn wrong_tag(past: &Past, head: &Head) -> OpenFault
    requires behind { past.now.at ≤ most_store_bytes }
    ensures { result ≡ OpenFault.Tampered head.now.number (past.now.at + tag_offset + head.now.size) }
{
    OpenFault::Tampered {
        batch: head.number,
        at: past.at + (PAYLOAD + head.size as usize + 32) as u64,
    }
}

/// Judges the bytes of a batch behind an open gate, and leaves its payload unmasked in them where it is published.
/// The result is `None` where the batch ends the log, since nobody was given its payload.
#[tactic(auto, unfolding(crate::specs::Readers::read_turn))]
pub(crate) fn judge_read(
    alloc: Global,
    owner: Option<&LogKey>,
    past: &Past,
    head: &Head,
    batch: &mut [u8],
) -> Result<Option<Turn>, OpenFault>
    requires whole { length batch.old ≡ batch_len + head.now.size }
    requires behind { header_len ≤ past.now.at }
    requires fits { past.now.at + (batch_len + head.now.size) ≤ most_store_bytes }
    ensures answer { Answers plain_option result
        (readers.read_turn (readers.key_bytes (option_copied owner.entry)) past.now head.now batch.old) }
    ensures next { IfOk result (GoesOnAt (past.now.at + (batch_len + head.now.size))) }
    ensures turn { IfOk result (opening.IsNextOf past.now head.now) }
    ensures stands { IfOk result TurnStands }
    ensures no_disk { result ≢ Err OpenFault.DiskFault }
    ensures no_key { result ≢ Err OpenFault.WrongKey }
{
    if !has_tag(owner, past, head, batch) {
        return Err(wrong_tag(past, head));
    }
    judge_published(alloc, past, head, batch)
}

/// Judges a batch that was read before: it is published, so that one which isn't was changed, whatever gate follows.
#[tactic(auto, unfolding(crate::specs::Readers::again_turn))]
pub(crate) fn judge_again(
    alloc: Global,
    owner: Option<&LogKey>,
    past: &Past,
    head: &Head,
    batch: &mut [u8],
) -> Result<Turn, OpenFault>
    requires whole { length batch.old ≡ batch_len + head.now.size }
    requires behind { header_len ≤ past.now.at }
    requires fits { past.now.at + (batch_len + head.now.size) ≤ most_store_bytes }
    ensures answer { Answers plain_turn result
        (readers.again_turn (readers.key_bytes (option_copied owner.entry)) past.now head.now batch.old) }
    ensures turn { IfOk result (opening.IsTurnOf past.now head.now) }
    ensures stands { IfOk result (λ turn. IsStanding turn.placed) }
    ensures no_disk { result ≢ Err OpenFault.DiskFault }
    ensures no_key { result ≢ Err OpenFault.WrongKey }
{
    if !has_tag(owner, past, head, batch) {
        return Err(wrong_tag(past, head));
    }
    if !is_published(head.size as usize, batch) {
        return Err(unpublished(past, head));
    }
    let slot = array_at(batch, SLOT);
    unmask(alloc, past, head, &slot, batch)
}
