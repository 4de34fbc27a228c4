//! A batch in memory, from its head to the gate behind it, as layout.rt draws it.
ghost use Rattle.std.specs.Prelude.{◌≡◌, ◌+◌, ◌<◌, ◌≤◌, ◌^◌, [], ◌∷◌, ◌++◌, length, take, drop};
ghost use Rattle.cry_base.specs.Layout.{back_len, batch_len, payload_offset};
ghost use Rattle.hmac_seal.specs.Hmac as mac;
ghost use Rattle.chacha_seal.specs.Sealing as sealing;
ghost use Rattle.record_format.specs.Plain.{plain_payload};
ghost use Rattle.record_format.specs.Sizes.{payload_size};
ghost use Rattle.record_format.specs.Spellable.{IsSpellable};
ghost use Rattle.record_format.specs.Spelling.{spell_payload};
ghost use Rattle.commit_journal.specs.Image as image;
ghost use Rattle.commit_journal.specs.Journals as journals;

use crate::BatchType;
use crate::layout::{
    BACK_LEN, CLOSED, COMMAND, EMPTY_SLOT, EPOCH, EPOCH_BATCH_LEN, HEAD_LEN, PAYLOAD,
};
use chacha_seal::{LogKey, mask_in_place};
use cry_base::{Epoch, Text};
use hmac_seal::hmac;
use record_format::{Payload, payload_len, put_payload};

fn type_byte(type_of: BatchType) -> u8
    ensures { result ≡ image.type_byte type_of }
{
    match type_of {
        BatchType::Command => COMMAND,
        BatchType::NewEpoch => EPOCH,
    }
}

#[tactic(auto, unfolding(crate::specs::Image::head_bytes, record_format::specs::Spelling::be32))]
fn head(type_of: BatchType, number: u32, epoch: Epoch, size: u32) -> [u8; HEAD_LEN]
    ensures { result ≡ image.head_bytes type_of number epoch.0 size }
{
    let mut head = [0; HEAD_LEN];
    head[0] = type_byte(type_of);
    head[1..5].copy_from_slice(&number.to_be_bytes());
    head[5..9].copy_from_slice(&epoch.0.to_be_bytes());
    head[9..].copy_from_slice(&size.to_be_bytes());
    head
}

/// Puts the head of a batch whose payload has `size` bytes, and an empty slot. The payload is put behind them.
#[tactic(auto, unfolding(crate::specs::Image::empty_slot))]
pub(crate) fn begin(type_of: BatchType, number: u32, epoch: Epoch, size: u32, batch: &mut Text)
    requires { payload_offset ≤ batch.old.spare }
    ensures items { batch.new.items ≡ batch.old.items ++ (image.head_bytes type_of number epoch.0 size ++ image.empty_slot) }
    ensures spare { batch.old.spare ≤ batch.new.spare + payload_offset }
{
    batch.put_all(&head(type_of, number, epoch, size));
    batch.put_all(&EMPTY_SLOT);
}

fn mask(veil: &[u8; 32], batch: &mut Text)
    requires { payload_offset ≤ length batch.old.items }
    ensures items { batch.new.items ≡ take payload_offset batch.old.items ++ sealing.masked veil.now (drop payload_offset batch.old.items) }
    ensures spare { batch.new.spare ≡ batch.old.spare }
{
    let bytes = batch.as_mut_slice();
    mask_in_place(veil, &mut bytes[PAYLOAD..]);
}

/// The tag of a batch with this head, masked payload and check, behind a batch with the tag before.
fn owner_tag(
    owner: &LogKey,
    previous: &[u8; 32],
    head: &[u8],
    payload: &[u8],
    check: &[u8; 32],
) -> [u8; 32]
    ensures { result ≡ mac.hmac (sealing.owner_tag_key owner.now.bytes)
        (previous.now ++ (head.now ++ (payload.now ++ check.now))) }
{
    let mut tag = owner.tag_start();
    tag.add(previous);
    tag.add(head);
    tag.add(payload);
    tag.add(check);
    tag.end()
}

fn put_tags(owner: &LogKey, previous: &[u8; 32], veil: &[u8; 32], batch: &mut Text) -> [u8; 32]
    requires whole { payload_offset ≤ length batch.old.items }
    requires room { back_len ≤ batch.old.spare }
    ensures tag { let payload = drop payload_offset batch.old.items in
        result ≡ mac.hmac (sealing.owner_tag_key owner.now.bytes)
        (previous.now ++ (take 13 batch.old.items ++ (payload ++ mac.hmac veil.now payload))) }
    ensures items { batch.new.items ≡ batch.old.items ++ (mac.hmac veil.now (drop payload_offset batch.old.items) ++ (result ++ 0 ∷ [])) }
    ensures grown { length batch.new.items ≡ length batch.old.items + back_len }
{
    let bytes = batch.as_slice();
    let check = hmac(veil, &bytes[PAYLOAD..], &[]);
    let tag = owner_tag(
        owner,
        previous,
        &bytes[..HEAD_LEN],
        &bytes[PAYLOAD..],
        &check,
    );
    batch.put_all(&check);
    batch.put_all(&tag);
    batch.put(CLOSED);
    tag
}

/// Masks the payload of a batch that ends with it, and puts the check, the owner tag and a closed gate behind it.
/// The result is the owner tag.
pub(crate) fn finish(
    owner: &LogKey,
    previous: &[u8; 32],
    veil: &[u8; 32],
    batch: &mut Text,
) -> [u8; 32]
    requires whole { payload_offset ≤ length batch.old.items }
    requires room { back_len ≤ batch.old.spare }
    ensures grown { length batch.new.items ≡ length batch.old.items + back_len }
    ensures spelled { (b : image.Batch) → veil.now ≡ image.batch_veil owner.now.bytes b →
        batch.old.items ≡ image.batch_head b ++ (image.empty_slot ++ b.payload) →
        batch.new.items ≡ image.spell_batch owner.now.bytes previous.now (image.empty_slot) b ++ 0 ∷ [] }
    ensures tag { (b : image.Batch) → veil.now ≡ image.batch_veil owner.now.bytes b →
        batch.old.items ≡ image.batch_head b ++ (image.empty_slot ++ b.payload) →
        result ≡ image.owner_tag owner.now.bytes previous.now b }
{
    mask(veil, batch);
    put_tags(owner, previous, veil, batch)
}

/// A batch without a payload, and its owner tag.
pub(crate) struct EpochBatch {
    pub(crate) bytes: [u8; EPOCH_BATCH_LEN],
    pub(crate) tag: [u8; 32],
}

#[tactic(auto, unfolding(crate::specs::Image::empty_slot))]
fn front(head: &[u8; HEAD_LEN]) -> [u8; PAYLOAD]
    ensures { result ≡ head.now ++ image.empty_slot }
{
    let mut front = [0; PAYLOAD];
    front[..HEAD_LEN].copy_from_slice(head);
    front[HEAD_LEN..].copy_from_slice(&EMPTY_SLOT);
    front
}

fn back(check: &[u8; 32], tag: &[u8; 32]) -> [u8; BACK_LEN]
    ensures { result ≡ check.now ++ (tag.now ++ 0 ∷ []) }
{
    let mut back = [CLOSED; BACK_LEN];
    back[..32].copy_from_slice(check);
    back[32..64].copy_from_slice(tag);
    back
}

fn join_parts(front: &[u8; PAYLOAD], back: &[u8; BACK_LEN], batch: &mut [u8; EPOCH_BATCH_LEN])
    ensures { batch.new ≡ front.now ++ back.now }
{
    batch[..PAYLOAD].copy_from_slice(front);
    batch[PAYLOAD..].copy_from_slice(back);
}

/// The batch that begins an epoch, with an empty slot and a closed gate behind it. It takes no memory.
pub(crate) fn epoch_batch(
    owner: &LogKey,
    previous: &[u8; 32],
    veil: &[u8; 32],
    number: u32,
    epoch: Epoch,
) -> EpochBatch
    ensures spelled { let b = journals.epoch_batch number epoch.0 in veil.now ≡ image.batch_veil owner.now.bytes b →
        result.bytes ≡ image.spell_batch owner.now.bytes previous.now (image.empty_slot) b ++ 0 ∷ [] }
    ensures tag { let b = journals.epoch_batch number epoch.0 in veil.now ≡ image.batch_veil owner.now.bytes b →
        result.tag ≡ image.owner_tag owner.now.bytes previous.now b }
{
    let head = head(BatchType::NewEpoch, number, epoch, 0);
    let check = hmac(veil, &[], &[]);
    let tag = owner_tag(owner, previous, &head, &[], &check);
    let mut bytes = [0; EPOCH_BATCH_LEN];
    join_parts(&front(&head), &back(&check, &tag), &mut bytes);
    EpochBatch { bytes, tag }
}

/// Makes an empty text the batch of a payload, with an empty slot and a closed gate behind it. The result is its owner
/// tag. It takes no memory.
pub(crate) fn command_batch(
    owner: &LogKey,
    previous: &[u8; 32],
    veil: &[u8; 32],
    number: u32,
    epoch: Epoch,
    payload: &Payload,
    batch: &mut Text,
) -> [u8; 32]
    requires spellable { IsSpellable (plain_payload payload.now) }
    requires small { payload_size (plain_payload payload.now) < 2 ^ 32 }
    requires empty { batch.old.items ≡ [] }
    requires room { batch_len + payload_size (plain_payload payload.now) ≤ batch.old.spare }
    ensures long { length batch.new.items ≡ batch_len + payload_size (plain_payload payload.now) }
    ensures spelled { let b = journals.command_batch number epoch.0 (spell_payload (plain_payload payload.now)) in
        veil.now ≡ image.batch_veil owner.now.bytes b →
        batch.new.items ≡ image.spell_batch owner.now.bytes previous.now (image.empty_slot) b ++ 0 ∷ [] }
    ensures tag { let b = journals.command_batch number epoch.0 (spell_payload (plain_payload payload.now)) in
        veil.now ≡ image.batch_veil owner.now.bytes b →
        result ≡ image.owner_tag owner.now.bytes previous.now b }
{
    let size = payload_len(payload) as u32;
    begin(BatchType::Command, number, epoch, size, batch);
    put_payload(payload, batch);
    finish(owner, previous, veil, batch)
}
