//! Bytes to payloads, from left to right.
ghost use Rattle.std.specs.Prelude.{◌≡◌, ◌≤◌, [], map, Ok, IfOk, IfErr};
ghost use Rattle.record_format.specs.Fields.{repeat_at};
ghost use Rattle.record_format.specs.Plain.{PlainPayload, plain_content, plain_payload};
ghost use Rattle.record_format.specs.Reading.{Gives, Answers, note_of_none, note_of_one, note_of_two, new_holder_at, one_id_at};
ghost use Rattle.record_format.specs.Reading.{two_ids_at, note_at};
ghost use Rattle.record_format.specs.Reading.{link_at, content_at, payload_at, whole_payload, payload_or_place, IsPlaceIn, EndsABeginning};
ghost use Rattle.record_format.specs.Spellable.{IsSpellable};
ghost use Rattle.record_format.specs.Spelling.{spell_payload};

use crate::content::{CONTENT_FRAME_LEN, text_range};
use crate::fault::Stop;
use crate::fields::{array_of, byte_of, bytes_of, u32_between, u32_of, u64_of};
use crate::link::LINK_LEN;
use crate::{ContentRecord, LinkRecord, Note, Payload, PayloadFault};
use cry_base::{FileId, FolderId, HolderId, List, Mem, Serial, Text};
use std::alloc::Global;

fn without_fields(code: u8) -> Note
    ensures { result ≡ note_of_none code }
{
    match code {
        1 => Note::Root,
        14 => Note::StrictRoot,
        _ => Note::Upgrade,
    }
}

fn with_one_id(code: u8, id: u32) -> Note
    ensures { result ≡ note_of_one code id }
{
    match code {
        5 => Note::Rewrite { file: FileId(id) },
        6 => Note::NameFile { file: FileId(id) },
        7 => Note::NameFolder {
            folder: FolderId(id),
        },
        8 => Note::DropFile { file: FileId(id) },
        _ => Note::DropFolder {
            folder: FolderId(id),
        },
    }
}

fn with_two_ids(code: u8, first: u32, second: u32) -> Note
    ensures { result ≡ note_of_two code first second }
{
    match code {
        3 => Note::NewFolder {
            folder: FolderId(first),
            parent: FolderId(second),
        },
        4 => Note::NewFile {
            file: FileId(first),
            folder: FolderId(second),
        },
        10 => Note::ShiftFile {
            file: FileId(first),
            into: FolderId(second),
        },
        11 => Note::ShiftFolder {
            folder: FolderId(first),
            into: FolderId(second),
        },
        12 => Note::Give {
            holder: HolderId(first),
            folder: FolderId(second),
        },
        _ => Note::Take {
            holder: HolderId(first),
            folder: FolderId(second),
        },
    }
}

#[tactic(auto, unfolding(crate::specs::Fields::and_then, crate::specs::Reading::new_holder_at))]
fn new_holder_of(bytes: &[u8]) -> Result<(Note, &[u8]), Stop>
    ensures { Gives (λ x. (x.0, x.1.now)) result (new_holder_at bytes.now) }
{
    let (holder, rest) = u32_of(bytes)?;
    let (check, rest) = array_of(rest)?;
    Ok((
        Note::NewHolder {
            holder: HolderId(holder),
            check,
        },
        rest,
    ))
}

#[tactic(auto, unfolding(crate::specs::Fields::and_then, crate::specs::Reading::one_id_at))]
fn one_id_of(code: u8, bytes: &[u8]) -> Result<(Note, &[u8]), Stop>
    ensures { Gives (λ x. (x.0, x.1.now)) result (one_id_at code bytes.now) }
{
    let (id, rest) = u32_of(bytes)?;
    Ok((with_one_id(code, id), rest))
}

#[tactic(auto, unfolding(crate::specs::Fields::and_then, crate::specs::Reading::two_ids_at))]
fn two_ids_of(code: u8, bytes: &[u8]) -> Result<(Note, &[u8]), Stop>
    ensures { Gives (λ x. (x.0, x.1.now)) result (two_ids_at code bytes.now) }
{
    let (first, rest) = u32_of(bytes)?;
    let (second, rest) = u32_of(rest)?;
    Ok((with_two_ids(code, first, second), rest))
}

#[tactic(auto, unfolding(crate::specs::Fields::and_then, crate::specs::Reading::note_at, crate::specs::Reading::note_fields_at))]
fn note_of(bytes: &[u8]) -> Result<(Note, &[u8]), Stop>
    ensures { Gives (λ x. (x.0, x.1.now)) result (note_at bytes.now) }
{
    let (code, rest) = byte_of(1, 15, bytes)?;
    match code {
        1 | 14.. => Ok((without_fields(code), rest)),
        2 => new_holder_of(rest),
        5..=9 => one_id_of(code, rest),
        _ => two_ids_of(code, rest),
    }
}

#[tactic(auto, unfolding(crate::specs::Fields::and_then, crate::specs::Reading::link_at))]
fn link_of(bytes: &[u8]) -> Result<(LinkRecord, &[u8]), Stop>
    ensures { Gives (λ x. (x.0, x.1.now)) result (link_at bytes.now) }
{
    let (_, rest) = byte_of(1, 1, bytes)?;
    let (kind, rest) = byte_of(1, 11, rest)?;
    let (from_id, rest) = u32_of(rest)?;
    let (to_id, rest) = u32_of(rest)?;
    let (from_serial, rest) = u64_of(rest)?;
    let (to_serial, rest) = u64_of(rest)?;
    let (nonce, rest) = u64_of(rest)?;
    let (cipher, rest) = array_of(rest)?;
    let (tag, rest) = array_of(rest)?;
    let link = LinkRecord {
        kind,
        from_id,
        to_id,
        from_serial: Serial(from_serial),
        to_serial: Serial(to_serial),
        nonce,
        cipher,
        tag,
    };
    Ok((link, rest))
}

#[tactic(auto, unfolding(crate::specs::Fields::and_then, crate::specs::Reading::content_at))]
fn content_of(alloc: Global, bytes: &[u8]) -> Result<(ContentRecord, &[u8]), Stop>
    ensures { Gives (λ x. (plain_content x.0, x.1.now)) result (content_at bytes.now) }
{
    let (_, rest) = byte_of(2, 2, bytes)?;
    let (kind, rest) = byte_of(1, 3, rest)?;
    let (object, rest) = u32_of(rest)?;
    let (key_serial, rest) = u64_of(rest)?;
    let (nonce, rest) = u64_of(rest)?;
    let (shortest, longest) = text_range(kind);
    let (len, rest) = u32_between(shortest, longest, rest)?;
    let (text, rest) = bytes_of(len as usize, rest)?;
    let (tag, rest) = array_of(rest)?;
    let mut cipher = Text::new(alloc);
    cipher.append(text)?;
    let content = ContentRecord {
        kind,
        object,
        key_serial: Serial(key_serial),
        nonce,
        cipher,
        tag,
    };
    Ok((content, rest))
}

/// Room for so many records, but for no more than the bytes may hold, since the count comes from outside.
pub fn list_with_room<T: Drop>(
    alloc: Global,
    count: u32,
    least_len: u64,
    bytes: &[u8],
) -> Mem<List<T>>
    requires { 1 ≤ least_len }
    ensures { IfOk result (λ records. records.items ≡ []) }
{
    let most = bytes.len() / least_len as usize;
    let mut records = List::new(alloc);
    records.reserve(most.min(count as usize))?;
    Ok(records)
}

fn links_of(alloc: Global, count: u32, bytes: &[u8]) -> Result<(List<LinkRecord>, &[u8]), Stop>
    ensures { Gives (λ x. (x.0.items, x.1.now)) result (repeat_at link_at count bytes.now) }
{
    let mut links = list_with_room(alloc, count, LINK_LEN, bytes)?;
    let mut rest = bytes;
    for _ in 0..count {
        let (link, after) = link_of(rest)?;
        links.push(link)?;
        rest = after;
    }
    Ok((links, rest))
}

fn contents_of(
    alloc: Global,
    count: u32,
    bytes: &[u8],
) -> Result<(List<ContentRecord>, &[u8]), Stop>
    ensures { Gives (λ x. (map plain_content x.0.items, x.1.now)) result (repeat_at content_at count bytes.now) }
{
    let mut contents = list_with_room(alloc, count, CONTENT_FRAME_LEN, bytes)?;
    let mut rest = bytes;
    for _ in 0..count {
        let (content, after) = content_of(alloc, rest)?;
        contents.push(content)?;
        rest = after;
    }
    Ok((contents, rest))
}

#[tactic(auto, unfolding(crate::specs::Fields::and_then, crate::specs::Reading::payload_at))]
fn payload_of(alloc: Global, bytes: &[u8]) -> Result<(Payload, &[u8]), Stop>
    ensures { Gives (λ x. (plain_payload x.0, x.1.now)) result (payload_at bytes.now) }
{
    let (note, rest) = note_of(bytes)?;
    let (link_count, rest) = u32_of(rest)?;
    let (content_count, rest) = u32_of(rest)?;
    let (links, rest) = links_of(alloc, link_count, rest)?;
    let (contents, rest) = contents_of(alloc, content_count, rest)?;
    Ok((
        Payload {
            note,
            links,
            contents,
        },
        rest,
    ))
}

#[tactic(auto, unfolding(crate::specs::Fields::and_then, crate::specs::Reading::whole_payload))]
fn whole_of(alloc: Global, bytes: &[u8]) -> Result<Payload, Stop>
    ensures { Gives plain_payload result (whole_payload bytes.now) }
{
    let (payload, rest) = payload_of(alloc, bytes)?;
    if !rest.is_empty() {
        return Err(Stop::Bad { left: rest.len() });
    }
    Ok(payload)
}

/// The payload that the bytes spell, all of the bytes.
///
/// `Format` comes exactly where they spell none: `at` is the offset in bytes of the first field that is cut short or
/// has a value that isn't allowed, or of the first byte after the last record (docs/FORMAT.md, "Notes and payloads").
/// The answer comes in the time of the bytes, whatever counts they claim.
pub fn read_payload(alloc: Global, bytes: &[u8]) -> Result<Payload, PayloadFault>
    // What is read is spelled so.
    ensures found { IfOk result (λ p. IsSpellable (plain_payload p) × (bytes.now ≡ spell_payload (plain_payload p))) }
    // What is spelled so is read, unless memory ran out.
    ensures only { (p : PlainPayload) → IsSpellable p → bytes.now ≡ spell_payload p → Answers result (Ok p) }
    // Which place it is. What stands before it begins the spelling of a payload.
    ensures exact { Answers result (payload_or_place bytes.now) }
    ensures inside { IfErr result (IsPlaceIn bytes.now) }
    ensures before { IfErr result (EndsABeginning bytes.now) }
{
    match whole_of(alloc, bytes) {
        Ok(payload) => Ok(payload),
        Err(Stop::Bad { left }) => Err(PayloadFault::Format {
            at: bytes.len() - left,
        }),
        Err(Stop::OutOfMemory) => Err(PayloadFault::OutOfMemory),
    }
}
