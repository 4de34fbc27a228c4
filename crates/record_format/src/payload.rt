//! What a batch of one command carries: the note's code and fields, the number of links and the number of
//! contents (4 bytes each, big-endian), the links, the contents (docs/FORMAT.md, "Notes and payloads").
ghost use Rattle.std.specs.Prelude.{◌≡◌, ◌+◌, ◌<◌, ◌^◌, length};
ghost use Rattle.std.specs.List.{sum_by};
ghost use Rattle.record_format.specs.Plain.{plain_payload};
ghost use Rattle.record_format.specs.Sizes.{note_size, payload_size};
ghost use Rattle.record_format.specs.Spellable.{IsSpellable};
ghost use Rattle.record_format.specs.Spelling.{spell_payload};

use crate::content::CONTENT_FRAME_LEN;
use crate::link::LINK_LEN;
use crate::{ContentRecord, LinkRecord, Note};
use cry_base::List;

/// What one command did, and the records that it published.
#[derive(Debug, Drop, PartialEq, Eq)]
pub struct Payload {
    pub note: Note,
    pub links: List<LinkRecord>,
    pub contents: List<ContentRecord>,
}

fn note_len(note: &Note) -> u64
    ensures { result ≡ note_size note.now }
{
    match note {
        Note::Root | Note::StrictRoot | Note::Upgrade => 1,
        Note::NewHolder { .. } => 37,
        Note::Rewrite { .. }
        | Note::NameFile { .. }
        | Note::NameFolder { .. }
        | Note::DropFile { .. }
        | Note::DropFolder { .. } => 5,
        _ => 9,
    }
}

/// The number of bytes of these contents' spelling: of each a head, the text and a tag.
pub fn contents_len(contents: &[ContentRecord]) -> u64
    requires { sum_by (λ c. 58 + length c.cipher.items) contents.now < 2 ^ 64 }
    ensures { result ≡ sum_by (λ c. 58 + length c.cipher.items) contents.now }
{
    contents
        .iter()
        .map(|content| CONTENT_FRAME_LEN + content.cipher.as_slice().len() as u64)
        .sum()
}

/// How many bytes of a payload's spelling stand before its links: the note and two counts.
pub fn links_offset(note: &Note) -> u64
    ensures { result ≡ note_size note.now + 8 }
{
    note_len(note) + 8
}

/// The number of bytes of the payload's spelling.
pub fn payload_len(payload: &Payload) -> u64
    requires { IsSpellable (plain_payload payload.now) }
    ensures size { result ≡ payload_size (plain_payload payload.now) }
    ensures spelled { result ≡ length (spell_payload (plain_payload payload.now)) }
{
    let links = LINK_LEN * payload.links.as_slice().len() as u64;
    links_offset(&payload.note) + links + contents_len(payload.contents.as_slice())
}
