//! Payloads to bytes.
ghost use Rattle.std.specs.Prelude.{◌≡◌, ◌+◌, ◌*◌, ◌<◌, ◌≤◌, ◌^◌, ◌∷◌, ◌++◌, length, map, All, OnOk, OnErr, IsOk};
ghost use Rattle.std.specs.List.{flat_map, sum_by};
ghost use Rattle.record_format.specs.Plain.{plain_content, plain_payload};
ghost use Rattle.record_format.specs.Sizes.{note_size, content_size, payload_size};
ghost use Rattle.record_format.specs.Spellable.{IsSpellable};
ghost use Rattle.record_format.specs.Spelling.{be32, spell_note, spell_link, spell_content, spell_payload};

use crate::{ContentRecord, LinkRecord, Note, Payload, content_header, link_header, payload_len};
use cry_base::{Mem, Text};

/// Adds a number of four bytes, the highest first, at the end of a text that has room for it.
#[tactic(auto, unfolding(crate::specs::Spelling::be32))]
pub fn put_number(number: u32, out: &mut Text)
    requires { 4 ≤ out.old.spare }
    ensures items { out.new.items ≡ out.old.items ++ be32 number }
    ensures spare { out.old.spare ≤ out.new.spare + 4 }
{
    out.put_all(&number.to_be_bytes());
}

fn put_one(code: u8, id: u32, out: &mut Text)
    requires { 5 ≤ out.old.spare }
    ensures items { out.new.items ≡ out.old.items ++ code ∷ be32 id }
    ensures spare { out.old.spare ≤ out.new.spare + 5 }
{
    out.put(code);
    put_number(id, out);
}

fn put_two(code: u8, first: u32, second: u32, out: &mut Text)
    requires { 9 ≤ out.old.spare }
    ensures items { out.new.items ≡ out.old.items ++ code ∷ (be32 first ++ be32 second) }
    ensures spare { out.old.spare ≤ out.new.spare + 9 }
{
    put_one(code, first, out);
    put_number(second, out);
}

#[tactic(auto, unfolding(crate::specs::Spelling::spell_note))]
fn put_note(note: &Note, out: &mut Text)
    requires { note_size note.now ≤ out.old.spare }
    ensures items { out.new.items ≡ out.old.items ++ spell_note note.now }
    ensures spare { out.old.spare ≤ out.new.spare + note_size note.now }
{
    match note {
        Note::Root => out.put(1),
        Note::NewHolder { holder, check } => {
            put_one(2, holder.0, out);
            out.put_all(check);
        }
        Note::NewFolder { folder, parent } => put_two(3, folder.0, parent.0, out),
        Note::NewFile { file, folder } => put_two(4, file.0, folder.0, out),
        Note::Rewrite { file } => put_one(5, file.0, out),
        Note::NameFile { file } => put_one(6, file.0, out),
        Note::NameFolder { folder } => put_one(7, folder.0, out),
        Note::DropFile { file } => put_one(8, file.0, out),
        Note::DropFolder { folder } => put_one(9, folder.0, out),
        Note::ShiftFile { file, into } => put_two(10, file.0, into.0, out),
        Note::ShiftFolder { folder, into } => put_two(11, folder.0, into.0, out),
        Note::Give { holder, folder } => put_two(12, holder.0, folder.0, out),
        Note::Take { holder, folder } => put_two(13, holder.0, folder.0, out),
        Note::StrictRoot => out.put(14),
        Note::Upgrade => out.put(15),
    }
}

#[tactic(auto, unfolding(crate::specs::Spelling::spell_link))]
fn put_link(link: &LinkRecord, out: &mut Text)
    requires { 98 ≤ out.old.spare }
    ensures items { out.new.items ≡ out.old.items ++ spell_link link.now }
    ensures spare { out.old.spare ≤ out.new.spare + 98 }
{
    out.put_all(&link_header(link));
    out.put_all(&link.cipher);
    out.put_all(&link.tag);
}

fn put_links(links: &[LinkRecord], out: &mut Text)
    requires { 98 * length links.now ≤ out.old.spare }
    ensures items { out.new.items ≡ out.old.items ++ flat_map spell_link links.now }
    ensures spare { out.old.spare ≤ out.new.spare + 98 * length links.now }
{
    for link in links {
        put_link(link, out);
    }
}

#[tactic(auto, unfolding(crate::specs::Spelling::spell_content))]
fn put_content(content: &ContentRecord, out: &mut Text)
    requires fits { length content.now.cipher.items < 2 ^ 32 }
    requires room { content_size (plain_content content.now) ≤ out.old.spare }
    ensures items { out.new.items ≡ out.old.items ++ spell_content (plain_content content.now) }
    ensures spare { out.old.spare ≤ out.new.spare + content_size (plain_content content.now) }
{
    out.put_all(&content_header(content));
    out.put_all(content.cipher.as_slice());
    out.put_all(&content.tag);
}

fn put_contents(contents: &[ContentRecord], out: &mut Text)
    requires fit { All (λ r. length r.cipher.items < 2 ^ 32) contents.now }
    requires room { sum_by content_size (map plain_content contents.now) ≤ out.old.spare }
    ensures items { out.new.items ≡ out.old.items ++ flat_map spell_content (map plain_content contents.now) }
    ensures spare { out.old.spare ≤ out.new.spare + sum_by content_size (map plain_content contents.now) }
{
    for content in contents {
        put_content(content, out);
    }
}

/// Adds the payload's spelling at the end of a text that has room for it. It takes no memory.
#[tactic(auto, unfolding(crate::specs::Spelling::spell_payload))]
pub fn put_payload(payload: &Payload, out: &mut Text)
    requires spellable { IsSpellable (plain_payload payload.now) }
    requires room { payload_size (plain_payload payload.now) ≤ out.old.spare }
    ensures items { out.new.items ≡ out.old.items ++ spell_payload (plain_payload payload.now) }
    ensures spare { out.old.spare ≤ out.new.spare + payload_size (plain_payload payload.now) }
{
    let links = payload.links.as_slice();
    let contents = payload.contents.as_slice();
    put_note(&payload.note, out);
    put_number(links.len() as u32, out);
    put_number(contents.len() as u32, out);
    put_links(links, out);
    put_contents(contents, out);
}

/// Adds the payload's spelling at the end of a text. At `Err` the text is as it was.
pub fn write_payload(payload: &Payload, out: &mut Text) -> Mem<()>
    requires { IsSpellable (plain_payload payload.now) }
    ensures ok { OnOk result (out.new.items ≡ out.old.items ++ spell_payload (plain_payload payload.now)) }
    ensures err { OnErr result (out.new.items ≡ out.old.items) }
    ensures has_room { payload_size (plain_payload payload.now) ≤ out.old.spare → IsOk result }
{
    out.reserve(payload_len(payload) as usize)?;
    put_payload(payload, out);
    Ok(())
}
