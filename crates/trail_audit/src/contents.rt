//! The contents of a log, opened with all right keys (docs/FORMAT.md, "Records").
ghost use Rattle.std.specs.Prelude.{◌≡◌, ◌++◌, [], ◌∷◌, IfErr, IfOk, IsTrue, List as TheList, OnOk, map, true};
ghost use Rattle.chacha_seal.specs.Keys.{KeyParts};
ghost use Rattle.trail_audit.specs.Auditing.{is_text as the_text, sealing_id as the_sealing_id};
ghost use Rattle.trail_audit.specs.Derived as spec;
ghost use Rattle.trail_audit.specs.Grouped.{HasGroups, content_source, key_source};
ghost use Rattle.trail_audit.specs.Records.{IsTagged};
ghost use Rattle.trail_audit.specs.Records.PlainRecord.{AContent};

use crate::Seen;
use crate::grouped::{Source, group_of};
use crate::placed_records::ContentAt;
use crate::trails::{KnownKeys, Openers};
use chacha_seal::{BadTag, HolderK, Key, open_in_place};
use cry_base::{FileId, FolderId, List, Node, Text};
use log_visits::{ClientFault, file_parts, is_folder_text, text_of};
use record_format::{FILE_TEXT, FOLDER_NAME, HOLDER_KEY, content_header};
use std::alloc::Global;

/// The number of the role whose key seals the content.
#[tactic(auto, unfolding(crate::specs::Auditing::sealing_id))]
fn sealing_id(found: &ContentAt<'_>) -> u32
    ensures { result ≡ the_sealing_id found.now.content }
{
    if found.content.kind == HOLDER_KEY {
        0
    } else {
        found.content.object
    }
}

/// Whether the content says that it is sealed under the key.
#[tactic(auto, unfolding(crate::specs::Derived::is_sealed_by))]
fn is_sealed_by(found: &ContentAt<'_>, key: &Key<HolderK>) -> bool
    ensures { result ≡ spec.is_sealed_by found.now.content key.now }
{
    sealing_id(found) == key.id() && found.content.key_serial.0 == key.serial().0
}

/// Opens a content. `Tampered` comes exactly where its tag is wrong under the key.
#[tactic(auto, unfolding(crate::specs::Derived::text_with))]
fn open_content(
    alloc: Global,
    found: &ContentAt<'_>,
    key: &Key<HolderK>,
) -> Result<Text, ClientFault>
    requires sealed { IsTrue (spec.is_sealed_by found.now.content key.now) }
    ensures tagged { IfOk result (λ _. IsTagged key.now.bytes (AContent found.now.content)) }
    ensures text { IfOk result (λ text. text.items ≡ spec.text_with found.now.content key.now) }
    ensures fault { IfErr result (spec.ContentFault (found.now ∷ []) (key.now ∷ [])) }
{
    let content = found.content;
    let header = content_header(content);
    let mut text = Text::new(alloc);
    text.append(content.cipher.as_slice())?;
    key.keep_derived(alloc);
    match open_in_place(
        key,
        content.nonce,
        &header,
        text.as_mut_slice(),
        &content.tag,
    ) {
        Ok(()) => Ok(text),
        Err(BadTag) => Err(ClientFault::Tampered {
            batch: found.batch,
            at: found.at,
        }),
    }
}

/// Adds the name of a folder. `Damaged` comes exactly where the text is no name, and for the root where it isn't empty.
fn see_folder(
    alloc: Global,
    found: &ContentAt<'_>,
    text: Text,
    seen: &mut List<Seen>,
) -> Result<(), ClientFault>
    requires kind { found.now.content.kind ≡ 1 }
    ensures form { OnOk result (the_text found.now.content text.items ≡ true) }
    ensures seen { OnOk result (map spec.plain_seen seen.new.items ≡ map spec.plain_seen seen.old.items
        ++ spec.text_shown found.now.batch found.now.content text.items) }
    ensures fault { IfErr result (spec.FormFault found.now text.items) }
{
    let folder = FolderId(found.content.object);
    if !is_folder_text(folder, text.as_slice()) {
        return Err(ClientFault::Damaged { at: found.at });
    }
    seen.push(Seen {
        batch: found.batch,
        node: Node::Folder(folder),
        name: text,
        bytes: Text::new(alloc),
    })?;
    Ok(())
}

/// Adds the name and the bytes of a file. `Damaged` comes exactly where the text isn't a length, a name of that length and the
/// bytes of a file.
fn see_file(
    alloc: Global,
    found: &ContentAt<'_>,
    text: &[u8],
    seen: &mut List<Seen>,
) -> Result<(), ClientFault>
    requires kind { found.now.content.kind ≡ 2 }
    ensures form { OnOk result (the_text found.now.content text.now ≡ true) }
    ensures seen { OnOk result (map spec.plain_seen seen.new.items ≡ map spec.plain_seen seen.old.items
        ++ spec.text_shown found.now.batch found.now.content text.now) }
    ensures fault { IfErr result (spec.FormFault found.now text.now) }
{
    let Some((name, bytes)) = file_parts(text) else {
        return Err(ClientFault::Damaged { at: found.at });
    };
    let name = text_of(alloc, name)?;
    let bytes = text_of(alloc, bytes)?;
    seen.push(Seen {
        batch: found.batch,
        node: Node::File(FileId(found.content.object)),
        name,
        bytes,
    })?;
    Ok(())
}

/// Adds what a text shows. `Damaged` comes exactly where it isn't of its content's form.
fn see_text(
    alloc: Global,
    found: &ContentAt<'_>,
    text: Text,
    seen: &mut List<Seen>,
) -> Result<(), ClientFault>
    ensures form { OnOk result (the_text found.now.content text.items ≡ true) }
    ensures seen { OnOk result (map spec.plain_seen seen.new.items ≡ map spec.plain_seen seen.old.items
        ++ spec.text_shown found.now.batch found.now.content text.items) }
    ensures fault { IfErr result (spec.FormFault found.now text.items) }
{
    let kind = found.content.kind;
    if kind == FOLDER_NAME {
        return see_folder(alloc, found, text, seen);
    }
    if kind == FILE_TEXT {
        return see_file(alloc, found, text.as_slice(), seen);
    }
    Ok(())
}

/// Opens a content with a key, where it says that it is sealed under it, and adds what it shows.
fn see_with(
    alloc: Global,
    found: &ContentAt<'_>,
    key: &Key<HolderK>,
    seen: &mut List<Seen>,
) -> Result<(), ClientFault>
    ensures opened { OnOk result (spec.IsOpened (key.now ∷ []) found.now) }
    ensures seen { OnOk result (map spec.plain_seen seen.new.items ≡ map spec.plain_seen seen.old.items
        ++ spec.content_shown (key.now ∷ []) found.now) }
    ensures fault { IfErr result (spec.ContentFault (found.now ∷ []) (key.now ∷ [])) }
{
    if !is_sealed_by(found, key) {
        return Ok(());
    }
    let text = open_content(alloc, found, key)?;
    see_text(alloc, found, text, seen)
}

/// Opens a content with each of the keys that it says it is sealed under, one after another.
fn see_content(
    alloc: Global,
    found: &ContentAt<'_>,
    keys: &[Key<HolderK>],
    seen: &mut List<Seen>,
) -> Result<(), ClientFault>
    ensures opened { OnOk result (spec.IsOpened keys.now found.now) }
    ensures seen { OnOk result (map spec.plain_seen seen.new.items ≡ map spec.plain_seen seen.old.items
        ++ spec.content_shown keys.now found.now) }
    ensures fault { IfErr result (spec.ContentFault (found.now ∷ []) keys.now) }
{
    for key in keys {
        see_with(alloc, found, key, seen)?;
    }
    Ok(())
}

/// What the content says that it is sealed under.
pub(crate) fn source_of(found: &ContentAt<'_>) -> Source
    ensures { result ≡ content_source found.now.content }
{
    Source {
        id: sealing_id(found),
        serial: found.content.key_serial.0,
    }
}

/// Opens a content with each of the keys that it says it is sealed under, and walks over no other.
fn see_under(
    alloc: Global,
    found: &ContentAt<'_>,
    groups: &Openers,
    seen: &mut List<Seen>,
) -> Result<(), ClientFault>
    ensures opened { OnOk result ((keys : TheList KeyParts) → HasGroups key_source groups.now keys → spec.IsOpened keys found.now) }
    ensures seen { OnOk result ((keys : TheList KeyParts) → HasGroups key_source groups.now keys →
        map spec.plain_seen seen.new.items ≡ map spec.plain_seen seen.old.items ++ spec.content_shown keys found.now) }
    ensures fault { IfErr result (λ fault. (keys : TheList KeyParts) → HasGroups key_source groups.now keys
        → spec.ContentFault (found.now ∷ []) keys fault) }
{
    see_content(alloc, found, group_of(groups, source_of(found)), seen)
}

/// Opens each content with each of the keys that it says it is sealed under, in order, and adds what they show. `Tampered` comes
/// only for a content with a wrong tag under such a key, and `Damaged` only for one with a right tag and a text that isn't of its
/// form; where there is such a content, the answer isn't Ok.
pub(crate) fn see_contents(
    alloc: Global,
    contents: &[ContentAt<'_>],
    known: &KnownKeys,
    seen: &mut List<Seen>,
) -> Result<(), ClientFault>
    requires grouped { HasGroups key_source known.now.groups known.now.keys.items }
    ensures seen { OnOk result (spec.AreSeen known.now.keys.items contents.now (map spec.plain_seen seen.old.items)
        (map spec.plain_seen seen.new.items)) }
    ensures fault { IfErr result (spec.ContentFault contents.now known.now.keys.items) }
{
    for found in contents {
        see_under(alloc, found, &known.groups, seen)?;
    }
    Ok(())
}
