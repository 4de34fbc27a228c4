//! What a note's command seals: at most one name, file or holder's key (docs/FORMAT.md, "Records").
ghost use Rattle.std.specs.Prelude.{◌≡◌, [], ◌∷◌, length, map, IfOk};
ghost use Rattle.record_format.specs.Told.{told_note};
ghost use Rattle.public_fold.specs.Heads.{content_head, due_of, textless};
ghost use Rattle.public_fold.specs.KeyStep.{contents_from};
ghost use Rattle.public_fold.specs.KeysAfter.{keys_then_of};
ghost use Rattle.public_fold.specs.Records.{sealing_role as role_of_piece};

use crate::ContentHead;
use crate::keys::KeysThen;
use cry_base::{FileId, FolderId, List, Mem, ROOT, Role};
use record_format::{FILE_TEXT, FOLDER_NAME, HOLDER_KEY, Note};
use std::alloc::Global;

/// How many texts the note's command seals.
#[tactic(auto, unfolding(crate::specs::Heads::due_of, record_format::specs::Told::told_note))]
pub(crate) fn content_count(note: &Note) -> usize
    ensures { result ≡ length (due_of (told_note note.now)) }
{
    match note {
        Note::Root
        | Note::StrictRoot
        | Note::NewHolder { .. }
        | Note::NewFolder { .. }
        | Note::NewFile { .. }
        | Note::Rewrite { .. }
        | Note::NameFile { .. }
        | Note::NameFolder { .. } => 1,
        _ => 0,
    }
}

/// The contents that the note's command seals under the present keys, with the nonces numbered from a serial on.
#[tactic(auto, unfolding(crate::specs::Heads::due_of, record_format::specs::Told::told_note, crate::specs::KeyStep::contents_from, crate::specs::KeyStep::numbered))]
pub(crate) fn content_heads(
    alloc: Global,
    keys: &KeysThen<'_>,
    note: &Note,
    nonce: u64,
) -> Mem<List<ContentHead>>
    ensures { IfOk result (λ l. l.items ≡ map content_head (contents_from (keys_then_of keys.now) nonce (due_of (told_note note.now)))) }
{
    match *note {
        Note::Root | Note::StrictRoot => one_head(alloc, keys, FOLDER_NAME, ROOT.0, nonce),
        Note::NewHolder { holder, .. } => one_head(alloc, keys, HOLDER_KEY, holder.0, nonce),
        Note::NewFolder { folder, .. } => one_head(alloc, keys, FOLDER_NAME, folder.0, nonce),
        Note::NewFile { file, .. } => one_head(alloc, keys, FILE_TEXT, file.0, nonce),
        Note::Rewrite { file } => one_head(alloc, keys, FILE_TEXT, file.0, nonce),
        Note::NameFile { file } => one_head(alloc, keys, FILE_TEXT, file.0, nonce),
        Note::NameFolder { folder } => one_head(alloc, keys, FOLDER_NAME, folder.0, nonce),
        Note::DropFile { .. }
        | Note::DropFolder { .. }
        | Note::ShiftFile { .. }
        | Note::ShiftFolder { .. }
        | Note::Give { .. }
        | Note::Take { .. }
        | Note::Upgrade => Ok(List::new(alloc)),
    }
}

/// The one content of a kind, sealed under the present key of its role.
#[tactic(auto, unfolding(crate::specs::KeyStep::contents_from, crate::specs::KeyStep::numbered, crate::specs::KeyStep::content_of))]
fn one_head(
    alloc: Global,
    keys: &KeysThen<'_>,
    kind: u8,
    object: u32,
    nonce: u64,
) -> Mem<List<ContentHead>>
    ensures { IfOk result (λ l. l.items ≡ map content_head (contents_from (keys_then_of keys.now) nonce (textless kind object ∷ []))) }
{
    let mut contents = List::new(alloc);
    contents.push(ContentHead {
        kind,
        object,
        key_serial: keys.present(sealing_role(kind, object)),
        nonce,
    })?;
    Ok(contents)
}

/// The role whose key seals a folder's name (kind 1), a file (2) or a holder's key.
#[tactic(auto, unfolding(crate::specs::Records::sealing_role, role_graph::specs::Roles::data_of, role_graph::specs::Roles::file_role))]
fn sealing_role(kind: u8, object: u32) -> Role
    ensures { result ≡ role_of_piece (textless kind object) }
{
    match kind {
        FOLDER_NAME => Role::Data(FolderId(object)),
        FILE_TEXT => Role::File(FileId(object)),
        _ => Role::Owner,
    }
}
