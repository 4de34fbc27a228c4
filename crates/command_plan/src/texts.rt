//! The text that a command seals: a folder's name, a file's name and bytes, a holder's key.
ghost use Rattle.std.specs.Prelude.{◌≡◌, ◌≤◌, [], length, IfOk};
ghost use Rattle.cry_base.specs.Limits.{most_name_bytes};
ghost use Rattle.cry_base.specs.Requests.{Request};
ghost use Rattle.cry_base.specs.Requests.Request.{AddHolder};
ghost use Rattle.cry_base.specs.Store.{Store};
ghost use Rattle.folder_nodes.specs.Targets.{IsTargetOf};
ghost use Rattle.folder_nodes.specs.Titles.{bytes_in, title_at, tree_store};
ghost use Rattle.folder_nodes.specs.declared.targets.Target.TheVariants as targets;
ghost use Rattle.journal_bytes.specs.Texting.{due_text, file_text as the_file_text};
ghost use Rattle.command_plan.specs.Targeted.{HasShortName, text_to as the_text_to};

use cry_base::{FileId, List, Mem, Node, Text};
use folder_nodes::{Names, Target};
use std::alloc::Global;

/// The bytes of a holder's key.
pub const KEY_LEN: usize = 32;

/// The text that a command with this target seals, in a store of these names. A new holder's is to be the key: the text is
/// empty until it is drawn, with room for it.
pub fn text_for(alloc: Global, names: &Names, target: &Target<'_>) -> Mem<Text>
    requires short { HasShortName target.now }
    ensures text { IfOk result (λ text. (tree : Store) (r : Request) → IsTargetOf (tree_store tree names.now) r target.now
        → text.items ≡ due_text (tree_store tree names.now) r) }
    ensures room { IfOk result (λ text. (s : Store) (r : Request) → IsTargetOf s r target.now → r ≡ AddHolder → 32 ≤ text.spare) }
{
    text_to(alloc, names, target)
}

fn text_to(alloc: Global, names: &Names, target: &Target<'_>) -> Mem<Text>
    requires short { HasShortName target.now }
    ensures text { IfOk result (λ text. text.items ≡ the_text_to names.now target.now) }
    ensures room { target.now ≡ targets.AddHolder → IfOk result (λ text. 32 ≤ text.spare) }
{
    match *target {
        Target::AddHolder => with_room(alloc),
        Target::MakeFolder { name, .. } => copied(alloc, name),
        Target::WriteFile { name, bytes, .. } => file_text(alloc, name, bytes),
        Target::Rename {
            node: Node::Folder(_),
            name,
        } => copied(alloc, name),
        Target::Rename {
            node: Node::File(file),
            name,
        } => file_text(alloc, name, bytes_of(names, file)),
        Target::Remove { .. }
        | Target::Relocate { .. }
        | Target::Grant { .. }
        | Target::Revoke { .. } => Ok(List::new(alloc)),
    }
}

/// No bytes, with room for a key.
fn with_room(alloc: Global) -> Mem<Text>
    ensures items { IfOk result (λ text. text.items ≡ []) }
    ensures room { IfOk result (λ text. 32 ≤ text.spare) }
{
    let mut text = List::new(alloc);
    text.reserve(KEY_LEN)?;
    Ok(text)
}

pub(crate) fn copied(alloc: Global, bytes: &[u8]) -> Mem<Text>
    ensures { IfOk result (λ text. text.items ≡ bytes.now) }
{
    let mut text = List::new(alloc);
    text.append(bytes)?;
    Ok(text)
}

/// A file's text: the length of its name as one byte, the name, the bytes.
fn file_text(alloc: Global, name: &[u8], bytes: &[u8]) -> Mem<Text>
    requires { length name.now ≤ most_name_bytes }
    ensures { IfOk result (λ text. text.items ≡ the_file_text name.now bytes.now) }
{
    let mut text = List::new(alloc);
    text.push(name.len() as u8)?;
    text.append(name)?;
    text.append(bytes)?;
    Ok(text)
}

/// The bytes of a file, and none where it has no name.
pub(crate) fn bytes_of(names: &Names, file: FileId) -> &[u8]
    ensures { result.now ≡ bytes_in (title_at names.now.files file.0) }
{
    match names.bytes(file) {
        Some(bytes) => bytes,
        None => &[],
    }
}
