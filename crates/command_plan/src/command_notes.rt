//! The note of a command, from what it found.
ghost use Rattle.std.specs.Prelude.{◌≡◌, ◌<◌, Some, length, replicate};
ghost use Rattle.cry_base.specs.Clearances.{clear_base};
ghost use Rattle.cry_base.specs.Refusing.{granted_id};
ghost use Rattle.cry_base.specs.Requests.{Request};
ghost use Rattle.cry_base.specs.Store.{Store};
ghost use Rattle.folder_nodes.specs.Targets.{IsTargetOf, file_found};
ghost use Rattle.folder_nodes.specs.Titles.{Titles, tree_store};
ghost use Rattle.journal_bytes.specs.Owning.{IsStoreOf};
ghost use Rattle.move_plan.specs.Noting.{move_note, note_of, remove_note, rename_note, write_note};
ghost use Rattle.record_format.specs.Told.{told_note};
ghost use Rattle.command_plan.specs.Targeted.{HasNumber, IsNumbered, note_to as the_note_to};

use cry_base::{FileId, FolderId, HolderId, Node};
use folder_nodes::{Shape, Target};
use grant_book::{Grants, clear_number};
use record_format::Note;

/// The check of a holder whose key isn't drawn yet.
const NO_CHECK: [u8; 32] = [0; 32];

/// The note of a command with this target, in any store whose tree and grants these are. A new holder's check is all zeros in it,
/// until the key is drawn. It takes no memory.
pub fn note_for(shape: &Shape, grants: &Grants, target: &Target<'_>) -> Note
    requires found { (names : Titles) × (r : Request) × IsTargetOf (tree_store shape.now.tree names) r target.now }
    requires folders { shape.now.tree.folders_made < 4294967295 }
    requires files { shape.now.tree.files_made < clear_base }
    requires holders { length grants.now.checks < 4294967295 }
    ensures { (names : Titles) (r : Request) → IsTargetOf (tree_store shape.now.tree names) r target.now
        → (s : Store) → IsStoreOf shape.now.tree names grants.now s → told_note result ≡ note_of s r (replicate 32 0) }
{
    shape.is_tree();
    note_to(shape, grants, target)
}

#[tactic(auto, unfolding(record_format::specs::Told::told_note))]
fn note_to(shape: &Shape, grants: &Grants, target: &Target<'_>) -> Note
    requires numbered { HasNumber target.now }
    requires folders { shape.now.tree.folders_made < 4294967295 }
    requires files { shape.now.tree.files_made < 4294967295 }
    requires holders { length grants.now.checks < 4294967295 }
    ensures { told_note result ≡ the_note_to shape.now.tree (length grants.now.checks) target.now }
{
    match *target {
        Target::AddHolder => Note::NewHolder {
            holder: HolderId(grants.holders() + 1),
            check: NO_CHECK,
        },
        Target::MakeFolder { parent, .. } => Note::NewFolder {
            folder: FolderId(shape.folders_made() + 1),
            parent,
        },
        Target::WriteFile { folder, file, .. } => note_of_bytes(shape, folder, file),
        Target::Remove { node } => note_of_removal(node),
        Target::Rename { node, .. } => note_of_name(node),
        Target::Relocate { node, into } => note_of_move(node, into),
        Target::Grant { holder, node } => Note::Give {
            holder,
            folder: number_of(node),
        },
        Target::Revoke { holder, node } => Note::Take {
            holder,
            folder: number_of(node),
        },
    }
}

/// The number by which grants name the folder or the file.
#[tactic(auto, unfolding(cry_base::specs::Refusing::granted_id))]
pub(crate) fn number_of(node: Node) -> FolderId
    requires { IsNumbered node }
    ensures { result.0 ≡ granted_id (Some node) }
{
    match node {
        Node::Folder(folder) => folder,
        Node::File(file) => clear_number(file),
    }
}

#[tactic(auto, unfolding(record_format::specs::Told::told_note, move_plan::specs::Noting::write_note))]
fn note_of_bytes(shape: &Shape, folder: FolderId, file: Option<FileId>) -> Note
    requires { shape.now.tree.files_made < 4294967295 }
    ensures { told_note result ≡ write_note shape.now.tree (file_found file) folder.0 }
{
    match file {
        Some(file) => Note::Rewrite { file },
        None => Note::NewFile {
            file: FileId(shape.files_made() + 1),
            folder,
        },
    }
}

#[tactic(auto, unfolding(record_format::specs::Told::told_note, move_plan::specs::Noting::remove_note))]
fn note_of_removal(node: Node) -> Note
    ensures { told_note result ≡ remove_note (Some node) }
{
    match node {
        Node::Folder(folder) => Note::DropFolder { folder },
        Node::File(file) => Note::DropFile { file },
    }
}

#[tactic(auto, unfolding(record_format::specs::Told::told_note, move_plan::specs::Noting::rename_note))]
fn note_of_name(node: Node) -> Note
    ensures { told_note result ≡ rename_note (Some node) }
{
    match node {
        Node::Folder(folder) => Note::NameFolder { folder },
        Node::File(file) => Note::NameFile { file },
    }
}

#[tactic(auto, unfolding(record_format::specs::Told::told_note, move_plan::specs::Noting::move_note))]
fn note_of_move(node: Node, into: FolderId) -> Note
    ensures { told_note result ≡ move_note (Some node) into.0 }
{
    match node {
        Node::Folder(folder) => Note::ShiftFolder { folder, into },
        Node::File(file) => Note::ShiftFile { file, into },
    }
}
