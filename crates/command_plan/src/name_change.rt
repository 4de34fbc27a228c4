//! The names and bytes that a command leaves, with all their memory taken before it is done.
ghost use Rattle.std.specs.Prelude.{◌<◌, IfOk};
ghost use Rattle.cry_base.specs.Requests.{Request};
ghost use Rattle.folder_nodes.specs.Targets.{IsTargetOf};
ghost use Rattle.folder_nodes.specs.Titles.{tree_store};
ghost use Rattle.command_plan.specs.NameChanges.{AreNamesChanged, CanChangeNames, IsNameChangeOf, IsSetting};
ghost use Rattle.command_plan.specs.Targeted.{IsNameChangeTo};

use crate::texts::{bytes_of, copied};
use cry_base::{FileId, FolderId, Mem, Node, Text};
use folder_nodes::{Names, Shape, Target};
use std::alloc::Global;

/// A change of names and bytes that has its memory.
#[derive(Drop)]
pub enum NameChange {
    /// Each folder and file keeps its name and bytes.
    Keep,
    /// One has this name, and these bytes.
    Set { node: Node, name: Text, bytes: Text },
    /// One has none.
    Forget { node: Node },
}

/// The change that a command with this target asks for, in a store of this tree and these names.
pub fn name_change_for(
    alloc: Global,
    shape: &Shape,
    names: &Names,
    target: &Target<'_>,
) -> Mem<NameChange>
    requires folders { shape.now.tree.folders_made < 4294967295 }
    requires files { shape.now.tree.files_made < 4294967295 }
    ensures { IfOk result (λ change. (r : Request) → IsTargetOf (tree_store shape.now.tree names.now) r target.now
        → IsNameChangeOf (tree_store shape.now.tree names.now) r names.now change) }
{
    change_to(alloc, shape, names, target)
}

fn change_to(alloc: Global, shape: &Shape, names: &Names, target: &Target<'_>) -> Mem<NameChange>
    requires folders { shape.now.tree.folders_made < 4294967295 }
    requires files { shape.now.tree.files_made < 4294967295 }
    ensures { IfOk result (IsNameChangeTo shape.now.tree names.now target.now) }
{
    match *target {
        Target::MakeFolder { name, .. } => {
            let folder = FolderId(shape.folders_made() + 1);
            set_to(alloc, Node::Folder(folder), name, &[])
        }
        Target::WriteFile {
            file: Some(file),
            name,
            bytes,
            ..
        } => set_to(alloc, Node::File(file), name, bytes),
        Target::WriteFile {
            file: None,
            name,
            bytes,
            ..
        } => {
            let file = FileId(shape.files_made() + 1);
            set_to(alloc, Node::File(file), name, bytes)
        }
        Target::Remove { node } => Ok(NameChange::Forget { node }),
        Target::Rename {
            node: Node::Folder(folder),
            name,
        } => set_to(alloc, Node::Folder(folder), name, &[]),
        Target::Rename {
            node: Node::File(file),
            name,
        } => set_to(alloc, Node::File(file), name, bytes_of(names, file)),
        Target::AddHolder
        | Target::Relocate { .. }
        | Target::Grant { .. }
        | Target::Revoke { .. } => Ok(NameChange::Keep),
    }
}

/// The change that gives a folder or file this name and these bytes.
fn set_to(alloc: Global, node: Node, name: &[u8], bytes: &[u8]) -> Mem<NameChange>
    ensures { IfOk result (λ change. IsSetting change node name.now bytes.now) }
{
    let name = copied(alloc, name)?;
    let bytes = copied(alloc, bytes)?;
    Ok(NameChange::Set { node, name, bytes })
}

/// Makes the change. It takes no memory.
pub fn change_names(names: &mut Names, change: NameChange)
    requires { CanChangeNames change names.old }
    ensures { AreNamesChanged change names.old names.new }
{
    match change {
        NameChange::Keep => {}
        NameChange::Set { node, name, bytes } => names.set(node, name, bytes),
        NameChange::Forget { node } => names.forget(node),
    }
}
