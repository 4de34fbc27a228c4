//! Where a command would put a node, and what stands there.
ghost use Rattle.std.specs.Prelude.{◌≡◌, ◌+◌, ◌&&◌, true, false, nat_lt, length, Some, IsSome};
ghost use Rattle.std.specs.List.{list_any};
ghost use Rattle.cry_base.specs.Naming.{is_name, is_path, is_root_path, names_of};
ghost use Rattle.cry_base.specs.Refusing.{is_folder, id_of, has_child, holds_name, name_of as name_in_store, parent_of, height_of};
ghost use Rattle.cry_base.specs.Store.{node_at, folder_entry, file_entry, depth_of, is_within};
ghost use Rattle.cry_base.specs.declared.roles.Node.TheVariants.{Folder};
ghost use Rattle.folder_nodes.specs.Checking.{Stands};
ghost use Rattle.folder_nodes.specs.Spelling as spelling;
ghost use Rattle.folder_nodes.specs.Titles.{tree_store};
ghost use Rattle.folder_nodes.specs.declared.spots.Spot.{Spot as TheSpot};

use crate::naming::{count_names, last_piece};
use crate::spots::Spots;
use crate::trying::{files_to_try, folders_to_try, is_file_in, is_folder_in};
use crate::{Names, Shape};
use cry_base::{DEPTH, FolderId, Node};

/// Whether a node with the path would stand too deep.
pub(crate) fn has_no_depth(path: &[u8]) -> bool
    requires form { is_path path.now ≡ true }
    requires other { is_root_path path.now ≡ false }
    ensures { result ≡ nat_lt 64 (length (names_of path.now)) }
{
    count_names(path) > DEPTH as usize
}

/// Whether a folder or file in the folder has the name.
pub(crate) fn has_named(shape: &Shape, names: &Names, f: u32, name: &[u8]) -> bool
    requires { is_name name.now ≡ true }
    ensures { result ≡ holds_name (tree_store shape.now.tree names.now) f name.now }
{
    shape.is_tree();
    if has_folder_in(folders_to_try(shape, names, f, name), shape, names, f, name) {
        return true;
    }
    has_file_in(files_to_try(shape, names, f, name), shape, names, f, name)
}

fn has_folder_in(mut spots: Spots<'_>, shape: &Shape, names: &Names, f: u32, name: &[u8]) -> bool
    ensures { result ≡ list_any (λ (q : TheSpot). spelling.is_folder_in f name.now
        (folder_entry (tree_store shape.now.tree names.now) q.id)) spots.entry }
{
    spots.any(|spot| is_folder_in(shape, names, spot.id, f, name))
}

fn has_file_in(mut spots: Spots<'_>, shape: &Shape, names: &Names, f: u32, name: &[u8]) -> bool
    ensures { result ≡ list_any (λ (q : TheSpot). spelling.is_file_in f name.now (file_entry (tree_store shape.now.tree names.now) q.id))
        spots.entry }
{
    spots.any(|spot| is_file_in(shape, names, spot.id, f, name))
}

/// Whether another name in the folder of the node is this one.
pub(crate) fn has_beside(shape: &Shape, names: &Names, node: Node, name: &[u8]) -> bool
    requires { is_name name.now ≡ true }
    ensures { result ≡ holds_name (tree_store shape.now.tree names.now) (parent_of (tree_store shape.now.tree names.now) (Some node))
        name.now }
{
    has_named(shape, names, parent_number(shape, names, node), name)
}

/// The number of the folder that the node is in, and 0 where there is none.
fn parent_number(shape: &Shape, names: &Names, node: Node) -> u32
    ensures { result ≡ parent_of (tree_store shape.now.tree names.now) (Some node) }
{
    match node {
        Node::Folder(folder) => shape.parent_number(folder.0),
        Node::File(file) => shape.folder_number(file.0),
    }
}

/// Whether a folder or file in the folder has the name of what the path finds.
pub(crate) fn has_name_of(shape: &Shape, names: &Names, into: FolderId, path: &[u8]) -> bool
    requires form { is_path path.now ≡ true }
    requires other { is_root_path path.now ≡ false }
    requires found { IsSome (node_at (tree_store shape.now.tree names.now) path.now) }
    ensures { result ≡ holds_name (tree_store shape.now.tree names.now) into.0
        (name_in_store (tree_store shape.now.tree names.now) (node_at (tree_store shape.now.tree names.now) path.now)) }
{
    shape.is_tree();
    names.are_names();
    has_named(shape, names, into.0, last_piece(path))
}

/// Whether the node is a folder that has a child.
#[tactic(auto, unfolding(cry_base::specs::Refusing::is_folder, cry_base::specs::Refusing::id_of))]
pub(crate) fn has_children(shape: &Shape, names: &Names, node: Node) -> bool
    requires { Stands shape.now.tree node }
    ensures { result ≡ (is_folder (Some node) && has_child (tree_store shape.now.tree names.now) (id_of (Some node))) }
{
    match node {
        Node::Folder(folder) => !shape.is_empty_folder(folder),
        Node::File(_) => false,
    }
}

/// Whether the node is a folder, and the other folder is this one or under it.
pub(crate) fn has_within(shape: &Shape, names: &Names, node: Node, into: FolderId) -> bool
    ensures { result ≡ (is_folder (Some node) && is_within (tree_store shape.now.tree names.now) into.0 (id_of (Some node))) }
{
    match node {
        Node::Folder(folder) => shape.is_within(into.0, folder.0),
        Node::File(_) => false,
    }
}

/// Whether the node, or one below it, would stand too deep in the folder.
pub(crate) fn is_too_high(shape: &Shape, names: &Names, node: Node, into: FolderId) -> bool
    requires node { Stands shape.now.tree node }
    requires into { IsSome (folder_entry shape.now.tree into.0) }
    ensures { result ≡ nat_lt 64 (depth_of (tree_store shape.now.tree names.now) (Folder into) + 1 + height_of
        (tree_store shape.now.tree names.now) (Some node)) }
{
    let left = DEPTH - shape.depth(into);
    match node {
        Node::Folder(folder) => shape.height(folder) >= left,
        Node::File(_) => left == 0,
    }
}
