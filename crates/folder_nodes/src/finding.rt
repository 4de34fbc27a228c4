//! What a path finds.
ghost use Rattle.std.specs.Prelude.{◌≡◌, true, false, cond, find, None, option_map};
ghost use Rattle.cry_base.specs.Naming.{is_path, is_root_path, names_of, front, parent_path};
ghost use Rattle.cry_base.specs.Store.{node_at};
ghost use Rattle.folder_nodes.specs.Spelling as spelling;
ghost use Rattle.folder_nodes.specs.Titles.{tree_store};
ghost use Rattle.folder_nodes.specs.Ways.{IsWay};
ghost use Rattle.folder_nodes.specs.declared.spots.Spot.{Spot as TheSpot};
ghost use Rattle.folder_nodes.specs.declared.walking.Way.TheVariants.{At};

use crate::naming::{front_of, is_root, last_piece};
use crate::spelling::{leads_to_file, leads_to_folder};
use crate::spots::Spots;
use crate::trying::{files_to_try, first_file, first_folder, folders_to_try};
use crate::walking::{Way, walk};
use crate::{Names, Shape, path_ok};
use cry_base::{FileId, FolderId, Node, ROOT};

/// The folder or file with the path: a folder before a file, and a lower number first. It goes down from the root, and
/// tries in each folder its children or all that have the name, whichever are fewer. Where two folders have one path, as
/// on a disk that was changed, it goes up from each node that has the path's last name.
pub fn find(shape: &Shape, names: &Names, path: &[u8]) -> Option<Node>
    ensures { result ≡ cond (is_path path.now) (node_at (tree_store shape.now.tree names.now) path.now) None }
{
    if !path_ok(path) {
        return None;
    }
    node_with(shape, names, path)
}

/// The folder or file with what is known to be a path.
pub(crate) fn node_with(shape: &Shape, names: &Names, path: &[u8]) -> Option<Node>
    requires { is_path path.now ≡ true }
    ensures { result ≡ node_at (tree_store shape.now.tree names.now) path.now }
{
    shape.is_tree();
    names.are_names();
    if is_root(path) {
        return root_of(shape);
    }
    match walk(shape, names, path) {
        Way::Nowhere => None,
        Way::At(folder) => child_with(shape, names, folder, path),
        Way::Several => namesake_with(shape, names, path),
    }
}

/// What a path finds, and what it finds without its last name: the folder that the path's own is in or is put into.
#[derive(Clone, Copy, Debug)]
pub(crate) struct Ends {
    pub(crate) place: Option<Node>,
    pub(crate) node: Option<Node>,
}

/// Both, by one way down from the root. Only where that leads to no folder or to several the front is looked up by itself: it may be a
/// file's path, or that of several folders.
pub(crate) fn ends_of(shape: &Shape, names: &Names, path: &[u8]) -> Ends
    requires form { is_path path.now ≡ true }
    requires other { is_root_path path.now ≡ false }
    ensures place { result.place ≡ node_at (tree_store shape.now.tree names.now) (parent_path path.now) }
    ensures node { result.node ≡ node_at (tree_store shape.now.tree names.now) path.now }
{
    shape.is_tree();
    names.are_names();
    match walk(shape, names, path) {
        Way::At(folder) => Ends {
            place: Some(Node::Folder(FolderId(folder))),
            node: child_with(shape, names, folder, path),
        },
        Way::Nowhere => Ends {
            place: node_with(shape, names, front_of(path)),
            node: None,
        },
        Way::Several => Ends {
            place: node_with(shape, names, front_of(path)),
            node: namesake_with(shape, names, path),
        },
    }
}

/// The folder or file with the path, where the folder alone has all of its names but the last one.
fn child_with(shape: &Shape, names: &Names, f: u32, path: &[u8]) -> Option<Node>
    requires form { is_path path.now ≡ true }
    requires other { is_root_path path.now ≡ false }
    requires way { IsWay (λ k. spelling.leads_to_folder (tree_store shape.now.tree names.now) k
        (spelling.joined (front (names_of path.now)))) (At f) }
    ensures { result ≡ node_at (tree_store shape.now.tree names.now) path.now }
{
    shape.is_tree();
    names.are_names();
    let name = last_piece(path);
    let folders = folders_to_try(shape, names, f, name);
    if let Some(folder) = first_folder(folders, shape, names, f, name) {
        return Some(Node::Folder(FolderId(folder)));
    }
    let files = files_to_try(shape, names, f, name);
    file_node(first_file(files, shape, names, f, name))
}

/// The folder or file with the path, of all that have its last name.
fn namesake_with(shape: &Shape, names: &Names, path: &[u8]) -> Option<Node>
    requires form { is_path path.now ≡ true }
    requires other { is_root_path path.now ≡ false }
    ensures { result ≡ node_at (tree_store shape.now.tree names.now) path.now }
{
    shape.is_tree();
    names.are_names();
    let name = last_piece(path);
    match folder_with(names.folders_named(name), shape, names, path) {
        Some(folder) => Some(Node::Folder(FolderId(folder))),
        None => file_node(file_with(names.files_named(name), shape, names, path)),
    }
}

/// The root, where it stands.
fn root_of(shape: &Shape) -> Option<Node>
    ensures { result ≡ spelling.root_in shape.now.tree }
{
    if shape.has_folder(ROOT) {
        Some(Node::Folder(ROOT))
    } else {
        None
    }
}

fn file_node(file: Option<u32>) -> Option<Node>
    ensures { result ≡ option_map spelling.as_file file }
{
    match file {
        Some(file) => Some(Node::File(FileId(file))),
        None => None,
    }
}

/// The first of the folders that has the path.
fn folder_with(mut spots: Spots<'_>, shape: &Shape, names: &Names, path: &[u8]) -> Option<u32>
    ensures { result ≡ option_map (λ (q : TheSpot). q.id)
        (find (λ q. spelling.leads_to_folder (tree_store shape.now.tree names.now) q.id path.now) spots.entry) }
{
    let first = spots.find(|spot| leads_to_folder(shape, names, spot.id, path))?;
    Some(first.id)
}

/// The first of the files that has the path.
fn file_with(mut spots: Spots<'_>, shape: &Shape, names: &Names, path: &[u8]) -> Option<u32>
    ensures { result ≡ option_map (λ (q : TheSpot). q.id)
        (find (λ q. spelling.leads_to_file (tree_store shape.now.tree names.now) q.id path.now) spots.entry) }
{
    let first = spots.find(|spot| leads_to_file(shape, names, spot.id, path))?;
    Some(first.id)
}
