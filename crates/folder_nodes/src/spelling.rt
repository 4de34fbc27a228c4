//! Whether the names from the root down to a node spell a path.
ghost use Rattle.std.specs.Prelude.{◌≡◌, ◌≢◌, ◌∷◌, ◌++◌, List, ℕ, MatchOption};
ghost use Rattle.folder_nodes.specs.Spelling as spelling;
ghost use Rattle.folder_nodes.specs.Titles.{title_of, name_in, tree_store};

use crate::naming::cut;
use crate::{Names, Shape};
use cry_base::{FileId, FolderId, Node};

/// Whether the names down to the folder, with a slash before each, are the bytes. It goes up from the folder.
pub(crate) fn leads_to_folder(shape: &Shape, names: &Names, f: u32, bytes: &[u8]) -> bool
    ensures { result ≡ spelling.leads_to_folder (tree_store shape.now.tree names.now) f bytes.now }
{
    shape.is_tree();
    let mut here = f;
    let mut left = bytes;
    for _climbed in 0..65u32 {
        let Some(row) = shape.folder_row(here) else {
            return false;
        };
        if row.parent == 0 {
            return left.is_empty();
        }
        let Some(front) = before_name(names, Node::Folder(FolderId(here)), left) else {
            return false;
        };
        left = front;
        here = row.parent;
    }
    false
}

/// Whether the names down to the file, with a slash before each, are the bytes.
pub(crate) fn leads_to_file(shape: &Shape, names: &Names, x: u32, bytes: &[u8]) -> bool
    ensures { result ≡ spelling.leads_to_file (tree_store shape.now.tree names.now) x bytes.now }
{
    shape.is_tree();
    let Some(row) = shape.file_row(x) else {
        return false;
    };
    match before_name(names, Node::File(FileId(x)), bytes) {
        Some(front) => leads_to_folder(shape, names, row.folder.0, front),
        None => false,
    }
}

/// The bytes before a slash and the node's name, where they end the bytes.
fn before_name<'a>(names: &Names, node: Node, bytes: &'a [u8]) -> Option<&'a [u8]>
    ensures { MatchOption result ((front : List ℕ)
        → bytes.now ≢ front ++ 47 ∷ name_in (title_of names.now node)) (λ front. bytes.now ≡ front.now ++ 47
        ∷ name_in (title_of names.now node)) }
{
    cut(bytes, name_of(names, node))
}

/// The node's name, and none where it isn't named.
pub(crate) fn name_of(names: &Names, node: Node) -> &[u8]
    ensures { result.now ≡ name_in (title_of names.now node) }
{
    match names.name(node) {
        Some(name) => name,
        None => b"".as_slice(),
    }
}
