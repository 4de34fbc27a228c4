//! The way from the root down to the folder of a path's last name.
ghost use Rattle.std.specs.Prelude.{◌≡◌, true, false};
ghost use Rattle.cry_base.specs.Naming.{is_name, is_path, is_root_path, names_of, front};
ghost use Rattle.cry_base.specs.Store.{folder_entry};
ghost use Rattle.folder_nodes.specs.Spelling as spelling;
ghost use Rattle.folder_nodes.specs.Titles.{tree_store};
ghost use Rattle.folder_nodes.specs.Ways.{IsWay};

use crate::naming::{behind_slash, first_piece};
use crate::spots::again;
use crate::trying::{first_folder, folders_to_try, has_another};
use crate::{Names, Shape};
use cry_base::ROOT;

/// Where names lead to: to one folder alone, to none, or to several, as on a disk that was changed.
#[derive(Clone, Copy, Debug)]
pub(crate) enum Way {
    Nowhere,
    At(u32),
    Several,
}

/// The folder in the folder f that alone has the name.
pub(crate) fn only_folder(shape: &Shape, names: &Names, f: u32, name: &[u8]) -> Way
    requires { is_name name.now ≡ true }
    ensures { IsWay (λ k. spelling.is_folder_in f name.now (folder_entry (tree_store shape.now.tree names.now) k)) result }
{
    let spots = folders_to_try(shape, names, f, name);
    let Some(first) = first_folder(again(&spots), shape, names, f, name) else {
        return Way::Nowhere;
    };
    if has_another(spots, shape, names, first, f, name) {
        return Way::Several;
    }
    Way::At(first)
}

/// The folder that alone has all names of the path but the last one.
pub(crate) fn walk(shape: &Shape, names: &Names, path: &[u8]) -> Way
    requires form { is_path path.now ≡ true }
    requires other { is_root_path path.now ≡ false }
    ensures { IsWay (λ k. spelling.leads_to_folder (tree_store shape.now.tree names.now) k (spelling.joined (front (names_of path.now))))
        result }
{
    shape.is_tree();
    names.are_names();
    if !shape.has_folder(ROOT) {
        return Way::Nowhere;
    }
    let mut here = ROOT.0;
    let (mut name, mut left) = first_piece(behind_slash(path));
    while let Some(bytes) = left {
        let (piece, behind) = first_piece(bytes);
        let way = only_folder(shape, names, here, name);
        let Way::At(next) = way else {
            return way;
        };
        here = next;
        name = piece;
        left = behind;
    }
    Way::At(here)
}
