//! Edges of one role and of what stands beside it, added to a list.
ghost use Rattle.std.specs.Prelude.{◌≡◌, ◌++◌, map, OnOk};
ghost use Rattle.cry_base.specs.declared.roles.Role.TheVariants.{Owner};
ghost use Rattle.role_graph.specs.Edges.{edge, file_edge, grant_edge};
ghost use Rattle.role_graph.specs.Roles.{back_of, clear_of, sub_of};

use crate::kinds;
use cry_base::{Edge, FileId, FolderId, HolderId, Mem};
use folder_nodes::FolderRow;
use sorted_table::Walk;

/// Adds the edge from the owner's key to each folder.
#[tactic(auto, unfolding(crate::specs::Roles::clear_of))]
pub(crate) fn push_folders(found: &mut Vec<Edge>, folders: Walk<'_, FolderRow>) -> Mem<()>
    ensures { OnOk result (found.new.items ≡ found.old.items ++ map (λ r. edge 1 Owner (clear_of r.id.0)) folders.entry) }
{
    for folder in folders {
        found.push(kinds::owner_to_clear(folder.id))?;
    }
    Ok(())
}

/// Adds the edge of the holder's grant on each folder.
#[tactic(auto, unfolding(crate::specs::Edges::grant_edge, crate::specs::Roles::holder_role, crate::specs::Roles::clear_of))]
pub(crate) fn push_granted(found: &mut Vec<Edge>, h: HolderId, folders: &[FolderId]) -> Mem<()>
    ensures { OnOk result (found.new.items ≡ found.old.items ++ map (λ f. grant_edge h.0 f.0) folders.now) }
{
    found.reserve(folders.len())?;
    for folder in folders {
        found.push(kinds::holder_to_clear(h, *folder))?;
    }
    Ok(())
}

/// Adds the edge of each holder's grant on the folder.
#[tactic(auto, unfolding(crate::specs::Edges::grant_edge, crate::specs::Roles::holder_role, crate::specs::Roles::clear_of))]
pub(crate) fn push_holders(found: &mut Vec<Edge>, f: FolderId, holders: &[HolderId]) -> Mem<()>
    ensures { OnOk result (found.new.items ≡ found.old.items ++ map (λ h. grant_edge h.0 f.0) holders.now) }
{
    found.reserve(holders.len())?;
    for holder in holders {
        found.push(kinds::holder_to_clear(*holder, f))?;
    }
    Ok(())
}

/// Adds the edge down to each folder in the folder.
#[tactic(auto, unfolding(crate::specs::Roles::sub_of))]
pub(crate) fn push_children(found: &mut Vec<Edge>, f: FolderId, children: &[FolderId]) -> Mem<()>
    ensures { OnOk result (found.new.items ≡ found.old.items ++ map (λ g. edge 6 (sub_of f.0) (sub_of g.0)) children.now) }
{
    found.reserve(children.len())?;
    for child in children {
        found.push(kinds::sub_to_sub(f, *child))?;
    }
    Ok(())
}

/// Adds the edge up from each folder in the folder.
#[tactic(auto, unfolding(crate::specs::Roles::back_of))]
pub(crate) fn push_child_starts(
    found: &mut Vec<Edge>,
    f: FolderId,
    children: &[FolderId],
) -> Mem<()>
    ensures { OnOk result (found.new.items ≡ found.old.items ++ map (λ g. edge 8 (back_of g.0) (back_of f.0)) children.now) }
{
    found.reserve(children.len())?;
    for child in children {
        found.push(kinds::back_to_back(*child, f))?;
    }
    Ok(())
}

/// Adds the edge to each file in the folder.
#[tactic(auto, unfolding(crate::specs::Edges::file_edge, crate::specs::Roles::files_of, crate::specs::Roles::file_role))]
pub(crate) fn push_files(found: &mut Vec<Edge>, f: FolderId, files: &[FileId]) -> Mem<()>
    ensures { OnOk result (found.new.items ≡ found.old.items ++ map (λ x. file_edge f.0 x.0) files.now) }
{
    found.reserve(files.len())?;
    for file in files {
        found.push(kinds::files_to_file(f, *file))?;
    }
    Ok(())
}
