//! The row of each kind of note, in whatever store (docs/FORMAT.md, "The key step").
ghost use Rattle.std.specs.Prelude.{◌≡◌, ℕ, true, false, [], ◌∷◌, List as AnyList, IfOk};
ghost use Rattle.cry_base.specs.Clearances.{clear_number};
ghost use Rattle.cry_base.specs.Store.{Store};
ghost use Rattle.move_plan.specs.Change.{edges_of_first, row_change, folder_of_file, no_change, parent_of_folder, root_change};
ghost use Rattle.move_plan.specs.Seen.{plain_row};
ghost use Rattle.record_format.specs.Noted.Note.{NewHolder, NewFolder, NewFile, Rewrite, NameFile, NameFolder, ShiftFile};
ghost use Rattle.record_format.specs.Noted.Note.{ShiftFolder, Upgrade};
ghost use Rattle.role_graph.specs.Edges.{grant_edge, has_grants};
ghost use Rattle.role_graph.specs.Roles.{clear_of};

use crate::FewRoles;
use crate::edging::{added_edges, edges_of, folder_edges_with_parent, folder_roles};
use crate::row::Row;
use cry_base::{FileId, FolderId, HolderId, List, Mem, Role};
use role_graph::{edges_between, edges_within, kinds};
use std::alloc::Global;

/// The root is made, in a store of this version.
#[tactic(auto, unfolding(crate::specs::WorkedChanges::changes))]
pub(crate) fn make_root(alloc: Global, version: u8) -> Mem<Row>
    ensures { IfOk result (λ c. plain_row c ≡ root_change version) }
{
    let root = FolderId(1);
    let fresh = FewRoles::five(folder_roles(root));
    let added = added_edges(alloc, &edges_within(root))?;
    Ok(Row {
        removed: List::new(alloc),
        gone: List::new(alloc),
        wanted: FewRoles::none(),
        fresh,
        added,
        version: Some(version),
    })
}

/// A store of version 1 becomes one of version 2.
#[tactic(auto, unfolding(crate::specs::WorkedChanges::changes))]
pub(crate) fn upgrade(alloc: Global) -> Mem<Row>
    ensures { IfOk result (λ c. (s : Store) → plain_row c ≡ row_change s Upgrade) }
{
    Ok(Row {
        removed: List::new(alloc),
        gone: List::new(alloc),
        wanted: FewRoles::none(),
        fresh: FewRoles::none(),
        added: Vec::new(alloc),
        version: Some(2),
    })
}

#[tactic(auto, unfolding(crate::specs::WorkedChanges::changes))]
pub(crate) fn make_holder(alloc: Global, holder: HolderId) -> Mem<Row>
    ensures { IfOk result (λ c. (s : Store) (check : AnyList ℕ) → plain_row c ≡ row_change s (NewHolder holder.0 check)) }
{
    let fresh = FewRoles::one(Role::Holder(holder));
    Ok(Row {
        removed: List::new(alloc),
        gone: List::new(alloc),
        wanted: FewRoles::none(),
        fresh,
        added: Vec::new(alloc),
        version: None,
    })
}

#[tactic(auto, unfolding(crate::specs::WorkedChanges::changes))]
pub(crate) fn make_folder(alloc: Global, folder: FolderId, parent: FolderId) -> Mem<Row>
    ensures { IfOk result (λ c. (s : Store) → plain_row c ≡ row_change s (NewFolder folder.0 parent.0)) }
{
    let wanted = FewRoles::one(Role::Sub(parent));
    let fresh = FewRoles::five(folder_roles(folder));
    let added = added_edges(alloc, &folder_edges_with_parent(folder, parent))?;
    Ok(Row {
        removed: List::new(alloc),
        gone: List::new(alloc),
        wanted,
        fresh,
        added,
        version: None,
    })
}

#[tactic(auto, unfolding(crate::specs::WorkedChanges::changes))]
pub(crate) fn make_file(alloc: Global, file: FileId, folder: FolderId) -> Mem<Row>
    ensures { IfOk result (λ c. (s : Store) → plain_row c ≡ row_change s (NewFile file.0 folder.0)) }
{
    let wanted = FewRoles::one(Role::Files(folder));
    let fresh = FewRoles::one(Role::File(file));
    let added = added_edges(alloc, &[kinds::files_to_file(folder, file)])?;
    Ok(Row {
        removed: List::new(alloc),
        gone: List::new(alloc),
        wanted,
        fresh,
        added,
        version: None,
    })
}

#[tactic(auto, unfolding(crate::specs::WorkedChanges::changes))]
pub(crate) fn rewrite(alloc: Global, file: FileId) -> Mem<Row>
    ensures { IfOk result (λ c. (s : Store) → plain_row c ≡ row_change s (Rewrite file.0)) }
{
    only_wanted(alloc, Role::File(file))
}

#[tactic(auto, unfolding(crate::specs::WorkedChanges::changes))]
pub(crate) fn name_file(alloc: Global, file: FileId) -> Mem<Row>
    ensures { IfOk result (λ c. (s : Store) → plain_row c ≡ row_change s (NameFile file.0)) }
{
    only_wanted(alloc, Role::File(file))
}

#[tactic(auto, unfolding(crate::specs::WorkedChanges::changes))]
pub(crate) fn name_folder(alloc: Global, folder: FolderId) -> Mem<Row>
    ensures { IfOk result (λ c. (s : Store) → plain_row c ≡ row_change s (NameFolder folder.0)) }
{
    only_wanted(alloc, Role::Data(folder))
}

/// The row by which the role is cleaned, and nothing else.
#[tactic(auto, unfolding(crate::specs::WorkedChanges::changes))]
fn only_wanted(alloc: Global, role: Role) -> Mem<Row>
    ensures { IfOk result (λ c. plain_row c ≡ record no_change { wanted = role ∷ [] }) }
{
    let wanted = FewRoles::one(role);
    Ok(Row {
        removed: List::new(alloc),
        gone: List::new(alloc),
        wanted,
        fresh: FewRoles::none(),
        added: Vec::new(alloc),
        version: None,
    })
}

/// The row of a file without a grant, moved from the folder that it is in.
#[tactic(auto, unfolding(crate::specs::WorkedChanges::changes))]
pub(crate) fn move_file(alloc: Global, file: FileId, folder: FolderId, into: FolderId) -> Mem<Row>
    ensures { IfOk result (λ c. (s : Store) → folder.0 ≡ folder_of_file s file.0 → has_grants s (clear_number file.0) ≡ false
        → plain_row c ≡ row_change s (ShiftFile file.0 into.0)) }
{
    let removed = edges_of(alloc, &[kinds::files_to_file(folder, file)])?;
    let wanted = FewRoles::one(Role::Files(into));
    let added = added_edges(alloc, &[kinds::files_to_file(into, file)])?;
    Ok(Row {
        removed,
        gone: List::new(alloc),
        wanted,
        fresh: FewRoles::none(),
        added,
        version: None,
    })
}

/// The row of a file with a grant, moved from the folder that it is in. Its clearance key leads to the new one in place of the old.
#[tactic(auto, unfolding(crate::specs::WorkedChanges::changes))]
pub(crate) fn move_granted_file(
    alloc: Global,
    file: FileId,
    clear: FolderId,
    folder: FolderId,
    into: FolderId,
) -> Mem<Row>
    requires { clear.0 ≡ clear_number file.0 }
    ensures { IfOk result (λ c. (s : Store) → folder.0 ≡ folder_of_file s file.0 → has_grants s (clear_number file.0) ≡ true
        → plain_row c ≡ row_change s (ShiftFile file.0 into.0)) }
{
    let from = [
        kinds::files_to_file(folder, file),
        kinds::clearance_to_back(clear, folder),
    ];
    let removed = edges_of(alloc, &from)?;
    let wanted = FewRoles::two(Role::Files(into), Role::Clear(clear));
    let to = [
        kinds::files_to_file(into, file),
        kinds::clearance_to_back(clear, into),
    ];
    let added = added_edges(alloc, &to)?;
    Ok(Row {
        removed,
        gone: List::new(alloc),
        wanted,
        fresh: FewRoles::none(),
        added,
        version: None,
    })
}

/// The row of a folder moved from its parent.
#[tactic(auto, unfolding(crate::specs::WorkedChanges::changes))]
pub(crate) fn move_folder(
    alloc: Global,
    folder: FolderId,
    parent: FolderId,
    into: FolderId,
) -> Mem<Row>
    ensures { IfOk result (λ c. (s : Store) → parent.0 ≡ parent_of_folder s folder.0
        → plain_row c ≡ row_change s (ShiftFolder folder.0 into.0)) }
{
    let removed = edges_of(alloc, &edges_between(folder, parent))?;
    let wanted = FewRoles::two(Role::Sub(into), Role::Back(folder));
    let added = added_edges(alloc, &edges_between(folder, into))?;
    Ok(Row {
        removed,
        gone: List::new(alloc),
        wanted,
        fresh: FewRoles::none(),
        added,
        version: None,
    })
}

/// The row of a grant, of a folder or of a file that has one already.
#[tactic(auto, unfolding(crate::specs::WorkedChanges::changes))]
pub(crate) fn give(alloc: Global, holder: HolderId, folder: FolderId) -> Mem<Row>
    ensures { IfOk result (λ c. plain_row c ≡ record no_change { added = grant_edge holder.0 folder.0 ∷ [] }) }
{
    let added = added_edges(alloc, &[kinds::holder_to_clear(holder, folder)])?;
    Ok(Row {
        removed: List::new(alloc),
        gone: List::new(alloc),
        wanted: FewRoles::none(),
        fresh: FewRoles::none(),
        added,
        version: None,
    })
}

/// The row of the first grant of a file in the folder: its clearance comes, with all edges at it.
#[tactic(auto, unfolding(crate::specs::WorkedChanges::changes))]
pub(crate) fn give_first(
    alloc: Global,
    holder: HolderId,
    clear: FolderId,
    file: FileId,
    folder: FolderId,
) -> Mem<Row>
    requires { clear.0 ≡ clear_number file.0 }
    ensures { IfOk result (λ c. (s : Store) → folder.0 ≡ folder_of_file s file.0
        → plain_row c ≡ record no_change { fresh = clear_of clear.0 ∷ []; added = edges_of_first s holder.0 file.0 }) }
{
    let edges = [
        kinds::owner_to_clear(clear),
        kinds::holder_to_clear(holder, clear),
        kinds::clearance_to_file(clear, file),
        kinds::clearance_to_back(clear, folder),
    ];
    let added = added_edges(alloc, &edges)?;
    Ok(Row {
        removed: List::new(alloc),
        gone: List::new(alloc),
        wanted: FewRoles::none(),
        fresh: FewRoles::one(Role::Clear(clear)),
        added,
        version: None,
    })
}

/// The row of a grant taken back, of a folder or of a file that keeps another.
#[tactic(auto, unfolding(crate::specs::WorkedChanges::changes))]
pub(crate) fn take(alloc: Global, holder: HolderId, folder: FolderId) -> Mem<Row>
    ensures { IfOk result (λ c. plain_row c
        ≡ record no_change { removed = grant_edge holder.0 folder.0 ∷ []; wanted = clear_of folder.0 ∷ [] }) }
{
    let removed = edges_of(alloc, &[kinds::holder_to_clear(holder, folder)])?;
    let wanted = FewRoles::one(Role::Clear(folder));
    Ok(Row {
        removed,
        gone: List::new(alloc),
        wanted,
        fresh: FewRoles::none(),
        added: Vec::new(alloc),
        version: None,
    })
}
