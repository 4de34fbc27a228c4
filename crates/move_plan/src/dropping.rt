//! The rows of folders and files that are removed, with all grants on them, and of a file's last grant.
ghost use Rattle.std.specs.Prelude.{◌≡◌, ◌≤◌, ◌+◌, ◌*◌, length, IfOk};
ghost use Rattle.move_plan.specs.Change.{row_change, without_roles};
ghost use Rattle.move_plan.specs.LookUps.{row_look_ups};
ghost use Rattle.move_plan.specs.Seen.{plain_row};
ghost use Rattle.record_format.specs.Noted.Note.{DropFile, DropFolder};
ghost use Rattle.role_graph.specs.Adjacent.{at_roles};
ghost use Rattle.role_graph.specs.Edges.{edges};

use crate::FewRoles;
use crate::edging::{folder_roles, roles_of};
use crate::row::Row;
use cry_base::{FileId, FolderId, Mem, Role};
use grant_book::Grants;
use role_graph::{Adjacent, clearance_of, edges_touching};
use std::alloc::Global;

/// The row of a folder removed. It looks at no edge but those at the folder's own roles.
#[tactic(auto, unfolding(crate::specs::Change::row_change))]
pub(crate) fn drop_folder<R: Adjacent>(alloc: Global, roles: &mut R, folder: FolderId) -> Mem<Row>
    ensures change { IfOk result (λ c. plain_row c ≡ row_change (R.store roles.old) (DropFolder folder.0)) }
    ensures steps { R.steps roles.new ≤ R.steps roles.old + row_look_ups (R.store roles.old) (DropFolder folder.0) }
    ensures same { R.store roles.new ≡ R.store roles.old }
{
    drop_roles(alloc, roles, &folder_roles(folder))
}

/// The row of a file removed, and with it its clearance, where it has a grant.
#[tactic(auto, unfolding(crate::specs::Change::row_change, crate::specs::Change::roles_of_file, crate::specs::Change::clearance_in, role_graph::specs::Edges::has_grants, role_graph::specs::Roles::clear_of, role_graph::specs::Roles::file_role))]
pub(crate) fn drop_file<R: Adjacent>(
    alloc: Global,
    grants: &Grants,
    roles: &mut R,
    file: FileId,
) -> Mem<Row>
    requires { (R.store roles.old).grants ≡ grants.now.pairs }
    ensures change { IfOk result (λ c. plain_row c ≡ row_change (R.store roles.old) (DropFile file.0)) }
    ensures steps { R.steps roles.new ≤ R.steps roles.old + row_look_ups (R.store roles.old) (DropFile file.0) }
    ensures same { R.store roles.new ≡ R.store roles.old }
{
    match clearance_of(grants, file) {
        Some(clear) => drop_roles(alloc, roles, &[Role::Clear(clear), Role::File(file)]),
        None => drop_roles(alloc, roles, &[Role::File(file)]),
    }
}

/// The row by which the roles go, with every edge that has one of them at an end. It looks at no other edge.
#[tactic(auto, unfolding(crate::specs::Change::without_roles, crate::specs::Change::no_change, crate::specs::Change::edges_at))]
pub(crate) fn drop_roles<R: Adjacent>(alloc: Global, roles: &mut R, going: &[Role]) -> Mem<Row>
    ensures change { IfOk result (λ c. plain_row c ≡ without_roles (R.store roles.old) going.now) }
    ensures steps { R.steps roles.new ≤ R.steps roles.old
        + (length (at_roles (edges (R.store roles.old)) going.now) + 2 * length going.now) }
    ensures same { R.store roles.new ≡ R.store roles.old }
{
    let removed = edges_touching(alloc, roles, going)?;
    let gone = roles_of(alloc, going)?;
    Ok(Row {
        removed,
        gone,
        wanted: FewRoles::none(),
        fresh: FewRoles::none(),
        added: Vec::new(alloc),
        version: None,
    })
}
