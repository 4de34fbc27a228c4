//! The strict roles of a note: those that are renewed whether or not they are dirty (docs/FORMAT.md, "The key step").
ghost use Rattle.std.specs.Prelude.{◌≡◌, ◌≤◌, ◌+◌, ◌++◌, cond, map, IfOk, OnOk};
ghost use Rattle.move_plan.specs.Change.{inner_roles as all_inner_roles, is_upgrade as is_the_upgrade, strict_of as strict_of_note};
ghost use Rattle.std.specs.List.{flat_map};
ghost use Rattle.move_plan.specs.Inner.{clearance_among, inner_role};
ghost use Rattle.move_plan.specs.Seen.{plain_row, seen_store};
ghost use Rattle.record_format.specs.Told.{told_note};
ghost use Rattle.rekey_walk.specs.Strict.{strict_look_ups};
ghost use Rattle.role_graph.specs.Edges.{edges};
ghost use Rattle.role_graph.specs.PublicStore.{public_store};

use crate::row::Row;
use cry_base::{FileId, FolderId, List, Mem, Role};
use folder_nodes::{FileRow, FolderRow, Shape};
use grant_book::Grants;
use record_format::Note;
use rekey_walk::strict_in;
use role_graph::{Adjacent, clearance_of};
use sorted_table::Walk;
use std::alloc::Global;

/// The strict roles of a note with this row, in their order.
pub(crate) fn strict_of<R: Adjacent>(
    alloc: Global,
    strict: bool,
    shape: &Shape,
    grants: &Grants,
    roles: &mut R,
    note: &Note,
    row: &Row,
) -> Mem<List<Role>>
    requires { R.store roles.old ≡ public_store shape.now.tree grants.now.pairs }
    ensures roles { IfOk result (λ l. l.items
        ≡ strict_of_note strict (seen_store shape.now.tree grants.now) (told_note note.now) (plain_row row.now)) }
    ensures steps { R.steps roles.new ≤ R.steps roles.old
        + cond strict (strict_look_ups (edges (R.store roles.old)) row.now.removed.items) 0 }
    ensures same { R.store roles.new ≡ R.store roles.old }
{
    if is_upgrade(note) {
        return inner_roles(alloc, shape, grants);
    }
    if strict {
        return strict_in(alloc, roles, row.removed.as_slice(), row.gone.as_slice());
    }
    Ok(List::new(alloc))
}

#[tactic(auto, unfolding(crate::specs::Change::is_upgrade, record_format::specs::Told::told_note))]
fn is_upgrade(note: &Note) -> bool
    ensures { result ≡ is_the_upgrade (told_note note.now) }
{
    matches!(note, Note::Upgrade)
}

/// A role that each folder has, and that edges lead on from.
#[derive(Clone, Copy, Debug)]
pub(crate) enum Inner {
    Clear,
    Sub,
    Back,
    Files,
}

/// These roles of all folders, and the clearances of files, in their order.
fn inner_roles(alloc: Global, shape: &Shape, grants: &Grants) -> Mem<List<Role>>
    ensures { IfOk result (λ l. l.items ≡ all_inner_roles (seen_store shape.now.tree grants.now)) }
{
    let mut all = List::new(alloc);
    push_inner(&mut all, shape.folders(), Inner::Clear)?;
    push_clearances(&mut all, grants, shape.files())?;
    push_inner(&mut all, shape.folders(), Inner::Sub)?;
    push_inner(&mut all, shape.folders(), Inner::Back)?;
    push_inner(&mut all, shape.folders(), Inner::Files)?;
    Ok(all)
}

/// Adds the clearance of each file with a grant.
fn push_clearances(all: &mut List<Role>, grants: &Grants, files: Walk<'_, FileRow>) -> Mem<()>
    ensures { OnOk result (all.new.items ≡ all.old.items ++ flat_map (λ r. clearance_among grants.now.pairs r.id.0) files.entry) }
{
    for file in files {
        push_clearance(all, grants, file.id)?;
    }
    Ok(())
}

/// Adds the clearance of a file with a grant.
#[tactic(auto, unfolding(role_graph::specs::Roles::clear_of))]
fn push_clearance(all: &mut List<Role>, grants: &Grants, file: FileId) -> Mem<()>
    ensures { OnOk result (all.new.items ≡ all.old.items ++ clearance_among grants.now.pairs file.0) }
{
    let Some(clear) = clearance_of(grants, file) else {
        return Ok(());
    };
    all.push(Role::Clear(clear))?;
    Ok(())
}

/// Adds this role of each folder.
fn push_inner(all: &mut List<Role>, folders: Walk<'_, FolderRow>, inner: Inner) -> Mem<()>
    ensures { OnOk result (all.new.items ≡ all.old.items ++ map (λ r. inner_role inner r.id.0) folders.entry) }
{
    for folder in folders {
        all.push(role_of(inner, folder.id))?;
    }
    Ok(())
}

#[tactic(auto, unfolding(role_graph::specs::Roles::clear_of, role_graph::specs::Roles::sub_of, role_graph::specs::Roles::back_of, role_graph::specs::Roles::files_of))]
fn role_of(inner: Inner, f: FolderId) -> Role
    ensures { result ≡ inner_role inner f.0 }
{
    match inner {
        Inner::Clear => Role::Clear(f),
        Inner::Sub => Role::Sub(f),
        Inner::Back => Role::Back(f),
        Inner::Files => Role::Files(f),
    }
}
