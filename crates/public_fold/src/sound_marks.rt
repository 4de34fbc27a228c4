//! The marks of a state's rows, where they are sound.
ghost use Rattle.std.specs.Prelude.{◌≡◌, ◌↔◌, ◌≤◌, ◌<◌, ◌∷◌, ℕ, map, length, nat_le, IfOk, IsTrue, MatchOption};
ghost use Rattle.std.specs.List.{list_all};
ghost use Rattle.cry_base.specs.Sets.{In, has};
ghost use Rattle.cry_base.specs.declared.roles.Edge.{Edge as AnyEdge};
ghost use Rattle.index_format.specs.Plain.{plain_state};
ghost use Rattle.index_format.specs.declared.rows.MarkRow.{MarkRow as AnyMark};
ghost use Rattle.public_fold.specs.RowTests.{is_mark_place};
ghost use Rattle.move_plan.specs.Seen.{seen_store};
ghost use Rattle.role_graph.specs.Adjacent.{out_of};
ghost use Rattle.role_graph.specs.Edges.{unordered};
ghost use Rattle.role_graph.specs.PublicStore.{FoldersBelow, public_store};
ghost use Rattle.role_graph.specs.Roles.{same_role};
ghost use Rattle.public_fold.specs.States.{AreSmall, AreSoundMarks, IsClosed, checks_of, marked_of, pairs_of_rows};
ghost use Rattle.public_fold.specs.States.{role_of_mark, tree_of};

use crate::sound_keys::{do_stand, role_at};
use cry_base::{Edge, List, Mem, Role, Steps};
use folder_nodes::Shape;
use grant_book::Grants;
use index_format::{MarkRow, StateRows};
use rekey_walk::Dirty;
use role_graph::{Adjacent, CountedRoles};
use std::alloc::Global;

/// The marks, where they ascend, stand, are on no root, and all is marked that edges lead to from what is.
pub(crate) fn sound_marks(
    alloc: Global,
    rows: &StateRows,
    shape: &Shape,
    grants: &Grants,
) -> Mem<Option<Dirty>>
    requires tree { shape.now.tree ≡ tree_of (plain_state rows.now) }
    requires checks { grants.now.checks ≡ checks_of (plain_state rows.now) }
    requires pairs { grants.now.pairs ≡ pairs_of_rows (plain_state rows.now) }
    requires below { FoldersBelow shape.now.tree }
    ensures { IfOk result (λ made. MatchOption made (AreSoundMarks (plain_state rows.now) → ⊥)
        (λ d. AreSoundMarks (plain_state rows.now) × (d ≡ marked_of (plain_state rows.now)))) }
{
    if !are_mark_places(rows.marks.as_slice()) {
        return Ok(None);
    }
    let roles = mark_roles(alloc, rows.marks.as_slice())?;
    let Some(dirty) = Dirty::of_roles(alloc, roles.as_slice())? else {
        return Ok(None);
    };
    if !do_stand(dirty.as_slice(), shape, grants) {
        return Ok(None);
    }
    if !is_closed(alloc, &dirty, shape, grants)? {
        return Ok(None);
    }
    Ok(Some(dirty))
}

/// Whether each row is of a role that is no root.
fn are_mark_places(rows: &[MarkRow]) -> bool
    ensures { result ≡ list_all (λ (row : AnyMark). is_mark_place row.place) rows.now }
{
    rows.iter().all(|row| 2 <= row.place && row.place <= 7)
}

fn mark_roles(alloc: Global, rows: &[MarkRow]) -> Mem<List<Role>>
    ensures { IfOk result (λ l. l.items ≡ map role_of_mark rows.now) }
{
    let mut found = List::new(alloc);
    found.reserve(rows.len())?;
    for row in rows {
        found.push(role_at(row.place, row.id))?;
    }
    Ok(found)
}

/// Whether all is marked that edges lead to from what is. It looks up the edges of each marked role.
fn is_closed(alloc: Global, dirty: &Dirty, shape: &Shape, grants: &Grants) -> Mem<bool>
    requires { FoldersBelow shape.now.tree }
    ensures { IfOk result (λ closed. IsTrue closed ↔ IsClosed (seen_store shape.now.tree grants.now) dirty.now) }
{
    let mut roles = CountedRoles::new(shape, grants, Steps::new());
    let mut edges = Vec::new(alloc);
    for role in dirty.as_slice() {
        if !is_closed_at(alloc, &mut roles, &mut edges, dirty, *role)? {
            return Ok(false);
        }
    }
    Ok(true)
}

/// Whether all is marked that the role's edges lead to. The list is for the edges.
fn is_closed_at(
    alloc: Global,
    roles: &mut CountedRoles<'_>,
    edges: &mut Vec<Edge>,
    dirty: &Dirty,
    role: Role,
) -> Mem<bool>
    ensures same { roles.new.store ≡ roles.old.store }
    ensures closed { IfOk result (λ closed. IsTrue closed
        ↔ ((e : AnyEdge) → In e (unordered roles.old.store) → e.from ≡ role → In e.to dirty.now)) }
{
    edges.clear();
    roles.push_from(alloc, edges, role)?;
    Ok(are_marked(dirty, edges))
}

/// Whether all these edges lead to what is marked.
fn are_marked(dirty: &Dirty, edges: &[Edge]) -> bool
    ensures { result ≡ list_all (λ (e : AnyEdge). has same_role dirty.now e.to) edges.now }
{
    edges.iter().all(|edge| dirty.has(edge.to))
}
