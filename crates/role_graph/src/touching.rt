//! The edges at some roles, in their order, found without a look at any other.
ghost use Rattle.std.specs.Prelude.{◌≡◌, ◌+◌, ◌*◌, ◌≤◌, ◌||◌, ◌++◌, ◌∷◌, [], None, cond, filter, length, IfOk, OnOk};
ghost use Rattle.cry_base.specs.Sets.{has};
ghost use Rattle.role_graph.specs.Adjacent.{at_role, at_roles, is_repeat, once_after};
ghost use Rattle.role_graph.specs.Edges.{edges as edges_of, unordered};
ghost use Rattle.role_graph.specs.Roles.{same_role};

use crate::Adjacent;
use crate::edge_list::sort;
use crate::walking::is_same_edge;
use cry_base::{Edge, List, Mem, Role};
use std::alloc::Global;

/// The edges with one of the roles at an end, in their order. It takes for each of the roles a step for each edge at it,
/// and two more.
pub fn edges_touching<R: Adjacent>(alloc: Global, roles: &mut R, at: &[Role]) -> Mem<List<Edge>>
    ensures edges { IfOk result (λ l. l.items ≡ filter (λ e. has same_role at.now e.from || has same_role at.now e.to)
        (edges_of (R.store roles.old))) }
    ensures steps { IfOk result (λ l. R.steps roles.new ≡ R.steps roles.old
        + length (at_roles (edges_of (R.store roles.old)) at.now) + 2 * length at.now) }
    ensures most { R.steps roles.new ≤ R.steps roles.old
        + length (at_roles (edges_of (R.store roles.old)) at.now) + 2 * length at.now }
    ensures same { R.store roles.new ≡ R.store roles.old }
{
    roles.laws();
    let mut found = listed_at(alloc, roles, at)?;
    sort(&mut found)?;
    each_once(alloc, &found)
}

/// For each of the roles, the edges out of it and those into it: an edge between two of them comes twice.
#[tactic(auto, unfolding(crate::specs::Adjacent::at_roles))]
fn listed_at<R: Adjacent>(alloc: Global, roles: &mut R, at: &[Role]) -> Mem<Vec<Edge>>
    ensures edges { IfOk result (λ l. l.items ≡ at_roles (unordered (R.store roles.old)) at.now) }
    ensures steps { IfOk result (λ l. R.steps roles.new ≡ R.steps roles.old + length l.items + 2 * length at.now) }
    ensures most { R.steps roles.new ≤ R.steps roles.old
        + length (at_roles (unordered (R.store roles.old)) at.now) + 2 * length at.now }
    ensures same { R.store roles.new ≡ R.store roles.old }
{
    let mut found = Vec::new(alloc);
    for role in at {
        push_at(alloc, roles, &mut found, *role)?;
    }
    Ok(found)
}

/// Adds the edges out of the role and those into it.
#[tactic(auto, unfolding(crate::specs::Adjacent::at_role))]
fn push_at<R: Adjacent>(alloc: Global, roles: &mut R, found: &mut Vec<Edge>, role: Role) -> Mem<()>
    ensures edges { OnOk result (found.new.items ≡ found.old.items ++ at_role (unordered (R.store roles.old)) role) }
    ensures steps { OnOk result (R.steps roles.new + length found.old.items ≡ R.steps roles.old + length found.new.items + 2) }
    ensures most { R.steps roles.new ≤ R.steps roles.old + length (at_role (unordered (R.store roles.old)) role) + 2 }
    ensures same { R.store roles.new ≡ R.store roles.old }
{
    roles.push_from(alloc, found, role)?;
    roles.push_into(alloc, found, role)?;
    Ok(())
}

/// The edges without those that are as the one before them.
fn each_once(alloc: Global, edges: &[Edge]) -> Mem<List<Edge>>
    ensures { IfOk result (λ l. l.items ≡ once_after None edges.now) }
{
    let mut list = List::new(alloc);
    let mut last = None;
    for edge in edges {
        push_once(&mut list, last, edge)?;
        last = Some(*edge);
    }
    Ok(list)
}

/// Adds the edge, where it isn't as the one before it.
fn push_once(list: &mut List<Edge>, last: Option<Edge>, edge: &Edge) -> Mem<()>
    ensures { OnOk result (list.new.items ≡ cond (is_repeat last edge.now) list.old.items (list.old.items ++ edge.now ∷ [])) }
{
    if is_repeat(last, edge) {
        return Ok(());
    }
    list.push(*edge)?;
    Ok(())
}

/// Whether the edge is as the one before it.
#[tactic(auto, unfolding(crate::specs::Adjacent::is_repeat))]
fn is_repeat(last: Option<Edge>, edge: &Edge) -> bool
    ensures { result ≡ is_repeat last edge.now }
{
    match last {
        Some(last) => is_same_edge(&last, edge),
        None => false,
    }
}
