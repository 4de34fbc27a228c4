//! Roles and edges in lists: which stand there, and which are left.
ghost use Rattle.std.specs.Prelude.{◌≡◌, ◌++◌, IfOk, OnOk};
ghost use Rattle.role_graph.specs.Ascending.{IsAscending, ascending};
ghost use Rattle.role_graph.specs.Edges.{same_edge};
ghost use Rattle.public_fold.specs.KeyStep.{without};

use cry_base::{Edge, List, Mem, Role};
use role_graph::{RoleSet, has_edge};
use std::alloc::Global;

/// The strict roles and those of the plan, in their order, each once. It takes no memory where none is strict.
pub(crate) fn with_strict(alloc: Global, strict: &[Role], planned: List<Role>) -> Mem<List<Role>>
    requires { IsAscending planned.items }
    ensures { IfOk result (λ l. l.items ≡ ascending (strict.now ++ planned.items)) }
{
    if strict.is_empty() {
        return Ok(planned);
    }
    let mut all = RoleSet::new(alloc);
    all.extend(strict)?;
    all.extend(planned.as_slice())?;
    all.to_list()
}

/// The one list, and behind it the other, which takes no memory where the one is empty: so it is in most steps.
pub(crate) fn joined(alloc: Global, first: &[Role], second: List<Role>) -> Mem<List<Role>>
    ensures { IfOk result (λ l. l.items ≡ first.now ++ second.items) }
{
    if first.is_empty() {
        return Ok(second);
    }
    let mut all = List::new(alloc);
    push_roles(&mut all, first)?;
    push_roles(&mut all, second.as_slice())?;
    Ok(all)
}

/// Adds the roles at the end.
fn push_roles(all: &mut List<Role>, roles: &[Role]) -> Mem<()>
    ensures { OnOk result (all.new.items ≡ all.old.items ++ roles.now) }
{
    all.reserve(roles.len())?;
    for role in roles {
        all.push(*role)?;
    }
    Ok(())
}

/// The edges that are left without the removed ones.
#[tactic(auto, unfolding(crate::specs::KeyStep::without))]
pub(crate) fn edges_left(alloc: Global, edges: &[Edge], removed: &[Edge]) -> Mem<Vec<Edge>>
    ensures { IfOk result (λ l. l.items ≡ without same_edge removed.now edges.now) }
{
    let mut left = Vec::with_capacity(alloc, edges.len())?;
    for edge in edges {
        if !has_edge(removed, edge) {
            left.push(*edge)?;
        }
    }
    Ok(left)
}
