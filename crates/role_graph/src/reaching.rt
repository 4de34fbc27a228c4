//! What edges lead to, and what leads along them.
ghost use Rattle.std.specs.Prelude.{◌≡◌, ◌<◌, ◌↔◌, true, false, not, ◌&&◌, IfOk, if◌then◌else◌};
ghost use Rattle.cry_base.specs.Sets.{In, has};
ghost use Rattle.cry_base.specs.declared.roles.Role.{Role as AnyRole};
ghost use Rattle.role_graph.specs.Ascending.{IsAscending, with_role};
ghost use Rattle.role_graph.specs.Closing.{IsReached, IsLeading, IsClosed, count_outside, turned};
ghost use Rattle.role_graph.specs.Edges.{Reaches};
ghost use Rattle.role_graph.specs.Roles.{same_role};

use crate::RoleSet;
use cry_base::{Edge, List, Mem, Role};
use std::alloc::Global;

/// The roles at the end of a path of edges from `from`, that role included, in their order.
pub fn reach(alloc: Global, edges: &[Edge], from: Role) -> Mem<List<Role>>
    ensures reached { IfOk result (λ l. (r : AnyRole) → In r l.items ↔ Reaches edges.now from r) }
    ensures ascending { IfOk result (λ l. IsAscending l.items) }
{
    reach_all(alloc, edges, &[from])?.to_list()
}

/// The roles from which a path of edges leads to one of the targets, these included, in their order.
pub fn reach_back(alloc: Global, edges: &[Edge], targets: &[Role]) -> Mem<List<Role>>
    ensures reached { IfOk result (λ l. (r : AnyRole) → In r l.items ↔ IsLeading edges.now targets.now r) }
    ensures ascending { IfOk result (λ l. IsAscending l.items) }
{
    leading_to(alloc, edges, targets)?.to_list()
}

/// The same roles, as a set.
pub fn leading_to(alloc: Global, edges: &[Edge], targets: &[Role]) -> Mem<RoleSet>
    ensures { IfOk result (λ s. (r : AnyRole) → In r s ↔ IsLeading edges.now targets.now r) }
{
    let turned = turn(alloc, edges)?;
    reach_all(alloc, turned.as_slice(), targets)
}

/// The roles that edges lead to from any of the roles, these included.
fn reach_all(alloc: Global, edges: &[Edge], from: &[Role]) -> Mem<RoleSet>
    ensures { IfOk result (λ s. (r : AnyRole) → In r s ↔ IsReached edges.now from.now r) }
{
    let mut reached = RoleSet::new(alloc);
    reached.extend(from)?;
    close(&mut reached, edges)?;
    Ok(reached)
}

/// Adds all that edges lead to from the set, by passes over the edges until one adds nothing.
fn close(reached: &mut RoleSet, edges: &[Edge]) -> Mem<()>
    ensures { IfOk result (λ _. (r : AnyRole) → In r reached.new ↔ IsReached edges.now reached.old r) }
{
    while pass(reached, edges)? {}
    Ok(())
}

/// Adds the end of each edge that leads out of the set, and tells whether there was one.
fn pass(reached: &mut RoleSet, edges: &[Edge]) -> Mem<bool>
    ensures kept { IfOk result (λ _. (r : AnyRole) → In r reached.old → In r reached.new) }
    ensures reached { IfOk result (λ _. (r : AnyRole) → In r reached.new → IsReached edges.now reached.old r) }
    ensures closed { IfOk result (λ grew. grew ≡ false → IsClosed edges.now reached.new) }
    ensures fewer { IfOk result (λ grew. grew ≡ true → count_outside edges.now reached.new < count_outside edges.now reached.old) }
{
    let mut grew = false;
    for edge in edges {
        if follow(reached, edge)? {
            grew = true;
        }
    }
    Ok(grew)
}

/// Adds the end of the edge, where the edge leads out of the set, and tells whether it does.
fn follow(reached: &mut RoleSet, edge: &Edge) -> Mem<bool>
    ensures leads { IfOk result (λ grew. grew ≡ (has same_role reached.old edge.now.from && not (has same_role reached.old edge.now.to))) }
    ensures grown { IfOk result (λ grew. reached.new ≡ (if grew then with_role edge.now.to reached.old else reached.old)) }
{
    let leads_out = reached.has(edge.from) && !reached.has(edge.to);
    if leads_out {
        reached.insert(edge.to)?;
    }
    Ok(leads_out)
}

/// The edges, each the other way round.
fn turn(alloc: Global, edges: &[Edge]) -> Mem<List<Edge>>
    ensures { IfOk result (λ l. l.items ≡ turned edges.now) }
{
    let mut all = List::new(alloc);
    for edge in edges {
        all.push(Edge {
            kind: edge.kind,
            from: edge.to,
            to: edge.from,
        })?;
    }
    Ok(all)
}
