//! Marks and plans by walks that look at no edge but those at the roles that they come to. They have no way to an edge but
//! the counted calls of `Adjacent`, so each bound is on all that they look up, whatever they answer.
ghost use Rattle.std.specs.Prelude.{◌≡◌, ◌∷◌, [], ◌+◌, ◌*◌, ◌≤◌, length, IfOk, OnOk, OnErr};
ghost use Rattle.role_graph.specs.Adjacent.{count_from, count_into, edges_but};
ghost use Rattle.role_graph.specs.Closing.{IsClosed, turned};
ghost use Rattle.role_graph.specs.Edges.{edges, reach_along};
ghost use Rattle.rekey_walk.specs.Dirty.{mark, plan as plan_of};

use crate::Dirty;
use crate::dirty::{add, common};
use cry_base::{Edge, List, Mem, Role};
use role_graph::{Adjacent, Way, walk, walk_within};
use std::alloc::Global;

/// Makes dirty all that edges lead to from the target, the target included. At `Err` nothing has changed. It takes at most
/// two steps for each edge out of a role that it comes to, and one more: so at most two for each edge, and one more.
pub fn mark_in<R: Adjacent>(
    alloc: Global,
    dirty: &mut Dirty,
    roles: &mut R,
    target: Role,
) -> Mem<()>
    ensures ok { OnOk result (dirty.new ≡ mark dirty.old (edges (R.store roles.old)) target) }
    ensures err { OnErr result (dirty.new ≡ dirty.old) }
    ensures steps { let es = edges (R.store roles.old) in
        R.steps roles.new ≤ R.steps roles.old + 2 * count_from es (reach_along es (target ∷ [])) + 1 }
    ensures whole { R.steps roles.new ≤ R.steps roles.old + 2 * length (edges (R.store roles.old)) + 1 }
    ensures same { R.store roles.new ≡ R.store roles.old }
{
    let reached = walk(alloc, roles, Way::Along, &[], &[target])?;
    add(dirty, &reached)
}

/// The dirty roles from which edges that aren't removed lead to a wanted one, the dirty wanted ones included, in their
/// order. It takes at most two steps for each edge into a role that leads to a wanted one, and one for each wanted role:
/// so at most two for each edge, and one for each wanted role.
pub fn plan_in<R: Adjacent>(
    alloc: Global,
    dirty: &Dirty,
    roles: &mut R,
    removed: &[Edge],
    wanted: &[Role],
) -> Mem<List<Role>>
    ensures plan { IfOk result (λ l. l.items
        ≡ plan_of dirty.now (edges_but removed.now (edges (R.store roles.old))) wanted.now) }
    ensures steps { let es = edges (R.store roles.old) in R.steps roles.new ≤ R.steps roles.old
        + 2 * count_into es (reach_along (turned (edges_but removed.now es)) wanted.now) + length wanted.now }
    ensures whole { R.steps roles.new ≤ R.steps roles.old + 2 * length (edges (R.store roles.old)) + length wanted.now }
    ensures same { R.store roles.new ≡ R.store roles.old }
{
    if dirty.as_slice().is_empty() {
        return Ok(List::new(alloc));
    }
    let leading = walk(alloc, roles, Way::Against, removed, wanted)?;
    common(alloc, dirty, &leading)
}

/// The same plan, where edges that aren't removed lead from dirty roles to dirty ones alone: what leads to a wanted role by way of
/// a clean one is clean then, and isn't looked for. It takes at most two steps for each edge into a role of the plan, and one
/// for each wanted role.
pub fn plan_closed<R: Adjacent>(
    alloc: Global,
    dirty: &Dirty,
    roles: &mut R,
    removed: &[Edge],
    wanted: &[Role],
) -> Mem<List<Role>>
    requires closed { IsClosed (edges_but removed.now (edges (R.store roles.old))) dirty.now }
    ensures plan { IfOk result (λ l. l.items
        ≡ plan_of dirty.now (edges_but removed.now (edges (R.store roles.old))) wanted.now) }
    ensures steps { let es = edges (R.store roles.old) in R.steps roles.new ≤ R.steps roles.old
        + 2 * count_into es (plan_of dirty.now (edges_but removed.now es) wanted.now) + length wanted.now }
    ensures same { R.store roles.new ≡ R.store roles.old }
{
    let from = dirty.of_these(alloc, wanted)?;
    if from.as_slice().is_empty() {
        return Ok(from);
    }
    let from = from.as_slice();
    let leading = walk_within(alloc, roles, Way::Against, removed, dirty.roles(), from)?;
    leading.to_list()
}
