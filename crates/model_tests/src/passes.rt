//! Marks and plans by passes over a list of edges, beside which the walks are tried.
ghost use Rattle.std.specs.Prelude.{◌≡◌, filter, IfOk, OnOk, OnErr};
ghost use Rattle.cry_base.specs.Sets.{has};
ghost use Rattle.role_graph.specs.Roles.{same_role};
ghost use Rattle.rekey_walk.specs.Dirty.{mark, plan as plan_of};

use cry_base::{Edge, List, Mem, Role};
use role_graph::{RoleSet, leading_to, reach};
use std::alloc::Global;

/// Makes dirty all that edges lead to from the target, the target included. At `Err` nothing has changed.
pub(crate) fn mark_from(alloc: Global, dirty: &mut RoleSet, edges: &[Edge], target: Role) -> Mem<()>
    ensures ok { OnOk result (dirty.new ≡ mark dirty.old edges.now target) }
    ensures err { OnErr result (dirty.new ≡ dirty.old) }
{
    let reached = reach(alloc, edges, target)?;
    let reached = reached.as_slice();
    let mut marked = dirty.copy_with(reached.len())?;
    marked.extend(reached)?;
    *dirty = marked;
    Ok(())
}

/// The dirty roles from which edges lead to a wanted one, the dirty wanted ones included, in their order.
pub(crate) fn plan(
    alloc: Global,
    dirty: &RoleSet,
    edges: &[Edge],
    wanted: &[Role],
) -> Mem<List<Role>>
    ensures { IfOk result (λ l. l.items ≡ plan_of dirty.now edges.now wanted.now) }
{
    let leading = leading_to(alloc, edges, wanted)?;
    those_in(alloc, dirty.as_slice(), &leading)
}

/// Those of the roles that are in the set.
fn those_in(alloc: Global, roles: &[Role], set: &RoleSet) -> Mem<List<Role>>
    ensures { IfOk result (λ l. l.items ≡ filter (has same_role set.now) roles.now) }
{
    let mut found = List::new(alloc);
    for role in roles {
        if set.has(*role) {
            found.push(*role)?;
        }
    }
    Ok(found)
}
