//! Which edges a step publishes (docs/FORMAT.md, "The key step").
ghost use Rattle.std.specs.Prelude.{◌≡◌, ◌≤◌, ◌+◌, ◌++◌, ◌||◌, filter, IfOk};
ghost use Rattle.cry_base.specs.Sets.{has};
ghost use Rattle.role_graph.specs.Edges.{same_edge, edge_before, edges, in_order};
ghost use Rattle.role_graph.specs.Roles.{same_role};
ghost use Rattle.public_fold.specs.KeyStep.{without};
ghost use Rattle.public_fold.specs.LookUps.{publish_look_ups};

use crate::lists::edges_left;
use cry_base::{Edge, Mem, Role};
use role_graph::{Adjacent, edges_touching, in_their_order};
use std::alloc::Global;

/// In their order the edges that come, and of those that are left those with a renewed role at an end. These are looked up at
/// the renewed roles.
#[tactic(auto, unfolding(crate::specs::LookUps::publish_look_ups))]
pub(crate) fn published<R: Adjacent>(
    alloc: Global,
    roles: &mut R,
    removed: &[Edge],
    added: Vec<Edge>,
    renewed: &[Role],
) -> Mem<Vec<Edge>>
    ensures edges { IfOk result (λ l. l.items ≡ in_order edge_before (without same_edge removed.now
        (filter (λ e. has same_role renewed.now e.from || has same_role renewed.now e.to)
        (edges (R.store roles.old))) ++ added.items)) }
    ensures steps { R.steps roles.new ≤ R.steps roles.old + publish_look_ups (edges (R.store roles.old)) renewed.now }
    ensures same { R.store roles.new ≡ R.store roles.old }
{
    let touching = edges_touching(alloc, roles, renewed)?;
    let left = edges_left(alloc, touching.as_slice(), removed)?;
    in_their_order(with_added(left, added)?)
}

/// The edges that are left, and behind them those that come, which takes no memory where none are left: so it is in most steps.
fn with_added(mut left: Vec<Edge>, added: Vec<Edge>) -> Mem<Vec<Edge>>
    ensures { IfOk result (λ l. l.items ≡ left.items ++ added.items) }
{
    if left.is_empty() {
        return Ok(added);
    }
    left.extend_from_slice(&added)?;
    Ok(left)
}
