//! The dirty roles before and after what is renewed (docs/FORMAT.md, "The key step").
ghost use Rattle.std.specs.Prelude.{◌≡◌, ◌≤◌, ◌+◌, map, IfOk, OnOk};
ghost use Rattle.rekey_walk.specs.Dirty.{mark_all};
ghost use Rattle.role_graph.specs.Edges.{edges};
ghost use Rattle.role_graph.specs.Roles.{same_role};
ghost use Rattle.public_fold.specs.KeyStep.{without};
ghost use Rattle.public_fold.specs.LookUps.{mark_look_ups};

use cry_base::{Edge, Mem, Role};
use move_plan::Change;
use rekey_walk::{Dirty, mark_in};
use role_graph::Adjacent;
use std::alloc::Global;

/// The dirty roles once all behind a removed edge is marked, without the roles that go.
pub(crate) fn dirty_left<R: Adjacent>(
    alloc: Global,
    dirty: &Dirty,
    roles: &mut R,
    change: &Change,
) -> Mem<Dirty>
    ensures marks { IfOk result (λ d. d ≡ without same_role change.now.gone.items (mark_all dirty.now
        (edges (R.store roles.old)) (map (λ e. e.to) change.now.removed.items))) }
    ensures steps { R.steps roles.new ≤ R.steps roles.old
        + mark_look_ups (edges (R.store roles.old)) (map (λ e. e.to) change.now.removed.items) }
    ensures same { R.store roles.new ≡ R.store roles.old }
{
    let mut left = dirty.copy()?;
    mark_behind(alloc, &mut left, roles, change.removed.as_slice())?;
    clean(&mut left, change.gone.as_slice());
    Ok(left)
}

/// Marks all behind the removed edges.
#[tactic(auto, unfolding(rekey_walk::specs::Dirty::mark_all))]
fn mark_behind<R: Adjacent>(
    alloc: Global,
    dirty: &mut Dirty,
    roles: &mut R,
    removed: &[Edge],
) -> Mem<()>
    ensures marks { OnOk result (dirty.new ≡ mark_all dirty.old
        (edges (R.store roles.old)) (map (λ e. e.to) removed.now)) }
    ensures steps { R.steps roles.new ≤ R.steps roles.old
        + mark_look_ups (edges (R.store roles.old)) (map (λ e. e.to) removed.now) }
    ensures same { R.store roles.new ≡ R.store roles.old }
{
    for edge in removed {
        mark_in(alloc, dirty, roles, edge.to)?;
    }
    Ok(())
}

/// Makes the roles clean. It takes no memory.
pub(crate) fn clean(dirty: &mut Dirty, roles: &[Role])
    ensures { dirty.new ≡ without same_role roles.now dirty.old }
{
    for role in roles {
        dirty.clean(*role);
    }
}
