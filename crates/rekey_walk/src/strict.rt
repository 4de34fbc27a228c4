//! Which roles are renewed so that what left a folder is closed to whoever comes later (docs/FORMAT.md, "The key step").
ghost use Rattle.std.specs.Prelude.{◌≡◌, ◌+◌, ◌≤◌, filter, IfOk};
ghost use Rattle.role_graph.specs.Edges.{edges};
ghost use Rattle.role_graph.specs.Roles.{is_root_role};
ghost use Rattle.rekey_walk.specs.Strict.{may_renew as may_renew_role, sources_of as sources_of_edges, strict_look_ups, strict_roles};

use crate::has_role;
use cry_base::{Edge, List, Mem, Role};
use role_graph::{Adjacent, Way, walk};
use std::alloc::Global;

/// In their order the roles from which edges lead to where a removed edge begins, that role included, but for the owner's, the
/// holders' and those that go. The removed edges count as the others do. It takes at most two steps for each edge into a
/// role that leads there, and one for each removed edge.
pub fn strict_in<R: Adjacent>(
    alloc: Global,
    roles: &mut R,
    removed: &[Edge],
    gone: &[Role],
) -> Mem<List<Role>>
    ensures roles { IfOk result (λ l. l.items ≡ strict_roles (edges (R.store roles.old)) removed.now gone.now) }
    ensures steps { R.steps roles.new ≤ R.steps roles.old + strict_look_ups (edges (R.store roles.old)) removed.now }
    ensures same { R.store roles.new ≡ R.store roles.old }
{
    let sources = sources_of(alloc, removed)?;
    let leading = walk(alloc, roles, Way::Against, &[], sources.as_slice())?;
    renewable(alloc, leading.as_slice(), gone)
}

/// The roles that the edges begin at.
#[tactic(auto, unfolding(crate::specs::Strict::sources_of))]
fn sources_of(alloc: Global, removed: &[Edge]) -> Mem<List<Role>>
    ensures { IfOk result (λ l. l.items ≡ sources_of_edges removed.now) }
{
    let mut sources = List::new(alloc);
    sources.reserve(removed.len())?;
    for edge in removed {
        sources.push(edge.from)?;
    }
    Ok(sources)
}

/// Those of the roles that may get new keys.
fn renewable(alloc: Global, roles: &[Role], gone: &[Role]) -> Mem<List<Role>>
    ensures { IfOk result (λ l. l.items ≡ filter (may_renew_role gone.now) roles.now) }
{
    let mut found = List::new(alloc);
    for role in roles {
        if may_renew(gone, *role) {
            found.push(*role)?;
        }
    }
    Ok(found)
}

/// Whether the role gets new keys: it is no root, and doesn't go.
#[tactic(auto, unfolding(crate::specs::Strict::may_renew))]
fn may_renew(gone: &[Role], role: Role) -> bool
    ensures { result ≡ may_renew_role gone.now role }
{
    !is_root(role) && !has_role(gone, role)
}

/// Whether the key is the owner's or a holder's.
#[tactic(auto, unfolding(role_graph::specs::Roles::is_root_role, role_graph::specs::Roles::variant_of))]
fn is_root(role: Role) -> bool
    ensures { result ≡ is_root_role role }
{
    matches!(role, Role::Owner | Role::Holder(_))
}
