//! Which roles stand in a list.
ghost use Rattle.std.specs.Prelude.{◌≡◌};
ghost use Rattle.cry_base.specs.Sets.{has};
ghost use Rattle.role_graph.specs.Roles.{same_role};

use cry_base::Role;

/// Whether the two are one role.
#[tactic(auto, unfolding(role_graph::specs::Roles::same_role, role_graph::specs::Roles::variant_of, role_graph::specs::Roles::role_id))]
pub fn is_same_role(a: Role, b: Role) -> bool
    ensures { result ≡ same_role a b }
{
    a == b
}

/// Whether the role is one of these.
#[tactic(auto, unfolding(cry_base::specs::Sets::has))]
pub fn has_role(roles: &[Role], role: Role) -> bool
    ensures { result ≡ has same_role roles.now role }
{
    roles.iter().any(|other| is_same_role(role, *other))
}
