//! A few roles, in the value itself.
ghost use Rattle.std.specs.Prelude.{◌≡◌, ◌≤◌, [], ◌∷◌, length};

use cry_base::Role;
use std::marker::Model;

/// At most five roles, as many as a folder has. They lie in the value itself and take no memory. Contracts see them as a list.
#[derive(Debug, Drop)]
pub struct FewRoles {
    // Those from the count on mean nothing.
    roles: [Role; 5],
    count: usize,
}

impl Model for FewRoles {
    ghost use Rattle.std.specs.Prelude.{◌≡◌, ◌≤◌, List, length, take};
    ghost use Rattle.cry_base.specs.declared.roles.Role.{Role};

    ghost Value = { List Role };

    ghost view = { λ f. take f.count f.roles };

    ghost invariant = { λ f. (length f.roles ≡ 5) × (f.count ≤ 5) };
}

impl FewRoles {
    /// No role.
    pub(crate) fn none() -> FewRoles
        ensures { result ≡ [] }
    {
        FewRoles {
            roles: [Role::Owner; 5],
            count: 0,
        }
    }

    /// One role.
    pub(crate) fn one(role: Role) -> FewRoles
        ensures { result ≡ role ∷ [] }
    {
        FewRoles {
            roles: [role; 5],
            count: 1,
        }
    }

    /// Two roles.
    pub(crate) fn two(first: Role, second: Role) -> FewRoles
        ensures { result ≡ first ∷ second ∷ [] }
    {
        FewRoles {
            roles: [first, second, second, second, second],
            count: 2,
        }
    }

    /// Five roles.
    pub(crate) fn five(roles: [Role; 5]) -> FewRoles
        ensures { result ≡ roles }
    {
        FewRoles { roles, count: 5 }
    }

    /// The roles in order.
    pub fn as_slice(&self) -> &[Role]
        ensures roles { result.now ≡ self.now }
        ensures few { length self.now ≤ 5 }
    {
        &self.roles[..self.count]
    }
}
