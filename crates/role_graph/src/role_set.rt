//! A set of roles that is kept in their order.
ghost use Rattle.std.specs.Prelude.{◌≡◌, ◌<◌, ◌≤◌, ◌⊎◌, ◌↔◌, [], insert, remove, is_ok, length, IfOk, IfErr, IsTrue, MatchOption, OnOk, OnErr};
ghost use Rattle.cry_base.specs.Sets.{In, has};
ghost use Rattle.cry_base.specs.declared.roles.Role.{Role as AnyRole};
ghost use Rattle.role_graph.specs.Ascending.{IsAscending, with_role, without_role};
ghost use Rattle.role_graph.specs.Roles.{same_role, role_before};

use cry_base::{List, Mem, Role};
use std::alloc::Global;
use std::collections::BTreeSet;
use std::marker::Model;

/// Roles in their order, each once.
#[derive(Debug, Drop)]
pub struct RoleSet {
    roles: Vec<Role>,
}

impl Model for RoleSet {
    ghost use Rattle.std.specs.Prelude.{List};
    ghost use Rattle.cry_base.specs.declared.roles.Role.{Role};
    ghost use Rattle.role_graph.specs.Ascending.{IsAscending};

    ghost Value = { List Role };

    ghost view = { λ s. s.roles.items };

    ghost invariant = { λ s. IsAscending s.roles.items };
}

impl RoleSet {
    /// The set of no role. It takes no memory.
    pub fn new(alloc: Global) -> Self
        ensures { result ≡ [] }
    {
        RoleSet {
            roles: Vec::new(alloc),
        }
    }

    /// The roles that a walk has seen.
    pub(crate) fn of_seen(alloc: Global, seen: &BTreeSet<Role, Global>) -> Mem<RoleSet>
        ensures { IfOk result (λ s. s ≡ seen.now.keys) }
    {
        let mut roles = Vec::with_capacity(alloc, seen.len())?;
        for role in seen {
            roles.push(*role)?;
        }
        Ok(RoleSet { roles })
    }

    /// The set of these roles, where each stands behind the one before.
    pub fn of_roles(alloc: Global, roles: &[Role]) -> Mem<Option<RoleSet>>
        ensures { IfOk result (λ made. MatchOption made (IsAscending roles.now → ⊥)
            (λ s. IsAscending roles.now × (s ≡ roles.now))) }
    {
        if !are_ascending(roles) {
            return Ok(None);
        }
        Ok(Some(RoleSet {
            roles: Vec::from_slice(alloc, roles)?,
        }))
    }

    /// The roles in their order.
    pub fn as_slice(&self) -> &[Role]
        ensures roles { result.now ≡ self.now }
        ensures ascending { IsAscending self.now }
    {
        self.roles.as_slice()
    }

    /// Whether the role is in the set.
    pub fn has(&self, role: Role) -> bool
        ensures { result ≡ has same_role self.now role }
    {
        find(self.roles.as_slice(), role).is_ok()
    }

    /// Adds the role, where it isn't in the set. At `Err` the set is as it was.
    pub fn insert(&mut self, role: Role) -> Mem<()>
        ensures ok { OnOk result (self.new ≡ with_role role self.old) }
        ensures err { OnErr result (self.new ≡ self.old) }
        ensures ascending { IsAscending self.new }
    {
        if let Err(place) = find(self.roles.as_slice(), role) {
            self.roles.insert(place, role)?;
        }
        Ok(())
    }

    /// Adds the roles. At `Err` all that were in the set still are, and some of the roles may be.
    pub fn extend(&mut self, roles: &[Role]) -> Mem<()>
        ensures kept { (r : AnyRole) → In r self.old → In r self.new }
        ensures added { (r : AnyRole) → In r self.new → In r self.old ⊎ In r roles.now }
        ensures all { OnOk result ((r : AnyRole) → In r roles.now → In r self.new) }
        ensures ascending { IsAscending self.new }
    {
        self.roles.reserve(roles.len())?;
        for role in roles {
            self.insert(*role)?;
        }
        Ok(())
    }

    /// Takes the role out, where it is in the set. It takes no memory.
    pub fn remove(&mut self, role: Role)
        ensures { self.new ≡ without_role role self.old }
    {
        if let Ok(place) = find(self.roles.as_slice(), role) {
            let _role = self.roles.remove(place);
        }
    }

    /// The same set once more.
    pub fn copy(&self) -> Mem<RoleSet>
        ensures { IfOk result (λ s. s ≡ self.now) }
    {
        self.copy_with(0)
    }

    /// The same set once more, with room for so many roles beside its own.
    pub fn copy_with(&self, more: usize) -> Mem<RoleSet>
        ensures { IfOk result (λ s. s ≡ self.now) }
    {
        let room = self.roles.len().saturating_add(more);
        let mut roles = Vec::with_capacity(*self.roles.allocator(), room)?;
        roles.extend_from_slice(&self.roles)?;
        Ok(RoleSet { roles })
    }

    /// The roles in their order, as a list.
    pub fn to_list(&self) -> Mem<List<Role>>
        ensures roles { IfOk result (λ l. l.items ≡ self.now) }
        ensures ascending { IsAscending self.now }
    {
        let mut list = List::new(*self.roles.allocator());
        list.reserve(self.roles.len())?;
        for role in self.roles.as_slice() {
            list.push(*role)?;
        }
        Ok(list)
    }
}

/// The index of the role, or as an error the index where it would stand.
fn find(roles: &[Role], role: Role) -> Result<usize, usize>
    requires { IsAscending roles.now }
    ensures present { is_ok result ≡ has same_role roles.now role }
    ensures found { IfOk result (λ i. (i < length roles.now) × (remove roles.now i ≡ without_role role roles.now)
        × (with_role role roles.now ≡ roles.now)) }
    ensures absent { IfErr result (λ i. (i ≤ length roles.now) × (insert roles.now i role ≡ with_role role roles.now)
        × (without_role role roles.now ≡ roles.now)) }
{
    let place = roles.partition_point(|other| is_before(*other, role));
    if place < roles.len() && is_same(roles[place], role) {
        Ok(place)
    } else {
        Err(place)
    }
}

/// Whether each role stands behind the one before.
fn are_ascending(roles: &[Role]) -> bool
    ensures { IsTrue result ↔ IsAscending roles.now }
{
    for at in 1..roles.len() {
        if !is_before(roles[at - 1], roles[at]) {
            return false;
        }
    }
    true
}

/// Whether a stands before b in the order of roles.
#[tactic(auto, unfolding(crate::specs::Roles::role_before, crate::specs::Roles::variant_of, crate::specs::Roles::role_id))]
fn is_before(a: Role, b: Role) -> bool
    ensures { result ≡ role_before a b }
{
    a < b
}

/// Whether the two are one role.
#[tactic(auto, unfolding(crate::specs::Roles::same_role, crate::specs::Roles::variant_of, crate::specs::Roles::role_id))]
fn is_same(a: Role, b: Role) -> bool
    ensures { result ≡ same_role a b }
{
    a == b
}
