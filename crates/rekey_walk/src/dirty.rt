//! The roles whose keys a revoked reader may know, and which of them a change renews.
ghost use Rattle.std.specs.Prelude.{◌≡◌, [], filter, IfOk, MatchOption, OnOk, OnErr};
ghost use Rattle.cry_base.specs.Sets.{has};
ghost use Rattle.role_graph.specs.Ascending.{IsAscending, without_role};
ghost use Rattle.role_graph.specs.Roles.{same_role};
ghost use Rattle.rekey_walk.specs.Dirty.{IsJoined};

use cry_base::{List, Mem, Role};
use role_graph::RoleSet;
use std::alloc::Global;
use std::marker::Model;

/// Roles in their order, each once: the keys of these are renewed before anything new is sealed under them.
#[derive(Debug, Drop)]
pub struct Dirty {
    roles: RoleSet,
}

impl Model for Dirty {
    ghost use Rattle.std.specs.Prelude.{List};
    ghost use Rattle.cry_base.specs.declared.roles.Role.{Role};

    ghost Value = { List Role };

    ghost view = { λ d. d.roles };
}

impl Dirty {
    /// No dirty role. It takes no memory.
    pub fn new(alloc: Global) -> Self
        ensures { result ≡ [] }
    {
        Dirty {
            roles: RoleSet::new(alloc),
        }
    }

    /// These roles, where each stands behind the one before.
    pub fn of_roles(alloc: Global, roles: &[Role]) -> Mem<Option<Dirty>>
        ensures { IfOk result (λ made. MatchOption made (IsAscending roles.now → ⊥)
            (λ d. IsAscending roles.now × (d ≡ roles.now))) }
    {
        let Some(roles) = RoleSet::of_roles(alloc, roles)? else {
            return Ok(None);
        };
        Ok(Some(Dirty { roles }))
    }

    /// The same roles once more.
    pub fn copy(&self) -> Mem<Dirty>
        ensures { IfOk result (λ d. d ≡ self.now) }
    {
        Ok(Dirty {
            roles: self.roles.copy()?,
        })
    }

    /// The roles in their order.
    pub fn as_slice(&self) -> &[Role]
        ensures roles { result.now ≡ self.now }
        ensures ascending { IsAscending self.now }
    {
        self.roles.as_slice()
    }

    /// Whether the role is dirty.
    pub fn has(&self, role: Role) -> bool
        ensures { result ≡ has same_role self.now role }
    {
        self.roles.has(role)
    }

    /// The dirty ones of the roles.
    pub(crate) fn of_these(&self, alloc: Global, roles: &[Role]) -> Mem<List<Role>>
        ensures { IfOk result (λ l. l.items ≡ filter (has same_role self.now) roles.now) }
    {
        those_in(alloc, roles, &self.roles)
    }

    /// The set of them.
    pub(crate) fn roles(&self) -> &RoleSet
        ensures { result.now ≡ self.now }
    {
        &self.roles
    }

    /// Makes the role clean. It takes no memory.
    pub fn clean(&mut self, role: Role)
        ensures { self.new ≡ without_role role self.old }
    {
        self.roles.remove(role);
    }
}

/// Makes all roles of the set dirty. At `Err` nothing has changed.
pub(crate) fn add(dirty: &mut Dirty, roles: &RoleSet) -> Mem<()>
    ensures ok { OnOk result (IsJoined dirty.old roles.now dirty.new) }
    ensures err { OnErr result (dirty.new ≡ dirty.old) }
{
    let roles = roles.as_slice();
    let mut marked = dirty.roles.copy_with(roles.len())?;
    marked.extend(roles)?;
    dirty.roles = marked;
    Ok(())
}

/// The dirty roles that are in the set, in their order. It looks at each of the fewer: where much is dirty, a step is to
/// pay for what leads to its wanted roles alone.
pub(crate) fn common(alloc: Global, dirty: &Dirty, set: &RoleSet) -> Mem<List<Role>>
    ensures { IfOk result (λ l. l.items ≡ filter (has same_role set.now) dirty.now) }
{
    if set.as_slice().len() < dirty.as_slice().len() {
        those_in(alloc, set.as_slice(), &dirty.roles)
    } else {
        those_in(alloc, dirty.as_slice(), set)
    }
}

/// Those of the roles that are in the set.
fn those_in(alloc: Global, roles: &[Role], set: &RoleSet) -> Mem<List<Role>>
    ensures { IfOk result (λ l. l.items ≡ filter (has same_role set.now) roles.now) }
{
    let mut found = List::new(alloc);
    for role in roles {
        if set.has(*role) {
            found.push(*role)?;
        }
    }
    Ok(found)
}
