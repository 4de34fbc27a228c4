//! A walk from some roles on. It asks for the edges of each role once.
ghost use Rattle.std.specs.Prelude.{◌≡◌, ◌↔◌, ◌+◌, ◌*◌, ◌≤◌, [], length, map, option_copied, Some, IfOk, OnOk};
ghost use Rattle.cry_base.specs.Sets.{In, has};
ghost use Rattle.cry_base.specs.declared.roles.Role.{Role as AnyRole};
ghost use Rattle.role_graph.specs.Adjacent.{HaveSame, as_walked, count_from, edges_but, ending_in, ends_from};
ghost use Rattle.role_graph.specs.Adjacent.{grown_by, out_of, roles_in, with_new};
ghost use Rattle.role_graph.specs.Closing.{IsReached};
ghost use Rattle.role_graph.specs.Edges.{reach_along, same_edge, unordered};

use crate::{Adjacent, RoleSet, Way};
use cry_base::{Edge, List, Mem, Role};
use std::alloc::Global;
use std::collections::BTreeSet;

/// How many roles a walk has room for from its start. Most come to fewer.
const USUAL_ROLES: usize = 16;

/// The roles that a walk comes to from some of them, these included, along the edges or against them, but for the removed
/// edges. It takes at most two steps for each edge at a role that it comes to, and one for each role that it begins at.
#[tactic(auto, unfolding(crate::specs::Adjacent::ending_in))]
pub fn walk<R: Adjacent>(
    alloc: Global,
    roles: &mut R,
    way: Way,
    removed: &[Edge],
    from: &[Role],
) -> Mem<RoleSet>
    ensures reached { IfOk result (λ s. (r : AnyRole) → In r s
        ↔ IsReached (as_walked way
        (edges_but removed.now (unordered (R.store roles.old)))) from.now r) }
    ensures steps { let es = unordered (R.store roles.old) in R.steps roles.new ≤ R.steps roles.old
        + 2 * count_from (as_walked way es) (reach_along (as_walked way (edges_but removed.now es)) from.now) + length from.now }
    ensures same { R.store roles.new ≡ R.store roles.old }
{
    walk_on(alloc, roles, way, removed, None, from)
}

/// What the walk comes to where it goes on to no role but those in a set. It takes as many steps for what it comes to.
pub fn walk_within<R: Adjacent>(
    alloc: Global,
    roles: &mut R,
    way: Way,
    removed: &[Edge],
    within: &RoleSet,
    from: &[Role],
) -> Mem<RoleSet>
    ensures reached { IfOk result (λ s. (r : AnyRole) → In r s
        ↔ IsReached (ending_in (Some within.now) (as_walked way
        (edges_but removed.now (unordered (R.store roles.old))))) from.now r) }
    ensures steps { let es = unordered (R.store roles.old) in R.steps roles.new ≤ R.steps roles.old
        + 2 * count_from (as_walked way es) (reach_along (ending_in (Some within.now) (as_walked way (edges_but removed.now es))) from.now)
        + length from.now }
    ensures same { R.store roles.new ≡ R.store roles.old }
{
    walk_on(alloc, roles, way, removed, Some(within), from)
}

/// Either walk.
fn walk_on<R: Adjacent>(
    alloc: Global,
    roles: &mut R,
    way: Way,
    removed: &[Edge],
    within: Option<&RoleSet>,
    from: &[Role],
) -> Mem<RoleSet>
    ensures reached { IfOk result (λ s. (r : AnyRole) → In r s
        ↔ IsReached (ending_in (option_copied within.entry) (as_walked way
        (edges_but removed.now (unordered (R.store roles.old))))) from.now r) }
    ensures steps { let es = unordered (R.store roles.old) in R.steps roles.new ≤ R.steps roles.old
        + 2 * count_from (as_walked way es)
        (reach_along (ending_in (option_copied within.entry) (as_walked way (edges_but removed.now es))) from.now)
        + length from.now }
    ensures same { R.store roles.new ≡ R.store roles.old }
{
    let mut found = List::new(alloc);
    found.reserve(USUAL_ROLES)?;
    // A sorted list would move its rows for each role that comes before others.
    let mut seen = BTreeSet::new(alloc);
    add_all(&mut found, &mut seen, from)?;
    let mut ahead = Ahead::new(alloc);
    let mut done = 0;
    while done < found.as_slice().len() {
        let here = found.as_slice();
        ahead.look(alloc, roles, way, removed, here[done])?;
        ahead.keep(within);
        add_all(&mut found, &mut seen, &ahead.ends)?;
        done += 1;
    }
    RoleSet::of_seen(alloc, &seen)
}

/// What lies ahead of one role. A walk fills the same lists anew at each, since lists of their own would take more time
/// to get and give back than to fill.
#[derive(Drop)]
struct Ahead {
    /// The edges at the role.
    edges: Vec<Edge>,
    /// Where the walk goes on.
    ends: Vec<Role>,
}

impl Ahead {
    /// Nothing yet. It takes no memory.
    fn new(alloc: Global) -> Ahead
        ensures edges { result.edges.items ≡ [] }
        ensures ends { result.ends.items ≡ [] }
    {
        Ahead {
            edges: Vec::new(alloc),
            ends: Vec::new(alloc),
        }
    }

    /// Looks up where the walk goes on from the role.
    fn look<R: Adjacent>(
        &mut self,
        alloc: Global,
        roles: &mut R,
        way: Way,
        removed: &[Edge],
        role: Role,
    ) -> Mem<()>
        ensures ends { OnOk result (self.new.ends.items
            ≡ ends_from (as_walked way
            (edges_but removed.now (unordered (R.store roles.old)))) role) }
        ensures steps { OnOk result (R.steps roles.new ≡ R.steps roles.old
            + length (out_of (as_walked way (unordered (R.store roles.old))) role) + 1) }
        ensures most { R.steps roles.new ≤ R.steps roles.old
            + length (out_of (as_walked way (unordered (R.store roles.old))) role) + 1 }
        ensures same { R.store roles.new ≡ R.store roles.old }
    {
        self.edges.clear();
        match way {
            Way::Along => {
                roles.push_from(alloc, &mut self.edges, role)?;
                put_ends(&mut self.ends, &self.edges, removed)?;
            }
            Way::Against => {
                roles.push_into(alloc, &mut self.edges, role)?;
                put_starts(&mut self.ends, &self.edges, removed)?;
            }
        }
        Ok(())
    }

    /// Keeps of the ends those that are in the set, where there is one.
    #[tactic(auto, unfolding(crate::specs::Adjacent::roles_in))]
    fn keep(&mut self, within: Option<&RoleSet>)
        ensures { self.new.ends.items ≡ roles_in (option_copied within.entry) self.old.ends.items }
    {
        match within {
            Some(set) => self.ends.retain(|role| set.has(*role)),
            None => {}
        }
    }
}

/// Puts the ends of the edges that aren't removed into the list, in place of what it has.
#[tactic(auto, unfolding(crate::specs::Adjacent::edges_but))]
fn put_ends(found: &mut Vec<Role>, edges: &[Edge], removed: &[Edge]) -> Mem<()>
    ensures { OnOk result (found.new.items ≡ map (λ e. e.to) (edges_but removed.now edges.now)) }
{
    found.clear();
    for edge in edges {
        if !has_edge(removed, edge) {
            found.push(edge.to)?;
        }
    }
    Ok(())
}

/// Puts the starts of the edges that aren't removed into the list, in place of what it has.
#[tactic(auto, unfolding(crate::specs::Adjacent::edges_but))]
fn put_starts(found: &mut Vec<Role>, edges: &[Edge], removed: &[Edge]) -> Mem<()>
    ensures { OnOk result (found.new.items ≡ map (λ e. e.from) (edges_but removed.now edges.now)) }
{
    found.clear();
    for edge in edges {
        if !has_edge(removed, edge) {
            found.push(edge.from)?;
        }
    }
    Ok(())
}

/// Whether the edge is one of these.
#[tactic(auto, unfolding(cry_base::specs::Sets::has))]
pub fn has_edge(edges: &[Edge], edge: &Edge) -> bool
    ensures { result ≡ has same_edge edges.now edge.now }
{
    edges.iter().any(|other| is_same_edge(edge, other))
}

/// Whether the two are one edge.
#[tactic(auto, unfolding(crate::specs::Edges::same_edge, crate::specs::Roles::same_role, crate::specs::Roles::variant_of, crate::specs::Roles::role_id))]
pub(crate) fn is_same_edge(a: &Edge, b: &Edge) -> bool
    ensures { result ≡ same_edge a.now b.now }
{
    a.kind == b.kind && a.from == b.from && a.to == b.to
}

/// Adds the roles that weren't found before.
fn add_all(found: &mut List<Role>, seen: &mut BTreeSet<Role, Global>, roles: &[Role]) -> Mem<()>
    ensures found { OnOk result (HaveSame found.old.items seen.old.keys → found.new.items ≡ with_new found.old.items roles.now) }
    ensures seen { OnOk result (HaveSame found.old.items seen.old.keys → HaveSame found.new.items seen.new.keys) }
{
    for role in roles {
        add(found, seen, *role)?;
    }
    Ok(())
}

/// Adds the role, where it wasn't found before.
fn add(found: &mut List<Role>, seen: &mut BTreeSet<Role, Global>, role: Role) -> Mem<()>
    ensures found { OnOk result (HaveSame found.old.items seen.old.keys → found.new.items ≡ grown_by found.old.items role) }
    ensures seen { OnOk result (HaveSame found.old.items seen.old.keys → HaveSame found.new.items seen.new.keys) }
{
    if seen.insert(role)? {
        found.push(role)?;
    }
    Ok(())
}
