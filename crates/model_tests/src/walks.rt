//! Walks that look edges up: beside passes over a list of all edges, on stores that are drawn, and along a chain.
ghost use Rattle.std.specs.Prelude;

use crate::drawn::{drawn, drawn_store};
use crate::passes::{mark_from, plan};
use crate::stores::Store;
use cry_base::{Edge, FolderId, Role, Steps};
use rekey_walk::{Dirty, mark_in, plan_in};
use role_graph::{CountedRoles, RoleSet, reach_back};
use std::alloc::Global;
use std::test::Fail;

/// The edge from the root down to the folder 2, which is in the root in each store that is drawn.
const REMOVED: Edge = Edge {
    kind: 6,
    from: Role::Sub(FolderId(1)),
    to: Role::Sub(FolderId(2)),
};

/// Where marking begins, and what is to be clean.
#[derive(Clone, Copy)]
struct Marking {
    target: Role,
    wanted: Role,
}

/// The dirty roles, and those of them that are renewed.
#[derive(Debug, PartialEq, Drop)]
struct Marked {
    dirty: Vec<Role>,
    renewed: Vec<Role>,
}

/// By passes over the list of all edges, and the list of those that are left.
fn by_passes(alloc: Global, store: &Store, marking: Marking) -> Result<Marked, Fail> {
    let edges = store.edges(alloc)?;
    let left = without_removed(alloc, edges.as_slice())?;
    let mut dirty = RoleSet::new(alloc);
    mark_from(alloc, &mut dirty, edges.as_slice(), marking.target)?;
    let renewed = plan(alloc, &dirty, &left, &[marking.wanted])?;
    listed(alloc, dirty.as_slice(), renewed.as_slice())
}

/// By walks that look edges up.
fn by_walks(
    alloc: Global,
    store: &Store,
    removed: &[Edge],
    marking: Marking,
) -> Result<Marked, Fail> {
    let mut roles = CountedRoles::new(&store.shape, &store.grants, Steps::new());
    let mut dirty = Dirty::new(alloc);
    mark_in(alloc, &mut dirty, &mut roles, marking.target)?;
    let renewed = plan_in(alloc, &dirty, &mut roles, removed, &[marking.wanted])?;
    listed(alloc, dirty.as_slice(), renewed.as_slice())
}

fn listed(alloc: Global, dirty: &[Role], renewed: &[Role]) -> Result<Marked, Fail> {
    let dirty = Vec::from_slice(alloc, dirty)?;
    let renewed = Vec::from_slice(alloc, renewed)?;
    Ok(Marked { dirty, renewed })
}

fn without_removed(alloc: Global, edges: &[Edge]) -> Result<Vec<Edge>, Fail> {
    let mut left = Vec::new(alloc);
    for edge in edges {
        if *edge != REMOVED {
            left.push(*edge)?;
        }
    }
    Ok(left)
}

fn drawn_marking(alloc: Global, seed: u32) -> Result<Marking, Fail> {
    let folders = drawn(alloc, !seed, &[12, 12])?;
    let folder_at = |at: usize| FolderId(folders.get(at).copied().unwrap_or(1));
    Ok(Marking {
        target: Role::Clear(folder_at(0)),
        wanted: Role::Data(folder_at(1)),
    })
}

#[test]
fn walks_mark_and_plan_what_passes_do(rt: HostRuntime) -> Result<(), Fail> {
    for seed in 0..12u32 {
        let store = drawn_store(rt.alloc(), seed)?;
        let marking = drawn_marking(rt.alloc(), seed)?;
        let plain = by_passes(rt.alloc(), &store, marking)?;
        assert_eq!(rt; by_walks(rt.alloc(), &store, &[REMOVED], marking)?, plain);
    }
    Ok(())
}

/// The root and folders 2 to 64, each in the one before.
fn chain(alloc: Global) -> Result<Store, Fail> {
    let mut parents = Vec::new(alloc);
    for parent in 1..64u32 {
        parents.push(parent)?;
    }
    Store::new(alloc, &parents, &[], &[])
}

// So the mark takes at most 2 * 446 + 1 = 893 steps (`mark_in`, whole).
#[test]
fn a_mark_at_the_top_of_a_chain_reaches_all_below(rt: HostRuntime) -> Result<(), Fail> {
    let store = chain(rt.alloc())?;
    assert_eq!(rt; store.edges(rt.alloc())?.as_slice().len(), 446);
    let marking = Marking {
        target: Role::Clear(FolderId(1)),
        wanted: Role::Data(FolderId(64)),
    };
    let marked = by_walks(rt.alloc(), &store, &[], marking)?;
    assert_eq!(rt; (marked.dirty.len(), marked.renewed.len()), (257, 67));
    Ok(())
}

#[test]
fn reach_goes_back_along_an_edge(rt: HostRuntime) -> Result<(), Fail> {
    let (from, to) = (Role::Clear(FolderId(1)), Role::Sub(FolderId(1)));
    let back = reach_back(rt.alloc(), &[Edge { kind: 3, from, to }], &[to])?;
    assert_eq!(rt; back.as_slice(), [from, to].as_slice());
    Ok(())
}
