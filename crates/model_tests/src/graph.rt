//! Edges, rights, and what keys lead to.
ghost use Rattle.std.specs.Prelude;

use crate::stores::Store;
use cry_base::{Edge, FileId, FolderId, HolderId, Role};
use role_graph::{allowed, named, reach};
use std::test::Fail;

const HOLDER: HolderId = HolderId(1);

fn number_of(role: Role) -> u32 {
    match role {
        Role::Owner => 0,
        Role::Holder(h) => h.0,
        Role::Clear(f) | Role::Sub(f) | Role::Back(f) | Role::Files(f) | Role::Data(f) => f.0,
        Role::File(x) => x.0,
    }
}

/// The edge's kind and the numbers at its ends.
fn digits_of(edge: &Edge) -> (u8, u32, u32) {
    (edge.kind, number_of(edge.from), number_of(edge.to))
}

const EDGES: [(u8, u32, u32); 31] = [
    (1, 0, 1),
    (1, 0, 2),
    (1, 0, 3),
    (1, 0, 4),
    (2, 1, 2),
    (2, 1, 3),
    (2, 2, 1),
    (3, 1, 1),
    (3, 2, 2),
    (3, 3, 3),
    (3, 4, 4),
    (4, 1, 1),
    (4, 2, 2),
    (4, 3, 3),
    (4, 4, 4),
    (5, 1, 1),
    (5, 2, 2),
    (5, 3, 3),
    (5, 4, 4),
    (6, 1, 2),
    (6, 1, 4),
    (6, 2, 3),
    (7, 1, 1),
    (7, 2, 2),
    (7, 3, 3),
    (7, 4, 4),
    (8, 2, 1),
    (8, 3, 2),
    (8, 4, 1),
    (9, 3, 2),
    (9, 4, 1),
];

#[test]
fn edges_come_by_kind_and_then_by_the_numbers_at_their_ends(rt: HostRuntime) -> Result<(), Fail> {
    let store = Store::new(rt.alloc(), &[1, 2, 1], &[4, 3], &[(2, 1), (1, 3), (1, 2)])?;
    let edges = store.edges(rt.alloc())?;
    assert!(rt; edges.as_slice().iter().map(digits_of).eq(EDGES));
    Ok(())
}

const LED_TO: [Role; 10] = [
    Role::Holder(HOLDER),
    Role::Clear(FolderId(3)),
    Role::Sub(FolderId(3)),
    Role::Back(FolderId(1)),
    Role::Back(FolderId(2)),
    Role::Back(FolderId(3)),
    Role::Files(FolderId(3)),
    Role::Data(FolderId(1)),
    Role::Data(FolderId(2)),
    Role::Data(FolderId(3)),
];

// Folders /a, /a/b and /a/c, a file /a/x, and a grant on /a/b alone.
#[test]
fn a_grant_leads_to_its_folder_and_to_the_names_above(rt: HostRuntime) -> Result<(), Fail> {
    let store = Store::new(rt.alloc(), &[1, 2, 2], &[2], &[(1, 3)])?;
    let edges = store.edges(rt.alloc())?;
    let keys = reach(rt.alloc(), edges.as_slice(), Role::Holder(HOLDER))?;
    assert_eq!(rt; keys.as_slice(), LED_TO.as_slice());
    for (f, is_allowed, is_named) in [(1, false, true), (3, true, true), (4, false, false)] {
        let f = FolderId(f);
        assert_eq!(rt; allowed(&store.shape, &store.grants, HOLDER, f), is_allowed);
        assert_eq!(rt; named(&store.shape, &store.grants, HOLDER, f), is_named);
    }
    Ok(())
}

// The clearance number of file 1.
const CLEARANCE: FolderId = FolderId(2_147_483_649);

const LED_TO_FILE: [Role; 7] = [
    Role::Holder(HOLDER),
    Role::Clear(CLEARANCE),
    Role::Back(FolderId(1)),
    Role::Back(FolderId(2)),
    Role::Data(FolderId(1)),
    Role::Data(FolderId(2)),
    Role::File(FileId(1)),
];

const FILE_EDGES: [(u8, u32, u32); 4] = [
    (1, 0, CLEARANCE.0),
    (2, 1, CLEARANCE.0),
    (10, CLEARANCE.0, 1),
    (11, CLEARANCE.0, 2),
];

// Folders /a and /a/b, files /a/x and /a/y, and a grant on /a/x alone.
#[test]
fn a_grant_on_a_file_leads_to_it_and_to_the_names_above(rt: HostRuntime) -> Result<(), Fail> {
    let store = Store::new(rt.alloc(), &[1, 2], &[2, 2], &[(1, CLEARANCE.0)])?;
    let edges = store.edges(rt.alloc())?;
    let at_clearance = edges
        .as_slice()
        .iter()
        .map(digits_of)
        .filter(|d| d.1 == CLEARANCE.0 || d.2 == CLEARANCE.0);
    assert!(rt; at_clearance.eq(FILE_EDGES));
    let keys = reach(rt.alloc(), edges.as_slice(), Role::Holder(HOLDER))?;
    assert_eq!(rt; keys.as_slice(), LED_TO_FILE.as_slice());
    for (f, is_named) in [(1, true), (2, true), (3, false)] {
        let f = FolderId(f);
        assert_eq!(rt; allowed(&store.shape, &store.grants, HOLDER, f), false);
        assert_eq!(rt; named(&store.shape, &store.grants, HOLDER, f), is_named);
    }
    Ok(())
}
