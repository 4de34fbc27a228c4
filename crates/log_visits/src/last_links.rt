//! The last link of each edge in a log (docs/FORMAT.md, "Reading").
ghost use Rattle.std.specs.Prelude.{◌≡◌, ◌+◌, ◌*◌, ◌<◌, ◌^◌, ◌↔◌, [], ◌∷◌, IsTrue, OnOk, length};
ghost use Rattle.commit_journal.specs.Placed.{plain_body};
ghost use Rattle.commit_journal.specs.Places.{IsStanding};
ghost use Rattle.log_visits.specs.Found.{has_present_serials, head_of_edge, link_here};
ghost use Rattle.log_visits.specs.Hashing as hashing;
ghost use Rattle.log_visits.specs.Indexed.{LinksAreKept, LinksAreNoted, edge_of_head, head_of_link, stands};
ghost use Rattle.log_visits.specs.Placing as spec;
ghost use Rattle.public_fold.specs.KeyStep.{present};
ghost use Rattle.role_graph.specs.Joined.{HasEdge};
ghost use Rattle.role_graph.specs.PublicStore.{public_store};
ghost use Rattle.role_graph.specs.Roles.{role_id};

use crate::number_hasher::ByNumber;
use crate::spot_table::Numbered;
use commit_journal::{Body, Placed, link_place};
use cry_base::{Edge, Mem, Role, Serial};
use key_links::{source_with, target_with};
use public_fold::PublicState;
use record_format::{LINK_LEN, LinkRecord};
use role_graph::{Roles, StoreRoles};
use std::collections::HashMap;
use std::hash::{Hash, Hasher};

/// What a link is looked for by. The serials are left out: of an edge whose keys are renewed only the last link can be followed, so no
/// earlier one is kept.
#[derive(Clone, Copy, PartialEq, Eq)]
pub(crate) struct LinkHead {
    pub(crate) kind: u8,
    pub(crate) from_id: u32,
    pub(crate) to_id: u32,
}

impl Hash for LinkHead {
    ghost use Rattle.log_visits.specs.Hashing.{ids_of};
    ghost use Rattle.std.proofs.Common.{rules};
    ghost use Rattle.std.specs.Cmp.Rules.{hashing};
    ghost use Rattle.std.specs.Hash as fed;
    ghost use Rattle.std.specs.Prelude.{◌++◌};

    ghost hash_input = { λ h. fed.u32 (ids_of h).0 ++ (fed.u8 h.kind ++ fed.u32 (ids_of h).1) };

    ghost respects_eq = { Prim.search (hashing, rules) };

    fn hash<H: Hasher>(&self, state: &mut H) {
        let (other, id) = ids_of(self);
        other.hash(state);
        self.kind.hash(state);
        id.hash(state);
    }
}

/// How many rows of a table a folder has: one for each of seven kinds of links, and one that a grant may have.
pub(crate) const LINKS_OF_FOLDER: usize = 8;

impl Numbered for LinkHead {
    ghost use Rattle.log_visits.specs.Hashing.{link_row};
    ghost use Rattle.std.proofs.Common.{rules};

    ghost row_of = { link_row };

    fn row(&self, files_from: usize) -> usize {
        let (_, id) = ids_of(self);
        // A file has one link.
        if self.kind == 9 {
            files_from.saturating_add(id as usize)
        } else {
            LINKS_OF_FOLDER * id as usize + self.kind as usize % LINKS_OF_FOLDER
        }
    }

    ghost is_same = { Prim.search rules };
}

/// The ids of a head's ends, that by which it is looked for behind the other: of a folder's link to its parent the folder's, of one
/// from a clearance that of the clearance, of any other the target's. Many holders may have one folder, and many folders one holder, so
/// a grant's is scattered.
fn ids_of(head: &LinkHead) -> (u32, u32)
    ensures { result ≡ hashing.ids_of head.now }
{
    match head.kind {
        2 => (
            head.from_id,
            head.to_id
                .wrapping_add(head.from_id.wrapping_mul(0x9e37_79b1)),
        ),
        8 | 10 | 11 => (head.to_id, head.from_id),
        _ => (head.from_id, head.to_id),
    }
}

/// A link, and where it stands.
#[derive(Clone, Copy)]
pub struct FoundLink {
    /// The number of its batch.
    pub batch: u32,
    /// The place of its first byte in the file.
    pub at: u64,
    pub link: LinkRecord,
}

/// The last link of each edge.
pub(crate) type LastLinks = HashMap<LinkHead, FoundLink, ByNumber>;

#[tactic(auto, unfolding(role_graph::specs::Roles::role_id))]
fn id_of(role: Role) -> u32
    ensures { result ≡ role_id role }
{
    match role {
        Role::Owner => 0,
        Role::Holder(h) => h.0,
        Role::Clear(f) | Role::Sub(f) | Role::Back(f) | Role::Files(f) | Role::Data(f) => f.0,
        Role::File(x) => x.0,
    }
}

#[tactic(auto, unfolding(public_fold::specs::KeyStep::present))]
fn serial_of(state: &PublicState, role: Role) -> Serial
    ensures { result.0 ≡ present state.now.keys.keys role }
{
    match state.present(role) {
        Some(serial) => serial,
        None => Serial(0),
    }
}

/// The head of the edge's links.
pub(crate) fn head_sought(edge: &Edge) -> LinkHead
    ensures { result ≡ head_of_edge edge.now }
{
    LinkHead {
        kind: edge.kind,
        from_id: id_of(edge.from),
        to_id: id_of(edge.to),
    }
}

/// Whether the link leads from the present key of the edge's source to that of its target.
pub(crate) fn is_present(state: &PublicState, edge: &Edge, link: &LinkRecord) -> bool
    ensures { result ≡ has_present_serials state.now.keys edge.now link.now }
{
    link.from_serial.0 == serial_of(state, edge.from).0
        && link.to_serial.0 == serial_of(state, edge.to).0
}

pub(crate) fn head_of(link: &LinkRecord) -> LinkHead
    ensures { result ≡ head_of_link link.now }
{
    LinkHead {
        kind: link.kind,
        from_id: link.from_id,
        to_id: link.to_id,
    }
}

/// Notes a link under its head, in the place of an earlier one.
#[tactic(auto, using(crate::proofs::Lasts::link_noted))]
fn note_link(last: &mut LastLinks, found: FoundLink) -> Mem<()>
    ensures { OnOk result (LinksAreNoted last.old last.new (link_here found.batch found.at found.link ∷ [])) }
{
    last.insert(head_of(&found.link), found)?;
    Ok(())
}

/// Notes the links of a batch, of which the first stands at the place.
fn note_links(last: &mut LastLinks, batch: u32, first: u64, links: &[LinkRecord]) -> Mem<()>
    requires { first + 98 * length links.now < 2 ^ 64 }
    ensures { OnOk result (LinksAreNoted last.old last.new (spec.links_at batch first links.now)) }
{
    let mut at = first;
    for link in links {
        note_link(
            last,
            FoundLink {
                batch,
                at,
                link: *link,
            },
        )?;
        at += LINK_LEN;
    }
    Ok(())
}

/// Notes the links that a batch of a log carries, behind those of the batches before it.
pub(crate) fn note_links_of(last: &mut LastLinks, placed: &Placed) -> Mem<()>
    requires { IsStanding placed.now }
    ensures { OnOk result (LinksAreNoted last.old last.new
        (spec.body_links placed.now.batch placed.now.place (plain_body placed.now.body))) }
{
    let Body::Commands(payload) = &placed.body else {
        return Ok(());
    };
    let links = payload.links.as_slice();
    if links.is_empty() {
        return Ok(());
    }
    note_links(last, placed.batch, link_place(placed, 0), links)
}

/// The edge that leads from the head's one role to its other.
fn edge_with(head: &LinkHead) -> Edge
    ensures { result ≡ edge_of_head head.now }
{
    Edge {
        kind: head.kind,
        from: source_with(head.kind, head.from_id),
        to: target_with(head.kind, head.to_id),
    }
}

/// Whether an edge that stands has links of the head. It looks one edge up.
fn is_standing(state: &PublicState, head: &LinkHead) -> bool
    ensures { result ≡ stands (public_store state.now.tree state.now.pairs) head.now }
{
    let edge = edge_with(head);
    head_sought(&edge) == *head && has_edge(state, &edge)
}

/// Whether an edge that stands leads from the edge's source to its target.
fn has_edge(state: &PublicState, edge: &Edge) -> bool
    ensures { IsTrue result ↔ HasEdge (public_store state.now.tree state.now.pairs) edge.now.from edge.now.to }
{
    let roles = StoreRoles {
        shape: state.shape(),
        grants: state.grants(),
    };
    roles.has_edge(edge.from, edge.to)
}

/// Keeps the links of those edges alone that stand.
pub(crate) fn keep_links(last: &mut LastLinks, state: &PublicState)
    ensures { LinksAreKept (public_store state.now.tree state.now.pairs) last.old last.new }
{
    last.retain(|head, _| is_standing(state, head));
}
