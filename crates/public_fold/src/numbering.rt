//! Serials, counted on from the one that comes next: the keys', the links' and the contents'.
ghost use Rattle.std.specs.Prelude.{◌≡◌, ◌+◌, ◌<◌, ◌^◌, ◌++◌, length, IfOk, OnOk};
ghost use Rattle.public_fold.specs.KeyStep.{link_of, links_from, numbered};
ghost use Rattle.public_fold.specs.KeysAfter.{keys_then_of};

use crate::keys::KeysThen;
use crate::{KeyHead, LinkHead};
use cry_base::{Edge, List, Mem, Role, Serial};
use std::alloc::Global;

/// A key for each role that is renewed, and behind these one for each that comes, numbered from a serial on.
pub(crate) fn given_keys(
    alloc: Global,
    renewed: &[Role],
    fresh: &[Role],
    first: u64,
) -> Mem<List<KeyHead>>
    requires { first + length renewed.now + length fresh.now < 2 ^ 64 }
    ensures { IfOk result (λ l. l.items ≡ numbered first (renewed.now ++ fresh.now)) }
{
    let mut keys = List::new(alloc);
    keys.reserve(renewed.len() + fresh.len())?;
    push_keys(&mut keys, renewed, first)?;
    push_keys(&mut keys, fresh, first + renewed.len() as u64)?;
    Ok(keys)
}

/// Adds a key for each role, numbered from a serial on.
fn push_keys(keys: &mut List<KeyHead>, roles: &[Role], first: u64) -> Mem<()>
    requires { first + length roles.now < 2 ^ 64 }
    ensures { OnOk result (keys.new.items ≡ keys.old.items ++ numbered first roles.now) }
{
    let mut next = first;
    for role in roles {
        keys.push(KeyHead {
            role: *role,
            serial: Serial(next),
        })?;
        next += 1;
    }
    Ok(())
}

/// A link for each edge, from present key to present key, with the nonces numbered from a serial on.
pub(crate) fn link_heads(
    alloc: Global,
    keys: &KeysThen<'_>,
    edges: &[Edge],
    first: u64,
) -> Mem<List<LinkHead>>
    requires { first + length edges.now < 2 ^ 64 }
    ensures { IfOk result (λ l. l.items ≡ links_from (keys_then_of keys.now) first edges.now) }
{
    let mut links = List::new(alloc);
    links.reserve(edges.len())?;
    let mut next = first;
    for edge in edges {
        links.push(link_head(keys, edge, next))?;
        next += 1;
    }
    Ok(links)
}

/// The link of an edge, from present key to present key.
#[tactic(auto, unfolding(crate::specs::KeyStep::link_of))]
fn link_head(keys: &KeysThen<'_>, edge: &Edge, nonce: u64) -> LinkHead
    ensures { result ≡ link_of (keys_then_of keys.now) (edge.now, nonce) }
{
    LinkHead {
        edge: *edge,
        from_serial: keys.present(edge.from),
        to_serial: keys.present(edge.to),
        nonce,
    }
}
