//! Who may read what, by the tree and the grants alone.
ghost use Rattle.std.specs.Prelude.{◌≡◌, ◌↔◌, ◌||◌, IsTrue};
ghost use Rattle.std.specs.List.{list_any};
ghost use Rattle.role_graph.specs.PublicStore.{public_store, GrantsStand, allows as allows_by, names as names_by};
ghost use Rattle.role_graph.specs.PublicStore.{granted_place as place_by, is_at_or_below as below_by};
ghost use Rattle.role_graph.specs.Rights.{IsAllowed, IsNamed};
ghost use Rattle.role_graph.specs.RightsByReach.{HasFolder};

use cry_base::{FolderId, HolderId};
use folder_nodes::Shape;
use grant_book::{Grant, Grants, file_of};

/// Whether the folder is allowed to the holder: a grant stands on it or on a folder above it. It looks at all grants,
/// and goes up from the folder for each of the holder's.
pub fn allowed(shape: &Shape, grants: &Grants, h: HolderId, f: FolderId) -> bool
    ensures { let s = public_store shape.now.tree grants.now.pairs in
        GrantsStand s → (IsTrue result ↔ IsAllowed s h.0 f.0) }
{
    shape.is_tree();
    is_allowed_by(grants.pairs(), shape, h, f)
}

/// Whether the folder's name is shown to the holder: it is allowed, or a grant stands on a folder below it, or on a file in it
/// or in one of these. It looks at all grants, and goes up from the holder's.
pub fn named(shape: &Shape, grants: &Grants, h: HolderId, f: FolderId) -> bool
    ensures { let s = public_store shape.now.tree grants.now.pairs in
        GrantsStand s → HasFolder s f.0 → (IsTrue result ↔ IsNamed s h.0 f.0) }
{
    shape.is_tree();
    let pairs = grants.pairs();
    if is_allowed_by(pairs, shape, h, f) {
        return true;
    }
    is_named_by(pairs, shape, h, f)
}

fn is_allowed_by(pairs: &[Grant], shape: &Shape, h: HolderId, f: FolderId) -> bool
    ensures { result ≡ list_any (allows_by shape.now.tree h.0 f.0) pairs.now }
{
    pairs.iter().any(|grant| allows(grant, shape, h, f))
}

fn is_named_by(pairs: &[Grant], shape: &Shape, h: HolderId, f: FolderId) -> bool
    ensures { result ≡ list_any (names_by shape.now.tree h.0 f.0) pairs.now }
{
    pairs.iter().any(|grant| names(grant, shape, h, f))
}

/// Whether the grant is the holder's, and on the folder or on one above it.
#[tactic(auto, unfolding(crate::specs::PublicStore::allows))]
fn allows(grant: &Grant, shape: &Shape, h: HolderId, f: FolderId) -> bool
    ensures { result ≡ allows_by shape.now.tree h.0 f.0 grant.now }
{
    grant.holder.0 == h.0 && (grant.folder.0 == f.0 || shape.is_under(f, grant.folder))
}

/// Whether the grant is the holder's, and on the folder, on one below it, or on a file in one of these.
#[tactic(auto, unfolding(crate::specs::PublicStore::names))]
fn names(grant: &Grant, shape: &Shape, h: HolderId, f: FolderId) -> bool
    ensures { result ≡ names_by shape.now.tree h.0 f.0 grant.now }
{
    grant.holder.0 == h.0 && is_at_or_below(granted_place(grant.folder, shape), shape, f)
}

/// Where a grant with the number is: the folder itself, or the folder that the file is in, where the file stands.
pub fn granted_place(number: FolderId, shape: &Shape) -> Option<FolderId>
    ensures { result ≡ place_by shape.now.tree number.0 }
{
    match file_of(number) {
        Some(x) => shape.folder_of(x),
        None => Some(number),
    }
}

/// Whether the place is the folder or one below it.
fn is_at_or_below(place: Option<FolderId>, shape: &Shape, f: FolderId) -> bool
    ensures { result ≡ below_by shape.now.tree f.0 place }
{
    match place {
        Some(g) => g.0 == f.0 || shape.is_under(g, f),
        None => false,
    }
}
