//! The edges of a shape and grants, looked up without a list of them.
ghost use Rattle.std.specs.Prelude.{◌≡◌, ◌≤◌, ◌<◌};
ghost use Rattle.cry_base.specs.Limits.{most_way};
ghost use Rattle.role_graph.specs.Joined as spec;
ghost use Rattle.cry_base.specs.Clearances.{clear_base};
ghost use Rattle.cry_base.specs.Store.{file_entry};
ghost use Rattle.folder_nodes.specs.Looking.{folder_id_of};
ghost use Rattle.role_graph.specs.Joined.{joins, are_joined, is_within, is_between, is_granted, is_into_file, is_at_clearance, is_found};
ghost use Rattle.role_graph.specs.Joined.{joins_clearance, levels, rank_of};
ghost use Rattle.role_graph.specs.PublicStore.{public_store};
ghost use Rattle.role_graph.specs.Roles.{is_root_role};

use crate::edge_list::{edges_at_clearance, edges_between, edges_within, number_of};
use crate::{Roles, kinds};
use cry_base::{Edge, FileId, FolderId, HolderId, Role};
use folder_nodes::Shape;
use grant_book::{Grants, file_of};

/// The roles of a shape's folders and files, and of the holders of grants. It takes no memory.
#[derive(Clone, Copy)]
pub struct StoreRoles<'a> {
    /// The folders and the files.
    pub shape: &'a Shape,
    /// Who was granted which folder or file.
    pub grants: &'a Grants,
}

impl<'a> Roles for StoreRoles<'a> {
    ghost is_root = { is_root_role };

    ghost HasEdge = { λ r a b. spec.HasEdge (public_store r.shape.now.tree r.grants.now.pairs) a b };

    ghost rank = { λ r role. rank_of (public_store r.shape.now.tree r.grants.now.pairs) role };

    #[tactic(auto, unfolding(crate::specs::Roles::is_root_role, crate::specs::Roles::variant_of))]
    fn is_root(&self, role: Role) -> bool {
        matches!(role, Role::Owner | Role::Holder(_))
    }

    fn has_edge(&self, from: Role, to: Role) -> bool {
        self.shape.is_tree();
        self.is_found(number_of(from), number_of(to), from, to)
    }

    #[tactic(auto, unfolding(crate::specs::Joined::rank_of, crate::specs::Joined::levels, cry_base::specs::Store::way_to_root))]
    fn rank(&self, role: Role) -> u64 {
        match role {
            Role::Owner | Role::Holder(_) => 134,
            Role::Clear(_) => 133,
            Role::Sub(f) => 132 - u64::from(self.levels(f)),
            Role::Back(f) => 1 + u64::from(self.levels(f)),
            Role::Files(_) => 1,
            Role::Data(_) | Role::File(_) => 0,
        }
    }

    fn laws(&self) {
        self.shape.is_tree();
    }
}

impl<'a> StoreRoles<'a> {
    /// Whether the edge is among those that folders, grants, files and clearances with the numbers of its ends have.
    #[tactic(auto, unfolding(crate::specs::Joined::is_found))]
    fn is_found(&self, a: u32, b: u32, from: Role, to: Role) -> bool
        ensures { result ≡ is_found self.now.shape.now.tree self.now.grants.now.pairs a b from to }
    {
        self.is_within(b, from, to)
            || (self.is_between(b, from, to)
                || (self.is_between(a, from, to)
                    || (self.is_granted(a, b, from, to)
                        || (self.is_into_file(b, from, to)
                            || (self.is_at_clearance(a, from, to)
                                || self.is_at_clearance(b, from, to))))))
    }

    /// Whether the edge is one of the folder's own.
    #[tactic(auto, unfolding(crate::specs::Joined::is_within))]
    fn is_within(&self, f: u32, from: Role, to: Role) -> bool
        ensures { result ≡ is_within self.now.shape.now.tree f from to }
    {
        let f = FolderId(f);
        self.shape.has_folder(f) && has_joined(&edges_within(f), from, to)
    }

    /// Whether the edge is one of the folder and its parent.
    #[tactic(auto, unfolding(crate::specs::Joined::is_between))]
    fn is_between(&self, f: u32, from: Role, to: Role) -> bool
        ensures { result ≡ is_between self.now.shape.now.tree f from to }
    {
        let f = FolderId(f);
        match self.shape.parent(f) {
            Some(parent) => has_joined(&edges_between(f, parent), from, to),
            None => false,
        }
    }

    /// Whether the edge is that of the holder's grant on the folder.
    #[tactic(auto, unfolding(crate::specs::Joined::is_granted, crate::specs::Edges::grant_edge, crate::specs::Edges::edge, crate::specs::Roles::holder_role, crate::specs::Roles::clear_of))]
    fn is_granted(&self, h: u32, f: u32, from: Role, to: Role) -> bool
        ensures { result ≡ is_granted self.now.grants.now.pairs h f from to }
    {
        let (h, f) = (HolderId(h), FolderId(f));
        self.grants.has(h, f) && is_joined(&kinds::holder_to_clear(h, f), from, to)
    }

    /// Whether the edge is the one into the file.
    #[tactic(auto, unfolding(crate::specs::Joined::is_into_file, crate::specs::Edges::file_edge, crate::specs::Edges::edge, crate::specs::Roles::files_of, crate::specs::Roles::file_role))]
    fn is_into_file(&self, x: u32, from: Role, to: Role) -> bool
        ensures { result ≡ is_into_file self.now.shape.now.tree x from to }
    {
        let x = FileId(x);
        match self.shape.folder_of(x) {
            Some(f) => is_joined(&kinds::files_to_file(f, x), from, to),
            None => false,
        }
    }

    /// Whether the edge is one at the clearance key with the number, of a file with a grant.
    #[tactic(auto, unfolding(crate::specs::Joined::is_at_clearance))]
    fn is_at_clearance(&self, c: u32, from: Role, to: Role) -> bool
        ensures { result ≡ is_at_clearance self.now.shape.now.tree self.now.grants.now.pairs c from to }
    {
        let c = FolderId(c);
        if !self.grants.has_on(c) {
            return false;
        }
        match file_of(c) {
            Some(x) => self.joins_clearance(x, from, to),
            None => false,
        }
    }

    /// Whether the edge is one of the file's clearance key, where the file stands.
    fn joins_clearance(&self, x: FileId, from: Role, to: Role) -> bool
        requires { x.0 < clear_base }
        ensures { result ≡ joins_clearance x.0 from to (folder_id_of (file_entry self.now.shape.now.tree x.0)) }
    {
        match self.shape.folder_of(x) {
            Some(f) => has_joined(&edges_at_clearance(f, x), from, to),
            None => false,
        }
    }

    /// How many folders are on the way from the folder up to the root, both included: 0 where it doesn't stand.
    fn levels(&self, f: FolderId) -> u32
        ensures levels { result ≡ levels self.now.shape.now.tree f.0 }
        ensures within { result ≤ most_way }
    {
        self.shape.is_tree();
        if self.shape.has_folder(f) {
            self.shape.depth(f) + 1
        } else {
            0
        }
    }
}

/// Whether one of the edges leads from the one role to the other.
#[tactic(auto, unfolding(crate::specs::Joined::are_joined))]
fn has_joined(edges: &[Edge], from: Role, to: Role) -> bool
    ensures { result ≡ are_joined edges.now from to }
{
    edges.iter().any(|edge| is_joined(edge, from, to))
}

/// Whether the edge leads from the one role to the other.
#[tactic(auto, unfolding(crate::specs::Joined::joins, crate::specs::Roles::same_role, crate::specs::Roles::variant_of, crate::specs::Roles::role_id))]
fn is_joined(edge: &Edge, from: Role, to: Role) -> bool
    ensures { result ≡ joins from to edge.now }
{
    edge.from == from && edge.to == to
}
