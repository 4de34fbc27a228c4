//! An edge of each of the eleven kinds (docs/FORMAT.md, "Kinds of links"). No other place says which kind has which ends.
ghost use Rattle.std.specs.Prelude.{◌≡◌};
ghost use Rattle.role_graph.specs.Edges as spec;
ghost use Rattle.role_graph.specs.Roles.{back_of, clear_of, data_of, file_role, files_of, holder_role, sub_of};
ghost use Rattle.cry_base.specs.declared.roles.Role.TheVariants.{Owner};

use cry_base::{Edge, FileId, FolderId, HolderId, Role};
use kind_table::{BackK, ClearK, DataK, FileK, FilesK, HolderK, KeyKind, LinksTo, OwnerK, SubK};

/// An edge of the kind that leads from keys `A` to keys `B`.
#[tactic(auto, unfolding(crate::specs::Edges::edge))]
fn edge<A: LinksTo<B>, B: KeyKind>(from: Role, to: Role) -> Edge
    ensures { result ≡ spec.edge A.NUMBER from to }
{
    Edge {
        kind: A::NUMBER,
        from,
        to,
    }
}

/// From the owner's key to a clearance key, of a folder or of a file with a grant.
#[tactic(auto, unfolding(crate::specs::Roles::clear_of))]
pub fn owner_to_clear(f: FolderId) -> Edge
    ensures { result ≡ spec.edge 1 Owner (clear_of f.0) }
{
    edge::<OwnerK, ClearK>(Role::Owner, Role::Clear(f))
}

/// From a holder's key to the clearance key of a folder or a file that is granted to the holder.
#[tactic(auto, unfolding(crate::specs::Roles::holder_role, crate::specs::Roles::clear_of))]
pub fn holder_to_clear(h: HolderId, f: FolderId) -> Edge
    ensures { result ≡ spec.edge 2 (holder_role h.0) (clear_of f.0) }
{
    edge::<HolderK, ClearK>(Role::Holder(h), Role::Clear(f))
}

/// From a folder's clearance key to its subfolder key.
#[tactic(auto, unfolding(crate::specs::Roles::clear_of, crate::specs::Roles::sub_of))]
pub fn clear_to_sub(f: FolderId) -> Edge
    ensures { result ≡ spec.edge 3 (clear_of f.0) (sub_of f.0) }
{
    edge::<ClearK, SubK>(Role::Clear(f), Role::Sub(f))
}

/// From a folder's subfolder key to its backlink key.
#[tactic(auto, unfolding(crate::specs::Roles::sub_of, crate::specs::Roles::back_of))]
pub fn sub_to_back(f: FolderId) -> Edge
    ensures { result ≡ spec.edge 4 (sub_of f.0) (back_of f.0) }
{
    edge::<SubK, BackK>(Role::Sub(f), Role::Back(f))
}

/// From a folder's subfolder key to its files key.
#[tactic(auto, unfolding(crate::specs::Roles::sub_of, crate::specs::Roles::files_of))]
pub fn sub_to_files(f: FolderId) -> Edge
    ensures { result ≡ spec.edge 5 (sub_of f.0) (files_of f.0) }
{
    edge::<SubK, FilesK>(Role::Sub(f), Role::Files(f))
}

/// From a folder's subfolder key to that of a folder in it.
#[tactic(auto, unfolding(crate::specs::Roles::sub_of))]
pub fn sub_to_sub(parent: FolderId, f: FolderId) -> Edge
    ensures { result ≡ spec.edge 6 (sub_of parent.0) (sub_of f.0) }
{
    edge::<SubK, SubK>(Role::Sub(parent), Role::Sub(f))
}

/// From a folder's backlink key to the key of its name.
#[tactic(auto, unfolding(crate::specs::Roles::back_of, crate::specs::Roles::data_of))]
pub fn back_to_data(f: FolderId) -> Edge
    ensures { result ≡ spec.edge 7 (back_of f.0) (data_of f.0) }
{
    edge::<BackK, DataK>(Role::Back(f), Role::Data(f))
}

/// From a folder's backlink key to that of the folder that it is in.
#[tactic(auto, unfolding(crate::specs::Roles::back_of))]
pub fn back_to_back(f: FolderId, parent: FolderId) -> Edge
    ensures { result ≡ spec.edge 8 (back_of f.0) (back_of parent.0) }
{
    edge::<BackK, BackK>(Role::Back(f), Role::Back(parent))
}

/// From a folder's files key to the key of a file in it.
#[tactic(auto, unfolding(crate::specs::Roles::files_of, crate::specs::Roles::file_role))]
pub fn files_to_file(f: FolderId, x: FileId) -> Edge
    ensures { result ≡ spec.edge 9 (files_of f.0) (file_role x.0) }
{
    edge::<FilesK, FileK>(Role::Files(f), Role::File(x))
}

/// From a file's clearance key, which has this number, to the file's key.
#[tactic(auto, unfolding(crate::specs::Roles::clear_of, crate::specs::Roles::file_role))]
pub fn clearance_to_file(c: FolderId, x: FileId) -> Edge
    ensures { result ≡ spec.edge 10 (clear_of c.0) (file_role x.0) }
{
    edge::<ClearK, FileK>(Role::Clear(c), Role::File(x))
}

/// From a file's clearance key, which has this number, to the backlink key of the folder that the file is in.
#[tactic(auto, unfolding(crate::specs::Roles::clear_of, crate::specs::Roles::back_of))]
pub fn clearance_to_back(c: FolderId, f: FolderId) -> Edge
    ensures { result ≡ spec.edge 11 (clear_of c.0) (back_of f.0) }
{
    edge::<ClearK, BackK>(Role::Clear(c), Role::Back(f))
}
