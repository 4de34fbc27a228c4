//! Laws of the keys of a shape and grants: what they lead to is what the grants allow and name.
ghost use Rattle.std.specs.Prelude.{◌↔◌, ◌<◌, ℕ};
ghost use Rattle.cry_base.specs.Clearances.{clear_base};
ghost use Rattle.cry_base.specs.Sets.{In};
ghost use Rattle.cry_base.specs.Store.{FileEntry};
ghost use Rattle.cry_base.specs.declared.roles.Role.TheVariants.{Owner};
ghost use Rattle.cry_base.specs.declared.roles.Role.{Role};
ghost use Rattle.role_graph.specs.Edges.{Reaches, edges};
ghost use Rattle.role_graph.specs.PublicStore.{public_store, FoldersBelow, GrantsStand};
ghost use Rattle.role_graph.specs.RightsByReach.{HasFolder, IsClearance, IsRightful, IsStandingRole};
ghost use Rattle.role_graph.specs.Roles.{clear_of, holder_role, folder_roles, file_role};

use folder_nodes::Shape;
use grant_book::Grants;

/// Where each grant is on a folder or a file that stands, a holder's key leads to a folder's or file's role exactly where
/// the holder has the right that the role stands for: the clearance key where the grant stands, the subfolder and files
/// keys where the folder is allowed, the backlink and data keys where it is named, a file's key where the file is allowed.
pub fn holder_reaches_the_rights(shape: &Shape, grants: &Grants)
    ensures { let s = public_store shape.now.tree grants.now.pairs in
        GrantsStand s → (h : ℕ) (r : Role) → IsStandingRole s r → Reaches (edges s) (holder_role h) r ↔ IsRightful s h r }
{
    shape.is_tree();
}

/// Where fewer than 2^31 folders were ever made, none has a clearance number.
pub fn few_folders_are_below(shape: &Shape)
    ensures { shape.now.tree.folders_made < clear_base → FoldersBelow shape.now.tree }
{
    shape.is_tree();
}

/// The owner's key leads to each role of each folder and file that stands, and to the clearance of each file with a grant.
pub fn owner_reaches_what_stands(shape: &Shape, grants: &Grants)
    ensures folders { let s = public_store shape.now.tree grants.now.pairs in
        (f : ℕ) (r : Role) → HasFolder s f → In r (folder_roles f) → Reaches (edges s) Owner r }
    ensures files { let s = public_store shape.now.tree grants.now.pairs in
        (x : FileEntry) → In x s.files → Reaches (edges s) Owner (file_role x.id) }
    ensures clearances { let s = public_store shape.now.tree grants.now.pairs in
        (c : ℕ) → IsClearance s c → Reaches (edges s) Owner (clear_of c) }
{
    shape.is_tree();
}
