//! Laws of the graph of roles: what is computed is what the definitions by paths say.
ghost use Rattle.std.specs.Prelude.{◌≡◌, ◌↔◌, false, ℕ, List, [], ◌∷◌, IsTrue};
ghost use Rattle.cry_base.specs.Sets.{In};
ghost use Rattle.cry_base.specs.Store.{Store};
ghost use Rattle.cry_base.specs.declared.roles.Edge.{Edge};
ghost use Rattle.cry_base.specs.declared.roles.Node.{Node};
ghost use Rattle.cry_base.specs.declared.roles.Role.{Role};
ghost use Rattle.role_graph.specs.Rights.Who.{TheOwner};
ghost use Rattle.cry_base.specs.Store.{FolderEntry, FileEntry, nodes_of};
ghost use Rattle.role_graph.specs.Edges.{Reaches, reach_along, edges, IsEdge};
ghost use Rattle.role_graph.specs.RightsByReach.{IsClearance, IsRightful, IsSettled, IsStandingRole};
ghost use Rattle.role_graph.specs.Roles.{clear_of, holder_role, is_root_role, is_sealing_role, is_clear_role, folder_roles, file_role};
ghost use Rattle.cry_base.specs.declared.roles.Role.TheVariants.{Owner};
ghost use Rattle.role_graph.specs.Rights.{IsAllowed, IsFileAllowed, IsNamed, IsShown, IsOpen, Who};
ghost use Rattle.role_graph.specs.Rights.{allowed, file_allowed, named, shown, node_allowed};

/// The roles that are reached from a role are those that a path of edges leads to.
pub fn reach_is_by_paths()
    ensures { (es : List Edge) (a b : Role) → In b (reach_along es (a ∷ [])) ↔ Reaches es a b }
{}

/// What is allowed and named by computing is so by the tree and the grants.
pub fn rights_are_by_paths()
    ensures allowed_folders { (s : Store) (h f : ℕ) → IsTrue (allowed s h f) ↔ IsAllowed s h f }
    ensures named_folders { (s : Store) (h f : ℕ) → IsTrue (named s h f) ↔ IsNamed s h f }
    ensures allowed_files { (s : Store) (h : ℕ) (e : FileEntry) → IsTrue (file_allowed s h e) ↔ IsFileAllowed s h e }
    ensures shown_nodes { (s : Store) (who : Who) (node : Node) → IsTrue (shown s who node) ↔ IsShown s who node }
    ensures open_nodes { (s : Store) (who : Who) (node : Node) → IsTrue (node_allowed s who node) ↔ IsOpen s who node }
    ensures allowed_is_named { (s : Store) (h f : ℕ) → IsAllowed s h f → IsNamed s h f }
{}

/// The edges are those of the store's rows: none ends in the owner's or a holder's key, none begins in a key that
/// seals names or files, and the keys that grants hand out are led to by the owner's and the holders' keys alone.
pub fn edges_are_typed()
    ensures rows { (s : Store) (e : Edge) → In e (edges s) ↔ IsEdge s e }
    ensures no_root { (s : Store) (e : Edge) → In e (edges s) → is_root_role e.to ≡ false }
    ensures no_sealing { (s : Store) (e : Edge) → In e (edges s) → is_sealing_role e.from ≡ false }
    ensures clear { (s : Store) (e : Edge) → In e (edges s) → IsTrue (is_clear_role e.to) → IsTrue (is_root_role e.from) }
{}

/// Each role of a folder and of a file in a folder, and the clearance of each file with a grant, is reached from the owner's key.
pub fn owner_reaches_all()
    ensures folders { (s : Store) (f : FolderEntry) (r : Role) → In f s.folders → In r (folder_roles f.id) → Reaches (edges s) Owner r }
    ensures files { (s : Store) (f : FolderEntry) (x : FileEntry) → In f s.folders → In x s.files → x.folder ≡ f.id
        → Reaches (edges s) Owner (file_role x.id) }
    ensures clearances { (s : Store) (c : ℕ) → IsClearance s c → Reaches (edges s) Owner (clear_of c) }
{}

/// The owner is shown everything that stands.
pub fn owner_is_shown_all()
    ensures { (s : Store) (node : Node) → In node (nodes_of s) → IsShown s TheOwner node }
{}

/// A holder's key leads to a folder's or file's role exactly where the holder has the right that the role stands for: its
/// clearance key where the grant is on it, a folder's subfolder and files keys where it is allowed, its backlink and data
/// keys where it is named, a file's key where the file is allowed.
pub fn reach_is_the_rights()
    ensures { (s : Store) → IsSettled s → (h : ℕ) (r : Role) → IsStandingRole s r → Reaches (edges s) (holder_role h) r ↔ IsRightful s h r }
{}
