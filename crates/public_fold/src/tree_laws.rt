//! Laws of the tree that stands in a journal's store.
ghost use Rattle.std.specs.Prelude.{◌≡◌, ◌≤◌, ◌↔◌, ℕ, Bool, IsTrue, List, None, Some, length};
ghost use Rattle.cry_base.specs.Naming.{names_of};
ghost use Rattle.cry_base.specs.Refusing.{refusal_in};
ghost use Rattle.cry_base.specs.Requests.{Request};
ghost use Rattle.cry_base.specs.Sets.{In};
ghost use Rattle.cry_base.specs.Stepping.{effect};
ghost use Rattle.cry_base.specs.Store.{FileEntry, FolderEntry, depth_of, node_at, nodes_of, path_of, way_to_root};
ghost use Rattle.cry_base.specs.declared.roles.Edge.{Edge};
ghost use Rattle.cry_base.specs.declared.roles.Node.{Node};
ghost use Rattle.move_plan.specs.Change.{change_of};
ghost use Rattle.move_plan.specs.Fitting.{fits};
ghost use Rattle.move_plan.specs.Noting.{note_of};
ghost use Rattle.public_fold.specs.Journal.{Journal, store_of};
ghost use Rattle.public_fold.specs.KeyStep.{edges_then};
ghost use Rattle.role_graph.specs.Edges.{edges};
ghost use Rattle.public_fold.specs.Tree.{HaveOwnNames, LeadsUp};
ghost use Rattle.public_fold.specs.Valid.{IsValid};

/// In the store of a valid journal no folder or file stands more than 64 names below the root, and its depth is the length
/// of its path in names.
pub fn depths_are_limited()
    ensures limit { (m : Journal) → IsValid m → (node : Node) → In node (nodes_of (store_of m)) → depth_of (store_of m) node ≤ 64 }
    ensures names { (m : Journal) → IsValid m → (node : Node) → In node (nodes_of (store_of m))
        → depth_of (store_of m) node ≡ length (names_of (path_of (store_of m) node)) }
{}

/// In the store of a valid journal each way up goes from parent to parent and ends at the root, so none has a cycle.
pub fn ways_end_at_the_root()
    ensures folders { (m : Journal) → IsValid m → (e : FolderEntry) → In e (store_of m).folders
        → LeadsUp (way_to_root (store_of m) e.id) e.id }
    ensures files { (m : Journal) → IsValid m → (x : FileEntry) → In x (store_of m).files
        → LeadsUp (way_to_root (store_of m) x.folder) x.folder }
{}

/// In the store of a valid journal the names in one folder differ, over folders and files together, so two nodes with one
/// path are one, and a node's path finds it.
pub fn names_in_a_folder_differ()
    ensures names { (m : Journal) → IsValid m → HaveOwnNames (store_of m) }
    ensures paths { (m : Journal) → IsValid m → (a b : Node) → In a (nodes_of (store_of m)) → In b (nodes_of (store_of m))
        → path_of (store_of m) a ≡ path_of (store_of m) b → a ≡ b }
    ensures finds { (m : Journal) → IsValid m → (node : Node) → In node (nodes_of (store_of m))
        → node_at (store_of m) (path_of (store_of m) node) ≡ Some node }
{}

/// The note of a command that isn't refused in a store of the version fits the store of a valid journal, whatever the version, whatever
/// the limit on a file's bytes and whatever check the note carries.
pub fn accepted_notes_fit()
    ensures { (strict : Bool) (m : Journal) → IsValid m → (r : Request) (check : List ℕ) (file_bytes : ℕ)
        → refusal_in strict (store_of m) r file_bytes ≡ None
        → IsTrue (fits strict (store_of m) (note_of (store_of m) r check)) }
{}

/// The edges after the key step of a command that isn't refused are those of the store after the command, in every valid
/// journal of either version.
pub fn steps_leave_the_edges()
    ensures { (strict : Bool) (m : Journal) → IsValid m → (r : Request) (key check : List ℕ) (file_bytes : ℕ)
        → refusal_in strict (store_of m) r file_bytes ≡ None
        → (e : Edge) → In e (edges_then (edges (store_of m)) (change_of strict (store_of m) (note_of (store_of m) r check)))
        ↔ In e (edges (effect (store_of m) r key)) }
{}
