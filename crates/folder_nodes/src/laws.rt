//! Laws of the plain store's tree, and of a tree with its names beside it.
ghost use Rattle.std.specs.Prelude.{◌≡◌, ◌+◌, ℕ, List, [], Some};
ghost use Rattle.cry_base.specs.Stepping.{with_new_folder, with_new_file, with_file, with_name, without_node, moved};
ghost use Rattle.cry_base.specs.Store.{Store, folder_node, file_node};
ghost use Rattle.cry_base.specs.declared.roles.Node.{Node as TheNode};
ghost use Rattle.folder_nodes.specs.Joining.{IsSet, IsForgotten};
ghost use Rattle.folder_nodes.specs.Titles.{Titles, title_at, name_in, title_of, bytes_in, tree_store};
ghost use Rattle.folder_nodes.specs.Trees.{IsTree};

/// A change of a tree with its change of names is the plain store's change.
pub fn changes_are_the_stores()
    ensures folder { (s : Store) (old new : Titles) (parent : ℕ) (name bytes : List ℕ) → IsTree s
        → IsSet old new (folder_node (s.folders_made + 1)) name bytes
        → tree_store (with_new_folder s parent []) new ≡ with_new_folder (tree_store s old) parent name }
    ensures file { (s : Store) (old new : Titles) (folder : ℕ) (name bytes : List ℕ) → IsTree s
        → IsSet old new (file_node (s.files_made + 1)) name bytes
        → tree_store (with_new_file s folder [] []) new ≡ with_new_file (tree_store s old) folder name bytes }
    ensures name { (s : Store) (old new : Titles) (node : TheNode) (name : List ℕ) → IsSet old new node name (bytes_in (title_of old node))
        → tree_store s new ≡ with_name (tree_store s old) (Some node) name }
    ensures bytes { (s : Store) (old new : Titles) (x : ℕ) (bytes : List ℕ)
        → IsSet old new (file_node x) (name_in (title_at old.files x)) bytes
        → tree_store s new ≡ with_file (tree_store s old) x (λ e. record e { bytes = bytes }) }
    ensures place { (s : Store) (names : Titles) (node : TheNode) (into : ℕ)
        → tree_store (moved s (Some node) into) names ≡ moved (tree_store s names) (Some node) into }
    ensures removal { (s : Store) (old new : Titles) (node : TheNode) → IsForgotten old new node
        → tree_store (without_node s (Some node)) new ≡ without_node (tree_store s old) (Some node) }
{}
