//! Laws of the plain store.
ghost use Rattle.std.specs.Prelude.{◌≡◌, ◌<◌, ◌↔◌, ℕ, Bool, true, false, List, IsTrue, Some, Ok, Err, None};
ghost use Rattle.std.specs.List.{list_all};
ghost use Rattle.cry_base.specs.Clearances.{clear_base, clear_number, file_of};
ghost use Rattle.cry_base.specs.Naming.{is_name, is_path, IsPath, names_of, spell_path};
ghost use Rattle.cry_base.specs.Refusing.{grants_on_file, refusal_in, refusal_of};
ghost use Rattle.cry_base.specs.Requests.{Request, paths_of};
ghost use Rattle.cry_base.specs.Sets.{In};
ghost use Rattle.cry_base.specs.Stepping.{step, effect};
ghost use Rattle.cry_base.specs.Store.{Store, node_at, nodes_of, path_of};
ghost use Rattle.cry_base.specs.declared.commands.Refusal.{Refusal};
ghost use Rattle.cry_base.specs.declared.commands.Refusal.TheVariants.{NotFolder};
ghost use Rattle.cry_base.specs.declared.roles.Node.{Node};

/// A path is what names spell, and its names are those.
pub fn paths_are_spelled()
    ensures form { (path : List ℕ) → IsTrue (is_path path) ↔ IsPath path }
    ensures names { (names : List (List ℕ)) → IsTrue (list_all is_name names) → names_of (spell_path names) ≡ names }
{}

/// A path finds a node that has it, and it finds one where one has it.
pub fn paths_find_nodes()
    ensures found { (s : Store) (path : List ℕ) (node : Node) → node_at s path ≡ Some node → In node (nodes_of s)
        × (path_of s node ≡ path) }
    ensures finds { (s : Store) (node : Node) → In node (nodes_of s) → (other : Node) × (node_at s (path_of s node) ≡ Some other) }
{}

/// A command is refused by the first cause that applies, or else has its effect.
pub fn step_refuses_or_acts()
    ensures refused { (s : Store) (r : Request) (key : List ℕ) (file_bytes : ℕ) (why : Refusal) → refusal_of s r file_bytes ≡ Some why
        → step s r key file_bytes ≡ Err why }
    ensures accepted { (s : Store) (r : Request) (key : List ℕ) (file_bytes : ℕ) → refusal_of s r file_bytes ≡ None
        → step s r key file_bytes ≡ Ok (effect s r key) }
{}

/// A store of version 2 refuses what `refusal_of` says. One of version 1 refuses besides, as not-folder, each grant on a file and each
/// revocation of one; it accepts nothing that a store of version 2 refuses.
pub fn versions_differ_on_files_alone()
    ensures second { (s : Store) (r : Request) (file_bytes : ℕ) → refusal_in true s r file_bytes ≡ refusal_of s r file_bytes }
    ensures others { (strict : Bool) (s : Store) (r : Request) (file_bytes : ℕ) → grants_on_file s r ≡ false
        → refusal_in strict s r file_bytes ≡ refusal_of s r file_bytes }
    ensures accepted { (strict : Bool) (s : Store) (r : Request) (file_bytes : ℕ) → refusal_in strict s r file_bytes ≡ None
        → refusal_of s r file_bytes ≡ None }
    ensures on_file { (s : Store) (r : Request) (file_bytes : ℕ) → list_all is_path (paths_of r) ≡ true → grants_on_file s r ≡ true
        → refusal_in false s r file_bytes ≡ Some NotFolder }
{}

/// A file's clearance number names that file, and a folder's number names none.
pub fn clear_numbers_name_files()
    ensures file { (x : ℕ) → file_of (clear_number x) ≡ Some x }
    ensures folder { (f : ℕ) → f < clear_base → file_of f ≡ None }
    ensures only { (f x : ℕ) → file_of f ≡ Some x → f ≡ clear_number x }
{}
