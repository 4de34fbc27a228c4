//! Laws of what each note publishes, and of which keys are renewed for it, whatever stands.
ghost use Rattle.std.specs.Prelude.{◌≡◌, ◌⊎◌, ◌↔◌, ℕ, ◌+◌, ◌<◌, ◌==◌, true, false, IsTrue, List, [], ◌∷◌, ◌++◌, filter, length, map};
ghost use Rattle.cry_base.specs.Clearances.{clear_base, clear_number};
ghost use Rattle.cry_base.specs.Sets.{In};
ghost use Rattle.cry_base.specs.Store.{Store};
ghost use Rattle.cry_base.specs.declared.roles.Edge.{Edge};
ghost use Rattle.cry_base.specs.declared.roles.Role.{Role};
ghost use Rattle.record_format.specs.Noted.{Note};
ghost use Rattle.record_format.specs.Noted.Note.{Give, Take};
ghost use Rattle.role_graph.specs.Edges.{edges, has_grants};
ghost use Rattle.role_graph.specs.Roles.{clear_of, is_root_role, is_sealing_role};
ghost use Rattle.move_plan.specs.Change.{Change, change_of, is_first_grant, is_last_grant};
ghost use Rattle.move_plan.specs.Fitting.{fits};
ghost use Rattle.public_fold.specs.AtKeys.{comes_or_has_key, roles_of};
ghost use Rattle.public_fold.specs.Fitted.{told_step};
ghost use Rattle.public_fold.specs.Journal.{Stand};
ghost use Rattle.public_fold.specs.KeyStep.{KeyState, edges_then, is_strict, key_step, next_serial, planned, renewed};
ghost use Rattle.public_fold.specs.Records.{Link, Piece};
ghost use Rattle.public_fold.specs.Rooted.{MayStand};
ghost use Rattle.public_fold.specs.Told.{told_store};

/// A grant that fits publishes its one link and nothing else, and gives no key, unless it is the first one on a file.
pub fn grants_publish_one_link()
    ensures links { (at : Stand) (h f : ℕ) → fits (is_strict at.keys) at.store (Give h f) ≡ true → is_first_grant at.store f ≡ false
        → length (told_step at (Give h f)).links ≡ 1 }
    ensures given { (at : Stand) (h f : ℕ) → fits (is_strict at.keys) at.store (Give h f) ≡ true → is_first_grant at.store f ≡ false
        → (told_step at (Give h f)).given ≡ [] }
    ensures contents { (at : Stand) (h f : ℕ) → fits (is_strict at.keys) at.store (Give h f) ≡ true
        → (told_step at (Give h f)).contents ≡ [] }
{}

/// The first grant on a file gives the file's clearance key, and publishes the grant's link and the clearance's three.
pub fn first_grants_on_files_publish_four_links()
    ensures links { (at : Stand) (h f : ℕ) → fits (is_strict at.keys) at.store (Give h f) ≡ true → MayStand at.store
        → is_first_grant at.store f ≡ true → length (told_step at (Give h f)).links ≡ 4 }
    ensures given { (at : Stand) (h f : ℕ) → fits (is_strict at.keys) at.store (Give h f) ≡ true → MayStand at.store
        → is_first_grant at.store f ≡ true → (told_step at (Give h f)).given ≡ (clear_of f, next_serial at.keys) ∷ [] }
{}

/// A key that seals a name or a file, and isn't strict, is renewed only where it is wanted, and so where what it seals is written anew.
pub fn sealing_keys_are_renewed_where_wanted()
    ensures { (s : Store) (k : KeyState) (c : Change) (r : Role) → is_sealing_role r ≡ true → (In r c.strict → ⊥)
        → In r (renewed k (edges s) c) → In r c.wanted }
{}

/// A grant on a folder that is taken back, where no root is dirty and the folder stands once, gives the folder's clearance key anew and
/// nothing else. It publishes that key's two links within the folder's own and the owner's, and one for each grant that
/// is left on the folder.
pub fn revocations_publish_a_link_for_each_grant_left()
    ensures links { (at : Stand) (h f : ℕ) → f < clear_base → ((r : Role) → In r at.keys.dirty → is_root_role r ≡ false)
        → length (filter (λ e. e.id == f) at.store.folders) ≡ 1
        → length (told_step at (Take h f)).links ≡ 2 + length (filter (λ g. g.folder == f) (told_store at.store (Take h f)).grants) }
    ensures given { (at : Stand) (h f : ℕ) → f < clear_base → ((r : Role) → In r at.keys.dirty → is_root_role r ≡ false)
        → length (filter (λ e. e.id == f) at.store.folders) ≡ 1
        → (told_step at (Take h f)).given ≡ (clear_of f, next_serial at.keys) ∷ [] }
    ensures contents { (at : Stand) (h f : ℕ) → (told_step at (Take h f)).contents ≡ [] }
{}

/// A grant on a file that is taken back, where another one is left on it, no root is dirty, and the file stands once and no folder has
/// its clearance number, gives the file's clearance key anew and nothing else. It publishes that key's three links from the owner's, into
/// the file and back to its folder, and one for each grant that is left.
pub fn revocations_on_files_publish_three_links_and_one_for_each_grant_left()
    ensures links { (at : Stand) (h f : ℕ) → ((r : Role) → In r at.keys.dirty → is_root_role r ≡ false)
        → length (filter (λ e. e.id == f) at.store.folders) ≡ 0 → length (filter (λ e. clear_number e.id == f) at.store.files) ≡ 1
        → has_grants (told_store at.store (Take h f)) f ≡ true
        → length (told_step at (Take h f)).links ≡ 3 + length (filter (λ g. g.folder == f) (told_store at.store (Take h f)).grants) }
    ensures given { (at : Stand) (h f : ℕ) → ((r : Role) → In r at.keys.dirty → is_root_role r ≡ false)
        → length (filter (λ e. e.id == f) at.store.folders) ≡ 0 → length (filter (λ e. clear_number e.id == f) at.store.files) ≡ 1
        → has_grants (told_store at.store (Take h f)) f ≡ true
        → (told_step at (Take h f)).given ≡ (clear_of f, next_serial at.keys) ∷ [] }
{}

/// Where the last grant on a file is taken back the file's clearance goes: no key is given, and nothing is published.
pub fn last_revocations_on_files_publish_nothing()
    ensures links { (at : Stand) (h f : ℕ) → is_last_grant at.store h f ≡ true → (told_step at (Take h f)).links ≡ [] }
    ensures given { (at : Stand) (h f : ℕ) → is_last_grant at.store h f ≡ true → (told_step at (Take h f)).given ≡ [] }
{}

/// A step gives one key to each role that is strict or in the plan, and then one to each that comes. It publishes one link for
/// each edge that stands after it and comes with it, or has a role that got a key at an end, and no more. Where the note fits,
/// the edges that stand after it are those of the store after it.
pub fn steps_publish_a_link_for_each_edge_at_a_new_key()
    ensures renewed { (k : KeyState) (before : List Edge) (c : Change) (r : Role)
        → In r (renewed k before c) ↔ (In r c.strict ⊎ In r (planned k before c)) }
    ensures keys { (k : KeyState) (before : List Edge) (c : Change) (pieces : List Piece)
        → roles_of (key_step k before c pieces).given ≡ renewed k before c ++ c.fresh }
    ensures links { (k : KeyState) (before : List Edge) (c : Change) (pieces : List Piece)
        → map (λ (l : Link). l.edge) (key_step k before c pieces).links
        ≡ filter (comes_or_has_key c (key_step k before c pieces).given) (edges_then before c) }
    ensures edges { (at : Stand) (note : Note) → IsTrue (fits (is_strict at.keys) at.store note) → MayStand at.store → (e : Edge)
        → In e (edges_then (edges at.store) (change_of (is_strict at.keys) at.store note)) ↔ In e (edges (told_store at.store note)) }
{}
