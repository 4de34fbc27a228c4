//! Laws of journals.
ghost use Rattle.std.specs.Prelude.{◌<◌, ◌+◌, ◌↔◌, ℕ, ◌≡◌, ◌≤◌, List, ◌++◌, length};
ghost use Rattle.cry_base.specs.Clearances.{clear_base};
ghost use Rattle.cry_base.specs.declared.roles.Role.{Role};
ghost use Rattle.role_graph.specs.Edges.{Reaches, edges};
ghost use Rattle.role_graph.specs.RightsByReach.{IsRightful, IsSettled, IsStandingRole};
ghost use Rattle.role_graph.specs.Roles.{holder_role};
ghost use Rattle.cry_base.specs.Sets.{In};
ghost use Rattle.cry_base.specs.declared.roles.Edge.{Edge};
ghost use Rattle.move_plan.specs.Change.{Change};
ghost use Rattle.public_fold.specs.KeyStep.{KeyState, key_step, next_serial};
ghost use Rattle.public_fold.specs.Records.{Content, Link, Piece};
ghost use Rattle.public_fold.specs.Counted.{AreCounted};
ghost use Rattle.public_fold.specs.Journal.{Journal, keys_of, nothing, stand_after, steps_of, steps_from, store_of};
ghost use Rattle.public_fold.specs.Lengths.{end_of};
ghost use Rattle.public_fold.specs.Valid.{IsValid, IsVersion};

/// The first entries of a valid journal are one, from the two on that make the store.
pub fn prefix_is_valid()
    ensures { (m more : Journal) → 2 ≤ length m → IsValid (m ++ more) → IsValid m }
{}

/// What was published stays, whatever follows, and the log never gets shorter.
pub fn steps_grow()
    ensures published { (m more : Journal) → steps_of (m ++ more) ≡ steps_of m ++ steps_from (stand_after nothing m) more }
    ensures end { (m more : Journal) → end_of m ≤ end_of (m ++ more) }
{}

/// No number that stands is above the count of its kind ever made.
pub fn numbers_are_counted()
    ensures { (m : Journal) → AreCounted (store_of m) }
{}

/// In a valid journal fewer than 2^31 folders and fewer than 2^31 files were ever made, since the store's limit leaves no bytes for more.
pub fn numbers_stay_below_clearances()
    ensures folders { (m : Journal) → IsValid m → (store_of m).folders_made + 1 < clear_base }
    ensures files { (m : Journal) → IsValid m → (store_of m).files_made + 1 < clear_base }
{}

/// A valid journal is of version 1 or 2.
pub fn journals_have_a_version()
    ensures { (m : Journal) → IsValid m → IsVersion (keys_of m).version }
{}

/// In the store of a valid journal a holder's key leads to a role exactly where the holder has the right that it stands for.
pub fn reach_is_the_rights_in_journals()
    ensures settled { (m : Journal) → IsValid m → IsSettled (store_of m) }
    ensures rights { (m : Journal) → IsValid m → (h : ℕ) (r : Role) → IsStandingRole (store_of m) r →
        Reaches (edges (store_of m)) (holder_role h) r ↔ IsRightful (store_of m) h r }
{}

/// A step takes its serials from the counter: the keys' first, then the links', then the contents', and the counter ends
/// behind all of them.
pub fn serials_are_counted()
    ensures keys { (k : KeyState) (before : List Edge) (c : Change) (pieces : List Piece) (key : Role × ℕ) →
        In key (key_step k before c pieces).given → (next_serial k ≤ key.1) × (key.1 < next_serial (key_step k before c pieces).after) }
    ensures links { (k : KeyState) (before : List Edge) (c : Change) (pieces : List Piece) (l : Link) →
        In l (key_step k before c pieces).links
        → (next_serial k + length (key_step k before c pieces).given ≤ l.nonce)
        × (l.nonce < next_serial (key_step k before c pieces).after) }
    ensures contents { (k : KeyState) (before : List Edge) (c : Change) (pieces : List Piece) (x : Content) →
        In x (key_step k before c pieces).contents
        → (next_serial k + length (key_step k before c pieces).given + length (key_step k before c pieces).links ≤ x.nonce)
        × (x.nonce < next_serial (key_step k before c pieces).after) }
{}
