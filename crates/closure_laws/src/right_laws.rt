//! Laws of what rights give.
ghost use Rattle.std.specs.Prelude.{◌≡◌, Some, ℕ};
ghost use Rattle.cry_base.specs.declared.roles.Role.{Role};
ghost use Rattle.role_graph.specs.Edges.{Reaches, edges};
ghost use Rattle.role_graph.specs.Rights.Who.{TheHolder};
ghost use Rattle.role_graph.specs.RightsByReach.{IsRightful, IsStandingRole};
ghost use Rattle.public_fold.specs.Journal.{Journal, keys_of, store_of};
ghost use Rattle.public_fold.specs.KeyStep.{present};
ghost use Rattle.public_fold.specs.Valid.{IsValid};
ghost use Rattle.closure_laws.specs.History.{Derives, history, own_serial};

/// In every valid journal a present key leads, by what was published, to the present key of each role that edges lead to; so
/// a holder derives the present key of each role that stands for a right of theirs.
pub fn rights_derive_keys()
    ensures edges { (m : Journal) → IsValid m → (a b : Role) → Reaches (edges (store_of m)) a b
        → Derives (history m) (present (keys_of m).keys a) (present (keys_of m).keys b) }
    ensures rights { (m : Journal) → IsValid m → (h : ℕ) (r : Role) (a : ℕ) → IsStandingRole (store_of m) r → IsRightful (store_of m) h r
        → own_serial m (TheHolder h) ≡ Some a → Derives (history m) a (present (keys_of m).keys r) }
{}
