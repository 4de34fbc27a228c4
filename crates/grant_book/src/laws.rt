//! The lists of holders and grants stand for those of a plain store, and each change for its effect there.
ghost use Rattle.std.specs.Prelude.{◌≡◌, ℕ, Bool, List, [], ◌∷◌, ◌++◌};
ghost use Rattle.cry_base.specs.Clearances.{clear_number as number_to_clear};
ghost use Rattle.cry_base.specs.Refusing.{finds_no_holder, grants_again, revokes_nothing, granted_id};
ghost use Rattle.cry_base.specs.Requests.Request.{Grant, Revoke};
ghost use Rattle.cry_base.specs.Stepping.{effect, with_new_holder, without_folder, without_file};
ghost use Rattle.cry_base.specs.Store.{Store, GrantEntry, node_at, root_store};
ghost use Rattle.cry_base.specs.declared.commands.Refusal.TheVariants.{NoHolder, HasGrant, NoGrant};
ghost use Rattle.grant_book.specs.Granted.{grant_of, with_pair, without_pair, without_pairs_on};
ghost use Rattle.grant_book.specs.Matching.{AreGrantsOf, grant_request};
ghost use Rattle.grant_book.specs.Refused.{first_cause, refusal_of_grant};

/// No holder and no grant stand for those of the store that has its root alone.
pub fn nothing_is_granted_at_first()
    ensures { AreGrantsOf [] [] root_store }
{}

/// A new holder, a grant, a grant taken back and the grants dropped on a folder or a file that goes each stand for that effect
/// in the store.
pub fn changes_are_effects()
    ensures holder { (checks : List (List ℕ)) (pairs : List GrantEntry) (s : Store) (check key : List ℕ) → AreGrantsOf checks pairs s
        → AreGrantsOf (checks ++ check ∷ []) pairs (with_new_holder s key) }
    ensures grant { (checks : List (List ℕ)) (pairs : List GrantEntry) (s : Store) (h : ℕ) (path key : List ℕ) → AreGrantsOf checks pairs s
        → AreGrantsOf checks (with_pair pairs (grant_of h (granted_id (node_at s path)))) (effect s (Grant h path) key) }
    ensures revoke { (checks : List (List ℕ)) (pairs : List GrantEntry) (s : Store) (h : ℕ) (path key : List ℕ) → AreGrantsOf checks pairs s
        → AreGrantsOf checks (without_pair pairs h (granted_id (node_at s path))) (effect s (Revoke h path) key) }
    ensures folder { (checks : List (List ℕ)) (pairs : List GrantEntry) (s : Store) (f : ℕ) → AreGrantsOf checks pairs s
        → AreGrantsOf checks (without_pairs_on pairs f) (without_folder s f) }
    ensures file { (checks : List (List ℕ)) (pairs : List GrantEntry) (s : Store) (x : ℕ) → AreGrantsOf checks pairs s
        → AreGrantsOf checks (without_pairs_on pairs (number_to_clear x)) (without_file s x) }
{}

/// Any other change of a store leaves its holders and its grants, so the lists stand for those still.
pub fn other_changes_keep_grants()
    ensures { (checks : List (List ℕ)) (pairs : List GrantEntry) (s t : Store) → t.holders ≡ s.holders → t.holders_made ≡ s.holders_made
        → t.grants ≡ s.grants → AreGrantsOf checks pairs s → AreGrantsOf checks pairs t }
{}

/// A grant is refused, or the taking back of one, by the first of the store's causes that applies.
pub fn refusals_are_the_stores()
    ensures { (checks : List (List ℕ)) (pairs : List GrantEntry) (s : Store) (give : Bool) (h : ℕ) (path : List ℕ)
        → AreGrantsOf checks pairs s
        → refusal_of_grant checks pairs give h (granted_id (node_at s path))
        ≡ first_cause ((finds_no_holder s (grant_request give h path), NoHolder)
        ∷ (grants_again s (grant_request give h path), HasGrant) ∷ (revokes_nothing s (grant_request give h path), NoGrant) ∷ []) }
{}
