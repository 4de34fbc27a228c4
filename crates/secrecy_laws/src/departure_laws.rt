//! Strict departures: what left a folder is closed to whoever comes later, in a store of version 2.
ghost use Rattle.std.specs.Prelude.{Some, ◌≡◌, ℕ, false, List, ◌∷◌};
ghost use Rattle.cry_base.specs.Sets.{In};
ghost use Rattle.cry_base.specs.declared.roles.Role.{Role};
ghost use Rattle.role_graph.specs.Edges.{Reaches, edges};
ghost use Rattle.role_graph.specs.Roles.{is_root_role};
ghost use Rattle.public_fold.specs.Journal.{Entry, Journal, keys_of, store_of};
ghost use Rattle.public_fold.specs.Journal.Entry.{Made, Session};
ghost use Rattle.public_fold.specs.KeyStep.{newest};
ghost use Rattle.public_fold.specs.Valid.{IsValid};
ghost use Rattle.closure_laws.specs.History.{Derives, history};
ghost use Rattle.closure_laws.specs.Seen.{Sight, seen};
ghost use Rattle.role_graph.specs.Rights.Who.{TheHolder};
ghost use Rattle.secrecy_laws.specs.Departures.{ClosesDepartures, KeepsDepartures};
ghost use Rattle.secrecy_laws.specs.Pasts.{past_of};
ghost use Rattle.secrecy_laws.specs.Sights.{IsStrictlySeen};

/// In a store of version 2 the present key of a role that is no root derives a key, old or new, only where edges that stand lead to the
/// key's role.
pub fn present_keys_lead_along_edges()
    ensures { (m : Journal) → IsValid m → (keys_of m).version ≡ 2 → (a r : Role) (j k : ℕ) → is_root_role a ≡ false
        → newest (keys_of m).keys a ≡ Some j → In {X = Role × ℕ} (r, k) (past_of m).made → Derives (history m) j k
        → Reaches (edges (store_of m)) a r }
{}

/// What a holder derives from its key and all records ever published, in a store of version 2, was shown to the holder at some moment,
/// from its writing on; or, in a store that came to have that version, the holder derived it before.
pub fn journals_keep_departures()
    ensures { (m : Journal) → IsValid m → (keys_of m).version ≡ 2 → (h : ℕ) → KeepsDepartures m h }
{}

/// So it is with each name and file that an audit shows a holder of such a store.
pub fn audits_of_strict_stores_show_what_was_shown()
    ensures { (m : Journal) → IsValid m → (keys_of m).version ≡ 2 → (h : ℕ) (x : Sight) → In x (seen m (TheHolder h))
        → IsStrictlySeen m h x }
{}

/// In a store that was made with version 2 all was shown.
pub fn departures_close_with_the_version()
    ensures { (keys : List (List ℕ)) (entries : List Entry) → IsValid (Session ∷ Made 2 keys ∷ entries)
        → (h : ℕ) → ClosesDepartures (Session ∷ Made 2 keys ∷ entries) h }
{}
