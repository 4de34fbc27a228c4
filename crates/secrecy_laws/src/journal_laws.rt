//! Laws of journals: what holds of their keys, and what a holder derives of what was written while it wasn't shown.
ghost use Rattle.std.specs.Prelude.{Some, ◌≡◌, ◌<◌, ◌↔◌, ℕ, IsTrue, List, map};
ghost use Rattle.cry_base.specs.Sets.{In};
ghost use Rattle.cry_base.specs.declared.roles.Role.{Role};
ghost use Rattle.role_graph.specs.Edges.{Reaches, edges};
ghost use Rattle.role_graph.specs.RightsByReach.{IsRightful, IsStandingRole};
ghost use Rattle.role_graph.specs.Roles.{is_root_role};
ghost use Rattle.public_fold.specs.Journal.{Entry, Journal, keys_of, nothing, stand_after, store_of};
ghost use Rattle.public_fold.specs.KeyStep.{newest, next_serial};
ghost use Rattle.public_fold.specs.Records.{Content};
ghost use Rattle.public_fold.specs.Valid.{IsValid};
ghost use Rattle.closure_laws.specs.History.{Derives, history, own_serial, trails};
ghost use Rattle.closure_laws.specs.Secrecy.{KeepsSecret, keeps_secret};
ghost use Rattle.secrecy_laws.specs.Holding.{Holds};
ghost use Rattle.secrecy_laws.specs.Pasts.{ends_of, past_of, state_of};
ghost use Rattle.closure_laws.specs.Seen.{Sight, seen};
ghost use Rattle.role_graph.specs.Rights.Who.{TheHolder};
ghost use Rattle.secrecy_laws.specs.Sights.{IsFairlySeen};
ghost use Rattle.secrecy_laws.specs.Revocation.{GainOpens, IsDerivedUnseen, OpensByGain, derived_unseen, gain_opens};

/// Revocation secrecy: in no valid journal a holder derives what an entry wrote while its object wasn't shown to the holder, unless a
/// later entry is a gain for the holder.
pub fn journals_keep_secrets()
    ensures { (m : Journal) → IsValid m → (h : ℕ) → KeepsSecret m h }
{}

/// And where a holder does derive it, some later entry is a gain for the holder that brought it: before that entry the holder didn't
/// derive it; the entry brings a role into the holder's reach that had a key and wasn't in reach; and by what was published up to and
/// with that entry, nothing later, the role's present key leads to what was written. (So by the whole history too: `history_grows` of
/// `closure_laws`.)
pub fn secrets_open_by_gains()
    ensures { (m : Journal) → IsValid m → (h : ℕ) → OpensByGain m h }
{}

/// Each name and file that an audit shows a holder of a valid journal was shown to the holder when it was written, or a later gain for
/// the holder opened it, by what was published up to that gain.
pub fn audits_show_what_was_shown_or_gained()
    ensures { (m : Journal) → IsValid m → (h : ℕ) (x : Sight) → In x (seen m (TheHolder h)) → IsFairlySeen m h x }
{}

/// What is computed of a journal's secrets is what is said of them, for every journal.
pub fn secrets_are_told()
    ensures { (m : Journal) (h : ℕ) → IsTrue (keeps_secret m h) ↔ KeepsSecret m h }
{}

/// What is computed of the gains that open a content is what is said of them, for any entries.
pub fn gains_that_open_are_told()
    ensures { (before : Journal) (entries : List Entry) (h : ℕ) (c : Content)
        → IsTrue (gain_opens before entries h c) ↔ GainOpens before entries h c }
{}

/// What holds of keys over any roles holds after each entry of a valid journal; no serial that was ever given is the next one or above
/// it; and the links of the past are the trails of the history.
pub fn keys_are_traced_in_journals()
    ensures holds { (m : Journal) → IsValid m → Holds is_root_role (state_of (stand_after nothing m) (past_of m)) }
    ensures below { (m : Journal) → IsValid m → (key : Role × ℕ) → In key (past_of m).made → key.1 < next_serial (keys_of m) }
    ensures trails { (m : Journal) → trails (history m) ≡ map ends_of (past_of m).links }
{}

/// What is computed of what a holder derives, and wasn't shown when it was written, is what is said of it, for every journal.
pub fn unseen_contents_are_told()
    ensures { (m : Journal) (h : ℕ) (c : Content) → In c (derived_unseen m h) ↔ IsDerivedUnseen m h c }
{}

/// In a valid journal whoever has the key of a role derives the present key of a clean role only where edges lead to it; so a holder
/// derives it only by a right that the role stands for. By `rights_derive_keys` of `closure_laws` a right is enough.
pub fn clean_keys_are_derived_by_rights_alone()
    ensures edges { (m : Journal) → IsValid m → (a r : Role) (j k : ℕ) → newest (keys_of m).keys a ≡ Some j
        → newest (keys_of m).keys r ≡ Some k
        → (In r (keys_of m).dirty → ⊥) → Derives (history m) j k → Reaches (edges (store_of m)) a r }
    ensures rights { (m : Journal) → IsValid m → (h : ℕ) (r : Role) (j k : ℕ) → IsStandingRole (store_of m) r
        → own_serial m (TheHolder h) ≡ Some j → newest (keys_of m).keys r ≡ Some k
        → (In r (keys_of m).dirty → ⊥) → Derives (history m) j k → IsRightful (store_of m) h r }
{}
