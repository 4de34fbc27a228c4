//! Laws of an owner who has opened a store: the ring has every key, and the owner stands for the journal that the bytes stand for.
ghost use Rattle.std.specs.Prelude.{◌≡◌, ℕ, IsTrue, List, None, Ok, Some, false};
ghost use Rattle.chacha_seal.specs.Keys.{KeyParts};
ghost use Rattle.commit_journal.specs.Journals.{IsJournalOf};
ghost use Rattle.commit_journal.specs.Placed.{PlainPlaced};
ghost use Rattle.cry_base.specs.declared.roles.Role.{Role};
ghost use Rattle.folder_nodes.specs.Titles.{Titles};
ghost use Rattle.log_visits.specs.Folding.{folded};
ghost use Rattle.log_visits.specs.Visiting.{Opened, visit_all};
ghost use Rattle.key_links.specs.Ringed.{Ringed, key_of};
ghost use Rattle.move_plan.specs.Fitting.{folder_stands};
ghost use Rattle.public_fold.specs.Journal.{Journal, Stand, nothing};
ghost use Rattle.public_fold.specs.KeyStep.{newest};
ghost use Rattle.public_fold.specs.Standing.{IsSeenAs};
ghost use Rattle.public_fold.specs.Valid.{IsValid};
ghost use Rattle.role_graph.specs.Roles.{role_id};
ghost use Rattle.journal_bytes.specs.Bytes.{batches_of};
ghost use Rattle.journal_bytes.specs.Folds.{public_stand};
ghost use Rattle.journal_bytes.specs.Keys.{AreWhole};
ghost use Rattle.journal_bytes.specs.Opening.{owner_starts, owner_visits, reading_of};
ghost use Rattle.store_owner.specs.Opened.{IsKept, reading_with, starts_with, visits_of};
ghost use Rattle.store_owner.specs.Owned.{IsOwnerOf, OwnerView};

/// Law: what the owner's visits opened of a log whose payloads fit, and that made the root, has the present key of every role:
/// the owner's, each holder's, and each that stands.
pub fn opened_rings_have_every_key()
    ensures { (log : List PlainPlaced) (at : Stand) (owner : List ℕ) (after : Opened) (ring : Ringed) (names : Titles)
        → folded nothing log ≡ Ok at → IsTrue (folder_stands at.store 1)
        → visit_all (reading_with log at) (visits_of at) (starts_with owner at) ≡ Ok after → IsKept at after ring names
        → (role : Role) (n : ℕ) → newest at.keys.keys role ≡ Some n → (key : KeyParts) × (key_of ring role ≡ Some key)
        × (key.id ≡ role_id role) × (key.serial ≡ n) }
{}

/// Law: who opened a valid journal's log, and keeps what the visits opened of it, stands for that journal, with no epoch begun.
pub fn opened_owners_are_the_journals()
    ensures { (m : Journal) (o : OwnerView) (after : Opened) → IsValid m → AreWhole o.key m → o.journal.owner ≡ o.key
        → IsJournalOf (batches_of o.key m) o.journal
        → IsSeenAs o.state (public_stand m) → visit_all (reading_of o.key m) (owner_visits m) (owner_starts o.key m) ≡ Ok after
        → IsKept (public_stand m) after o.ring o.names
        → o.journal.has_epoch ≡ false → o.counter ≡ None → IsOwnerOf m o }
{}
