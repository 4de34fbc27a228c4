//! Laws of a store that was just made.
ghost use Rattle.std.specs.Prelude.{◌≡◌, ◌≤◌, ℕ, List, None, Some, [], length};
ghost use Rattle.cry_base.specs.Limits.{most_file_bytes};
ghost use Rattle.commit_journal.specs.Journals.{IsJournalOf};
ghost use Rattle.folder_nodes.specs.Titles.{title_at};
ghost use Rattle.public_fold.specs.Fitted.{told_stand};
ghost use Rattle.public_fold.specs.Journal.{keys_of};
ghost use Rattle.public_fold.specs.Standing.{IsSeenAs};
ghost use Rattle.journal_bytes.specs.Keys.{all_keys};
ghost use Rattle.journal_bytes.specs.Sealing.{HoldsKeys};
ghost use Rattle.store_owner.specs.Drawing.{AreKeys};
ghost use Rattle.store_owner.specs.Making.{IsMadeJournal, first_stand, made_batches, made_note, made_with, root_payload};
ghost use Rattle.store_owner.specs.Owned.{IsOwnerOf, OwnerView, counting};
ghost use Rattle.store_owner.specs.Sound.{IsSound};

/// Law: who has the journal of the root's batch, with its state, name and keys, stands for the journal that makes a store, and is
/// sound.
pub fn makers_own_the_store()
    ensures owner { (o : OwnerView) (owner : List ℕ) (drawn : List (List ℕ)) (limit : ℕ) → length owner ≡ 32 → length drawn ≡ 5
        → AreKeys drawn → o.key ≡ owner
        → IsMadeJournal owner limit o.journal → IsJournalOf (made_batches (root_payload owner drawn)) o.journal
        → title_at o.names.folders 1 ≡ Some (record { id = 1; name = []; bytes = [] }) → IsSeenAs o.state (told_stand first_stand made_note)
        → HoldsKeys (all_keys owner (made_with drawn)) (keys_of (made_with drawn)) o.ring (counting (keys_of (made_with drawn)))
        → o.counter ≡ None → o.file_bytes ≤ most_file_bytes
        → IsOwnerOf (made_with drawn) o }
    ensures sound { (o : OwnerView) (owner : List ℕ) (drawn : List (List ℕ)) (limit : ℕ) → length owner ≡ 32 → length drawn ≡ 5
        → AreKeys drawn → o.key ≡ owner
        → IsMadeJournal owner limit o.journal → IsJournalOf (made_batches (root_payload owner drawn)) o.journal
        → title_at o.names.folders 1 ≡ Some (record { id = 1; name = []; bytes = [] }) → IsSeenAs o.state (told_stand first_stand made_note)
        → HoldsKeys (all_keys owner (made_with drawn)) (keys_of (made_with drawn)) o.ring (counting (keys_of (made_with drawn)))
        → o.counter ≡ None → o.file_bytes ≤ most_file_bytes
        → IsSound o }
{}
