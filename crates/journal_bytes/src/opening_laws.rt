//! Laws of what opening finds in the bytes of a journal.
ghost use Rattle.std.specs.Prelude.{◌≡◌, ◌≢◌, ℕ, List, [], ◌∷◌, Ok, Some};
ghost use Rattle.commit_journal.specs.Laws.{AreBodies};
ghost use Rattle.commit_journal.specs.Log.{log_verdict};
ghost use Rattle.commit_journal.specs.Logs.{holder_log, writer_log};
ghost use Rattle.cry_base.specs.Sets.{In};
ghost use Rattle.cry_base.specs.Store.{HolderEntry};
ghost use Rattle.cry_base.specs.declared.roles.Role.{Role};
ghost use Rattle.log_visits.specs.Visiting.{Opened, key_of, visit_all};
ghost use Rattle.log_visits.specs.Visits.{Visit};
ghost use Rattle.public_fold.specs.Journal.{Journal, keys_of, store_of};
ghost use Rattle.public_fold.specs.KeyStep.{newest};
ghost use Rattle.public_fold.specs.Valid.{IsValid};
ghost use Rattle.role_graph.specs.Roles.{holder_role};
ghost use Rattle.journal_bytes.specs.Bytes.{bodies_of};
ghost use Rattle.journal_bytes.specs.Folds.{fold_of, log_of, public_stand};
ghost use Rattle.journal_bytes.specs.Journals.{IsHonestFor, StandsForJournal, published_journal};
ghost use Rattle.journal_bytes.specs.Keys.{AreWhole, all_keys, bytes_in};
ghost use Rattle.journal_bytes.specs.Opening.{AreDrawn, HoldsPresent, owner_starts, owner_visits, reading_of, seen_by};

/// Law: the payloads of a valid journal fit, one after another, and make what stands after it: its store without names, bytes
/// and holders' keys, and its keys with their serials and marks.
pub fn valid_journals_are_followed()
    ensures { (owner : List ℕ) (m : Journal) → IsValid m → AreWhole owner m → fold_of owner m ≡ Ok (public_stand m) }
{}

/// Law: in the log of a valid journal the last content of each folder, file and holder that stands is its present name, or name
/// and bytes, or key, sealed under the present key of its role.
pub fn last_contents_are_present()
    ensures { (owner : List ℕ) (m : Journal) → IsValid m → AreWhole owner m
        → HoldsPresent (all_keys owner m) (store_of m) (keys_of m) (log_of owner m) }
{}

/// Law: each key that is opened of a valid journal is the one that was drawn as the present key of its role, whatever is
/// visited in whatever order: for the owner, for each holder with the holder's key, and for whoever begins with such keys.
pub fn opened_keys_are_the_journals()
    ensures owner { (owner : List ℕ) (m : Journal) → IsValid m → AreWhole owner m → (visits : List Visit) (after : Opened)
        → visit_all (reading_of owner m) visits (owner_starts owner m) ≡ Ok after → AreDrawn (all_keys owner m) (keys_of m) after.keys }
    ensures anyone { (owner : List ℕ) (m : Journal) → IsValid m → AreWhole owner m → (visits : List Visit) (before after : Opened)
        → AreDrawn (all_keys owner m) (keys_of m) before.keys → visit_all (reading_of owner m) visits before ≡ Ok after
        → AreDrawn (all_keys owner m) (keys_of m) after.keys }
    ensures holder { (owner : List ℕ) (m : Journal) → IsValid m → AreWhole owner m → (e : HolderEntry) → In e (store_of m).holders
        → AreDrawn (all_keys owner m) (keys_of m) ((holder_role e.number, e.key) ∷ []) }
{}

/// Law: the owner's visits open the present key of every role but the holders'.
pub fn owners_open_every_key()
    ensures { (owner : List ℕ) (m : Journal) → IsValid m → AreWhole owner m → (after : Opened)
        → visit_all (reading_of owner m) (owner_visits m) (owner_starts owner m) ≡ Ok after
        → (role : Role) (n : ℕ) → newest (keys_of m).keys role ≡ Some n → ((h : ℕ) → role ≢ holder_role h)
        → key_of after.keys role ≡ Some (bytes_in (all_keys owner m) n) }
{}

/// Law: what visits show of a valid journal is its store, as far as they go: the names, files and holders' keys that they are
/// to, and of all else what everyone may see. So the owner's visits show the whole store. The key of each holder there is
/// the one that was drawn as the present key of the holder's role.
pub fn opened_texts_are_the_journals()
    ensures owner { (owner : List ℕ) (m : Journal) → IsValid m → AreWhole owner m → (after : Opened)
        → visit_all (reading_of owner m) (owner_visits m) (owner_starts owner m) ≡ Ok after → after.store ≡ store_of m }
    ensures anyone { (owner : List ℕ) (m : Journal) → IsValid m → AreWhole owner m → (visits : List Visit) (before after : Opened)
        → AreDrawn (all_keys owner m) (keys_of m) before.keys → before.store ≡ (public_stand m).store
        → visit_all (reading_of owner m) visits before ≡ Ok after → after.store ≡ seen_by visits (store_of m) }
    ensures holders { (owner : List ℕ) (m : Journal) → IsValid m → AreWhole owner m → (e : HolderEntry) → In e (store_of m).holders
        → (n : ℕ) × (newest (keys_of m).keys (holder_role e.number) ≡ Some n) × (e.key ≡ bytes_in (all_keys owner m) n) }
{}

/// Law: the owner's visits to a valid journal never fail: each record that they need is in its log, under a key that those
/// before led to, and each text has the form that its reader tests.
pub fn journals_are_opened()
    ensures { (owner : List ℕ) (m : Journal) → IsValid m → AreWhole owner m
        → (after : Opened) × (visit_all (reading_of owner m) (owner_visits m) (owner_starts owner m) ≡ Ok after) }
{}

/// Law: each payload of a valid journal has a spelling, and stands in an epoch: its ids, serials, kinds and lengths are those of
/// the format.
pub fn valid_journals_have_spellings()
    ensures { (owner : List ℕ) (m : Journal) → IsValid m → AreWhole owner m → AreBodies 0 (bodies_of owner m) }
{}

/// Law: the owner and each holder read bytes that stand for a journal as the journal that they publish, if the last slot is
/// honest; the owner who opens for writing reads all of the journal, whatever the last slot holds.
pub fn standing_bytes_are_read()
    ensures owner { (owner : List ℕ) (m : Journal) (bytes : List ℕ) → StandsForJournal owner m bytes → IsHonestFor owner bytes m →
        log_verdict owner bytes ≡ Ok (log_of owner (published_journal owner bytes m)) }
    ensures holder { (owner : List ℕ) (m : Journal) (bytes : List ℕ) → StandsForJournal owner m bytes → IsHonestFor owner bytes m →
        holder_log bytes ≡ Ok (log_of owner (published_journal owner bytes m)) }
    ensures writer { (owner : List ℕ) (m : Journal) (bytes : List ℕ) → StandsForJournal owner m bytes
        → writer_log owner bytes ≡ Ok (log_of owner m) }
{}
