//! Laws of what readers are shown of bytes that stand for a journal.
ghost use Rattle.std.specs.Prelude.{[], ◌∷◌, ◌≡◌, ◌⊎◌, Err, List, Ok, ℕ};
ghost use Rattle.commit_journal.specs.Answering.{WrongKey};
ghost use Rattle.cry_base.specs.declared.client.Bundle.{Bundle};
ghost use Rattle.cry_base.specs.declared.ids.HolderId.{HolderId};
ghost use Rattle.log_visits.specs.Asking.{ToList, ToOpen, failure_of, line_shown, verdict};
ghost use Rattle.log_visits.specs.Judging.{NoHolder, OfBytes, Unseen, shown_with, who_of};
ghost use Rattle.log_visits.specs.View.{view};
ghost use Rattle.log_visits.specs.Visiting.{Opened};
ghost use Rattle.public_fold.specs.Journal.{Journal, store_of};
ghost use Rattle.public_fold.specs.Journal.Entry.{Session};
ghost use Rattle.public_fold.specs.Valid.{IsValid};
ghost use Rattle.journal_bytes.specs.Journals.{IsHonestFor, StandsForJournal, published_journal};
ghost use Rattle.journal_bytes.specs.Keys.{AreWhole};
ghost use Rattle.journal_bytes.specs.Opening.{reading_of};
ghost use Rattle.reader_laws.specs.Readers.{all_visited, files_visited, names_visited};
ghost use Rattle.reader_laws.specs.Reading.{AreAllowed, IsReaderOf, IsRightFor, IsWrongFor, line_shown_of, shown_of};

/// Law: no visit of a reader's to a valid journal fails, neither the owner's nor those of a holder with the holder's key: not the
/// visits to names, not those to allowed files behind them, not all of them.
pub fn readers_visits_never_fail()
    ensures names { (owner : List ℕ) (m : Journal) (bundle : Bundle) → IsValid m → AreWhole owner m → IsReaderOf owner m bundle
        → (after : Opened) × (names_visited bundle (reading_of owner m) ≡ Ok after) }
    ensures files { (owner : List ℕ) (m : Journal) (bundle : Bundle) (xs : List ℕ) (named : Opened)
        → IsValid m → AreWhole owner m → IsReaderOf owner m bundle → AreAllowed (store_of m) (who_of bundle) xs
        → names_visited bundle (reading_of owner m) ≡ Ok named
        → (after : Opened) × (files_visited bundle (reading_of owner m) xs named ≡ Ok after) }
    ensures all { (owner : List ℕ) (m : Journal) (bundle : Bundle) → IsValid m → AreWhole owner m → IsReaderOf owner m bundle
        → (after : Opened) × (all_visited bundle (reading_of owner m) ≡ Ok after) }
{}

/// Law: the view of what a reader's visits opened is the view of the journal's store.
pub fn opened_views_are_the_journals()
    ensures { (owner : List ℕ) (m : Journal) (bundle : Bundle) (after : Opened) → IsValid m → AreWhole owner m → IsReaderOf owner m bundle
        → all_visited bundle (reading_of owner m) ≡ Ok after → view after.store (who_of bundle) ≡ view (store_of m) (who_of bundle) }
{}

/// Law: bytes that stand for a journal, with an honest last slot, show a reader with a right key exactly what the store of the
/// journal that they publish shows: its view, or the line of it with a path. They answer that there is no such holder, with
/// the number of holders that there are, exactly where that journal made none with the number, and that a path is unseen exactly
/// where no line of the view has it.
pub fn standing_bytes_show_their_journal()
    ensures shown { (owner : List ℕ) (m : Journal) (bytes : List ℕ) (bundle : Bundle) → StandsForJournal owner m bytes
        → IsHonestFor owner bytes m → IsRightFor owner (published_journal owner bytes m) bundle
        → shown_with bundle bytes ≡ shown_of (store_of (published_journal owner bytes m)) bundle }
    ensures line { (owner : List ℕ) (m : Journal) (bytes : List ℕ) (bundle : Bundle) (path : List ℕ) → StandsForJournal owner m bytes
        → IsHonestFor owner bytes m → IsRightFor owner (published_journal owner bytes m) bundle
        → line_shown bundle path bytes ≡ line_shown_of (store_of (published_journal owner bytes m)) bundle path }
    ensures listed { (owner : List ℕ) (m : Journal) (bytes : List ℕ) (bundle : Bundle) → StandsForJournal owner m bytes
        → IsHonestFor owner bytes m → IsRightFor owner (published_journal owner bytes m) bundle
        → verdict (ToList bundle) bytes ≡ failure_of (shown_of (store_of (published_journal owner bytes m)) bundle) }
    ensures opened { (owner : List ℕ) (m : Journal) (bytes : List ℕ) (bundle : Bundle) (path : List ℕ) → StandsForJournal owner m bytes
        → IsHonestFor owner bytes m → IsRightFor owner (published_journal owner bytes m) bundle
        → verdict (ToOpen bundle path) bytes ≡ failure_of (line_shown_of (store_of (published_journal owner bytes m)) bundle path) }
{}

/// Law: to a key with another check than the one that is published for its reader, such bytes answer that the key is wrong.
pub fn standing_bytes_refuse_wrong_keys()
    ensures shown { (owner : List ℕ) (m : Journal) (bytes : List ℕ) (bundle : Bundle) → StandsForJournal owner m bytes
        → IsHonestFor owner bytes m → IsWrongFor owner (published_journal owner bytes m) bundle
        → shown_with bundle bytes ≡ Err (OfBytes WrongKey) }
    ensures line { (owner : List ℕ) (m : Journal) (bytes : List ℕ) (bundle : Bundle) (path : List ℕ) → StandsForJournal owner m bytes
        → IsHonestFor owner bytes m → IsWrongFor owner (published_journal owner bytes m) bundle
        → line_shown bundle path bytes ≡ Err (OfBytes WrongKey) }
{}

/// Law: what bytes publish of a journal is a valid journal whose keys have 32 bytes, or its first session alone.
pub fn published_journals_are_valid()
    ensures { (owner : List ℕ) (m : Journal) (bytes : List ℕ) → StandsForJournal owner m bytes → let p = published_journal owner bytes m in
        (IsValid p × AreWhole owner p) ⊎ (p ≡ Session ∷ []) }
{}

/// Law: the first session alone shows its owner nothing, and knows no holder.
pub fn first_session_shows_nothing()
    ensures owner { (key path : List ℕ) → let s = store_of (Session ∷ []) in
        (shown_of s (Bundle.Owner key) ≡ Ok []) × (line_shown_of s (Bundle.Owner key) path ≡ Err Unseen) }
    ensures holder { (h : HolderId) (key path : List ℕ) → let s = store_of (Session ∷ []) in
        (shown_of s (Bundle.Holder h key) ≡ Err (NoHolder 0)) × (line_shown_of s (Bundle.Holder h key) path ≡ Err (NoHolder 0)) }
{}
