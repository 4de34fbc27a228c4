//! Laws of what audits answer of bytes that stand for a journal.
ghost use Rattle.std.specs.Prelude.{◌≡◌, List, Ok, Err, Result, ℕ};
ghost use Rattle.commit_journal.specs.Answering.{WrongKey};
ghost use Rattle.cry_base.specs.Listed.{Listed};
ghost use Rattle.cry_base.specs.declared.client.Bundle.{Bundle};
ghost use Rattle.cry_base.specs.declared.ids.HolderId.{HolderId};
ghost use Rattle.log_visits.specs.Answering.{AnswersAs};
ghost use Rattle.log_visits.specs.Judging.{Failure, OfBytes};
ghost use Rattle.log_visits.specs.declared.fault.ClientFault.{ClientFault};
ghost use Rattle.public_fold.specs.Journal.{Journal, keys_of};
ghost use Rattle.journal_bytes.specs.Journals.{IsHonestFor, StandsForJournal, published_journal};
ghost use Rattle.reader_laws.specs.Reading.{IsRightFor, IsWrongFor};
ghost use Rattle.trail_audit.specs.Derived.{MayAnswer, PlainSeen};
ghost use Rattle.cry_base.specs.declared.client.Seen.{Seen};
ghost use Rattle.audit_laws.specs.Audited.{AreFairlySeen, AreStrictlySeen, audit_answer, seen_items};

/// Law: of bytes that stand for a journal, with an honest last slot, an audit with a right key answers exactly what the history of
/// the journal that they publish derives from that key: each name and file, as it was written, in the order of their batches. It
/// answers that there is no such holder, with the number of holders that there are, exactly where that journal made none with the
/// number, and to a key with another check than the published one that the key is wrong. No record is ever told to be bad: a disk
/// that fails and want of memory are all that may come besides.
pub fn audits_are_the_journals()
    ensures answered { (owner : List ℕ) (m : Journal) (bytes : List ℕ) (bundle : Bundle) (result : Result (Listed Seen) ClientFault)
        → StandsForJournal owner m bytes → IsHonestFor owner bytes m → IsRightFor owner (published_journal owner bytes m) bundle
        → MayAnswer bundle bytes result → AnswersAs seen_items result (audit_answer (published_journal owner bytes m) bundle) }
    ensures wrong_key { (owner : List ℕ) (m : Journal) (bytes : List ℕ) (bundle : Bundle) (result : Result (Listed Seen) ClientFault)
        → StandsForJournal owner m bytes → IsHonestFor owner bytes m → IsWrongFor owner (published_journal owner bytes m) bundle
        → MayAnswer bundle bytes result → AnswersAs seen_items result (let x : Result (List PlainSeen) Failure = Err (OfBytes WrongKey)
        in x) }
{}

/// Law: each name and file that an audit of such bytes shows a holder was shown to the holder when it was written, or a later gain
/// for the holder opened it, by what was published up to that gain.
pub fn audits_show_what_was_shown_or_gained()
    ensures { (owner : List ℕ) (m : Journal) (bytes : List ℕ) (h : HolderId) (key : List ℕ) (answer : Listed Seen)
        → StandsForJournal owner m bytes → IsHonestFor owner bytes m
        → IsRightFor owner (published_journal owner bytes m) (Bundle.Holder h key)
        → MayAnswer (Bundle.Holder h key) bytes (Ok answer)
        → AreFairlySeen (published_journal owner bytes m) h.0 (seen_items answer) }
{}

/// Law: each name and file that an audit of bytes of a store of version 2 shows a holder was shown to the holder at some moment, from its
/// writing on; or, in a store that came to have that version, the holder derived it before. So what left a folder is closed to whoever
/// comes to read the folder later.
pub fn audits_of_strict_stores_show_what_was_shown()
    ensures { (owner : List ℕ) (m : Journal) (bytes : List ℕ) (h : HolderId) (key : List ℕ) (answer : Listed Seen)
        → StandsForJournal owner m bytes → IsHonestFor owner bytes m
        → IsRightFor owner (published_journal owner bytes m) (Bundle.Holder h key)
        → (keys_of (published_journal owner bytes m)).version ≡ 2
        → MayAnswer (Bundle.Holder h key) bytes (Ok answer)
        → AreStrictlySeen (published_journal owner bytes m) h.0 (seen_items answer) }
{}
