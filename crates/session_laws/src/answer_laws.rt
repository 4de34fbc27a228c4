//! Laws of what a reader who stays is answered by the bytes of a store.
ghost use Rattle.std.specs.Prelude.{◌≡◌, ◌≤◌, List, Ok, length, take, ℕ};
ghost use Rattle.commit_journal.specs.Logs.{holder_log};
ghost use Rattle.cry_base.specs.declared.client.Bundle.{Bundle};
ghost use Rattle.cry_base.specs.declared.ids.HolderId.{HolderId};
ghost use Rattle.journal_bytes.specs.Folds.{log_of};
ghost use Rattle.journal_bytes.specs.Journals.{StandsWholeForJournal};
ghost use Rattle.journal_bytes.specs.Keys.{AreWhole};
ghost use Rattle.log_visits.specs.Judging.{bundle_log, view_with};
ghost use Rattle.public_fold.specs.Journal.{Journal, store_of};
ghost use Rattle.public_fold.specs.Valid.{IsValid};
ghost use Rattle.script_text.specs.Seats.{spell_seat_reply};
ghost use Rattle.script_text.specs.declared.seats.SeatReply.{SeatReply};
ghost use Rattle.session_laws.specs.Answers.{RepliesTo, plain_reply};
ghost use Rattle.session_laws.specs.Seats.{seat_shows};
ghost use Rattle.session_laws.specs.Serving.{IsHonestKey, spell_plain_reply};

/// Law: bytes that stand for a journal as a whole have a batch for each entry, which a holder reads. So a session that is begun or
/// pinned on them has all entries pinned.
pub fn whole_journals_are_pinned()
    ensures log { (owner : List ℕ) (m : Journal) (bytes : List ℕ) (h : HolderId) (key : List ℕ) → StandsWholeForJournal owner m bytes
        → bundle_log (Bundle.Holder h key) bytes ≡ Ok (log_of owner m) }
    ensures holder { (owner : List ℕ) (m : Journal) (bytes : List ℕ) → StandsWholeForJournal owner m bytes
        → holder_log bytes ≡ Ok (log_of owner m) }
    ensures count { (owner : List ℕ) (m : Journal) → length (log_of owner m) ≡ length m }
{}

/// Law: of the first batches of a valid journal a holder's key is shown what the seat's definition says: the view of the store that
/// the first entries make, that no such holder was made, or that the key is wrong. The key is the holder's, or has another check.
pub fn batches_show_their_seat()
    ensures { (owner : List ℕ) (m : Journal) (k : ℕ) (h : HolderId) (key : List ℕ) → IsValid m → AreWhole owner m → k ≤ length m
        → IsHonestKey m h.0 key
        → RepliesTo (view_with (Bundle.Holder h key) (Ok (take k (log_of owner m)))) (seat_shows (store_of (take k m)) h.0 key) }
{}

/// Law: a reply is printed as the definition of seats spells it.
pub fn replies_are_printed_plainly()
    ensures { (reply : SeatReply) → spell_plain_reply (plain_reply reply) ≡ spell_seat_reply reply }
{}
