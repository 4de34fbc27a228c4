//! Laws of the verdict over every image.
ghost use Rattle.std.specs.Prelude.{◌≡◌, ◌<◌, ◌++◌, List, ℕ, length, Ok, Some, None};
ghost use Rattle.cry_base.specs.Layout.{header_len};
ghost use Rattle.cry_base.specs.Refusing.{refusal_of};
ghost use Rattle.cry_base.specs.Requests.{Request};
ghost use Rattle.cry_base.specs.Stepping.{effect};
ghost use Rattle.cry_base.specs.Store.{Store};
ghost use Rattle.cry_base.specs.declared.client.Bundle.{Bundle};
ghost use Rattle.commit_journal.specs.Answering.{NotAStore};
ghost use Rattle.commit_journal.specs.Placed.{PlainPlaced};
ghost use Rattle.move_plan.specs.Fitting.{public_of};
ghost use Rattle.move_plan.specs.Noting.{note_of};
ghost use Rattle.log_visits.specs.Asking.{Asking, ToAudit, ToList, ToOpen, asked_log, verdict};
ghost use Rattle.log_visits.specs.Judging.{Failure, OfBytes};
ghost use Rattle.public_fold.specs.Told.{told_store};

/// Law: fewer bytes than a header are no store, whoever asks for whatever.
pub fn cut_header_is_no_store()
    ensures { (asking : Asking) (bytes : List ℕ) → length bytes < header_len → verdict asking bytes ≡ Some (OfBytes NotAStore) }
{}

/// Law: the verdict hangs on the log that is read, and on nothing else in the bytes; so what follows the log's closed
/// gate, where the log was read, changes nothing.
pub fn verdict_is_of_the_log()
    ensures log { (asking : Asking) (a b : List ℕ) → asked_log asking a ≡ asked_log asking b → verdict asking a ≡ verdict asking b }
    ensures behind { (asking : Asking) (front behind : List ℕ) (placed : List PlainPlaced) → asked_log asking front ≡ Ok placed
        → verdict asking (front ++ behind) ≡ verdict asking front }
{}

/// Law: what ends an audit before it opens a record ends a listing, and the opening of a path, with the same answer.
pub fn audit_reads_as_views_do()
    ensures { (bundle : Bundle) (path bytes : List ℕ) (failure : Failure) → verdict (ToAudit bundle) bytes ≡ Some failure →
        (verdict (ToList bundle) bytes ≡ Some failure) × (verdict (ToOpen bundle path) bytes ≡ Some failure) }
{}

/// Law: what a note tells everyone of a store is what its command does to it, for each command that is accepted.
pub fn notes_tell_what_commands_do()
    ensures { (s : Store) (r : Request) (key check : List ℕ) (file_bytes : ℕ) → refusal_of s r file_bytes ≡ None →
        public_of (effect s r key) ≡ told_store (public_of s) (note_of s r check) }
{}
