//! Laws of opening for writing: what is opened, of which bytes.
ghost use Rattle.std.specs.Prelude.{◌≡◌, ◌≤◌, ◌⊎◌, List, ℕ, Ok, Some, drop, is_some, length};
ghost use Rattle.cry_base.specs.Layout.{header_len};
ghost use Rattle.cry_base.specs.Limits.{most_store_bytes};
ghost use Rattle.cry_io.specs.Stops.{IsDurable};
ghost use Rattle.cry_io.specs.Told.{WhereBothTold};
ghost use Rattle.commit_journal.specs.declared.fault.OpenFault.{OpenFault};
ghost use Rattle.commit_journal.specs.declared.fault.OpenFault.TheVariants as faults;
ghost use Rattle.commit_journal.specs.declared.opening.Opened.{Opened};
ghost use Rattle.commit_journal.specs.Answering.{IsFault, and_then};
ghost use Rattle.commit_journal.specs.Holding.{IsSettled};
ghost use Rattle.commit_journal.specs.Image.{image};
ghost use Rattle.commit_journal.specs.Journals.{IsJournalOf};
ghost use Rattle.commit_journal.specs.Laws.{batches_from, placed_from};
ghost use Rattle.commit_journal.specs.Logs.{writer_log};
ghost use Rattle.commit_journal.specs.Opening.{IsOpened, OwnedLog, opening_verdict, plain_opened, slots_filled};
ghost use Rattle.commit_journal.specs.Placed.{PlainBody, plain_log};
ghost use Rattle.commit_journal.specs.Standing.{StandsFor, StandsWhole};
ghost use Rattle.commit_journal.specs.WholeLogs.{StandsWithin, whole_log};

use cry_io::Disk;

/// Law: within the largest store, the batches that are opened, or the fault, are those that the owner reads who opens for
/// writing.
pub fn owner_opens_the_writers_log()
    ensures { (owner bytes : List ℕ) → and_then (opening_verdict most_store_bytes owner bytes) (λ (log : OwnedLog). Ok log.placed)
        ≡ writer_log owner bytes }
{}

/// Law: bytes that stand for batches within the store limit are opened as the log of these very batches, whatever the last
/// slot holds.
pub fn standing_bytes_are_opened_as_their_log()
    ensures { (limit : ℕ) (owner : List ℕ) (bodies : List PlainBody) (bytes : List ℕ) → limit ≤ most_store_bytes
        → StandsWithin limit owner bodies bytes →
        opening_verdict limit owner bytes ≡ Ok (whole_log owner bodies) }
{}

/// Law: with the slot of each batch filled, bytes that stand for batches stand for them as a whole.
pub fn filled_bytes_stand_whole()
    ensures { (owner : List ℕ) (bodies : List PlainBody) (bytes : List ℕ) → StandsFor owner (batches_from 0 0 bodies) bytes →
        StandsWhole owner (batches_from 0 0 bodies) (slots_filled owner (placed_from header_len 0 0 bodies) bytes) }
{}

/// Law: filling the slots of bytes that stand for batches leaves the gate behind these, and all that stands behind it.
pub fn filled_bytes_keep_the_rest()
    ensures { (owner : List ℕ) (bodies : List PlainBody) (bytes : List ℕ) → StandsFor owner (batches_from 0 0 bodies) bytes →
        let end = length (image owner (batches_from 0 0 bodies)) in drop end (slots_filled owner (placed_from header_len 0 0 bodies) bytes)
        ≡ drop end bytes }
{}

/// Law: a log that is opened within any store limit is the one that the owner reads who opens for writing.
pub fn opened_batches_are_the_writers()
    ensures { (limit : ℕ) (owner bytes : List ℕ) (log : OwnedLog) → opening_verdict limit owner bytes ≡ Ok log
        → writer_log owner bytes ≡ Ok log.placed }
{}

/// Law: a journal that was opened on bytes which stand for batches stands for these very batches. They are what was opened
/// with it, and with their slots filled the bytes stand for them as a whole.
pub fn opened_journal_stands_for_its_batches()
    ensures journal { (limit : ℕ) (owner : List ℕ) (bodies : List PlainBody) (bytes : List ℕ) (o : Opened) → limit ≤ most_store_bytes
        → StandsWithin limit owner bodies bytes →
        opening_verdict limit owner bytes ≡ Ok (plain_opened o) → IsOpened owner limit o.journal
        → IsJournalOf (batches_from 0 0 bodies) o.journal }
    ensures placed { (limit : ℕ) (owner : List ℕ) (bodies : List PlainBody) (bytes : List ℕ) (o : Opened) → limit ≤ most_store_bytes
        → StandsWithin limit owner bodies bytes →
        opening_verdict limit owner bytes ≡ Ok (plain_opened o) → plain_log o.placed ≡ placed_from header_len 0 0 bodies }
    ensures filled { (limit : ℕ) (owner : List ℕ) (bodies : List PlainBody) (bytes : List ℕ) (o : Opened) → limit ≤ most_store_bytes
        → StandsWithin limit owner bodies bytes →
        opening_verdict limit owner bytes ≡ Ok (plain_opened o)
        → StandsWhole owner (batches_from 0 0 bodies) (slots_filled owner (plain_log o.placed) bytes) }
{}

/// Law: bytes that stand for batches within the store limit are opened, if the disk doesn't fail and memory is not wanting.
pub fn standing_bytes_are_never_refused()
    ensures { (limit : ℕ) (owner : List ℕ) (bodies : List PlainBody) (bytes : List ℕ) (fault : OpenFault) → limit ≤ most_store_bytes
        → StandsWithin limit owner bodies bytes →
        IsFault fault (opening_verdict limit owner bytes) → (fault ≡ faults.DiskFault) ⊎ (fault ≡ faults.OutOfMemory) }
{}

/// Law: a disk that stood for batches is settled at these very batches once it was opened: it shows them as a whole, and a
/// stop leaves nothing else.
pub fn opened_disk_is_settled<D: Disk>(before: &D, after: &D)
    ensures { (limit : ℕ) (owner : List ℕ) (bodies : List PlainBody) (bytes : List ℕ) (o : Opened) → limit ≤ most_store_bytes
        → StandsWithin limit owner bodies bytes →
        D.shown before.now ≡ Some bytes → opening_verdict limit owner bytes ≡ Ok (plain_opened o) →
        WhereBothTold (D.shown before.now) (D.shown after.now) (λ x y. y ≡ slots_filled owner (plain_log o.placed) x) →
        is_some (D.shown after.now) ≡ is_some (D.shown before.now) → IsDurable (D.may_leave after.now) (D.shown after.now) →
        IsSettled (StandsWhole owner) (batches_from 0 0 bodies) (D.shown after.now) (D.may_leave after.now) }
{}
