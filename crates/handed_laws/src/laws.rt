//! Laws of all that a disk is handed: a batch that was given up stays masked.
ghost use Rattle.std.specs.Prelude.{◌≡◌, ◌≢◌, ◌++◌, ℕ, List, [], ◌∷◌, All, Option, Some};
ghost use Rattle.batch_log.specs.Moments.{FromThenOn};
ghost use Rattle.cli_base.specs.declared.status.Status.{Status};
ghost use Rattle.cli_making.specs.Generating.{Generates};
ghost use Rattle.commit_journal.specs.Image.{Batch, batch_veil, empty_slot};
ghost use Rattle.commit_journal.specs.Standing.{HasSizes, StandsWhole};
ghost use Rattle.journal_bytes.specs.Bytes.{batches_of};
ghost use Rattle.journal_bytes.specs.Journals.{HoldsBetween, StandsForJournal};
ghost use Rattle.key_links.specs.Fresh.{piece};
ghost use Rattle.public_fold.specs.Journal.{Journal};
ghost use Rattle.stop_laws.specs.Runs.{CallOver, IsLeft, Runs, WasShown};
ghost use Rattle.store_owner.specs.Making.{made_with, root_keys};
ghost use Rattle.store_owner.specs.Published.{StaysPublished};
ghost use Rattle.handed_laws.specs.Unveiled.{CallUnveils, KeepsUnveiled, ScriptUnveils};

use cry_io::Disk;

/// Law: whatever a call of the program hands the disk, each batch whose veil key is among it is one that the list shown then publishes; and
/// so is each that the disk showed when the call began, behind slots that are filled.
pub fn calls_unveil_what_they_publish<D: Disk>(start: &D, before: &D, after: &D)
    ensures { (key : List ℕ) (m1 m2 : Journal) → HoldsBetween key m1 m2 (D.shown start.now) (D.may_leave start.now) →
        Runs D.Disk key start.now before.now → (call : CallOver D.Disk key before.now after.now) →
        (x s left : List ℕ) → D.shown before.now ≡ Some x → D.since after.now (D.moment before.now) s left →
        CallUnveils D.Disk key before.now after.now call x s }
{}

/// Law: over every list of calls and stops, whatever is left in the end stands for a journal with all batches that any list published which
/// the disk showed at any moment. By the law before these are all whose veil keys were handed over; and of that journal no holder derives
/// more than revocation secrecy allows, nor, in a store of version 2, than strict departures do. So a batch that was handed over and given
/// up, behind a stop or a fault, stays masked for good.
pub fn unveiled_batches_keep_secrets<D: Disk>(start: &D, before: &D, after: &D, next: &D, last: &D)
    ensures ends { (key : List ℕ) (m1 m2 : Journal) → HoldsBetween key m1 m2 (D.shown start.now) (D.may_leave start.now) →
        StaysPublished key (D.shown start.now) (D.may_leave start.now) →
        (runs : Runs D.Disk key start.now before.now) (shown bytes : List ℕ) →
        WasShown D.Disk key start.now before.now runs shown → D.may_leave before.now bytes → KeepsUnveiled key shown bytes }
    ensures later { (key : List ℕ) (m1 m2 : Journal) → HoldsBetween key m1 m2 (D.shown start.now) (D.may_leave start.now) →
        StaysPublished key (D.shown start.now) (D.may_leave start.now) →
        Runs D.Disk key start.now before.now → CallOver D.Disk key before.now after.now →
        FromThenOn D.moment D.since before.now after.now (λ shown left. (bytes : List ℕ) → IsLeft D.Disk left next.now →
        Runs D.Disk key next.now last.now → D.may_leave last.now bytes → KeepsUnveiled key shown bytes) }
{}

/// Law: so it is with `gen`, from the moment on at which its store stood: what its lines hand the disk, and what a stop in them leaves.
pub fn generated_scripts_keep_secrets<D: Disk>()
    ensures { (status : Status) (seed count : ℕ) (left_before left_after written_before written_after : Option (List ℕ)) (before after : D)
        (made : Generates D.Disk status seed count left_before left_after before after written_before written_after)
        (x y : List ℕ) → D.shown made.start ≡ Some x → D.shown after ≡ Some y →
        ScriptUnveils D.Disk (piece made.hands.drawn 0) (made_with (root_keys made.hands.drawn)) x made.start after }
{}

/// Law: a call that hands over a veil key before a stop is sure to leave the batch breaks this. Where the disk shows the batch behind its
/// open gate, with its veil key, and a stop leaves the journal without it, what is left doesn't have what was shown.
pub fn early_veils_break_it()
    ensures { (key : List ℕ) (m : Journal) (b : Batch) (shown left : List ℕ) → All HasSizes (batches_of key m ++ b ∷ []) →
        batch_veil key b ≢ empty_slot → StandsWhole key (batches_of key m ++ b ∷ []) shown → StandsForJournal key m left →
        KeepsUnveiled key shown left → ⊥ }
{}
