//! What everyone can follow of a journal: laws and worked rows of the fold over its payloads.
ghost use Rattle.std.specs.Prelude.{◌≡◌, ℕ, List, Ok};
ghost use Rattle.record_format.specs.Told.{told_note};
ghost use Rattle.record_format.specs.Noted.{Note};
ghost use Rattle.public_fold.specs.WorkedSteps.{rewriting, granting, writing_again, renaming_again, moving_away};
ghost use Rattle.record_format.specs.declared.note.Note.{Note as Declared};
ghost use Rattle.journal_bytes.specs.Folds.{fold_of, public_stand};
ghost use Rattle.journal_bytes.specs.Notes.{declared_note};
ghost use Rattle.journal_bytes.specs.WorkedFolds.{dropping_soon};

/// Law: a note of the model and the note of a payload are one: each is told from the other.
pub fn notes_are_told_as_declared()
    ensures told { (note : Note) → told_note (declared_note note) ≡ note }
    ensures declared { (note : Declared) → declared_note (told_note note) ≡ note }
{}

/// The payloads of each worked journal fit, and make what stands after it: its store without names, bytes and holders'
/// keys, and its keys with their serials and marks.
#[tactic(auto, unfolding(crate::specs::WorkedFolds::folds))]
pub fn worked_journals_are_followed()
    ensures rewriting { (owner : List ℕ) → fold_of owner rewriting ≡ Ok (public_stand rewriting) }
    ensures granting { (owner : List ℕ) → fold_of owner granting ≡ Ok (public_stand granting) }
    ensures writing_again { (owner : List ℕ) → fold_of owner writing_again ≡ Ok (public_stand writing_again) }
    ensures renaming_again { (owner : List ℕ) → fold_of owner renaming_again ≡ Ok (public_stand renaming_again) }
    ensures moving_away { (owner : List ℕ) → fold_of owner moving_away ≡ Ok (public_stand moving_away) }
    ensures dropping_soon { (owner : List ℕ) → fold_of owner dropping_soon ≡ Ok (public_stand dropping_soon) }
{}
