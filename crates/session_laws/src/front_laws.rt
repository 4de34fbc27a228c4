//! Laws of a log that was read up to some batch, in bytes to which more was added since.
ghost use Rattle.std.specs.Prelude.{◌≡◌, ◌+◌, ◌<◌, ◌++◌, ◌∷◌, [], List, Ok, length, take, ℕ};
ghost use Rattle.commit_journal.specs.Log.{PlainTurn};
ghost use Rattle.commit_journal.specs.Logs.{holder_log};
ghost use Rattle.commit_journal.specs.Streaming.{LogState, ShowsGiven};
ghost use Rattle.journal_bytes.specs.Folds.{log_of};
ghost use Rattle.journal_bytes.specs.Keys.{AreWhole};
ghost use Rattle.public_fold.specs.Journal.{Journal};
ghost use Rattle.public_fold.specs.Valid.{IsValid};
ghost use Rattle.read_steps.specs.Steps.{next_batch};
ghost use Rattle.session_laws.specs.Fronts.{IsFront};

/// Law: whoever read the first batches of a journal without a key reads on in any bytes whose log is the journal's, whatever was
/// added since. They show these batches as they were given, and where one is left, it comes next.
pub fn fronts_are_read_on()
    ensures shows { (owner : List ℕ) (m : Journal) (k : ℕ) (log : LogState) (bytes : List ℕ) → IsValid m → AreWhole owner m
        → holder_log bytes ≡ Ok (log_of owner m) → IsFront owner m k log → ShowsGiven log bytes }
    ensures next { (owner : List ℕ) (m : Journal) (k : ℕ) (log : LogState) (bytes : List ℕ) → IsValid m → AreWhole owner m
        → holder_log bytes ≡ Ok (log_of owner m) → IsFront owner m k log → k < length m
        → (turn : PlainTurn) × (next_batch log bytes ≡ Ok turn) × (log.given ++ turn.placed ∷ [] ≡ take (k + 1) (log_of owner m)) }
    ensures stays { (owner : List ℕ) (m more : Journal) (k : ℕ) (log : LogState) → IsFront owner m k log → IsFront owner (m ++ more) k log }
{}
