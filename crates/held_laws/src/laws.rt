//! Laws of all that runs under heads spend.
ghost use Rattle.std.specs.Prelude.{◌≡◌, ◌⊎◌, List, ℕ};
ghost use Rattle.cry_base.specs.Sets.{In};
ghost use Rattle.journal_bytes.specs.Journals.{StandsWholeForJournal};
ghost use Rattle.log_heads.specs.Published.{leaves_in};
ghost use Rattle.public_fold.specs.Journal.{Journal};
ghost use Rattle.held_laws.specs.Held.{AreHeld, Collides, HeldRun, MakesNoEmptyVeil, SpendOnce, log_left};

use cry_io::Disk;

/// Law: over every list of runs and upgrades, in which each takes a head that the writer took behind the one before, every nonce is spent
/// once, on whatever disks they run, put back or not: of all batches that any of the runs handed its disk, no two keys or records have one
/// number, and what one veil key masks is one payload. Else two different texts among those that are hashed for a head have one SHA-256
/// value. Nothing is asked of who else writes the disks.
pub fn held_runs_spend_numbers_once<D: Disk>()
    ensures { (key : List ℕ) (runs : List (HeldRun D.Disk key)) → MakesNoEmptyVeil key → AreHeld D.Disk key runs →
        SpendOnce D.Disk key runs ⊎ ((run : HeldRun D.Disk key) × In run runs × Collides D.Disk key run) }
{}

/// Law: where no slot is empty, as a run leaves a store that met no fault of the disk, the log that is left is the one that is published.
pub fn settled_stores_are_left_as_shown()
    ensures { (key : List ℕ) (m : Journal) (image : List ℕ) → StandsWholeForJournal key m image
        → log_left key image ≡ leaves_in image }
{}
