//! Laws of an upgrade that comes next in a journal.
ghost use Rattle.std.specs.Prelude.{◌≡◌, ◌*◌, ◌<◌, ◌≤◌, ◌^◌, Bool, List, false, length, not, ℕ};
ghost use Rattle.cry_base.specs.Limits.{most_store_bytes};
ghost use Rattle.record_format.specs.Noted.Note.{Upgrade};
ghost use Rattle.public_fold.specs.Fitted.{told_step};
ghost use Rattle.public_fold.specs.Journal.{Journal, entry_step, keys_of, nothing, stand_after};
ghost use Rattle.public_fold.specs.Journal.Entry.{Upgraded};
ghost use Rattle.public_fold.specs.Lengths.{end_of};
ghost use Rattle.public_fold.specs.Preparing.{begun};
ghost use Rattle.public_fold.specs.StandFits.{note_fits};
ghost use Rattle.public_fold.specs.Valid.{IsValid};
ghost use Rattle.journal_bytes.specs.Folds.{public_stand};
ghost use Rattle.journal_bytes.specs.Sealing.{IsSealable};
ghost use Rattle.journal_bytes.specs.Upgrading.{upgrade_draws, upgrade_end, upgraded_then};

/// Law: a valid journal of version 1 is valid with an upgrade too, where its log ends within the store limit; it ends where it is due, and
/// its keys are few. Where its note doesn't fit, the log would end past the largest store.
pub fn upgrades_may_come_next()
    ensures valid { (m : Journal) (has_begun : Bool) (drawn : List (List ℕ)) → IsValid m → (keys_of m).version ≡ 1
        → length drawn ≡ upgrade_draws m → upgrade_end m has_begun ≤ most_store_bytes → IsValid (upgraded_then m has_begun drawn) }
    ensures end { (m : Journal) (has_begun : Bool) (drawn : List (List ℕ))
        → end_of (upgraded_then m has_begun drawn) ≡ upgrade_end m has_begun }
    ensures few { (m : Journal) (has_begun : Bool) → IsValid m → upgrade_end m has_begun ≤ most_store_bytes
        → 32 * upgrade_draws m < 2 ^ 32 }
    ensures fits { (m : Journal) (has_begun : Bool) → IsValid m → (keys_of m).version ≡ 1
        → note_fits (begun (not has_begun) (public_stand m)) Upgrade (told_step (begun (not has_begun) (public_stand m)) Upgrade) ≡ false
        → most_store_bytes < upgrade_end m has_begun }
{}

/// Law: the step of an upgrade can be sealed, in every valid journal.
pub fn upgrades_can_be_sealed()
    ensures { (m : Journal) (drawn : List (List ℕ)) → IsValid m → IsSealable (entry_step (stand_after nothing m) (Upgraded drawn)) }
{}
