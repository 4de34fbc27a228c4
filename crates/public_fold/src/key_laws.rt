//! Laws of the keys of a journal.
ghost use Rattle.std.specs.Prelude.{◌≤◌, IsTrue};
ghost use Rattle.cry_base.specs.Limits.{most_store_bytes};
ghost use Rattle.cry_base.specs.Sets.{In};
ghost use Rattle.public_fold.specs.Journal.{Journal, nothing, keys_of, steps_of, store_of};
ghost use Rattle.public_fold.specs.KeyStep.{Stepped};
ghost use Rattle.public_fold.specs.Keyed.{KeysHold, LeavesClean, SerialsHold, links_of};
ghost use Rattle.public_fold.specs.StandFits.{all_fit};
ghost use Rattle.public_fold.specs.Valid.{IsValid};

/// After each entry of a valid journal what is dirty is so with all behind it, and no root is; each edge has a link among
/// those published so far, from the present key of its source to the present key of its target; and exactly the owner, the
/// holders that were made, and the roles of what stands have keys.
pub fn keys_hold_in_journals()
    ensures { (m : Journal) → IsValid m → KeysHold (store_of m) (keys_of m) (links_of (steps_of m)) }
{}

/// After each entry of a valid journal the present keys' serials are all different and below the next one, and the count of
/// an epoch stays within the store's limit in bytes, so it never runs over.
pub fn serials_hold_in_journals()
    ensures serials { (m : Journal) → IsValid m → SerialsHold (keys_of m) }
    ensures count { (m : Journal) → IsValid m → (keys_of m).count ≤ most_store_bytes }
{}

/// No link of a valid journal leaves a key whose role is dirty after the command that published it.
pub fn links_leave_clean_keys()
    ensures { (m : Journal) → IsValid m → (step : Stepped) → In step (steps_of m) → LeavesClean step }
{}

/// Each entry of a valid journal fits what stands before it: its note fits the store, an epoch was begun, and the epoch's
/// number and its count of serials stay below 2^32 - 1.
pub fn entries_fit_in_journals()
    ensures { (m : Journal) → IsValid m → IsTrue (all_fit nothing m) }
{}
