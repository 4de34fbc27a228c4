//! Laws of when the records of a step can be sealed.
ghost use Rattle.std.specs.Prelude.{◌≡◌, ◌+◌, ◌<◌, ◌≤◌, ◌^◌, ℕ, IsTrue, List, None, length, true};
ghost use Rattle.chacha_seal.specs.Keys.{KeyParts};
ghost use Rattle.chacha_seal.specs.Serials.{Counting};
ghost use Rattle.cry_base.specs.Refusing.{refusal_in, refusal_of};
ghost use Rattle.cry_base.specs.Requests.{Request};
ghost use Rattle.cry_base.specs.Sets.{In};
ghost use Rattle.cry_base.specs.Store.{Store};
ghost use Rattle.key_links.specs.Ringed.{Ringed};
ghost use Rattle.move_plan.specs.Noting.{note_of};
ghost use Rattle.record_format.specs.Noted.{Note};
ghost use Rattle.public_fold.specs.Fitted.{told_step};
ghost use Rattle.public_fold.specs.Heads.{IsSkeleton};
ghost use Rattle.public_fold.specs.Journal.{Journal, Stand, entry_step, keys_of, note_step, nothing, stand_after, store_of};
ghost use Rattle.public_fold.specs.Journal.Entry.{Did};
ghost use Rattle.public_fold.specs.KeyStep.{KeyState, is_strict, next_epoch, next_serial};
ghost use Rattle.public_fold.specs.Records.{Link};
ghost use Rattle.public_fold.specs.StandFits.{note_fits};
ghost use Rattle.public_fold.specs.Turns.{StandHolds, Turn, turns_fit, turns_stand};
ghost use Rattle.public_fold.specs.Valid.{IsValid};
ghost use Rattle.public_fold.specs.declared.heads.Skeleton.{Skeleton};
ghost use Rattle.journal_bytes.specs.Folds.{public_stand};
ghost use Rattle.journal_bytes.specs.Keys.{all_keys};
ghost use Rattle.journal_bytes.specs.Sealing.{CanSeal, HasLength, HoldsKeys, IsSealable, IsTold};

/// Law: the step of a command that isn't refused can be sealed, in every valid journal: each role gets one key, and each
/// record is of a kind that there is, under keys that are present after the step.
pub fn commands_can_be_sealed()
    ensures { (m : Journal) → IsValid m → (request : Request) (drawn : List (List ℕ)) (file_bytes : ℕ)
        → refusal_in (is_strict (keys_of m)) (store_of m) request file_bytes ≡ None
        → IsSealable (entry_step (stand_after nothing m) (Did request drawn)) }
{}

/// Law: the step of a note that fits can be sealed from any stand for which all holds, with whatever links.
pub fn steps_can_be_sealed_where_all_holds()
    ensures { (at : Stand) (links : List Link) (note : Note) → StandHolds at links → note_fits at note (told_step at note) ≡ true
        → IsSealable (told_step at note) }
{}

/// Law: the step of a note that fits can be sealed, after whatever turns that fit.
pub fn fitting_steps_can_be_sealed()
    ensures { (turns : List Turn) (note : Note) → IsTrue (turns_fit nothing turns)
        → note_fits (turns_stand nothing turns) note (told_step (turns_stand nothing turns) note) ≡ true
        → IsSealable (told_step (turns_stand nothing turns) note) }
{}

/// Law: the records of a step that is told can be sealed by a ring that holds the keys before it, where bytes were drawn for
/// each key, there is room in the ring and in the epoch's count, and the text has a length of its kind's range.
pub fn told_steps_can_be_sealed()
    ensures { (keys : List KeyParts) (at : Stand) (note : Note) (after : Store) (ring : Ringed) (counter : Counting) (s : Skeleton)
        (drawn : List (List ℕ)) (text : List ℕ)
        → HoldsKeys keys at.keys ring counter → IsTold (note_step at note after) s text → (note_step at note after).after.count < 2 ^ 32
        → length drawn ≡ length s.keys.items → length s.keys.items ≤ ring.spare → HasLength (note_step at note after) text
        → CanSeal ring counter s drawn text }
{}

/// Law: all keys that a valid journal ever had have serials below the one that comes next.
pub fn serials_are_below_the_next()
    ensures { (owner : List ℕ) (m : Journal) → IsValid m → (key : KeyParts) → In key (all_keys owner m)
        → key.serial < next_serial (keys_of m) }
{}

/// Law: the skeleton that everyone may make of an accepted command's note is that of the command's own step: the two differ
/// in the text alone.
pub fn told_skeletons_are_those_of_commands()
    ensures { (m : Journal) (request : Request) (check : List ℕ) (drawn : List (List ℕ)) (file_bytes : ℕ)
        → refusal_of (store_of m) request file_bytes ≡ None
        → (s : Skeleton) → IsSkeleton (told_step (public_stand m) (note_of (store_of m) request check)) s
        → IsSkeleton (entry_step (stand_after nothing m) (Did request drawn)) s }
{}

/// Law: keys that are held stay held when a session begins the next epoch, by a counter that has given nothing yet.
pub fn held_keys_stay_in_the_next_epoch()
    ensures { (keys : List KeyParts) (k : KeyState) (ring : Ringed) (counter : Counting) → HoldsKeys keys k ring counter → k.count ≤ 2 ^ 32
        → HoldsKeys keys (next_epoch k) ring (record { epoch = k.epoch + 1; count = 0 }) }
{}
