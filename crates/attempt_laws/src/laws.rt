//! Laws of all attempts, those that a stop or a fault cut short included.
ghost use Rattle.std.specs.Prelude.{◌≡◌, ◌≤◌, ℕ, List, [], ◌∷◌, ◌++◌, length, map, None, Some};
ghost use Rattle.cry_base.specs.Limits.{most_file_bytes, most_store_bytes};
ghost use Rattle.cry_base.specs.Requests.{Request};
ghost use Rattle.cry_base.specs.declared.limits.Limits.{Limits};
ghost use Rattle.public_fold.specs.Journal.{Entry, Journal, entry_step, nothing, stand_after};
ghost use Rattle.public_fold.specs.Journal.Entry.{Made, Session};
ghost use Rattle.public_fold.specs.Valid.{IsValid, IsVersion};
ghost use Rattle.journal_bytes.specs.Attempts.{Course, Event, attempts};
ghost use Rattle.journal_bytes.specs.Bytes.{batches_of};
ghost use Rattle.journal_bytes.specs.Script.{Going, script_going};
ghost use Rattle.attempt_laws.specs.Happenings.{IsCourse};
ghost use Rattle.attempt_laws.specs.Scripted.{HasDraws, course_of, script_events};
ghost use Rattle.attempt_laws.specs.Spent.{Differ, all_spenders, number_of};
ghost use Rattle.attempt_laws.specs.Trials.{Befalls, Happening, MaskOnePayload, ShareWithThemselves, Trial, all_trials, attempt_of};
ghost use Rattle.attempt_laws.specs.Trials.{batch_in, course_after, made_course, trials};

/// The attempts of some events are the batches that are written then, as attempts, and before them stand the two of making the
/// store. A batch has the epoch and the number of its attempt, and the batch of an entry that enters is the next one of its journal.
pub fn attempts_are_the_batches_written()
    ensures attempts { (c : Course) (events : List Event) → attempts c events ≡ map attempt_of (trials c (map Befalls events)) }
    ensures made { (version : ℕ) (keys : List (List ℕ)) (events : List Event)
        → map attempt_of (all_trials version keys (map Befalls events))
        ≡ record { epoch = 1; number = 1; holds = None }
        ∷ record { epoch = 1; number = 2; holds = Some (entry_step (stand_after nothing (Session ∷ [])) (Made version keys)) }
        ∷ attempts (made_course version keys) events }
    ensures epoch { (owner : List ℕ) (t : Trial) → (batch_in owner t).epoch ≡ (attempt_of t).epoch }
    ensures number { (owner : List ℕ) (t : Trial) → (batch_in owner t).number ≡ (attempt_of t).number }
    ensures entered { (owner : List ℕ) (m : Journal) (entry : Entry) →
        batches_of owner (m ++ entry ∷ []) ≡ batches_of owner m ++ batch_in owner (record { behind = m; entry = entry }) ∷ [] }
{}

/// What a script does to a store, where the random bytes are enough, can happen there: its commands are refused or enter, and
/// leave the course where the script's session stands.
pub fn scripts_are_courses()
    ensures course { (limits : Limits) (g : Going) (lines : List Request) → HasDraws limits g lines
        → IsCourse limits (course_of g) (script_events limits g lines) }
    ensures after { (limits : Limits) (g : Going) (lines : List Request) →
        course_after (course_of g) (script_events limits g lines) ≡ course_of (script_going limits g lines) }
{}

/// Whatever can happen to a store of either version leaves a valid journal.
pub fn courses_leave_valid_journals()
    ensures { (limits : Limits) (version : ℕ) (keys : List (List ℕ)) (later : List Happening)
        → limits.store_bytes ≤ most_store_bytes → limits.file_bytes ≤ most_file_bytes
        → IsVersion version → length keys ≡ 5 → IsCourse limits (made_course version keys) later
        → IsValid (course_after (made_course version keys) later).journal }
{}

/// Every nonce is spent once: whatever can happen to a store of either version, no two of all attempts' keys and records have one number,
/// those of the making of the store included.
pub fn numbers_are_spent_once()
    ensures { (limits : Limits) (version : ℕ) (keys : List (List ℕ)) (later : List Happening)
        → limits.store_bytes ≤ most_store_bytes → limits.file_bytes ≤ most_file_bytes
        → IsVersion version → length keys ≡ 5 → IsCourse limits (made_course version keys) later
        → Differ number_of (all_spenders (map attempt_of (all_trials version keys later))) }
{}

/// A veil key masks one payload: two batches of all that were written with one epoch and one number are one, or both begin an epoch
/// behind the same journal. Whatever the owner's key, their payloads are equal, masked or not.
pub fn veil_keys_mask_one_payload()
    ensures once { (version : ℕ) (keys : List (List ℕ)) (later : List Happening) → ShareWithThemselves (all_trials version keys later) }
    ensures payload { (owner : List ℕ) (version : ℕ) (keys : List (List ℕ)) (later : List Happening)
        → MaskOnePayload owner (all_trials version keys later) }
{}
