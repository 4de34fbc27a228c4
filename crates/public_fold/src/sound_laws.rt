//! Laws of what stands after payloads that fit, whatever made them: no accepted command need stand behind a note.
ghost use Rattle.std.specs.Prelude.{◌≡◌, ◌⊎◌, Bool, false, IsTrue, List, ◌∷◌, ◌++◌};
ghost use Rattle.cry_base.specs.Store.{Store, no_store};
ghost use Rattle.move_plan.specs.Fitting.{fits};
ghost use Rattle.record_format.specs.Noted.{Note};
ghost use Rattle.record_format.specs.Noted.Note.{Root, StrictRoot};
ghost use Rattle.record_format.specs.Plain.{PlainPayload};
ghost use Rattle.record_format.specs.Told.{told_note};
ghost use Rattle.public_fold.specs.Fitted.{payload_fits, told_stand, told_step};
ghost use Rattle.public_fold.specs.Journal.{Stand, nothing};
ghost use Rattle.public_fold.specs.Keyed.{KeysHold, LeavesClean, SerialsHold};
ghost use Rattle.public_fold.specs.KeyStep.{is_strict, next_epoch};
ghost use Rattle.public_fold.specs.Records.{Content, Link};
ghost use Rattle.public_fold.specs.Rooted.{IsRooted, MayStand};
ghost use Rattle.public_fold.specs.Texts.{AreWritten};
ghost use Rattle.public_fold.specs.Turns.{StandHolds, Turn, turns_fit, turns_links, turns_stand};

/// A note that fits leaves the root, and below it each folder and file in a folder that stands; ids that differ and are not
/// above the count ever made; and grants of holders that were made, on folders and files that stand.
pub fn fitting_notes_leave_the_store_rooted()
    ensures { (at : Stand) (note : Note) → IsTrue (fits (is_strict at.keys) at.store note) → MayStand at.store
        → IsRooted (told_stand at note).store }
{}

/// Where nothing was ever made the two notes that make the root alone fit, and where the root stands neither fits again.
pub fn root_is_made_first_and_once()
    ensures first { (strict : Bool) (note : Note) → IsTrue (fits strict no_store note) → (note ≡ Root) ⊎ (note ≡ StrictRoot) }
    ensures once { (strict : Bool) (s : Store) → IsRooted s → fits strict s Root ≡ false }
    ensures strict_once { (strict : Bool) (s : Store) → IsRooted s → fits strict s StrictRoot ≡ false }
{}

/// A note that fits keeps what holds of the keys, with the links that its step publishes: what is dirty stands, is no root
/// and is so with all behind it; each edge has a link from and to present keys; and exactly the owner, the holders that
/// were made and the roles of what stands have keys.
pub fn fitting_notes_keep_the_keys()
    ensures { (at : Stand) (note : Note) (links : List Link) → IsTrue (fits (is_strict at.keys) at.store note) → MayStand at.store
        → KeysHold at.store at.keys links
        → KeysHold (told_stand at note).store (told_stand at note).keys (links ++ (told_step at note).links) }
{}

/// A note that fits leaves present serials that are all different and below the next one, and no link of its step leaves a
/// key whose role is dirty after it.
pub fn fitting_notes_keep_the_serials()
    ensures serials { (at : Stand) (note : Note) (links : List Link) → IsTrue (fits (is_strict at.keys) at.store note) → MayStand at.store
        → KeysHold at.store at.keys links
        → SerialsHold at.keys → SerialsHold (told_stand at note).keys }
    ensures clean { (at : Stand) (note : Note) (links : List Link) → IsTrue (fits (is_strict at.keys) at.store note) → MayStand at.store
        → KeysHold at.store at.keys links
        → LeavesClean (told_step at note) }
{}

/// Where each folder, file and holder that stands has a content among those published, each has one after a note that fits,
/// with the contents of its step.
pub fn texts_stay_written()
    ensures { (at : Stand) (note : Note) (contents : List Content) → IsTrue (fits (is_strict at.keys) at.store note) → MayStand at.store
        → AreWritten at.store contents
        → AreWritten (told_stand at note).store (contents ++ (told_step at note).contents) }
{}

/// All that holds of a stand lasts through a payload that fits and through a new epoch.
pub fn payloads_and_epochs_keep_what_holds()
    ensures payload { (at : Stand) (p : PlainPayload) (links : List Link) → IsTrue (payload_fits at p) → StandHolds at links
        → StandHolds (told_stand at (told_note p.note)) (links ++ (told_step at (told_note p.note)).links) }
    ensures epoch { (at : Stand) (links : List Link) → StandHolds at links → StandHolds (record at { keys = next_epoch at.keys }) links }
{}

/// All of it holds after any turns, each of which fits where it comes, from nothing on; and so after any log of payloads
/// that fit.
pub fn all_holds_after_turns_that_fit()
    ensures { (first : Turn) (turns : List Turn) → IsTrue (turns_fit nothing (first ∷ turns))
        → StandHolds (turns_stand nothing (first ∷ turns)) (turns_links nothing (first ∷ turns)) }
{}
