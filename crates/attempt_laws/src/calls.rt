//! Laws of what the owner's calls make happen: each takes the clause of a call to the event that it makes.
ghost use Rattle.std.specs.Prelude.{◌≡◌, ℕ, List, [], ◌∷◌, ◌++◌, Option, Result};
ghost use Rattle.commit_journal.specs.Handing.{header_writes};
ghost use Rattle.commit_journal.specs.Journals.{IsJournalOf, JournalState, next_command, next_epoch};
ghost use Rattle.cry_base.specs.declared.commands.Reply.{Reply};
ghost use Rattle.cry_base.specs.declared.limits.Limits.{Limits};
ghost use Rattle.record_format.specs.Plain.{PlainPayload};
ghost use Rattle.record_format.specs.Spelling.{spell_payload};
ghost use Rattle.public_fold.specs.Journal.{Entry, Journal, nothing, stand_after};
ghost use Rattle.public_fold.specs.Journal.Entry.{Session};
ghost use Rattle.journal_bytes.specs.Attempts.{Course};
ghost use Rattle.journal_bytes.specs.Attempts.Event.{Reopens};
ghost use Rattle.journal_bytes.specs.Bytes.{batches_of, entry_body};
ghost use Rattle.journal_bytes.specs.Keys.{all_keys};
ghost use Rattle.commit_journal.specs.Placed.{Commands};
ghost use Rattle.key_links.specs.Fresh.{made_version, piece};
ghost use Rattle.store_owner.specs.Applying.{Answers};
ghost use Rattle.store_owner.specs.Making.{IsMade, fresh_writes, root_keys};
ghost use Rattle.store_owner.specs.Opened.{IsFresh};
ghost use Rattle.store_owner.specs.Deeds.{Deed, Suits};
ghost use Rattle.store_owner.specs.Owned.{IsOwnerOf, OwnerView, limits_in};
ghost use Rattle.store_owner.specs.Stopping.{RestsAt};
ghost use Rattle.store_owner.specs.declared.apply_fault.ApplyFault.{ApplyFault};
ghost use Rattle.attempt_laws.specs.Calls.{GoesOnAt, HandsTrials, LeavesCourse, StandsOn};
ghost use Rattle.attempt_laws.specs.Happenings.{IsCourse};
ghost use Rattle.attempt_laws.specs.Trials.{Befalls, Happening, all_trials, batch_in, course_after, course_behind, made_course};
ghost use Rattle.attempt_laws.specs.Trials.{trial_writes, trials};

use cry_io::Disk;

/// The batch that `Journal::begin_epoch` writes, whatever it answers, is that of the attempt to begin the session's epoch behind the
/// journal; and the batch that `Journal::commit` writes is that of the entry whose payload it is given.
pub fn commits_are_attempts()
    ensures epoch { (owner : List ℕ) (m : Journal) (j : JournalState) → IsJournalOf (batches_of owner m) j →
        next_epoch j ≡ batch_in owner (record { behind = m; entry = Session }) }
    ensures command { (owner : List ℕ) (m : Journal) (entry : Entry) (j : JournalState) (payload : PlainPayload) →
        IsJournalOf (batches_of owner m) j →
        entry_body (all_keys owner (m ++ entry ∷ [])) (stand_after nothing m) entry ≡ Commands payload →
        next_command j (spell_payload payload) ≡ batch_in owner (record { behind = m; entry = entry }) }
{}

/// The owner of a store that was just made stands where the store's course begins. What the disk was handed for it is the header and the
/// batches of the two first trials.
pub fn made_stores_begin_a_course()
    ensures writes { (drawn : List ℕ) →
        fresh_writes drawn ≡ header_writes (piece drawn 0) ++ trial_writes (piece drawn 0) (all_trials made_version (root_keys drawn) []) }
    ensures owner { (drawn : List ℕ) (limits : Limits) (o : OwnerView) → IsMade drawn limits o
        → StandsOn (made_course made_version (root_keys drawn)) o }
{}

/// Who opened a store for writing that stands for a course's journal stands on the course that goes on behind `Reopens`.
pub fn opened_stores_reopen()
    ensures { (c : Course) (key : List ℕ) (limits : Limits) (o : OwnerView) → IsOwnerOf c.journal o
        → IsFresh key limits.store_bytes limits.file_bytes o → StandsOn (course_behind c (Befalls Reopens)) o }
{}

/// A call of `Owner::apply` makes one event of its command happen, or none, and one of `Owner::upgrade` one of its upgrade; and the owner
/// stands behind it; or the disk failed, and the owner is closed. Of a disk that rested at the course's journal, whatever a stop leaves, at
/// each moment of the call and whatever that answers, is the journal behind one of these events, which can happen there.
pub fn deeds_are_attempts<D: Disk>(before: &D, after: &D)
    ensures goes_on { (c : Course) (d : Deed) (result : Result Reply ApplyFault) (old new : OwnerView)
        (left_before left_after : Option (List ℕ)) → StandsOn c old → Suits old.state.keys d →
        Answers result c.journal d old new left_before left_after (D.shown before.now) (D.shown after.now)
        (D.may_leave before.now) (D.may_leave after.now) (D.since after.now (D.moment before.now)) → GoesOnAt result c d old new }
    ensures moments { (c : Course) (d : Deed) (result : Result Reply ApplyFault) (old new : OwnerView)
        (left_before left_after : Option (List ℕ)) → StandsOn c old → Suits old.state.keys d →
        Answers result c.journal d old new left_before left_after (D.shown before.now) (D.shown after.now)
        (D.may_leave before.now) (D.may_leave after.now) (D.since after.now (D.moment before.now)) →
        RestsAt old.key c.journal (D.shown before.now) (D.may_leave before.now) →
        (s bytes : List ℕ) → D.since after.now (D.moment before.now) s bytes → LeavesCourse (limits_in old) old.key c d bytes }
    ensures left { (c : Course) (d : Deed) (result : Result Reply ApplyFault) (old new : OwnerView)
        (left_before left_after : Option (List ℕ)) → StandsOn c old → Suits old.state.keys d →
        Answers result c.journal d old new left_before left_after (D.shown before.now) (D.shown after.now)
        (D.may_leave before.now) (D.may_leave after.now) (D.since after.now (D.moment before.now)) →
        RestsAt old.key c.journal (D.shown before.now) (D.may_leave before.now) →
        (bytes : List ℕ) → D.may_leave after.now bytes → LeavesCourse (limits_in old) old.key c d bytes }
{}

/// A call of `Owner::apply` or `Owner::upgrade`, whatever it answers, hands the disk the batches of one event of its command or upgrade
/// that can happen there, or none, and nothing else: each staged, opened and published. So what the laws say of all attempts they say of
/// all that the disk was handed.
pub fn deeds_hand_over_attempts<D: Disk>(before: &D, after: &D)
    ensures { (c : Course) (d : Deed) (result : Result Reply ApplyFault) (old new : OwnerView)
        (left_before left_after : Option (List ℕ)) → StandsOn c old → Suits old.state.keys d →
        Answers result c.journal d old new left_before left_after (D.shown before.now) (D.shown after.now)
        (D.may_leave before.now) (D.may_leave after.now) (D.since after.now (D.moment before.now)) →
        HandsTrials (limits_in old) old.key c d (D.shown before.now) (D.shown after.now) (D.since after.now (D.moment before.now)) }
{}

/// Calls add up: what can happen, and then what can happen behind that, can happen one after the other; and all batches that were written
/// are those of the first and then those of the others.
pub fn courses_go_on()
    ensures course { (limits : Limits) (c : Course) (first more : List Happening) → IsCourse limits c first
        → IsCourse limits (course_after c first) more → IsCourse limits c (first ++ more) }
    ensures after { (c : Course) (first more : List Happening) → course_after c (first ++ more) ≡ course_after (course_after c first) more }
    ensures written { (c : Course) (first more : List Happening) →
        trials c (first ++ more) ≡ trials c first ++ trials (course_after c first) more }
{}
