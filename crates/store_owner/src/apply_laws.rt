//! Laws of an owner who stands for a journal: what is asked of it takes, and how the owner goes on behind it.
ghost use Rattle.std.specs.Prelude.{◌≡◌, ◌*◌, ◌++◌, ◌<◌, ◌^◌, ◌≤◌, ℕ, List, None, Ok, Option, drop, false, is_some, length, not, replicate};
ghost use Rattle.commit_journal.specs.Holding.{IsBetween};
ghost use Rattle.commit_journal.specs.Journals.{end_with};
ghost use Rattle.commit_journal.specs.Standing.{StandsWhole};
ghost use Rattle.cry_base.specs.Limits.{most_file_bytes, most_store_bytes};
ghost use Rattle.cry_base.specs.declared.commands.Refusal.{Refusal};
ghost use Rattle.cry_base.specs.declared.commands.Reply.{Reply};
ghost use Rattle.cry_base.specs.declared.commands.Reply.TheVariants.{Refused};
ghost use Rattle.cry_base.specs.declared.limits.Limits.{Limits};
ghost use Rattle.cry_io.specs.Told.{WhereBothTold};
ghost use Rattle.folder_nodes.specs.Titles.{tree_store};
ghost use Rattle.public_fold.specs.Fitted.{told_step};
ghost use Rattle.public_fold.specs.Heads.{IsSkeleton};
ghost use Rattle.public_fold.specs.Journal.{Journal, keys_of, store_of};
ghost use Rattle.public_fold.specs.KeyStep.{is_strict};
ghost use Rattle.public_fold.specs.Preparing.{begun};
ghost use Rattle.public_fold.specs.StandFits.{note_fits};
ghost use Rattle.public_fold.specs.declared.heads.Skeleton.{Skeleton};
ghost use Rattle.journal_bytes.specs.Bytes.{batches_of};
ghost use Rattle.journal_bytes.specs.Folds.{public_stand};
ghost use Rattle.journal_bytes.specs.Journals.{StandsForJournal};
ghost use Rattle.journal_bytes.specs.Script.{Going};
ghost use Rattle.journal_bytes.specs.Sealing.{skeleton_size};
ghost use Rattle.store_owner.specs.Deeds.{Deed, Suits, deed_answer, deed_draws, deed_end, deed_key, deed_note, deed_payload};
ghost use Rattle.store_owner.specs.Deeds.{deed_refusal, deed_text, deed_then};
ghost use Rattle.store_owner.specs.Applying.{Answers, IsCarriedOut, IsInterrupted};
ghost use Rattle.cry_base.specs.Requests.{Request};
ghost use Rattle.store_owner.specs.Deeds.Deed.{Commanded};
ghost use Rattle.store_owner.specs.Owned.{IsOwnerOf, OwnerView, limits_in};
ghost use Rattle.store_owner.specs.Sessions.{AnswersBehind, GoesOn, StandsAt};
ghost use Rattle.store_owner.specs.Stopping.{ComesToRest};

use cry_io::Disk;

/// Law: an owner who stands for a journal, and does what is asked, which is accepted there, stands for the journal with it;
/// and where the disk showed the whole of the journal, it shows the whole of the new one, and behind the new end
/// of the log what it showed there before.
pub fn owners_go_on()
    ensures owner { (m : Journal) (d : Deed) (drawn : List (List ℕ)) (old new : OwnerView) (was shows : Option (List ℕ))
        → IsOwnerOf m old
        → old.journal.limit ≤ most_store_bytes → old.file_bytes ≤ most_file_bytes
        → deed_answer (limits_in old) m old.journal.has_epoch d ≡ None → Suits old.state.keys d
        → IsCarriedOut d drawn old new was shows → IsOwnerOf (deed_then m old.journal.has_epoch d drawn) new }
    ensures disk { (m : Journal) (d : Deed) (drawn : List (List ℕ)) (old new : OwnerView) (was shows : Option (List ℕ)) → IsOwnerOf m old
        → old.journal.limit ≤ most_store_bytes → old.file_bytes ≤ most_file_bytes
        → deed_answer (limits_in old) m old.journal.has_epoch d ≡ None → Suits old.state.keys d
        → IsCarriedOut d drawn old new was shows
        → WhereBothTold was shows (λ x y. StandsWhole old.key (batches_of old.key m) x
        → StandsWhole old.key (batches_of old.key (deed_then m old.journal.has_epoch d drawn)) y) }
    ensures further { (d : Deed) (drawn : List (List ℕ)) (old new : OwnerView) (was shows : Option (List ℕ))
        → IsCarriedOut d drawn old new was shows
        → old.journal.end ≤ new.journal.end }
    ensures behind { (m : Journal) (d : Deed) (drawn : List (List ℕ)) (old new : OwnerView) (was shows : Option (List ℕ))
        → IsOwnerOf m old
        → old.journal.limit ≤ most_store_bytes → old.file_bytes ≤ most_file_bytes
        → deed_answer (limits_in old) m old.journal.has_epoch d ≡ None → Suits old.state.keys d
        → IsCarriedOut d drawn old new was shows
        → WhereBothTold was shows (λ x y. StandsWhole old.key (batches_of old.key m) x → drop new.journal.end y ≡ drop new.journal.end x) }
{}

/// Law: where an owner who stands for a journal met a fault of the disk in a command that is accepted there, and the disk showed the
/// whole of the journal, it shows bytes that stand for the journal, or for it with the session begun, or with the command too.
pub fn interrupted_commands_leave_a_journal()
    ensures { (m : Journal) (d : Deed) (drawn : List (List ℕ)) (old : OwnerView) (was shows : Option (List ℕ)) → IsOwnerOf m old
        → old.journal.limit ≤ most_store_bytes → old.file_bytes ≤ most_file_bytes
        → deed_answer (limits_in old) m old.journal.has_epoch d ≡ None → Suits old.state.keys d
        → IsInterrupted d drawn old was shows
        → WhereBothTold was shows (λ x y. StandsWhole old.key (batches_of old.key m) x
        → IsBetween (StandsForJournal old.key) m (deed_then m old.journal.has_epoch d drawn) y) }
{}

/// Law: the skeleton that an owner makes of a command that isn't refused tells how many keys it draws and how long its payload
/// is; the journal tells where it would end; and its note fits, unless it would end past the largest store.
pub fn commands_are_measured()
    ensures payload { (m : Journal) (d : Deed) (o : OwnerView) (s : Skeleton) → IsOwnerOf m o
        → deed_refusal (is_strict (keys_of m)) (store_of m) d o.file_bytes ≡ None
        → IsSkeleton (told_step (begun (not o.journal.has_epoch) (public_stand m)) (deed_note (store_of m) d (replicate 32 0))) s
        → skeleton_size (deed_note (store_of m) d (replicate 32 0)) s (length (deed_text (tree_store o.state.tree o.names) d
        ++ deed_key d (replicate 32 0))) ≡ deed_payload m d }
    ensures draws { (m : Journal) (d : Deed) (o : OwnerView) (s : Skeleton) → IsOwnerOf m o
        → deed_refusal (is_strict (keys_of m)) (store_of m) d o.file_bytes ≡ None
        → IsSkeleton (told_step (begun (not o.journal.has_epoch) (public_stand m)) (deed_note (store_of m) d (replicate 32 0))) s
        → length s.keys.items ≡ deed_draws m d }
    ensures few { (m : Journal) (d : Deed) (o : OwnerView) → IsOwnerOf m o → o.file_bytes ≤ most_file_bytes
        → deed_refusal (is_strict (keys_of m)) (store_of m) d o.file_bytes ≡ None
        → deed_end m o.journal.has_epoch d ≤ most_store_bytes → 32 * deed_draws m d < 2 ^ 32 }
    ensures end { (m : Journal) (d : Deed) (o : OwnerView) → IsOwnerOf m o
        → end_with o.journal (deed_payload m d) ≡ deed_end m o.journal.has_epoch d }
    ensures fits { (m : Journal) (d : Deed) (o : OwnerView) → IsOwnerOf m o → o.file_bytes ≤ most_file_bytes → Suits o.state.keys d
        → deed_refusal (is_strict (keys_of m)) (store_of m) d o.file_bytes ≡ None
        → note_fits (begun (not o.journal.has_epoch) (public_stand m)) (deed_note (store_of m) d (replicate 32 0))
        (told_step (begun (not o.journal.has_epoch) (public_stand m)) (deed_note (store_of m) d (replicate 32 0))) ≡ false
        → most_store_bytes < deed_end m o.journal.has_epoch d }
{}

/// Law: an owner who answers a command goes on as the session does, with the session's reply, where the disk tells what it shows. Where the
/// source of random bytes doesn't tell what it has, there are keys of 32 bytes with which the session goes so. A disk that rested at the
/// session's journal comes to rest at the one that it goes on to.
pub fn answered_sessions_go_on<D: Disk>(before: &D, after: &D)
    ensures { (limits : Limits) (key : List ℕ) (g : Going) (r : Request) (reply : Reply) (old new : OwnerView)
        (left_before left_after was shows : Option (List ℕ)) (start : ℕ)
        → StandsAt limits key g old was
        → Answers (Ok reply) g.journal (Commanded r) old new left_before left_after was shows
        (D.may_leave before.now) (D.may_leave after.now)
        (D.since after.now start)
        → is_some shows ≡ is_some was → ((why : Refusal) → reply ≡ Refused why → (left_after ≡ left_before) × (shows ≡ was))
        → (h : Going) × GoesOn limits g h r reply left_before left_after × StandsAt limits key h new shows
        × AnswersBehind g h old new was shows
        × ComesToRest key g.journal h.journal was shows (D.may_leave before.now) (D.may_leave after.now) (D.since after.now start) }
{}
