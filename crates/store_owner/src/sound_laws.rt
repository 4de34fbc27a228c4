//! Laws of every owner that is open, on whatever bytes it was opened.
ghost use Rattle.std.specs.Prelude.{◌≡◌, ◌≢◌, ◌+◌, ◌++◌, ◌*◌, ◌<◌, ◌≤◌, ◌^◌, ℕ, All, IsSome, List, None, Ok, Option, Some, cond, false};
ghost use Rattle.std.specs.Prelude.{length, not, replicate, true};
ghost use Rattle.chacha_seal.specs.Serials.{Counting};
ghost use Rattle.commit_journal.specs.Journals.{end_with};
ghost use Rattle.commit_journal.specs.Logs.{AreInEpochs, epoch_behind};
ghost use Rattle.commit_journal.specs.Placed.{PlainPlaced};
ghost use Rattle.cry_base.specs.Clearances.{clear_base};
ghost use Rattle.cry_base.specs.Layout.{batch_len, header_len};
ghost use Rattle.cry_base.specs.Limits.{most_file_bytes, most_store_bytes};
ghost use Rattle.cry_base.specs.Sets.{In};
ghost use Rattle.cry_base.specs.Store.{FileEntry, HolderEntry};
ghost use Rattle.cry_base.specs.declared.roles.Role.{Role};
ghost use Rattle.cry_base.specs.declared.roles.Role.TheVariants as roles;
ghost use Rattle.log_visits.specs.Folding.{folded};
ghost use Rattle.log_visits.specs.Visiting.{Opened, key_of, visit_all};
ghost use Rattle.log_visits.specs.Visits.{all_visits, writing_visits};
ghost use Rattle.key_links.specs.Ringed.{Ringed};
ghost use Rattle.move_plan.specs.Fitting.{folder_stands};
ghost use Rattle.record_format.specs.Noted.{Note};
ghost use Rattle.public_fold.specs.Fitted.{told_step};
ghost use Rattle.public_fold.specs.Heads.{IsSkeleton};
ghost use Rattle.public_fold.specs.Journal.{Stand, nothing};
ghost use Rattle.public_fold.specs.KeyStep.{is_strict, newest};
ghost use Rattle.public_fold.specs.Preparing.{begun};
ghost use Rattle.public_fold.specs.Standing.{IsSeenAs};
ghost use Rattle.public_fold.specs.StandFits.{note_fits};
ghost use Rattle.public_fold.specs.declared.heads.Skeleton.{Skeleton};
ghost use Rattle.role_graph.specs.Rights.Who.{TheOwner};
ghost use Rattle.role_graph.specs.Roles.{holder_role};
ghost use Rattle.journal_bytes.specs.Owning.{IsStoreOf};
ghost use Rattle.journal_bytes.specs.Sealing.{CanSeal, skeleton_size};
ghost use Rattle.store_owner.specs.Deeds.{Deed, deed_note, deed_refusal, IsWellNamed};
ghost use Rattle.store_owner.specs.Applying.{IsCarriedOut, sealed_text};
ghost use Rattle.store_owner.specs.Owned.{OwnerView};
ghost use Rattle.store_owner.specs.Sound.{CanGoOn, IsOpenedAt, IsOpenedWith, IsSound, granted_in, own_store};

/// Law: the store that an owner keeps is a store of its tree, names and grants, and numbers are left for one folder, file, holder
/// and epoch more; each file has a clearance number.
pub fn sound_owners_keep_a_store()
    ensures store { (o : OwnerView) → IsStoreOf o.state.tree o.names (granted_in o) (own_store o) }
    ensures folders { (o : OwnerView) → IsSound o
        → header_len + batch_len * o.journal.batches ≤ most_store_bytes → o.state.tree.folders_made < 4294967295 }
    ensures files { (o : OwnerView) → IsSound o
        → header_len + batch_len * o.journal.batches ≤ most_store_bytes → o.state.tree.files_made < clear_base }
    ensures holders { (o : OwnerView) → IsSound o
        → header_len + batch_len * o.journal.batches ≤ most_store_bytes → length o.state.checks < 4294967295 }
    ensures epoch { (o : OwnerView) → IsSound o
        → header_len + batch_len * o.journal.batches ≤ most_store_bytes → o.state.keys.epoch < 4294967295 }
{}

/// Law: a command that isn't refused, and whose note fits, can be sealed by the keys of the owner's ring.
pub fn sound_owners_can_seal()
    ensures { (o : OwnerView) (d : Deed) (drawn : List (List ℕ)) (s : Skeleton) (ring : Ringed) (counter : Counting) → IsSound o
        → IsWellNamed d
        → deed_refusal (is_strict o.state.keys) (own_store o) d o.file_bytes ≡ None
        → ((at : Stand) → IsSeenAs o.state at → IsSkeleton
        (told_step (begun (not o.journal.has_epoch) at) (deed_note (own_store o) d (replicate 32 0))) s)
        → ((at : Stand) → IsSeenAs o.state at → note_fits (begun (not o.journal.has_epoch) at) (deed_note (own_store o) d (replicate 32 0))
        (told_step (begun (not o.journal.has_epoch) at) (deed_note (own_store o) d (replicate 32 0))) ≡ true)
        → ring.keys ≡ o.ring.keys → length s.keys.items ≤ ring.spare → length drawn ≡ length s.keys.items
        → All (λ (key : List ℕ). length key ≡ 32) drawn
        → cond o.journal.has_epoch (o.counter ≡ Some counter) (counter ≡ record { epoch = o.journal.epoch + 1; count = 0 })
        → CanSeal ring counter s drawn (sealed_text o d drawn) }
{}

/// Law: a command whose note fits, and whose batches end within the store limit, draws few keys: their bytes are counted by 32 bits.
pub fn sound_owners_draw_few_keys()
    ensures { (o : OwnerView) (note : Note) (s : Skeleton) (text : ℕ) → IsSound o → o.journal.limit ≤ most_store_bytes
        → ((at : Stand) → IsSeenAs o.state at → IsSkeleton (told_step (begun (not o.journal.has_epoch) at) note) s)
        → ((at : Stand) → IsSeenAs o.state at → note_fits (begun (not o.journal.has_epoch) at) note
        (told_step (begun (not o.journal.has_epoch) at) note) ≡ true)
        → end_with o.journal (skeleton_size note s text) ≤ o.journal.limit → 32 * length s.keys.items < 2 ^ 32 }
{}

/// Law: an owner stays sound who carries out a command that isn't refused, and whose note fits.
pub fn carried_out_owners_stay_sound()
    ensures { (d : Deed) (drawn : List (List ℕ)) (old new : OwnerView) (was shows : Option (List ℕ)) → IsSound old
        → IsWellNamed d
        → deed_refusal (is_strict old.state.keys) (own_store old) d old.file_bytes ≡ None
        → ((at : Stand) → IsSeenAs old.state at → note_fits (begun (not old.journal.has_epoch) at)
        (deed_note (own_store old) d (replicate 32 0))
        (told_step (begun (not old.journal.has_epoch) at) (deed_note (own_store old) d (replicate 32 0))) ≡ true)
        → IsCarriedOut d drawn old new was shows
        → new.journal.batches ≡ old.journal.batches + cond old.journal.has_epoch 1 2
        → new.journal.epoch ≡ old.journal.epoch + cond old.journal.has_epoch 0 1
        → IsSound new }
{}

/// Law: where the payloads of a log fit and make the root, the owner's visits, once they all went well, have opened a key for
/// each role that has a present one but the holders', each of whom stands in the store; and no file there has more bytes than
/// one may have. Of the bytes of the log nothing else is asked.
pub fn owners_visits_open_all()
    ensures keys { (log : List PlainPlaced) (at : Stand) (start after : Opened) → folded nothing log ≡ Ok at
        → folder_stands at.store 1 ≡ true → IsSome (key_of start.keys roles.Owner)
        → visit_all (record { log = log; stand = at }) (all_visits at.store TheOwner ++ writing_visits at.store) start ≡ Ok after
        → (role : Role) (n : ℕ) → newest at.keys.keys role ≡ Some n → ((h : ℕ) → role ≢ holder_role h) → IsSome (key_of after.keys role) }
    ensures holders { (log : List PlainPlaced) (at : Stand) (start after : Opened) → folded nothing log ≡ Ok at
        → folder_stands at.store 1 ≡ true → start.store ≡ at.store
        → visit_all (record { log = log; stand = at }) (all_visits at.store TheOwner ++ writing_visits at.store) start ≡ Ok after
        → (h n : ℕ) → newest at.keys.keys (holder_role h) ≡ Some n → (e : HolderEntry) × In e after.store.holders × (e.number ≡ h) }
    ensures sized { (log : List PlainPlaced) (at : Stand) (start after : Opened) → folded nothing log ≡ Ok at → start.store ≡ at.store
        → visit_all (record { log = log; stand = at }) (all_visits at.store TheOwner ++ writing_visits at.store) start ≡ Ok after
        → (x : FileEntry) → In x after.store.files → length x.bytes ≤ most_file_bytes }
{}

/// Law: from what the payloads of a log leave, each of which fits, commands can go on where they could from the stand before it;
/// and its epoch is that of the log's last batch.
pub fn commands_go_on_behind_a_log()
    ensures stands { (batches : ℕ) (from at : Stand) (log : List PlainPlaced) → CanGoOn batches from → folded from log ≡ Ok at
        → CanGoOn (batches + length log) at }
    ensures epoch { (from at : Stand) (log : List PlainPlaced) → AreInEpochs from.keys.epoch log → folded from log ≡ Ok at
        → at.keys.epoch ≡ epoch_behind from.keys.epoch log }
{}

/// Law: an owner is sound who has a stand that commands can go on from, wherever it comes from, and the present key of each
/// role. So is one who has what the payloads of a log leave, each of which fits; and the epoch that they leave is that of the
/// log's last batch.
pub fn opened_owners_are_sound()
    ensures anywhere { (at : Stand) (o : OwnerView) → IsOpenedAt at o → IsSound o }
    ensures epoch { (log : List PlainPlaced) (at : Stand) → AreInEpochs 0 log → folded nothing log ≡ Ok at
        → at.keys.epoch ≡ epoch_behind 0 log }
    ensures sound { (log : List PlainPlaced) (at : Stand) (o : OwnerView) → IsOpenedWith log at o → IsSound o }
{}
