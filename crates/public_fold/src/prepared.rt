//! A note's change, prepared on a state with all the memory that it takes, and made later without any.
ghost use Rattle.std.specs.Prelude.{◌≡◌, ◌<◌, ◌≤◌, ◌+◌, true, false, Err, IfOk, OnOk, option_map};
ghost use Rattle.record_format.specs.Told.{told_note};
ghost use Rattle.public_fold.specs.Fitted.{told_stand, told_step};
ghost use Rattle.public_fold.specs.Heads.{IsSkeleton};
ghost use Rattle.public_fold.specs.Journal.{Stand};
ghost use Rattle.public_fold.specs.LookUps.{note_look_ups};
ghost use Rattle.public_fold.specs.Preparing.{CanSettle, HasRoomFor, begun, is_new_holder, root_made, settled, with_check};
ghost use Rattle.public_fold.specs.StandFits.{note_fits};
ghost use Rattle.public_fold.specs.Standing.{IsSeenAs, PublicView, with_room_of};

use crate::changing::{change_store, root_shape};
use crate::step::{Left, step_of};
use crate::{FoldFault, PublicState, Skeleton};
use cry_base::{Mem, Steps};
use folder_nodes::Shape;
use record_format::Note;
use std::alloc::Global;
use std::marker::Model;

/// A note's change: its skeleton, and what it leaves. It is no larger than what it changes; only the dirty roles are there whole.
#[derive(Drop)]
pub struct Prepared {
    note: Note,
    skeleton: Skeleton,
    left: Left,
    /// Where the note makes the root: the tree with the root alone. It lies apart, since no other note's change has one.
    root: Option<Box<Shape>>,
}

impl Model for Prepared {
    ghost use Rattle.std.specs.Prelude.{◌≡◌, option_map};
    ghost use Rattle.record_format.specs.Told.{told_note};
    ghost use Rattle.public_fold.specs.Preparing.{PreparedView, root_made};

    ghost Value = { PreparedView };

    ghost view = { λ p. record {
      note = p.note;
      skeleton = p.skeleton;
      gone = p.left.gone.items;
      dirty = p.left.dirty;
      epoch = p.left.epoch;
      count = p.left.count;
      version = p.left.version;
    } };

    ghost invariant = { λ p. option_map (λ b. b.value.tree) p.root ≡ root_made (told_note p.note) };
}

impl Prepared {
    /// The note's skeleton, in the state that its change was prepared on.
    pub fn skeleton(&self) -> &Skeleton
        ensures { result.now ≡ self.now.skeleton }
    {
        &self.skeleton
    }

    /// Gives the new holder's key this check in place of the note's. It takes no memory, and changes nothing of what the
    /// skeleton hangs on, nor of what everyone may see of the state after it.
    pub fn set_check(&mut self, check: [u8; 32])
        requires { is_new_holder self.old.note ≡ true }
        ensures note { self.new.note ≡ with_check self.old.note check }
        ensures skeleton { self.new.skeleton ≡ self.old.skeleton }
        ensures can { (v : PublicView) → CanSettle v self.old → CanSettle v self.new }
        ensures told { (at : Stand) → told_stand at (told_note self.new.note) ≡ told_stand at (told_note self.old.note) }
        ensures seen { (v : PublicView) (at : Stand) → IsSeenAs (settled v self.old) at → IsSeenAs (settled v self.new) at }
    {
        self.note = note_with(self.note, check);
    }
}

/// The note with this check, where it makes a holder.
fn note_with(note: Note, check: [u8; 32]) -> Note
    ensures { result ≡ with_check note check }
{
    match note {
        Note::NewHolder { holder, .. } => Note::NewHolder { holder, check },
        Note::Root
        | Note::StrictRoot
        | Note::Upgrade
        | Note::NewFolder { .. }
        | Note::NewFile { .. }
        | Note::Rewrite { .. }
        | Note::NameFile { .. }
        | Note::NameFolder { .. }
        | Note::DropFile { .. }
        | Note::DropFolder { .. }
        | Note::ShiftFile { .. }
        | Note::ShiftFolder { .. }
        | Note::Give { .. }
        | Note::Take { .. } => note,
    }
}

impl PublicState {
    /// Prepares the note's change on this state; where an epoch is wanted, one is begun before it. `Unfit` comes only where
    /// the note doesn't fit the state that it then meets. It looks up no more edges than those at the roles that it marks and
    /// renews: the bound is on the look-ups of the walks, which have no other way to an edge.
    pub fn prepare(
        &self,
        alloc: Global,
        note: &Note,
        new_epoch: bool,
        steps: &mut Steps,
    ) -> Result<Prepared, FoldFault>
        requires { new_epoch ≡ true → self.now.keys.epoch < 4294967295 }
        ensures note { IfOk result (λ p. p.note ≡ note.now) }
        ensures skeleton { IfOk result (λ p. (at : Stand) → IsSeenAs self.now at
            → IsSkeleton (told_step (begun new_epoch at) (told_note note.now)) p.skeleton) }
        ensures can { IfOk result (CanSettle self.now) }
        ensures after { IfOk result (λ p. (at : Stand) → IsSeenAs self.now at
            → IsSeenAs (settled self.now p) (told_stand (begun new_epoch at) (told_note note.now))) }
        ensures fits { IfOk result (λ p. (at : Stand) → IsSeenAs self.now at
            → note_fits (begun new_epoch at) (told_note note.now) (told_step (begun new_epoch at) (told_note note.now)) ≡ true) }
        ensures unfit { result ≡ Err FoldFault.Unfit → (at : Stand) → IsSeenAs self.now at
            → note_fits (begun new_epoch at) (told_note note.now) (told_step (begun new_epoch at) (told_note note.now)) ≡ false }
        ensures look_ups { steps.new ≤ steps.old + note_look_ups self.now (told_note note.now) }
    {
        let step = step_of(alloc, self, new_epoch, note, steps)?;
        let root = root_for(alloc, note)?;
        Ok(Prepared {
            note: *note,
            skeleton: step.skeleton,
            left: step.left,
            root,
        })
    }

    /// Takes the memory that the prepared change wants of this state. At `Err` the state is as it was, but for room.
    pub fn reserve(&mut self, ready: &Prepared) -> Mem<()>
        ensures content { self.new ≡ with_room_of self.old self.new }
        ensures room { OnOk result (HasRoomFor self.new ready.now) }
    {
        self.shape.reserve()?;
        self.grants.reserve()?;
        self.keys.reserve(ready.skeleton.keys.as_slice().len())
    }

    /// Makes the prepared change. It takes no memory.
    pub fn settle(&mut self, ready: Prepared)
        requires can { CanSettle self.old ready }
        requires room { HasRoomFor self.old ready }
        ensures { self.new ≡ with_room_of (settled self.old ready) self.new }
    {
        self.is_seen();
        let Prepared {
            note,
            skeleton,
            left,
            root,
        } = ready;
        change_store(&mut self.shape, &mut self.grants, &note, root);
        self.keys
            .take(skeleton.keys.as_slice(), left.gone.as_slice());
        self.dirty = left.dirty;
        self.epoch = left.epoch;
        self.count = left.count;
        self.version = left.version.unwrap_or(self.version);
    }
}

/// The tree with the root alone, where the note makes it.
#[tactic(auto, unfolding(record_format::specs::Told::told_note))]
fn root_for(alloc: Global, note: &Note) -> Mem<Option<Box<Shape>>>
    ensures { IfOk result (λ root. option_map (λ b. b.value.tree) root ≡ root_made (told_note note.now)) }
{
    match note {
        Note::Root | Note::StrictRoot => {
            let root = root_shape(alloc)?;
            Ok(Some(Box::new(alloc, root)?))
        }
        Note::NewHolder { .. }
        | Note::NewFolder { .. }
        | Note::NewFile { .. }
        | Note::Rewrite { .. }
        | Note::NameFile { .. }
        | Note::NameFolder { .. }
        | Note::DropFile { .. }
        | Note::DropFolder { .. }
        | Note::ShiftFile { .. }
        | Note::ShiftFolder { .. }
        | Note::Give { .. }
        | Note::Take { .. }
        | Note::Upgrade => Ok(None),
    }
}
