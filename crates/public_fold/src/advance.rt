//! The skeleton of a note, and the state after a payload.
ghost use Rattle.std.specs.Prelude.{◌≡◌, ◌≤◌, ◌+◌, false, true, IfOk, OnOk, OnErr};
ghost use Rattle.record_format.specs.Plain.{plain_payload};
ghost use Rattle.record_format.specs.Told.{told_note};
ghost use Rattle.public_fold.specs.Changing.{checks_then};
ghost use Rattle.public_fold.specs.Fitted.{payload_fits, told_stand, told_step};
ghost use Rattle.public_fold.specs.Heads.{IsSkeleton};
ghost use Rattle.public_fold.specs.Journal.{Stand};
ghost use Rattle.public_fold.specs.LookUps.{note_look_ups};
ghost use Rattle.public_fold.specs.StandFits.{note_fits};
ghost use Rattle.public_fold.specs.Standing.{IsSeenAs, with_room_of};

use crate::fitting::has_records;
use crate::step::step_of;
use crate::{FoldFault, PublicState, Skeleton};
use cry_base::Steps;
use record_format::{Note, Payload};
use std::alloc::Global;

impl PublicState {
    /// The keys that the note's command gives, and the heads of the links and contents that it publishes. `Unfit` comes
    /// only where the note doesn't fit: no epoch was begun, its row's condition doesn't hold, or its serials would take
    /// the epoch's count to 2^32 - 1.
    pub fn skeleton(&self, alloc: Global, note: &Note) -> Result<Skeleton, FoldFault>
        ensures skeleton { IfOk result (λ k. (at : Stand) → IsSeenAs self.now at → IsSkeleton (told_step at (told_note note.now)) k) }
        ensures fits { IfOk result (λ k. (at : Stand) → IsSeenAs self.now at
            → note_fits at (told_note note.now) (told_step at (told_note note.now)) ≡ true) }
        ensures unfit { result ≡ Err FoldFault.Unfit → (at : Stand) → IsSeenAs self.now at
            → note_fits at (told_note note.now) (told_step at (told_note note.now)) ≡ false }
    {
        let step = step_of(alloc, self, false, note, &mut Steps::new())?;
        Ok(step.skeleton)
    }

    /// Makes the payload's change. `Unfit` comes only where the payload doesn't fit: its note doesn't, or its records
    /// aren't those of the note's skeleton, in order, each with a text of a right length. At `Err` the state is as it was, but
    /// for room. It looks up as many edges as preparing the note does.
    pub fn advance(
        &mut self,
        alloc: Global,
        payload: &Payload,
        steps: &mut Steps,
    ) -> Result<(), FoldFault>
        ensures seen { OnOk result ((at : Stand) → IsSeenAs self.old at → IsSeenAs self.new (told_stand at (told_note payload.now.note))) }
        ensures checks { OnOk result (self.new.checks ≡ checks_then self.old.checks (told_note payload.now.note)) }
        ensures fits { OnOk result ((at : Stand) → IsSeenAs self.old at → payload_fits at (plain_payload payload.now) ≡ true) }
        ensures unfit { result ≡ Err FoldFault.Unfit → (at : Stand) → IsSeenAs self.old at
            → payload_fits at (plain_payload payload.now) ≡ false }
        ensures err { OnErr result (self.new ≡ with_room_of self.old self.new) }
        ensures look_ups { steps.new ≤ steps.old + note_look_ups self.old (told_note payload.now.note) }
    {
        let ready = self.prepare(alloc, &payload.note, false, steps)?;
        if !has_records(ready.skeleton(), payload) {
            return Err(FoldFault::Unfit);
        }
        self.reserve(&ready)?;
        self.settle(ready);
        Ok(())
    }
}
