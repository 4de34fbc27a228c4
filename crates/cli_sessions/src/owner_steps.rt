//! The owner of a store, as what applies the commands of `run`.
use crate::script::Applies;
use cry_base::{Command, HolderId, List, Mem, Reply, Steps};
use cry_io::{Disk, Source};
use group_book::commands_for;
use std::alloc::Global;
use store_owner::{ApplyFault, Owner};

impl<R: Source, D: Disk> Applies<R, D> for Owner {
    ghost use Rattle.std.specs.Prelude.{◌≡◌, ◌≢◌, ◌≤◌, false};
    ghost use Rattle.batch_log.specs.Moments.{FromThenOn};
    ghost use Rattle.cry_io.specs.Stops.{IsDurable};
    ghost use Rattle.cli_sessions.specs.OwnerSteps.{AnswersIn, FailsIn, StandsIn};
    ghost use Rattle.store_owner.specs.Published.{PublishesOn};
    ghost use Rattle.store_owner.specs.declared.apply_fault.ApplyFault.TheVariants as faults;

    ghost ready = { λ at. (at.0.journal.is_closed ≡ false) × (at.0.journal.end ≤ D.size_of at.2)
        × IsDurable (D.may_leave at.2) (D.shown at.2) };

    ghost answers = { λ before request reply after. AnswersIn
        (record {
          owner = before.0;
          left = R.left before.1;
          shown = D.shown before.2;
          moment = D.moment before.2;
          random_faults = R.faults
              before.1;
          disk_faults = D.faults before.2;
        }) request reply
        (record {
          owner = after.0;
          left = R.left after.1;
          shown = D.shown after.2;
          moment = D.moment after.2;
          random_faults = R.faults
              after.1;
          disk_faults = D.faults after.2;
        })
        (D.may_leave before.2) (D.may_leave after.2) (D.since before.2) (D.since after.2)
        × PublishesOn before.0 (D.shown before.2) (D.may_leave before.2) (FromThenOn D.moment D.since before.2 after.2) };

    ghost fails = { λ before request fault after. FailsIn
        (record {
          owner = before.0;
          left = R.left before.1;
          shown = D.shown before.2;
          moment = D.moment before.2;
          random_faults = R.faults
              before.1;
          disk_faults = D.faults before.2;
        }) request fault
        (record {
          owner = after.0;
          left = R.left after.1;
          shown = D.shown after.2;
          moment = D.moment after.2;
          random_faults = R.faults
              after.1;
          disk_faults = D.faults after.2;
        })
        (D.may_leave before.2) (D.may_leave after.2) (D.since before.2) (D.since after.2)
        × (fault ≢ faults.DiskFault → IsDurable (D.may_leave after.2) (D.shown after.2))
        × PublishesOn before.0 (D.shown before.2) (D.may_leave before.2) (FromThenOn D.moment D.since before.2 after.2) };

    ghost replaces = { λ o n commands. StandsIn o n commands };

    ghost can_replace = { λ o. o.journal.is_closed ≡ false };

    ghost ready_can = { λ o r d is. is.0 };

    fn apply(
        &mut self,
        alloc: Global,
        random: &mut R,
        disk: &mut D,
        command: &Command,
    ) -> Result<Reply, ApplyFault> {
        Owner::apply(self, alloc, disk, random, command, &mut Steps::new())
    }

    fn replacing(&self, alloc: Global, holder: HolderId) -> Mem<List<Command>> {
        self.numbers_are_left();
        commands_for(alloc, self.shape(), self.names(), self.grants(), holder)
    }
}
