//! What the payloads of a log make, one after another (docs/FORMAT.md, "Reading").
ghost use Rattle.std.specs.Prelude.{◌≡◌, ◌≢◌, ◌+◌, Err, IfOk, OnErr, map};
ghost use Rattle.commit_journal.specs.Logs.{AreInEpochs, IsInEpoch};
ghost use Rattle.commit_journal.specs.Placed.{plain_body, plain_placed};
ghost use Rattle.cry_base.specs.declared.roles.Role.TheVariants.{Owner};
ghost use Rattle.public_fold.specs.Journal.{Stand, nothing};
ghost use Rattle.public_fold.specs.KeyStep.{next_epoch, present};
ghost use Rattle.public_fold.specs.Standing.{IsSeenAs, with_room_of};
ghost use Rattle.log_visits.specs.Answering.{AnswersBy};
ghost use Rattle.log_visits.specs.Folding.{folded, stand_behind};

use crate::ClientFault;
use commit_journal::{Body, Placed};
use cry_base::{Epoch, Steps};
use public_fold::{FoldFault, PublicState};
use std::alloc::Global;

/// Begins an epoch, which is the next one.
fn begin(state: &mut PublicState, epoch: Epoch)
    requires { epoch.0 ≡ state.old.keys.epoch + 1 }
    ensures { state.new ≡ record state.old { keys = next_epoch state.old.keys } }
{
    let _number = epoch.0;
    state.next_epoch();
}

/// Takes a batch's change. At `Err` the state is as it was, but for room.
pub fn take_batch(
    alloc: Global,
    state: &mut PublicState,
    placed: &Placed,
) -> Result<(), ClientFault>
    requires next { IsInEpoch state.old.keys.epoch placed.now.epoch.0 (plain_body placed.now.body) }
    ensures answer { (at : Stand) → IsSeenAs state.old at
        → AnswersBy (λ _ behind. IsSeenAs state.new behind) result (stand_behind at placed.now.place (plain_body placed.now.body)) }
    ensures no_disk { result ≢ Err ClientFault.DiskFault }
    ensures err { OnErr result (state.new ≡ with_room_of state.old state.new) }
{
    match &placed.body {
        Body::NewEpoch => {
            begin(state, placed.epoch);
            Ok(())
        }
        Body::Commands(payload) => match state.advance(alloc, payload, &mut Steps::new()) {
            Ok(()) => Ok(()),
            Err(FoldFault::Unfit) => Err(ClientFault::Damaged { at: placed.place }),
            Err(FoldFault::OutOfMemory) => Err(ClientFault::OutOfMemory),
        },
    }
}

/// What stands in public after the batches of a log, in order. `Damaged` comes exactly for the first payload that doesn't
/// fit what stands before it, with the place of its first byte. The owner's key has the serial 0 in it.
pub fn fold(alloc: Global, log: &[Placed]) -> Result<PublicState, ClientFault>
    requires epochs { AreInEpochs 0 (map plain_placed log.now) }
    ensures answer { AnswersBy IsSeenAs result (folded nothing (map plain_placed log.now)) }
    ensures owner { IfOk result (λ state. present state.keys.keys Owner ≡ 0) }
    ensures no_disk { result ≢ Err ClientFault.DiskFault }
{
    let mut state = PublicState::new(alloc)?;
    for placed in log {
        take_batch(alloc, &mut state, placed)?;
    }
    Ok(state)
}
