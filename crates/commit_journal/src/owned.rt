//! Judges a whole batch in memory as its owner, whose key unmasks it whether it is published or not.
ghost use Rattle.std.specs.Prelude.{◌≡◌, ◌≢◌, ◌+◌, ◌≤◌, length, Err, IfOk};
ghost use Rattle.cry_base.specs.Layout.{batch_len, header_len, slot_offset};
ghost use Rattle.cry_base.specs.Limits.{most_store_bytes};
ghost use Rattle.chacha_seal.specs.Sealing.{veil_of};
ghost use Rattle.commit_journal.specs.Answering.{Answers};
ghost use Rattle.commit_journal.specs.Filling as filling;
ghost use Rattle.commit_journal.specs.Log as log;
ghost use Rattle.commit_journal.specs.Opening as opening;
ghost use Rattle.commit_journal.specs.Places.{IsStanding};
ghost use Rattle.commit_journal.specs.Turns.{plain_turn};

use crate::OpenFault;
use crate::filling::{Unfilled, unfilled_slot};
use crate::head::Head;
use crate::judge::{Turn, has_tag, unmask, wrong_tag};
use crate::past::Past;
use chacha_seal::LogKey;
use std::alloc::Global;

/// A batch as its owner reads it.
#[derive(Drop)]
pub(crate) struct OwnedTurn {
    pub(crate) turn: Turn,
    /// Its slot, if that isn't its veil key.
    pub(crate) unfilled: Option<Unfilled>,
}

/// Judges the bytes of a batch behind an open gate, and leaves its payload unmasked in them. The veil key that unmasks it also tells
/// whether its slot is to be filled.
#[tactic(auto, unfolding(crate::specs::Opening::owned_turn, crate::specs::Readers::has_tag))]
pub(crate) fn judge_owned(
    alloc: Global,
    owner: &LogKey,
    past: &Past,
    head: &Head,
    batch: &mut [u8],
) -> Result<OwnedTurn, OpenFault>
    requires whole { length batch.old ≡ batch_len + head.now.size }
    requires behind { header_len ≤ past.now.at }
    requires fits { past.now.at + (batch_len + head.now.size) ≤ most_store_bytes }
    ensures answer { Answers (λ o. plain_turn o.turn) result (opening.owned_turn owner.now.bytes past.now head.now batch.old) }
    ensures unfilled { IfOk result (λ o. o.unfilled ≡ filling.unfilled_slot (past.now.at + slot_offset) (log.slot_in batch.old)
        (veil_of owner.now.bytes head.now.epoch.0 head.now.number)) }
    ensures turn { IfOk result (λ o. opening.IsTurnOf past.now head.now o.turn) }
    ensures stands { IfOk result (λ o. IsStanding o.turn.placed) }
    ensures no_disk { result ≢ Err OpenFault.DiskFault }
{
    if !has_tag(Some(owner), past, head, batch) {
        return Err(wrong_tag(past, head));
    }
    let veil = owner.veil_key(head.epoch, head.number);
    let unfilled = unfilled_slot(past.at, &veil, batch);
    let turn = unmask(alloc, past, head, &veil, batch)?;
    Ok(OwnedTurn { turn, unfilled })
}
