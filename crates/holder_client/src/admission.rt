//! Whether a bundle's key may read a log (docs/FORMAT.md, "Reading").
ghost use Rattle.std.specs.Prelude.{◌≡◌, ◌≢◌, ◌++◌, [], ◌∷◌, ℕ, Err, List, MatchOption, None, OnOk, bytes_eq};
ghost use Rattle.chacha_seal.specs.Sealing.{check_of as the_check_of};
ghost use Rattle.commit_journal.specs.Placed.{PlainPlaced, plain_body, plain_placed};
ghost use Rattle.log_visits.specs.Answering.{AnswersAs};
ghost use Rattle.log_visits.specs.Holding.{IsReadingIn};
ghost use Rattle.log_visits.specs.Judging as spec;
ghost use Rattle.holder_client.specs.Reads.{HasChecks, Publishes};
ghost use Rattle.log_visits.specs.Visiting.{Reading};

use chacha_seal::check_of;
use commit_journal::{Body, Placed};
use cry_base::{Bundle, HolderId, Mem};
use log_visits::ClientFault;
use public_fold::PublicState;
use record_format::Note;
use std::collections::HashMap;

/// A holder's check, as a batch publishes it.
#[derive(Clone, Copy)]
pub(crate) struct NewCheck {
    pub(crate) holder: HolderId,
    pub(crate) check: [u8; 32],
}

/// The check that each holder's first batch publishes.
pub(crate) type Checks = HashMap<u32, [u8; 32]>;

/// The check that a note publishes.
#[tactic(auto, unfolding(log_visits::specs::Judging::body_check, log_visits::specs::Judging::check_in, record_format::specs::Told::told_note))]
fn check_in(placed: &Placed) -> Option<NewCheck>
    ensures { MatchOption result ((h : ℕ) → spec.body_check h (plain_body placed.now.body)
        ≡ None) (Publishes (plain_body placed.now.body)) }
{
    let Body::Commands(payload) = &placed.body else {
        return None;
    };
    match &payload.note {
        Note::NewHolder { holder, check } => Some(NewCheck {
            holder: *holder,
            check: *check,
        }),
        _ => None,
    }
}

/// Notes the check that a batch publishes, where its holder has none.
pub(crate) fn note_check(checks: &mut Checks, placed: &Placed) -> Mem<()>
    ensures { OnOk result ((log : List PlainPlaced) → HasChecks checks.old log
        → HasChecks checks.new (log ++ plain_placed placed.now ∷ [])) }
{
    let Some(published) = check_in(placed) else {
        return Ok(());
    };
    if checks.contains_key(&published.holder.0) {
        return Ok(());
    }
    checks.insert(published.holder.0, published.check)?;
    Ok(())
}

fn is_key_of(check: &[u8; 32], key: &[u8; 32]) -> bool
    ensures { result ≡ bytes_eq check.now (the_check_of key.now) }
{
    *check == check_of(key)
}

/// Whether the key is the one whose check was published for the holder.
fn holder_may(
    checks: &Checks,
    state: &PublicState,
    h: HolderId,
    key: &[u8; 32],
) -> Result<(), ClientFault>
    ensures answer { (log : List PlainPlaced) (r : Reading) → HasChecks checks.now log → IsReadingIn state.now log r
        → AnswersAs (λ _. r) result (spec.holder_reads key.now r (spec.published_check h.0 r.log)) }
    ensures seen { result ≢ Err ClientFault.Unseen }
    ensures no_disk { result ≢ Err ClientFault.DiskFault }
{
    let Some(check) = checks.get(&h.0).copied() else {
        return Err(ClientFault::NoHolder {
            known: state.grants().holders(),
        });
    };
    if !is_key_of(&check, key) {
        return Err(ClientFault::WrongKey);
    }
    Ok(())
}

/// Whether the bundle's key may read the log: the owner's was tested with the header.
pub(crate) fn may_read(
    bundle: &Bundle,
    checks: &Checks,
    state: &PublicState,
) -> Result<(), ClientFault>
    ensures answer { (log : List PlainPlaced) (r : Reading) → HasChecks checks.now log → IsReadingIn state.now log r
        → AnswersAs (λ _. r) result (spec.may_read bundle.now r) }
    ensures seen { result ≢ Err ClientFault.Unseen }
    ensures no_disk { result ≢ Err ClientFault.DiskFault }
{
    match bundle {
        Bundle::Owner { .. } => Ok(()),
        Bundle::Holder { holder, key } => holder_may(checks, state, *holder, key),
    }
}
