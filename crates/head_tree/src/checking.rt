//! Checks that one head's log begins another's.
ghost use Rattle.std.specs.Prelude.{◌≡◌, ◌+◌, ◌<◌, ◌≤◌, ◌↔◌, ℕ, List, length, IsOk, OnOk, option_map};
ghost use Rattle.head_tree.specs.Checking.{IsAccepted, Roots, proof_check, shown};
ghost use Rattle.head_tree.specs.Checking as spec;
ghost use Rattle.head_tree.specs.Heads.{ShowsPrefix};

use crate::Head;
use crate::hashing::{node_hash, split_of};

/// The proof doesn't lead to the two heads' roots, or the older head has more batches than the newer.
#[derive(Clone, Copy, Debug, PartialEq, Eq)]
pub struct BadProof;

/// Whether the proof shows that the log of `old` begins the log of `new` (RFC 6962, section 2.1.2).
pub fn check_proof(old: &Head, new: &Head, proof: &[[u8; 32]]) -> Result<(), BadProof>
    ensures exact { IsOk result ↔ IsAccepted old.now new.now proof.now }
    ensures prefix { OnOk result (ShowsPrefix old.now new.now proof.now) }
{
    if old.batches > new.batches {
        return Err(BadProof);
    }
    let roots = roots_by(
        &old.root,
        u64::from(old.batches) + 1,
        u64::from(new.batches) + 1,
        proof,
        true,
    );
    let (older, newer) = roots.ok_or(BadProof)?;
    if older == old.root && newer == new.root {
        Ok(())
    } else {
        Err(BadProof)
    }
}

/// The roots over the first `old` and all `new` leaves of a subtree, as the proof has them. The leaves are `whole` where they begin
/// the log, so that `root` is the older of these where both are one.
fn roots_by(
    root: &[u8; 32],
    old: u64,
    new: u64,
    proof: &[[u8; 32]],
    whole: bool,
) -> Option<([u8; 32], [u8; 32])>
    requires positive { 0 < old }
    requires order { old ≤ new }
    ensures { result ≡ option_map shown (proof_check root.now old new proof.now whole) }
{
    if old == new {
        return settled(root, proof, whole);
    }
    if proof.is_empty() {
        return None;
    }
    let last = proof[proof.len() - 1];
    let front = &proof[..proof.len() - 1];
    let split = split_of(new);
    if old <= split {
        let (older, newer) = roots_by(root, old, split, front, whole)?;
        Some((older, node_hash(&newer, &last)))
    } else {
        let (older, newer) = roots_by(root, old - split, new - split, front, false)?;
        Some((node_hash(&last, &older), node_hash(&last, &newer)))
    }
}

/// The root of a subtree that the old log has whole: the old root itself, or else the only hash that is left.
fn settled(root: &[u8; 32], proof: &[[u8; 32]], whole: bool) -> Option<([u8; 32], [u8; 32])>
    ensures { result ≡ option_map shown (spec.settled root.now proof.now whole) }
{
    if whole {
        return if proof.is_empty() {
            Some((*root, *root))
        } else {
            None
        };
    }
    if proof.len() == 1 {
        Some((proof[0], proof[0]))
    } else {
        None
    }
}
