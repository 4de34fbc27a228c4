//! Laws: when an upgrade with a head tells that the log is another one, and what it leaves then.
ghost use Rattle.std.specs.Prelude.{◌≡◌, ◌⊎◌, ℕ, IsTrue, List, Some};
ghost use Rattle.cli_base.specs.World.{World, senses_of};
ghost use Rattle.cli_base.specs.declared.status.Status.{Status};
ghost use Rattle.cli_heads.specs.Held.{tells_other_log};
ghost use Rattle.cli_heads.specs.Testing.{IsHeld};
ghost use Rattle.cli_upgrading.specs.Promises.HeldUpgrade.{EndsAtHead, EndsAtInput, HeldUpgradeEnds};
ghost use Rattle.head_tree.specs.declared.head.Head.{Head};
ghost use Rattle.log_heads.specs.Published.{hashes_in};

use cry_io::{Disk, Sink, Source};

/// Law: where `behind` or `forked` is answered, the upgrade ended at the test of the head, and so left the store as it was.
pub fn other_logs_are_told_by_the_test<S: Source, R: Source, D: Disk, W: Sink>()
    ensures { (head : Head) (status : Status) (before after : World S R D W) →
        HeldUpgradeEnds head (senses_of S.Source R.Source D.Disk W.Sink) status before after → IsTrue (tells_other_log status) →
        EndsAtHead head (senses_of S.Source R.Source D.Disk W.Sink) status before after }
{}

/// Law: over a log that doesn't begin with the batches that the head names, an upgrade ends at its input or at the test of the head.
pub fn other_logs_are_never_upgraded<S: Source, R: Source, D: Disk, W: Sink>()
    ensures { (head : Head) (image : List ℕ) (status : Status) (before after : World S R D W) →
        D.shown before.disk ≡ Some image → (IsHeld head (hashes_in image) → ⊥) →
        HeldUpgradeEnds head (senses_of S.Source R.Source D.Disk W.Sink) status before after →
        EndsAtInput (senses_of S.Source R.Source D.Disk W.Sink) status before after
        ⊎ EndsAtHead head (senses_of S.Source R.Source D.Disk W.Sink) status before after }
{}
