//! What the test of a head tells of the log.
ghost use Rattle.std.specs.Prelude.{ℕ, List};
ghost use Rattle.cli_heads.specs.Testing.{BeginsSo, IsHeld};
ghost use Rattle.head_tree.specs.declared.head.Head.{Head};
ghost use Rattle.log_heads.specs.Published.{hashes_in};

/// Law: a log that begins with the batches that a head names begins with every list of leaves that has this head.
pub fn held_heads_begin_logs()
    ensures { (head : Head) (image : List ℕ) → IsHeld head (hashes_in image) → BeginsSo head image }
{}
