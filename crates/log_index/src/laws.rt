//! Laws of checkpoint files, for whoever reasons about bytes that were written or will be read.
ghost use Rattle.std.specs.Prelude.{◌≡◌, ℕ, List};
ghost use Rattle.log_index.specs.Plain.{PlainCheckpoint};
ghost use Rattle.log_index.specs.Sound.{IsShown, SpellsCheckpoint};
ghost use Rattle.log_index.specs.declared.checkpoint.Checkpoint.{Checkpoint as TheCheckpoint};

/// Law: bytes begin with at most one file of an owner.
pub fn at_most_one_is_shown()
    ensures { (owner bytes : List ℕ) (p q : PlainCheckpoint) → IsShown owner p bytes → IsShown owner q bytes → p ≡ q }
{}

/// Law: a checkpoint is spelled in at most one way.
pub fn each_is_spelled_once()
    ensures { (c : TheCheckpoint) (p q : PlainCheckpoint) → SpellsCheckpoint c p → SpellsCheckpoint c q → p ≡ q }
{}
