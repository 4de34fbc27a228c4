//! The batches that a log gave, and what was known before each. Only clauses read them, and they take no bytes.
ghost use Rattle.std.specs.Prelude.{◌≡◌, List, [], ◌∷◌, ◌++◌};
ghost use Rattle.std.specs.Borrow.{ftrue};
ghost use Rattle.commit_journal.specs.declared.past.Past.{Past as ThePast};
ghost use Rattle.commit_journal.specs.Placed.{PlainPlaced, plain_placed};

use crate::{Past, Placed};
use std::marker::Model;

/// The batches, in order, and what was known before each.
#[derive(Drop)]
pub struct Given {
    pub ghost batches: { List PlainPlaced },
    pub ghost starts: { List ThePast },
}

impl Model for Given {
    ghost also_owns = { λ _. ftrue };
}

impl Given {
    /// No batch was given.
    pub(crate) fn new() -> Given
        ensures { (result.batches ≡ []) × (result.starts ≡ []) }
    {
        Given {}
    }

    /// One batch more, and what was known before it.
    pub(crate) fn adding(&self, _placed: &Placed, _past: &Past) -> Given
        ensures { (result.batches ≡ self.now.batches ++ plain_placed _placed.now ∷ [])
            × (result.starts ≡ self.now.starts ++ _past.now ∷ []) }
    {
        Given {}
    }
}
