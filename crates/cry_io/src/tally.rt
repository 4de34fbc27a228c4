//! A count that only clauses read. It has no end, so that "it rose" is a plain `<`, and it takes no bytes.
ghost use Rattle.std.specs.Prelude.{◌≡◌, ◌+◌, ℕ};
ghost use Rattle.std.specs.Borrow.{ftrue};

use std::marker::Model;

/// How often something has happened.
#[derive(Drop)]
pub struct Tally {
    pub ghost count: { ℕ },
}

impl Model for Tally {
    ghost also_owns = { λ _. ftrue };
}

impl Tally {
    /// Nothing has happened.
    pub(crate) fn new() -> Tally
        ensures { result.count ≡ 0 }
    {
        Tally {}
    }

    /// It has happened once more.
    pub(crate) fn raised(&self) -> Tally
        ensures { result.count ≡ self.now.count + 1 }
    {
        Tally {}
    }
}
