//! All bytes that were fed. Only clauses read them, and they take no memory.
ghost use Rattle.std.specs.Prelude.{◌≡◌, ℕ, List, [], ◌++◌};
ghost use Rattle.std.specs.Borrow.{ftrue};

use std::marker::Model;

/// The bytes, the first that came first.
#[derive(Drop)]
pub(crate) struct Fed {
    pub ghost bytes: { List ℕ },
}

impl Model for Fed {
    ghost also_owns = { λ _. ftrue };
}

impl Fed {
    /// None were fed.
    pub(crate) fn new() -> Fed
        ensures { result.bytes ≡ [] }
    {
        Fed {}
    }

    /// These were fed behind them.
    pub(crate) fn with(&self, _piece: &[u8]) -> Fed
        ensures { result.bytes ≡ self.now.bytes ++ _piece.now }
    {
        Fed {}
    }
}
