//! In which order the keys of a state were given. Only clauses read it, and it takes no bytes.
ghost use Rattle.std.specs.Prelude.{◌≡◌, ℕ, List, [], ◌++◌};
ghost use Rattle.std.specs.Borrow.{ftrue};
ghost use Rattle.cry_base.specs.declared.roles.Role.{Role as AnyRole};
ghost use Rattle.public_fold.specs.KeyStep.{keys_without};
ghost use Rattle.public_fold.specs.KeyOrders.{agreed_order};

use crate::KeyHead;
use cry_base::Role;
use std::marker::Model;

/// The keys of a state in the order in which they were given, the newest first. Only clauses read it, and it takes no bytes.
#[derive(Drop)]
pub struct KeyOrder {
    pub ghost keys: { List (AnyRole × ℕ) },
}

impl Model for KeyOrder {
    ghost also_owns = { λ _. ftrue };
}

impl KeyOrder {
    /// No key was given.
    pub(crate) fn new() -> KeyOrder
        ensures { result.keys ≡ [] }
    {
        KeyOrder {}
    }

    /// These keys are given, and the old ones of some roles go.
    pub(crate) fn giving(&self, _given: &[KeyHead], _gone: &[Role]) -> KeyOrder
        ensures { result.keys ≡ _given.now ++ keys_without _gone.now self.now.keys }
    {
        KeyOrder {}
    }

    /// The other order, where each role has the same newest key in it, and else this one.
    pub(crate) fn agreeing(&self, _other: &KeyOrder) -> KeyOrder
        ensures { result.keys ≡ agreed_order self.now.keys _other.now.keys }
    {
        KeyOrder {}
    }
}
