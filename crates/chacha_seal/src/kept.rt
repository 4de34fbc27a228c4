//! What a key keeps of what is derived from it.
ghost use Rattle.std.specs.Prelude.{◌≡◌, IfSome};

use crate::derived::{Derived, SealKeys};
use hmac_seal::tags_equal;
use std::alloc::Global;

/// What is kept of a key. No contract says what a cell holds, so what was derived of other bytes doesn't count: none ever is.
#[derive(Drop)]
pub(crate) enum Kept {
    Nothing,
    Keys(Box<SealKeys>),
    Derived(Box<Derived>),
}

impl Kept {
    /// All that the key seals with, where there is memory for it.
    pub(crate) fn with_derived(self, alloc: Global, bytes: &[u8; 32]) -> Kept {
        match self {
            Kept::Derived(derived) => Kept::Derived(derived),
            other => match Box::new(alloc, other.derive(bytes)) {
                Ok(derived) => Kept::Derived(derived),
                Err(_) => other,
            },
        }
    }

    /// From a first use on both keys, and from the second on all, where there is memory for them.
    pub(crate) fn with_use(self, alloc: Global, bytes: &[u8; 32]) -> Kept {
        let Kept::Nothing = self else {
            return self.with_derived(alloc, bytes);
        };
        match Box::new(alloc, SealKeys::of(bytes)) {
            Ok(keys) => Kept::Keys(keys),
            Err(_) => Kept::Nothing,
        }
    }

    /// What a key of these bytes seals with, where all of it is kept.
    pub(crate) fn derived(&self, bytes: &[u8; 32]) -> Option<&Derived>
        ensures { IfSome result (λ derived. derived.now ≡ bytes.now) }
    {
        match self {
            Kept::Derived(derived) if tags_equal(derived.bytes(), bytes) => Some(derived),
            _ => None,
        }
    }

    /// What a key of these bytes seals with, of its keys where they are kept.
    pub(crate) fn derive(&self, bytes: &[u8; 32]) -> Derived
        ensures { result ≡ bytes.now }
    {
        match self {
            Kept::Keys(keys) if tags_equal(keys.bytes(), bytes) => keys.begun(),
            _ => SealKeys::of(bytes).begun(),
        }
    }
}
