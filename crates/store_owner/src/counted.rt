//! How many commands an owner accepted, and how many records it published.
ghost use Rattle.std.specs.Prelude.{◌≡◌};
ghost use Rattle.cry_base.specs.Limits.{most_store_bytes};
ghost use Rattle.store_owner.specs.Counted.{IsWithin, counted_with};
ghost use Rattle.store_owner.specs.Deeds.{deed_of};

use crate::asked::Asked;
use crate::change::Change;

/// Counts that begin at 0 when a store is opened.
#[derive(Clone, Copy, Debug, PartialEq, Eq)]
pub(crate) struct Counted {
    pub(crate) commands: u64,
    pub(crate) links: u64,
    pub(crate) contents: u64,
}

/// What an owner counted who opened a store.
pub(crate) const NONE: Counted = Counted {
    commands: 0,
    links: 0,
    contents: 0,
};

/// What an owner counted who made one: the records of the root. The making is no command.
pub(crate) const ROOT: Counted = Counted {
    commands: 0,
    links: 5,
    contents: 1,
};

impl Counted {
    /// What is counted once this change stands, which was asked for.
    pub(crate) fn with(self, asked: &Asked<'_>, change: &Change) -> Counted
        requires within { IsWithin (counted_with self (deed_of asked.now) change.now.ready.skeleton) most_store_bytes }
        ensures { result ≡ counted_with self (deed_of asked.now) change.now.ready.skeleton }
    {
        let skeleton = change.ready.skeleton();
        let links = skeleton.links.as_slice().len();
        let contents = skeleton.contents.as_slice().len();
        Counted {
            commands: self.commands + asked.commands(),
            links: self.links + links as u64,
            contents: self.contents + contents as u64,
        }
    }
}
