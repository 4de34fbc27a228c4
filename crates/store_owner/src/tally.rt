//! The figures of a session: what was done in it, and where the store stands.

/// What an owner did, and what its store has come to.
#[derive(Clone, Copy, Debug, PartialEq, Eq)]
pub struct Tally {
    /// The commands that this owner accepted. The making of the store is none.
    pub commands: u64,
    /// The links that this owner published, those of the making included.
    pub links: u64,
    /// The contents that this owner published, that of the making included.
    pub contents: u64,
    /// The dirty roles: their keys are renewed before anything new is sealed under them.
    pub dirty: u64,
    /// The place where the store's log ends, in bytes.
    pub bytes: u64,
}
