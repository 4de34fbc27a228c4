//! One grant, and its place among all.
ghost use Rattle.std.specs.Prelude.{◌≡◌, ◌<◌, ◌^◌, ◌==◌, not};
ghost use Rattle.grant_book.specs.Granted.{grant_of};
ghost use Rattle.grant_book.specs.Ranks.{rank_of, rank_on};

use cry_base::{FolderId, HolderId};
use sorted_table::{Key, Ranked};
use std::cmp::Ordering;
use std::marker::Model;

/// The holder may read the folder and all below it, or the file.
#[derive(Clone, Copy, Debug, PartialEq, Eq)]
pub struct Grant {
    /// Who may read.
    pub holder: HolderId,
    /// The folder that was granted, or the clearance number of the file.
    pub folder: FolderId,
}

impl Model for Grant {
    ghost use Rattle.cry_base.specs.Store.{GrantEntry};

    ghost Value = { GrantEntry };

    ghost view = { λ grant. record { holder = grant.holder.0; folder = grant.folder.0 } };

    ghost inverse = { λ entry. record { holder = record { 0 = entry.holder }; folder = record { 0 = entry.folder } } };
}

impl Grant {
    /// The grant of a folder, or of the file with the clearance number, to a holder.
    pub fn new(holder: HolderId, folder: FolderId) -> Grant
        ensures grant { result ≡ grant_of holder.0 folder.0 }
        ensures numbered { folder.0 < 2 ^ 32 }
    {
        let _number = folder.0;
        Grant { holder, folder }
    }

    /// Whether it is a grant on what that very number names.
    pub(crate) fn is_on(&self, folder: FolderId) -> bool
        ensures { result ≡ (self.now.folder == folder.0) }
    {
        self.folder.0 == folder.0
    }

    // Orders grants by holder and then by folder.
    fn rank(self) -> u64
        ensures { result ≡ rank_of self }
    {
        u64::from(self.holder.0) * 0x1_0000_0000 + u64::from(self.folder.0)
    }
}

impl Ranked for Grant {
    ghost rank = { rank_of };

    fn compare(&self, other: &Self) -> Ordering {
        self.rank().cmp(&other.rank())
    }
}

impl Key<Grant> for Grant {
    ghost sought = { rank_of };

    fn compare_row(&self, row: &Grant) -> Ordering {
        row.compare(self)
    }
}

/// A grant in the order by folder and then by holder.
#[derive(Clone, Copy, Debug)]
pub(crate) struct GrantOn(pub(crate) Grant);

impl Model for GrantOn {
    ghost use Rattle.cry_base.specs.Store.{GrantEntry};

    ghost Value = { GrantEntry };

    ghost view = { λ grant. grant.0 };

    ghost inverse = { λ entry. record { 0 = entry } };
}

impl GrantOn {
    /// Whether it isn't the holder's.
    pub(crate) fn is_others(&self, h: HolderId) -> bool
        ensures { result ≡ not (self.now.holder == h.0) }
    {
        self.0.holder.0 != h.0
    }

    fn rank(self) -> u64
        ensures { result ≡ rank_on self }
    {
        u64::from(self.0.folder.0) * 0x1_0000_0000 + u64::from(self.0.holder.0)
    }
}

impl Ranked for GrantOn {
    ghost rank = { rank_on };

    fn compare(&self, other: &Self) -> Ordering {
        self.rank().cmp(&other.rank())
    }
}

impl Key<GrantOn> for GrantOn {
    ghost sought = { rank_on };

    fn compare_row(&self, row: &GrantOn) -> Ordering {
        row.compare(self)
    }
}
