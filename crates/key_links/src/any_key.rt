//! Keys of any kind, as a ring keeps them.
ghost use Rattle.std.specs.Prelude.{◌≡◌, ◌==◌};
ghost use Rattle.key_links.specs.Drawn.{fresh_parts, fresh_role};
ghost use Rattle.key_links.specs.Ringed as spec;
ghost use Rattle.key_links.specs.Ringed.{key_rank, parts_of, role_of};

use crate::AnyFresh;
use chacha_seal::{BackK, ClearK, DataK, FileK, FilesK, HolderK, Key, OwnerK, SubK};
use cry_base::{FileId, FolderId, HolderId, Role, Serial};
use sorted_table::Ranked;
use std::alloc::Global;
use std::cmp::Ordering;

/// A key and its kind.
#[derive(Drop)]
pub(crate) enum AnyKey {
    Owner(Key<OwnerK>),
    Holder(Key<HolderK>),
    Clear(Key<ClearK>),
    Sub(Key<SubK>),
    Back(Key<BackK>),
    Files(Key<FilesK>),
    Data(Key<DataK>),
    File(Key<FileK>),
}

impl AnyKey {
    /// The key of its role from now on.
    #[tactic(auto, unfolding(crate::specs::Ringed::role_of, crate::specs::Ringed::parts_of, crate::specs::Drawn::fresh_role, crate::specs::Drawn::fresh_parts))]
    pub(crate) fn settled(fresh: AnyFresh) -> AnyKey
        ensures role { role_of result ≡ fresh_role fresh }
        ensures parts { parts_of result ≡ fresh_parts fresh }
    {
        match fresh {
            AnyFresh::Holder(key) => AnyKey::Holder(key.settle()),
            AnyFresh::Clear(key) => AnyKey::Clear(key.settle()),
            AnyFresh::Sub(key) => AnyKey::Sub(key.settle()),
            AnyFresh::Back(key) => AnyKey::Back(key.settle()),
            AnyFresh::Files(key) => AnyKey::Files(key.settle()),
            AnyFresh::Data(key) => AnyKey::Data(key.settle()),
            AnyFresh::File(key) => AnyKey::File(key.settle()),
        }
    }

    /// The serial that the key was made with.
    #[tactic(auto, unfolding(crate::specs::Ringed::parts_of))]
    pub(crate) fn serial(&self) -> Serial
        ensures { result.0 ≡ (parts_of self.now).serial }
    {
        match self {
            AnyKey::Owner(key) => key.serial(),
            AnyKey::Holder(key) => key.serial(),
            AnyKey::Clear(key) => key.serial(),
            AnyKey::Sub(key) => key.serial(),
            AnyKey::Back(key) => key.serial(),
            AnyKey::Files(key) => key.serial(),
            AnyKey::Data(key) => key.serial(),
            AnyKey::File(key) => key.serial(),
        }
    }

    /// The role that the key is for.
    #[tactic(auto, unfolding(crate::specs::Ringed::role_of))]
    pub(crate) fn role(&self) -> Role
        ensures { result ≡ role_of self.now }
    {
        match self {
            AnyKey::Owner(_) => Role::Owner,
            AnyKey::Holder(key) => Role::Holder(HolderId(key.id())),
            AnyKey::Clear(key) => Role::Clear(FolderId(key.id())),
            AnyKey::Sub(key) => Role::Sub(FolderId(key.id())),
            AnyKey::Back(key) => Role::Back(FolderId(key.id())),
            AnyKey::Files(key) => Role::Files(FolderId(key.id())),
            AnyKey::Data(key) => Role::Data(FolderId(key.id())),
            AnyKey::File(key) => Role::File(FileId(key.id())),
        }
    }

    /// Keeps what it seals with for all later uses, where there is memory.
    pub(crate) fn keep_derived(&self, alloc: Global) {
        match self {
            AnyKey::Owner(key) => key.keep_derived(alloc),
            AnyKey::Holder(key) => key.keep_derived(alloc),
            AnyKey::Clear(key) => key.keep_derived(alloc),
            AnyKey::Sub(key) => key.keep_derived(alloc),
            AnyKey::Back(key) => key.keep_derived(alloc),
            AnyKey::Files(key) => key.keep_derived(alloc),
            AnyKey::Data(key) => key.keep_derived(alloc),
            AnyKey::File(key) => key.keep_derived(alloc),
        }
    }

    /// Keeps what it opens with for all later uses, where there is memory: of a kind whose keys mostly open one record all of it from
    /// the second on, since that is three times as large.
    pub(crate) fn keep_for_opening(&self, alloc: Global) {
        match self {
            AnyKey::Clear(key) => key.keep_seal_keys(alloc),
            AnyKey::Back(key) => key.keep_seal_keys(alloc),
            AnyKey::Data(key) => key.keep_seal_keys(alloc),
            AnyKey::File(key) => key.keep_seal_keys(alloc),
            _ => self.keep_derived(alloc),
        }
    }

    /// Its place among others, by which it is looked up.
    #[tactic(auto, unfolding(crate::specs::Ringed::key_rank))]
    pub(crate) fn place(&self) -> Place
        ensures { result.0 ≡ key_rank self.now }
    {
        Place::of(self.role())
    }
}

impl Ranked for AnyKey {
    ghost rank = { key_rank };

    fn compare(&self, other: &Self) -> Ordering {
        self.place().0.cmp(&other.place().0)
    }
}

/// A role's place, by which its key is looked up.
#[derive(Drop)]
pub(crate) struct Place(u64);

impl Place {
    /// The place of the role's key.
    #[tactic(auto, unfolding(crate::specs::Ringed::rank_of))]
    pub(crate) fn of(role: Role) -> Place
        ensures { result.0 ≡ spec.rank_of role }
    {
        Place(match role {
            Role::Owner => 0,
            Role::Holder(h) => u64::from(h.0) * 8 + 1,
            Role::Clear(f) => u64::from(f.0) * 8 + 2,
            Role::Sub(f) => u64::from(f.0) * 8 + 3,
            Role::Back(f) => u64::from(f.0) * 8 + 4,
            Role::Files(f) => u64::from(f.0) * 8 + 5,
            Role::Data(f) => u64::from(f.0) * 8 + 6,
            Role::File(x) => u64::from(x.0) * 8 + 7,
        })
    }

    /// Whether the key has this place.
    pub(crate) fn is_of(&self, key: &AnyKey) -> bool
        ensures { result ≡ (key_rank key.now == self.now.0) }
    {
        key.place().0 == self.0
    }
}

impl sorted_table::Key<AnyKey> for Place {
    ghost sought = { λ place. place.0 };

    fn compare_row(&self, row: &AnyKey) -> Ordering {
        row.place().0.cmp(&self.0)
    }

    // Of the tables of two kinds each folder has two rows (`KeysByKind`), of the others its bearer has one.
    fn guess(&self) -> usize {
        let before = (self.0 / 8).saturating_sub(1) as usize;
        match self.0 % 8 {
            2 | 4 => before * 2,
            3 | 5 => before * 2 + 1,
            _ => before,
        }
    }
}
