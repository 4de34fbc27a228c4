//! The public state: what everyone who has read the payloads so far knows of the tree, the grants and the keys.
ghost use Rattle.std.specs.Prelude.{◌≡◌, ◌<◌, true, IfOk, option_map};
ghost use Rattle.public_fold.specs.Journal.{nothing};
ghost use Rattle.public_fold.specs.KeyStep.{is_strict as is_strict_state, newest, next_epoch};
ghost use Rattle.public_fold.specs.Preparing.{begun_keys};
ghost use Rattle.public_fold.specs.Standing.{IsSeenAs, stand_of, with_room_of};

use crate::KeyHead;
use crate::counter::SerialCount;
use crate::keys::KeyTable;
use cry_base::{Epoch, Mem, Role, Serial};
use folder_nodes::Shape;
use grant_book::Grants;
use rekey_walk::Dirty;
use std::alloc::Global;
use std::marker::Model;

/// The tree without names, the holders and the grants, each role's newest serial, the dirty roles, where the counter of
/// serials stands, and the version. No secret is in it. All that edges lead to from a dirty role is dirty. `spare` is how many changes of
/// tree, holders and grants have their memory, and `key_spare` how many keys more; either may be more than was asked for.
#[derive(Drop)]
pub struct PublicState {
    pub(crate) shape: Shape,
    pub(crate) grants: Grants,
    pub(crate) keys: KeyTable,
    pub(crate) dirty: Dirty,
    pub(crate) epoch: u32,
    pub(crate) count: u32,
    pub(crate) version: u8,
}

impl Model for PublicState {
    ghost use Rattle.std.specs.Prelude.{min};
    ghost use Rattle.move_plan.specs.Seen.{seen_store};
    ghost use Rattle.public_fold.specs.Keyed.{IsKept};
    ghost use Rattle.public_fold.specs.Standing.{PublicView};

    ghost Value = { PublicView };

    ghost view = { λ s. record {
      tree = s.shape.tree;
      checks = s.grants.checks;
      pairs = s.grants.pairs;
      keys = record { keys = s.keys.keys; dirty = s.dirty; epoch = s.epoch; count = s.count; version = s.version };
      spare = min s.shape.spare s.grants.spare;
      key_spare = s.keys.spare;
    } };

    ghost invariant = { λ s. IsKept (seen_store s.shape.tree s.grants) s.keys.keys s.dirty };
}

impl PublicState {
    /// Before the first payload: the owner's key alone, of serial 0.
    #[tactic(auto, unfolding(crate::specs::Journal::nothing, crate::specs::KeyStep::no_keys, crate::specs::KeyStep::keys_without, cry_base::specs::Store::no_store))]
    pub fn new(alloc: Global) -> Mem<PublicState>
        ensures { IfOk result (λ s. IsSeenAs s nothing) }
    {
        let owner = KeyHead {
            role: Role::Owner,
            serial: Serial(0),
        };
        let mut keys = KeyTable::new(alloc);
        keys.reserve(1)?;
        keys.take(&[owner], &[]);
        Ok(PublicState {
            shape: Shape::new(alloc),
            grants: Grants::new(alloc),
            keys,
            dirty: Dirty::new(alloc),
            epoch: 0,
            count: 0,
            version: 0,
        })
    }

    /// A law: the state is what everyone may see of the stand that it tells of.
    pub fn is_seen(&self)
        ensures { IsSeenAs self.now (stand_of self.now) }
    {
        let _pairs = self.grants.pairs();
    }

    /// The folders and the files.
    pub fn shape(&self) -> &Shape
        ensures { result.now.tree ≡ self.now.tree }
    {
        &self.shape
    }

    /// The holders, each with the check of its key, and the grants.
    pub fn grants(&self) -> &Grants
        ensures checks { result.now.checks ≡ self.now.checks }
        ensures pairs { result.now.pairs ≡ self.now.pairs }
    {
        &self.grants
    }

    /// The roles whose keys a revoked reader may know.
    pub fn dirty(&self) -> &Dirty
        ensures { result.now ≡ self.now.keys.dirty }
    {
        &self.dirty
    }

    /// The serial of the role's newest key, where it has one. It takes at most about log2 of all keys steps.
    pub fn present(&self, role: Role) -> Option<Serial>
        ensures { option_map (λ serial. serial.0) result ≡ newest self.now.keys.keys role }
    {
        self.keys.newest(role)
    }

    /// The epoch that the counter of serials is in, and 0 before the first.
    pub fn epoch(&self) -> Epoch
        ensures { result.0 ≡ self.now.keys.epoch }
    {
        Epoch(self.epoch)
    }

    /// The version: 0 before the root is made, and then 1 or 2. In a store of version 2 what leaves a folder is closed to whoever comes
    /// later.
    pub fn version(&self) -> u8
        ensures { result ≡ self.now.keys.version }
    {
        self.version
    }

    /// Whether what leaves a folder is closed to whoever comes later: so it is in version 2.
    #[tactic(auto, unfolding(crate::specs::KeyStep::is_strict))]
    pub(crate) fn is_strict(&self) -> bool
        ensures { result ≡ is_strict_state self.now.keys }
    {
        self.version == 2
    }

    /// Begins the next epoch: serials are counted from 0 in it. It takes no memory.
    #[tactic(auto, unfolding(crate::specs::KeyStep::next_epoch))]
    pub fn next_epoch(&mut self)
        requires { self.old.keys.epoch < 4294967295 }
        ensures { self.new ≡ record self.old { keys = next_epoch self.old.keys } }
    {
        self.epoch += 1;
        self.count = 0;
    }

    /// Where the counter of serials stands, once the next epoch is begun where one is wanted.
    #[tactic(auto, unfolding(crate::specs::Preparing::begun_keys, crate::specs::KeyStep::next_epoch))]
    pub(crate) fn counts_from(&self, new_epoch: bool) -> SerialCount
        requires { new_epoch ≡ true → self.now.keys.epoch < 4294967295 }
        ensures { record self.now.keys { epoch = result.epoch; count = result.count } ≡ begun_keys new_epoch self.now.keys }
    {
        if new_epoch {
            return SerialCount {
                epoch: self.epoch + 1,
                count: 0,
            };
        }
        SerialCount {
            epoch: self.epoch,
            count: self.count,
        }
    }

    /// An equal state, with memory of its own. It copies all that stands.
    pub fn copy(&self) -> Mem<PublicState>
        ensures { IfOk result (λ s. s ≡ with_room_of self.now s) }
    {
        let shape = self.shape.copy()?;
        let grants = self.grants.copy()?;
        let keys = self.keys.copy()?;
        let dirty = self.dirty.copy()?;
        Ok(PublicState {
            shape,
            grants,
            keys,
            dirty,
            epoch: self.epoch,
            count: self.count,
            version: self.version,
        })
    }
}
