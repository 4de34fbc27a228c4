//! The keys that an owner or a reader has, one for each role.
ghost use Rattle.std.specs.Prelude.{◌≡◌, ◌+◌, ◌≤◌, ◌↔◌, IsOk, IsSome, OnOk, option_copied, option_to_list};
ghost use Rattle.cry_base.specs.declared.roles.Role.TheVariants.{Holder, Owner};
ghost use Rattle.key_links.specs.Drawn.{fresh_parts, fresh_role};
ghost use Rattle.key_links.specs.Ringed.{IsAlone, IsWithKey, IsWithoutKey, found, key_of, key_rank, parts_of, role_of, serial_in};
ghost use Rattle.sorted_table.specs.Rows.{without};

use crate::AnyFresh;
use crate::any_key::{AnyKey, Place};
use crate::by_kind::KeysByKind;
use chacha_seal::{HolderK, Key, OwnerK};
use cry_base::{Mem, Role, Serial};
use std::alloc::Global;
use std::marker::Model;

/// The keys that an owner or a reader has, found by their roles. `spare` is how many more fit without memory; it may
/// be more than was asked for. What its keys seal with is kept from one use to the next, where there is memory; want of it changes
/// nothing but how much is derived anew.
#[derive(Drop)]
pub struct KeyRing {
    pub(crate) alloc: Global,
    // The key that the ring began with, which needs no room in the table.
    root: Option<AnyKey>,
    held: KeysByKind,
}

impl Model for KeyRing {
    ghost use Rattle.std.specs.Prelude.{◌++◌, option_to_list};
    ghost use Rattle.key_links.specs.Ringed.{Ringed};

    ghost Value = { Ringed };

    ghost view = { λ ring. record { keys = option_to_list ring.root ++ ring.held.rows; spare = ring.held.spare } };
}

impl KeyRing {
    /// The ring of an owner, who has no other key yet. It takes no memory.
    pub fn new(alloc: Global, owner: Key<OwnerK>) -> KeyRing
        ensures { IsAlone result Owner owner }
    {
        KeyRing {
            alloc,
            root: Some(AnyKey::Owner(owner)),
            held: KeysByKind::new(alloc),
        }
    }

    /// The ring of a holder, who has no other key yet. It takes no memory.
    pub fn of_holder(alloc: Global, key: Key<HolderK>) -> KeyRing
        ensures { IsAlone result (Holder (record { 0 = key.id })) key }
    {
        KeyRing {
            alloc,
            root: Some(AnyKey::Holder(key)),
            held: KeysByKind::new(alloc),
        }
    }

    /// Makes room for at least so many keys beside those that are there. At `Err` the keys are as they were.
    pub fn reserve(&mut self, keys: usize) -> Mem<()>
        ensures keys { self.new.keys ≡ self.old.keys }
        ensures room { OnOk result (keys ≤ self.new.spare) }
        ensures kept { self.old.spare ≤ self.new.spare }
        ensures has_room { keys ≤ self.old.spare → IsOk result }
    {
        self.held.reserve(keys)
    }

    /// The serial of the role's key, and `None` where the ring has none.
    pub fn present(&self, role: Role) -> Option<Serial>
        ensures serial { result ≡ serial_in self.now role }
        ensures there { IsSome result ↔ IsSome (key_of self.now role) }
    {
        match self.find(role) {
            Some(key) => Some(key.serial()),
            None => None,
        }
    }

    /// Makes the key that of its role from now on, in the place of the one that the role had. It takes no memory.
    pub fn renew(&mut self, fresh: AnyFresh)
        requires { 1 ≤ self.old.spare }
        ensures key { IsWithKey self.new self.old (fresh_role fresh) (fresh_parts fresh) }
        ensures spare { self.old.spare ≤ self.new.spare + 1 }
    {
        self.keep(AnyKey::settled(fresh));
    }

    /// Keeps a holder's key, in the place of the one that the ring had for the holder. It takes no memory.
    #[tactic(auto, unfolding(crate::specs::Ringed::role_of, crate::specs::Ringed::parts_of))]
    pub fn adopt_holder(&mut self, key: Key<HolderK>)
        requires { 1 ≤ self.old.spare }
        ensures key { IsWithKey self.new self.old (Holder (record { 0 = key.id })) key }
        ensures spare { self.old.spare ≤ self.new.spare + 1 }
    {
        self.keep(AnyKey::Holder(key));
    }

    /// Keeps the owner's key, in the place of the one that the ring had. It takes no memory.
    #[tactic(auto, unfolding(crate::specs::Ringed::role_of, crate::specs::Ringed::parts_of))]
    pub fn adopt_owner(&mut self, key: Key<OwnerK>)
        requires { 1 ≤ self.old.spare }
        ensures key { IsWithKey self.new self.old Owner key }
        ensures spare { self.old.spare ≤ self.new.spare + 1 }
    {
        self.keep(AnyKey::Owner(key));
    }

    /// Gives the role's key up, where there is one. It takes no memory.
    pub fn forget(&mut self, role: Role)
        ensures key { IsWithoutKey self.new self.old role }
        ensures spare { self.old.spare ≤ self.new.spare }
    {
        self.empty(&Place::of(role));
    }

    /// The role's key.
    pub(crate) fn find(&self, role: Role) -> Option<&AnyKey>
        ensures { option_copied result ≡ found self.now.keys role }
    {
        let place = Place::of(role);
        match &self.root {
            Some(key) if place.is_of(key) => Some(key),
            _ => self.held.find(role, &place),
        }
    }

    /// Puts the key into its place, where there is room.
    pub(crate) fn keep(&mut self, key: AnyKey)
        requires { 1 ≤ self.old.spare }
        ensures key { IsWithKey self.new self.old (role_of key) (parts_of key) }
        ensures spare { self.old.spare ≤ self.new.spare + 1 }
    {
        empty_root(&mut self.root, &key.place());
        self.held.put(key);
    }

    // Takes out the key at the place.
    fn empty(&mut self, place: &Place)
        ensures keys { self.new.keys ≡ without key_rank self.old.keys place.now.0 }
        ensures spare { self.old.spare ≤ self.new.spare }
    {
        empty_root(&mut self.root, place);
        self.held.remove(place);
    }
}

fn empty_root(root: &mut Option<AnyKey>, place: &Place)
    ensures { option_to_list root.new ≡ without key_rank (option_to_list root.old) place.now.0 }
{
    if root.as_ref().is_some_and(|key| place.is_of(key)) {
        *root = None;
    }
}
