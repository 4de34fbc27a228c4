//! Keys in a table for each kind of role, or for two whose keys come in turn.
ghost use Rattle.std.specs.Prelude.{◌≡◌, ◌+◌, ◌≤◌, [], IsOk, OnOk};
ghost use Rattle.std.specs.Option.{option_copied};
ghost use Rattle.key_links.specs.ByKind.{IsFoundBeside};
ghost use Rattle.key_links.specs.Ringed.{key_rank, rank_of};
ghost use Rattle.sorted_table.specs.Rows.{row_at, without};

use crate::any_key::{AnyKey, Place};
use cry_base::{Mem, Role};
use sorted_table::Table;
use std::alloc::Global;
use std::marker::Model;

/// Keys of which no two have one place, each in the table of its kind. A key that comes for a new folder or file stands behind
/// all in its table, so that it moves none of the others. `spare` is how many more fit without memory, of whatever kinds.
#[derive(Drop)]
pub(crate) struct KeysByKind {
    holders: Table<AnyKey>,
    entries: Table<AnyKey>,
    ways: Table<AnyKey>,
    titles: Table<AnyKey>,
    files: Table<AnyKey>,
}

impl Model for KeysByKind {
    ghost use Rattle.std.specs.Prelude.{◌++◌, min};
    ghost use Rattle.key_links.specs.ByKind.{AreSorted};
    ghost use Rattle.key_links.specs.declared.any_key.AnyKey.{AnyKey as TheKey};
    ghost use Rattle.sorted_table.specs.Tabled.{Tabled};

    ghost Value = { Tabled TheKey };

    ghost view = { λ k. record {
      rows = k.holders.rows ++ (k.entries.rows ++ (k.ways.rows ++ (k.titles.rows ++ k.files.rows)));
      spare = min k.holders.spare (min k.entries.spare (min k.ways.spare (min k.titles.spare k.files.spare)));
    } };

    ghost invariant = { λ k. AreSorted k.holders.rows k.entries.rows k.ways.rows k.titles.rows k.files.rows };
}

impl KeysByKind {
    /// No keys. It takes no memory.
    pub(crate) fn new(alloc: Global) -> KeysByKind
        ensures { result.rows ≡ [] }
    {
        KeysByKind {
            holders: Table::new(alloc),
            entries: Table::new(alloc),
            ways: Table::new(alloc),
            titles: Table::new(alloc),
            files: Table::new(alloc),
        }
    }

    /// Makes room for at least so many keys beside those that are there.
    pub(crate) fn reserve(&mut self, keys: usize) -> Mem<()>
        ensures rows { self.new.rows ≡ self.old.rows }
        ensures room { OnOk result (keys ≤ self.new.spare) }
        ensures kept { self.old.spare ≤ self.new.spare }
        ensures has_room { keys ≤ self.old.spare → IsOk result }
    {
        self.holders.reserve(keys)?;
        self.entries.reserve(keys)?;
        self.ways.reserve(keys)?;
        self.titles.reserve(keys)?;
        self.files.reserve(keys)
    }

    /// The key at the place, which is the role's.
    pub(crate) fn find(&self, role: Role, place: &Place) -> Option<&AnyKey>
        requires { place.now.0 ≡ rank_of role }
        ensures { option_copied result ≡ row_at key_rank self.now.rows place.now.0 }
    {
        match role {
            Role::Owner | Role::Holder(_) => self.holders.find(place),
            Role::Clear(_) | Role::Sub(_) => self.entries.find(place),
            Role::Back(_) | Role::Files(_) => self.ways.find(place),
            Role::Data(_) => self.titles.find(place),
            Role::File(_) => self.files.find(place),
        }
    }

    /// Puts the key in the place of the one that has its place, or beside the others where none has, where there is room. One that
    /// is replaced moves no other. It takes no memory.
    pub(crate) fn put(&mut self, key: AnyKey)
        requires { 1 ≤ self.old.spare }
        ensures rows { IsFoundBeside key self.old.rows self.new.rows }
        ensures spare { self.old.spare ≤ self.new.spare + 1 }
    {
        match key.role() {
            Role::Owner | Role::Holder(_) => put_row(&mut self.holders, key),
            Role::Clear(_) | Role::Sub(_) => put_row(&mut self.entries, key),
            Role::Back(_) | Role::Files(_) => put_row(&mut self.ways, key),
            Role::Data(_) => put_row(&mut self.titles, key),
            Role::File(_) => put_row(&mut self.files, key),
        }
    }

    /// Takes out the key at the place, where there is one.
    pub(crate) fn remove(&mut self, place: &Place)
        ensures rows { self.new.rows ≡ without key_rank self.old.rows place.now.0 }
        ensures spare { self.old.spare ≤ self.new.spare }
    {
        let _ = self.holders.remove(place);
        let _ = self.entries.remove(place);
        let _ = self.ways.remove(place);
        let _ = self.titles.remove(place);
        let _ = self.files.remove(place);
    }
}

/// Puts the key in the place of the one that has its place, or beside the others where none has.
fn put_row(rows: &mut Table<AnyKey>, key: AnyKey)
    requires { 1 ≤ rows.old.spare }
    ensures rows { IsFoundBeside key rows.old.rows rows.new.rows }
    ensures spare { rows.old.spare ≤ rows.new.spare + 1 }
{
    if rows.find(&key.place()).is_some() {
        rows.replace(key);
    } else {
        rows.insert(key);
    }
}
