//! Keys in a table for each kind of role, found by their roles.
ghost use Rattle.std.specs.Prelude.{◌≡◌, ℕ, ◌+◌, ◌≤◌, ◌∷◌, ◌++◌, List, length, cond, option_map, IfOk, IsOk, OnOk, Some, None};
ghost use Rattle.cry_base.specs.declared.roles.Role.{Role as AnyRole};
ghost use Rattle.public_fold.specs.KeyStep.{keys_without};
ghost use Rattle.public_fold.specs.KeyTables.{IsTableOf, serial_in};
ghost use Rattle.role_graph.specs.Roles.{same_role};

use crate::KeyHead;
use crate::key_rows::{KeyRow, put_row, remove_row, serial_among};
use crate::kinds::{KINDS, kind_of};
use cry_base::{Mem, Role, Serial};
use sorted_table::Blocks;
use std::alloc::Global;
use std::marker::Model;

/// One key a role. Numbers rise within a kind of role, so that a key that comes for a new folder or file stands behind all others in its
/// table, and one that goes moves those of its own block alone. `spare` is how many more fit without memory, of whatever kinds.
#[derive(Drop)]
pub(crate) struct KeysByKind {
    tables: [Blocks<KeyRow>; KINDS],
}

impl Model for KeysByKind {
    ghost use Rattle.std.specs.Prelude.{◌≡◌, length, map};
    ghost use Rattle.public_fold.specs.KeyTables.{KeyRows, least};

    ghost Value = { KeyRows };

    ghost view = { λ k. record { tables = map (λ t. t.rows) k.tables; spare = least (map (λ t. t.spare) k.tables) } };

    ghost invariant = { λ k. length k.tables ≡ 7 };
}

impl KeysByKind {
    /// No keys. It takes no memory.
    pub(crate) fn new(alloc: Global) -> KeysByKind
        ensures { (role : AnyRole) → serial_in result role ≡ None }
    {
        KeysByKind {
            tables: [
                Blocks::new(alloc),
                Blocks::new(alloc),
                Blocks::new(alloc),
                Blocks::new(alloc),
                Blocks::new(alloc),
                Blocks::new(alloc),
                Blocks::new(alloc),
            ],
        }
    }

    /// The serial of the role's key, where it has one.
    pub(crate) fn serial(&self, role: Role) -> Option<Serial>
        ensures { option_map (λ serial. serial.0) result ≡ serial_in self.now role }
    {
        serial_among(&self.tables[kind_of(role)], role)
    }

    /// Makes room for at least so many keys beside those that are there.
    pub(crate) fn reserve(&mut self, more: usize) -> Mem<()>
        ensures serials { (role : AnyRole) → serial_in self.new role ≡ serial_in self.old role }
        ensures room { OnOk result (more ≤ self.new.spare) }
        ensures kept { self.old.spare ≤ self.new.spare }
        ensures has_room { more ≤ self.old.spare → IsOk result }
    {
        for kind in 0..KINDS {
            self.tables[kind].reserve(more)?;
        }
        Ok(())
    }

    /// Puts the key into the place of its role's, or beside the others where the role has none. It takes no memory.
    pub(crate) fn put(&mut self, key: KeyHead)
        requires { 1 ≤ self.old.spare }
        ensures serials { (role : AnyRole) → serial_in self.new role ≡ cond (same_role key.0 role) (Some key.1) (serial_in self.old role) }
        ensures spare { self.old.spare ≤ self.new.spare + 1 }
    {
        put_row(&mut self.tables[kind_of(key.role)], key);
    }

    /// Takes out the role's key, where it has one.
    pub(crate) fn remove(&mut self, gone: Role)
        ensures serials { (role : AnyRole) → serial_in self.new role ≡ cond (same_role role gone) None (serial_in self.old role) }
        ensures spare { self.old.spare ≤ self.new.spare }
    {
        remove_row(&mut self.tables[kind_of(gone)], gone);
    }

    /// Equal keys, with memory of their own.
    pub(crate) fn copy(&self) -> Mem<KeysByKind>
        ensures { IfOk result (λ copy. (role : AnyRole) → serial_in copy role ≡ serial_in self.now role) }
    {
        let [holders, clear, sub, back, files, data, file] = &self.tables;
        let tables = [
            holders.copy()?,
            clear.copy()?,
            sub.copy()?,
            back.copy()?,
            files.copy()?,
            data.copy()?,
            file.copy()?,
        ];
        Ok(KeysByKind { tables })
    }
}

/// Takes the keys of some roles out.
pub(crate) fn remove_keys(rows: &mut KeysByKind, gone: &[Role])
    ensures keys { (keys : List (AnyRole × ℕ)) → IsTableOf keys rows.old → IsTableOf (keys_without gone.now keys) rows.new }
    ensures spare { rows.old.spare ≤ rows.new.spare }
{
    for role in gone {
        rows.remove(*role);
    }
}

/// Puts these keys before those that are there: of two for one role the first one counts.
pub(crate) fn set_keys(rows: &mut KeysByKind, given: &[KeyHead])
    requires { length given.now ≤ rows.old.spare }
    ensures keys { (keys : List (AnyRole × ℕ)) → IsTableOf keys rows.old → IsTableOf (given.now ++ keys) rows.new }
    ensures spare { rows.old.spare ≤ rows.new.spare + length given.now }
{
    for key in given.iter().rev() {
        set_key(rows, *key);
    }
}

/// Puts these keys before those that are there, with memory for each.
pub(crate) fn add_keys(rows: &mut KeysByKind, given: &[KeyHead]) -> Mem<()>
    ensures { OnOk result ((keys : List (AnyRole × ℕ)) → IsTableOf keys rows.old → IsTableOf (given.now ++ keys) rows.new) }
{
    for key in given.iter().rev() {
        rows.reserve(1)?;
        set_key(rows, *key);
    }
    Ok(())
}

/// Puts the key before those that are there.
fn set_key(rows: &mut KeysByKind, key: KeyHead)
    requires { 1 ≤ rows.old.spare }
    ensures keys { (keys : List (AnyRole × ℕ)) → IsTableOf keys rows.old → IsTableOf (key ∷ keys) rows.new }
    ensures spare { rows.old.spare ≤ rows.new.spare + 1 }
{
    rows.put(key);
}
