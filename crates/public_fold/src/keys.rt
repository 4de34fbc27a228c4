//! The newest key of each role, found by the role.
ghost use Rattle.std.specs.Prelude.{◌≡◌, ◌+◌, ◌≤◌, [], ◌++◌, length, option_map, IfOk, IsOk, OnOk};
ghost use Rattle.public_fold.specs.KeyStep.{keys_without, newest, present};
ghost use Rattle.public_fold.specs.KeyOrders.{agreed_order};
ghost use Rattle.public_fold.specs.KeysAfter.{keys_then_of};

use crate::KeyHead;
use crate::by_kind::{KeysByKind, add_keys, remove_keys, set_keys};
use crate::key_order::KeyOrder;
use cry_base::{Mem, Role, Serial};
use rekey_walk::{has_role, is_same_role};
use std::alloc::Global;
use std::marker::Model;

/// For how many keys room is made at once, at the least: so most steps find it made, and ask no table.
const AHEAD: usize = 16;

/// The newest key of each role. Contracts see the keys as a list, the newest first; there is one row a role, in the table of
/// its kind. `spare` is how many more fit without memory; it may be more than was asked for.
#[derive(Drop)]
pub(crate) struct KeyTable {
    rows: KeysByKind,
    order: KeyOrder,
    // So many keys more fit into each table.
    room: usize,
}

impl Model for KeyTable {
    ghost use Rattle.std.specs.Prelude.{◌≤◌};
    ghost use Rattle.public_fold.specs.KeyTables.{IsTableOf, KeyList};

    ghost Value = { KeyList };

    ghost view = { λ t. record { keys = t.order.keys; spare = t.room } };

    ghost invariant = { λ t. IsTableOf t.order.keys t.rows × (t.room ≤ t.rows.spare) };
}

impl KeyTable {
    /// A table without keys. It takes no memory.
    pub(crate) fn new(alloc: Global) -> KeyTable
        ensures { result.keys ≡ [] }
    {
        KeyTable {
            rows: KeysByKind::new(alloc),
            order: KeyOrder::new(),
            room: 0,
        }
    }

    /// A table with these keys.
    pub(crate) fn of_keys(alloc: Global, keys: &[KeyHead]) -> Mem<KeyTable>
        ensures { IfOk result (λ t. t.keys ≡ keys.now) }
    {
        let mut rows = KeysByKind::new(alloc);
        add_keys(&mut rows, keys)?;
        Ok(KeyTable {
            rows,
            order: KeyOrder::new().giving(keys, &[]),
            room: 0,
        })
    }

    /// The same keys in the other order, where each role has the same newest key there.
    pub(crate) fn ordered_by(self, order: KeyOrder) -> KeyTable
        ensures keys { result.keys ≡ agreed_order self.keys order.keys }
        ensures spare { result.spare ≡ self.spare }
    {
        KeyTable {
            order: self.order.agreeing(&order),
            rows: self.rows,
            room: self.room,
        }
    }

    /// The serial of the role's newest key, where it has one.
    pub(crate) fn newest(&self, role: Role) -> Option<Serial>
        ensures { option_map (λ serial. serial.0) result ≡ newest self.now.keys role }
    {
        self.rows.serial(role)
    }

    /// Makes room for at least so many keys beside those that are there.
    pub(crate) fn reserve(&mut self, more: usize) -> Mem<()>
        ensures keys { self.new.keys ≡ self.old.keys }
        ensures room { OnOk result (more ≤ self.new.spare) }
        ensures kept { self.old.spare ≤ self.new.spare }
        ensures has_room { more ≤ self.old.spare → IsOk result }
    {
        if more <= self.room {
            return Ok(());
        }
        let room = more.max(AHEAD);
        self.rows.reserve(room)?;
        self.room = room;
        Ok(())
    }

    /// Puts the keys that are given before the old ones, of which those of some roles go. It takes no memory.
    pub(crate) fn take(&mut self, given: &[KeyHead], gone: &[Role])
        requires { length given.now ≤ self.old.spare }
        ensures keys { self.new.keys ≡ given.now ++ keys_without gone.now self.old.keys }
        ensures spare { self.old.spare ≤ self.new.spare + length given.now }
    {
        self.order = self.order.giving(given, gone);
        remove_keys(&mut self.rows, gone);
        set_keys(&mut self.rows, given);
        self.room -= given.len();
    }

    /// An equal table, with memory of its own.
    pub(crate) fn copy(&self) -> Mem<KeyTable>
        ensures { IfOk result (λ copy. copy.keys ≡ self.now.keys) }
    {
        Ok(KeyTable {
            rows: self.rows.copy()?,
            order: self.order.giving(&[], &[]),
            room: 0,
        })
    }
}

/// The keys as they are after a step: those given, and behind them the old ones whose role isn't gone.
#[derive(Clone, Copy)]
pub(crate) struct KeysThen<'a> {
    pub(crate) given: &'a [KeyHead],
    pub(crate) gone: &'a [Role],
    pub(crate) old: &'a KeyTable,
}

impl KeysThen<'_> {
    /// The serial of the role's key then, and 0 where it has none.
    pub(crate) fn present(&self, role: Role) -> Serial
        ensures { result.0 ≡ present (keys_then_of self.now) role }
    {
        if let Some(serial) = first_serial(self.given, role) {
            return serial;
        }
        if has_role(self.gone, role) {
            return Serial(0);
        }
        self.old.newest(role).unwrap_or(Serial(0))
    }
}

/// The serial of the role's first key among these.
fn first_serial(keys: &[KeyHead], role: Role) -> Option<Serial>
    ensures { option_map (λ serial. serial.0) result ≡ newest keys.now role }
{
    for key in keys {
        if is_same_role(key.role, role) {
            return Some(key.serial);
        }
    }
    None
}
