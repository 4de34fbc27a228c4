//! Keys as rows of a table, in the order of their roles.
ghost use Rattle.std.specs.Prelude.{◌≡◌, ◌+◌, ◌≤◌, cond, option_map, Some, None};
ghost use Rattle.cry_base.specs.declared.roles.Role.{Role as AnyRole};
ghost use Rattle.public_fold.specs.KeyTables.{role_rank, row_place, serial_at};
ghost use Rattle.role_graph.specs.Roles.{same_role};

use crate::KeyHead;
use cry_base::{Role, Serial};
use sorted_table::{Blocks, Key, Ranked};
use std::cmp::Ordering;

/// A key's serial beside its role's place. Rows are compared and moved by these numbers alone.
#[derive(Clone, Copy)]
pub(crate) struct KeyRow {
    place: u64,
    serial: Serial,
}

impl KeyRow {
    /// The row of the key.
    pub(crate) fn of(key: KeyHead) -> KeyRow
        ensures place { result.place ≡ role_rank key.0 }
        ensures serial { result.serial.0 ≡ key.1 }
    {
        KeyRow {
            place: RolePlace::of(key.role).0,
            serial: key.serial,
        }
    }
}

impl Ranked for KeyRow {
    ghost rank = { row_place };

    fn compare(&self, other: &Self) -> Ordering {
        self.place.cmp(&other.place)
    }
}

/// A role's place, by which its key is looked up.
#[derive(Drop)]
pub(crate) struct RolePlace(u64);

impl RolePlace {
    /// The place of the role's key.
    #[tactic(auto, unfolding(crate::specs::KeyTables::role_rank, role_graph::specs::Roles::variant_of, role_graph::specs::Roles::role_id))]
    pub(crate) fn of(role: Role) -> RolePlace
        ensures { result.0 ≡ role_rank role }
    {
        RolePlace(match role {
            Role::Owner => 0,
            Role::Holder(h) => u64::from(h.0) * 8 + 1,
            Role::Clear(f) => u64::from(f.0) * 8 + 2,
            Role::Sub(f) => u64::from(f.0) * 8 + 3,
            Role::Back(f) => u64::from(f.0) * 8 + 4,
            Role::Files(f) => u64::from(f.0) * 8 + 5,
            Role::Data(f) => u64::from(f.0) * 8 + 6,
            Role::File(x) => u64::from(x.0) * 8 + 7,
        })
    }
}

impl Key<KeyRow> for RolePlace {
    ghost sought = { λ place. place.0 };

    fn compare_row(&self, row: &KeyRow) -> Ordering {
        row.place.cmp(&self.0)
    }

    // Each bearer has one row in the table of its kind.
    fn guess(&self) -> usize {
        (self.0 / 8).saturating_sub(1) as usize
    }
}

/// The serial of the role's key among the rows.
pub(crate) fn serial_among(rows: &Blocks<KeyRow>, role: Role) -> Option<Serial>
    ensures { option_map (λ serial. serial.0) result ≡ serial_at rows.now.rows role }
{
    match rows.find(&RolePlace::of(role)) {
        Some(row) => Some(row.serial),
        None => None,
    }
}

/// Puts the key into the place of its role's, or beside the others where the role has none.
pub(crate) fn put_row(rows: &mut Blocks<KeyRow>, key: KeyHead)
    requires { 1 ≤ rows.old.spare }
    ensures serials { (role : AnyRole) → serial_at rows.new.rows role
        ≡ cond (same_role key.0 role) (Some key.1) (serial_at rows.old.rows role) }
    ensures spare { rows.old.spare ≤ rows.new.spare + 1 }
{
    let row = KeyRow::of(key);
    if rows.find(&RolePlace(row.place)).is_some() {
        rows.replace(row);
    } else {
        rows.insert(row);
    }
}

/// Takes out the role's key, where it has one.
pub(crate) fn remove_row(rows: &mut Blocks<KeyRow>, gone: Role)
    ensures serials { (role : AnyRole) → serial_at rows.new.rows role ≡ cond (same_role role gone) None (serial_at rows.old.rows role) }
    ensures spare { rows.old.spare ≤ rows.new.spare }
{
    rows.remove(&RolePlace::of(gone));
}
