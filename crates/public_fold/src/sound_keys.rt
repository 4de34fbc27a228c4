//! The keys of a state's rows, where they are sound.
ghost use Rattle.std.specs.Prelude.{◌≡◌, ◌↔◌, ◌⊎◌, ◌+◌, ◌*◌, ◌≤◌, ◌<◌, ◌∷◌, ◌&&◌, ℕ, map, length, nat_lt};
ghost use Rattle.std.specs.Prelude.{nat_le, IfOk, OnOk, IsTrue, MatchOption};
ghost use Rattle.std.specs.List.{list_all};
ghost use Rattle.cry_base.specs.Sets.{In, has};
ghost use Rattle.cry_base.specs.Store.{GrantEntry};
ghost use Rattle.cry_base.specs.declared.roles.Role.{Role as AnyRole};
ghost use Rattle.cry_base.specs.declared.roles.Role.TheVariants.{Owner};
ghost use Rattle.index_format.specs.Plain.{plain_state};
ghost use Rattle.index_format.specs.Writable.{IsWritable};
ghost use Rattle.index_format.specs.declared.rows.FileRow.{FileRow as AnyFile};
ghost use Rattle.index_format.specs.declared.rows.FolderRow.{FolderRow as AnyFolder};
ghost use Rattle.index_format.specs.declared.rows.GrantRow.{GrantRow as AnyGrant};
ghost use Rattle.index_format.specs.declared.rows.KeyRow.{KeyRow as AnyKey};
ghost use Rattle.move_plan.specs.Seen.{seen_store};
ghost use Rattle.role_graph.specs.Ascending.{IsAscending};
ghost use Rattle.role_graph.specs.RightsByReach.{MayBeGranted};
ghost use Rattle.role_graph.specs.Roles.{clear_of, file_role, holder_role, same_role};
ghost use Rattle.public_fold.specs.AtKeys.{roles_of};
ghost use Rattle.public_fold.specs.Keyed.{HasRole};
ghost use Rattle.public_fold.specs.RowTests.{has_clear_key, has_folder_roles, is_key_place, stands_beside};
ghost use Rattle.public_fold.specs.States.{AreSoundKeys, HaveOwnSerials, checks_of, key_of_row, keys_of_rows};
ghost use Rattle.public_fold.specs.States.{pairs_of_rows, role_at, tree_of};

use crate::KeyHead;
use crate::keys::KeyTable;
use crate::sound_rows::has_clearance;
use cry_base::{FileId, FolderId, HolderId, List, Mem, Role, Serial};
use folder_nodes::Shape;
use grant_book::Grants;
use index_format::{FileRow, FolderRow, GrantRow, KeyRow, StateRows};
use role_graph::RoleSet;
use std::alloc::Global;
use std::collections::BTreeSet;

/// The keys, where they ascend, exactly those of the roles that stand, and their serials differ and were given.
pub(crate) fn sound_keys(
    alloc: Global,
    rows: &StateRows,
    shape: &Shape,
    grants: &Grants,
) -> Mem<Option<KeyTable>>
    requires tree { shape.now.tree ≡ tree_of (plain_state rows.now) }
    requires checks { grants.now.checks ≡ checks_of (plain_state rows.now) }
    requires pairs { grants.now.pairs ≡ pairs_of_rows (plain_state rows.now) }
    requires granted { (g : GrantEntry) → In g grants.now.pairs → MayBeGranted (seen_store shape.now.tree grants.now) g.folder }
    ensures { IfOk result (λ made. MatchOption made (AreSoundKeys (plain_state rows.now) → ⊥)
        (λ t. AreSoundKeys (plain_state rows.now) × (t.keys ≡ keys_of_rows (plain_state rows.now)))) }
{
    if !are_key_places(rows.keys.as_slice()) {
        return Ok(None);
    }
    let keys = key_heads(alloc, rows.keys.as_slice())?;
    let roles = roles_of(alloc, keys.as_slice())?;
    let Some(keyed) = RoleSet::of_roles(alloc, roles.as_slice())? else {
        return Ok(None);
    };
    if !are_keyed(&keyed, rows, shape, grants) {
        return Ok(None);
    }
    let next = next_serial(rows.numbers.epoch, rows.numbers.count);
    if !are_below(next, keys.as_slice()) {
        return Ok(None);
    }
    if !have_own_serials(alloc, keys.as_slice())? {
        return Ok(None);
    }
    Ok(Some(KeyTable::of_keys(alloc, keys.as_slice())?))
}

/// Whether each row is of a role other than the owner's.
fn are_key_places(rows: &[KeyRow]) -> bool
    ensures { result ≡ list_all (λ (row : AnyKey). is_key_place row.place) rows.now }
{
    rows.iter().all(|row| 1 <= row.place && row.place <= 7)
}

/// The role with the variant of this place and with the number.
#[tactic(auto, unfolding(crate::specs::States::role_at, role_graph::specs::Roles::holder_role, role_graph::specs::Roles::clear_of, role_graph::specs::Roles::sub_of, role_graph::specs::Roles::back_of, role_graph::specs::Roles::files_of, role_graph::specs::Roles::data_of, role_graph::specs::Roles::file_role))]
pub(crate) fn role_at(place: u8, id: u32) -> Role
    ensures { result ≡ role_at place id }
{
    match place {
        1 => Role::Holder(HolderId(id)),
        2 => Role::Clear(FolderId(id)),
        3 => Role::Sub(FolderId(id)),
        4 => Role::Back(FolderId(id)),
        5 => Role::Files(FolderId(id)),
        6 => Role::Data(FolderId(id)),
        7 => Role::File(FileId(id)),
        _ => Role::Owner,
    }
}

fn key_of(row: KeyRow) -> KeyHead
    ensures { result ≡ key_of_row row }
{
    KeyHead {
        role: role_at(row.place, row.id),
        serial: Serial(row.serial),
    }
}

/// The owner's key, which has no row, and those of the rows.
fn key_heads(alloc: Global, rows: &[KeyRow]) -> Mem<List<KeyHead>>
    ensures { IfOk result (λ l. l.items ≡ (Owner, 0) ∷ map key_of_row rows.now) }
{
    let mut found = List::new(alloc);
    found.push(KeyHead {
        role: Role::Owner,
        serial: Serial(0),
    })?;
    found.reserve(rows.len())?;
    for row in rows {
        found.push(key_of(*row))?;
    }
    Ok(found)
}

fn roles_of(alloc: Global, keys: &[KeyHead]) -> Mem<List<Role>>
    ensures { IfOk result (λ l. l.items ≡ roles_of keys.now) }
{
    let mut found = List::new(alloc);
    found.reserve(keys.len())?;
    for key in keys {
        found.push(key.role)?;
    }
    Ok(found)
}

/// Whether exactly the roles that stand are in the set.
fn are_keyed(keyed: &RoleSet, rows: &StateRows, shape: &Shape, grants: &Grants) -> bool
    requires tree { shape.now.tree ≡ tree_of (plain_state rows.now) }
    requires pairs { grants.now.pairs ≡ pairs_of_rows (plain_state rows.now) }
    requires granted { (g : GrantEntry) → In g grants.now.pairs → MayBeGranted (seen_store shape.now.tree grants.now) g.folder }
    requires owner { In Owner keyed.now }
    ensures { IsTrue result ↔ ((r : AnyRole) → HasRole (seen_store shape.now.tree grants.now) r ↔ In r keyed.now) }
{
    if !do_stand(keyed.as_slice(), shape, grants) {
        return false;
    }
    if !have_folders(keyed, rows.folders.as_slice()) {
        return false;
    }
    if !have_files(keyed, rows.files.as_slice()) {
        return false;
    }
    if !have_grants(keyed, rows.grants.as_slice()) {
        return false;
    }
    have_holders(keyed, grants.holders())
}

/// Whether each of the roles stands.
pub(crate) fn do_stand(roles: &[Role], shape: &Shape, grants: &Grants) -> bool
    ensures { result ≡ list_all (λ (r : AnyRole). stands_beside shape.now.tree grants.now.pairs (length grants.now.checks) r) roles.now }
{
    roles.iter().all(|role| stands(*role, shape, grants))
}

fn stands(role: Role, shape: &Shape, grants: &Grants) -> bool
    ensures { result ≡ stands_beside shape.now.tree grants.now.pairs (length grants.now.checks) role }
{
    match role {
        Role::Owner => true,
        Role::Holder(h) => 1 <= h.0 && h.0 <= grants.holders(),
        Role::Clear(f) => has_clear_key(f, shape, grants),
        Role::Sub(f) => shape.has_folder(f),
        Role::Back(f) => shape.has_folder(f),
        Role::Files(f) => shape.has_folder(f),
        Role::Data(f) => shape.has_folder(f),
        Role::File(x) => shape.folder_of(x).is_some(),
    }
}

/// Whether the number is a folder's, or the clearance number of a file with a grant.
fn has_clear_key(f: FolderId, shape: &Shape, grants: &Grants) -> bool
    ensures { result ≡ has_clear_key shape.now.tree grants.now.pairs f.0 }
{
    shape.has_folder(f) || (grants.has_on(f) && has_clearance(shape, f))
}

fn have_folders(keyed: &RoleSet, rows: &[FolderRow]) -> bool
    ensures { result ≡ list_all (λ (row : AnyFolder). has_folder_roles keyed.now row.id) rows.now }
{
    rows.iter()
        .all(|row| has_folder_roles(keyed, FolderId(row.id)))
}

#[tactic(auto, unfolding(role_graph::specs::Roles::folder_roles, role_graph::specs::Roles::clear_of, role_graph::specs::Roles::sub_of, role_graph::specs::Roles::back_of, role_graph::specs::Roles::files_of, role_graph::specs::Roles::data_of))]
fn has_folder_roles(keyed: &RoleSet, f: FolderId) -> bool
    ensures { result ≡ has_folder_roles keyed.now f.0 }
{
    keyed.has(Role::Clear(f))
        && (keyed.has(Role::Sub(f))
            && (keyed.has(Role::Back(f))
                && (keyed.has(Role::Files(f)) && keyed.has(Role::Data(f)))))
}

#[tactic(auto, unfolding(role_graph::specs::Roles::file_role))]
fn have_files(keyed: &RoleSet, rows: &[FileRow]) -> bool
    ensures { result ≡ list_all (λ (row : AnyFile). has same_role keyed.now (file_role row.id)) rows.now }
{
    rows.iter().all(|row| keyed.has(Role::File(FileId(row.id))))
}

#[tactic(auto, unfolding(role_graph::specs::Roles::clear_of))]
fn have_grants(keyed: &RoleSet, rows: &[GrantRow]) -> bool
    ensures { result ≡ list_all (λ (row : AnyGrant). has same_role keyed.now (clear_of row.folder)) rows.now }
{
    rows.iter()
        .all(|row| keyed.has(Role::Clear(FolderId(row.folder))))
}

/// Whether the roles of the holders from 1 to the count are in the set.
fn have_holders(keyed: &RoleSet, count: u32) -> bool
    ensures { IsTrue result ↔ ((h : ℕ) → 1 ≤ h → h ≤ count → IsTrue (has same_role keyed.now (holder_role h))) }
{
    for before in 0..count {
        if !keyed.has(Role::Holder(HolderId(before + 1))) {
            return false;
        }
    }
    true
}

/// The serial that a counter gives next.
fn next_serial(epoch: u32, count: u32) -> u64
    ensures { result ≡ epoch * 4294967296 + count }
{
    u64::from(epoch) * 0x1_0000_0000 + u64::from(count)
}

/// Whether each key was given before the serial.
fn are_below(next: u64, keys: &[KeyHead]) -> bool
    ensures { result ≡ list_all (λ (key : AnyRole × ℕ). nat_lt key.1 next) keys.now }
{
    keys.iter().all(|key| key.serial.0 < next)
}

/// Whether no two of the keys have one serial.
fn have_own_serials(alloc: Global, keys: &[KeyHead]) -> Mem<bool>
    requires { IsAscending (roles_of keys.now) }
    ensures { IfOk result (λ own. IsTrue own ↔ HaveOwnSerials keys.now) }
{
    let mut seen = BTreeSet::new(alloc);
    for key in keys {
        if !add_new(&mut seen, key.serial.0)? {
            return Ok(false);
        }
    }
    Ok(true)
}

/// Adds the number, and says whether it is new.
fn add_new(seen: &mut BTreeSet<u64, Global>, number: u64) -> Mem<bool>
    ensures new { IfOk result (λ new. IsTrue new ↔ (In number seen.old.keys → ⊥)) }
    ensures all { OnOk result ((n : ℕ) → In n seen.new.keys ↔ ((n ≡ number) ⊎ In n seen.old.keys)) }
{
    let new = seen.insert(number)?;
    Ok(new)
}
