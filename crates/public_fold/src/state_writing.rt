//! A public state as the rows of a checkpoint (docs/FORMAT.md, "The checkpoint").
ghost use Rattle.std.specs.Prelude.{◌≡◌, ◌++◌, All, List as Listed, map, IfOk, OnErr, OnOk};
ghost use Rattle.index_format.specs.Plain.{PlainState, plain_state};
ghost use Rattle.index_format.specs.Spelling.{spell_state};
ghost use Rattle.index_format.specs.Writable.{HasFewRows, IsCheckRow};
ghost use Rattle.role_graph.specs.Roles.{variant_of};
ghost use Rattle.public_fold.specs.StandingRoles.{rows_of_keys};
ghost use Rattle.public_fold.specs.KeyStep.{present};
ghost use Rattle.public_fold.specs.Journal.{Stand};
ghost use Rattle.public_fold.specs.Records.{Link};
ghost use Rattle.public_fold.specs.Standing.{IsSeenAs};
ghost use Rattle.public_fold.specs.StateLaws.{AreFew, IsFolded};
ghost use Rattle.public_fold.specs.Turns.{StandHolds};
ghost use Rattle.public_fold.specs.States.{AreKeyRows, IsSoundState, Spells, file_row, folder_row, grant_row, numbers_of};
ghost use Rattle.public_fold.specs.States.{check_row as row_of_check, key_row as row_of_key, mark_row as row_of_mark};

use crate::PublicState;
use crate::keys::KeyTable;
use crate::standing_roles::standing_roles;
use cry_base::{HolderId, List, Mem, Role, Serial, Text};
use folder_nodes::Shape;
use grant_book::{Grant, Grants};
use index_format::{
    CheckRow, FileRow, FolderRow, GrantRow, KeyRow, MarkRow, StateNumbers, StateRows,
    write_plain_state,
};
use role_graph::number_of;
use std::alloc::Global;

impl PublicState {
    /// What stands, as rows. Each key is looked up once.
    pub fn to_rows(&self, alloc: Global) -> Mem<StateRows>
        ensures spells { IfOk result (λ rows. Spells self.now (plain_state rows)) }
        // Of a log's state, where there is little enough, they are sound: what is saved is read.
        ensures sound { IfOk result (λ rows. (at : Stand) (links : Listed Link) → IsSeenAs self.now at → StandHolds at links → IsFolded at
            → AreFew self.now → IsSoundState (plain_state rows)) }
    {
        self.shape.is_tree();
        let _pairs = self.grants.pairs();
        let _marks = self.dirty.as_slice();
        let rows = self.spelled_rows(alloc)?;
        Ok(rows)
    }

    /// Adds the spelling of what stands at the end of a text. At `Err` the text is as it was.
    pub fn write_state(&self, alloc: Global, out: &mut Text) -> Mem<()>
        requires { (s : PlainState) → Spells self.now s → HasFewRows s }
        ensures ok { OnOk result ((s : PlainState) × Spells self.now s × (out.new.items ≡ out.old.items ++ spell_state s)) }
        ensures err { OnErr result (out.new.items ≡ out.old.items) }
    {
        let rows = self.to_rows(alloc)?;
        write_plain_state(&rows, out)
    }

    /// The rows that spell what stands. Each check has all its bytes.
    fn spelled_rows(&self, alloc: Global) -> Mem<StateRows>
        ensures { IfOk result (λ rows. Spells self.now (plain_state rows) × All IsCheckRow rows.checks.items) }
    {
        let rows = StateRows {
            numbers: self.numbers(),
            folders: folder_rows(alloc, &self.shape)?,
            files: file_rows(alloc, &self.shape)?,
            checks: check_rows(alloc, &self.grants)?,
            grants: grant_rows(alloc, self.grants.pairs())?,
            keys: self.key_rows(alloc)?,
            marks: mark_rows(alloc, self.dirty.as_slice())?,
        };
        Ok(rows)
    }

    /// A row for each key but the owner's, in the order of their roles.
    fn key_rows(&self, alloc: Global) -> Mem<List<KeyRow>>
        ensures { IfOk result (λ rows. AreKeyRows self.now.keys.keys rows.items) }
    {
        self.shape.is_tree();
        let roles = standing_roles(alloc, &self.shape, &self.grants)?;
        rows_of(alloc, &self.keys, roles.as_slice())
    }

    fn numbers(&self) -> StateNumbers
        ensures { result ≡ numbers_of self.now }
    {
        StateNumbers {
            version: self.version,
            epoch: self.epoch,
            count: self.count,
            folders_made: self.shape.folders_made(),
            files_made: self.shape.files_made(),
            holders_made: self.grants.holders(),
        }
    }
}

fn folder_rows(alloc: Global, shape: &Shape) -> Mem<List<FolderRow>>
    ensures { IfOk result (λ rows. rows.items ≡ map folder_row shape.now.tree.folders) }
{
    let mut rows = List::new(alloc);
    rows.reserve(shape.folder_count())?;
    for folder in shape.folders() {
        rows.push(FolderRow {
            id: folder.id.0,
            parent: folder.parent,
        })?;
    }
    Ok(rows)
}

fn file_rows(alloc: Global, shape: &Shape) -> Mem<List<FileRow>>
    ensures { IfOk result (λ rows. rows.items ≡ map file_row shape.now.tree.files) }
{
    let mut rows = List::new(alloc);
    rows.reserve(shape.file_count())?;
    for file in shape.files() {
        rows.push(FileRow {
            id: file.id.0,
            folder: file.folder.0,
        })?;
    }
    Ok(rows)
}

fn check_rows(alloc: Global, grants: &Grants) -> Mem<List<CheckRow>>
    ensures rows { IfOk result (λ rows. rows.items ≡ map row_of_check grants.now.checks) }
    ensures whole { IfOk result (λ rows. All IsCheckRow rows.items) }
{
    let holders = grants.holders();
    let mut rows = List::new(alloc);
    rows.reserve(holders as usize)?;
    for before in 0..holders {
        let Some(check) = grants.check_of(HolderId(before + 1)) else {
            unreachable!();
        };
        rows.push(check_row(check))?;
    }
    Ok(rows)
}

fn check_row(check: [u8; 32]) -> CheckRow
    ensures row { result ≡ row_of_check check }
    ensures whole { IsCheckRow result }
{
    CheckRow(check)
}

fn grant_rows(alloc: Global, pairs: &[Grant]) -> Mem<List<GrantRow>>
    ensures { IfOk result (λ rows. rows.items ≡ map grant_row pairs.now) }
{
    let mut rows = List::new(alloc);
    rows.reserve(pairs.len())?;
    for pair in pairs {
        rows.push(GrantRow {
            holder: pair.holder.0,
            folder: pair.folder.0,
        })?;
    }
    Ok(rows)
}

/// A row for each of the roles, with the serial of its key.
fn rows_of(alloc: Global, keys: &KeyTable, roles: &[Role]) -> Mem<List<KeyRow>>
    ensures { IfOk result (λ rows. rows.items ≡ rows_of_keys keys.now.keys roles.now) }
{
    let mut rows = List::new(alloc);
    rows.reserve(roles.len())?;
    for role in roles {
        rows.push(key_row(keys, *role))?;
    }
    Ok(rows)
}

#[tactic(auto, unfolding(crate::specs::KeyStep::present))]
fn key_row(keys: &KeyTable, role: Role) -> KeyRow
    ensures { result ≡ row_of_key role (present keys.now.keys role) }
{
    KeyRow {
        place: place_of(role),
        id: number_of(role),
        serial: keys.newest(role).unwrap_or(Serial(0)).0,
    }
}

fn mark_rows(alloc: Global, marks: &[Role]) -> Mem<List<MarkRow>>
    ensures { IfOk result (λ rows. rows.items ≡ map row_of_mark marks.now) }
{
    let mut rows = List::new(alloc);
    rows.reserve(marks.len())?;
    for role in marks {
        rows.push(mark_row(*role))?;
    }
    Ok(rows)
}

fn mark_row(role: Role) -> MarkRow
    ensures { result ≡ row_of_mark role }
{
    MarkRow {
        place: place_of(role),
        id: number_of(role),
    }
}

/// The place of the role's variant among those of [`Role`].
#[tactic(auto, unfolding(role_graph::specs::Roles::variant_of))]
fn place_of(role: Role) -> u8
    ensures { result ≡ variant_of role }
{
    match role {
        Role::Owner => 0,
        Role::Holder(_) => 1,
        Role::Clear(_) => 2,
        Role::Sub(_) => 3,
        Role::Back(_) => 4,
        Role::Files(_) => 5,
        Role::Data(_) => 6,
        Role::File(_) => 7,
    }
}
