//! The roles whose keys a record is of.
ghost use Rattle.std.specs.Prelude.{◌≡◌, ◌==◌, find, option_copied};
ghost use Rattle.key_links.specs.Ended as spec;

use cry_base::{FileId, FolderId, HolderId, Role};
use kind_table::{ELEVEN, RoleKind, Row};
use record_format::{FILE_TEXT, FOLDER_NAME, LinkRecord};

#[tactic(auto, unfolding(crate::specs::Ended::role_with))]
fn role_with(kind: RoleKind, id: u32) -> Role
    ensures { result ≡ spec.role_with kind id }
{
    match kind {
        RoleKind::Owner => Role::Owner,
        RoleKind::Holder => Role::Holder(HolderId(id)),
        RoleKind::Clear => Role::Clear(FolderId(id)),
        RoleKind::Sub => Role::Sub(FolderId(id)),
        RoleKind::Back => Role::Back(FolderId(id)),
        RoleKind::Files => Role::Files(FolderId(id)),
        RoleKind::Data => Role::Data(FolderId(id)),
        RoleKind::File => Role::File(FileId(id)),
    }
}

fn row_numbered(rows: &[Row], number: u8) -> Option<&Row>
    ensures { option_copied result ≡ find (λ row. row.number == number) rows.now }
{
    rows.iter().find(|row| row.number == number)
}

#[tactic(auto, unfolding(crate::specs::Ended::kind_from, crate::specs::Ended::row_numbered))]
fn kind_from(number: u8) -> RoleKind
    ensures { result ≡ spec.kind_from number }
{
    match row_numbered(&ELEVEN.rows, number) {
        Some(row) => row.from,
        None => RoleKind::Owner,
    }
}

#[tactic(auto, unfolding(crate::specs::Ended::kind_to, crate::specs::Ended::row_numbered))]
fn kind_to(number: u8) -> RoleKind
    ensures { result ≡ spec.kind_to number }
{
    match row_numbered(&ELEVEN.rows, number) {
        Some(row) => row.to,
        None => RoleKind::Owner,
    }
}

/// The role with this number that links of a kind lead from. A kind that is none of the eleven leads from the owner's key.
pub fn source_with(kind: u8, id: u32) -> Role
    ensures { result ≡ spec.role_with (spec.kind_from kind) id }
{
    role_with(kind_from(kind), id)
}

/// The role with this number that links of a kind lead to. A kind that is none of the eleven leads to the owner's key.
pub fn target_with(kind: u8, id: u32) -> Role
    ensures { result ≡ spec.role_with (spec.kind_to kind) id }
{
    role_with(kind_to(kind), id)
}

/// The role that the link leads from.
pub(crate) fn source_role(link: &LinkRecord) -> Role
    ensures { result ≡ spec.source_role link.now }
{
    source_with(link.kind, link.from_id)
}

/// The role whose key seals the contents of this kind.
pub(crate) fn sealing_role(kind: u8, object: u32) -> Role
    ensures { result ≡ spec.sealing_role kind object }
{
    match kind {
        FOLDER_NAME => Role::Data(FolderId(object)),
        FILE_TEXT => Role::File(FileId(object)),
        _ => Role::Owner,
    }
}
