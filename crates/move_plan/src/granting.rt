//! The rows of notes that hang on whether a file has a grant.
ghost use Rattle.std.specs.Prelude.{◌≡◌, ◌≤◌, ◌+◌, IfOk};
ghost use Rattle.move_plan.specs.Change.{row_change};
ghost use Rattle.move_plan.specs.LookUps.{row_look_ups};
ghost use Rattle.move_plan.specs.Seen.{plain_row, seen_store};
ghost use Rattle.record_format.specs.Noted.Note.{Give, ShiftFile, Take};

use crate::changes::{give, give_first, move_file, move_granted_file, take};
use crate::dropping::drop_roles;
use crate::fitting::folder_of;
use crate::row::Row;
use cry_base::{FileId, FolderId, HolderId, Mem, Role};
use folder_nodes::Shape;
use grant_book::{Grants, file_of};
use role_graph::{Adjacent, clearance_of};
use std::alloc::Global;

/// The row of a file moved from the folder that it is in.
pub(crate) fn shift_file(
    alloc: Global,
    shape: &Shape,
    grants: &Grants,
    file: FileId,
    into: FolderId,
) -> Mem<Row>
    ensures { IfOk result (λ c. plain_row c ≡ row_change (seen_store shape.now.tree grants.now) (ShiftFile file.0 into.0)) }
{
    let folder = folder_of(shape, file);
    match clearance_of(grants, file) {
        Some(clear) => move_granted_file(alloc, file, clear, folder, into),
        None => move_file(alloc, file, folder, into),
    }
}

/// The row of a grant on the folder or the file with the number. The first one of a file makes its clearance.
pub(crate) fn give_number(
    alloc: Global,
    shape: &Shape,
    grants: &Grants,
    holder: HolderId,
    number: FolderId,
) -> Mem<Row>
    ensures { IfOk result (λ c. plain_row c ≡ row_change (seen_store shape.now.tree grants.now) (Give holder.0 number.0)) }
{
    let Some(file) = file_of(number) else {
        return give(alloc, holder, number);
    };
    if grants.has_on(number) {
        return give(alloc, holder, number);
    }
    let folder = folder_of(shape, file);
    give_first(alloc, holder, number, file, folder)
}

/// The row of a grant taken back. With the last one of a file its clearance goes.
pub(crate) fn take_number<R: Adjacent>(
    alloc: Global,
    grants: &Grants,
    roles: &mut R,
    holder: HolderId,
    number: FolderId,
) -> Mem<Row>
    requires { (R.store roles.old).grants ≡ grants.now.pairs }
    ensures change { IfOk result (λ c. plain_row c ≡ row_change (R.store roles.old) (Take holder.0 number.0)) }
    ensures steps { R.steps roles.new ≤ R.steps roles.old + row_look_ups (R.store roles.old) (Take holder.0 number.0) }
    ensures same { R.store roles.new ≡ R.store roles.old }
{
    let Some(_file) = file_of(number) else {
        return take(alloc, holder, number);
    };
    if grants.has_others_on(holder, number) {
        return take(alloc, holder, number);
    }
    drop_roles(alloc, roles, &[Role::Clear(number)])
}
