//! What the table says of a note (docs/FORMAT.md, "The key step").
ghost use Rattle.std.specs.Prelude.{◌≡◌, ◌≤◌, ◌+◌, IfOk};
ghost use Rattle.move_plan.specs.Change.{row_change};
ghost use Rattle.move_plan.specs.LookUps.{row_look_ups};
ghost use Rattle.move_plan.specs.Seen.{plain_row, seen_store};
ghost use Rattle.record_format.specs.Told.{told_note};
ghost use Rattle.role_graph.specs.PublicStore.{public_store};

use crate::FewRoles;
use crate::changes::{
    make_file, make_folder, make_holder, make_root, move_folder, name_file, name_folder, rewrite,
    upgrade,
};
use crate::dropping::{drop_file, drop_folder};
use crate::fitting::parent_of;
use crate::granting::{give_number, shift_file, take_number};
use cry_base::{Edge, List, Mem, Role};
use folder_nodes::Shape;
use grant_book::Grants;
use record_format::Note;
use role_graph::Adjacent;
use std::alloc::Global;

/// A note's change but for its strict roles.
#[derive(Debug, Drop)]
pub(crate) struct Row {
    pub(crate) removed: List<Edge>,
    pub(crate) gone: List<Role>,
    pub(crate) wanted: FewRoles,
    pub(crate) fresh: FewRoles,
    pub(crate) added: Vec<Edge>,
    pub(crate) version: Option<u8>,
}

/// The row of a note, whether or not it fits.
pub(crate) fn row_of<R: Adjacent>(
    alloc: Global,
    shape: &Shape,
    grants: &Grants,
    roles: &mut R,
    note: &Note,
) -> Mem<Row>
    requires { R.store roles.old ≡ public_store shape.now.tree grants.now.pairs }
    ensures row { IfOk result (λ r. plain_row r ≡ row_change (seen_store shape.now.tree grants.now) (told_note note.now)) }
    ensures steps { R.steps roles.new ≤ R.steps roles.old + row_look_ups (R.store roles.old) (told_note note.now) }
    ensures same { R.store roles.new ≡ R.store roles.old }
{
    match *note {
        Note::Root => make_root(alloc, 1),
        Note::NewHolder { holder, .. } => make_holder(alloc, holder),
        Note::NewFolder { folder, parent } => make_folder(alloc, folder, parent),
        Note::NewFile { file, folder } => make_file(alloc, file, folder),
        Note::Rewrite { file } => rewrite(alloc, file),
        Note::NameFile { file } => name_file(alloc, file),
        Note::NameFolder { folder } => name_folder(alloc, folder),
        Note::DropFile { file } => drop_file(alloc, grants, roles, file),
        Note::DropFolder { folder } => drop_folder(alloc, roles, folder),
        Note::ShiftFile { file, into } => shift_file(alloc, shape, grants, file, into),
        Note::ShiftFolder { folder, into } => {
            let parent = parent_of(shape, folder);
            move_folder(alloc, folder, parent, into)
        }
        Note::Give { holder, folder } => give_number(alloc, shape, grants, holder, folder),
        Note::Take { holder, folder } => take_number(alloc, grants, roles, holder, folder),
        Note::StrictRoot => make_root(alloc, 2),
        Note::Upgrade => upgrade(alloc),
    }
}
