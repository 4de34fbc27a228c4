//! What a note changes in the tree, the holders and the grants.
ghost use Rattle.std.specs.Prelude.{◌≡◌, ◌<◌, ◌≤◌, Bool, true, IfOk, option_map};
ghost use Rattle.cry_base.specs.Clearances.{clear_number};
ghost use Rattle.cry_base.specs.Store.{root_store};
ghost use Rattle.grant_book.specs.Granted.{without_pairs_on};
ghost use Rattle.move_plan.specs.Fitting.{fits as fits_store};
ghost use Rattle.move_plan.specs.Seen.{seen_store};
ghost use Rattle.record_format.specs.Told.{told_note};
ghost use Rattle.public_fold.specs.Changing.{CanChangeGrants, CanChangeTree, checks_then, pairs_then, tree_then};
ghost use Rattle.public_fold.specs.Preparing.{root_made};
ghost use Rattle.public_fold.specs.Rooted.{MayStand};

use cry_base::{FileId, Mem, Node};
use folder_nodes::Shape;
use grant_book::Grants;
use record_format::Note;
use role_graph::clearance_of;
use std::alloc::Global;

/// Makes the change of a note that fits; the root's is the tree at hand, since nothing stands before it. It takes no memory.
pub(crate) fn change_store(
    shape: &mut Shape,
    grants: &mut Grants,
    note: &Note,
    root: Option<Box<Shape>>,
)
    requires fits { (strict : Bool) × (fits_store strict (seen_store shape.old.tree grants.old) (told_note note.now) ≡ true) }
    requires may_stand { MayStand (seen_store shape.old.tree grants.old) }
    requires root { option_map (λ b. b.value.tree) root ≡ root_made (told_note note.now) }
    requires shape_room { 1 ≤ shape.old.spare }
    requires grants_room { 1 ≤ grants.old.spare }
    ensures tree { shape.new.tree ≡ tree_then shape.old.tree (told_note note.now) }
    ensures pairs { grants.new.pairs ≡ pairs_then grants.old.pairs (told_note note.now) }
    ensures checks { grants.new.checks ≡ checks_then grants.old.checks (told_note note.now) }
{
    if let Some(root) = root {
        *shape = Box::into_inner(root);
        return;
    }
    change_shape(shape, note);
    change_grants(grants, note);
}

/// The tree with the root alone.
#[tactic(auto, unfolding(cry_base::specs::Store::no_store, cry_base::specs::Store::root_store, cry_base::specs::Stepping::with_new_folder))]
pub(crate) fn root_shape(alloc: Global) -> Mem<Shape>
    ensures { IfOk result (λ s. s.tree ≡ root_store) }
{
    let mut shape = Shape::new(alloc);
    shape.reserve()?;
    shape.add_folder(None);
    Ok(shape)
}

/// Makes the note's change of the folders and files, where there is room. It takes no memory.
#[tactic(auto, unfolding(crate::specs::Changing::tree_then, record_format::specs::Told::told_note, cry_base::specs::Stepping::without_node, cry_base::specs::Stepping::moved))]
fn change_shape(shape: &mut Shape, note: &Note)
    requires room { 1 ≤ shape.old.spare }
    requires can { CanChangeTree shape.old.tree (told_note note.now) }
    ensures { shape.new.tree ≡ tree_then shape.old.tree (told_note note.now) }
{
    match *note {
        Note::NewFolder { folder, parent } => {
            is_number(folder.0);
            let _id = shape.add_folder(Some(parent));
        }
        Note::NewFile { file, folder } => {
            is_number(file.0);
            let _id = shape.add_file(folder);
        }
        Note::DropFile { file } => shape.remove(Node::File(file)),
        Note::DropFolder { folder } => shape.remove(Node::Folder(folder)),
        Note::ShiftFile { file, into } => shape.relocate(Node::File(file), into),
        Note::ShiftFolder { folder, into } => shape.relocate(Node::Folder(folder), into),
        Note::Root
        | Note::StrictRoot
        | Note::Upgrade
        | Note::NewHolder { .. }
        | Note::Rewrite { .. }
        | Note::NameFile { .. }
        | Note::NameFolder { .. }
        | Note::Give { .. }
        | Note::Take { .. } => {}
    }
}

/// Makes the note's change of the holders and the grants, where there is room. It takes no memory.
#[tactic(auto, unfolding(crate::specs::Changing::pairs_then, crate::specs::Changing::checks_then, record_format::specs::Told::told_note))]
fn change_grants(grants: &mut Grants, note: &Note)
    requires room { 1 ≤ grants.old.spare }
    requires can { CanChangeGrants grants.old.checks grants.old.pairs (told_note note.now) }
    ensures pairs { grants.new.pairs ≡ pairs_then grants.old.pairs (told_note note.now) }
    ensures checks { grants.new.checks ≡ checks_then grants.old.checks (told_note note.now) }
{
    match *note {
        Note::NewHolder { holder, check } => {
            is_number(holder.0);
            let _id = grants.add_holder(check);
        }
        Note::DropFile { file } => drop_grants(grants, file),
        Note::DropFolder { folder } => grants.drop_on(folder),
        Note::Give { holder, folder } => grants.grant(holder, folder),
        Note::Take { holder, folder } => grants.revoke(holder, folder),
        Note::Root
        | Note::StrictRoot
        | Note::Upgrade
        | Note::NewFolder { .. }
        | Note::NewFile { .. }
        | Note::Rewrite { .. }
        | Note::NameFile { .. }
        | Note::NameFolder { .. }
        | Note::ShiftFile { .. }
        | Note::ShiftFolder { .. } => {}
    }
}

/// Takes all grants on the file away. It takes no memory.
fn drop_grants(grants: &mut Grants, file: FileId)
    ensures pairs { grants.new.pairs ≡ without_pairs_on grants.old.pairs (clear_number file.0) }
    ensures checks { grants.new.checks ≡ grants.old.checks }
    ensures spare { grants.old.spare ≤ grants.new.spare }
{
    if let Some(clear) = clearance_of(grants, file) {
        grants.drop_on(clear);
    }
}

/// A law: a number of a note is below 2^32.
pub(crate) fn is_number(number: u32)
    ensures { number < 4294967296 }
{
    let _number = number;
}
