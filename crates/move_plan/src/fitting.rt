//! Which notes fit a shape and grants (docs/FORMAT.md, "The key step"). None of these calls takes memory.
ghost use Rattle.std.specs.Prelude.{◌≡◌, ◌+◌, ◌==◌, ◌&&◌, ◌||◌, not, nat_le, length, true, IsSome, Some};
ghost use Rattle.std.specs.List.{list_any};
ghost use Rattle.cry_base.specs.Refusing.{has_child, height_of};
ghost use Rattle.cry_base.specs.Store.{depth_of, folder_entry, folder_node, is_within};
ghost use Rattle.grant_book.specs.Granted.{is_grant};
ghost use Rattle.grant_book.specs.Refused.{is_holder};
ghost use Rattle.move_plan.specs.Change.{folder_of_file, parent_of_folder};
ghost use Rattle.move_plan.specs.Fitting.{clear_stands as has_clear_number, file_stands, folder_stands, fits as fits_store};
ghost use Rattle.move_plan.specs.Fitting.{has_depth_left as has_depth_below, is_next_below as is_next_number};
ghost use Rattle.move_plan.specs.Fitting.{is_other_folder as is_other, may_be_granted as may_have_grant, needs_root};
ghost use Rattle.move_plan.specs.Fitting.{row_fits as row_of_note};
ghost use Rattle.move_plan.specs.Seen.{seen_store};
ghost use Rattle.record_format.specs.Told.{told_note};

use cry_base::{CLEAR_BASE, DEPTH, FileId, FolderId, HolderId, ROOT};
use folder_nodes::Shape;
use grant_book::{Grants, file_of};
use record_format::Note;

/// Whether the note fits: its row's condition holds, and the root stands where the note isn't one that makes it. It
/// goes up from the folders that the note names, and down from one that is moved. `strict` says that the store has version 2.
pub fn fits(strict: bool, shape: &Shape, grants: &Grants, note: &Note) -> bool
    ensures { result ≡ fits_store strict (seen_store shape.now.tree grants.now) (told_note note.now) }
{
    row_fits(strict, shape, grants, note) && has_root_for(shape, note)
}

/// Whether the root stands, or the note is one that makes it.
#[tactic(auto, unfolding(crate::specs::Fitting::folder_stands))]
fn has_root_for(shape: &Shape, note: &Note) -> bool
    ensures { result ≡ (not (needs_root (told_note note.now)) || folder_stands shape.now.tree 1) }
{
    makes_root(note) || shape.has_folder(ROOT)
}

#[tactic(auto, unfolding(crate::specs::Fitting::needs_root, record_format::specs::Told::told_note))]
fn makes_root(note: &Note) -> bool
    ensures { result ≡ not (needs_root (told_note note.now)) }
{
    matches!(note, Note::Root | Note::StrictRoot)
}

/// Whether the condition of the note's row holds.
fn row_fits(strict: bool, shape: &Shape, grants: &Grants, note: &Note) -> bool
    ensures { result ≡ row_of_note strict (seen_store shape.now.tree grants.now) (told_note note.now) }
{
    match *note {
        Note::Root => may_make_root(shape),
        Note::NewHolder { holder, .. } => may_make_holder(grants, holder),
        Note::NewFolder { folder, parent } => may_make_folder(shape, folder, parent),
        Note::NewFile { file, folder } => may_make_file(shape, file, folder),
        Note::Rewrite { file } => has_file(shape, file),
        Note::NameFile { file } => has_file(shape, file),
        Note::NameFolder { folder } => is_other_folder(shape, folder),
        Note::DropFile { file } => has_file(shape, file),
        Note::DropFolder { folder } => may_drop_folder(shape, folder),
        Note::ShiftFile { file, into } => may_move_file(shape, file, into),
        Note::ShiftFolder { folder, into } => may_move_folder(shape, folder, into),
        Note::Give { holder, folder } => may_give(strict, shape, grants, holder, folder),
        Note::Take { holder, folder } => grants.has(holder, folder),
        Note::StrictRoot => may_make_root(shape),
        Note::Upgrade => !strict,
    }
}

fn may_make_root(shape: &Shape) -> bool
    ensures { result ≡ (shape.now.tree.folders_made == 0) }
{
    shape.folders_made() == 0
}

fn may_make_holder(grants: &Grants, h: HolderId) -> bool
    ensures { result ≡ (h.0 == length grants.now.checks + 1) }
{
    is_next(h.0, grants.holders())
}

fn may_make_folder(shape: &Shape, f: FolderId, parent: FolderId) -> bool
    ensures { result ≡ (is_next_number f.0 shape.now.tree.folders_made && has_depth_below shape.now.tree parent.0) }
{
    is_next_below(f.0, shape.folders_made()) && has_depth_left(shape, parent)
}

fn may_make_file(shape: &Shape, x: FileId, folder: FolderId) -> bool
    ensures { result ≡ (is_next_number x.0 shape.now.tree.files_made && has_depth_below shape.now.tree folder.0) }
{
    is_next_below(x.0, shape.files_made()) && has_depth_left(shape, folder)
}

/// Whether the number is one more than how many were made, and no clearance number.
#[tactic(auto, unfolding(crate::specs::Fitting::is_next_below))]
fn is_next_below(number: u32, made: u32) -> bool
    ensures { result ≡ is_next_number number made }
{
    is_next(number, made) && number < CLEAR_BASE
}

/// Whether the number is one more than how many were made.
fn is_next(number: u32, made: u32) -> bool
    ensures { result ≡ (number == made + 1) }
{
    number > made && number - made == 1
}

#[tactic(auto, unfolding(crate::specs::Fitting::folder_stands, crate::specs::Fitting::has_depth_left))]
fn has_depth_left(shape: &Shape, f: FolderId) -> bool
    ensures { result ≡ has_depth_below shape.now.tree f.0 }
{
    shape.has_folder(f) && shape.depth(f) < DEPTH
}

#[tactic(auto, unfolding(crate::specs::Fitting::file_stands))]
fn has_file(shape: &Shape, x: FileId) -> bool
    ensures { result ≡ file_stands shape.now.tree x.0 }
{
    shape.folder_of(x).is_some()
}

#[tactic(auto, unfolding(crate::specs::Fitting::folder_stands))]
fn has_folder(shape: &Shape, f: FolderId) -> bool
    ensures value { result ≡ folder_stands shape.now.tree f.0 }
    ensures stands { result ≡ true → IsSome (folder_entry shape.now.tree f.0) }
{
    shape.has_folder(f)
}

#[tactic(auto, unfolding(crate::specs::Fitting::is_other_folder))]
fn is_other_folder(shape: &Shape, f: FolderId) -> bool
    ensures value { result ≡ is_other shape.now.tree f.0 }
    ensures stands { result ≡ true → IsSome (folder_entry shape.now.tree f.0) }
{
    has_folder(shape, f) && f.0 != ROOT.0
}

fn may_drop_folder(shape: &Shape, f: FolderId) -> bool
    ensures { result ≡ (is_other shape.now.tree f.0 && not (has_child shape.now.tree f.0)) }
{
    is_other_folder(shape, f) && shape.is_empty_folder(f)
}

fn may_move_file(shape: &Shape, x: FileId, into: FolderId) -> bool
    ensures { result ≡ (file_stands shape.now.tree x.0 && has_depth_below shape.now.tree into.0
        && not (folder_of_file shape.now.tree x.0 == into.0)) }
{
    has_file(shape, x) && has_depth_left(shape, into) && folder_of(shape, x).0 != into.0
}

/// Whether the folder, with all below it, may go into the other one.
fn may_move_folder(shape: &Shape, f: FolderId, into: FolderId) -> bool
    ensures { let t = shape.now.tree in result
        ≡ (is_other t f.0 && (folder_stands t into.0 && (not (parent_of_folder t f.0 == into.0) && not (is_within t into.0 f.0)
        && nat_le (depth_of t (folder_node into.0) + 1 + height_of t (Some (folder_node f.0))) 64))) }
{
    is_other_folder(shape, f) && may_leave(shape, f, into)
}

/// Whether a folder that stands may go into the other one.
fn may_leave(shape: &Shape, f: FolderId, into: FolderId) -> bool
    requires { IsSome (folder_entry shape.now.tree f.0) }
    ensures { let t = shape.now.tree in result
        ≡ (folder_stands t into.0 && (not (parent_of_folder t f.0 == into.0) && not (is_within t into.0 f.0)
        && nat_le (depth_of t (folder_node into.0) + 1 + height_of t (Some (folder_node f.0))) 64)) }
{
    has_folder(shape, into) && may_enter(shape, f, into)
}

/// Whether one of two folders that stand may go into the other.
fn may_enter(shape: &Shape, f: FolderId, into: FolderId) -> bool
    requires stands { IsSome (folder_entry shape.now.tree f.0) }
    requires place { IsSome (folder_entry shape.now.tree into.0) }
    ensures { let t = shape.now.tree in result ≡ (not (parent_of_folder t f.0 == into.0) && not (is_within t into.0 f.0)
        && nat_le (depth_of t (folder_node into.0) + 1 + height_of t (Some (folder_node f.0))) 64) }
{
    parent_of(shape, f).0 != into.0 && is_apart(shape, into, f) && has_levels_left(shape, f, into)
}

/// Whether the folder is neither the other one nor under it.
fn is_apart(shape: &Shape, f: FolderId, above: FolderId) -> bool
    requires { IsSome (folder_entry shape.now.tree f.0) }
    ensures { result ≡ not (is_within shape.now.tree f.0 above.0) }
{
    shape.is_tree();
    f.0 != above.0 && !shape.is_under(f, above)
}

/// Whether no node of the folder comes to stand too deep in the other one.
#[tactic(auto, using(std::proofs::lemmas::Bool::Decides::nat_tests))]
fn has_levels_left(shape: &Shape, f: FolderId, into: FolderId) -> bool
    requires stands { IsSome (folder_entry shape.now.tree f.0) }
    requires place { IsSome (folder_entry shape.now.tree into.0) }
    ensures { result ≡ nat_le (depth_of shape.now.tree (folder_node into.0) + 1 + height_of shape.now.tree (Some (folder_node f.0))) 64 }
{
    let depth = shape.depth(into);
    let height = shape.height(f);
    height < DEPTH - depth
}

fn may_give(strict: bool, shape: &Shape, grants: &Grants, h: HolderId, f: FolderId) -> bool
    ensures { result ≡ (is_holder grants.now.checks h.0 && may_have_grant strict shape.now.tree f.0
        && not (list_any (is_grant h.0 f.0) grants.now.pairs)) }
{
    is_made(grants, h) && may_be_granted(strict, shape, f) && !grants.has(h, f)
}

/// Whether what has the number may be granted: a folder that stands, and in a store of version 2 a file that does.
#[tactic(auto, unfolding(crate::specs::Fitting::may_be_granted))]
fn may_be_granted(strict: bool, shape: &Shape, f: FolderId) -> bool
    ensures { result ≡ may_have_grant strict shape.now.tree f.0 }
{
    has_folder(shape, f) || (strict && clear_stands(shape, f))
}

/// Whether the number is the clearance number of a file that stands.
#[tactic(auto, unfolding(crate::specs::Fitting::clear_stands, crate::specs::Fitting::is_file_there))]
fn clear_stands(shape: &Shape, f: FolderId) -> bool
    ensures { result ≡ has_clear_number shape.now.tree f.0 }
{
    match file_of(f) {
        Some(x) => has_file(shape, x),
        None => false,
    }
}

/// Whether a holder with the number was made.
fn is_made(grants: &Grants, h: HolderId) -> bool
    ensures { result ≡ is_holder grants.now.checks h.0 }
{
    1 <= h.0 && h.0 <= grants.holders()
}

/// The folder that a file is in, and the folder 0 where the file doesn't stand.
#[tactic(auto, unfolding(crate::specs::Change::folder_of_file))]
pub(crate) fn folder_of(shape: &Shape, x: FileId) -> FolderId
    ensures { result.0 ≡ folder_of_file shape.now.tree x.0 }
{
    match shape.folder_of(x) {
        Some(folder) => folder,
        None => FolderId(0),
    }
}

/// The folder that a folder is in, and the folder 0 for the root and where the folder doesn't stand.
#[tactic(auto, unfolding(crate::specs::Change::parent_of_folder))]
pub(crate) fn parent_of(shape: &Shape, f: FolderId) -> FolderId
    ensures { result.0 ≡ parent_of_folder shape.now.tree f.0 }
{
    match shape.parent(f) {
        Some(parent) => parent,
        None => FolderId(0),
    }
}
