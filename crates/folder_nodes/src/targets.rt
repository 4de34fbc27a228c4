//! What a command finds in the tree, or why the tree refuses it. Each of its paths is looked up once.
ghost use Rattle.std.specs.Prelude.{◌≡◌, true, false, Some, IfOk, MatchResult};
ghost use Rattle.cry_base.specs.Refusing.{is_folder};
ghost use Rattle.cry_base.specs.Requests.{request_of};
ghost use Rattle.cry_base.specs.Requests.Request.{MakeFolder, WriteFile, Remove, Rename, Relocate, Grant};
ghost use Rattle.cry_base.specs.Store.{node_at};
ghost use Rattle.folder_nodes.specs.Checking.{tree_refusal};
ghost use Rattle.folder_nodes.specs.Targets.{IsTargetOf, file_found, why_of};
ghost use Rattle.folder_nodes.specs.Titles.{tree_store};

use crate::finding::{ends_of, node_with};
use crate::naming::{is_root, last_piece};
use crate::place::{has_beside, has_children, has_name_of, has_no_depth, has_within, is_too_high};
use crate::{Names, Shape, name_ok, path_ok};
use cry_base::{Command, FileId, FolderId, HolderId, Limits, Node, Refusal};

/// What a command that the tree doesn't refuse finds there, with the names and bytes that it gives.
#[derive(Clone, Copy)]
pub enum Target<'a> {
    /// Nothing: a holder is to be made.
    AddHolder,
    /// The folder that the new one is put into.
    MakeFolder {
        parent: FolderId,
        name: &'a [u8],
    },
    /// The folder that the file is in, and the file, where it stands.
    WriteFile {
        folder: FolderId,
        file: Option<FileId>,
        name: &'a [u8],
        bytes: &'a [u8],
    },
    /// What is removed: a file, or an empty folder.
    Remove {
        node: Node,
    },
    /// What gets the name.
    Rename {
        node: Node,
        name: &'a [u8],
    },
    /// What is moved, and the folder that it is put into.
    Relocate {
        node: Node,
        into: FolderId,
    },
    /// What the holder is to read: a folder with all below it, or a file.
    Grant {
        holder: HolderId,
        node: Node,
    },
    /// What the grant is on.
    Revoke {
        holder: HolderId,
        node: Node,
    },
}

/// What a command finds, or the first cause to refuse it, of those that the tree decides about: all but those of holders and
/// grants, and a full store. In a store of version 1, where `strict` is false, it refuses a grant on a file. It takes no memory.
#[tactic(auto, unfolding(crate::proofs::Causes::everything))]
pub fn find_target<'a>(
    shape: &Shape,
    names: &Names,
    limits: Limits,
    strict: bool,
    command: &'a Command,
) -> Result<Target<'a>, Refusal>
    ensures cause { why_of result ≡ tree_refusal strict (tree_store shape.now.tree names.now) (request_of command.now) limits.file_bytes }
    ensures found { IfOk result (IsTargetOf (tree_store shape.now.tree names.now) (request_of command.now)) }
{
    match command {
        Command::AddHolder => Ok(Target::AddHolder),
        Command::MakeFolder { path } => find_new_folder(shape, names, path.as_slice()),
        Command::WriteFile { path, bytes } => {
            find_written(
                shape,
                names,
                limits.file_bytes,
                path.as_slice(),
                bytes.as_slice(),
            )
        }
        Command::Remove { path } => find_removed(shape, names, path.as_slice()),
        Command::Rename { path, name } => {
            find_renamed(shape, names, path.as_slice(), name.as_slice())
        }
        Command::Relocate { path, into } => {
            find_moved(shape, names, path.as_slice(), into.as_slice())
        }
        Command::Grant { holder, path } => {
            let node = find_granted(shape, names, strict, path.as_slice())?;
            Ok(Target::Grant {
                holder: *holder,
                node,
            })
        }
        Command::Revoke { holder, path } => {
            let node = find_granted(shape, names, strict, path.as_slice())?;
            Ok(Target::Revoke {
                holder: *holder,
                node,
            })
        }
    }
}

#[tactic(auto, unfolding(crate::proofs::Causes::everything))]
fn find_granted(shape: &Shape, names: &Names, strict: bool, path: &[u8]) -> Result<Node, Refusal>
    ensures cause { why_of result ≡ tree_refusal strict (tree_store shape.now.tree names.now) (Grant 0 path.now) 0 }
    ensures found { IfOk result (λ node. node_at (tree_store shape.now.tree names.now) path.now ≡ Some node) }
{
    if !path_ok(path) {
        return Err(Refusal::BadName);
    }
    let Some(node) = node_with(shape, names, path) else {
        return Err(Refusal::NoPath);
    };
    match node {
        Node::File(_) if !strict => Err(Refusal::NotFolder),
        _ => Ok(node),
    }
}

#[tactic(auto, unfolding(crate::proofs::Causes::everything))]
fn find_removed<'a>(shape: &Shape, names: &Names, path: &'a [u8]) -> Result<Target<'a>, Refusal>
    ensures cause { why_of result ≡ tree_refusal true (tree_store shape.now.tree names.now) (Remove path.now) 0 }
    ensures found { IfOk result (IsTargetOf (tree_store shape.now.tree names.now) (Remove path.now)) }
{
    if !path_ok(path) {
        return Err(Refusal::BadName);
    }
    let Some(node) = node_with(shape, names, path) else {
        return Err(Refusal::NoPath);
    };
    if is_root(path) {
        return Err(Refusal::IsRoot);
    }
    if has_children(shape, names, node) {
        return Err(Refusal::NotEmpty);
    }
    Ok(Target::Remove { node })
}

#[tactic(auto, unfolding(crate::proofs::Causes::everything))]
fn find_renamed<'a>(
    shape: &Shape,
    names: &Names,
    path: &[u8],
    name: &'a [u8],
) -> Result<Target<'a>, Refusal>
    ensures cause { why_of result ≡ tree_refusal true (tree_store shape.now.tree names.now) (Rename path.now name.now) 0 }
    ensures found { IfOk result (IsTargetOf (tree_store shape.now.tree names.now) (Rename path.now name.now)) }
{
    if !path_ok(path) {
        return Err(Refusal::BadName);
    }
    if !name_ok(name) {
        return Err(Refusal::BadName);
    }
    let Some(node) = node_with(shape, names, path) else {
        return Err(Refusal::NoPath);
    };
    if is_root(path) {
        return Err(Refusal::IsRoot);
    }
    if has_beside(shape, names, node, name) {
        return Err(Refusal::Exists);
    }
    Ok(Target::Rename { node, name })
}

#[tactic(auto, unfolding(crate::proofs::Causes::everything))]
fn find_new_folder<'a>(shape: &Shape, names: &Names, path: &'a [u8]) -> Result<Target<'a>, Refusal>
    ensures cause { why_of result ≡ tree_refusal true (tree_store shape.now.tree names.now) (MakeFolder path.now) 0 }
    ensures found { IfOk result (IsTargetOf (tree_store shape.now.tree names.now) (MakeFolder path.now)) }
{
    if !path_ok(path) {
        return Err(Refusal::BadName);
    }
    if is_root(path) {
        return Err(Refusal::IsRoot);
    }
    let ends = ends_of(shape, names, path);
    let Some(place) = ends.place else {
        return Err(Refusal::NoPath);
    };
    let Node::Folder(parent) = place else {
        return Err(Refusal::NotFolder);
    };
    if ends.node.is_some() {
        return Err(Refusal::Exists);
    }
    if has_no_depth(path) {
        return Err(Refusal::TooDeep);
    }
    Ok(Target::MakeFolder {
        parent,
        name: last_piece(path),
    })
}

#[tactic(auto, unfolding(crate::proofs::Causes::everything))]
fn find_written<'a>(
    shape: &Shape,
    names: &Names,
    file_bytes: u32,
    path: &'a [u8],
    bytes: &'a [u8],
) -> Result<Target<'a>, Refusal>
    ensures cause { why_of result ≡ tree_refusal true (tree_store shape.now.tree names.now) (WriteFile path.now bytes.now) file_bytes }
    ensures found { IfOk result (IsTargetOf (tree_store shape.now.tree names.now) (WriteFile path.now bytes.now)) }
{
    if !path_ok(path) {
        return Err(Refusal::BadName);
    }
    if is_root(path) {
        return Err(Refusal::IsRoot);
    }
    let ends = ends_of(shape, names, path);
    let Some(place) = ends.place else {
        return Err(Refusal::NoPath);
    };
    let Node::Folder(folder) = place else {
        return Err(Refusal::NotFolder);
    };
    let file = file_there(ends.node)?;
    if has_no_depth(path) {
        return Err(Refusal::TooDeep);
    }
    if bytes.len() > file_bytes as usize {
        return Err(Refusal::TooLong);
    }
    Ok(Target::WriteFile {
        folder,
        file,
        name: last_piece(path),
        bytes,
    })
}

/// The file that is written again, where one stands. A folder refuses it.
#[tactic(auto, unfolding(cry_base::specs::Refusing::is_folder))]
fn file_there(node: Option<Node>) -> Result<Option<FileId>, Refusal>
    ensures found { IfOk result (λ file. node ≡ file_found file) }
    ensures folder { MatchResult result (λ file. is_folder node ≡ false) (λ why. (why ≡ Refusal.IsFolder) × (is_folder node ≡ true)) }
{
    match node {
        Some(Node::Folder(_)) => Err(Refusal::IsFolder),
        Some(Node::File(file)) => Ok(Some(file)),
        None => Ok(None),
    }
}

#[tactic(auto, unfolding(crate::proofs::Causes::everything))]
fn find_moved<'a>(
    shape: &Shape,
    names: &Names,
    path: &'a [u8],
    into: &[u8],
) -> Result<Target<'a>, Refusal>
    ensures cause { why_of result ≡ tree_refusal true (tree_store shape.now.tree names.now) (Relocate path.now into.now) 0 }
    ensures found { IfOk result (IsTargetOf (tree_store shape.now.tree names.now) (Relocate path.now into.now)) }
{
    if !path_ok(path) {
        return Err(Refusal::BadName);
    }
    if !path_ok(into) {
        return Err(Refusal::BadName);
    }
    let Some(node) = node_with(shape, names, path) else {
        return Err(Refusal::NoPath);
    };
    let Some(target) = node_with(shape, names, into) else {
        return Err(Refusal::NoPath);
    };
    if is_root(path) {
        return Err(Refusal::IsRoot);
    }
    let Node::Folder(target) = target else {
        return Err(Refusal::NotFolder);
    };
    if has_name_of(shape, names, target, path) {
        return Err(Refusal::Exists);
    }
    if has_within(shape, names, node, target) {
        return Err(Refusal::InsideItself);
    }
    if is_too_high(shape, names, node, target) {
        return Err(Refusal::TooDeep);
    }
    Ok(Target::Relocate { node, into: target })
}
