//! What a path finds, and how long a name is told.
use crate::trees::{Given, Tree, name_node, open_name, tree_of};
use cry_base::{FileId, FolderId, Mem, Node};
use folder_nodes::{Names, OpenedNames, find};

/// `/`, `/a`, `/a/b`, `/b`, `/b/a`, and a second `/a/b` with a folder `/a/b/c`.
const FOLDERS: [Given; 7] = [
    (1, 0, b""),
    (2, 1, b"a"),
    (3, 2, b"b"),
    (4, 1, b"b"),
    (5, 4, b"a"),
    (6, 2, b"b"),
    (7, 6, b"c"),
];

/// `/a/x`, `/b/x`, `/b/a/b`, and a file `/a/b`.
const FILES: [Given; 4] = [(1, 2, b"x"), (2, 4, b"x"), (3, 5, b"b"), (4, 2, b"b")];

const ROOT: Node = Node::Folder(FolderId(1));

/// Of several with one path a folder is found before a file, and the lowest number first.
const FOUND: [(&[u8], Option<Node>); 9] = [
    (b"/", Some(ROOT)),
    (b"/a", Some(Node::Folder(FolderId(2)))),
    (b"/a/b", Some(Node::Folder(FolderId(3)))),
    (b"/b/a", Some(Node::Folder(FolderId(5)))),
    (b"/a/b/c", Some(Node::Folder(FolderId(7)))),
    (b"/b/x", Some(Node::File(FileId(2)))),
    (b"/b/a/b", Some(Node::File(FileId(3)))),
    (b"/a/x/x", None),
    (b"/a/", None),
];

fn found(tree: &Option<Tree>, path: &[u8]) -> Option<Node> {
    match tree {
        Some(tree) => find(&tree.shape, &tree.names, path),
        None => None,
    }
}

#[test]
fn a_path_finds_the_first_node_that_has_it(rt: HostRuntime) -> Mem<()> {
    let tree = tree_of(rt.alloc(), &FOLDERS, &FILES)?;
    for (path, node) in &FOUND {
        assert!(rt; found(&tree, path) == *node);
    }
    Ok(())
}

#[test]
fn a_name_is_told_until_it_is_forgotten(rt: HostRuntime) -> Mem<()> {
    let mut names = Names::new(rt.alloc());
    let file = FileId(1);
    name_node(rt.alloc(), &mut names, Node::File(file), b"y")?;
    assert!(rt; names.name(Node::File(file)) == Some(b"y".as_slice()));
    assert!(rt; names.bytes(file) == Some([7, 9].as_slice()));
    names.forget(Node::File(file));
    assert!(rt; names.name(Node::File(file)).is_none());
    Ok(())
}

#[test]
fn an_opened_name_is_told_before_and_once_it_is_looked_up(rt: HostRuntime) -> Mem<()> {
    let mut opened = OpenedNames::new(rt.alloc());
    let (folder, file) = (FolderId(2), FileId(1));
    open_name(rt.alloc(), &mut opened, Node::Folder(folder), b"a")?;
    open_name(rt.alloc(), &mut opened, Node::File(file), b"y")?;
    assert!(rt; opened.folder_name(folder) == Some(b"a".as_slice()));
    assert!(rt; opened.folder_name(FolderId(1)).is_none());
    let names = Names::of(rt.alloc(), opened)?;
    assert!(rt; names.name(Node::Folder(folder)) == Some(b"a".as_slice()));
    assert!(rt; names.name(Node::File(file)) == Some(b"y".as_slice()));
    assert!(rt; names.bytes(file) == Some([8].as_slice()));
    Ok(())
}
