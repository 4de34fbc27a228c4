//! The lines of what was opened (docs/PROGRAM.md, "What is printed").
ghost use Rattle.std.specs.Prelude.{◌≡◌, ◌++◌, IfOk, OnOk, map};
ghost use Rattle.std.specs.List.{flat_map};
ghost use Rattle.std.specs.Ordering.{is_lt};
ghost use Rattle.folder_nodes.specs.Titles.{tree_store};
ghost use Rattle.holder_client.specs.Lines as spec;
ghost use Rattle.holder_client.specs.Lines.{plain_line, plain_view};
ghost use Rattle.log_visits.specs.View.{line_path};
ghost use Rattle.role_graph.specs.Edges.{in_order};

use crate::reading::ReadFile;
use cry_base::{Line, List, Mem};
use folder_nodes::{OpenedNames, Shape};
use log_visits::{Sight, file_path, folder_path};
use std::alloc::Global;
use std::cmp::Ordering;

/// The path of a line.
#[tactic(auto, unfolding(log_visits::specs::View::line_path))]
pub(crate) fn path_of(line: &Line) -> &[u8]
    ensures { result.now ≡ line_path (plain_line line.now) }
{
    match line {
        Line::Ancestor { path } | Line::Folder { path } | Line::File { path, .. } =>
            path.as_slice(),
    }
}

/// The line of a folder that is named.
pub(crate) fn folder_line(
    alloc: Global,
    shape: &Shape,
    names: &OpenedNames,
    sight: &Sight,
) -> Mem<Line>
    ensures { IfOk result (λ line. plain_line line ≡ spec.sight_line (tree_store shape.now.tree names.now) sight.now) }
{
    let path = folder_path(alloc, shape, names, sight.folder)?;
    if sight.allowed {
        Ok(Line::Folder { path })
    } else {
        Ok(Line::Ancestor { path })
    }
}

/// The line of a file.
pub(crate) fn file_line(
    alloc: Global,
    shape: &Shape,
    names: &OpenedNames,
    file: ReadFile,
) -> Mem<Line>
    ensures { IfOk result (λ line. plain_line line ≡ spec.read_line (tree_store shape.now.tree names.now) file) }
{
    let ReadFile { row, name, bytes } = file;
    let path = file_path(alloc, shape, names, row.folder, name.as_slice())?;
    Ok(Line::File { path, bytes })
}

/// Adds the line of a folder, where it is named.
fn push_folder(
    lines: &mut Vec<Line>,
    alloc: Global,
    shape: &Shape,
    names: &OpenedNames,
    sight: &Sight,
) -> Mem<()>
    ensures { OnOk result (map plain_line lines.new.items ≡ map plain_line lines.old.items
        ++ spec.lines_of (tree_store shape.now.tree names.now) sight.now) }
{
    if sight.named {
        lines.push(folder_line(alloc, shape, names, sight)?)?;
    }
    Ok(())
}

/// The lines of the folders that are named.
pub(crate) fn folder_lines(
    alloc: Global,
    shape: &Shape,
    names: &OpenedNames,
    sights: &[Sight],
) -> Mem<Vec<Line>>
    ensures { IfOk result (λ lines. map plain_line lines.items
        ≡ flat_map (spec.lines_of (tree_store shape.now.tree names.now)) sights.now) }
{
    let mut lines = Vec::new(alloc);
    for sight in sights {
        push_folder(&mut lines, alloc, shape, names, sight)?;
    }
    Ok(lines)
}

/// Adds the lines of files.
pub(crate) fn push_files(
    lines: &mut Vec<Line>,
    alloc: Global,
    shape: &Shape,
    names: &OpenedNames,
    files: Vec<ReadFile>,
) -> Mem<()>
    ensures { OnOk result (map plain_line lines.new.items ≡ map plain_line lines.old.items
        ++ map (spec.read_line (tree_store shape.now.tree names.now)) files.items) }
{
    for file in files {
        lines.push(file_line(alloc, shape, names, file)?)?;
    }
    Ok(())
}

/// Which of two lines comes first, by the bytes of their paths.
fn compare(a: &Line, b: &Line) -> Ordering
    ensures { is_lt result ≡ spec.is_before (plain_line a.now) (plain_line b.now) }
{
    path_of(a).cmp(path_of(b))
}

/// Puts the lines in the order of the bytes of their paths.
fn sort(lines: &mut Vec<Line>) -> Mem<()>
    ensures { OnOk result (map plain_line lines.new.items ≡ in_order spec.is_before (map plain_line lines.old.items)) }
{
    lines.sort_by(|a, b| compare(a, b))?;
    Ok(())
}

fn to_list(alloc: Global, lines: Vec<Line>) -> Mem<List<Line>>
    ensures { IfOk result (λ list. list.items ≡ lines.items) }
{
    let mut list = List::new(alloc);
    list.reserve(lines.len())?;
    for line in lines {
        list.push(line)?;
    }
    Ok(list)
}

/// The lines of the folders that are named and of the files, by the bytes of their paths.
pub(crate) fn view_lines(
    alloc: Global,
    shape: &Shape,
    names: &OpenedNames,
    sights: &[Sight],
    files: Vec<ReadFile>,
) -> Mem<List<Line>>
    ensures { IfOk result (λ list. plain_view list ≡ spec.read_view (tree_store shape.now.tree names.now) sights.now files.items) }
{
    let mut lines = folder_lines(alloc, shape, names, sights)?;
    push_files(&mut lines, alloc, shape, names, files)?;
    sort(&mut lines)?;
    to_list(alloc, lines)
}
