//! What has a content: folders, files and holders.
ghost use Rattle.std.specs.Prelude.{◌≡◌, ◌++◌, map, IfOk, OnOk};
ghost use Rattle.std.specs.List.{range_with_len};
ghost use Rattle.log_index.specs.Objects as spec;
ghost use Rattle.public_fold.specs.Standing.{public_store_of};

use cry_base::{List, Mem};
use folder_nodes::{FileRow, FolderRow};
use public_fold::PublicState;
use record_format::{FILE_TEXT, FOLDER_NAME, HOLDER_KEY};
use sorted_table::Walk;
use std::alloc::Global;

/// A folder, a file or a holder, by the kind of its content.
#[derive(Clone, Copy, Debug, PartialEq, Eq)]
pub struct Object {
    /// 1 a folder's name, 2 a file's name and bytes, 3 a holder's key.
    pub kind: u8,
    /// The number of the folder, file or holder.
    pub number: u32,
}

/// The folders, the files and the holders ever made, each of these by number.
pub(crate) fn objects(alloc: Global, state: &PublicState) -> Mem<List<Object>>
    ensures { IfOk result (λ l. l.items ≡ spec.objects_of (public_store_of state.now)) }
{
    let mut all = List::new(alloc);
    add_folders(&mut all, state.shape().folders())?;
    add_files(&mut all, state.shape().files())?;
    add_holders(&mut all, state.grants().holders())?;
    Ok(all)
}

fn add_folders(all: &mut List<Object>, folders: Walk<'_, FolderRow>) -> Mem<()>
    ensures { OnOk result (all.new.items ≡ all.old.items ++ map (λ r. spec.folder_object r.id.0) folders.entry) }
{
    for folder in folders {
        all.push(Object {
            kind: FOLDER_NAME,
            number: folder.id.0,
        })?;
    }
    Ok(())
}

fn add_files(all: &mut List<Object>, files: Walk<'_, FileRow>) -> Mem<()>
    ensures { OnOk result (all.new.items ≡ all.old.items ++ map (λ r. spec.file_object r.id.0) files.entry) }
{
    for file in files {
        all.push(Object {
            kind: FILE_TEXT,
            number: file.id.0,
        })?;
    }
    Ok(())
}

fn add_holders(all: &mut List<Object>, made: u32) -> Mem<()>
    ensures { OnOk result (all.new.items ≡ all.old.items ++ map spec.holder_object (range_with_len 1 made)) }
{
    for before in 0..made {
        all.push(Object {
            kind: HOLDER_KEY,
            number: before + 1,
        })?;
    }
    Ok(())
}
