//! The roles that stand, in their order.
ghost use Rattle.std.specs.Prelude.{◌≡◌, ◌++◌, map, IfOk, OnOk};
ghost use Rattle.std.specs.List.{flat_map, range_with_len};
ghost use Rattle.move_plan.specs.Inner.{clearance_among};
ghost use Rattle.move_plan.specs.Seen.{seen_store};
ghost use Rattle.role_graph.specs.Roles.{file_role, holder_role};
ghost use Rattle.public_fold.specs.StandingRoles.{folder_role, standing_roles as roles_that_stand};

use cry_base::{FileId, FolderId, HolderId, List, Mem, Role};
use folder_nodes::{FileRow, FolderRow, Shape};
use grant_book::Grants;
use role_graph::clearance_of;
use sorted_table::Walk;
use std::alloc::Global;

/// What a key of a folder is for.
#[derive(Clone, Copy, Debug)]
pub(crate) enum FolderKey {
    Clear,
    Sub,
    Back,
    Files,
    Data,
}

/// The roles of the holders, the folders and the files, in their order. The owner's is left out.
pub(crate) fn standing_roles(alloc: Global, shape: &Shape, grants: &Grants) -> Mem<List<Role>>
    ensures { IfOk result (λ l. l.items ≡ roles_that_stand (seen_store shape.now.tree grants.now)) }
{
    let mut all = List::new(alloc);
    push_holders(&mut all, grants.holders())?;
    push_folders(&mut all, shape.folders(), FolderKey::Clear)?;
    push_clearances(&mut all, grants, shape.files())?;
    push_folders(&mut all, shape.folders(), FolderKey::Sub)?;
    push_folders(&mut all, shape.folders(), FolderKey::Back)?;
    push_folders(&mut all, shape.folders(), FolderKey::Files)?;
    push_folders(&mut all, shape.folders(), FolderKey::Data)?;
    push_files(&mut all, shape.files())?;
    Ok(all)
}

/// Adds the roles of so many holders.
fn push_holders(all: &mut List<Role>, holders: u32) -> Mem<()>
    ensures { OnOk result (all.new.items ≡ all.old.items ++ map holder_role (range_with_len 1 holders)) }
{
    for before in 0..holders {
        all.push(role_of_holder(HolderId(before + 1)))?;
    }
    Ok(())
}

#[tactic(auto, unfolding(role_graph::specs::Roles::holder_role))]
fn role_of_holder(h: HolderId) -> Role
    ensures { result ≡ holder_role h.0 }
{
    Role::Holder(h)
}

/// Adds this role of each folder.
fn push_folders(all: &mut List<Role>, folders: Walk<'_, FolderRow>, key: FolderKey) -> Mem<()>
    ensures { OnOk result (all.new.items ≡ all.old.items ++ map (λ r. folder_role key r.id.0) folders.entry) }
{
    for folder in folders {
        all.push(role_of_folder(key, folder.id))?;
    }
    Ok(())
}

#[tactic(auto, unfolding(role_graph::specs::Roles::clear_of, role_graph::specs::Roles::sub_of, role_graph::specs::Roles::back_of, role_graph::specs::Roles::files_of, role_graph::specs::Roles::data_of))]
fn role_of_folder(key: FolderKey, f: FolderId) -> Role
    ensures { result ≡ folder_role key f.0 }
{
    match key {
        FolderKey::Clear => Role::Clear(f),
        FolderKey::Sub => Role::Sub(f),
        FolderKey::Back => Role::Back(f),
        FolderKey::Files => Role::Files(f),
        FolderKey::Data => Role::Data(f),
    }
}

/// Adds the clearance of each file with a grant.
fn push_clearances(all: &mut List<Role>, grants: &Grants, files: Walk<'_, FileRow>) -> Mem<()>
    ensures { OnOk result (all.new.items ≡ all.old.items ++ flat_map (λ r. clearance_among grants.now.pairs r.id.0) files.entry) }
{
    for file in files {
        push_clearance(all, grants, file.id)?;
    }
    Ok(())
}

/// Adds the clearance of a file with a grant.
#[tactic(auto, unfolding(role_graph::specs::Roles::clear_of))]
fn push_clearance(all: &mut List<Role>, grants: &Grants, file: FileId) -> Mem<()>
    ensures { OnOk result (all.new.items ≡ all.old.items ++ clearance_among grants.now.pairs file.0) }
{
    let Some(clear) = clearance_of(grants, file) else {
        return Ok(());
    };
    all.push(Role::Clear(clear))?;
    Ok(())
}

/// Adds the role of each file.
fn push_files(all: &mut List<Role>, files: Walk<'_, FileRow>) -> Mem<()>
    ensures { OnOk result (all.new.items ≡ all.old.items ++ map (λ r. file_role r.id.0) files.entry) }
{
    for file in files {
        all.push(role_of_file(file.id))?;
    }
    Ok(())
}

#[tactic(auto, unfolding(role_graph::specs::Roles::file_role))]
fn role_of_file(file: FileId) -> Role
    ensures { result ≡ file_role file.0 }
{
    Role::File(file)
}
