//! The edges at the clearance keys of files, looked up by role. A file has such a key where it has a grant.
ghost use Rattle.std.specs.Prelude.{◌≡◌, ◌<◌, ◌==◌, ◌++◌, [], ◌∷◌, cond, IsSome, Some, None, OnOk};
ghost use Rattle.std.specs.List.{flat_map, list_any};
ghost use Rattle.cry_base.specs.Clearances.{clear_base, clear_number as number_of_file};
ghost use Rattle.cry_base.specs.declared.ids.FileId.{FileId as AnyFile};
ghost use Rattle.cry_base.specs.declared.roles.Role.TheVariants.{Owner, Clear, Back, File};
ghost use Rattle.role_graph.specs.Adjacent.{clearances, into, out_of};
ghost use Rattle.role_graph.specs.Edges.{edge};
ghost use Rattle.role_graph.specs.PublicStore.{public_store};
ghost use Rattle.role_graph.specs.Roles.{back_of, clear_of};

use crate::{StoreRoles, kinds};
use cry_base::{CLEAR_BASE, Edge, FileId, FolderId, Mem, Role};
use folder_nodes::FileRow;
use grant_book::{Grants, clear_number, file_of};
use sorted_table::Walk;
use std::alloc::Global;

/// The file's clearance number, where somebody has a grant on the file.
pub fn clearance_of(grants: &Grants, x: FileId) -> Option<FolderId>
    ensures value { result ≡ cond (list_any (λ g. g.folder == number_of_file x.0) grants.now.pairs)
        (Some (record { 0 = number_of_file x.0 })) None }
    ensures below { IsSome result → x.0 < clear_base }
{
    let _pairs = grants.pairs();
    if x.0 >= CLEAR_BASE {
        return None;
    }
    let c = clear_number(x);
    if grants.has_on(c) { Some(c) } else { None }
}

impl<'a> StoreRoles<'a> {
    /// Adds the edges of clearance keys out of the role.
    pub(crate) fn add_clearances_from(&self, found: &mut Vec<Edge>, role: Role) -> Mem<()>
        ensures { OnOk result (found.new.items
            ≡ found.old.items ++ out_of (clearances (public_store self.now.shape.now.tree self.now.grants.now.pairs)) role) }
    {
        self.shape.is_tree();
        match role {
            Role::Owner => self.from_owner_to_files(found),
            Role::Clear(c) => self.from_clearance(found, c),
            Role::Holder(_) => Ok(()),
            Role::Sub(_) => Ok(()),
            Role::Back(_) => Ok(()),
            Role::Files(_) => Ok(()),
            Role::Data(_) => Ok(()),
            Role::File(_) => Ok(()),
        }
    }

    /// Adds those into the role.
    pub(crate) fn add_clearances_into(
        &self,
        alloc: Global,
        found: &mut Vec<Edge>,
        role: Role,
    ) -> Mem<()>
        ensures { OnOk result (found.new.items
            ≡ found.old.items ++ into (clearances (public_store self.now.shape.now.tree self.now.grants.now.pairs)) role) }
    {
        self.shape.is_tree();
        match role {
            Role::Clear(c) => self.into_clearance(found, c),
            Role::Back(f) => self.into_back_from_files(alloc, found, f),
            Role::File(x) => self.into_granted_file(found, x),
            Role::Owner => Ok(()),
            Role::Holder(_) => Ok(()),
            Role::Sub(_) => Ok(()),
            Role::Files(_) => Ok(()),
            Role::Data(_) => Ok(()),
        }
    }

    fn from_owner_to_files(&self, found: &mut Vec<Edge>) -> Mem<()>
        ensures { OnOk result (found.new.items
            ≡ found.old.items ++ out_of (clearances (public_store self.now.shape.now.tree self.now.grants.now.pairs)) Owner) }
    {
        self.shape.is_tree();
        push_owners(found, self.grants, self.shape.files())?;
        Ok(())
    }

    fn from_clearance(&self, found: &mut Vec<Edge>, c: FolderId) -> Mem<()>
        ensures { OnOk result (found.new.items
            ≡ found.old.items ++ out_of (clearances (public_store self.now.shape.now.tree self.now.grants.now.pairs)) (Clear c)) }
    {
        self.shape.is_tree();
        let Some(x) = file_of(c) else {
            return Ok(());
        };
        if !self.grants.has_on(c) {
            return Ok(());
        }
        let Some(f) = self.shape.folder_of(x) else {
            return Ok(());
        };
        found.push(kinds::clearance_to_file(c, x))?;
        found.push(kinds::clearance_to_back(c, f))?;
        Ok(())
    }

    fn into_clearance(&self, found: &mut Vec<Edge>, c: FolderId) -> Mem<()>
        ensures { OnOk result (found.new.items
            ≡ found.old.items ++ into (clearances (public_store self.now.shape.now.tree self.now.grants.now.pairs)) (Clear c)) }
    {
        self.shape.is_tree();
        let Some(x) = file_of(c) else {
            return Ok(());
        };
        if !self.grants.has_on(c) {
            return Ok(());
        }
        let Some(_folder) = self.shape.folder_of(x) else {
            return Ok(());
        };
        found.push(kinds::owner_to_clear(c))?;
        Ok(())
    }

    fn into_granted_file(&self, found: &mut Vec<Edge>, x: FileId) -> Mem<()>
        ensures { OnOk result (found.new.items
            ≡ found.old.items ++ into (clearances (public_store self.now.shape.now.tree self.now.grants.now.pairs)) (File x)) }
    {
        self.shape.is_tree();
        let Some(c) = clearance_of(self.grants, x) else {
            return Ok(());
        };
        let Some(_folder) = self.shape.folder_of(x) else {
            return Ok(());
        };
        found.push(kinds::clearance_to_file(c, x))?;
        Ok(())
    }

    /// It looks at each file in the folder.
    fn into_back_from_files(&self, alloc: Global, found: &mut Vec<Edge>, f: FolderId) -> Mem<()>
        ensures { OnOk result (found.new.items
            ≡ found.old.items ++ into (clearances (public_store self.now.shape.now.tree self.now.grants.now.pairs)) (Back f)) }
    {
        self.shape.is_tree();
        let files = self.shape.files_in(alloc, f)?;
        push_backs(found, self.grants, f, files.as_slice())?;
        Ok(())
    }
}

/// Adds the edge from the owner's key to the clearance key of each file with a grant.
fn push_owners(found: &mut Vec<Edge>, grants: &Grants, files: Walk<'_, FileRow>) -> Mem<()>
    ensures { OnOk result (found.new.items ≡ found.old.items ++ flat_map (λ r.
        cond (list_any (λ g. g.folder == number_of_file r.id.0) grants.now.pairs)
        (edge 1 Owner (clear_of (number_of_file r.id.0)) ∷ []) []) files.entry) }
{
    for file in files {
        push_owner(found, grants, file.id)?;
    }
    Ok(())
}

fn push_owner(found: &mut Vec<Edge>, grants: &Grants, x: FileId) -> Mem<()>
    ensures { OnOk result (found.new.items ≡ found.old.items
        ++ cond (list_any (λ g. g.folder == number_of_file x.0) grants.now.pairs) (edge 1 Owner (clear_of (number_of_file x.0)) ∷ []) []) }
{
    let Some(c) = clearance_of(grants, x) else {
        return Ok(());
    };
    found.push(kinds::owner_to_clear(c))?;
    Ok(())
}

/// Adds the edge from the clearance key of each of the files that has a grant to the backlink key of the folder that they are in.
fn push_backs(found: &mut Vec<Edge>, grants: &Grants, f: FolderId, files: &[FileId]) -> Mem<()>
    ensures { OnOk result (found.new.items ≡ found.old.items ++ flat_map (λ (x : AnyFile).
        cond (list_any (λ g. g.folder == number_of_file x.0) grants.now.pairs)
        (edge 11 (clear_of (number_of_file x.0)) (back_of f.0) ∷ []) []) files.now) }
{
    for file in files {
        push_back_of(found, grants, f, *file)?;
    }
    Ok(())
}

fn push_back_of(found: &mut Vec<Edge>, grants: &Grants, f: FolderId, x: FileId) -> Mem<()>
    ensures { OnOk result (found.new.items ≡ found.old.items
        ++ cond (list_any (λ g. g.folder == number_of_file x.0) grants.now.pairs)
        (edge 11 (clear_of (number_of_file x.0)) (back_of f.0) ∷ []) []) }
{
    let Some(c) = clearance_of(grants, x) else {
        return Ok(());
    };
    found.push(kinds::clearance_to_back(c, f))?;
    Ok(())
}
