//! The edges at one role, looked up without a look at any other.
ghost use Rattle.std.specs.Prelude.{◌≡◌, ◌++◌, map, IfOk, OnOk};
ghost use Rattle.cry_base.specs.declared.ids.FolderId.{FolderId as AnyFolder};
ghost use Rattle.cry_base.specs.declared.roles.Role.TheVariants.{Owner, Holder, Clear, Sub, Back, Files, Data, File};
ghost use Rattle.role_graph.specs.Adjacent.{AreChildren, into, out_of, plain_edges, where_stands};
ghost use Rattle.role_graph.specs.Edges.{unordered};
ghost use Rattle.role_graph.specs.PublicStore.{public_store};

use crate::role_edges::{
    push_child_starts, push_children, push_files, push_folders, push_granted, push_holders,
};
use crate::{StoreRoles, kinds};
use cry_base::{Edge, FileId, FolderId, HolderId, List, Mem, Role};
use std::alloc::Global;

impl<'a> StoreRoles<'a> {
    /// Adds the edges out of the role: those of folders, grants and files, and then those of files' clearance keys.
    pub(crate) fn add_from(&self, alloc: Global, found: &mut Vec<Edge>, role: Role) -> Mem<()>
        ensures { OnOk result (found.new.items
            ≡ found.old.items ++ out_of (unordered (public_store self.now.shape.now.tree self.now.grants.now.pairs)) role) }
    {
        self.add_plain_from(alloc, found, role)?;
        self.add_clearances_from(found, role)?;
        Ok(())
    }

    /// Adds the edges into the role, likewise.
    pub(crate) fn add_into(&self, alloc: Global, found: &mut Vec<Edge>, role: Role) -> Mem<()>
        ensures { OnOk result (found.new.items
            ≡ found.old.items ++ into (unordered (public_store self.now.shape.now.tree self.now.grants.now.pairs)) role) }
    {
        self.add_plain_into(alloc, found, role)?;
        self.add_clearances_into(alloc, found, role)?;
        Ok(())
    }

    /// Adds the edges of folders, grants and files out of the role: by kind, and then by the number that each leads to.
    fn add_plain_from(&self, alloc: Global, found: &mut Vec<Edge>, role: Role) -> Mem<()>
        ensures { OnOk result (found.new.items
            ≡ found.old.items ++ out_of (plain_edges (public_store self.now.shape.now.tree self.now.grants.now.pairs)) role) }
    {
        self.shape.is_tree();
        match role {
            Role::Owner => self.from_owner(found),
            Role::Holder(h) => self.from_holder(found, h),
            Role::Clear(f) => self.from_clear(found, f),
            Role::Sub(f) => self.from_sub(alloc, found, f),
            Role::Back(f) => self.from_back(found, f),
            Role::Files(f) => self.from_files(alloc, found, f),
            Role::Data(_) => Ok(()),
            Role::File(_) => Ok(()),
        }
    }

    /// Adds those into the role: by kind, and then by the number that each leads from.
    fn add_plain_into(&self, alloc: Global, found: &mut Vec<Edge>, role: Role) -> Mem<()>
        ensures { OnOk result (found.new.items
            ≡ found.old.items ++ into (plain_edges (public_store self.now.shape.now.tree self.now.grants.now.pairs)) role) }
    {
        self.shape.is_tree();
        match role {
            Role::Owner => Ok(()),
            Role::Holder(_) => Ok(()),
            Role::Clear(f) => self.into_clear(found, f),
            Role::Sub(f) => self.into_sub(found, f),
            Role::Back(f) => self.into_back(alloc, found, f),
            Role::Files(f) => self.into_files(found, f),
            Role::Data(f) => self.into_data(found, f),
            Role::File(x) => self.into_file(found, x),
        }
    }

    fn from_owner(&self, found: &mut Vec<Edge>) -> Mem<()>
        ensures { OnOk result (found.new.items
            ≡ found.old.items ++ out_of (plain_edges (public_store self.now.shape.now.tree self.now.grants.now.pairs)) Owner) }
    {
        self.shape.is_tree();
        found.reserve(self.shape.folder_count())?;
        push_folders(found, self.shape.folders())?;
        Ok(())
    }

    fn from_holder(&self, found: &mut Vec<Edge>, h: HolderId) -> Mem<()>
        ensures { OnOk result (found.new.items
            ≡ found.old.items ++ out_of (plain_edges (public_store self.now.shape.now.tree self.now.grants.now.pairs)) (Holder h)) }
    {
        self.shape.is_tree();
        let folders = self.grants.of_holder(h)?;
        push_granted(found, h, folders.as_slice())?;
        Ok(())
    }

    fn from_clear(&self, found: &mut Vec<Edge>, f: FolderId) -> Mem<()>
        ensures { OnOk result (found.new.items
            ≡ found.old.items ++ out_of (plain_edges (public_store self.now.shape.now.tree self.now.grants.now.pairs)) (Clear f)) }
    {
        self.shape.is_tree();
        self.add_within(found, f, &[kinds::clear_to_sub(f)])?;
        Ok(())
    }

    fn from_sub(&self, alloc: Global, found: &mut Vec<Edge>, f: FolderId) -> Mem<()>
        ensures { OnOk result (found.new.items
            ≡ found.old.items ++ out_of (plain_edges (public_store self.now.shape.now.tree self.now.grants.now.pairs)) (Sub f)) }
    {
        self.shape.is_tree();
        let own = [kinds::sub_to_back(f), kinds::sub_to_files(f)];
        self.add_within(found, f, &own)?;
        let children = self.children(alloc, f)?;
        push_children(found, f, children.as_slice())?;
        Ok(())
    }

    fn from_back(&self, found: &mut Vec<Edge>, f: FolderId) -> Mem<()>
        ensures { OnOk result (found.new.items
            ≡ found.old.items ++ out_of (plain_edges (public_store self.now.shape.now.tree self.now.grants.now.pairs)) (Back f)) }
    {
        self.shape.is_tree();
        self.add_within(found, f, &[kinds::back_to_data(f)])?;
        let Some(parent) = self.shape.parent(f) else {
            return Ok(());
        };
        found.push(kinds::back_to_back(f, parent))?;
        Ok(())
    }

    fn from_files(&self, alloc: Global, found: &mut Vec<Edge>, f: FolderId) -> Mem<()>
        ensures { OnOk result (found.new.items
            ≡ found.old.items ++ out_of (plain_edges (public_store self.now.shape.now.tree self.now.grants.now.pairs)) (Files f)) }
    {
        self.shape.is_tree();
        let files = self.shape.files_in(alloc, f)?;
        push_files(found, f, files.as_slice())?;
        Ok(())
    }

    fn into_clear(&self, found: &mut Vec<Edge>, f: FolderId) -> Mem<()>
        ensures { OnOk result (found.new.items
            ≡ found.old.items ++ into (plain_edges (public_store self.now.shape.now.tree self.now.grants.now.pairs)) (Clear f)) }
    {
        self.shape.is_tree();
        let holders = self.grants.of_folder(f)?;
        self.add_within(found, f, &[kinds::owner_to_clear(f)])?;
        push_holders(found, f, holders.as_slice())?;
        Ok(())
    }

    fn into_sub(&self, found: &mut Vec<Edge>, f: FolderId) -> Mem<()>
        ensures { OnOk result (found.new.items
            ≡ found.old.items ++ into (plain_edges (public_store self.now.shape.now.tree self.now.grants.now.pairs)) (Sub f)) }
    {
        self.shape.is_tree();
        self.add_within(found, f, &[kinds::clear_to_sub(f)])?;
        let Some(parent) = self.shape.parent(f) else {
            return Ok(());
        };
        found.push(kinds::sub_to_sub(parent, f))?;
        Ok(())
    }

    fn into_back(&self, alloc: Global, found: &mut Vec<Edge>, f: FolderId) -> Mem<()>
        ensures { OnOk result (found.new.items
            ≡ found.old.items ++ into (plain_edges (public_store self.now.shape.now.tree self.now.grants.now.pairs)) (Back f)) }
    {
        self.shape.is_tree();
        self.add_within(found, f, &[kinds::sub_to_back(f)])?;
        let children = self.children(alloc, f)?;
        push_child_starts(found, f, children.as_slice())?;
        Ok(())
    }

    fn into_files(&self, found: &mut Vec<Edge>, f: FolderId) -> Mem<()>
        ensures { OnOk result (found.new.items
            ≡ found.old.items ++ into (plain_edges (public_store self.now.shape.now.tree self.now.grants.now.pairs)) (Files f)) }
    {
        self.shape.is_tree();
        self.add_within(found, f, &[kinds::sub_to_files(f)])?;
        Ok(())
    }

    fn into_data(&self, found: &mut Vec<Edge>, f: FolderId) -> Mem<()>
        ensures { OnOk result (found.new.items
            ≡ found.old.items ++ into (plain_edges (public_store self.now.shape.now.tree self.now.grants.now.pairs)) (Data f)) }
    {
        self.shape.is_tree();
        self.add_within(found, f, &[kinds::back_to_data(f)])?;
        Ok(())
    }

    fn into_file(&self, found: &mut Vec<Edge>, x: FileId) -> Mem<()>
        ensures { OnOk result (found.new.items
            ≡ found.old.items ++ into (plain_edges (public_store self.now.shape.now.tree self.now.grants.now.pairs)) (File x)) }
    {
        self.shape.is_tree();
        let Some(f) = self.shape.folder_of(x) else {
            return Ok(());
        };
        found.push(kinds::files_to_file(f, x))?;
        Ok(())
    }

    /// Adds the edges, where the folder stands.
    #[tactic(auto, unfolding(crate::specs::Adjacent::where_stands))]
    fn add_within(&self, found: &mut Vec<Edge>, f: FolderId, edges: &[Edge]) -> Mem<()>
        ensures { OnOk result (found.new.items ≡ found.old.items ++ where_stands self.now.shape.now.tree f.0 edges.now) }
    {
        if self.shape.has_folder(f) {
            found.extend_from_slice(edges)?;
        }
        Ok(())
    }

    /// The folders in the folder. The root is in none.
    fn children(&self, alloc: Global, f: FolderId) -> Mem<List<FolderId>>
        ensures { IfOk result (λ l. AreChildren self.now.shape.now.tree f.0 (map (λ (g : AnyFolder). g.0) l.items)) }
    {
        self.shape.is_tree();
        if f.0 == 0 {
            return Ok(List::new(alloc));
        }
        self.shape.folders_in(alloc, f)
    }
}
