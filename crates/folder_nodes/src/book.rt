//! Names by the numbers of folders or files, and the numbers by name.
ghost use Rattle.std.specs.Prelude.{◌≡◌, ◌≤◌, ◌+◌, ◌==◌, ℕ, [], cond, map, Some, None, IsOk, IfOk, OnOk};
ghost use Rattle.std.specs.Option.{option_copied, option_map};
ghost use Rattle.cry_base.specs.Sets.{In};
ghost use Rattle.folder_nodes.specs.Digests.{name_digest};
ghost use Rattle.folder_nodes.specs.Titles.{Title, MayBeNamed, title_at};
ghost use Rattle.folder_nodes.specs.declared.spots.Spot.{Spot as TheSpot};
ghost use Rattle.sorted_table.specs.Rows.{IsRising};

use crate::grouped::Grouped;
use crate::name_rows::NameRows;
use crate::spots::Spots;
use crate::titles::{NameKey, NameRow, digest_of};
use cry_base::{Mem, Text};
use std::alloc::Global;
use std::marker::Model;

/// The names of folders, or those of files. Each is in the group of its digest, so that a look-up by name doesn't
/// look at all of them. `spare` is how many changes have their memory.
#[derive(Drop)]
pub(crate) struct Book {
    rows: Grouped<NameRow>,
}

impl Model for Book {
    ghost use Rattle.std.specs.Prelude.{map};
    ghost use Rattle.folder_nodes.specs.Titling.{Booked, AreNamed, title_of_row};

    ghost Value = { Booked };

    ghost view = { λ b. record { titles = map title_of_row b.rows.rows; spare = b.rows.spare } };

    ghost invariant = { λ b. AreNamed b.rows.rows };
}

impl Book {
    /// No names. It takes no memory.
    pub(crate) fn new(alloc: Global) -> Self
        ensures { result.titles ≡ [] }
    {
        Book {
            rows: Grouped::new(alloc),
        }
    }

    /// The names of these rows, with their index.
    pub(crate) fn of_rows(alloc: Global, names: NameRows) -> Mem<Self>
        ensures { IfOk result (λ book. book.titles ≡ names.titles) }
    {
        Ok(Book {
            rows: Grouped::of_blocks(alloc, names.rows)?,
        })
    }

    /// Takes the memory of one change.
    pub(crate) fn reserve(&mut self) -> Mem<()>
        ensures titles { self.new.titles ≡ self.old.titles }
        ensures room { OnOk result (1 ≤ self.new.spare) }
        ensures kept { self.old.spare ≤ self.new.spare }
        ensures has_room { 1 ≤ self.old.spare → IsOk result }
    {
        self.rows.reserve()
    }

    /// Puts a name and bytes under the number, in the place of those that it had.
    pub(crate) fn put(&mut self, id: u32, name: Text, bytes: Text)
        requires room { 1 ≤ self.old.spare }
        requires name { MayBeNamed name.items }
        ensures titles { (k : ℕ) → title_at self.new.titles k
            ≡ cond (id == k) (Some (record { id = id; name = name.items; bytes = bytes.items })) (title_at self.old.titles k) }
        ensures spare { self.old.spare ≤ self.new.spare + 1 }
    {
        let digest = self.digest_for(id, name.as_slice());
        let row = NameRow {
            id,
            digest,
            name,
            bytes,
        };
        if self.rows.find(&NameKey(id)).is_some() {
            self.rows.replace(row);
            return;
        }
        self.rows.insert(row);
    }

    /// The digest of a name that the number gets. Most of those that are put keep their name, and its digest is known.
    fn digest_for(&self, id: u32, name: &[u8]) -> u32
        ensures { result ≡ name_digest name.now }
    {
        let Some(row) = self.rows.find(&NameKey(id)) else {
            return digest_of(name);
        };
        if row.name.as_slice() == name {
            return row.digest;
        }
        digest_of(name)
    }

    /// Takes the name and the bytes under the number out, where there are any.
    pub(crate) fn take(&mut self, id: u32)
        ensures titles { (k : ℕ) → title_at self.new.titles k ≡ cond (id == k) None (title_at self.old.titles k) }
        ensures spare { self.old.spare ≤ self.new.spare }
    {
        self.rows.remove(&NameKey(id));
    }

    /// The name of the folder or file with the number.
    pub(crate) fn name(&self, id: u32) -> Option<&[u8]>
        ensures { option_copied result ≡ option_map (λ t. t.name) (title_at self.now.titles id) }
    {
        match self.rows.find(&NameKey(id)) {
            Some(row) => Some(row.name.as_slice()),
            None => None,
        }
    }

    /// The bytes under the number.
    pub(crate) fn bytes(&self, id: u32) -> Option<&[u8]>
        ensures { option_copied result ≡ option_map (λ t. t.bytes) (title_at self.now.titles id) }
    {
        match self.rows.find(&NameKey(id)) {
            Some(row) => Some(row.bytes.as_slice()),
            None => None,
        }
    }

    /// The numbers of all that have the name, in ascending order; numbers with other names of its digest may stand
    /// among them.
    pub(crate) fn named(&self, name: &[u8]) -> Spots<'_>
        ensures rising { IsRising (λ (q : TheSpot). q.id) result }
        ensures all { (t : Title) → In t self.now.titles → t.name ≡ name.now → In t.id (map (λ (q : TheSpot). q.id) result) }
    {
        self.rows.in_group(digest_of(name))
    }

    /// A law: what is named has a name, or the root's.
    pub(crate) fn are_names(&self)
        ensures { (t : Title) → In t self.now.titles → MayBeNamed t.name }
    {
        let _ = &self.rows;
    }
}
