//! Names by the numbers of folders or files, in which nothing is looked up by name.
ghost use Rattle.std.specs.Prelude.{◌≡◌, ◌≤◌, ◌+◌, ◌==◌, ℕ, [], cond, Some, IsOk, OnOk};
ghost use Rattle.std.specs.Option.{option_copied, option_map};
ghost use Rattle.folder_nodes.specs.Titles.{MayBeNamed, title_at};

use crate::titles::{NameKey, NameRow, digest_of};
use cry_base::{Mem, Text};
use sorted_table::Blocks;
use std::alloc::Global;
use std::marker::Model;

/// The names of folders, or those of files. `spare` is how many changes have their memory.
#[derive(Drop)]
pub(crate) struct NameRows {
    pub(crate) rows: Blocks<NameRow>,
}

impl Model for NameRows {
    ghost use Rattle.std.specs.Prelude.{map};
    ghost use Rattle.folder_nodes.specs.Titling.{Booked, AreNamed, title_of_row};

    ghost Value = { Booked };

    ghost view = { λ b. record { titles = map title_of_row b.rows.rows; spare = b.rows.spare } };

    ghost invariant = { λ b. AreNamed b.rows.rows };
}

impl NameRows {
    /// No names. It takes no memory.
    pub(crate) fn new(alloc: Global) -> Self
        ensures { result.titles ≡ [] }
    {
        NameRows {
            rows: Blocks::new(alloc),
        }
    }

    /// Takes the memory of one change.
    pub(crate) fn reserve(&mut self) -> Mem<()>
        ensures titles { self.new.titles ≡ self.old.titles }
        ensures room { OnOk result (1 ≤ self.new.spare) }
        ensures kept { self.old.spare ≤ self.new.spare }
        ensures has_room { 1 ≤ self.old.spare → IsOk result }
    {
        self.rows.reserve(1)
    }

    /// Puts a name and bytes under the number, in the place of those that it had.
    pub(crate) fn put(&mut self, id: u32, name: Text, bytes: Text)
        requires room { 1 ≤ self.old.spare }
        requires name { MayBeNamed name.items }
        ensures titles { (k : ℕ) → title_at self.new.titles k
            ≡ cond (id == k) (Some (record { id = id; name = name.items; bytes = bytes.items })) (title_at self.old.titles k) }
        ensures spare { self.old.spare ≤ self.new.spare + 1 }
    {
        let digest = digest_of(name.as_slice());
        let row = NameRow {
            id,
            digest,
            name,
            bytes,
        };
        if self.rows.find(&NameKey(id)).is_some() {
            self.rows.replace(row);
            return;
        }
        self.rows.insert(row);
    }

    /// The name of the folder or file with the number.
    pub(crate) fn name(&self, id: u32) -> Option<&[u8]>
        ensures { option_copied result ≡ option_map (λ t. t.name) (title_at self.now.titles id) }
    {
        match self.rows.find(&NameKey(id)) {
            Some(row) => Some(row.name.as_slice()),
            None => None,
        }
    }
}
