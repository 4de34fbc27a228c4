//! The parts of a checkpoint file that have one length each, numbers big-endian (docs/FORMAT.md, "The checkpoint"):
//!
//! ```text
//! part          fields and their lengths                                                     length
//! StateNumbers  version 1, epoch 4, count 4, folders 4, files 4 and holders 4 ever made         21
//! FolderRow     folder 4, parent 4 (0 for the root)                                              8
//! FileRow       file 4, folder 4                                                                 8
//! check         check of a holder's key 32                                                      32
//! GrantRow      holder 4, folder or clearance number 4                                           8
//! KeyRow        place of the role's variant 1, id 4, serial 8                                   13
//! MarkRow       place of the role's variant 1, id 4                                              5
//! LinkRow       kind 1, from id 4, to id 4, batch 4, place among its links 4                    17
//! ContentRow    kind 1, object 4, batch 4, place among its contents 4                           13
//! ```
ghost use Rattle.std.specs.Prelude.{◌≡◌, ℕ, ◌+◌, ◌≤◌, ◌++◌, List};
ghost use Rattle.index_format.specs.Reading as reading;
ghost use Rattle.index_format.specs.Spelling as spelling;
ghost use Rattle.record_format.specs.Fields.{Read, bytes_at};
ghost use Rattle.record_format.specs.Reading.{Gives};

use cry_base::Text;
use record_format::fields::{array_of, byte_of, u32_of, u64_of};
use record_format::{Stop, put_number};

/// A part of the file that is spelled by bytes of one length.
pub trait Fixed: Copy + Drop {
    ghost spell: { Self → List ℕ };

    ghost value_at: { List ℕ → Read Self };

    ghost size: { ℕ };

    /// How many bytes spell it.
    fn len() -> u64
        ensures size { result ≡ size }
        ensures some { 1 ≤ result };

    /// The value that the bytes begin with, and the bytes after it.
    fn read(bytes: &[u8]) -> Result<(Self, &[u8]), Stop>
        ensures { Gives (λ x. (x.0, x.1.now)) result (value_at bytes.now) };

    /// Adds the value's spelling at the end of a text that has room for it.
    fn put(&self, out: &mut Text)
        requires { size ≤ out.old.spare }
        ensures items { out.new.items ≡ out.old.items ++ spell self.now }
        ensures spare { out.old.spare ≤ out.new.spare + size };
}

/// The version of a state, and its numbers.
#[derive(Clone, Copy, Debug, PartialEq, Eq)]
pub struct StateNumbers {
    /// The version of the store, 0 before its root.
    pub version: u8,
    /// The epoch of the last batch.
    pub epoch: u32,
    /// How many serials the epoch has given.
    pub count: u32,
    /// How many folders were ever made.
    pub folders_made: u32,
    /// How many files were ever made.
    pub files_made: u32,
    /// How many holders were ever made.
    pub holders_made: u32,
}

impl Fixed for StateNumbers {
    ghost spell = { spelling.spell_numbers };

    ghost value_at = { reading.numbers_at };

    ghost size = { 21 };

    fn len() -> u64 {
        21
    }

    #[tactic(auto, unfolding(record_format::specs::Fields::and_then, crate::specs::Reading::numbers_at))]
    fn read(bytes: &[u8]) -> Result<(Self, &[u8]), Stop> {
        let (version, rest) = byte_of(0, 255, bytes)?;
        let (epoch, rest) = u32_of(rest)?;
        let (count, rest) = u32_of(rest)?;
        let (folders_made, rest) = u32_of(rest)?;
        let (files_made, rest) = u32_of(rest)?;
        let (holders_made, rest) = u32_of(rest)?;
        let numbers = StateNumbers {
            version,
            epoch,
            count,
            folders_made,
            files_made,
            holders_made,
        };
        Ok((numbers, rest))
    }

    #[tactic(auto, unfolding(crate::specs::Spelling::spell_numbers))]
    fn put(&self, out: &mut Text) {
        out.put(self.version);
        put_number(self.epoch, out);
        put_number(self.count, out);
        put_number(self.folders_made, out);
        put_number(self.files_made, out);
        put_number(self.holders_made, out);
    }
}

/// A standing folder.
#[derive(Clone, Copy, Debug, PartialEq, Eq)]
pub struct FolderRow {
    /// The folder's number.
    pub id: u32,
    /// The number of the folder that it stands in, 0 for the root.
    pub parent: u32,
}

impl Fixed for FolderRow {
    ghost spell = { spelling.spell_folder };

    ghost value_at = { reading.folder_at };

    ghost size = { 8 };

    fn len() -> u64 {
        8
    }

    #[tactic(auto, unfolding(record_format::specs::Fields::and_then, crate::specs::Reading::folder_at))]
    fn read(bytes: &[u8]) -> Result<(Self, &[u8]), Stop> {
        let (id, rest) = u32_of(bytes)?;
        let (parent, rest) = u32_of(rest)?;
        Ok((FolderRow { id, parent }, rest))
    }

    #[tactic(auto, unfolding(crate::specs::Spelling::spell_folder))]
    fn put(&self, out: &mut Text) {
        put_number(self.id, out);
        put_number(self.parent, out);
    }
}

/// A standing file.
#[derive(Clone, Copy, Debug, PartialEq, Eq)]
pub struct FileRow {
    /// The file's number.
    pub id: u32,
    /// The number of the folder that it stands in.
    pub folder: u32,
}

impl Fixed for FileRow {
    ghost spell = { spelling.spell_file };

    ghost value_at = { reading.file_at };

    ghost size = { 8 };

    fn len() -> u64 {
        8
    }

    #[tactic(auto, unfolding(record_format::specs::Fields::and_then, crate::specs::Reading::file_at))]
    fn read(bytes: &[u8]) -> Result<(Self, &[u8]), Stop> {
        let (id, rest) = u32_of(bytes)?;
        let (folder, rest) = u32_of(rest)?;
        Ok((FileRow { id, folder }, rest))
    }

    #[tactic(auto, unfolding(crate::specs::Spelling::spell_file))]
    fn put(&self, out: &mut Text) {
        put_number(self.id, out);
        put_number(self.folder, out);
    }
}

/// The check of a holder's key.
#[derive(Clone, Copy, Debug, PartialEq, Eq)]
pub struct CheckRow(pub [u8; 32]);

impl Fixed for CheckRow {
    ghost spell = { λ row. row.0 };

    ghost value_at = { reading.check_at };

    ghost size = { 32 };

    fn len() -> u64 {
        32
    }

    #[tactic(auto, unfolding(record_format::specs::Fields::and_then, crate::specs::Reading::check_at))]
    fn read(bytes: &[u8]) -> Result<(Self, &[u8]), Stop> {
        let (check, rest) = array_of(bytes)?;
        Ok((CheckRow(check), rest))
    }

    fn put(&self, out: &mut Text) {
        out.put_all(&self.0);
    }
}

/// A grant.
#[derive(Clone, Copy, Debug, PartialEq, Eq)]
pub struct GrantRow {
    /// The holder's number.
    pub holder: u32,
    /// The folder's number, or the file's clearance number.
    pub folder: u32,
}

impl Fixed for GrantRow {
    ghost spell = { spelling.spell_grant };

    ghost value_at = { reading.grant_at };

    ghost size = { 8 };

    fn len() -> u64 {
        8
    }

    #[tactic(auto, unfolding(record_format::specs::Fields::and_then, crate::specs::Reading::grant_at))]
    fn read(bytes: &[u8]) -> Result<(Self, &[u8]), Stop> {
        let (holder, rest) = u32_of(bytes)?;
        let (folder, rest) = u32_of(rest)?;
        Ok((GrantRow { holder, folder }, rest))
    }

    #[tactic(auto, unfolding(crate::specs::Spelling::spell_grant))]
    fn put(&self, out: &mut Text) {
        put_number(self.holder, out);
        put_number(self.folder, out);
    }
}

/// The newest key of a role.
#[derive(Clone, Copy, Debug, PartialEq, Eq)]
pub struct KeyRow {
    /// The place of the role's variant among those of [`Role`](cry_base::Role), from 0.
    pub place: u8,
    /// The role's number.
    pub id: u32,
    /// The key's serial.
    pub serial: u64,
}

impl Fixed for KeyRow {
    ghost spell = { spelling.spell_key };

    ghost value_at = { reading.key_at };

    ghost size = { 13 };

    fn len() -> u64 {
        13
    }

    #[tactic(auto, unfolding(record_format::specs::Fields::and_then, crate::specs::Reading::key_at))]
    fn read(bytes: &[u8]) -> Result<(Self, &[u8]), Stop> {
        let (place, rest) = byte_of(0, 255, bytes)?;
        let (id, rest) = u32_of(rest)?;
        let (serial, rest) = u64_of(rest)?;
        Ok((KeyRow { place, id, serial }, rest))
    }

    #[tactic(auto, unfolding(record_format::specs::Spelling::be64, crate::specs::Spelling::spell_key))]
    fn put(&self, out: &mut Text) {
        out.put(self.place);
        put_number(self.id, out);
        out.put_all(&self.serial.to_be_bytes());
    }
}

/// A marked role.
#[derive(Clone, Copy, Debug, PartialEq, Eq)]
pub struct MarkRow {
    /// The place of the role's variant among those of [`Role`](cry_base::Role), from 0.
    pub place: u8,
    /// The role's number.
    pub id: u32,
}

impl Fixed for MarkRow {
    ghost spell = { spelling.spell_mark };

    ghost value_at = { reading.mark_at };

    ghost size = { 5 };

    fn len() -> u64 {
        5
    }

    #[tactic(auto, unfolding(record_format::specs::Fields::and_then, crate::specs::Reading::mark_at))]
    fn read(bytes: &[u8]) -> Result<(Self, &[u8]), Stop> {
        let (place, rest) = byte_of(0, 255, bytes)?;
        let (id, rest) = u32_of(rest)?;
        Ok((MarkRow { place, id }, rest))
    }

    #[tactic(auto, unfolding(crate::specs::Spelling::spell_mark))]
    fn put(&self, out: &mut Text) {
        out.put(self.place);
        put_number(self.id, out);
    }
}

/// Where the last link of an edge stands.
#[derive(Clone, Copy, Debug, PartialEq, Eq)]
pub struct LinkRow {
    /// The kind of edge.
    pub kind: u8,
    /// The number of the role at its start.
    pub from_id: u32,
    /// The number of the role at its end.
    pub to_id: u32,
    /// The number of the batch.
    pub batch: u32,
    /// The place among the batch's links, from 0.
    pub index: u32,
}

impl Fixed for LinkRow {
    ghost spell = { spelling.spell_link_row };

    ghost value_at = { reading.link_row_at };

    ghost size = { 17 };

    fn len() -> u64 {
        17
    }

    #[tactic(auto, unfolding(record_format::specs::Fields::and_then, crate::specs::Reading::link_row_at))]
    fn read(bytes: &[u8]) -> Result<(Self, &[u8]), Stop> {
        let (kind, rest) = byte_of(0, 255, bytes)?;
        let (from_id, rest) = u32_of(rest)?;
        let (to_id, rest) = u32_of(rest)?;
        let (batch, rest) = u32_of(rest)?;
        let (index, rest) = u32_of(rest)?;
        let row = LinkRow {
            kind,
            from_id,
            to_id,
            batch,
            index,
        };
        Ok((row, rest))
    }

    #[tactic(auto, unfolding(crate::specs::Spelling::spell_link_row))]
    fn put(&self, out: &mut Text) {
        out.put(self.kind);
        put_number(self.from_id, out);
        put_number(self.to_id, out);
        put_number(self.batch, out);
        put_number(self.index, out);
    }
}

/// Where the last content of a folder, a file or a holder stands.
#[derive(Clone, Copy, Debug, PartialEq, Eq)]
pub struct ContentRow {
    /// The kind of content.
    pub kind: u8,
    /// The number of the folder, file or holder.
    pub object: u32,
    /// The number of the batch.
    pub batch: u32,
    /// The place among the batch's contents, from 0.
    pub index: u32,
}

impl Fixed for ContentRow {
    ghost spell = { spelling.spell_content_row };

    ghost value_at = { reading.content_row_at };

    ghost size = { 13 };

    fn len() -> u64 {
        13
    }

    #[tactic(auto, unfolding(record_format::specs::Fields::and_then, crate::specs::Reading::content_row_at))]
    fn read(bytes: &[u8]) -> Result<(Self, &[u8]), Stop> {
        let (kind, rest) = byte_of(0, 255, bytes)?;
        let (object, rest) = u32_of(rest)?;
        let (batch, rest) = u32_of(rest)?;
        let (index, rest) = u32_of(rest)?;
        let row = ContentRow {
            kind,
            object,
            batch,
            index,
        };
        Ok((row, rest))
    }

    #[tactic(auto, unfolding(crate::specs::Spelling::spell_content_row))]
    fn put(&self, out: &mut Text) {
        out.put(self.kind);
        put_number(self.object, out);
        put_number(self.batch, out);
        put_number(self.index, out);
    }
}
