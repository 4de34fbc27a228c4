//! The heads of a published log, of which no leaf is kept.
ghost use Rattle.std.specs.Prelude.{◌≡◌, ◌≢◌, ◌<◌, ◌≤◌, Err};
ghost use Rattle.cry_io.specs.Reading.{IsOnlyRead};
ghost use Rattle.cry_io.specs.Told.{WhereTold};
ghost use Rattle.log_heads.specs.Published.{hashes_in};
ghost use Rattle.log_heads.specs.Reading.{ReadsHeads};

use crate::so_far::HeadsSoFar;
use commit_journal::{OpenFault, PublicLog};
use cry_io::Disk;
use head_tree::Head;
use std::alloc::Global;

/// The heads of a log that one reading of it tells.
#[derive(Clone, Copy, Debug, PartialEq, Eq)]
pub struct Heads {
    /// The head over all published batches.
    pub all: Head,
    /// The head over so many of the first of them as were asked for, and `None` where fewer are published.
    pub first: Option<Head>,
}

impl Heads {
    /// Reads a log as anybody does, each batch once, and hashes each leaf once. It keeps 33 hashes and the batch that it reads, however
    /// many there are. The disk is never written.
    ///
    /// `NotAStore` comes of the header, and `WrongKey` never comes. `Damaged` and `Tampered` come where reading the log without a
    /// key answers them (docs/FORMAT.md, "Reading").
    pub fn read<D: Disk>(alloc: Global, first: u32, disk: &mut D) -> Result<Heads, OpenFault>
        ensures verdict { WhereTold (D.shown disk.old) (λ image. ReadsHeads first result (hashes_in image)) }
        ensures never_wrong_key { result ≢ Err OpenFault.WrongKey }
        ensures read_only { IsOnlyRead D.Disk disk.old disk.new }
        ensures counts { D.faults disk.old ≤ D.faults disk.new }
        ensures disk_fault { result ≡ Err OpenFault.DiskFault → D.faults disk.old < D.faults disk.new }
    {
        let mut log = PublicLog::begin(alloc, disk, None)?;
        let mut heads = HeadsSoFar::new(first, log.front().as_slice());
        while let Some(_placed) = log.next(alloc, disk)? {
            heads.push(log.leaf());
        }
        Ok(heads.heads())
    }
}
