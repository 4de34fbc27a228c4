//! The proof that a published log begins with its first batches, of which no leaf is kept.
ghost use Rattle.std.specs.Prelude.{◌≡◌, ◌≢◌, ◌<◌, ◌≤◌, Err};
ghost use Rattle.cry_io.specs.Reading.{IsOnlyRead};
ghost use Rattle.cry_io.specs.Told.{WhereTold};
ghost use Rattle.log_heads.specs.Proving.{ReadsProof};
ghost use Rattle.log_heads.specs.Published.{hashes_in};

use crate::proof_so_far::ProofSoFar;
use commit_journal::{OpenFault, PublicLog};
use cry_base::List;
use cry_io::Disk;
use std::alloc::Global;

/// What one reading of a log tells whoever has the head over its first batches.
#[derive(Drop)]
pub struct PublishedProof {
    /// How many batches are published.
    pub batches: u32,
    /// The proof that the log begins with so many first of them as were asked for, and `None` where fewer are published.
    pub proof: Option<List<[u8; 32]>>,
}

impl PublishedProof {
    /// Reads a log as anybody does, each batch once, and hashes each leaf once. It keeps a hundred hashes and the batch that it reads,
    /// however many there are. The disk is never written.
    ///
    /// `NotAStore` comes of the header, and `WrongKey` never comes. `Damaged` and `Tampered` come where reading the log without a
    /// key answers them (docs/FORMAT.md, "Reading").
    pub fn read<D: Disk>(
        alloc: Global,
        first: u32,
        disk: &mut D,
    ) -> Result<PublishedProof, OpenFault>
        ensures verdict { WhereTold (D.shown disk.old) (λ image. ReadsProof first result (hashes_in image)) }
        ensures never_wrong_key { result ≢ Err OpenFault.WrongKey }
        ensures read_only { IsOnlyRead D.Disk disk.old disk.new }
        ensures counts { D.faults disk.old ≤ D.faults disk.new }
        ensures disk_fault { result ≡ Err OpenFault.DiskFault → D.faults disk.old < D.faults disk.new }
    {
        let mut log = PublicLog::begin(alloc, disk, None)?;
        let mut so_far = ProofSoFar::new(alloc, first, log.front().as_slice())?;
        while let Some(_placed) = log.next(alloc, disk)? {
            so_far.push(log.leaf());
        }
        Ok(so_far.published(alloc))
    }
}
