//! The test of a head that is handed in, before a store is read.
ghost use Rattle.std.specs.Prelude.{◌≡◌, ◌<◌, ◌≤◌, Err, IfErr, IsTrue};
ghost use Rattle.cry_io.specs.Reading.{IsOnlyRead};
ghost use Rattle.cry_io.specs.Told.{WhereTold};
ghost use Rattle.cli_heads.specs.Statuses.{is_test_answer};
ghost use Rattle.cli_heads.specs.Testing.{TestsHead};
ghost use Rattle.log_heads.specs.Published.{hashes_in};

use crate::statuses::log_status;
use cli_base::status::Status;
use cry_io::Disk;
use head_tree::Head;
use log_heads::Heads;
use std::alloc::Global;

/// Tests that the log that the disk holds begins with the batches that a head names. The log is read without a key, and the disk is never
/// written.
pub fn test_head<D: Disk>(alloc: Global, head: &Head, disk: &mut D) -> Result<(), Status>
    ensures tested { WhereTold (D.shown disk.old) (λ image. TestsHead head.now result (hashes_in image)) }
    ensures answers { IfErr result (λ status. IsTrue (is_test_answer status)) }
    ensures read_only { IsOnlyRead D.Disk disk.old disk.new }
    ensures disk_fault { result ≡ Err Status.DiskFault → D.faults disk.old < D.faults disk.new }
    ensures counts { D.faults disk.old ≤ D.faults disk.new }
{
    let heads = match Heads::read(alloc, head.batches, disk) {
        Ok(heads) => heads,
        Err(fault) => return Err(log_status(fault)),
    };
    let Some(first) = heads.first else {
        return Err(Status::Behind {
            have: heads.all.batches,
            want: head.batches,
        });
    };
    if first.root != head.root {
        return Err(Status::Forked {
            batches: head.batches,
        });
    }
    Ok(())
}
