//! The next batch of a log to which others add.
ghost use Rattle.std.specs.Prelude.{◌≡◌, ◌≢◌, ◌<◌, ◌≤◌, Err, IfErr, IfOk, OnErr};
ghost use Rattle.cry_io.specs.Reading.{IsOnlyRead};
ghost use Rattle.cry_io.specs.Told.{WhereTold};
ghost use Rattle.commit_journal.specs.Placed.{plain_placed};
ghost use Rattle.commit_journal.specs.Streaming.{regated};
ghost use Rattle.log_visits.specs.Answering.{AnswersBy, IsOfBytes};
ghost use Rattle.read_steps.specs.Steps.{GoesOn, next_batch};

use commit_journal::{Past, Placed, PublicLog};
use cry_io::Disk;
use log_visits::ClientFault;
use std::alloc::Global;

/// A batch that a log gave, and what was known before it.
#[derive(Drop)]
pub(crate) struct OneMore {
    pub(crate) placed: Placed,
    pub(crate) start: Past,
}

/// Reads the gate behind the batches that were given once more, and then the next batch. Its bytes aren't kept.
pub(crate) fn read_one<D: Disk>(
    alloc: Global,
    disk: &mut D,
    log: &mut PublicLog,
) -> Result<OneMore, ClientFault>
    ensures verdict { WhereTold (D.shown disk.old)
        (λ s. AnswersBy (λ one turn. (turn.placed ≡ plain_placed one.placed) × (turn.past ≡ log.new.past)
        × (one.start ≡ (regated log.old s).past)) result (next_batch log.old s)) }
    ensures goes_on { IfOk result (λ one. GoesOn log.old one.placed one.start log.new) }
    ensures unchanged { OnErr result (log.new ≡ record log.old { past = record log.old.past { gate = log.new.past.gate } }) }
    ensures no_key { result ≢ Err ClientFault.WrongKey }
    ensures of_bytes { IfErr result IsOfBytes }
    ensures read_only { IsOnlyRead D.Disk disk.old disk.new }
    ensures counts { D.faults disk.old ≤ D.faults disk.new }
    ensures disk_fault { result ≡ Err ClientFault.DiskFault → D.faults disk.old < D.faults disk.new }
{
    log.reread_gate(disk)?;
    let start = log.past();
    let Some(placed) = log.next(alloc, disk)? else {
        return Err(ClientFault::Damaged { at: start.place() });
    };
    log.forget_leaf(alloc);
    Ok(OneMore { placed, start })
}
