//! The command `run HEAD`: the test of the head behind the owner's line, and the log's last head behind the replies.
ghost use Rattle.std.specs.Prelude.{◌≡◌, ◌<◌, ◌≤◌, IsTrue, is_some};
ghost use Rattle.cli_base.specs.World.{senses_of, world_of};
ghost use Rattle.cli_running.specs.Promises.HeldRun.{HeldRunEnds, is_held_run_answer};

use crate::run::{first_owner, open_and_apply};
use cli_base::lines::LineReader;
use cli_base::status::Status;
use cli_heads::asking::ask_head;
use cli_heads::testing::test_head;
use cli_sessions::ends::script_status;
use cry_io::{Disk, Sink, Source};
use head_tree::Head;
use std::alloc::Global;

/// Runs over a store whose log begins with the batches that the head names, and prints the log's head when all lines were answered. Where
/// the log doesn't begin so, `Behind` or `Forked` tells it: then nothing was drawn, written or filled. All else is as for `run`.
pub fn run_held<S: Source, R: Source, D: Disk, W: Sink>(
    alloc: Global,
    head: &Head,
    input: &mut S,
    random: &mut R,
    disk: &mut D,
    out: &mut W,
) -> Status
    ensures answers { IsTrue (is_held_run_answer result) }
    ensures ends { HeldRunEnds head.now (senses_of S.Source R.Source D.Disk W.Sink) result
        (world_of input.old random.old disk.old out.old) (world_of input.new random.new disk.new out.new) }
    ensures read_fault { result ≡ Status.ReadFault → S.faults input.old < S.faults input.new }
    ensures random_fault { result ≡ Status.RandomFault → R.faults random.old < R.faults random.new }
    ensures disk_fault { result ≡ Status.DiskFault → D.faults disk.old < D.faults disk.new }
    ensures write_fault { result ≡ Status.WriteFault → W.faults out.old < W.faults out.new }
    ensures input_told { is_some (S.left input.new) ≡ is_some (S.left input.old) }
    ensures random_told { is_some (R.left random.new) ≡ is_some (R.left random.old) }
    ensures disk_told { is_some (D.shown disk.new) ≡ is_some (D.shown disk.old) }
    ensures out_told { is_some (W.written out.new) ≡ is_some (W.written out.old) }
    ensures input_counts { S.faults input.old ≤ S.faults input.new }
    ensures random_counts { R.faults random.old ≤ R.faults random.new }
    ensures disk_counts { D.faults disk.old ≤ D.faults disk.new }
    ensures out_counts { W.faults out.old ≤ W.faults out.new }
{
    let mut reader = LineReader::new(alloc);
    let key = match first_owner(alloc, &mut reader, input) {
        Ok(key) => key,
        Err(fault) => return script_status(fault),
    };
    match test_head(alloc, head, disk) {
        Ok(()) => {}
        Err(status) => return status,
    }
    match open_and_apply(alloc, key, reader, input, random, disk, out) {
        Status::Done => ask_head(alloc, disk, out),
        ended => ended,
    }
}
