//! The command `upgrade HEAD`: the test of the head behind the owner's line, and the log's last head behind the reply.
ghost use Rattle.cli_base.specs.Promises.Any.{AnyEnds};
ghost use Rattle.cli_base.specs.World.{senses_of, world_of};
ghost use Rattle.cli_upgrading.specs.Promises.HeldUpgrade.{HeldUpgradeEnds};

use crate::upgrade::open_and_upgrade;
use cli_base::input::{input_status, read_owner_line};
use cli_base::status::Status;
use cli_heads::asking::ask_head;
use cli_heads::testing::test_head;
use cry_io::{Disk, Sink, Source};
use head_tree::Head;
use std::alloc::Global;

/// Upgrades a store whose log begins with the batches that the head names, and prints the log's head behind the reply. Where the log
/// doesn't begin so, `Behind` or `Forked` tells it: then nothing was drawn, written or filled. All else is as for `upgrade`.
pub fn upgrade_held<S: Source, R: Source, D: Disk, W: Sink>(
    alloc: Global,
    head: &Head,
    input: &mut S,
    random: &mut R,
    disk: &mut D,
    out: &mut W,
) -> Status
    ensures ends { HeldUpgradeEnds head.now (senses_of S.Source R.Source D.Disk W.Sink) result
        (world_of input.old random.old disk.old out.old) (world_of input.new random.new disk.new out.new) }
    ensures any { AnyEnds (senses_of S.Source R.Source D.Disk W.Sink) result
        (world_of input.old random.old disk.old out.old) (world_of input.new random.new disk.new out.new) }
{
    let key = match read_owner_line(alloc, input) {
        Ok(key) => key,
        Err(fault) => return input_status(fault),
    };
    match test_head(alloc, head, disk) {
        Ok(()) => {}
        Err(status) => return status,
    }
    match open_and_upgrade::<S, R, D, W>(alloc, key, random, disk, out) {
        Status::Done => ask_head(alloc, disk, out),
        ended => ended,
    }
}
