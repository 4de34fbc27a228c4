//! A script of every kind of command, and its first lines or all of them applied to a fresh store.
ghost use Rattle.std.specs.Prelude.{◌≡◌, ◌≤◌, false, length};
ghost use Rattle.cry_io.specs.Leaving.{shown_of};

use crate::fakes::{FreshStore, falling, make_store};
use cry_base::{Command, HolderId, List, Reply, Steps, Text};
use cry_io::MemSource;
use script_text::read_line;
use std::alloc::Global;
use std::test::Fail;
use store_owner::ApplyFault;

pub(crate) const LINES: [&[u8]; 11] = [
    b"mkdir /a",
    b"write /a/x 00ff",
    b"holder",
    b"grant 1 /a",
    b"grant 1 /a/x",
    b"mkdir /b",
    b"move /a/x /b",
    b"revoke 1 /b/x",
    b"rm /b/x",
    b"revoke 1 /a",
    b"rename /a z",
];

/// What `holder` is answered. The key: the bytes behind the 160 of the folder's keys and the 32 of the file's.
pub(crate) const MADE: Reply = Reply::Made {
    holder: HolderId(1),
    key: [
        63, 62, 61, 60, 59, 58, 57, 56, 55, 54, 53, 52, 51, 50, 49, 48, 47, 46, 45, 44, 43, 42, 41,
        40, 39, 38, 37, 36, 35, 34, 33, 32,
    ],
};

/// What a fresh store with this limit replies to these lines, and its bytes then.
pub(crate) fn outcome(
    alloc: Global,
    limit: u64,
    lines: &[&[u8]],
) -> Result<(List<Reply>, Text), Fail>
    requires least { 819 ≤ limit }
    requires known { limit ≤ 1073741824 }
{
    let mut store = make_store(alloc, limit)?;
    let replies = replies(alloc, &mut store, lines)?;
    let mut image = List::new(alloc);
    image.append(store.disk.bytes())?;
    Ok((replies, image))
}

/// What the owner of a fresh store replies to these lines, drawing from 255 down.
fn replies(alloc: Global, store: &mut FreshStore, lines: &[&[u8]]) -> Result<List<Reply>, Fail>
    requires { store.old.owner.journal.end ≤ length (shown_of store.old.disk.events) }
{
    let mut random = falling(alloc)?;
    let mut replies = List::new(alloc);
    for line in lines {
        let command = read_line(alloc, line)?;
        replies.push(applied(alloc, store, &mut random, &command)?)?;
    }
    Ok(replies)
}

/// Applies a command, and once more where there was no memory for it.
fn applied(
    alloc: Global,
    store: &mut FreshStore,
    random: &mut MemSource,
    command: &Command,
) -> Result<Reply, ApplyFault>
    requires { store.old.owner.journal.is_closed ≡ false → store.old.owner.journal.end ≤ length (shown_of store.old.disk.events) }
    ensures { store.new.owner.journal.is_closed ≡ false → store.new.owner.journal.end ≤ length (shown_of store.new.disk.events) }
{
    match applied_once(alloc, store, random, command) {
        Err(ApplyFault::OutOfMemory) => applied_once(alloc, store, random, command),
        answer => answer,
    }
}

/// Of what `apply` promises, a test needs no more for its proof.
fn applied_once(
    alloc: Global,
    store: &mut FreshStore,
    random: &mut MemSource,
    command: &Command,
) -> Result<Reply, ApplyFault>
    requires { store.old.owner.journal.is_closed ≡ false → store.old.owner.journal.end ≤ length (shown_of store.old.disk.events) }
    ensures { store.new.owner.journal.is_closed ≡ false → store.new.owner.journal.end ≤ length (shown_of store.new.disk.events) }
{
    store
        .owner
        .apply(alloc, &mut store.disk, random, command, &mut Steps::new())
}
