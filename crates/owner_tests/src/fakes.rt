//! A store that is made over fakes, and the bytes that they give.
ghost use Rattle.std.specs.Prelude.{◌≡◌, ◌≤◌, [], ◌∷◌, length, IfOk};
ghost use Rattle.cry_io.specs.Events.{Stays};
ghost use Rattle.cry_io.specs.Leaving.{shown_of};

use cry_base::{Limits, List, Mem, Text};
use cry_io::{MemDisk, MemSource};
use std::alloc::Global;
use std::test::Fail;
use store_owner::Owner;

#[derive(Drop)]
pub(crate) struct FreshStore {
    pub(crate) owner: Owner,
    pub(crate) disk: MemDisk,
}

/// A fresh store with this limit, made of the bytes 0, 1, 2 and so on.
#[tactic(auto, unfolding(cry_io::specs::Leaving::shown_of))]
pub(crate) fn make_store(alloc: Global, store_bytes: u64) -> Result<FreshStore, Fail>
    requires least { 819 ≤ store_bytes }
    requires known { store_bytes ≤ 1073741824 }
    ensures inside { IfOk result (λ store. store.owner.journal.end ≤ length (shown_of store.disk.events)) }
{
    let mut disk = blank(alloc)?;
    let mut random = rising(alloc)?;
    let limits = Limits {
        store_bytes,
        file_bytes: 1_048_576,
    };
    let owner = Owner::make(alloc, &mut disk, &mut random, limits)?;
    Ok(FreshStore { owner, disk })
}

/// An empty disk.
fn blank(alloc: Global) -> Mem<MemDisk>
    ensures { IfOk result (λ disk. disk.events ≡ Stays [] ∷ []) }
{
    MemDisk::make(
        alloc,
        List::new(alloc),
        8192,
        16_384,
        List::new(alloc),
        None,
    )
}

/// The bytes 0 to 191.
fn rising(alloc: Global) -> Mem<MemSource> {
    let mut bytes = List::new(alloc);
    for byte in 0..192 {
        bytes.push(byte)?;
    }
    Ok(MemSource::make(bytes, 7, List::new(alloc)))
}

/// The bytes from 255 down to 0, four times.
pub(crate) fn falling(alloc: Global) -> Mem<MemSource> {
    let mut bytes = List::new(alloc);
    for _ in 0..4 {
        append_falling(&mut bytes)?;
    }
    Ok(MemSource::make(bytes, 7, List::new(alloc)))
}

fn append_falling(bytes: &mut Text) -> Mem<()> {
    for byte in 0..=255u8 {
        bytes.push(255 - byte)?;
    }
    Ok(())
}
