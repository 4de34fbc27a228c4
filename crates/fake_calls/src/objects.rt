//! The outside of a call: its input, its random bytes, its disk and its output.
ghost use Rattle.std.specs.Prelude.{◌≡◌, IfOk};

use crate::call::Fault;
use cry_base::{List, Mem, Text};
use cry_io::{MemDisk, MemSink, MemSource};
use std::alloc::Global;

/// These bytes, of which so many come at once, and one where that is none.
pub(crate) fn input(alloc: Global, bytes: &[u8], step: usize, fault: Fault) -> Mem<MemSource> {
    let fails = match fault {
        Fault::Input(number) => only(alloc, number)?,
        _ => List::new(alloc),
    };
    Ok(MemSource::make(copied(alloc, bytes)?, step.max(1), fails))
}

/// The bytes 0, 1, 2 and so on up to 255, four times, of which 64 come at once.
pub(crate) fn random(alloc: Global, fault: Fault) -> Mem<MemSource> {
    let fails = match fault {
        Fault::Random(number) => only(alloc, number)?,
        _ => List::new(alloc),
    };
    let mut bytes = List::new(alloc);
    for _ in 0..4 {
        append_rising(&mut bytes)?;
    }
    Ok(MemSource::make(bytes, 64, fails))
}

fn append_rising(bytes: &mut Text) -> Mem<()> {
    for byte in 0..=255u8 {
        bytes.push(byte)?;
    }
    Ok(())
}

/// A disk with this image, and room for as many bytes, or for 8,192.
pub(crate) fn disk(alloc: Global, fault: Fault, image: &[u8]) -> Mem<MemDisk> {
    let fails = match fault {
        Fault::Disk(number) => only(alloc, number)?,
        _ => List::new(alloc),
    };
    let dead_from = match fault {
        Fault::DeadDisk(number) => Some(number),
        _ => None,
    };
    let room = image.len().max(8192);
    MemDisk::make(alloc, copied(alloc, image)?, room, 16_384, fails, dead_from)
}

/// A sink with room for so many bytes, or for 400.
pub(crate) fn sink(alloc: Global, fault: Fault) -> Mem<MemSink> {
    let fails = match fault {
        Fault::Output(number) => only(alloc, number)?,
        _ => List::new(alloc),
    };
    let room = match fault {
        Fault::Room(room) => room,
        _ => 400,
    };
    MemSink::make(alloc, room, fails)
}

fn only(alloc: Global, number: u64) -> Mem<List<u64>> {
    let mut numbers = List::new(alloc);
    numbers.push(number)?;
    Ok(numbers)
}

pub(crate) fn copied(alloc: Global, bytes: &[u8]) -> Mem<Text>
    ensures { IfOk result (λ text. text.items ≡ bytes.now) }
{
    let mut text = List::new(alloc);
    text.append(bytes)?;
    Ok(text)
}
