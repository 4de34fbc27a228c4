//! A call of the program, in which one thing may fail.
use crate::objects::{copied, disk, input, random, sink};
use cry_base::{List, Mem, Text};
use cry_io::{MemDisk, MemSink, MemSource};
use cryptree_cli::status::Status;
use cryptree_cli::top::top;
use std::alloc::Global;

/// What the program is called with: its command's words, its input, and how many bytes of that come at once.
#[derive(Clone, Copy)]
pub struct Call {
    pub command: &'static [&'static [u8]],
    pub input: &'static [u8],
    pub step: usize,
}

/// What fails: a call of one of the objects, by its number from 0; every call of the disk from one on; or the output, which has room
/// for so many bytes alone.
#[derive(Clone, Copy)]
pub enum Fault {
    Nothing,
    Input(u64),
    Random(u64),
    Disk(u64),
    DeadDisk(u64),
    Output(u64),
    Room(usize),
}

/// What came of a call: how it ended, what it printed, and the disk behind it.
#[derive(Drop)]
pub struct Came {
    pub status: Status,
    pub printed: Text,
    pub disk: MemDisk,
}

/// Calls the program over a disk with this image, where one thing fails.
pub fn called(alloc: Global, call: Call, fault: Fault, image: &[u8]) -> Mem<Came> {
    let words = words(alloc, call.command)?;
    let mut input = input(alloc, call.input, call.step, fault)?;
    let mut random = random(alloc, fault)?;
    let mut disk = disk(alloc, fault, image)?;
    let mut out = sink(alloc, fault)?;
    let status = answered(alloc, &words, &mut input, &mut random, &mut disk, &mut out);
    let printed = copied(alloc, out.written())?;
    Ok(Came {
        status,
        printed,
        disk,
    })
}

/// The call, without its contract: a test looks at what came, and needs none of it for its proof.
fn answered(
    alloc: Global,
    words: &List<Text>,
    input: &mut MemSource,
    random: &mut MemSource,
    disk: &mut MemDisk,
    out: &mut MemSink,
) -> Status {
    top(alloc, words, input, random, disk, out)
}

fn words(alloc: Global, command: &[&[u8]]) -> Mem<List<Text>> {
    let mut words = List::new(alloc);
    words.push(copied(alloc, b"store")?)?;
    words.push(copied(alloc, b"random")?)?;
    for word in command {
        words.push(copied(alloc, word)?)?;
    }
    Ok(words)
}
