//! That a stop has more than one outcome: which of the allowed ones it picks no clause tells.
ghost use Rattle.std.specs.Prelude;

use cry_base::{List, Mem, Text};
use cry_io::{Disk, Failed, MemDisk};
use std::process::Abort;
use std::test::Fail;

const STABLE: [u8; 12] = *b"............";

const SHOWN: [u8; 16] = *b"..wxyz....longer";

fn put(rt: &impl Abort, disk: &mut MemDisk, place: u64, bytes: &[u8]) -> Result<(), Failed> {
    assert!(rt; place <= disk.size() && (bytes.len() as u64) < u64::MAX - place);
    disk.write_at(place, bytes)
}

fn stable(rt: &impl AllocGlobal) -> Mem<Text> {
    let mut text = List::new(rt.alloc());
    text.append(&STABLE)?;
    Ok(text)
}

/// A disk with two writes since the last sync: one inside, and one past the end.
fn with_two_writes(rt: &(impl Abort + AllocGlobal)) -> Result<MemDisk, Fail> {
    let image = stable(rt)?;
    assert!(rt; image.as_slice().len() <= 20);
    let mut disk = MemDisk::make(rt.alloc(), image, 20, 100, List::new(rt.alloc()), None)?;
    put(rt, &mut disk, 2, b"wxyz")?;
    put(rt, &mut disk, 10, b"longer")?;
    Ok(disk)
}

/// Which outcomes a range of bytes has had.
#[derive(Clone, Copy)]
struct Seen {
    old: bool,
    new: bool,
    torn: bool,
    cut: bool,
}

const NOTHING: Seen = Seen {
    old: false,
    new: false,
    torn: false,
    cut: false,
};

impl Seen {
    /// Adds what is left of a range in one image, of which there were the old bytes and then the new.
    fn add(&mut self, left: &[u8], old: &[u8], new: &[u8]) {
        if left == old {
            self.old = true;
        } else if left == new {
            self.new = true;
        } else if new.starts_with(left) {
            self.cut = true;
        } else {
            self.torn = true;
        }
    }
}

/// What 400 stops leave of the write inside, and of the one past the end.
fn stopped(rt: &(impl Abort + AllocGlobal)) -> Result<[Seen; 2], Fail> {
    let (mut inside, mut past) = (NOTHING, NOTHING);
    for pick in 0..400u64 {
        let disk = with_two_writes(rt)?.stop(rt.alloc(), pick)?;
        let left = disk.bytes();
        assert!(rt; 12 <= left.len() && left.len() <= 16, "at {pick}");
        inside.add(&left[2..6], &STABLE[2..6], &SHOWN[2..6]);
        past.add(&left[10..], &STABLE[10..], &SHOWN[10..]);
    }
    Ok([inside, past])
}

#[test]
fn a_stop_leaves_each_write_old_new_torn_or_cut(rt: HostRuntime) -> Result<(), Fail> {
    let [inside, past] = stopped(&rt)?;
    assert!(rt; inside.old && inside.new && inside.torn && !inside.cut);
    assert!(rt; past.old && past.new && past.torn && past.cut);
    Ok(())
}
