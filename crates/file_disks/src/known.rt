//! Bytes that were read from a disk last.
ghost use Rattle.std.specs.Prelude.{◌≡◌, ◌+◌, ◌≤◌, ℕ, List, IfSome, IsTrue, length, slice_range, vec_len};
ghost use Rattle.file_disks.specs.Ahead.{IsOf};
ghost use Rattle.cry_io.specs.Counts.{CountsFault};
ghost use Rattle.cry_io.specs.Reading.{IsOnlyRead};
ghost use Rattle.cry_io.specs.Told.{WhereTold};

use cry_io::{Disk, Failed};
use std::alloc::Global;

/// How many bytes are read at a time.
const AHEAD: usize = 8192;

/// Bytes of a disk from a place on: the first `len` of a buffer, which is empty where there was no memory for it.
#[derive(Drop)]
pub(crate) struct Known {
    bytes: Vec<u8>,
    len: usize,
    place: u64,
}

impl Known {
    /// No bytes.
    pub(crate) fn new(alloc: Global) -> Known
        ensures { (s : List ℕ) → IsOf result s }
    {
        let bytes = match Vec::from_elem(alloc, 0, AHEAD) {
            Ok(bytes) => bytes,
            Err(_) => Vec::new(alloc),
        };
        Known {
            bytes,
            len: 0,
            place: 0,
        }
    }

    /// How many bytes may be known at the most.
    pub(crate) fn room(&self) -> usize {
        self.bytes.len()
    }

    /// Knows nothing any more.
    pub(crate) fn forget(&mut self)
        ensures { (s : List ℕ) → IsOf self.new s }
    {
        self.len = 0;
    }

    /// The bytes of a range, where they are known.
    pub(crate) fn find(&self, place: u64, len: usize) -> Option<&[u8]>
        ensures bytes { IfSome result (λ found. (s : List ℕ) → IsOf self.now s → found.now ≡ slice_range s place (place + len)) }
        ensures len { IfSome result (λ found. length found.now ≡ len) }
    {
        if !self.has(place, len) {
            return None;
        }
        let start = (place - self.place) as usize;
        Some(&self.bytes[start..start + len])
    }

    /// Whether the bytes of a range are known.
    fn has(&self, place: u64, len: usize) -> bool
        ensures { IsTrue result → (self.now.place ≤ place) × (place + len ≤ self.now.place + self.now.len)
            × (self.now.len ≤ vec_len self.now.bytes) }
    {
        self.len <= self.bytes.len()
            && self.place <= place
            && len <= self.len
            && place - self.place <= (self.len - len) as u64
    }

    /// Reads as many bytes as fit, from the place on or, near the disk's end, from before it. Where the disk has fewer, or where that
    /// fails, none is known.
    pub(crate) fn fill<D: Disk>(&mut self, disk: &mut D, place: u64) -> Result<(), Failed>
        ensures known { WhereTold (D.shown disk.old) (IsOf self.new) }
        ensures read_only { IsOnlyRead D.Disk disk.old disk.new }
        ensures counts { CountsFault result (D.faults disk.old) (D.faults disk.new) }
    {
        self.len = 0;
        let Some(last) = disk.size().checked_sub(self.bytes.len() as u64) else {
            return Ok(());
        };
        let start = place.min(last);
        disk.read_at(start, &mut self.bytes)?;
        self.place = start;
        self.len = self.bytes.len();
        Ok(())
    }
}
