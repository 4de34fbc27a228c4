//! A file of the operating system as a disk. Nothing proved knows what a file holds, so it tells neither its
//! bytes nor what a stop may leave: this is the trusted edge.
ghost use Rattle.std.specs.Prelude.{◌≡◌, ◌+◌, ◌≤◌, ◌^◌, ◌<◌, ◌⊎◌, length, max, IsTrue, IsSome, OnOk};
ghost use Rattle.cry_io.specs.Counts.{CountsFault};
ghost use Rattle.cry_io.specs.Untold.{no_bytes, NoStop, NoSince, untold};

use crate::tally::Tally;
use crate::{Disk, Failed};
use std::fs::File;
use std::marker::Model;
use std::os::unix::fs::FileExt;

/// A file has no place past this one.
const MAX_PLACE: u64 = (1 << 63) - 1;

/// A file as a disk, or the disk over a file that couldn't be opened: its size is 0, and all its calls fail.
#[derive(Drop)]
pub struct FileDisk {
    file: Option<File>,
    size: u64,
    faults: Tally,
}

impl Model for FileDisk {
    ghost use Rattle.std.specs.Prelude.{is_some};
    ghost use Rattle.cry_io.specs.Untold.{Measured};

    ghost Value = { Measured };

    ghost view = { λ d. record { is_open = is_some d.file; size = d.size; faults = d.faults.count } };
}

impl FileDisk {
    /// The disk over a file, and over none where there is none or its size can't be read. No call has failed.
    pub fn over(file: Option<File>) -> FileDisk
        ensures open { IsTrue result.is_open → IsSome file }
        ensures empty { IsTrue result.is_open ⊎ (result.size ≡ 0) }
        ensures faults { result.faults ≡ 0 }
    {
        let size = match &file {
            Some(open) => measured(open),
            None => None,
        };
        FileDisk {
            file: if size.is_some() { file } else { None },
            size: size.unwrap_or(0),
            faults: Tally::new(),
        }
    }

    fn fail(&mut self) -> Failed
        ensures { self.new ≡ record self.old { faults = self.old.faults + 1 } }
    {
        self.faults = self.faults.raised();
        Failed
    }
}

impl Disk for FileDisk {
    ghost size_of = { λ d. d.size };

    ghost shown = { λ _. no_bytes };

    ghost may_leave = { λ _. NoStop };

    ghost moment = { λ _. 0 };

    ghost since = { λ _. NoSince };

    ghost faults = { λ d. d.faults };

    ghost size_is_shown = { λ d s is. absurd (untold s is) };

    ghost shown_may_be_left = { λ d s is. untold s is };

    ghost counts_now = { λ d t s left le is may. may };

    ghost only_now = { λ d s left h. absurd h };

    fn size(&self) -> u64 {
        self.size
    }

    /// It succeeds only where there is a file.
    fn read_at(&mut self, place: u64, buf: &mut [u8]) -> Result<(), Failed>
        requires { place + length buf.old ≤ self.old.size }
        ensures size { self.new.size ≡ self.old.size }
        ensures counts { CountsFault result self.old.faults self.new.faults }

        ensures open { OnOk result (IsTrue self.old.is_open) }
        ensures same { self.new.is_open ≡ self.old.is_open }
    {
        let is_read = match &self.file {
            Some(file) => is_within(place, buf.len()) && file.read_exact_at(buf, place).is_ok(),
            None => false,
        };
        if is_read { Ok(()) } else { Err(self.fail()) }
    }

    /// It succeeds only where there is a file. After a failure the size is read from the file again, since some
    /// of the bytes may stand past it. Where that fails too, all later calls fail: no sync may then claim that
    /// the size stays.
    fn write_at(&mut self, place: u64, bytes: &[u8]) -> Result<(), Failed>
        requires inside { place ≤ self.old.size }
        requires fits { place + length bytes.now < 2 ^ 64 }
        ensures size { OnOk result (self.new.size ≡ max self.old.size (place + length bytes.now)) }
        ensures no_shorter { self.old.size ≤ self.new.size }
        ensures no_longer { self.new.size ≤ max self.old.size (place + length bytes.now) }
        ensures counts { CountsFault result self.old.faults self.new.faults }

        ensures open { OnOk result (IsTrue self.old.is_open) }
        ensures stays_closed { IsTrue self.new.is_open → IsTrue self.old.is_open }
    {
        let end = self.size.max(place + bytes.len() as u64);
        let is_written = match &self.file {
            Some(file) => is_within(place, bytes.len()) && file.write_all_at(bytes, place).is_ok(),
            None => false,
        };
        if is_written {
            self.size = end;
            return Ok(());
        }
        match self.file.as_ref().and_then(|file| measured(file)) {
            Some(size) => self.size = size.max(self.size).min(end),
            None => self.file = None,
        }
        Err(self.fail())
    }

    /// The size is part of what must stay. After a failure all later calls fail: the system may have given up
    /// bytes that it couldn't write, and its next sync would still succeed.
    fn sync(&mut self) -> Result<(), Failed>
        ensures size { self.new.size ≡ self.old.size }
        ensures counts { CountsFault result self.old.faults self.new.faults }

        ensures open { OnOk result (IsTrue self.old.is_open) }
        ensures stays_closed { IsTrue self.new.is_open → IsTrue self.old.is_open }
    {
        let is_synced = match &self.file {
            Some(file) => file.sync_all().is_ok(),
            None => false,
        };
        if is_synced {
            return Ok(());
        }
        self.file = None;
        Err(self.fail())
    }
}

/// The size of a file, where it can be read.
fn measured(file: &File) -> Option<u64> {
    let size = file.metadata().ok()?.len();
    (size <= MAX_PLACE).then_some(size)
}

/// Whether a file has all the places of a range.
fn is_within(place: u64, len: usize) -> bool {
    place <= MAX_PLACE && len as u64 <= MAX_PLACE - place
}
