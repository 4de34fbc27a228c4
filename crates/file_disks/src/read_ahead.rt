//! A disk that is read some way ahead, so that short reads one behind another ask the system seldom.
ghost use Rattle.std.specs.Prelude.{◌≡◌, ◌≤◌};
ghost use Rattle.cry_io.specs.Reading.{IsOnlyRead};

use crate::known::Known;
use cry_io::{Disk, Failed};
use std::alloc::Global;
use std::marker::Model;

/// A disk, with bytes that were read from it: a read within them asks it nothing. Contracts see the disk.
#[derive(Drop)]
pub struct ReadAhead<D: Disk> {
    disk: D,
    known: Known,
}

impl<D: Disk> Model for ReadAhead<D> {
    ghost use Rattle.file_disks.specs.Ahead.{IsOf};
    ghost use Rattle.cry_io.specs.Told.{WhereTold};

    ghost Value = { D };

    ghost view = { λ a. a.disk };

    ghost invariant = { λ a. WhereTold (D.shown a.disk) (IsOf a.known) };
}

impl<D: Disk> ReadAhead<D> {
    /// The disk, of which nothing was read yet. Where there is no memory for it, nothing is read ahead.
    pub fn over(alloc: Global, disk: D) -> ReadAhead<D>
        ensures { result ≡ disk }
    {
        ReadAhead {
            disk,
            known: Known::new(alloc),
        }
    }

    /// Reads some way ahead, where the bytes of the range are few and not known. A fault is not told, since it may be of bytes
    /// that nobody asked for: those of the range are then read by themselves.
    fn look_ahead(&mut self, place: u64, len: usize)
        ensures read_only { IsOnlyRead D.Disk self.old self.new }
        ensures counts { D.faults self.old ≤ D.faults self.new }
    {
        if len > self.known.room() || self.known.find(place, len).is_some() {
            return;
        }
        let _ = self.known.fill(&mut self.disk, place);
    }
}

impl<D: Disk + Drop> Disk for ReadAhead<D> {
    ghost size_of = { D.size_of };

    ghost shown = { D.shown };

    ghost may_leave = { D.may_leave };

    ghost moment = { D.moment };

    ghost since = { D.since };

    ghost faults = { D.faults };

    ghost size_is_shown = { D.size_is_shown };

    ghost shown_may_be_left = { D.shown_may_be_left };

    ghost counts_now = { D.counts_now };

    ghost only_now = { D.only_now };

    fn size(&self) -> u64 {
        self.disk.size()
    }

    fn read_at(&mut self, place: u64, buf: &mut [u8]) -> Result<(), Failed> {
        self.look_ahead(place, buf.len());
        match self.known.find(place, buf.len()) {
            Some(bytes) => {
                buf.copy_from_slice(bytes);
                Ok(())
            }
            None => self.disk.read_at(place, buf),
        }
    }

    fn write_at(&mut self, place: u64, bytes: &[u8]) -> Result<(), Failed> {
        self.known.forget();
        self.disk.write_at(place, bytes)
    }

    fn sync(&mut self) -> Result<(), Failed> {
        self.disk.sync()
    }
}
