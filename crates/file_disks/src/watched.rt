//! A disk over which somebody watches how far a run is.
ghost use Rattle.std.specs.Prelude.{◌≡◌, ◌+◌, ◌-◌, ◌^◌, ℕ, List, Some, is_some, min, OnOk};
ghost use Rattle.cry_io.specs.Counts.{CountsFault};
ghost use Rattle.cry_io.specs.Stops.{Elapses};

use crate::pace::Pace;
use cry_io::{Disk, Failed};
use std::marker::Model;

/// Who is told how many commands stand, and makes of it what they like.
pub trait Onlooker {
    /// So many stand once the sync that begins now is done.
    fn tell(&mut self, commands: u64);

    /// No more comes.
    fn end(&self);
}

/// A disk whose syncs are counted for an onlooker, if there is one. Contracts see the disk, the count, and whether there is one.
#[derive(Drop)]
pub struct Watched<D, O> {
    disk: D,
    pace: Pace,
    onlooker: Option<O>,
}

impl<D, O> Model for Watched<D, O> {
    ghost use Rattle.std.specs.Prelude.{is_some};
    ghost use Rattle.file_disks.specs.Ahead.{Paced};

    ghost Value = { Paced D };

    ghost view = { λ w. record { disk = w.disk; syncs = w.pace.syncs; is_watched = is_some w.onlooker } };
}

impl<D: Disk + Drop, O: Onlooker + Drop> Watched<D, O> {
    /// The disk, of which no sync was counted.
    pub fn over(disk: D, pace: Pace, onlooker: Option<O>) -> Watched<D, O>
        ensures disk { result.disk ≡ disk }
        ensures syncs { result.syncs ≡ pace.syncs }
        ensures watched { result.is_watched ≡ is_some onlooker }
    {
        Watched {
            disk,
            pace,
            onlooker,
        }
    }

    /// Tells the onlooker that no more comes.
    pub fn end(&self) {
        if let Some(onlooker) = &self.onlooker {
            onlooker.end();
        }
    }
}

impl<D: Disk + Drop, O: Onlooker + Drop> Disk for Watched<D, O> {
    ghost size_of = { λ w. D.size_of w.disk };

    ghost shown = { λ w. D.shown w.disk };

    ghost may_leave = { λ w. D.may_leave w.disk };

    ghost moment = { λ w. D.moment w.disk };

    ghost since = { λ w. D.since w.disk };

    ghost faults = { λ w. D.faults w.disk };

    ghost size_is_shown = { λ w. D.size_is_shown w.disk };

    ghost shown_may_be_left = { λ w. D.shown_may_be_left w.disk };

    ghost counts_now = { λ w. D.counts_now w.disk };

    ghost only_now = { λ w. D.only_now w.disk };

    fn size(&self) -> u64 {
        self.disk.size()
    }

    fn read_at(&mut self, place: u64, buf: &mut [u8]) -> Result<(), Failed> {
        self.disk.read_at(place, buf)
    }

    fn write_at(&mut self, place: u64, bytes: &[u8]) -> Result<(), Failed> {
        self.disk.write_at(place, bytes)
    }

    /// It counts one sync more, also where that fails.
    fn sync(&mut self) -> Result<(), Failed>
        ensures durable { OnOk result ((c : List ℕ) → D.may_leave self.new.disk c → D.shown self.new.disk ≡ Some c) }
        ensures shown { D.shown self.new.disk ≡ D.shown self.old.disk }
        ensures size { D.size_of self.new.disk ≡ D.size_of self.old.disk }
        ensures stops { (c : List ℕ) → D.may_leave self.new.disk c → D.may_leave self.old.disk c }
        ensures time { Elapses (D.moment self.old.disk) (D.moment self.new.disk) (D.since self.old.disk) (D.since self.new.disk)
            (D.shown self.new.disk) (D.may_leave self.new.disk) }
        ensures counts { CountsFault result (D.faults self.old.disk) (D.faults self.new.disk) }

        ensures watched { self.new.is_watched ≡ self.old.is_watched }
        ensures counted { self.new.syncs ≡ min (self.old.syncs + 1) (2 ^ 64 - 1) }
    {
        let commands = self.pace.sync();
        if let Some(onlooker) = &mut self.onlooker {
            onlooker.tell(commands);
        }
        self.disk.sync()
    }
}
