//! A disk in memory.
ghost use Rattle.std.specs.Prelude.{◌≡◌, ◌<◌, ◌≤◌, ◌↔◌, ◌⊎◌, ◌+◌, ◌-◌, ◌^◌, [], ◌∷◌, None, Some, length, slice_range, IfOk, OnOk, OnErr};
ghost use Rattle.std.specs.Prelude.{min, IsErr};
ghost use Rattle.cry_io.specs.Events.{Stays};
ghost use Rattle.cry_io.specs.Fakes.{read, wrote, synced, refused};
ghost use Rattle.cry_io.specs.Leaving.{shown_of, Leaves, Since};
ghost use Rattle.cry_io.specs.LeavingLaws.{shown_length, shown_left, now_counts, now_only};
ghost use Rattle.cry_io.specs.Schedules.{IsToFail, counted};
ghost use Rattle.cry_io.specs.Told.{WhereTold};

use crate::platter::Platter;
use crate::schedule::Schedule;
use crate::tally::Tally;
use crate::{Disk, Failed};
use cry_base::{List, Mem};
use std::alloc::Global;
use std::marker::Model;

/// A disk whose bytes, and what a stop may leave of them, are all told. It has room for so many bytes, and a
/// record of so many units: a write takes one and one more a byte, a sync takes one, a read none. A call that
/// fails takes none, and changes nothing but the counts.
#[derive(Drop)]
pub struct MemDisk {
    platter: Platter,
    log: usize,
    units: usize,
    schedule: Schedule,
    faults: Tally,
}

impl Model for MemDisk {
    ghost use Rattle.std.specs.Prelude.{◌≤◌};
    ghost use Rattle.cry_io.specs.Fakes.{Spun};

    ghost Value = { Spun };

    ghost view = { λ d. record {
      events = d.platter.events;
      room = d.platter.room;
      log = d.log;
      units = d.units;
      schedule = d.schedule;
      faults = d.faults.count;
    } };
}

impl MemDisk {
    /// A disk with this image, all of which stays. The calls to read, write and sync are numbered from 0
    /// together: those with these numbers fail, and all from a number on. It takes its memory here, and none
    /// later.
    pub fn make(
        alloc: Global,
        image: List<u8>,
        room: usize,
        log: usize,
        fails: List<u64>,
        dead_from: Option<u64>,
    ) -> Mem<MemDisk>
        requires { length image.items ≤ room }
        ensures image { IfOk result (λ d. d.events ≡ Stays image.items ∷ []) }
        ensures room { IfOk result (λ d. d.room ≡ room) }
        ensures log { IfOk result (λ d. d.log ≡ log) }
        ensures units { IfOk result (λ d. d.units ≡ log) }
        ensures schedule { IfOk result (λ d. d.schedule ≡ record { calls = 0; fails = fails.items; dead_from = dead_from }) }
        ensures faults { IfOk result (λ d. d.faults ≡ 0) }
    {
        Ok(MemDisk {
            platter: Platter::new(alloc, image.as_slice(), room)?,
            log,
            units: log,
            schedule: Schedule::new(fails, dead_from),
            faults: Tally::new(),
        })
    }

    /// The bytes that reads give.
    pub fn bytes(&self) -> &[u8]
        ensures { result.now ≡ shown_of self.now.events }
    {
        self.platter.shown()
    }

    /// How many calls to read, write and sync it has had since it was made, those that failed among them; the greatest number of 64
    /// bits where there were more.
    pub fn calls(&self) -> u64
        ensures { result ≡ min self.now.schedule.calls (2 ^ 64 - 1) }
    {
        self.schedule.calls()
    }

    /// The disk after a stop, chosen by `pick`: what is left is all that it shows, nothing is pending, and no
    /// call is to fail. It has the same room, and a record of as many units as at first.
    pub fn stop(self, alloc: Global, pick: u64) -> Mem<MemDisk>
        ensures left { IfOk result (λ d. Leaves self.events (shown_of d.events)) }
        ensures stays { IfOk result (λ d. d.events ≡ Stays (shown_of d.events) ∷ []) }
        ensures room { IfOk result (λ d. d.room ≡ self.room) }
        ensures log { IfOk result (λ d. d.log ≡ self.log) }
        ensures units { IfOk result (λ d. d.units ≡ self.log) }
        ensures schedule { IfOk result (λ d. d.schedule ≡ record { calls = 0; fails = []; dead_from = None }) }
        ensures faults { IfOk result (λ d. d.faults ≡ 0) }
    {
        let left = self.platter.outcome(alloc, pick)?;
        let (room, log) = (self.platter.room(), self.log);
        MemDisk::make(alloc, left, room, log, List::new(alloc), None)
    }

    /// Counts a call on a range up to this place, which takes so many units of the record. It fails where it
    /// was told to, where the range ends past the room, and where the units left are too few.
    fn begin(&mut self, end: u64, units: usize) -> Result<(), Failed>
        ensures fails { IsErr result ↔ IsToFail self.old.schedule ⊎ (self.old.room < end) ⊎ (self.old.units < units) }
        ensures ok { OnOk result (self.new ≡ record self.old { units = self.old.units - units; schedule = counted self.old.schedule }) }
        ensures err { OnErr result (self.new ≡ refused self.old) }
    {
        let is_to_fail = self.schedule.fails_next();
        let is_past = (self.platter.room() as u64) < end;
        if is_to_fail || is_past || self.units < units {
            self.faults = self.faults.raised();
            return Err(Failed);
        }
        self.units -= units;
        Ok(())
    }
}

impl Disk for MemDisk {
    ghost size_of = { λ d. length (shown_of d.events) };

    ghost shown = { λ d. Some (shown_of d.events) };

    ghost may_leave = { λ d. Leaves d.events };

    ghost moment = { λ d. length d.events };

    ghost since = { λ d. Since d.events };

    ghost faults = { λ d. d.faults };

    ghost size_is_shown = { λ d s is. shown_length d.events s is };

    ghost shown_may_be_left = { λ d s is. shown_left d.events s is };

    ghost counts_now = { λ d t s left le is may. now_counts d.events t s left le is may };

    ghost only_now = { λ d s left h. now_only d.events s left h };

    fn size(&self) -> u64 {
        self.platter.shown().len() as u64
    }

    /// It fails exactly where it was told to.
    fn read_at(&mut self, place: u64, buf: &mut [u8]) -> Result<(), Failed>
        requires { place + length buf.old ≤ length (shown_of self.old.events) }
        ensures bytes { OnOk result (WhereTold (Some (shown_of self.old.events)) (λ s. buf.new
            ≡ slice_range s place (place + length buf.old))) }
        ensures fails { IsErr result ↔ IsToFail self.old.schedule }
        ensures ok { OnOk result (self.new ≡ read self.old) }
        ensures err { OnErr result (self.new ≡ refused self.old) }
    {
        self.begin(0, 0)?;
        let place = place as usize;
        buf.copy_from_slice(&self.platter.shown()[place..place + buf.len()]);
        Ok(())
    }

    /// It fails exactly where it was told to, where the range ends past the room, and where the units are too few.
    fn write_at(&mut self, place: u64, bytes: &[u8]) -> Result<(), Failed>
        requires inside { place ≤ length (shown_of self.old.events) }
        requires fits { place + length bytes.now < 2 ^ 64 }
        ensures fails { IsErr result ↔ IsToFail self.old.schedule
            ⊎ (self.old.room < place + length bytes.now) ⊎ (self.old.units < 1 + length bytes.now) }
        ensures ok { OnOk result (self.new ≡ wrote place bytes.now self.old) }
        ensures err { OnErr result (self.new ≡ refused self.old) }
    {
        self.begin(place + bytes.len() as u64, 1 + bytes.len())?;
        self.platter.write(place as usize, bytes);
        Ok(())
    }

    /// It fails exactly where it was told to, and where no unit is left.
    fn sync(&mut self) -> Result<(), Failed>
        ensures stops { (c : _) → Leaves self.new.events c → Leaves self.old.events c }
        ensures fails { IsErr result ↔ IsToFail self.old.schedule ⊎ (self.old.units < 1) }
        ensures ok { OnOk result (self.new ≡ synced self.old) }
        ensures err { OnErr result (self.new ≡ refused self.old) }
    {
        self.begin(0, 1)?;
        self.platter.sync();
        Ok(())
    }
}
