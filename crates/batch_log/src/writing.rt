//! A write that stays.
ghost use Rattle.std.specs.Prelude.{◌≡◌, ◌+◌, ◌<◌, ◌≤◌, ◌^◌, [], ◌∷◌, length, max, is_some, IsErr, OnErr, OnOk};
ghost use Rattle.cry_io.specs.Counts.{CountsFault};
ghost use Rattle.cry_io.specs.Told.{WhereTold, WhereBothTold};
ghost use Rattle.cry_io.specs.Stops.{IsDurable, Torn, Written};
ghost use Rattle.batch_log.specs.Handing.{Hands};
ghost use Rattle.batch_log.specs.Moments.{GoesOn, Throughout, TornInto};

use cry_io::{Disk, Failed};

/// Writes bytes at a place, and makes what is shown stay. After a fault any bytes may be shown in that range.
pub fn write_and_sync<D: Disk>(disk: &mut D, place: u64, bytes: &[u8]) -> Result<(), Failed>
    requires inside { place ≤ D.size_of disk.old }
    requires fits { place + length bytes.now < 2 ^ 64 }
    ensures told { is_some (D.shown disk.new) ≡ is_some (D.shown disk.old) }
    ensures written { OnOk result (WhereBothTold (D.shown disk.old) (D.shown disk.new) (Written place bytes.now)) }
    ensures torn { OnErr result (WhereBothTold (D.shown disk.old) (D.shown disk.new) (Torn place (length bytes.now))) }
    ensures durable { OnOk result (IsDurable (D.may_leave disk.new) (D.shown disk.new)) }
    ensures size { OnOk result (D.size_of disk.new ≡ max (D.size_of disk.old) (place + length bytes.now)) }
    ensures no_shorter { D.size_of disk.old ≤ D.size_of disk.new }
    ensures no_longer { D.size_of disk.new ≤ max (D.size_of disk.old) (place + length bytes.now) }
    ensures later { D.moment disk.old ≤ D.moment disk.new }
    ensures time { GoesOn (D.moment disk.old) (D.since disk.old) (D.since disk.new) }
    ensures stops { IsDurable (D.may_leave disk.old) (D.shown disk.old) → WhereTold (D.shown disk.old)
        (λ x. Throughout (TornInto place (length bytes.now) x) (D.since disk.new (D.moment disk.old))) }
    ensures hands { Hands (record { place = place; bytes = bytes.now } ∷ []) (IsErr result) (D.shown disk.old) (D.shown disk.new)
        (D.since disk.new (D.moment disk.old)) }
    ensures counts { CountsFault result (D.faults disk.old) (D.faults disk.new) }
{
    disk.write_at(place, bytes)?;
    disk.sync()
}

/// Writes the header of a log onto an empty disk, and makes it stay.
///
/// `Failed` comes only where the disk's faults rose in this call; the disk is then to be thrown away.
pub fn write_header<D: Disk>(disk: &mut D, header: &[u8]) -> Result<(), Failed>
    requires blank { D.size_of disk.old ≡ 0 }
    ensures told { is_some (D.shown disk.new) ≡ is_some (D.shown disk.old) }
    ensures written { OnOk result (WhereBothTold (D.shown disk.old) (D.shown disk.new) (Written 0 header.now)) }
    ensures durable { OnOk result (IsDurable (D.may_leave disk.new) (D.shown disk.new)) }
    ensures size { OnOk result (D.size_of disk.new ≡ length header.now) }
    ensures later { D.moment disk.old ≤ D.moment disk.new }
    ensures time { GoesOn (D.moment disk.old) (D.since disk.old) (D.since disk.new) }
    ensures hands { Hands (record { place = 0; bytes = header.now } ∷ []) (IsErr result) (D.shown disk.old) (D.shown disk.new)
        (D.since disk.new (D.moment disk.old)) }
    ensures counts { CountsFault result (D.faults disk.old) (D.faults disk.new) }
{
    write_and_sync(disk, 0, header)
}
