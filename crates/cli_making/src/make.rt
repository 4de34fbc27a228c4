//! The command `make`: the disk's size, all memory, one draw, the store, the owner's line, in this order.
ghost use Rattle.std.specs.Prelude.{◌≡◌, ◌≢◌, ◌<◌, ◌≤◌, ◌⊎◌, ◌↔◌, ℕ, [], is_some, IfOk, IsTrue};
ghost use Rattle.commit_journal.specs.Holding.{GoesOn};
ghost use Rattle.cry_io.specs.Stops.{IsDurable};
ghost use Rattle.cry_io.specs.Told.{WhereTold, WhereBothTold};
ghost use Rattle.key_links.specs.Fresh.{fresh_store_len};
ghost use Rattle.script_text.specs.Printing.{owner_line};
ghost use Rattle.store_owner.specs.Making.{HandsFresh};
ghost use Rattle.cli_making.specs.Making.{EndsShort, IsShort, Makes};
ghost use Rattle.cli_base.specs.Outside.{PrintsAll, PrintsFront};
ghost use Rattle.cli_base.specs.Status.{is_make_answer, is_before_draw, is_before_write, is_before_print};

use cli_base::outside::print;
use cli_base::status::Status;
use cli_sessions::ends::apply_status;
use cli_sessions::version::LIMITS;
use cry_base::{List, Mem, Text};
use cry_io::{Disk, Sink, Source};
use script_text::{OWNER_LINE_LEN, print_owner};
use std::alloc::Global;
use store_owner::Owner;

/// Makes a store on an empty disk with the next 192 random bytes, and prints its owner's line. `NotBlank` tells that the disk has bytes;
/// `RandomShort` has how many random bytes there were of the 192. `RandomFault`, `DiskFault` and `WriteFault` tell what failed, and
/// `OutOfMemory` that memory was wanting. At `WriteFault` the store stands, and a front of the line was printed.
pub fn make<R: Source, D: Disk, W: Sink>(
    alloc: Global,
    random: &mut R,
    disk: &mut D,
    out: &mut W,
) -> Status
    ensures answers { IsTrue (is_make_answer result) }
    ensures not_blank { (result ≡ Status.NotBlank) ↔ (D.size_of disk.old ≢ 0) }
    ensures short { (left need : ℕ) → result ≡ Status.RandomShort left need →
        IsShort left need (R.left random.old) (R.left random.new) }
    ensures short_only { D.size_of disk.old ≡ 0 → WhereTold (R.left random.old) (EndsShort result) }
    ensures random_fault { result ≡ Status.RandomFault → R.faults random.old < R.faults random.new }
    ensures disk_fault { result ≡ Status.DiskFault → D.faults disk.old < D.faults disk.new }
    ensures write_fault { result ≡ Status.WriteFault → W.faults out.old < W.faults out.new }

    ensures made { result ≡ Status.Done → Makes PrintsAll (R.left random.old) (R.left random.new) (D.shown disk.old) (D.shown disk.new)
        (D.may_leave disk.new) (D.since disk.new (D.moment disk.old)) (W.written out.old) (W.written out.new) }
    ensures cut_short { result ≡ Status.WriteFault → Makes PrintsFront (R.left random.old) (R.left random.new) (D.shown disk.old)
        (D.shown disk.new) (D.may_leave disk.new) (D.since disk.new (D.moment disk.old)) (W.written out.old) (W.written out.new) }
    ensures stays { (result ≡ Status.Done) ⊎ (result ≡ Status.WriteFault) →
        IsDurable (D.may_leave disk.new) (D.shown disk.new) × (D.size_of disk.new ≡ fresh_store_len) }
    ensures hands_some { result ≡ Status.DiskFault → HandsFresh ⊥ (R.left random.old) (R.left random.new)
        (D.shown disk.old) (D.shown disk.new) (D.since disk.new (D.moment disk.old)) }

    ensures later { D.moment disk.old ≤ D.moment disk.new }
    ensures time { GoesOn (D.moment disk.old) (D.since disk.old) (D.since disk.new) }
    ensures random_kept { IsTrue (is_before_draw result) → random.new ≡ random.old }
    ensures disk_kept { IsTrue (is_before_write result) → disk.new ≡ disk.old }
    ensures out_kept { IsTrue (is_before_print result) → out.new ≡ out.old }
    ensures random_told { is_some (R.left random.new) ≡ is_some (R.left random.old) }
    ensures disk_told { is_some (D.shown disk.new) ≡ is_some (D.shown disk.old) }
    ensures out_told { is_some (W.written out.new) ≡ is_some (W.written out.old) }
    ensures random_counts { R.faults random.old ≤ R.faults random.new }
    ensures disk_counts { D.faults disk.old ≤ D.faults disk.new }
    ensures out_counts { W.faults out.old ≤ W.faults out.new }
{
    if disk.size() != 0 {
        return Status::NotBlank;
    }
    let Ok(line) = line_room(alloc) else {
        return Status::OutOfMemory;
    };
    match Owner::make(alloc, disk, random, LIMITS) {
        Ok(owner) => tell(owner.key(), line, out),
        Err(fault) => apply_status(fault),
    }
}

/// Room for the owner's line, taken before the store is made: one that stands is told without more memory.
fn line_room(alloc: Global) -> Mem<Text>
    ensures empty { IfOk result (λ line. line.items ≡ []) }
    ensures room { IfOk result (λ line. 71 ≤ line.spare) }
{
    let mut line = List::new(alloc);
    line.reserve(OWNER_LINE_LEN)?;
    Ok(line)
}

/// Prints the owner's line. It takes no memory.
fn tell<W: Sink>(key: &[u8; 32], mut line: Text, out: &mut W) -> Status
    requires empty { line.items ≡ [] }
    requires room { 71 ≤ line.spare }
    ensures answers { (result ≡ Status.Done) ⊎ (result ≡ Status.WriteFault) }
    ensures printed { result ≡ Status.Done → WhereBothTold (W.written out.old) (W.written out.new) (PrintsAll (owner_line key.now)) }
    ensures cut_short { result ≡ Status.WriteFault
        → WhereBothTold (W.written out.old) (W.written out.new) (PrintsFront (owner_line key.now)) }
    ensures write_fault { result ≡ Status.WriteFault → W.faults out.old < W.faults out.new }
    ensures told { is_some (W.written out.new) ≡ is_some (W.written out.old) }
    ensures counts { W.faults out.old ≤ W.faults out.new }
{
    let Ok(()) = print_owner(key, &mut line) else {
        unreachable!();
    };
    let Ok(()) = print(out, line.as_slice()) else {
        return Status::WriteFault;
    };
    Status::Done
}
