//! The command `gen`: a store is made as `make` makes it, a generated script is applied to it in one session by the loop of `run`, and then
//! its owner's line and its figures are printed in one piece.
ghost use Rattle.std.specs.Prelude.{◌≡◌, ◌≢◌, ◌<◌, ◌≤◌, ◌⊎◌, ◌↔◌, ◌++◌, ℕ, [], List, Err, IfErr, OnOk, false, is_some, IsTrue};
ghost use Rattle.batch_log.specs.Moments.{FromThenOn};
ghost use Rattle.commit_journal.specs.Holding.{GoesOn};
ghost use Rattle.cry_io.specs.Stops.{IsDurable};
ghost use Rattle.public_fold.specs.Journal.{Journal};
ghost use Rattle.journal_bytes.specs.Script.{opened};
ghost use Rattle.script_text.specs.Printing.{owner_line};
ghost use Rattle.store_gen.specs.Rule.{script_of};
ghost use Rattle.store_owner.specs.Sessions.{StandsAt};
ghost use Rattle.store_owner.specs.Tallied.{tally_in};
ghost use Rattle.cli_making.specs.Figures.{spell_figures};
ghost use Rattle.cli_making.specs.Generating.{Announces, Applies, Begins, EndsDry, Fills, Generates, IsScript, IsUnmade, Tells, unheard};
ghost use Rattle.cli_sessions.specs.Sessions.{IsStop, RanDry, version_limits};
ghost use Rattle.cli_sessions.specs.Published.{LinesPublish};
ghost use Rattle.cli_base.specs.Status.{is_make_answer, is_before_print};
ghost use Rattle.cli_sessions.specs.Stopping.{LinesKeepUpTo};

use crate::figures::outcome;
use crate::script_source::ScriptSource;
use crate::silent::Silent;
use cli_base::lines::LineReader;
use cli_base::outside::tell;
use cli_base::status::Status;
use cli_sessions::ends::{apply_status, script_status};
use cli_sessions::script::run_lines;
use cli_sessions::version::LIMITS;
use cry_io::{Disk, Sink, Source};
use std::alloc::Global;
use store_owner::Owner;
use store_owner::tally_laws::tallies_are_those_of_journals;

/// Makes a store on an empty disk, applies the script of `seed` with `count` lines behind its opening, at most 50,000, and prints the
/// owner's line and the session's figures. It ends as `make` does, and `RandomShort` may tell of a command's draw too.
pub fn generate_store<R: Source, D: Disk, W: Sink>(
    alloc: Global,
    seed: u64,
    count: u32,
    random: &mut R,
    disk: &mut D,
    out: &mut W,
) -> Status
    requires { count ≤ 50000 }
    ensures answers { IsTrue (is_make_answer result) }
    ensures not_blank { (result ≡ Status.NotBlank) ↔ (D.size_of disk.old ≢ 0) }
    ensures blank_kept { result ≡ Status.NotBlank → (random.new ≡ random.old) × (disk.new ≡ disk.old) }
    ensures generates { D.size_of disk.old ≡ 0 → IsUnmade R.left D.Disk result random.old random.new disk.old disk.new
        ⊎ Generates D.Disk result seed count (R.left random.old) (R.left random.new) disk.old disk.new (W.written out.old)
        (W.written out.new) }
    ensures later { D.moment disk.old ≤ D.moment disk.new }
    ensures time { GoesOn (D.moment disk.old) (D.since disk.old) (D.since disk.new) }
    ensures calm { result ≢ Status.DiskFault → (disk.new ≡ disk.old) ⊎ IsDurable (D.may_leave disk.new) (D.shown disk.new) }
    ensures short { (left need : ℕ) → result ≡ Status.RandomShort left need → EndsDry left need (R.left random.old) (R.left random.new) }
    ensures random_fault { result ≡ Status.RandomFault → R.faults random.old < R.faults random.new }
    ensures disk_fault { result ≡ Status.DiskFault → D.faults disk.old < D.faults disk.new }
    ensures write_fault { result ≡ Status.WriteFault → W.faults out.old < W.faults out.new }
    ensures out_kept { IsTrue (is_before_print result) → out.new ≡ out.old }
    ensures random_told { is_some (R.left random.new) ≡ is_some (R.left random.old) }
    ensures disk_told { is_some (D.shown disk.new) ≡ is_some (D.shown disk.old) }
    ensures out_told { is_some (W.written out.new) ≡ is_some (W.written out.old) }
    ensures random_counts { R.faults random.old ≤ R.faults random.new }
    ensures disk_counts { D.faults disk.old ≤ D.faults disk.new }
    ensures out_counts { W.faults out.old ≤ W.faults out.new }
{
    if disk.size() != 0 {
        return Status::NotBlank;
    }
    let Ok(script) = ScriptSource::generate(alloc, seed, count) else {
        return Status::OutOfMemory;
    };
    match Owner::make(alloc, disk, random, LIMITS) {
        Ok(owner) => {
            tallies_are_those_of_journals();
            fill(alloc, script, owner, random, disk, out)
        }
        Err(fault) => apply_status(fault),
    }
}

/// Applies a script as the owner of a fresh store, and prints what came of it.
fn fill<R: Source, D: Disk, W: Sink>(
    alloc: Global,
    script: ScriptSource,
    mut owner: Owner,
    random: &mut R,
    disk: &mut D,
    out: &mut W,
) -> Status
    requires is_script { IsScript script }
    requires open { owner.journal.is_closed ≡ false }
    requires inside { owner.journal.end ≤ D.size_of disk.old }
    requires durable { IsDurable (D.may_leave disk.old) (D.shown disk.old) }
    ensures answers { IsTrue (is_make_answer result) }
    ensures blank { result ≢ Status.NotBlank }
    ensures fills { (seed count : ℕ) (key : List ℕ) (m : Journal) → count ≤ 50000 → script ≡ script_of seed count
        → Begins key m owner (D.shown disk.old) → Fills result seed count key m
        (unheard (R.left random.old) (R.left random.new) (D.shown disk.new)) (D.may_leave disk.new)
        (LinesKeepUpTo key m (D.shown disk.old) (D.shown disk.new) (D.since disk.new (D.moment disk.old)))
        (W.written out.old) (W.written out.new) }
    ensures published { (key : List ℕ) (m : Journal) → StandsAt version_limits key (opened m []) owner (D.shown disk.old)
        → LinesPublish key m (D.since disk.new (D.moment disk.old)) (FromThenOn D.moment D.since disk.old disk.new) }
    ensures announced { Announces result owner.key (W.written out.old) (W.written out.new) }
    ensures later { D.moment disk.old ≤ D.moment disk.new }
    ensures time { GoesOn (D.moment disk.old) (D.since disk.old) (D.since disk.new) }
    ensures calm { result ≢ Status.DiskFault → IsDurable (D.may_leave disk.new) (D.shown disk.new) }
    ensures short { (left need : ℕ) → result ≡ Status.RandomShort left need → RanDry left need (R.left random.old) (R.left random.new) }
    ensures random_fault { result ≡ Status.RandomFault → R.faults random.old < R.faults random.new }
    ensures disk_fault { result ≡ Status.DiskFault → D.faults disk.old < D.faults disk.new }
    ensures write_fault { result ≡ Status.WriteFault → W.faults out.old < W.faults out.new }
    ensures out_kept { IsTrue (is_before_print result) → out.new ≡ out.old }
    ensures random_told { is_some (R.left random.new) ≡ is_some (R.left random.old) }
    ensures disk_told { is_some (D.shown disk.new) ≡ is_some (D.shown disk.old) }
    ensures out_told { is_some (W.written out.new) ≡ is_some (W.written out.old) }
    ensures random_counts { R.faults random.old ≤ R.faults random.new }
    ensures disk_counts { D.faults disk.old ≤ D.faults disk.new }
    ensures out_counts { W.faults out.old ≤ W.faults out.new }
{
    match apply_script(alloc, script, &mut owner, random, disk) {
        Ok(()) => tell_outcome(alloc, &owner, out),
        Err(status) => status,
    }
}

/// Applies the lines of a script, one after another, and tells none of the replies. At `Err` it has how the program ends.
fn apply_script<R: Source, D: Disk>(
    alloc: Global,
    mut script: ScriptSource,
    owner: &mut Owner,
    random: &mut R,
    disk: &mut D,
) -> Result<(), Status>
    requires is_script { IsScript script }
    requires open { owner.old.journal.is_closed ≡ false }
    requires inside { owner.old.journal.end ≤ D.size_of disk.old }
    requires durable { IsDurable (D.may_leave disk.old) (D.shown disk.old) }
    ensures stops { IfErr result IsStop }
    ensures applies { (seed count : ℕ) (key : List ℕ) (m : Journal) → count ≤ 50000 → script ≡ script_of seed count
        → Begins key m owner.old (D.shown disk.old) → Applies result seed count key m owner.new
        (unheard (R.left random.old) (R.left random.new) (D.shown disk.new)) (D.may_leave disk.new)
        (LinesKeepUpTo key m (D.shown disk.old) (D.shown disk.new) (D.since disk.new (D.moment disk.old))) }
    ensures published { (key : List ℕ) (m : Journal) → StandsAt version_limits key (opened m []) owner.old (D.shown disk.old)
        → LinesPublish key m (D.since disk.new (D.moment disk.old)) (FromThenOn D.moment D.since disk.old disk.new) }
    ensures same_key { OnOk result (owner.new.key ≡ owner.old.key) }
    ensures later { D.moment disk.old ≤ D.moment disk.new }
    ensures time { GoesOn (D.moment disk.old) (D.since disk.old) (D.since disk.new) }
    ensures calm { result ≢ Err Status.DiskFault → IsDurable (D.may_leave disk.new) (D.shown disk.new) }
    ensures short { (left need : ℕ) → result ≡ Err (Status.RandomShort left need)
        → RanDry left need (R.left random.old) (R.left random.new) }
    ensures random_fault { result ≡ Err Status.RandomFault → R.faults random.old < R.faults random.new }
    ensures disk_fault { result ≡ Err Status.DiskFault → D.faults disk.old < D.faults disk.new }
    ensures random_told { is_some (R.left random.new) ≡ is_some (R.left random.old) }
    ensures disk_told { is_some (D.shown disk.new) ≡ is_some (D.shown disk.old) }
    ensures random_counts { R.faults random.old ≤ R.faults random.new }
    ensures disk_counts { D.faults disk.old ≤ D.faults disk.new }
{
    tallies_are_those_of_journals();
    let mut reader = LineReader::new(alloc);
    match run_lines(
        alloc,
        &mut reader,
        &mut script,
        owner,
        random,
        disk,
        &mut Silent,
    ) {
        Ok(()) => Ok(()),
        Err(fault) => Err(script_status(fault)),
    }
}

/// Prints the owner's line and the figures, as the last thing that the program does.
fn tell_outcome<W: Sink>(alloc: Global, owner: &Owner, out: &mut W) -> Status
    ensures tells { Tells result (owner_line owner.now.key ++ spell_figures (tally_in owner.now)) (W.written out.old) (W.written out.new) }
    ensures kept { result ≡ Status.OutOfMemory → out.new ≡ out.old }
    ensures write_fault { result ≡ Status.WriteFault → W.faults out.old < W.faults out.new }
    ensures told { is_some (W.written out.new) ≡ is_some (W.written out.old) }
    ensures counts { W.faults out.old ≤ W.faults out.new }
{
    let Ok(text) = outcome(alloc, owner.key(), &owner.tally()) else {
        return Status::OutOfMemory;
    };
    tell(text.as_slice(), out)
}
