//! How the program ends, and what it says then on standard error.
ghost use Rattle.std.specs.Prelude.{◌≡◌, ◌++◌, string_bytes, IfOk, OnOk, OnErr};
ghost use Rattle.cli_base.specs.Status.{code_of, line_of};

use cry_base::{Mem, Text};
use std::alloc::Global;

/// How a call of the program ended. Each but `Done` has one line on standard error.
#[derive(Clone, Copy, Debug, PartialEq, Eq)]
pub enum Status {
    /// All was done, and the input was read to its end where it is read.
    Done,
    /// The words are of no form that is built.
    Usage,
    /// This line of the input, counted from 1, is of no form that may stand there, or a second line follows a bundle.
    BadScript { line: u64 },
    /// Standard input failed.
    ReadFault,
    /// Standard output failed.
    WriteFault,
    /// The store's file failed.
    DiskFault,
    /// The source of random bytes failed.
    RandomFault,
    /// The source of random bytes ended after `left` bytes of the `need` that the command draws.
    RandomShort { left: u32, need: u32 },
    /// The store's file is no store: it has fewer than 42 bytes, or doesn't begin with `CRYPTREE` and a known version.
    NotAStore,
    /// What stands at this byte of the store's file, counted from 0, has no form that may stand there.
    Damaged { at: u64 },
    /// The key isn't that of the store's owner.
    WrongKey,
    /// What stands at this byte of the store's file, in the batch of this number, wasn't written with the key that it
    /// asks for.
    Tampered { batch: u32, at: u64 },
    /// There was no memory.
    OutOfMemory,
    /// The store's file isn't empty.
    NotBlank,
    /// No holder has this number: `known` were made so far.
    NoHolder { known: u32 },
    /// Nothing that the key shows has this path.
    Unseen,
    /// The store is of version 1, which is read and no longer written: `upgrade` makes it one of version 2.
    NeedsUpgrade,
    /// The store is of version 2 already.
    AlreadyNew,
    /// The log has fewer batches than a head names: `have` of the `want`.
    Behind { have: u32, want: u32 },
    /// The log doesn't begin with the batches that a head over `batches` of them names.
    Forked { batches: u32 },
    /// A proof doesn't lead from one head to the other.
    BadProof,
}

impl Status {
    /// The exit status, 0 to 21.
    pub fn code(&self) -> u8
        ensures { result ≡ code_of self.now }
    {
        match self {
            Status::Done => 0,
            Status::Usage => 2,
            Status::BadScript { .. } => 3,
            Status::ReadFault => 4,
            Status::WriteFault => 5,
            Status::DiskFault => 6,
            Status::RandomFault => 7,
            Status::RandomShort { .. } => 8,
            Status::NotAStore => 9,
            Status::Damaged { .. } => 10,
            Status::WrongKey => 11,
            Status::Tampered { .. } => 12,
            Status::OutOfMemory => 13,
            Status::NotBlank => 14,
            Status::NoHolder { .. } => 15,
            Status::Unseen => 16,
            Status::NeedsUpgrade => 17,
            Status::AlreadyNew => 18,
            Status::Behind { .. } => 19,
            Status::Forked { .. } => 20,
            Status::BadProof => 21,
        }
    }
}

/// Appends the line that standard error is told, ended by a newline, and nothing for `Done`. At `Err` the
/// text is as it was.
pub fn fault_line(alloc: Global, status: &Status, out: &mut Text) -> Mem<()>
    ensures line { OnOk result (out.new.items ≡ out.old.items ++ line_of status.now) }
    ensures err { OnErr result (out.new.items ≡ out.old.items) }
{
    match status {
        Status::Done => Ok(()),
        Status::Usage => out.append(b"cryptree: usage\n"),
        Status::BadScript { line } => out.append(bad_script_line(alloc, *line)?.as_bytes()),
        Status::ReadFault => out.append(b"cryptree: read fault\n"),
        Status::WriteFault => out.append(b"cryptree: write fault\n"),
        Status::DiskFault => out.append(b"cryptree: disk fault\n"),
        Status::RandomFault => out.append(b"cryptree: random fault\n"),
        Status::RandomShort { left, need } => {
            out.append(random_short_line(alloc, *left, *need)?.as_bytes())
        }
        Status::NotAStore => out.append(b"cryptree: not a store\n"),
        Status::Damaged { at } => out.append(damaged_line(alloc, *at)?.as_bytes()),
        Status::WrongKey => out.append(b"cryptree: wrong key\n"),
        Status::Tampered { batch, at } => {
            out.append(tampered_line(alloc, *batch, *at)?.as_bytes())
        }
        Status::OutOfMemory => out.append(b"cryptree: out of memory\n"),
        Status::NotBlank => out.append(b"cryptree: not blank\n"),
        Status::NoHolder { known } => out.append(no_holder_line(alloc, *known)?.as_bytes()),
        Status::Unseen => out.append(b"cryptree: unseen\n"),
        Status::NeedsUpgrade => out.append(b"cryptree: needs upgrade\n"),
        Status::AlreadyNew => out.append(b"cryptree: already version 2\n"),
        Status::Behind { have, want } => out.append(behind_line(alloc, *have, *want)?.as_bytes()),
        Status::Forked { batches } => out.append(forked_line(alloc, *batches)?.as_bytes()),
        Status::BadProof => out.append(b"cryptree: bad proof\n"),
    }
}

fn random_short_line(alloc: Global, left: u32, need: u32) -> Mem<String>
    ensures { IfOk result (λ line. string_bytes line ≡ line_of (Status.RandomShort left need)) }
{
    Ok(format!(in alloc; "cryptree: random {left} of {need}\n")?)
}

fn behind_line(alloc: Global, have: u32, want: u32) -> Mem<String>
    ensures { IfOk result (λ line. string_bytes line ≡ line_of (Status.Behind have want)) }
{
    Ok(format!(in alloc; "cryptree: behind, {have} of {want}\n")?)
}

fn forked_line(alloc: Global, batches: u32) -> Mem<String>
    ensures { IfOk result (λ line. string_bytes line ≡ line_of (Status.Forked batches)) }
{
    Ok(format!(in alloc; "cryptree: forked at {batches}\n")?)
}

fn bad_script_line(alloc: Global, line: u64) -> Mem<String>
    ensures { IfOk result (λ text. string_bytes text ≡ line_of (Status.BadScript line)) }
{
    Ok(format!(in alloc; "cryptree: bad script line {line}\n")?)
}

fn damaged_line(alloc: Global, at: u64) -> Mem<String>
    ensures { IfOk result (λ text. string_bytes text ≡ line_of (Status.Damaged at)) }
{
    Ok(format!(in alloc; "cryptree: damaged at {at}\n")?)
}

fn no_holder_line(alloc: Global, known: u32) -> Mem<String>
    ensures { IfOk result (λ text. string_bytes text ≡ line_of (Status.NoHolder known)) }
{
    Ok(format!(in alloc; "cryptree: no holder, {known} known\n")?)
}

fn tampered_line(alloc: Global, batch: u32, at: u64) -> Mem<String>
    ensures { IfOk result (λ text. string_bytes text ≡ line_of (Status.Tampered batch at)) }
{
    Ok(format!(in alloc; "cryptree: tampered batch {batch} at {at}\n")?)
}
