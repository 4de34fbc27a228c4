//! What all commands that only read a store do: the whole input, then the test of a head, then what its key is shown, then that in one
//! piece, in this order.
ghost use Rattle.std.specs.Prelude.{◌≡◌, ◌<◌, ◌≤◌, ℕ, Bool, Err, IfErr, IfOk, IsTrue, List, Result, is_some};
ghost use Rattle.cry_base.specs.declared.client.Bundle.{Bundle};
ghost use Rattle.cry_io.specs.Reading.{IsOnlyRead};
ghost use Rattle.cry_io.specs.Told.{WhereTold};
ghost use Rattle.cli_base.specs.Status.{is_before_print};
ghost use Rattle.cli_base.specs.declared.status.Status.{Status};
ghost use Rattle.cli_reading.specs.Held.{HeldTo, MayGive};
ghost use Rattle.cli_reading.specs.Reading.{GivesText, Reads, TellsText};
ghost use Rattle.cli_reading.specs.Statuses.{is_before_read, is_reading_answer, is_unprinted};

use cli_base::input::{input_status, read_bundle_line};
use cli_base::outside::tell;
use cli_base::reading::reading_status;
use cli_base::status::Status;
use cli_heads::testing::test_head;
use cry_base::{Bundle, Text};
use cry_io::{Disk, Sink, Source};
use head_tree::Head;
use log_visits::ClientFault;
use std::alloc::Global;

/// A command that only reads a store: in what it differs from the others.
pub trait ReadingCommand {
    /// What may be answered to a bundle over the bytes that a disk shows: a text that is printed, or how the program ends.
    ghost gives: { Self → Bundle → List ℕ → Result (List ℕ) Status → Type 0 };

    /// Whether it may be that nothing is shown, though the key may read.
    ghost tells_unseen: { Bool };

    /// What the bundle's key is shown, as it is printed. The disk is never written.
    fn text<D: Disk>(
        &self,
        alloc: Global,
        disk: &mut D,
        bundle: &Bundle,
    ) -> Result<Text, ClientFault>
        ensures gives { WhereTold (D.shown disk.old) (λ image. GivesText result (gives self.now bundle.now image)) }
        ensures unseen { result ≡ Err ClientFault.Unseen → IsTrue tells_unseen }
        ensures reads_only { IsOnlyRead D.Disk disk.old disk.new }
        ensures counts { D.faults disk.old ≤ D.faults disk.new }
        ensures disk_fault { result ≡ Err ClientFault.DiskFault → D.faults disk.old < D.faults disk.new };
}

/// Prints what the key that the input hands in is shown of the store, where its log begins with the batches that the head names, if there
/// is one.
pub fn read_and_print<C: ReadingCommand, S: Source, D: Disk, W: Sink>(
    alloc: Global,
    head: Option<Head>,
    command: &C,
    input: &mut S,
    disk: &mut D,
    out: &mut W,
) -> Status
    ensures reads { Reads (MayGive head (C.gives command.now)) D.Disk result (S.left input.old) (S.left input.new) disk.old disk.new
        (W.written out.old) (W.written out.new) }
    ensures held { result ≡ Status.Done → WhereTold (D.shown disk.old) (HeldTo head) }
    ensures answers { IsTrue (is_reading_answer C.tells_unseen (is_some head) result) }
    ensures read_fault { result ≡ Status.ReadFault → S.faults input.old < S.faults input.new }
    ensures disk_fault { result ≡ Status.DiskFault → D.faults disk.old < D.faults disk.new }
    ensures write_fault { result ≡ Status.WriteFault → W.faults out.old < W.faults out.new }
    ensures disk_unread { IsTrue (is_before_read result) → disk.new ≡ disk.old }
    ensures out_kept { IsTrue (is_before_print result) → out.new ≡ out.old }
    ensures input_told { is_some (S.left input.new) ≡ is_some (S.left input.old) }
    ensures out_told { is_some (W.written out.new) ≡ is_some (W.written out.old) }
    ensures input_counts { S.faults input.old ≤ S.faults input.new }
    ensures disk_counts { D.faults disk.old ≤ D.faults disk.new }
    ensures out_counts { W.faults out.old ≤ W.faults out.new }
{
    let bundle = match read_bundle_line(alloc, input) {
        Ok(bundle) => bundle,
        Err(fault) => return input_status(fault),
    };
    match text_behind(alloc, head, command, disk, &bundle) {
        Ok(text) => tell(text.as_slice(), out),
        Err(status) => status,
    }
}

/// What the bundle's key is shown, as it is printed, behind the test of a head, or how the program ends.
fn text_behind<C: ReadingCommand, D: Disk>(
    alloc: Global,
    head: Option<Head>,
    command: &C,
    disk: &mut D,
    bundle: &Bundle,
) -> Result<Text, Status>
    ensures gives { WhereTold (D.shown disk.old) (λ image. TellsText result (MayGive head (C.gives command.now) bundle.now image)) }
    ensures held { IfOk result (λ _. WhereTold (D.shown disk.old) (HeldTo head)) }
    ensures unprinted { IfErr result (λ status. IsTrue (is_unprinted C.tells_unseen (is_some head) status)) }
    ensures reads_only { IsOnlyRead D.Disk disk.old disk.new }
    ensures counts { D.faults disk.old ≤ D.faults disk.new }
    ensures disk_fault { result ≡ Err Status.DiskFault → D.faults disk.old < D.faults disk.new }
{
    let Some(head) = head else {
        return text_of_store(alloc, command, disk, bundle);
    };
    test_head(alloc, &head, disk)?;
    text_of_store(alloc, command, disk, bundle)
}

/// The same without a head.
fn text_of_store<C: ReadingCommand, D: Disk>(
    alloc: Global,
    command: &C,
    disk: &mut D,
    bundle: &Bundle,
) -> Result<Text, Status>
    ensures gives { WhereTold (D.shown disk.old) (λ image. TellsText result (C.gives command.now bundle.now image)) }
    ensures unprinted { (tells_head : Bool) → IfErr result (λ status. IsTrue (is_unprinted C.tells_unseen tells_head status)) }
    ensures reads_only { IsOnlyRead D.Disk disk.old disk.new }
    ensures counts { D.faults disk.old ≤ D.faults disk.new }
    ensures disk_fault { result ≡ Err Status.DiskFault → D.faults disk.old < D.faults disk.new }
{
    match command.text(alloc, disk, bundle) {
        Ok(text) => Ok(text),
        Err(fault) => Err(reading_status(fault)),
    }
}
