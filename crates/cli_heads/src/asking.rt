//! The commands that ask for a log's head, or for a proof between two: the log is read without a key, and then the answer is printed
//! in one piece.
ghost use Rattle.std.specs.Prelude.{◌≡◌, ◌<◌, ◌≤◌, IfOk, IfErr, IsTrue, is_some};
ghost use Rattle.std.specs.List.{flat_map};
ghost use Rattle.cry_io.specs.Reading.{IsOnlyRead};
ghost use Rattle.cry_io.specs.Told.{WhereTold};
ghost use Rattle.cli_base.specs.Answering.{AnswersAs, IsExactly};
ghost use Rattle.cli_base.specs.Status.{is_before_print};
ghost use Rattle.cli_heads.specs.Asked.Asked.{TheHead, TheProof};
ghost use Rattle.cli_heads.specs.Asking.{answer_of, told_of, IsToldOf, IsUntold};
ghost use Rattle.cli_heads.specs.Statuses.{is_log_answer};
ghost use Rattle.head_tree.specs.Climbing.{Hashes};
ghost use Rattle.log_heads.specs.Proving.{IsPublished};
ghost use Rattle.script_text.specs.Printing.{head_line, node_line};

use crate::statuses::log_status;
use cli_base::outside::tell;
use cli_base::status::Status;
use cry_base::{List, Mem, Text};
use cry_io::{Disk, Sink};
use head_tree::Head;
use log_heads::{Heads, PublishedProof};
use script_text::{print_head, print_node};
use std::alloc::Global;

/// Prints the head over the published batches of the log that the disk holds. The disk is never written.
pub fn ask_head<D: Disk, W: Sink>(alloc: Global, disk: &mut D, out: &mut W) -> Status
    ensures answers { IsTrue (is_log_answer TheHead result) }
    ensures answered { WhereTold (D.shown disk.old) (λ image. AnswersAs result (IsExactly (answer_of TheHead image))
        (W.written out.old) (W.written out.new)) }
    ensures read_only { IsOnlyRead D.Disk disk.old disk.new }
    ensures disk_fault { result ≡ Status.DiskFault → D.faults disk.old < D.faults disk.new }
    ensures write_fault { result ≡ Status.WriteFault → W.faults out.old < W.faults out.new }
    ensures out_kept { IsTrue (is_before_print result) → out.new ≡ out.old }
    ensures out_told { is_some (W.written out.new) ≡ is_some (W.written out.old) }
    ensures disk_counts { D.faults disk.old ≤ D.faults disk.new }
    ensures out_counts { W.faults out.old ≤ W.faults out.new }
{
    let heads = match Heads::read(alloc, 0, disk) {
        Ok(heads) => heads,
        Err(fault) => return log_status(fault),
    };
    match head_text(alloc, &heads.all) {
        Ok(text) => tell(text.as_slice(), out),
        Err(_) => Status::OutOfMemory,
    }
}

/// Prints the proof that this log begins with its first `batches` batches. The disk is never written.
pub fn ask_proof<D: Disk, W: Sink>(alloc: Global, batches: u32, disk: &mut D, out: &mut W) -> Status
    ensures answers { IsTrue (is_log_answer (TheProof batches) result) }
    ensures answered { WhereTold (D.shown disk.old) (λ image. AnswersAs result (IsExactly (answer_of (TheProof batches) image))
        (W.written out.old) (W.written out.new)) }
    ensures read_only { IsOnlyRead D.Disk disk.old disk.new }
    ensures disk_fault { result ≡ Status.DiskFault → D.faults disk.old < D.faults disk.new }
    ensures write_fault { result ≡ Status.WriteFault → W.faults out.old < W.faults out.new }
    ensures out_kept { IsTrue (is_before_print result) → out.new ≡ out.old }
    ensures out_told { is_some (W.written out.new) ≡ is_some (W.written out.old) }
    ensures disk_counts { D.faults disk.old ≤ D.faults disk.new }
    ensures out_counts { W.faults out.old ≤ W.faults out.new }
{
    let published = match PublishedProof::read(alloc, batches, disk) {
        Ok(published) => published,
        Err(fault) => return log_status(fault),
    };
    match proof_text(alloc, batches, &published) {
        Ok(text) => tell(text.as_slice(), out),
        Err(status) => status,
    }
}

/// The line of a head.
fn head_text(alloc: Global, head: &Head) -> Mem<Text>
    ensures { IfOk result (λ text. text.items ≡ head_line head.now.batches head.now.root) }
{
    let mut text = List::new(alloc);
    print_head(head.batches, &head.root, &mut text)?;
    Ok(text)
}

/// A line for each hash of the proof, or how the program ends.
fn proof_text(alloc: Global, batches: u32, published: &PublishedProof) -> Result<Text, Status>
    ensures told { (hashes : Hashes) → IsPublished published.now batches hashes → IsToldOf result (told_of (TheProof batches) hashes) }
    ensures untold { IfErr result (λ status. IsUntold published.now.batches batches status) }
{
    let Some(proof) = &published.proof else {
        return Err(Status::Behind {
            have: published.batches,
            want: batches,
        });
    };
    let Ok(text) = lines_of(alloc, proof.as_slice()) else {
        return Err(Status::OutOfMemory);
    };
    Ok(text)
}

/// The lines of hashes, one after another.
fn lines_of(alloc: Global, hashes: &[[u8; 32]]) -> Mem<Text>
    ensures { IfOk result (λ text. text.items ≡ flat_map node_line hashes.now) }
{
    let mut text = List::new(alloc);
    for hash in hashes {
        print_node(hash, &mut text)?;
    }
    Ok(text)
}
