//! Reads the header of a store file, and the head of a batch. The file is never written.
ghost use Rattle.std.specs.Prelude.{◌≡◌, ◌≢◌, ◌<◌, ◌≤◌, ◌+◌, ◌^◌, Err, drop, slice_index, slice_range, IfErr, IfOk, OnOk};
ghost use Rattle.cry_base.specs.Layout.{batch_len, first_gate_offset, header_len, magic_len};
ghost use Rattle.cry_base.specs.Limits.{most_store_bytes};
ghost use Rattle.cry_io.specs.Told.{WhereTold};
ghost use Rattle.commit_journal.specs.Answering.{Answers};
ghost use Rattle.commit_journal.specs.Log as log;
ghost use Rattle.commit_journal.specs.Opening as opening;
ghost use Rattle.commit_journal.specs.Streaming.{gate_before};
ghost use Rattle.cry_io.specs.Reading.{IsOnlyRead};

use crate::OpenFault;
use crate::head::{Head, head_of, is_batch};
use crate::layout::{BATCH_LEN, CLOSED, HEAD_LEN, HEADER_LEN, MAGIC};
use crate::past::Past;
use chacha_seal::{LogKey, check_of};
use cry_base::Epoch;
use cry_io::Disk;
use hmac_seal::tags_equal;

pub(crate) fn array_at(bytes: &[u8; HEADER_LEN]) -> [u8; 32]
    ensures { result ≡ slice_range bytes.now magic_len first_gate_offset }
{
    let mut array = [0; 32];
    array.copy_from_slice(&bytes[9..41]);
    array
}

/// What is known behind the header.
#[tactic(auto, unfolding(crate::specs::Log::start_of))]
fn start_of(owner: &LogKey, header: &[u8; HEADER_LEN]) -> Result<Past, OpenFault>
    ensures answer { Answers (λ past. past) result (log.start_of owner.now.bytes header.now) }
    ensures place { IfOk result (λ past. past.at ≡ header_len) }
    ensures fresh { IfOk result (λ past. (past.number ≡ 0) × (past.epoch.0 ≡ 0)) }
    ensures gate { IfOk result (λ past. past.gate ≡ slice_index header.now first_gate_offset) }
    ensures no_disk { result ≢ Err OpenFault.DiskFault }
{
    if header[..9] != MAGIC[..] {
        return Err(OpenFault::NotAStore);
    }
    let check = array_at(header);
    if !tags_equal(&check, &check_of(owner.bytes())) {
        return Err(OpenFault::WrongKey);
    }
    Ok(Past {
        at: HEADER_LEN as u64,
        number: 0,
        epoch: Epoch(0),
        tag: check,
        gate: header[41],
    })
}

pub(crate) fn read_start<D: Disk>(disk: &mut D, owner: &LogKey) -> Result<Past, OpenFault>
    ensures answer { WhereTold (D.shown disk.old) (λ s. Answers (λ past. past) result (log.start_at owner.now.bytes s)) }
    ensures place { IfOk result (λ past. past.at ≡ header_len) }
    ensures fresh { IfOk result (λ past. (past.number ≡ 0) × (past.epoch.0 ≡ 0)) }
    ensures inside { OnOk result (header_len ≤ D.size_of disk.old) }
    ensures gate { IfOk result (λ past. WhereTold (D.shown disk.old) (λ s. slice_index s first_gate_offset ≡ past.gate)) }
    ensures read_only { IsOnlyRead D.Disk disk.old disk.new }
    ensures counts { D.faults disk.old ≤ D.faults disk.new }
    ensures disk_fault { result ≡ Err OpenFault.DiskFault → D.faults disk.old < D.faults disk.new }
{
    if disk.size() < HEADER_LEN as u64 {
        return Err(OpenFault::NotAStore);
    }
    let mut header = [0; HEADER_LEN];
    disk.read_at(0, &mut header)?;
    start_of(owner, &header)
}

/// The head of the batch that stands behind an open gate.
pub(crate) fn read_head<D: Disk>(disk: &mut D, past: &Past) -> Result<Head, OpenFault>
    requires small { past.now.at ≤ 2 ^ 32 }
    ensures answer { WhereTold (D.shown disk.old) (λ s. Answers (λ head. head) result (log.head_at past.now (drop past.now.at s))) }
    ensures inside { IfOk result (λ head. past.now.at + (batch_len + head.size) ≤ D.size_of disk.old) }
    ensures small { IfOk result (λ head. past.now.at + (batch_len + head.size) ≤ most_store_bytes) }
    ensures next { IfOk result (opening.IsNext past.now) }
    ensures read_only { IsOnlyRead D.Disk disk.old disk.new }
    ensures counts { D.faults disk.old ≤ D.faults disk.new }
    ensures disk_fault { result ≡ Err OpenFault.DiskFault → D.faults disk.old < D.faults disk.new }
    ensures no_key { result ≢ Err OpenFault.WrongKey }
{
    let size = disk.size();
    if size < past.at + BATCH_LEN {
        return Err(OpenFault::Damaged { at: past.at });
    }
    let mut bytes = [0; HEAD_LEN];
    disk.read_at(past.at, &mut bytes)?;
    let head = head_of(&bytes);
    if !is_batch(past, &head, size - past.at) {
        return Err(OpenFault::Damaged { at: past.at });
    }
    Ok(head)
}

/// The gate before the next batch, as the disk shows it now. Where the disk ends before it, it is closed.
pub(crate) fn read_gate<D: Disk>(disk: &mut D, past: &Past) -> Result<u8, OpenFault>
    requires behind { header_len ≤ past.now.at }
    ensures gate { WhereTold (D.shown disk.old) (λ s. IfOk result (λ gate. gate ≡ gate_before s past.now.at)) }
    ensures read_only { IsOnlyRead D.Disk disk.old disk.new }
    ensures counts { D.faults disk.old ≤ D.faults disk.new }
    ensures disk_fault { result ≡ Err OpenFault.DiskFault → D.faults disk.old < D.faults disk.new }
    ensures failed { IfErr result (λ fault. fault ≡ OpenFault.DiskFault) }
{
    if disk.size() < past.at {
        return Ok(CLOSED);
    }
    let mut gate = [CLOSED];
    disk.read_at(past.at - 1, &mut gate)?;
    Ok(gate[0])
}
