//! Reads the log of a store file, one batch after the other, with the owner's key or without one. The file is never
//! written (docs/FORMAT.md, "Reading").
ghost use Rattle.std.specs.Prelude.{◌≡◌, ◌≢◌, ◌⊎◌, ◌<◌, ◌≤◌, ◌+◌, ◌^◌, [], ◌∷◌, ◌++◌, None, Ok, Err, drop, length, option_copied, IfOk};
ghost use Rattle.std.specs.Prelude.{IfErr, OnOk, OnErr, IsTrue, MatchResult, All};
ghost use Rattle.cry_base.specs.Layout.{header_len, payload_offset};
ghost use Rattle.cry_io.specs.Told.{WhereTold};
ghost use Rattle.commit_journal.specs.Answering.{Answers, IsFault};
ghost use Rattle.commit_journal.specs.Leaves as leaves;
ghost use Rattle.commit_journal.specs.Leaves.{IsLeaf, IsLeafAt, front_of};
ghost use Rattle.commit_journal.specs.Log.{log_verdict};
ghost use Rattle.commit_journal.specs.Logs.{AreInEpochs, holder_log, turn_by};
ghost use Rattle.commit_journal.specs.Opening as opening;
ghost use Rattle.commit_journal.specs.Placed.{PlainPlaced, plain_log, plain_placed};
ghost use Rattle.commit_journal.specs.Places.{IsStanding, TurnStands};
ghost use Rattle.commit_journal.specs.Readers as readers;
ghost use Rattle.cry_io.specs.Reading.{IsOnlyRead};
ghost use Rattle.commit_journal.specs.Streaming as streaming;
ghost use Rattle.commit_journal.specs.Turns.{plain_option, plain_turn};

use crate::given::Given;
use crate::judge::{Turn, judge_again, judge_read};
use crate::layout::{BATCH_LEN, FRONT_LEN, HEADER_LEN, MAGIC, OPEN};
use crate::reading::{array_at, read_gate, read_head};
use crate::{OpenFault, Past, Placed};
use chacha_seal::{Key, LogKey, OwnerK, check_of};
use cry_base::{Epoch, List};
use cry_io::Disk;
use hmac_seal::tags_equal;
use std::alloc::Global;
use std::marker::Model;

#[tactic(auto, unfolding(crate::specs::Readers::has_check))]
fn has_check(owner: Option<&Key<OwnerK>>, check: &[u8; 32]) -> bool
    ensures exact { result ≡ readers.has_check (readers.key_bytes (option_copied owner.entry)) check.now }
    ensures without { option_copied owner.entry ≡ None → IsTrue result }
{
    match owner {
        Some(owner) => tags_equal(check, &check_of(owner.bytes())),
        None => true,
    }
}

/// What is known behind the header.
#[tactic(auto, unfolding(crate::specs::Readers::header_of))]
fn header_of(owner: Option<&Key<OwnerK>>, header: &[u8; HEADER_LEN]) -> Result<Past, OpenFault>
    ensures answer { Answers (λ past. past) result (readers.header_of (readers.key_bytes (option_copied owner.entry)) header.now) }
    ensures place { IfOk result (λ past. past.at ≡ header_len) }
    ensures fresh { IfOk result (λ past. (past.number ≡ 0) × (past.epoch.0 ≡ 0)) }
    ensures no_disk { result ≢ Err OpenFault.DiskFault }
    ensures no_key { option_copied owner.entry ≡ None → result ≢ Err OpenFault.WrongKey }
{
    if header[..9] != MAGIC[..] {
        return Err(OpenFault::NotAStore);
    }
    let check = array_at(header);
    if !has_check(owner, &check) {
        return Err(OpenFault::WrongKey);
    }
    Ok(Past {
        at: HEADER_LEN as u64,
        number: 0,
        epoch: Epoch(0),
        tag: check,
        gate: header[41],
    })
}

fn read_header<D: Disk>(disk: &mut D, owner: Option<&Key<OwnerK>>) -> Result<Past, OpenFault>
    ensures answer { WhereTold (D.shown disk.old)
        (λ s. Answers (λ past. past) result (readers.header_at (readers.key_bytes (option_copied owner.entry)) s)) }
    ensures place { IfOk result (λ past. past.at ≡ header_len) }
    ensures fresh { IfOk result (λ past. (past.number ≡ 0) × (past.epoch.0 ≡ 0)) }
    ensures inside { OnOk result (header_len ≤ D.size_of disk.old) }
    ensures read_only { IsOnlyRead D.Disk disk.old disk.new }
    ensures counts { D.faults disk.old ≤ D.faults disk.new }
    ensures disk_fault { result ≡ Err OpenFault.DiskFault → D.faults disk.old < D.faults disk.new }
    ensures no_key { option_copied owner.entry ≡ None → result ≢ Err OpenFault.WrongKey }
{
    if disk.size() < HEADER_LEN as u64 {
        return Err(OpenFault::NotAStore);
    }
    let mut header = [0; HEADER_LEN];
    disk.read_at(0, &mut header)?;
    header_of(owner, &header)
}

/// What stands behind an open gate, and where that is a batch, its leaf. The memory that it takes is no more than the disk backs.
fn read_turn<D: Disk>(
    alloc: Global,
    disk: &mut D,
    owner: Option<&LogKey>,
    past: &Past,
    leaf: &mut Vec<u8>,
) -> Result<Option<Turn>, OpenFault>
    requires behind { header_len ≤ past.now.at }
    requires small { past.now.at ≤ 2 ^ 32 }
    ensures answer { WhereTold (D.shown disk.old)
        (λ s. Answers plain_option result (turn_by (readers.read_turn (readers.key_bytes (option_copied owner.entry))) past.now
        (drop past.now.at s))) }
    ensures leaf { WhereTold (D.shown disk.old) (λ s. IfOk result (IsLeafAt leaf.new.items s past.now.at)) }
    ensures next { IfOk result (opening.GoesOnTo past.now (D.size_of disk.old)) }
    ensures in_epoch { IfOk result (opening.GoesOnIn past.now) }
    ensures behind { IfOk result opening.EndsBehind }
    ensures stands { IfOk result TurnStands }
    ensures read_only { IsOnlyRead D.Disk disk.old disk.new }
    ensures counts { D.faults disk.old ≤ D.faults disk.new }
    ensures disk_fault { result ≡ Err OpenFault.DiskFault → D.faults disk.old < D.faults disk.new }
    ensures no_key { result ≢ Err OpenFault.WrongKey }
{
    let head = read_head(disk, past)?;
    let mut batch = Vec::from_elem(alloc, 0, BATCH_LEN as usize + head.size as usize)?;
    disk.read_at(past.at, &mut batch)?;
    // Judging takes the veil away in the batch itself.
    *leaf = Vec::from_slice(alloc, &batch[..batch.len() - 1])?;
    judge_read(alloc, owner, past, &head, &mut batch)
}

/// A batch that was read before.
fn read_again<D: Disk>(
    alloc: Global,
    disk: &mut D,
    owner: Option<&LogKey>,
    past: &Past,
) -> Result<Turn, OpenFault>
    requires behind { header_len ≤ past.now.at }
    requires small { past.now.at ≤ 2 ^ 32 }
    ensures answer { WhereTold (D.shown disk.old)
        (λ s. Answers plain_turn result (streaming.again_at (readers.key_bytes (option_copied owner.entry)) past.now s)) }
    ensures next { IfOk result (opening.IsNextTurn past.now (D.size_of disk.old)) }
    ensures stands { IfOk result (λ turn. IsStanding turn.placed) }
    ensures read_only { IsOnlyRead D.Disk disk.old disk.new }
    ensures counts { D.faults disk.old ≤ D.faults disk.new }
    ensures disk_fault { result ≡ Err OpenFault.DiskFault → D.faults disk.old < D.faults disk.new }
    ensures no_key { result ≢ Err OpenFault.WrongKey }
{
    let head = read_head(disk, past)?;
    let mut batch = Vec::from_elem(alloc, 0, BATCH_LEN as usize + head.size as usize)?;
    disk.read_at(past.at, &mut batch)?;
    judge_again(alloc, owner, past, &head, &mut batch)
}

/// The bytes before the first gate, with this check of an owner's key.
#[tactic(auto, unfolding(crate::specs::Leaves::front_with))]
fn front_with(check: &[u8; 32]) -> [u8; FRONT_LEN]
    ensures { result ≡ leaves.front_with check.now }
{
    let mut front = [0; FRONT_LEN];
    front[..MAGIC.len()].copy_from_slice(&MAGIC);
    front[MAGIC.len()..].copy_from_slice(check);
    front
}

fn log_key_of(owner: Option<&Key<OwnerK>>) -> Option<LogKey>
    ensures { readers.key_bytes result ≡ readers.key_bytes (option_copied owner.entry) }
{
    match owner {
        Some(key) => Some(LogKey::of(key)),
        None => None,
    }
}

/// The log of a store, read one batch after the other: by its owner, who has the key, or by anybody. Of the batches that it gave it
/// keeps the last one's bytes.
#[derive(Drop)]
pub struct PublicLog {
    owner: Option<LogKey>,
    front: [u8; FRONT_LEN],
    past: Past,
    leaf: Vec<u8>,
    given: Given,
}

impl Model for PublicLog {
    ghost use Rattle.commit_journal.specs.Readers.{key_bytes};
    ghost use Rattle.commit_journal.specs.Streaming.{LogState, IsReading};

    ghost Value = { LogState };

    ghost view = { λ log. record {
      owner = key_bytes log.owner;
      front = log.front;
      given = log.given.batches;
      starts = log.given.starts;
      past = log.past;
      leaf = log.leaf.items;
    } };

    ghost invariant = { λ log. IsReading log.given.batches log.given.starts log.past };
}

impl PublicLog {
    /// Begins to read a log: tests its header, and the owner check where a key is given. The disk is never written.
    ///
    /// `NotAStore` comes where the header isn't one, and `WrongKey` where its owner check isn't that of the key.
    pub fn begin<D: Disk>(
        alloc: Global,
        disk: &mut D,
        owner: Option<&Key<OwnerK>>,
    ) -> Result<PublicLog, OpenFault>
        ensures verdict { WhereTold (D.shown disk.old)
            (λ s. Answers (λ log. log.past) result (readers.header_at (readers.key_bytes (option_copied owner.entry)) s)) }
        ensures log { WhereTold (D.shown disk.old) (λ s. IfOk result (λ log. streaming.log_in log s
            ≡ readers.read_log (readers.key_bytes (option_copied owner.entry)) s)) }
        ensures failed { WhereTold (D.shown disk.old)
            (λ s. IfErr result (λ fault. IsFault fault (readers.read_log (readers.key_bytes (option_copied owner.entry)) s))) }
        ensures fresh { IfOk result (λ log. (log.owner ≡ readers.key_bytes (option_copied owner.entry)) × (log.given ≡ [])
            × (log.starts ≡ [])) }
        ensures start { IfOk result (λ log. streaming.IsAt header_len 0 0 log.past) }
        ensures front { WhereTold (D.shown disk.old) (λ s. IfOk result (λ log. log.front ≡ front_of s)) }
        ensures inside { IfOk result (λ log. log.past.at ≤ D.size_of disk.old) }
        ensures no_key { option_copied owner.entry ≡ None → result ≢ Err OpenFault.WrongKey }
        ensures read_only { IsOnlyRead D.Disk disk.old disk.new }
        ensures counts { D.faults disk.old ≤ D.faults disk.new }
        ensures disk_fault { result ≡ Err OpenFault.DiskFault → D.faults disk.old < D.faults disk.new }
    {
        let past = read_header(disk, owner)?;
        Ok(PublicLog::behind_header(alloc, log_key_of(owner), past))
    }

    fn behind_header(alloc: Global, owner: Option<LogKey>, past: Past) -> PublicLog
        requires { (past.at ≡ header_len) × (past.number ≡ 0) × (past.epoch.0 ≡ 0) }
        ensures { result ≡ record {
          owner = readers.key_bytes owner;
          front = leaves.front_with past.tag;
          given = [];
          starts = [];
          past = past;
          leaf = [];
        } }
    {
        PublicLog {
            owner,
            front: front_with(&past.tag),
            past,
            leaf: Vec::new(alloc),
            given: Given::new(),
        }
    }

    /// The file's bytes before its first gate: its name, its version and the check of the owner's key.
    pub fn front(&self) -> [u8; FRONT_LEN]
        ensures { result ≡ self.now.front }
    {
        self.front
    }

    /// The leaf of the batch that `next` gave last: the batch's bytes without the gate behind it (docs/FORMAT.md, "Heads").
    pub fn leaf(&self) -> &[u8]
        requires gave { self.now.given ≢ [] }
        ensures { result.now ≡ self.now.leaf }
    {
        self.leaf.as_slice()
    }

    fn key(&self) -> Option<&LogKey>
        ensures owner { readers.key_bytes (option_copied result) ≡ self.now.owner }
        ensures reading { streaming.IsReading self.now.given self.now.starts self.now.past }
    {
        self.owner.as_ref()
    }

    /// What is known before the next batch. With it that batch is read once more, by [`PublicLog::again`].
    pub fn past(&self) -> Past
        ensures past { result ≡ self.now.past }
        ensures number { result.number ≡ length self.now.starts }
        ensures reading { streaming.IsReading self.now.given self.now.starts self.now.past }
    {
        self.past
    }

    /// What stands behind the batches that were given, and where that is a batch, its leaf.
    fn look<D: Disk>(
        &self,
        alloc: Global,
        disk: &mut D,
        leaf: &mut Vec<u8>,
    ) -> Result<Option<Turn>, OpenFault>
        ensures answer { WhereTold (D.shown disk.old) (λ s. Answers plain_option result (streaming.next_in self.now s)) }
        ensures leaf { WhereTold (D.shown disk.old) (λ s. IfOk result (IsLeafAt leaf.new.items s self.now.past.at)) }
        ensures next { IfOk result (opening.GoesOnTo self.now.past (D.size_of disk.old)) }
        ensures in_epoch { IfOk result (opening.GoesOnIn self.now.past) }
        ensures behind { IfOk result opening.EndsBehind }
        ensures stands { IfOk result TurnStands }
        ensures reading { streaming.IsReading self.now.given self.now.starts self.now.past }
        ensures no_key { result ≢ Err OpenFault.WrongKey }
        ensures read_only { IsOnlyRead D.Disk disk.old disk.new }
        ensures counts { D.faults disk.old ≤ D.faults disk.new }
        ensures disk_fault { result ≡ Err OpenFault.DiskFault → D.faults disk.old < D.faults disk.new }
    {
        if self.past.gate != OPEN {
            return Ok(None);
        }
        read_turn(alloc, disk, self.key(), &self.past, leaf)
    }

    fn go_on(&mut self, placed: &Placed, past: Past, leaf: Vec<u8>)
        requires { streaming.IsReading (self.old.given ++ plain_placed placed.now ∷ []) (self.old.starts ++ self.old.past ∷ []) past }
        ensures { self.new ≡ record {
          owner = self.old.owner;
          front = self.old.front;
          given = self.old.given ++ plain_placed placed.now ∷ [];
          starts = self.old.starts ++ self.old.past ∷ [];
          past = past;
          leaf = leaf.items;
        } }
    {
        self.given = self.given.adding(placed, &self.past);
        self.past = past;
        self.leaf = leaf;
    }

    /// Reads the next batch, with the tests of docs/FORMAT.md, "Reading", in their order. `None` comes exactly where the log
    /// ends for a reader: at a closed gate, or at an unpublished batch before one. The disk is never written, and after a
    /// fault this log is unchanged.
    ///
    /// `Damaged` comes behind an open gate where no batch stands, with the place of its first byte, and for a payload that
    /// has no form, with the place of its first bad field. `Tampered` comes for a wrong owner tag where the owner reads, with
    /// its place, and for an unpublished batch before an open gate, with the place of its slot.
    pub fn next<D: Disk>(
        &mut self,
        alloc: Global,
        disk: &mut D,
    ) -> Result<Option<Placed>, OpenFault>
        ensures verdict { WhereTold (D.shown disk.old)
            (λ s. Answers (streaming.given_turn self.new.past) result (streaming.next_in self.old s)) }
        ensures gives { IfOk result (λ next. streaming.Gives (D.size_of disk.old) self.old next self.new) }
        ensures leaf { WhereTold (D.shown disk.old) (λ s. IfOk result (IsLeaf self.new.leaf s)) }
        ensures unchanged { OnErr result (self.new ≡ self.old) }
        ensures log { WhereTold (D.shown disk.old) (λ s. streaming.log_in self.new s ≡ streaming.log_in self.old s) }
        ensures ended { result ≡ Ok None → WhereTold (D.shown disk.old) (λ s. streaming.log_in self.old s ≡ Ok self.old.given) }
        ensures failed { WhereTold (D.shown disk.old) (λ s. IfErr result (λ fault. IsFault fault (streaming.log_in self.old s))) }
        ensures shows { WhereTold (D.shown disk.old) (λ s. streaming.ShowsGiven self.old s → streaming.ShowsGiven self.new s) }
        ensures epochs { AreInEpochs 0 self.new.given }
        ensures no_key { result ≢ Err OpenFault.WrongKey }
        ensures read_only { IsOnlyRead D.Disk disk.old disk.new }
        ensures counts { D.faults disk.old ≤ D.faults disk.new }
        ensures disk_fault { result ≡ Err OpenFault.DiskFault → D.faults disk.old < D.faults disk.new }
    {
        let mut leaf = Vec::new(alloc);
        let Some(turn) = self.look(alloc, disk, &mut leaf)? else {
            return Ok(None);
        };
        let Turn { placed, past } = turn;
        self.go_on(&placed, past, leaf);
        Ok(Some(placed))
    }

    fn set_gate(&mut self, gate: u8)
        ensures { self.new ≡ record self.old { past = record self.old.past { gate = gate } } }
    {
        self.past.gate = gate;
    }

    /// Reads the gate behind the batches that were given once more: whoever writes may have opened it since. The disk is never written, and
    /// after a fault this log is unchanged. Behind it `next` goes by the gate that the file shows now.
    pub fn reread_gate<D: Disk>(&mut self, disk: &mut D) -> Result<(), OpenFault>
        ensures gate { OnOk result (WhereTold (D.shown disk.old) (λ s. self.new ≡ streaming.regated self.old s)) }
        ensures rest { self.new ≡ record self.old { past = record self.old.past { gate = self.new.past.gate } } }
        ensures unchanged { OnErr result (self.new ≡ self.old) }
        ensures failed { IfErr result (λ fault. fault ≡ OpenFault.DiskFault) }
        ensures read_only { IsOnlyRead D.Disk disk.old disk.new }
        ensures counts { D.faults disk.old ≤ D.faults disk.new }
        ensures disk_fault { result ≡ Err OpenFault.DiskFault → D.faults disk.old < D.faults disk.new }
    {
        let gate = read_gate(disk, &self.past)?;
        self.set_gate(gate);
        Ok(())
    }

    /// Forgets the last batch's bytes, and gives back what they took.
    pub fn forget_leaf(&mut self, alloc: Global)
        ensures { self.new ≡ record self.old { leaf = [] } }
    {
        self.leaf = Vec::new(alloc);
    }

    /// Reads a batch once more that `next` gave, by what [`PublicLog::past`] was before it, and makes its tests again, whatever the
    /// gates before and behind it are. The disk is never written. Where it shows the batch as it was given, the faults are
    /// `DiskFault` and `OutOfMemory` alone.
    ///
    /// `Damaged` and `Tampered` come as in `next`, but a batch that isn't published is always `Tampered`, with the place of
    /// its slot.
    pub fn again<D: Disk>(
        &self,
        alloc: Global,
        disk: &mut D,
        start: &Past,
    ) -> Result<Placed, OpenFault>
        requires given { streaming.IsStart self.now start.now }
        ensures verdict { WhereTold (D.shown disk.old)
            (λ s. Answers plain_placed result (streaming.again_in self.now (start.now.number + 1) s)) }
        ensures same { WhereTold (D.shown disk.old) (λ s. (p : PlainPlaced) → streaming.again_in self.now (start.now.number + 1) s ≡ Ok p →
            MatchResult result (λ placed. plain_placed placed ≡ p) (λ fault. (fault ≡ OpenFault.DiskFault)
            ⊎ (fault ≡ OpenFault.OutOfMemory))) }
        ensures batch { IfOk result (λ placed. placed.batch ≡ start.now.number + 1) }
        ensures place { IfOk result (λ placed. placed.place ≡ start.now.at + payload_offset) }
        ensures stands { IfOk result IsStanding }
        ensures read_only { IsOnlyRead D.Disk disk.old disk.new }
        ensures counts { D.faults disk.old ≤ D.faults disk.new }
        ensures disk_fault { result ≡ Err OpenFault.DiskFault → D.faults disk.old < D.faults disk.new }
    {
        let turn = read_again(alloc, disk, self.key(), start)?;
        Ok(turn.placed)
    }
}

fn read_log<D: Disk>(
    alloc: Global,
    disk: &mut D,
    owner: Option<&Key<OwnerK>>,
) -> Result<List<Placed>, OpenFault>
    ensures verdict { WhereTold (D.shown disk.old)
        (λ s. Answers plain_log result (readers.read_log (readers.key_bytes (option_copied owner.entry)) s)) }
    ensures stands { IfOk result (λ log. All IsStanding log.items) }
    ensures epochs { IfOk result (λ log. AreInEpochs 0 (plain_log log)) }
    ensures no_key { option_copied owner.entry ≡ None → result ≢ Err OpenFault.WrongKey }
    ensures read_only { IsOnlyRead D.Disk disk.old disk.new }
    ensures counts { D.faults disk.old ≤ D.faults disk.new }
    ensures disk_fault { result ≡ Err OpenFault.DiskFault → D.faults disk.old < D.faults disk.new }
{
    let mut log = PublicLog::begin(alloc, disk, owner)?;
    let mut batches = List::new(alloc);
    while let Some(placed) = log.next(alloc, disk)? {
        batches.push(placed)?;
    }
    Ok(batches)
}

/// The batches of the log, in order, as the owner's key reads them: each is published and has the owner tag that
/// follows from the batches before it (docs/FORMAT.md, "Reading"). The disk is never written.
///
/// `NotAStore` and `WrongKey` come of the header. `Damaged` comes behind an open gate where no batch stands, with the
/// place of its first byte, and for a payload that has no form, with the place of its first bad field. `Tampered`
/// comes for a wrong owner tag, with its place, and for an unpublished batch before an open gate, with the place of
/// its slot. The first of these ends the call; an unpublished batch before a closed gate ends the log.
pub fn read_owner<D: Disk>(
    alloc: Global,
    disk: &mut D,
    owner: &Key<OwnerK>,
) -> Result<List<Placed>, OpenFault>
    ensures verdict { WhereTold (D.shown disk.old)
        (λ s. Answers plain_log result (log_verdict owner.now.bytes s)) }
    ensures stands { IfOk result (λ log. All IsStanding log.items) }
    ensures epochs { IfOk result (λ log. AreInEpochs 0 (plain_log log)) }
    ensures read_only { IsOnlyRead D.Disk disk.old disk.new }
    ensures counts { D.faults disk.old ≤ D.faults disk.new }
    ensures disk_fault { result ≡ Err OpenFault.DiskFault → D.faults disk.old < D.faults disk.new }
{
    read_log(alloc, disk, Some(owner))
}

/// The published batches of the log, in order, as anybody reads them: no key is tested, and no owner tag
/// (docs/FORMAT.md, "Reading"). The disk is never written.
///
/// `NotAStore` comes of the header, and `WrongKey` never comes. `Damaged` comes behind an open gate where no batch stands,
/// with the place of its first byte, and for a payload that has no form, with the place of its first bad field. `Tampered`
/// comes for an unpublished batch before an open gate, with the place of its slot. The first of these ends the call; an
/// unpublished batch before a closed gate ends the log.
pub fn read_public<D: Disk>(alloc: Global, disk: &mut D) -> Result<List<Placed>, OpenFault>
    ensures verdict { WhereTold (D.shown disk.old) (λ s. Answers plain_log result (holder_log s)) }
    ensures never_wrong_key { result ≢ Err OpenFault.WrongKey }
    ensures stands { IfOk result (λ log. All IsStanding log.items) }
    ensures epochs { IfOk result (λ log. AreInEpochs 0 (plain_log log)) }
    ensures read_only { IsOnlyRead D.Disk disk.old disk.new }
    ensures counts { D.faults disk.old ≤ D.faults disk.new }
    ensures disk_fault { result ≡ Err OpenFault.DiskFault → D.faults disk.old < D.faults disk.new }
{
    read_log(alloc, disk, None)
}
