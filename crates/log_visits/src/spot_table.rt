//! Where the last record of each head stands in a log that is in memory, found by the number of its folder or file.
ghost use Rattle.std.specs.Prelude.{◌≡◌, ◌<◌, ◌^◌, ℕ, IfOk, IsOk, None, OnOk, slice_get, Option, Some, IsTrue, cond};
ghost use Rattle.log_visits.specs.SpotRows as spec;

use crate::number_hasher::ByNumber;
use cry_base::{Mem, OutOfMemory};
use public_fold::PublicState;
use std::alloc::Global;
use std::collections::HashMap;
use std::hash::Hash;

/// Where a record stands: the position of its batch in the log, and how many of its kind stand before it in the batch.
#[derive(Clone, Copy)]
pub(crate) struct RecordSpot {
    pub(crate) position: u32,
    pub(crate) index: u32,
}

impl RecordSpot {
    /// The spot, in half of what two counts take. A log of 2^32 batches, or a batch of as many records, fits into no memory.
    pub(crate) fn of(position: usize, index: usize) -> Mem<RecordSpot>
        ensures position { IfOk result (λ spot. spot.position ≡ position) }
        ensures index { IfOk result (λ spot. spot.index ≡ index) }
        ensures fits { position < 2 ^ 32 → index < 2 ^ 32 → IsOk result }
    {
        match (u32::try_from(position), u32::try_from(index)) {
            (Ok(position), Ok(index)) => Ok(RecordSpot { position, index }),
            _ => Err(OutOfMemory),
        }
    }
}

/// How many rows a table has, and where among them those of files begin. No answer hangs on it.
#[derive(Clone, Copy)]
pub(crate) struct Rows {
    pub(crate) files_from: usize,
    pub(crate) count: usize,
}

impl Rows {
    /// So many rows for each folder that stands, and one for each file. Numbers begin at 1, and where some were removed they go on past
    /// these rows.
    pub(crate) fn of(state: &PublicState, of_folder: usize) -> Rows {
        let folders = state.shape().folder_count().saturating_add(1);
        let files = state.shape().file_count().saturating_add(1);
        let files_from = folders.saturating_mul(of_folder);
        Rows {
            files_from,
            count: files_from.saturating_add(files),
        }
    }
}

/// What a record is looked for by, where it has a row of its own in a table.
pub(crate) trait Numbered: Eq + Hash {
    ghost row_of: { Self → ℕ → ℕ };

    /// Its row, where those of files begin at `files_from`. Several may have one row; few should.
    fn row(&self, files_from: usize) -> usize
        ensures { result ≡ row_of self.now files_from };

    // A row is that of one head, since those that are equal are the same.
    ghost is_same: { (a b : Self) → IsTrue (Self.eq a b) → a ≡ b };
}

/// The spots of some heads, by rows. Records are looked up nearly in the order of their folders' and files' numbers, so that a look-up
/// reads one place, near to that of the one before. A head stands in a map where its row has another head or isn't there.
#[derive(Drop)]
pub(crate) struct SpotTable<H: Numbered> {
    files_from: usize,
    rows: Vec<Option<(H, RecordSpot)>>,
    others: HashMap<H, RecordSpot, ByNumber>,
}

impl<H: Numbered + Copy> SpotTable<H> {
    /// A table without spots, with rows for so many folders and files.
    pub(crate) fn new(alloc: Global, rows: Rows) -> Mem<Self>
        ensures { IfOk result (λ table. (q : H) → spec.spot_of H.eq H.row_of table q ≡ None) }
    {
        Ok(SpotTable {
            files_from: rows.files_from,
            rows: vec![in alloc; None; rows.count]?,
            others: HashMap::with_hasher(alloc, ByNumber::new()),
        })
    }

    /// Notes the spot of a head, in the place of an earlier one.
    pub(crate) fn insert(&mut self, head: H, spot: RecordSpot) -> Mem<()>
        ensures { OnOk result ((q : H) → spec.spot_of H.eq H.row_of self.new q
            ≡ cond (H.eq head q) (Some spot) (spec.spot_of H.eq H.row_of self.old q)) }
    {
        let row = head.row(self.files_from);
        if self.has_row(row, &head) {
            self.rows[row] = Some((head, spot));
        } else {
            self.others.insert(head, spot)?;
        }
        Ok(())
    }

    /// The spot of a head.
    pub(crate) fn get(&self, head: &H) -> Option<RecordSpot>
        ensures { result ≡ spec.spot_of H.eq H.row_of self.now head.now }
    {
        match self.rows.get(head.row(self.files_from)) {
            Some(Some((held, spot))) if *held == *head => Some(*spot),
            _ => self.others.get(head).copied(),
        }
    }

    // Whether the row is there, and no other head has it.
    fn has_row(&self, row: usize, head: &H) -> bool
        ensures { result ≡ spec.is_free H.eq head.now (slice_get self.now.rows.items row) }
    {
        match self.rows.get(row) {
            Some(Some((held, _))) => *held == *head,
            Some(None) => true,
            None => false,
        }
    }
}
