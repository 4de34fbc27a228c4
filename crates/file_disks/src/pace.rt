//! How many commands stand, told from a count of syncs.
ghost use Rattle.std.specs.Prelude.{◌≡◌, ◌+◌, ◌-◌, ◌*◌, ◌/◌, ◌^◌, min};

/// The syncs by which a batch joins the log (docs/FORMAT.md, "Committing").
const BATCH_SYNCS: u64 = 3;

/// A count of syncs, of which the first ones are no command's.
#[derive(Drop)]
pub struct Pace {
    syncs: u64,
    first: u64,
}

impl Pace {
    /// Before any sync. No command of the input has a part in the one sync at the beginning, or in those of the first `batches`.
    pub fn behind(batches: u8) -> Pace
        ensures syncs { result.syncs ≡ 0 }
        ensures first { result.first ≡ 1 + 3 * batches }
    {
        Pace {
            syncs: 0,
            first: 1 + BATCH_SYNCS * batches as u64,
        }
    }

    /// Counts a sync that begins, and answers how many commands stand once it is done.
    pub(crate) fn sync(&mut self) -> u64
        ensures counted { self.new.syncs ≡ min (self.old.syncs + 1) (2 ^ 64 - 1) }
        ensures same { self.new.first ≡ self.old.first }
        ensures commands { result ≡ (self.new.syncs - self.new.first) / 3 }
    {
        self.syncs = self.syncs.saturating_add(1);
        self.syncs.saturating_sub(self.first) / BATCH_SYNCS
    }
}
