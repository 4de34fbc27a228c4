//! How many batches a log has.
ghost use Rattle.std.specs.Prelude.{◌≡◌, ◌+◌, List, length, IfOk};
ghost use Rattle.commit_journal.specs.Placed.{PlainPlaced};
ghost use Rattle.commit_journal.specs.Places.{IsStanding};
ghost use Rattle.commit_journal.specs.declared.past.Past.{Past as ThePast};
ghost use Rattle.holder_client.specs.Keeping.{ComesNext, ReadsOn, StartsOn};

use commit_journal::{Past, Placed};
use cry_base::Mem;
use holder_client::Keeps;
use std::alloc::Global;

/// The number of batches that were added.
#[derive(Drop)]
pub(crate) struct BatchCount {
    pub(crate) batches: u32,
}

impl Keeps for BatchCount {
    ghost has_read = { λ count log. count.batches ≡ length log };

    ghost has_starts = { λ _ _. Unit {0} };

    fn new(_alloc: Global) -> Mem<BatchCount> {
        Ok(BatchCount { batches: 0 })
    }

    fn add(self, _alloc: Global, placed: &Placed, _start: &Past) -> Mem<BatchCount> {
        let _before = self.batches;
        Ok(BatchCount {
            batches: placed.batch,
        })
    }
}
