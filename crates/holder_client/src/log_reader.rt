//! Reads a log batch by batch (docs/FORMAT.md, "Reading").
ghost use Rattle.std.specs.Prelude.{◌≡◌, ◌≢◌, ◌+◌, ◌-◌, ◌≤◌, ◌++◌, [], ◌∷◌, Err, IfOk, List, Ok, OnOk, length};
ghost use Rattle.commit_journal.specs.Placed.{PlainPlaced, plain_placed};
ghost use Rattle.commit_journal.specs.Places.{IsStanding};
ghost use Rattle.commit_journal.specs.declared.past.Past.{Past as ThePast};
ghost use Rattle.log_visits.specs.Answering.{AnswersAsBy};
ghost use Rattle.log_visits.specs.Folding.{folded};
ghost use Rattle.log_visits.specs.Holding.{IsReadingIn};
ghost use Rattle.log_visits.specs.Indexed.{HaveStarts, IsIndexOf, IsTidy, StartsAt};
ghost use Rattle.log_visits.specs.Judging as spec;
ghost use Rattle.holder_client.specs.Keeping.{ComesNext, ReadsOn, StartsOn};
ghost use Rattle.holder_client.specs.Reads.{HasChecks, HasFolded, HasRead, HasStarts, KeepsLittle};
ghost use Rattle.public_fold.specs.Journal.{Stand, nothing};
ghost use Rattle.public_fold.specs.Standing.{IsSeenAs};
ghost use Rattle.role_graph.specs.PublicStore.{GrantsStand};

use crate::Keeps;
use crate::admission::{Checks, may_read, note_check};
use commit_journal::{Past, Placed};
use cry_base::{Bundle, Mem, OutOfMemory};
use log_visits::{ClientFault, Index, take_batch};
use public_fold::PublicState;
use std::alloc::Global;
use std::collections::HashMap;

/// What a reading needs of a log, whose batches are added one after another: what stands in public after them, the last link
/// of each edge, where the last content of each head stands and how its batch is read once more, and the holders' checks. It
/// holds no payload, and of edges and objects that don't stand any more no more than about as much as of those that do. After a payload
/// that doesn't fit it keeps the place of that alone.
#[derive(Drop)]
pub struct Reader {
    pub(crate) index: Index,
    pub(crate) state: PublicState,
    pub(crate) checks: Checks,
    /// The place of the first payload that doesn't fit what stands before it.
    pub(crate) misfit: Option<u64>,
}

impl Keeps for Reader {
    ghost has_read = { HasRead };

    ghost has_starts = { HasStarts };

    /// A reader to which no batch was added.
    fn new(alloc: Global) -> Mem<Reader> {
        let state = PublicState::new(alloc)?;
        Ok(Reader {
            index: Index::new(alloc),
            state,
            checks: HashMap::new(alloc),
            misfit: None,
        })
    }

    /// What the reader keeps then is at most some twice of what stands has, or of what stands alone.
    fn add(self, alloc: Global, placed: &Placed, start: &Past) -> Mem<Reader>
        requires stands { IsStanding placed.now }
        requires next { ComesNext HasRead self placed.now }
        ensures read { IfOk result (ReadsOn HasRead self placed.now) }
        ensures starts { IfOk result (StartsOn HasStarts self placed.now start.now) }
        ensures tidy { IfOk result KeepsLittle }
    {
        let mut reader = self;
        reader.take(alloc, placed, start)?;
        Ok(reader)
    }
}

impl Reader {
    /// Takes the next batch. At `Err` half of it may have been taken.
    fn take(&mut self, alloc: Global, placed: &Placed, start: &Past) -> Mem<()>
        requires stands { IsStanding placed.now }
        requires next { ComesNext HasRead self.old placed.now }
        ensures read { OnOk result (ReadsOn HasRead self.old placed.now self.new) }
        ensures starts { OnOk result (StartsOn HasStarts self.old placed.now start.now self.new) }
        ensures tidy { OnOk result (KeepsLittle self.new) }
    {
        let _number = placed.batch;
        if self.misfit.is_some() {
            return Ok(());
        }
        match take_batch(alloc, &mut self.state, placed) {
            Ok(()) => self.keep(placed, start),
            Err(ClientFault::Damaged { at }) => {
                self.misfit = Some(at);
                Ok(())
            }
            Err(_) => Err(OutOfMemory),
        }
    }

    /// Keeps what a reading needs of a batch that fits, once the state has taken it.
    fn keep(&mut self, placed: &Placed, start: &Past) -> Mem<()>
        requires stands { IsStanding placed.now }
        requires from_one { 1 ≤ placed.now.batch }
        ensures kept { OnOk result ((log : List PlainPlaced) (at : Stand) → placed.now.batch ≡ length log + 1 → IsIndexOf self.old.index log
            → HasChecks self.old.checks log → folded nothing (log ++ plain_placed placed.now ∷ []) ≡ Ok at → IsSeenAs self.old.state at →
            IsIndexOf self.new.index (log ++ plain_placed placed.now ∷ [])
            × HasChecks self.new.checks (log ++ plain_placed placed.now ∷ [])) }
        ensures starts { OnOk result ((starts : List ThePast) → HaveStarts self.old.index.contents starts
            → StartsAt starts (placed.now.batch - 1) start.now → HaveStarts self.new.index.contents starts) }
        ensures state { self.new.state ≡ self.old.state }
        ensures misfit { self.new.misfit ≡ self.old.misfit }
        ensures tidy { OnOk result (IsTidy self.new.index self.new.state) }
    {
        note_check(&mut self.checks, placed)?;
        self.index.note(placed.batch as usize - 1, *start, placed)?;
        self.tidy();
        Ok(())
    }

    /// Forgets what doesn't stand any more, where that is much of what it keeps.
    fn tidy(&mut self)
        ensures index { (log : List PlainPlaced) (at : Stand) → IsIndexOf self.old.index log → folded nothing log ≡ Ok at
            → IsSeenAs self.old.state at → IsIndexOf self.new.index log }
        ensures starts { (starts : List ThePast) → HaveStarts self.old.index.contents starts
            → HaveStarts self.new.index.contents starts }
        ensures state { self.new.state ≡ self.old.state }
        ensures checks { self.new.checks ≡ self.old.checks }
        ensures misfit { self.new.misfit ≡ self.old.misfit }
        ensures tidy { IsTidy self.new.index self.new.state }
    {
        if self.index.is_crowded(&self.state) {
            self.index.forget(&self.state);
        }
    }

    /// What stands in public after the batches that were added, where all of them fit.
    pub fn state(&self) -> &PublicState
        ensures { result.now ≡ self.now.state }
    {
        &self.state
    }

    /// Whether the bundle's key may read the batches that were added.
    ///
    /// `Damaged` comes first, at the first byte of the first payload that doesn't fit what stands before it. Then, for a holder, come
    /// `NoHolder` exactly where no batch made the holder, with the number of those that were made, and `WrongKey` exactly where the
    /// key's check isn't the one that was published for the holder. The owner's key was tested with the header.
    pub fn admit(&self, bundle: &Bundle) -> Result<(), ClientFault>
        ensures answer { (log : List PlainPlaced) → HasRead self.now log →
            AnswersAsBy (λ _ r. IsReadingIn self.now.state log r × GrantsStand r.stand.store) result (spec.read_with bundle.now (Ok log)) }
        ensures folded { OnOk result ((log : List PlainPlaced) → HasRead self.now log → HasFolded self.now log) }
        ensures seen { result ≢ Err ClientFault.Unseen }
        ensures no_disk { result ≢ Err ClientFault.DiskFault }
    {
        if let Some(at) = self.misfit {
            return Err(ClientFault::Damaged { at });
        }
        may_read(bundle, &self.checks, &self.state)
    }
}
