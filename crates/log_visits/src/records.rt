//! Finds the records that visits open.
ghost use Rattle.std.specs.Prelude.{◌≡◌, ◌≢◌, ◌<◌, ◌≤◌, ℕ, Err, IfOk, IfSome, List, Ok};
ghost use Rattle.commit_journal.specs.Placed.{PlainPlaced};
ghost use Rattle.commit_journal.specs.Places.{IsStanding};
ghost use Rattle.log_visits.specs.Folding.{folded};
ghost use Rattle.log_visits.specs.Found.{Finds, FindsAt, HasObject, IsContentFor, IsLinkFor, newest_for, plain_link};
ghost use Rattle.log_visits.specs.Placing as spec;
ghost use Rattle.public_fold.specs.Journal.{Stand, nothing};
ghost use Rattle.role_graph.specs.Edges.{IsEdge};

use crate::ClientFault;
use crate::last_contents::ContentSpot;
use crate::last_links::FoundLink;
use commit_journal::{Body, Placed};
use cry_base::Edge;
use public_fold::PublicState;
use record_format::ContentRecord;
use std::alloc::Global;

/// A content, and where it stands.
#[derive(Drop)]
pub struct FoundContent {
    /// The number of its batch.
    pub batch: u32,
    /// The place of its first byte in the file.
    pub at: u64,
    pub content: ContentRecord,
}

/// What finds the last records of a log, with the contents' bytes from a source.
pub trait Records<S> {
    /// The batches of the log.
    ghost log: { Self → List PlainPlaced };

    /// Whether the source shows them.
    ghost shows: { Self → S → Type 0 };

    /// Whether the source was only read since.
    ghost stays: { S → S → Type 0 };

    /// How often the source failed.
    ghost faults: { S → ℕ };

    /// The last link that was published for an edge that stands behind the batches, where it is one from the present key of its source
    /// to that of its target. With what stands after them it is the last such link: no other one follows it.
    fn link_for(&self, state: &PublicState, edge: &Edge) -> Option<FoundLink>
        ensures found { (at : Stand) → folded nothing (log self.now) ≡ Ok at → IsEdge at.store edge.now
            → plain_link result ≡ newest_for state.now.keys (log self.now) edge.now }
        ensures form { IfSome result (IsLinkFor state.now.keys edge.now) };

    /// The last content of the kind that was published for the folder, file or holder, where that stands behind the batches. Where
    /// the source shows them, the faults are `DiskFault` and `OutOfMemory` alone.
    fn content_for(
        &self,
        alloc: Global,
        source: &mut S,
        kind: u8,
        object: u32,
    ) -> Result<Option<FoundContent>, ClientFault>
        ensures found { shows self.now source.old → (at : Stand) → folded nothing (log self.now) ≡ Ok at → HasObject at.store kind object
            → Finds result (spec.content_for (log self.now) kind object) }
        ensures form { IfOk result (λ found. IfSome found (IsContentFor kind object)) }
        ensures seen { result ≢ Err ClientFault.Unseen }
        ensures stays { stays source.old source.new }
        ensures disk_fault { result ≡ Err ClientFault.DiskFault → faults source.old < faults source.new };

    /// Where nothing happened, the source was only read.
    ghost same: { (a : S) → stays a a };

    ghost twice: { (a b c : S) → stays a b → stays b c → stays a c };

    ghost still_shows: { (records : Self) (a b : S) → stays a b → shows records a → shows records b };

    ghost counts: { (a b : S) → stays a b → faults a ≤ faults b };
}

/// Takes the content at a spot out of its batch, of which nothing else is kept. `Tampered` comes where the batch has no such
/// content there.
pub fn take_content(
    placed: Placed,
    spot: &ContentSpot,
    kind: u8,
    object: u32,
) -> Result<FoundContent, ClientFault>
    requires { IsStanding placed }
    ensures found { FindsAt kind object placed spot.now result }
    ensures form { IfOk result (IsContentFor kind object) }
    ensures seen { result ≢ Err ClientFault.Unseen }
    ensures no_disk { result ≢ Err ClientFault.DiskFault }
{
    let changed = ClientFault::Tampered {
        batch: spot.batch,
        at: spot.at,
    };
    let Body::Commands(payload) = placed.body else {
        return Err(changed);
    };
    let mut contents = payload.contents;
    if contents.as_slice().len() <= spot.index {
        return Err(changed);
    }
    let content = contents.swap_remove(spot.index);
    if content.kind != kind || content.object != object {
        return Err(changed);
    }
    Ok(FoundContent {
        batch: spot.batch,
        at: spot.at,
        content,
    })
}
