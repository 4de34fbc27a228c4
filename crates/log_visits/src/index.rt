//! Where the last link of each edge and the last content of each head stand in a log, found without a walk over it.
ghost use Rattle.std.specs.Prelude.{◌≡◌, [], ◌∷◌, ◌++◌, IfSome, List, Ok, OnOk, length, nat_lt};
ghost use Rattle.commit_journal.specs.Placed.{PlainPlaced, plain_placed};
ghost use Rattle.commit_journal.specs.Places.{IsStanding};
ghost use Rattle.commit_journal.specs.declared.past.Past.{Past as ThePast};
ghost use Rattle.log_visits.specs.Folding.{folded};
ghost use Rattle.log_visits.specs.Found.{HasObject, IsLinkFor, newest_for, plain_link};
ghost use Rattle.log_visits.specs.Indexed.{HasStandingAlone, HaveStarts, IsIndexOf, IsLastAt, StartsAt};
ghost use Rattle.log_visits.specs.Indexed as sizes;
ghost use Rattle.log_visits.specs.Placing as spec;
ghost use Rattle.public_fold.specs.Journal.{Stand, nothing};
ghost use Rattle.public_fold.specs.Standing.{IsSeenAs};
ghost use Rattle.role_graph.specs.Edges.{IsEdge};

use crate::last_contents::{
    ContentHead, ContentSpot, LastContents, keep_contents, note_contents_of,
};
use crate::last_links::{FoundLink, LastLinks, head_sought, is_present, keep_links, note_links_of};
use crate::number_hasher::ByNumber;
use crate::row_counts::most_rows;
use commit_journal::{Past, Placed};
use cry_base::{Edge, Mem};
use public_fold::PublicState;
use std::alloc::Global;
use std::collections::HashMap;

/// The last link of each edge, and the spot of the last content of each head, for readers, who hold no payload. Of a record that
/// another one of its edge or head followed it keeps nothing, and of edges and objects that don't stand any more nothing that it was
/// told to forget.
#[derive(Drop)]
pub struct Index {
    links: LastLinks,
    contents: LastContents,
}

impl Index {
    /// The index of a log without batches.
    pub fn new(alloc: Global) -> Self
        ensures index { IsIndexOf result [] }
        ensures starts { HaveStarts result.contents [] }
    {
        Index {
            links: HashMap::with_hasher(alloc, ByNumber::new()),
            contents: HashMap::with_hasher(alloc, ByNumber::new()),
        }
    }

    /// Notes the next batch, before which so many stand, with what was known before it. After `Err` it is the index of no log.
    pub fn note(&mut self, position: usize, start: Past, placed: &Placed) -> Mem<()>
        requires { IsStanding placed.now }
        ensures noted { OnOk result ((log : List PlainPlaced) → length log ≡ position → IsIndexOf self.old log
            → IsIndexOf self.new (log ++ plain_placed placed.now ∷ [])) }
        ensures starts { OnOk result ((starts : List ThePast) → HaveStarts self.old.contents starts → StartsAt starts position start
            → HaveStarts self.new.contents starts) }
    {
        note_links_of(&mut self.links, placed)?;
        note_contents_of(&mut self.contents, position, start, placed)
    }

    /// Whether it keeps twice as much as what stands has and some more. At least half of that can be forgotten, so that telling it to
    /// forget then costs little for each record that was noted.
    pub fn is_crowded(&self, state: &PublicState) -> bool
        ensures { result ≡ nat_lt (sizes.most_rows state.now) (sizes.rows_of self.now) }
    {
        let rows = self.links.len() + self.contents.len();
        rows > most_rows(state)
    }

    /// Forgets the links of edges that don't stand and the contents of what doesn't stand. It looks each of them up, and takes no
    /// memory.
    pub fn forget(&mut self, state: &PublicState)
        ensures kept { (log : List PlainPlaced) (at : Stand) → IsIndexOf self.old log → folded nothing log ≡ Ok at
            → IsSeenAs state.now at → IsIndexOf self.new log }
        ensures starts { (starts : List ThePast) → HaveStarts self.old.contents starts → HaveStarts self.new.contents starts }
        ensures alone { HasStandingAlone self.new state.now }
    {
        keep_links(&mut self.links, state);
        keep_contents(&mut self.contents, state);
    }

    /// The last link that was published for the edge, where it is one from the present key of its source to that of its target.
    pub fn link_for(&self, state: &PublicState, edge: &Edge) -> Option<FoundLink>
        ensures found { (log : List PlainPlaced) (at : Stand) → IsIndexOf self.now log → folded nothing log ≡ Ok at
            → IsEdge at.store edge.now → plain_link result ≡ newest_for state.now.keys log edge.now }
        ensures form { (log : List PlainPlaced) → IsIndexOf self.now log → IfSome result (IsLinkFor state.now.keys edge.now) }
    {
        let found = self.links.get(&head_sought(edge)).copied()?;
        if !is_present(state, edge, &found.link) {
            return None;
        }
        Some(found)
    }

    /// The spot of the last content of the kind that was published for the folder, file or holder.
    pub fn spot_for(&self, kind: u8, object: u32) -> Option<ContentSpot>
        ensures found { (log : List PlainPlaced) (at : Stand) → IsIndexOf self.now log → folded nothing log ≡ Ok at
            → HasObject at.store kind object → IsLastAt log result (spec.content_for log kind object) }
        ensures starts { (starts : List ThePast) → HaveStarts self.now.contents starts
            → IfSome result (λ spot. StartsAt starts spot.position spot.start) }
    {
        self.contents.get(&ContentHead { kind, object }).copied()
    }
}
