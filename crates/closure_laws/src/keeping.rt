//! All links that were ever published, and what follows from a key by them.
ghost use Rattle.std.specs.Prelude.{◌≡◌, ◌+◌, ◌<◌, ◌≤◌, ◌^◌, ◌↔◌, ◌++◌, length, IfOk, IfSome, IfNone, IsTrue, OnErr, OnOk};
ghost use Rattle.closure_laws.specs.Keeping.{IsTrail, Leads, held_links, nothing_kept, with_payload};

use crate::trail_search::{all_found, place_of, trail_from};
use cry_base::{List, Mem, Serial};
use record_format::{LinkRecord, Payload};
use std::alloc::Global;
use std::marker::Model;

/// Where a link stands in a history: the place of its payload among those that were pushed, and its place in that payload, both from 0.
#[derive(Clone, Copy, Debug, PartialEq, Eq)]
pub struct LinkRef {
    pub payload: u32,
    pub link: u32,
}

/// A link as a history keeps it: the serials of the sealing and of the sealed key, and where it stands.
#[derive(Clone, Copy, Debug, PartialEq, Eq)]
pub struct HeldLink {
    pub from: Serial,
    pub to: Serial,
    pub at: LinkRef,
}

/// The links of all payloads that were published, old ones too.
#[derive(Drop)]
pub struct History {
    alloc: Global,
    payloads: u32,
    links: List<HeldLink>,
}

impl Model for History {
    ghost use Rattle.closure_laws.specs.Keeping.{HistoryState};

    ghost Value = { HistoryState };

    ghost view = { λ h. record { payloads = h.payloads; links = h.links.items } };
}

/// Adds the links of a payload, where there is room.
fn put_links(held: &mut List<HeldLink>, payload: u32, links: &[LinkRecord])
    requires room { length links.now ≤ held.old.spare }
    requires count { length links.now < 2 ^ 32 }
    ensures { held.new.items ≡ held.old.items ++ held_links payload 0 links.now }
{
    let mut number = 0;
    for link in links {
        held.put(HeldLink {
            from: link.from_serial,
            to: link.to_serial,
            at: LinkRef {
                payload,
                link: number,
            },
        });
        number += 1;
    }
}

impl History {
    /// A history of no payloads. It takes no memory.
    pub fn new(alloc: Global) -> History
        ensures { result ≡ nothing_kept }
    {
        History {
            alloc,
            payloads: 0,
            links: List::new(alloc),
        }
    }

    /// Adds the links of the payload that was published next. At `Err`, which is want of memory, the history is as it was.
    pub fn push(&mut self, payload: &Payload) -> Mem<()>
        requires payloads { self.old.payloads + 1 < 2 ^ 32 }
        requires links { length payload.now.links.items < 2 ^ 32 }
        ensures pushed { OnOk result (self.new ≡ with_payload self.old payload.now.links.items) }
        ensures err { OnErr result (self.new ≡ self.old) }
    {
        let links = payload.links.as_slice();
        self.links.reserve(links.len())?;
        put_links(&mut self.links, self.payloads, links);
        self.payloads += 1;
        Ok(())
    }

    /// Whether a trail of links leads from the one key to the other: who has the one can open the other. From each key one leads to itself.
    pub fn derives(&self, from: Serial, to: Serial) -> Mem<bool>
        ensures { IfOk result (λ derives. IsTrue derives ↔ Leads self.now.links from.0 to.0) }
    {
        let trail = self.trail(from, to)?;
        Ok(trail.is_some())
    }

    /// Links that lead from the one key to the other, in order; `None` exactly where there are none. It looks at each link once.
    pub fn trail(&self, from: Serial, to: Serial) -> Mem<Option<List<LinkRef>>>
        ensures trail { IfOk result (λ trail. IfSome trail (λ trail. IsTrail self.now.links from.0 to.0 trail.items)) }
        ensures none { IfOk result (λ trail. IfNone trail (Leads self.now.links from.0 to.0 → ⊥)) }
    {
        let found = all_found(self.alloc, self.links.as_slice(), to)?;
        match place_of(found.as_slice(), from) {
            Some(place) => Ok(Some(trail_from(self.alloc, found.as_slice(), place)?)),
            None => Ok(None),
        }
    }
}
