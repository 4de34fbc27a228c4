//! The memory that the records of a step take.
ghost use Rattle.std.specs.Prelude.{◌≡◌, ◌≤◌, IfOk, OnOk, length};
ghost use Rattle.journal_bytes.specs.Sealing.{IsSpaceFor};

use cry_base::{List, Mem};
use key_links::KeyRing;
use public_fold::Skeleton;
use record_format::{ContentRecord, LinkRecord};
use std::alloc::Global;
use std::marker::Model;

/// Room for the records of a step, taken before its keys are drawn. Contracts see how many links and contents fit.
#[derive(Drop)]
pub(crate) struct StepRoom {
    pub(crate) links: List<LinkRecord>,
    pub(crate) contents: List<ContentRecord>,
}

impl Model for StepRoom {
    ghost use Rattle.std.specs.Prelude.{◌≡◌, []};
    ghost use Rattle.journal_bytes.specs.Sealing.{Space};

    ghost Value = { Space };

    ghost view = { λ r. record { links = r.links.spare; contents = r.contents.spare } };

    ghost invariant = { λ r. (r.links.items ≡ []) × (r.contents.items ≡ []) };
}

impl StepRoom {
    /// Room for the records of the skeleton, and in the ring for its keys. The ring's keys are as they were, at `Err` too.
    pub(crate) fn reserve(alloc: Global, ring: &mut KeyRing, skeleton: &Skeleton) -> Mem<StepRoom>
        ensures room { IfOk result (λ space. IsSpaceFor space skeleton.now) }
        ensures ring { OnOk result (length skeleton.now.keys.items ≤ ring.new.spare) }
        ensures keys { ring.new.keys ≡ ring.old.keys }
        ensures kept { ring.old.spare ≤ ring.new.spare }
    {
        ring.reserve(skeleton.keys.as_slice().len())?;
        let mut links = List::new(alloc);
        links.reserve(skeleton.links.as_slice().len())?;
        let mut contents = List::new(alloc);
        contents.reserve(skeleton.contents.as_slice().len())?;
        Ok(StepRoom { links, contents })
    }
}
