//! What has happened to a disk in memory. Only clauses read it, and it takes no bytes.
ghost use Rattle.std.specs.Prelude.{◌≡◌, List, [], ◌∷◌};
ghost use Rattle.std.specs.Borrow.{ftrue};
ghost use Rattle.cry_io.specs.Events.{Event, Stays, Wrote};

use std::marker::Model;

/// The events, the latest first.
#[derive(Drop)]
pub struct History {
    pub ghost events: { List Event },
}

impl Model for History {
    ghost also_owns = { λ _. ftrue };
}

impl History {
    /// Nothing has happened.
    pub(crate) fn new() -> History
        ensures { result.events ≡ [] }
    {
        History {}
    }

    /// From now on a stop leaves exactly these bytes.
    pub(crate) fn staying(&self, _bytes: &[u8]) -> History
        ensures { result.events ≡ Stays _bytes.now ∷ self.now.events }
    {
        History {}
    }

    /// Bytes were written at a place.
    pub(crate) fn writing(&self, _place: &u64, _bytes: &[u8]) -> History
        ensures { result.events ≡ Wrote _place.now _bytes.now ∷ self.now.events }
    {
        History {}
    }
}
