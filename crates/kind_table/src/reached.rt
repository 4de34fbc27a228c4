//! A set of kinds, for walks along the rows of a table.
ghost use Rattle.std.specs.Prelude.{◌≡◌, false, not, true};
ghost use Rattle.kind_table.specs.declared.kinds.RoleKind.{RoleKind};
ghost use Rattle.kind_table.specs.Reached.{Begins, Holds, holds, with_kind};

use crate::{RoleKind, Row};

/// For each kind, at its place, whether it is in the set.
#[derive(Clone, Copy, Debug)]
pub(crate) struct Reached {
    has: [bool; 8],
}

impl Reached {
    /// No kind.
    pub(crate) fn none() -> Reached
        ensures { (kind : RoleKind) → Holds result.has kind → ⊥ }
    {
        Reached { has: [false; 8] }
    }

    pub(crate) fn contains(&self, kind: RoleKind) -> bool
        ensures { result ≡ holds self.now.has kind }
    {
        self.has[kind.place()]
    }

    /// Adds the kind, and says whether it is new.
    fn insert(&mut self, kind: RoleKind) -> bool
        ensures new { result ≡ not (holds self.old.has kind) }
        ensures added { self.new.has ≡ with_kind self.old.has kind }
    {
        let is_new = !self.contains(kind);
        self.has[kind.place()] = true;
        is_new
    }

    /// Adds the row's end where the row begins in `a` or in the set, and says whether it is new.
    pub(crate) fn follow(&mut self, a: RoleKind, row: &Row) -> bool
        ensures came { result ≡ true → Begins a self.old.has row.now }
        ensures new { result ≡ true → holds self.old.has row.now.to ≡ false }
        ensures added { result ≡ true → self.new.has ≡ with_kind self.old.has row.now.to }
        ensures kept { result ≡ false → self.new.has ≡ self.old.has }
        ensures done { result ≡ false → Begins a self.old.has row.now → Holds self.old.has row.now.to }
    {
        (row.from == a || self.contains(row.from)) && self.insert(row.to)
    }
}
