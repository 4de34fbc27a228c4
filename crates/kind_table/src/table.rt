//! Which kinds of keys lead to which, as a table.
ghost use Rattle.std.specs.Prelude.{◌≡◌, ◌↔◌, ◌<◌, ◌≤◌, IsTrue, false, true};
ghost use Rattle.std.specs.List.{list_any};
ghost use Rattle.kind_table.specs.Reached.{IsClosed, IsLedTo, size};
ghost use Rattle.kind_table.specs.Rows.{Allows, Leads, joins};

use crate::RoleKind;
use crate::reached::Reached;

/// Keys of the kind `from` lead to keys of the kind `to`, by links of this number.
#[derive(Clone, Copy, Debug, PartialEq, Eq)]
pub struct Row {
    pub number: u8,
    pub from: RoleKind,
    pub to: RoleKind,
}

impl Row {
    #[tactic(auto, unfolding(crate::specs::Rows::joins, crate::specs::Kinds::same_kind))]
    fn joins(&self, a: RoleKind, b: RoleKind) -> bool
        ensures { result ≡ joins a b self.now }
    {
        self.from == a && self.to == b
    }
}

/// Which kinds of keys lead to which, as rows in any order.
#[derive(Clone, Copy, Debug, PartialEq, Eq)]
pub struct Table<const N: usize> {
    pub rows: [Row; N],
}

impl<const N: usize> Table<N> {
    /// Whether a row goes from `a` to `b`.
    pub fn allows(&self, a: RoleKind, b: RoleKind) -> bool
        ensures { IsTrue result ↔ Allows self.now.rows a b }
    {
        self.has_row(a, b)
    }

    fn has_row(&self, a: RoleKind, b: RoleKind) -> bool
        ensures { result ≡ list_any (joins a b) self.now.rows }
    {
        self.rows.iter().any(|row| row.joins(a, b))
    }

    /// Whether one row or more, each from where the one before ends, go from `a` to `b`.
    pub fn leads(&self, a: RoleKind, b: RoleKind) -> bool
        ensures { IsTrue result ↔ Leads self.now.rows a b }
    {
        let mut reached = Reached::none();
        while self.extend(a, &mut reached) {}
        reached.contains(b)
    }

    /// Follows each row from `a` and from what is reached, and says whether something new is.
    fn extend(&self, a: RoleKind, reached: &mut Reached) -> bool
        ensures led_to { IsLedTo self.now.rows a reached.old.has → IsLedTo self.now.rows a reached.new.has }
        ensures closed { result ≡ false → IsClosed self.now.rows a reached.new.has }
        ensures grown { result ≡ true → size reached.old.has < size reached.new.has }
        ensures within { size reached.new.has ≤ 8 }
    {
        let mut grew = false;
        for row in &self.rows {
            if reached.follow(a, row) {
                grew = true;
            }
        }
        grew
    }
}
