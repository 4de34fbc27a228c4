//! What is asked of edges between roles, whatever they are made from.
ghost use Rattle.std.specs.Prelude.{◌≡◌, ◌<◌, ◌↔◌, ℕ, Bool, IsTrue, false};
ghost use Rattle.cry_base.specs.declared.roles.Role.{Role as AnyRole};
ghost use Rattle.kind_table.specs.Kinds.{kind_of};
ghost use Rattle.kind_table.specs.Rows.{Allows};
ghost use Rattle.kind_table.specs.declared.eleven.TheConstants.{ELEVEN};

use cry_base::Role;

/// Which roles have an edge between them. No path of edges is a circle, since the rank falls along each.
pub trait Roles {
    ghost is_root: { AnyRole → Bool };

    ghost HasEdge: { Self → AnyRole → AnyRole → Type 0 };

    ghost rank: { Self → AnyRole → ℕ };

    /// Whether the role's key is never renewed.
    fn is_root(&self, role: Role) -> bool
        ensures { result ≡ is_root role };

    /// Whether an edge leads from the one role to the other.
    fn has_edge(&self, from: Role, to: Role) -> bool
        ensures { IsTrue result ↔ HasEdge self.now from to };

    /// A number that is higher at an edge's start than at its end.
    fn rank(&self, role: Role) -> u64
        ensures { result ≡ rank self.now role };

    /// The laws of edges.
    fn laws(&self)
        ensures no_root { (a b : AnyRole) → HasEdge self.now a b → is_root b ≡ false }
        ensures falls { (a b : AnyRole) → HasEdge self.now a b → rank self.now b < rank self.now a }
        ensures tabled { (a b : AnyRole) → HasEdge self.now a b → Allows ELEVEN.rows (kind_of a) (kind_of b) };
}
