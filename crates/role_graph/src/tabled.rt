//! The edges of stores, and the table of the kinds of links.
ghost use Rattle.std.specs.Prelude.{◌≡◌};
ghost use Rattle.cry_base.specs.Sets.{In};
ghost use Rattle.cry_base.specs.Store.{Store};
ghost use Rattle.cry_base.specs.declared.roles.Edge.{Edge};
ghost use Rattle.kind_table.specs.declared.eleven.TheConstants.{ELEVEN};
ghost use Rattle.kind_table.specs.declared.table.Row.{Row};
ghost use Rattle.role_graph.specs.Edges.{edges};
ghost use Rattle.role_graph.specs.Tabled.{row_of};

/// Each edge of a store is of a kind in the table of the eleven, and each kind in the table is that of some store's edge.
pub fn edges_are_rows()
    ensures each_edge { (s : Store) (e : Edge) → In e (edges s) → In (row_of e) ELEVEN.rows }
    ensures each_row { (r : Row) → In r ELEVEN.rows → (s : Store) × (e : Edge) × In e (edges s) × (row_of e ≡ r) }
{}
