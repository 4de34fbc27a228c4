//! Laws of marks and plans: the sets that are computed are those told by paths.
ghost use Rattle.std.specs.Prelude.{◌≡◌, ◌↔◌, ◌⊎◌, false, List};
ghost use Rattle.cry_base.specs.Sets.{In};
ghost use Rattle.cry_base.specs.declared.roles.Edge.{Edge};
ghost use Rattle.cry_base.specs.declared.roles.Role.{Role};
ghost use Rattle.role_graph.specs.Edges.{Reaches};
ghost use Rattle.role_graph.specs.Roles.{is_root_role};
ghost use Rattle.rekey_walk.specs.Dirty.{mark, mark_all, plan};
ghost use Rattle.rekey_walk.specs.Strict.{strict_roles};

/// What is dirty after a mark was so before, or has a path of edges from the target.
pub fn marks_are_by_paths()
    ensures one { (dirty : List Role) (es : List Edge) (target r : Role) → In r (mark dirty es target)
        ↔ (In r dirty ⊎ Reaches es target r) }
    ensures each { (dirty : List Role) (es : List Edge) (targets : List Role) (r : Role) →
        In r (mark_all dirty es targets) ↔ (In r dirty ⊎ ((t : Role) × In t targets × Reaches es t r)) }
{}

/// What is planned is dirty, and has a path of edges to a wanted role.
pub fn plans_are_by_paths()
    ensures { (dirty : List Role) (es : List Edge) (wanted : List Role) (r : Role) →
        In r (plan dirty es wanted) ↔ (In r dirty × ((w : Role) × In w wanted × Reaches es r w)) }
{}

/// A role is strict that has a path of edges to where a removed edge begins, is no root and doesn't go.
pub fn strict_roles_are_by_paths()
    ensures { (es removed : List Edge) (gone : List Role) (r : Role) →
        In r (strict_roles es removed gone)
        ↔ (((e : Edge) × In e removed × Reaches es r e.from) × ((is_root_role r ≡ false) × (In r gone → ⊥))) }
{}
