//! Laws of views.
ghost use Rattle.std.specs.Prelude.{◌≡◌, ◌↔◌, IsTrue};
ghost use Rattle.cry_base.specs.Sets.{In};
ghost use Rattle.cry_base.specs.Store.{Store};
ghost use Rattle.role_graph.specs.Rights.{Who};
ghost use Rattle.log_visits.specs.OwnPaths.{HasOwnNames, has_own_names};
ghost use Rattle.log_visits.specs.View.{Ascends, IsLine, Line, line_path, view};

/// A view has a line for each folder that is named and each file that is allowed, and no other, by the bytes of their paths.
pub fn view_is_what_is_shown()
    ensures lines { (s : Store) (who : Who) (l : Line) → In l (view s who) ↔ IsLine s who l }
    ensures order { (s : Store) (who : Who) → Ascends (view s who) }
{}

/// Where the names in each folder differ and each way up ends at the root, two lines of a view with one path are one.
pub fn paths_in_a_view_differ()
    ensures { (s : Store) (who : Who) → HasOwnNames s → (a b : Line) → In a (view s who) → In b (view s who) → line_path a ≡ line_path b
        → a ≡ b }
{}

/// A store that passes the computed test has names of its own.
pub fn own_names_are_told()
    ensures { (s : Store) → IsTrue (has_own_names s) → HasOwnNames s }
{}
