//! Laws of what is shown of a journal's store.
ghost use Rattle.std.specs.Prelude.{◌≡◌};
ghost use Rattle.cry_base.specs.Sets.{In};
ghost use Rattle.role_graph.specs.Rights.{Who};
ghost use Rattle.public_fold.specs.Journal.{Journal, store_of};
ghost use Rattle.public_fold.specs.Valid.{IsValid};
ghost use Rattle.log_visits.specs.OwnPaths.{HasOwnNames};
ghost use Rattle.log_visits.specs.View.{Line, line_path, view};

/// In the store of a valid journal names in a folder differ and each way up ends at the root, so two lines of a view with
/// one path are one.
pub fn paths_in_every_view_differ()
    ensures names { (m : Journal) → IsValid m → HasOwnNames (store_of m) }
    ensures paths { (m : Journal) → IsValid m → (who : Who) (a b : Line) → In a (view (store_of m) who) → In b (view (store_of m) who)
        → line_path a ≡ line_path b → a ≡ b }
{}
