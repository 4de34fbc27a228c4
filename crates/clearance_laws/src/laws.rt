//! Laws of the clearances of files.
ghost use Rattle.std.specs.Prelude.{◌≡◌, ◌<◌, ◌↔◌, ℕ, IsTrue};
ghost use Rattle.cry_base.specs.Clearances.{clear_base, clear_number};
ghost use Rattle.cry_base.specs.Sets.{In};
ghost use Rattle.cry_base.specs.Store.{FileEntry, GrantEntry, Store};
ghost use Rattle.cry_base.specs.declared.roles.Role.TheVariants.{Owner};
ghost use Rattle.role_graph.specs.Edges.{Reaches, edges, has_grants};
ghost use Rattle.role_graph.specs.Rights.{IsGranted};
ghost use Rattle.role_graph.specs.RightsByReach.{IsSettled};
ghost use Rattle.role_graph.specs.Roles.{clear_of, holder_role};
ghost use Rattle.public_fold.specs.Journal.{Journal, keys_of, store_of};
ghost use Rattle.public_fold.specs.Valid.{IsValid};

/// In a settled store, as that of each valid journal is, the clearance key of a file that stands is in reach of a holder
/// exactly where that holder's grant on the file stands, and of the owner exactly where anybody's does. So nobody reaches it
/// before the first grant on the file, nor once the last one is taken back.
pub fn clearances_are_reached_where_granted()
    ensures holders { (s : Store) → IsSettled s → (h : ℕ) (e : FileEntry) → In e s.files →
        Reaches (edges s) (holder_role h) (clear_of (clear_number e.id)) ↔ IsGranted s h (clear_number e.id) }
    ensures owner { (s : Store) → IsSettled s → (e : FileEntry) → In e s.files →
        Reaches (edges s) Owner (clear_of (clear_number e.id)) ↔ IsTrue (has_grants s (clear_number e.id)) }
{}

/// In the store of a valid journal of version 1 no grant is on a file: each is on a number below those that files' clearances
/// have.
pub fn first_version_stores_grant_no_files()
    ensures { (m : Journal) → IsValid m → (keys_of m).version ≡ 1 → (g : GrantEntry) → In g (store_of m).grants → g.folder < clear_base }
{}
