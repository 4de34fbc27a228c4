//! Worked rows of notes and changes, each computed by the checker from the definitions.
ghost use Rattle.std.specs.Prelude.{◌≡◌, [], ◌∷◌, codes, map, true, false};
ghost use Rattle.cry_base.specs.Requests.Request.{AddHolder, MakeFolder, WriteFile, Remove, Rename, Relocate, Grant, Revoke};
ghost use Rattle.cry_base.specs.Store.{no_store};
ghost use Rattle.cry_base.specs.WorkedRows.{granted, store_after};
ghost use Rattle.move_plan.specs.Fitting.{fits};
ghost use Rattle.role_graph.specs.Edges.{edge};
ghost use Rattle.role_graph.specs.Roles.{clear_of, sub_of, back_of, files_of, file_role};
ghost use Rattle.move_plan.specs.Change.{change_of};
ghost use Rattle.record_format.specs.Noted.Note.{Root, NewHolder, NewFolder, NewFile, Rewrite, NameFile, NameFolder, DropFile, DropFolder};
ghost use Rattle.record_format.specs.Noted.Note.{ShiftFile, ShiftFolder, Give, Take, StrictRoot, Upgrade};
ghost use Rattle.move_plan.specs.Noting.{note_of};

/// The notes of commands on a store with the folder /a and the file /a/x.
#[tactic(auto, unfolding(crate::specs::WorkedChanges::changes))]
pub fn notes_of_commands()
    ensures holder { note_of granted AddHolder (7 ∷ []) ≡ NewHolder 2 (7 ∷ []) }
    ensures folder { note_of granted (MakeFolder (codes "/a/b")) [] ≡ NewFolder 3 2 }
    ensures file { note_of granted (WriteFile (codes "/y") []) [] ≡ NewFile 2 1 }
    ensures rewrite { note_of granted (WriteFile (codes "/a/x") []) [] ≡ Rewrite 1 }
    ensures name_file { note_of granted (Rename (codes "/a/x") (codes "y")) [] ≡ NameFile 1 }
    ensures name_folder { note_of granted (Rename (codes "/a") (codes "y")) [] ≡ NameFolder 2 }
    ensures drop_file { note_of granted (Remove (codes "/a/x")) [] ≡ DropFile 1 }
    ensures shift_file { note_of granted (Relocate (codes "/a/x") (codes "/")) [] ≡ ShiftFile 1 1 }
    ensures give { note_of granted (Grant 1 (codes "/")) [] ≡ Give 1 1 }
    ensures take { note_of granted (Revoke 1 (codes "/a")) [] ≡ Take 1 2 }
{}

/// What fits a store with the folder /a, the file /a/x, a holder and a grant on /a: the next numbers, what stands, and
/// no move of a folder into itself or to where it is. It may be upgraded where it has version 1.
#[tactic(auto, unfolding(crate::specs::WorkedChanges::changes))]
pub fn notes_that_fit()
    ensures fit { map (fits false granted) (NewHolder 2 [] ∷ NewFolder 3 2 ∷ NewFile 2 2 ∷ Rewrite 1 ∷ NameFolder 2 ∷ DropFile 1
        ∷ ShiftFile 1 1 ∷ Give 1 1 ∷ Take 1 2 ∷ [])
        ≡ true ∷ true ∷ true ∷ true ∷ true ∷ true ∷ true ∷ true ∷ true ∷ [] }
    ensures misfit { map (fits false granted) (Root ∷ NewHolder 1 [] ∷ NewFolder 4 2 ∷ NewFile 2 3 ∷ Rewrite 2 ∷ NameFolder 1 ∷ DropFolder 2
        ∷ ShiftFile 1 2 ∷ ShiftFolder 2 1 ∷ ShiftFolder 2 2 ∷ ShiftFolder 1 2 ∷ Give 1 2 ∷ Give 2 1 ∷ Take 1 1 ∷ [])
        ≡ false ∷ false ∷ false ∷ false ∷ false ∷ false ∷ false ∷ false ∷ false ∷ false ∷ false ∷ false ∷ false ∷ false ∷ [] }
    ensures upgrade { fits false granted Upgrade ≡ true }
    ensures upgraded { fits true granted Upgrade ≡ false }
    ensures no_root { map (fits false no_store) (Root ∷ StrictRoot ∷ NewHolder 1 [] ∷ Upgrade ∷ []) ≡ true ∷ true ∷ false ∷ false ∷ [] }
{}

/// A file that is removed leaves the edge that led to it, and a folder all edges at its roles: those from the owner and its holder, its
/// own, and those between it and its parent.
#[tactic(auto, unfolding(crate::specs::WorkedChanges::changes))]
pub fn edges_that_are_left()
    ensures file { (change_of false granted (DropFile 1)).removed ≡ edge 9 (files_of 2) (file_role 1) ∷ [] }
    ensures folder { map (λ e. e.kind) (change_of false (store_after granted (Remove (codes "/a/x") ∷ [])) (DropFolder 2)).removed
        ≡ 1 ∷ 2 ∷ 3 ∷ 4 ∷ 5 ∷ 6 ∷ 7 ∷ 8 ∷ [] }
{}

/// What leaves a folder renews the keys that led through it to where it was, in a strict store alone, and an upgrade all keys that may lead
/// on. A grant that is taken back renews none.
#[tactic(auto, unfolding(crate::specs::WorkedChanges::changes))]
pub fn strict_roles_of_notes()
    ensures departure { (change_of true granted (ShiftFile 1 1)).strict ≡ clear_of 1 ∷ clear_of 2 ∷ sub_of 1 ∷ sub_of 2 ∷ files_of 2 ∷ [] }
    ensures lazy { (change_of false granted (ShiftFile 1 1)).strict ≡ [] }
    ensures revocation { (change_of true granted (Take 1 2)).strict ≡ [] }
    ensures upgrade { (change_of false granted Upgrade).strict
        ≡ clear_of 1 ∷ clear_of 2 ∷ sub_of 1 ∷ sub_of 2 ∷ back_of 1 ∷ back_of 2 ∷ files_of 1 ∷ files_of 2 ∷ [] }
{}

/// A grant on a file goes by the file's clearance number. A store of version 2 knows it, one of version 1 doesn't.
#[tactic(auto, unfolding(crate::specs::WorkedChanges::changes))]
pub fn grants_on_files()
    ensures note { note_of granted (Grant 1 (codes "/a/x")) [] ≡ Give 1 2147483649 }
    ensures fits { fits true granted (Give 1 2147483649) ≡ true }
    ensures misfit { map (fits true granted) (Give 1 2147483650 ∷ Take 1 2147483649 ∷ []) ≡ false ∷ false ∷ [] }
    ensures version_one { fits false granted (Give 1 2147483649) ≡ false }
    ensures comes { (change_of true granted (Give 1 2147483649)).fresh ≡ clear_of 2147483649 ∷ [] }
    ensures added { map (λ e. e.kind) (change_of true granted (Give 1 2147483649)).added ≡ 1 ∷ 2 ∷ 10 ∷ 11 ∷ [] }
{}

/// A clearance goes with the file's last grant, and with the file. It moves with the file, under a new key.
#[tactic(auto, unfolding(crate::specs::WorkedChanges::changes))]
pub fn clearances_that_go_and_move()
    ensures last { map (λ e. e.kind) (change_of true (store_after granted (Grant 1 (codes "/a/x") ∷ [])) (Take 1 2147483649)).removed
        ≡ 1 ∷ 2 ∷ 10 ∷ 11 ∷ [] }
    ensures dropped { map (λ e. e.kind) (change_of true (store_after granted (Grant 1 (codes "/a/x") ∷ [])) (DropFile 1)).removed
        ≡ 1 ∷ 2 ∷ 9 ∷ 10 ∷ 11 ∷ [] }
    ensures moved { map (λ e. e.kind) (change_of true (store_after granted (Grant 1 (codes "/a/x") ∷ [])) (ShiftFile 1 1)).added
        ≡ 9 ∷ 11 ∷ [] }
    ensures renewed { (change_of true (store_after granted (Grant 1 (codes "/a/x") ∷ [])) (ShiftFile 1 1)).strict
        ≡ clear_of 1 ∷ clear_of 2 ∷ clear_of 2147483649 ∷ sub_of 1 ∷ sub_of 2 ∷ files_of 2 ∷ [] }
{}
