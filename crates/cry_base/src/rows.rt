//! Worked rows of the plain store, each computed by the checker from the definitions.
ghost use Rattle.std.specs.Prelude.{◌≡◌, [], ◌∷◌, codes, Some, None, false};
ghost use Rattle.cry_base.specs.Requests.Request.{MakeFolder, WriteFile, Remove, Rename, Relocate, Grant, Revoke};
ghost use Rattle.cry_base.specs.Refusing.{refusal_in, refusal_of};
ghost use Rattle.cry_base.specs.Store.{root_store};
ghost use Rattle.cry_base.specs.declared.commands.Refusal.TheVariants.{NotFolder, TooDeep, TooLong};
ghost use Rattle.cry_base.specs.WorkedRows.{replies, store_after, granted, deep_store, deep_path};

/// A grant is given once, taken back where it stands, and only to a holder that was made.
#[tactic(auto, unfolding(crate::specs::WorkedRows::plain_store))]
pub fn holder_refusals()
    ensures { replies (store_after granted (MakeFolder (codes "/b") ∷ []))
        (Grant 1 (codes "/a") ∷ Revoke 1 (codes "/b") ∷ Grant 2 (codes "/a") ∷ [])
        ≡ codes "has-grant" ∷ codes "no-grant" ∷ codes "no-holder" ∷ [] }
{}

/// A grant on a file lets its holder read that file alone, so it is another one than the grant on its folder; it goes with the file. A store of
/// version 1 refuses it.
#[tactic(auto, unfolding(crate::specs::WorkedRows::plain_store))]
pub fn grants_on_files()
    ensures replies { replies granted (Grant 1 (codes "/a/x") ∷ Grant 1 (codes "/a/x") ∷ Revoke 1 (codes "/a/x")
        ∷ Revoke 1 (codes "/a/x") ∷ Revoke 1 (codes "/a") ∷ [])
        ≡ codes "ok" ∷ codes "has-grant" ∷ codes "ok" ∷ codes "no-grant" ∷ codes "ok" ∷ [] }
    ensures gone { (store_after granted (Grant 1 (codes "/a/x") ∷ Remove (codes "/a/x") ∷ [])).grants
        ≡ record { holder = 1; folder = 2 } ∷ [] }
    ensures version_one { refusal_in false granted (Grant 1 (codes "/a/x")) 0 ≡ Some NotFolder }
{}

/// The refusals of a tree's changes, each by the first cause that applies.
#[tactic(auto, unfolding(crate::specs::WorkedRows::plain_store))]
pub fn tree_refusals()
    ensures { replies (store_after granted (MakeFolder (codes "/a/b") ∷ []))
        (Relocate (codes "/a") (codes "/a/b") ∷ Relocate (codes "/a/x") (codes "/a") ∷ Relocate (codes "/") (codes "/a")
        ∷ MakeFolder (codes "a") ∷ Remove (codes "/a") ∷ WriteFile (codes "/a") (0 ∷ [])
        ∷ MakeFolder (codes "/a/x/y") ∷ Rename (codes "/a/x") (codes "x") ∷ [])
        ≡ codes "inside-itself" ∷ codes "exists" ∷ codes "is-root" ∷ codes "bad-name" ∷ codes "not-empty"
        ∷ codes "is-folder" ∷ codes "not-folder" ∷ codes "exists" ∷ [] }
{}

/// A folder may stand 64 names below the root, and no more.
#[tactic(auto, unfolding(crate::specs::WorkedRows::plain_store))]
pub fn depth()
    ensures fits { refusal_of (deep_store 63) (MakeFolder (deep_path 64)) 0 ≡ None }
    ensures too_deep { refusal_of (deep_store 64) (MakeFolder (deep_path 65)) 0 ≡ Some TooDeep }
{}

/// A file may have as many bytes as the limit says, and no more; it may have none.
#[tactic(auto, unfolding(crate::specs::WorkedRows::plain_store))]
pub fn file_limit_and_empty_file()
    ensures fits { refusal_of root_store (WriteFile (codes "/e") (1 ∷ 2 ∷ [])) 2 ≡ None }
    ensures too_long { refusal_of root_store (WriteFile (codes "/e") (1 ∷ 2 ∷ 3 ∷ [])) 2 ≡ Some TooLong }
    ensures empty { refusal_of root_store (WriteFile (codes "/e") []) 2 ≡ None }
{}
