//! Laws of the text that a command seals, and of the names and bytes after it.
ghost use Rattle.std.specs.Prelude.{◌≡◌, ◌++◌, ℕ, List, None};
ghost use Rattle.cry_base.specs.Refusing.{refusal_of};
ghost use Rattle.cry_base.specs.Requests.{Request};
ghost use Rattle.cry_base.specs.Sets.{In};
ghost use Rattle.cry_base.specs.Stepping.{effect};
ghost use Rattle.cry_base.specs.Store.{Store};
ghost use Rattle.folder_nodes.specs.Titles.{Titles, tree_store};
ghost use Rattle.folder_nodes.specs.Trees.{IsTree};
ghost use Rattle.move_plan.specs.Noting.{note_of};
ghost use Rattle.public_fold.specs.Changing.{tree_then};
ghost use Rattle.public_fold.specs.Journal.{Journal, store_of};
ghost use Rattle.public_fold.specs.Records.{Piece, pieces_of, text_of};
ghost use Rattle.public_fold.specs.Valid.{IsValid};
ghost use Rattle.journal_bytes.specs.Owning.{IsTreeOf};
ghost use Rattle.journal_bytes.specs.Texting.{AreTitlesAfter, due_key, due_text};

/// Law: what a command that isn't refused seals is its due text, or the new holder's key. The tree and its names alone tell
/// that text.
pub fn due_texts_are_sealed()
    ensures tree { (t s : Store) (r : Request) → IsTreeOf t s → due_text t r ≡ due_text s r }
    ensures sealed { (m : Journal) (r : Request) (key check : List ℕ) (file_bytes : ℕ) → IsValid m
        → refusal_of (store_of m) r file_bytes ≡ None
        → (p : Piece) → In p (pieces_of (note_of (store_of m) r check) (effect (store_of m) r key))
        → text_of p ≡ due_text (store_of m) r ++ due_key r key }
{}

/// Law: a tree with the store's names and bytes has those of the store after a command that isn't refused, once its note has
/// changed the tree and the command the names.
pub fn titles_after_are_the_stores()
    ensures { (m : Journal) (r : Request) (key check : List ℕ) (file_bytes : ℕ) (tree : Store) (old new : Titles) → IsValid m
        → refusal_of (store_of m) r file_bytes ≡ None → IsTree tree → IsTreeOf (tree_store tree old) (store_of m)
        → AreTitlesAfter (store_of m) r old new
        → IsTreeOf (tree_store (tree_then tree (note_of (store_of m) r check)) new) (effect (store_of m) r key) }
{}
