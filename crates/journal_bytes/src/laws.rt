//! Laws of the bytes of a journal.
ghost use Rattle.std.specs.Prelude.{◌≡◌, ◌+◌, ℕ, All, List, [], ◌∷◌, ◌++◌, length};
ghost use Rattle.chacha_seal.specs.Keys.{KeyParts};
ghost use Rattle.commit_journal.specs.Gates.{recovered};
ghost use Rattle.commit_journal.specs.Holding.{IsPrefix};
ghost use Rattle.commit_journal.specs.Standing.{HasSizes};
ghost use Rattle.cry_base.specs.Sets.{In};
ghost use Rattle.public_fold.specs.Journal.{Entry, Journal, nothing, stand_after};
ghost use Rattle.public_fold.specs.Journal.Entry.{Made, Session};
ghost use Rattle.public_fold.specs.Lengths.{end_of};
ghost use Rattle.public_fold.specs.Valid.{IsValid};
ghost use Rattle.key_links.specs.Fresh.{fresh_image, made_version, piece};
ghost use Rattle.journal_bytes.specs.Bytes.{batches_of, bodies_of, entry_body, image_of};
ghost use Rattle.journal_bytes.specs.Journals.{IsHonestFor, StandsForJournal, StandsWholeForJournal, published_journal};
ghost use Rattle.journal_bytes.specs.Keys.{AreWhole, all_keys, key_bytes};

/// Law: the image of the journal that makes a store, with a closed gate behind it, is the image of a fresh store.
pub fn fresh_journal_has_the_fresh_image()
    ensures { (drawn : List ℕ) →
        image_of (piece drawn 0)
        (Session ∷ Made made_version (piece drawn 1 ∷ piece drawn 2 ∷ piece drawn 3 ∷ piece drawn 4 ∷ piece drawn 5 ∷ []) ∷ [])
        ++ 0 ∷ []
        ≡ fresh_image drawn }
{}

/// Law: the log of a valid journal ends one gate behind its image.
pub fn image_ends_with_the_log()
    ensures { (owner : List ℕ) (m : Journal) → IsValid m → AreWhole owner m → length (image_of owner m) + 1 ≡ end_of m }
{}

/// Law: the batches and the image of a journal begin with those of its first entries. The batch of the next entry is sealed
/// under the keys that there are with it.
pub fn batches_grow()
    ensures batches { (owner : List ℕ) (low high : Journal) → IsPrefix low high → IsPrefix (batches_of owner low) (batches_of owner high) }
    ensures image { (owner : List ℕ) (low high : Journal) → IsPrefix low high → IsPrefix (image_of owner low) (image_of owner high) }
    ensures next { (owner : List ℕ) (m : Journal) (entry : Entry) →
        bodies_of owner (m ++ entry ∷ []) ≡ bodies_of owner m
        ++ entry_body (all_keys owner (m ++ entry ∷ [])) (stand_after nothing m) entry ∷ [] }
{}

/// Law: the key of a serial stays, whatever follows.
pub fn keys_stay()
    ensures { (owner : List ℕ) (m more : Journal) (key : KeyParts) → In key (all_keys owner m) →
        key_bytes owner (m ++ more) key.serial ≡ key_bytes owner m key.serial }
{}

/// Law: in a valid journal a serial finds the very key that was drawn for it: no two keys have one.
pub fn serials_find_their_keys()
    ensures { (owner : List ℕ) (m : Journal) → IsValid m → (key : KeyParts) → In key (all_keys owner m)
        → key_bytes owner m key.serial ≡ key.bytes }
{}

/// Law: the owner recovers from bytes the batches of the journal that they stand for, and a journal's batches have the
/// sizes of the format.
pub fn standing_bytes_tell_their_journal()
    ensures recovered { (owner : List ℕ) (m : Journal) (bytes : List ℕ) → StandsForJournal owner m bytes
        → recovered owner bytes ≡ batches_of owner m }
    ensures sizes { (owner : List ℕ) (m : Journal) → IsValid m → AreWhole owner m → All HasSizes (batches_of owner m) }
{}

/// Law: bytes that stand for a journal as a whole publish all of it, and their last slot is honest.
pub fn whole_journal_is_published()
    ensures published { (owner : List ℕ) (m : Journal) (bytes : List ℕ) → StandsWholeForJournal owner m bytes
        → published_journal owner bytes m ≡ m }
    ensures honest { (owner : List ℕ) (m : Journal) (bytes : List ℕ) → StandsWholeForJournal owner m bytes → IsHonestFor owner bytes m }
{}
