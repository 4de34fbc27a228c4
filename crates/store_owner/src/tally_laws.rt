//! Laws of what an owner counts: the figures of its journal.
ghost use Rattle.std.specs.Prelude.{◌≡◌, ℕ, List, None};
ghost use Rattle.public_fold.specs.Journal.{Journal, keys_of, store_of};
ghost use Rattle.public_fold.specs.KeyStep.{is_strict};
ghost use Rattle.store_owner.specs.Deeds.{Deed, deed_refusal, deed_then};
ghost use Rattle.store_owner.specs.Counted.{root_counted};
ghost use Rattle.store_owner.specs.Making.{made_with};
ghost use Rattle.store_owner.specs.Owned.{IsOwnerOf, OwnerView};
ghost use Rattle.store_owner.specs.Tallied.{CountsOne, counted_in, tally_in, tally_of};

/// Law: what an owner counted who made a store is what the store's journal has; one who counted all of a journal counts all of it with
/// a command that is accepted there, whatever keys it draws; and this owner's figures are those of the journal.
pub fn tallies_are_those_of_journals()
    ensures made { (keys : List (List ℕ)) → counted_in (made_with keys) ≡ root_counted }
    ensures command { (m : Journal) (d : Deed) (drawn : List (List ℕ)) (old new : OwnerView) → IsOwnerOf m old
        → deed_refusal (is_strict (keys_of m)) (store_of m) d old.file_bytes ≡ None → CountsOne d old new
        → old.tally ≡ counted_in m → new.tally ≡ counted_in (deed_then m old.journal.has_epoch d drawn) }
    ensures tally { (m : Journal) (o : OwnerView) → IsOwnerOf m o → o.tally ≡ counted_in m → tally_in o ≡ tally_of m }
{}
