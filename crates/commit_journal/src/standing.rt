//! Laws of bytes that stand for batches.
ghost use Rattle.std.specs.Prelude.{◌≡◌, ◌≢◌, ◌≤◌, ◌+◌, ℕ, All, List, [], ◌∷◌, ◌++◌, length, map, true, Ok};
ghost use Rattle.std.specs.List.{sum_by};
ghost use Rattle.cry_base.specs.Layout.{batch_len, first_gate_offset, header_len};
ghost use Rattle.cry_base.specs.Limits.{most_store_bytes};
ghost use Rattle.commit_journal.specs.Gates.{gated, recovered, slot_payload};
ghost use Rattle.commit_journal.specs.Image.{Batch, batch_veil, image, spell_batch, spell_batches};
ghost use Rattle.commit_journal.specs.Laws.{AreBodies, batches_from, placed_from};
ghost use Rattle.commit_journal.specs.Log.{log_verdict};
ghost use Rattle.commit_journal.specs.Placed.{PlainBody};
ghost use Rattle.commit_journal.specs.Publishing.{IsHonest, is_last_published, last_slot, published_of};
ghost use Rattle.commit_journal.specs.Standing.{HasSizes, StandsFor, StandsWhole, last_tag, slotted_image};

/// Law: an image has 41 bytes, and 110 more than its payload for each batch.
pub fn image_has_its_length()
    ensures { (owner : List ℕ) (bs : List Batch) → length (image owner bs)
        ≡ first_gate_offset + sum_by (λ b. batch_len + length b.payload) bs }
{}

/// Law: the image of more batches begins with that of the first ones, and the others follow the last owner tag. The last
/// batch alone has a slot that may hold other bytes.
pub fn image_of_a_prefix()
    ensures front { (owner : List ℕ) (bs more : List Batch)
        → image owner (bs ++ more) ≡ image owner bs ++ spell_batches owner (last_tag owner bs) more }
    ensures slotted { (owner slot : List ℕ) (bs : List Batch) (b : Batch) →
        slotted_image owner slot (bs ++ b ∷ []) ≡ image owner bs ++ 1 ∷ spell_batch owner (last_tag owner bs) slot b }
{}

/// Law: a whole image behind which a gate is closed stands for its batches.
pub fn whole_image_stands_for_its_batches()
    ensures { (owner : List ℕ) (bs : List Batch) (bytes : List ℕ) → StandsWhole owner bs bytes → StandsFor owner bs bytes }
{}

/// Law: the owner recovers from bytes the batches that they stand for, and finds the last slot; so bytes stand for one list
/// of batches alone.
pub fn standing_bytes_tell_their_batches()
    ensures batches { (owner : List ℕ) (bs : List Batch) (bytes : List ℕ) → StandsFor owner bs bytes → All HasSizes bs
        → recovered owner bytes ≡ bs }
    ensures slot { (owner : List ℕ) (b : Batch) (bs : List Batch) (bytes : List ℕ) (stands : StandsFor owner (b ∷ bs) bytes) →
        All HasSizes (b ∷ bs) → last_slot bytes ≡ stands.slot }
    ensures one { (owner : List ℕ) (bs others : List Batch) (bytes : List ℕ) → StandsFor owner bs bytes → StandsFor owner others bytes →
        All HasSizes bs → All HasSizes others → bs ≡ others }
{}

/// Law: bytes that stand for batches are read as those that are published, if the last slot is honest: as all of them, or
/// all but the last.
pub fn standing_bytes_are_read_as_published()
    ensures { (owner : List ℕ) (bodies : List PlainBody) (bytes : List ℕ) (stands : StandsFor owner (batches_from 0 0 bodies) bytes)
        → AreBodies 0 bodies →
        header_len + sum_by (λ (b : Batch). batch_len + length b.payload) (batches_from 0 0 bodies) ≤ most_store_bytes
        → IsHonest owner stands.slot (batches_from 0 0 bodies) →
        log_verdict owner bytes ≡ Ok (placed_from header_len 0 0 (published_of owner stands.slot (batches_from 0 0 bodies) bodies)) }
{}

/// Law: a whole image is published to the last batch, its last slot is honest, and each slot unmasks the payload of its batch.
pub fn whole_image_is_published()
    ensures published { (owner : List ℕ) (bs : List Batch) (bytes : List ℕ) → StandsWhole owner bs bytes → All HasSizes bs
        → is_last_published owner (last_slot bytes) bs ≡ true }
    ensures honest { (owner : List ℕ) (bs : List Batch) (bytes : List ℕ) → StandsWhole owner bs bytes → All HasSizes bs
        → IsHonest owner (last_slot bytes) bs }
    ensures unmasked { (owner : List ℕ) (bs : List Batch) (bytes : List ℕ) → StandsWhole owner bs bytes → All HasSizes bs →
        map slot_payload (gated bytes) ≡ map (λ (b : Batch). b.payload) bs }
{}

/// Law: the steps of a commit. While the gate behind the image is closed, its batches stand, whatever is behind. Once it is
/// open before a spelled batch, that batch stands too, whatever is in its slot; with its veil key there, as a whole.
pub fn steps_of_a_commit()
    ensures staged { (owner : List ℕ) (bs : List Batch) (gate : ℕ) (behind : List ℕ) → gate ≢ 1
        → StandsWhole owner bs (image owner bs ++ gate ∷ behind) }
    ensures opened { (owner slot : List ℕ) (bs : List Batch) (b : Batch) (gate : ℕ) (behind : List ℕ) → length slot ≡ 32 → gate ≢ 1 →
        StandsFor owner (bs ++ b ∷ []) (image owner bs ++ 1 ∷ (spell_batch owner (last_tag owner bs) slot b ++ gate ∷ behind)) }
    ensures unveiled { (owner : List ℕ) (bs : List Batch) (b : Batch) (gate : ℕ) (behind : List ℕ) → gate ≢ 1 →
        StandsWhole owner (bs ++ b ∷ []) (image owner bs ++ 1
        ∷ (spell_batch owner (last_tag owner bs) (batch_veil owner b) b ++ gate ∷ behind)) }
{}
