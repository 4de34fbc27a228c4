//! Laws of the spelling, for whoever reasons about bytes that were written or will be read.
ghost use Rattle.std.specs.Prelude.{◌≡◌, ◌+◌, ℕ, List, length};
ghost use Rattle.index_format.specs.Laws.{HasItsSize, IsPrefixFree, ReadsBack};
ghost use Rattle.index_format.specs.Reading.{body_at, head_at, state_at};
ghost use Rattle.index_format.specs.Sizes.{body_size, state_size};
ghost use Rattle.index_format.specs.Spelling.{spell_body, spell_front, spell_head, spell_state};
ghost use Rattle.index_format.specs.Writable.{IsHead, IsWritable, IsWritableBody};

/// Law: what is spelled is read, and what stands behind is left.
pub fn spellings_read_back()
    ensures state { ReadsBack state_at spell_state IsWritable }
    ensures body { ReadsBack body_at spell_body IsWritableBody }
    ensures head { ReadsBack head_at spell_head IsHead }
{}

/// Law: no spelling is a proper prefix of another of its sort.
pub fn spellings_are_prefix_free()
    ensures state { IsPrefixFree spell_state IsWritable }
    ensures body { IsPrefixFree spell_body IsWritableBody }
    ensures head { IsPrefixFree spell_head IsHead }
{}

/// Law: a spelling has as many bytes as its parts add up to.
pub fn spellings_have_their_sizes()
    ensures state { HasItsSize state_size spell_state IsWritable }
    ensures body { HasItsSize body_size spell_body IsWritableBody }
    ensures head { HasItsSize (λ head. 49) spell_head IsHead }
    ensures front { (batch : ℕ) (tag body : List ℕ) → length tag ≡ 32 → length (spell_front batch tag body) ≡ 49 + length body }
{}
