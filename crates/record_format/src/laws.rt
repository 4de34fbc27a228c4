//! Laws of the spelling, for whoever reasons about bytes that were written or will be read.
ghost use Rattle.record_format.specs.Laws.{HasItsSize, IsPrefixFree, ReadsBack};

/// Law: what `write_payload` and `put_payload` add is read back as what was written.
pub fn spelling_reads_back()
    ensures { ReadsBack }
{}

/// Law: a payload's spelling has as many bytes as its parts add up to.
pub fn spelling_has_its_size()
    ensures { HasItsSize }
{}

/// Law: no payload's spelling is a proper prefix of another's.
pub fn spelling_is_prefix_free()
    ensures { IsPrefixFree }
{}
