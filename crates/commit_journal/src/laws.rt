//! Laws of the log, for whoever reasons about images that were written or will be read.
ghost use Rattle.commit_journal.specs.Laws.{IsBlindBehind, IsReadBack, RecordsStand};

/// Law: the image of published batches, with a closed gate behind it, is read as these batches, whatever follows.
pub fn image_is_read_back()
    ensures { IsReadBack }
{}

/// Law: an image that is read as a log is read as the same log with more bytes behind it.
pub fn nothing_behind_is_looked_at()
    ensures { IsBlindBehind }
{}

/// Law: a record's bytes stand where `link_place` and `content_place` say, and the next record's follow.
pub fn records_stand_at_their_places()
    ensures { RecordsStand }
{}
