//! Laws of what is shown of a store of which anybody may have written any byte.
ghost use Rattle.std.specs.Prelude.{[], ◌∷◌, ◌≡◌, ◌⊎◌, Err, List, Ok, ℕ};
ghost use Rattle.chacha_seal.specs.Keys.{KeyParts};
ghost use Rattle.chacha_seal.specs.Sealing.{seal_tag};
ghost use Rattle.commit_journal.specs.Answering.{Tampered};
ghost use Rattle.cry_base.specs.Listed.{Listed};
ghost use Rattle.cry_base.specs.Sets.{In};
ghost use Rattle.cry_base.specs.declared.client.Bundle.{Bundle};
ghost use Rattle.cry_base.specs.declared.client.Seen.{Seen};
ghost use Rattle.log_visits.specs.Asking.{line_shown};
ghost use Rattle.log_visits.specs.Judging.{shown_with};
ghost use Rattle.log_visits.specs.Verdict.{open_content, open_link};
ghost use Rattle.log_visits.specs.View.{Line};
ghost use Rattle.journal_bytes.specs.Keys.{AreWhole, all_keys};
ghost use Rattle.public_fold.specs.Journal.{Journal};
ghost use Rattle.public_fold.specs.Valid.{IsValid};
ghost use Rattle.reader_laws.specs.Reading.{IsReaderOf};
ghost use Rattle.record_format.specs.Plain.{PlainContent};
ghost use Rattle.record_format.specs.Spelling.{content_head, link_head};
ghost use Rattle.record_format.specs.declared.link.LinkRecord.{LinkRecord};
ghost use Rattle.trail_audit.specs.Derived.{MayAnswer, plain_seen};
ghost use Rattle.trail_audit.specs.Forged.{IsForged};
ghost use Rattle.trail_audit.specs.Records.{IsTagged, PlainRecord, records_in};
ghost use Rattle.forgery_laws.specs.Written.{AreBytes, AreWrittenLines, HasForged, HasKeyOf, IsPublishedUnder, IsWrittenSeen};

/// Law: the owner of a valid journal, and each holder that it made, with the own key, have a key of it.
pub fn readers_have_keys()
    ensures { (owner : List ℕ) (m : Journal) (bundle : Bundle) → IsValid m → AreWhole owner m → IsReaderOf owner m bundle
        → HasKeyOf owner m bundle }
{}

/// Law: whatever bytes a store has, whoever has a key of a valid journal is shown by a view, and at one path, lines in which each
/// name was written by an entry of the journal, for the very folder or file that it is shown for, and a file's bytes with its name;
/// and by an audit names and files that were so written. Or a forged record stands in the bytes.
pub fn changed_stores_show_what_was_written()
    ensures listed { (owner : List ℕ) (m : Journal) (bytes : List ℕ) (bundle : Bundle) (lines : List Line)
        → IsValid m → AreWhole owner m → AreBytes bytes → HasKeyOf owner m bundle → shown_with bundle bytes ≡ Ok lines
        → AreWrittenLines m bundle bytes lines ⊎ HasForged owner m bytes }
    ensures opened { (owner : List ℕ) (m : Journal) (bytes : List ℕ) (bundle : Bundle) (path : List ℕ) (line : Line)
        → IsValid m → AreWhole owner m → AreBytes bytes → HasKeyOf owner m bundle → line_shown bundle path bytes ≡ Ok line
        → AreWrittenLines m bundle bytes (line ∷ []) ⊎ HasForged owner m bytes }
    ensures audited { (owner : List ℕ) (m : Journal) (bytes : List ℕ) (bundle : Bundle) (answer : Listed Seen)
        → IsValid m → AreWhole owner m → AreBytes bytes → HasKeyOf owner m bundle → MayAnswer bundle bytes (Ok answer)
        → ((s : Seen) → In s answer.items → IsWrittenSeen m (plain_seen s)) ⊎ HasForged owner m bytes }
{}

/// Law: a record that stands in the bytes and has a right tag under a key of the journal has the bytes of a record that the journal
/// sealed under that very key's bytes, or it is forged. So whoever has one key can forge what is sealed under it, and a forged record
/// tells of no more.
pub fn tagged_records_are_published_or_forged()
    ensures { (owner : List ℕ) (m : Journal) (bytes : List ℕ) (r : PlainRecord) (key : KeyParts) → In r (records_in bytes)
        → In key (all_keys owner m) → IsTagged key.bytes r → IsPublishedUnder owner m key r ⊎ IsForged owner m bytes r }
{}

/// Law: a link or a content whose header or cipher bytes were changed while its tag stayed is refused at its place, or both have
/// that one tag.
pub fn changed_records_are_refused()
    ensures link { (batch at : ℕ) (key : List ℕ) (old new : LinkRecord)
        → old.tag ≡ seal_tag key (link_head old) old.cipher → new.tag ≡ old.tag
        → (open_link batch at key new ≡ Err (Tampered batch at))
        ⊎ (seal_tag key (link_head new) new.cipher ≡ seal_tag key (link_head old) old.cipher) }
    ensures content { (batch at : ℕ) (key : List ℕ) (old new : PlainContent)
        → old.tag ≡ seal_tag key (content_head old) old.cipher → new.tag ≡ old.tag
        → (open_content batch at key new ≡ Err (Tampered batch at))
        ⊎ (seal_tag key (content_head new) new.cipher ≡ seal_tag key (content_head old) old.cipher) }
{}
