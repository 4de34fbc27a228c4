//! Laws of right keys and forged records.
ghost use Rattle.std.specs.Prelude.{◌≡◌, ◌↔◌, ℕ, List, ◌++◌, Some};
ghost use Rattle.chacha_seal.specs.Keys.{KeyParts};
ghost use Rattle.closure_laws.specs.History.{Derives, history, own_serial};
ghost use Rattle.closure_laws.specs.Seen.{IsSeen, Sight};
ghost use Rattle.cry_base.specs.Sets.{In};
ghost use Rattle.cry_base.specs.declared.client.Bundle.{Bundle};
ghost use Rattle.log_visits.specs.Asking.{ToAudit, verdict};
ghost use Rattle.log_visits.specs.Judging.{Failure};
ghost use Rattle.key_links.specs.Sealed.{sealed_content, sealed_link};
ghost use Rattle.public_fold.specs.Journal.{Journal};
ghost use Rattle.public_fold.specs.Valid.{IsValid};
ghost use Rattle.role_graph.specs.Rights.{Who};
ghost use Rattle.record_format.specs.declared.link.LinkRecord.{LinkRecord};
ghost use Rattle.journal_bytes.specs.Journals.{StandsWholeForJournal};
ghost use Rattle.journal_bytes.specs.Keys.{AreWhole, key_bytes};
ghost use Rattle.journal_bytes.specs.Opening.{reading_of};
ghost use Rattle.trail_audit.specs.Auditing.{MayFail, MayPass, bundle_key, links_read};
ghost use Rattle.trail_audit.specs.Derived.{IsAudit, PlainSeen, seen_of_sight};
ghost use Rattle.trail_audit.specs.Forged.{IsForged, records_of};
ghost use Rattle.trail_audit.specs.Records.{IsTagged, PlainRecord, records_in, sealing_serial};
ghost use Rattle.trail_audit.specs.Records.PlainRecord.{AContent};
ghost use Rattle.trail_audit.specs.Right.{IsRight, LeadsOn, target_of};

/// Law: more links take no right key away, and from a right key nothing is right that isn't right from the bundle's.
pub fn right_keys_grow()
    ensures links { (links more : List LinkRecord) (bundle key : KeyParts) → IsRight links bundle key → IsRight (links ++ more) bundle key }
    ensures onward { (links : List LinkRecord) (bundle key further : KeyParts) → IsRight links bundle key → IsRight links key further
        → IsRight links bundle further }
{}

/// Law: a sealed link leads on from its source to its target, and a sealed text has the right tag under its key.
pub fn sealed_records_lead_on()
    ensures link { (kind : ℕ) (from to : KeyParts) (nonce : ℕ) → LeadsOn from (sealed_link kind from to nonce) }
    ensures target { (kind : ℕ) (from to : KeyParts) (nonce : ℕ) → target_of from (sealed_link kind from to nonce) ≡ to }
    ensures content { (kind : ℕ) (key : KeyParts) (object nonce : ℕ) (text : List ℕ)
        → IsTagged key.bytes (AContent (sealed_content kind key object nonce text)) }
{}

/// Law: a record that the journal published isn't forged under the key that it was sealed with.
pub fn own_records_are_not_forged()
    ensures { (owner : List ℕ) (m : Journal) (bytes : List ℕ) (r : PlainRecord) (forged : IsForged owner m bytes r) →
        In r (records_of owner m) → key_bytes owner m (sealing_serial r) ≡ forged.key.bytes → ⊥ }
{}

/// Law: the records that stand in the whole image of a journal are those that it published.
pub fn whole_image_has_the_own_records()
    ensures { (owner : List ℕ) (m : Journal) (bytes : List ℕ) → StandsWholeForJournal owner m bytes →
        records_in bytes ≡ records_of owner m }
{}

/// Law: an audit fails as its reading does, and then with no other answer; one that may pass may not fail.
pub fn audits_fail_or_pass()
    ensures reading { (bundle : Bundle) (bytes : List ℕ) (failure : Failure) → verdict (ToAudit bundle) bytes ≡ Some failure →
        (other : Failure) → MayFail bundle bytes other ↔ (other ≡ failure) }
    ensures pass { (bundle : Bundle) (bytes : List ℕ) (failure : Failure) → MayPass bundle bytes → MayFail bundle bytes failure → ⊥ }
{}

/// Law: in the log of a valid journal right links lead from one of its keys to keys of the journal alone: to such whose serials its
/// history derives, with the bytes that were drawn for them.
pub fn right_keys_are_derived()
    ensures { (owner : List ℕ) (m : Journal) → IsValid m → AreWhole owner m → (own key : KeyParts)
        → own.bytes ≡ key_bytes owner m own.serial →
        IsRight (links_read (reading_of owner m)) own key → Derives (history m) own.serial key.serial
        × (key.bytes ≡ key_bytes owner m key.serial) }
{}

/// Law: what an audit of a valid journal's log shows to whoever looks is what the history derives from the own key: a name or a file
/// of one of its batches, and no holder's key.
pub fn audits_show_what_is_derived()
    ensures { (owner : List ℕ) (m : Journal) → IsValid m → AreWhole owner m → (who : Who) (bundle : Bundle) (answer : List PlainSeen) →
        own_serial m who ≡ Some (bundle_key bundle (reading_of owner m)).serial →
        (bundle_key bundle (reading_of owner m)).bytes ≡ key_bytes owner m (bundle_key bundle (reading_of owner m)).serial →
        IsAudit (reading_of owner m) bundle answer → (s : PlainSeen) → In s answer → (x : Sight) × IsSeen m who x × (s ≡ seen_of_sight x) }
{}
