//! Laws of sealed records, for whoever counts the bytes of a store or reads them.
ghost use Rattle.std.specs.Prelude.{◌≡◌, ◌≢◌, ◌+◌, ◌<◌, ◌≤◌, ◌^◌, ℕ, List, Some, length};
ghost use Rattle.chacha_seal.specs.Keys.{KeyParts};
ghost use Rattle.chacha_seal.specs.Sealing.{sealed};
ghost use Rattle.cry_base.specs.declared.roles.Role.{Role};
ghost use Rattle.cry_base.specs.declared.roles.Role.TheVariants.{Owner};
ghost use Rattle.record_format.specs.Spellable.{IsContent, IsLink, longest_text, shortest_text};
ghost use Rattle.record_format.specs.Spelling.{spell_content, spell_link};
ghost use Rattle.key_links.specs.Drawn.{number_of};
ghost use Rattle.key_links.specs.Ringed.{Ringed, key_of};
ghost use Rattle.key_links.specs.Sealed.{sealed_content, sealed_link};

/// Law: a sealed key of 32 bytes has 98 bytes, and a sealed text 58 more than it had.
pub fn sealed_records_have_their_sizes()
    ensures link { (kind : ℕ) (from to : KeyParts) (nonce : ℕ) →
        length to.bytes ≡ 32 → length (spell_link (sealed_link kind from to nonce)) ≡ 98 }
    ensures content { (kind : ℕ) (key : KeyParts) (object nonce : ℕ) (text : List ℕ) →
        length (spell_content (sealed_content kind key object nonce text)) ≡ 58 + length text }
{}

/// Law: what was sealed is opened with the key that it was sealed under.
pub fn sealed_records_open()
    ensures link { (kind : ℕ) (from to : KeyParts) (nonce : ℕ) →
        sealed from.bytes nonce (sealed_link kind from to nonce).cipher ≡ to.bytes }
    ensures content { (kind : ℕ) (key : KeyParts) (object nonce : ℕ) (text : List ℕ) →
        sealed key.bytes nonce (sealed_content kind key object nonce text).cipher ≡ text }
{}

/// Law: a sealed record has a spelling, where its kind, numbers and text are of the format's sizes.
pub fn sealed_records_are_spellable()
    ensures link { (kind : ℕ) (from to : KeyParts) (nonce : ℕ) →
        1 ≤ kind → kind ≤ 11 → from.id < 2 ^ 32 → to.id < 2 ^ 32 → from.serial < 2 ^ 64 → to.serial < 2 ^ 64 → nonce < 2 ^ 64 →
        length to.bytes ≡ 32 → IsLink (sealed_link kind from to nonce) }
    ensures content { (kind : ℕ) (key : KeyParts) (object nonce : ℕ) (text : List ℕ) →
        1 ≤ kind → kind ≤ 3 → object < 2 ^ 32 → key.serial < 2 ^ 64 → nonce < 2 ^ 64 →
        shortest_text kind ≤ length text → length text ≤ longest_text kind → IsContent (sealed_content kind key object nonce text) }
{}

/// Law: the key that a ring has for a holder, a folder or a file has its number.
pub fn keys_of_a_ring_have_their_numbers()
    ensures { (ring : Ringed) (role : Role) (key : KeyParts) → role ≢ Owner → key_of ring role ≡ Some key → key.id ≡ number_of role }
{}
