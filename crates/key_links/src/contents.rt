//! Contents: texts sealed under keys (docs/FORMAT.md, "Records").
ghost use Rattle.std.specs.Prelude.{◌≡◌, ◌↔◌, ◌<◌, ◌≤◌, ◌^◌, ℕ, List, IsOk, OnErr, OnOk, length};
ghost use Rattle.key_links.specs.Opened.{IsAuthenticContent, text_of, with_text};
ghost use Rattle.key_links.specs.Sealed.{sealed_content};
ghost use Rattle.record_format.specs.Plain.{plain_content};
ghost use Rattle.record_format.specs.Spellable.{longest_text, shortest_text};

use chacha_seal::{BadTag, Key, Nonce, open_in_place, seal_in_place};
use cry_base::Text;
use kind_table::Seals;
use record_format::{ContentRecord, content_header};

/// The text of an object, which is a folder, file or holder, sealed under its key. It spends the
/// nonce.
pub fn seal_content<A: Seals>(key: &Key<A>, object: u32, nonce: Nonce, text: Text) -> ContentRecord
    requires shortest { shortest_text A.CONTENT ≤ length text.items }
    requires longest { length text.items ≤ longest_text A.CONTENT }
    ensures { plain_content result ≡ sealed_content A.CONTENT key.now object nonce text.items }
{
    let mut content = ContentRecord {
        kind: A::CONTENT,
        object,
        key_serial: key.serial(),
        nonce: nonce.serial().0,
        cipher: text,
        tag: [0; 32],
    };
    let header = content_header(&content);
    content.tag = seal_in_place(key, nonce, &header, content.cipher.as_mut_slice());
    content
}

/// Makes the content's cipher bytes its text. `BadTag` comes exactly where its tag isn't the one
/// that the key makes of its header and cipher bytes; the content is then as it was.
pub fn open_content<A: Seals>(key: &Key<A>, content: &mut ContentRecord) -> Result<(), BadTag>
    requires kind { content.old.kind ≡ A.CONTENT }
    requires size { length content.old.cipher.items < 2 ^ 32 }
    ensures authentic { IsOk result ↔ IsAuthenticContent key.now (plain_content content.old) }
    ensures opened { OnOk result (content.new ≡ with_text content.old (text_of key.now (plain_content content.old))) }
    ensures opens { (object nonce : ℕ) (text : List ℕ) → plain_content content.old ≡ sealed_content A.CONTENT key.now object nonce text
        → IsOk result × (content.new.cipher.items ≡ text) }
    ensures bad_tag { OnErr result (content.new ≡ content.old) }
{
    let header = content_header(content);
    open_in_place(
        key,
        content.nonce,
        &header,
        content.cipher.as_mut_slice(),
        &content.tag,
    )
}
