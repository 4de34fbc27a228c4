//! Links: keys sealed under keys (docs/FORMAT.md, "Records").
ghost use Rattle.std.specs.Prelude.{◌≡◌, ◌↔◌, ℕ, IfOk, IsOk, Ok};
ghost use Rattle.chacha_seal.specs.Keys.{KeyParts};
ghost use Rattle.cry_base.specs.Sets.{In};
ghost use Rattle.key_links.specs.Opened.{IsAuthenticLink, StartsAt, target_of};
ghost use Rattle.key_links.specs.Sealed.{sealed_link};
ghost use Rattle.kind_table.specs.Rows.{kinds_row};
ghost use Rattle.kind_table.specs.declared.eleven.TheConstants.{ELEVEN};

use chacha_seal::{BadTag, Key, Nonce, open_key, seal_in_place};
use kind_table::{KeyKind, LinksTo};
use record_format::{LinkRecord, link_header};

/// The key `to`, sealed under the key `from`. Their kinds are one of the eleven pairs. It spends the
/// nonce.
pub fn link<A: LinksTo<B>, B: KeyKind>(from: &Key<A>, to: &Key<B>, nonce: Nonce) -> LinkRecord
    ensures sealed { result ≡ sealed_link A.NUMBER from.now to.now nonce }
    ensures row { In (kinds_row result.kind A.kind B.kind) ELEVEN.rows }
{
    let mut link = LinkRecord {
        kind: A::NUMBER,
        from_id: from.id(),
        to_id: to.id(),
        from_serial: from.serial(),
        to_serial: to.serial(),
        nonce: nonce.serial().0,
        cipher: *to.bytes(),
        tag: [0; 32],
    };
    let header = link_header(&link);
    link.tag = seal_in_place(from, nonce, &header, &mut link.cipher);
    link
}

/// The key that a link leads to. `BadTag` comes exactly where the link's tag isn't the one that
/// `from` makes of its header and cipher bytes.
pub fn follow<A: LinksTo<B>, B: KeyKind>(from: &Key<A>, link: &LinkRecord) -> Result<Key<B>, BadTag>
    requires { StartsAt A.NUMBER from.now link.now }
    ensures authentic { IsOk result ↔ IsAuthenticLink from.now link.now }
    ensures target { IfOk result (λ key. key ≡ target_of from.now link.now) }
    ensures opens { (to : KeyParts) (nonce : ℕ) → link.now ≡ sealed_link A.NUMBER from.now to nonce → result ≡ Ok to }
{
    let header = link_header(link);
    open_key(
        from,
        link.nonce,
        &header,
        link.cipher,
        &link.tag,
        link.to_id,
        link.to_serial,
    )
}
