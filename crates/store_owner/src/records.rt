//! Keys, links and contents that a ring makes in turn, each with the counter's next serial.
ghost use Rattle.std.specs.Prelude.{◌≡◌, ◌≢◌, ◌+◌, ◌<◌, ◌≤◌, [], ◌∷◌, ◌++◌, All, Some, cond, length, map};
ghost use Rattle.chacha_seal.specs.Serials.{serial_of};
ghost use Rattle.cry_base.specs.Sets.{In};
ghost use Rattle.cry_base.specs.declared.roles.Role.{Role as AnyRole};
ghost use Rattle.cry_base.specs.declared.roles.Role.TheVariants.{Owner};
ghost use Rattle.key_links.specs.Ringed.{key_of};
ghost use Rattle.record_format.specs.Plain.{plain_content};
ghost use Rattle.record_format.specs.Spellable.{IsContent, IsLink, longest_text, shortest_text};
ghost use Rattle.role_graph.specs.Roles.{same_role};
ghost use Rattle.public_fold.specs.Records.{Link};
ghost use Rattle.public_fold.specs.declared.heads.ContentHead.{ContentHead as AnyHead};
ghost use Rattle.journal_bytes.specs.Ringing.{IsHeld, IsSealed, content_by, contents_by, key_after, key_for, link_by, links_by};

use chacha_seal::Counter;
use cry_base::{List, Role, Text};
use key_links::{AnyFresh, KeyRing};
use public_fold::{ContentHead, KeyHead, LinkHead};
use record_format::{ContentRecord, LinkRecord};

/// Gives each role a key of the bytes that were drawn for it.
pub(crate) fn give_keys(
    ring: &mut KeyRing,
    counter: &mut Counter,
    heads: &[KeyHead],
    drawn: &[[u8; 32]],
)
    requires drawn { length drawn.now ≡ length heads.now }
    requires room { length heads.now ≤ ring.old.spare }
    requires no_owner { (key : _) → In key heads.now → key.0 ≢ Owner }
    requires serials { counter.old.count + length heads.now < 4294967296 }
    ensures keys { (r : AnyRole) → key_of ring.new r
        ≡ key_after (key_of ring.old r) (serial_of counter.old.epoch counter.old.count) heads.now drawn.now r }
    ensures counter { counter.new ≡ record { epoch = counter.old.epoch; count = counter.old.count + length heads.now } }
{
    for i in 0..heads.len() {
        let head = &heads[i];
        give_key(ring, counter, head.role, drawn[i]);
    }
}

/// Gives the role a key of these bytes.
fn give_key(ring: &mut KeyRing, counter: &mut Counter, role: Role, bytes: [u8; 32])
    requires no_owner { role ≢ Owner }
    requires room { 1 ≤ ring.old.spare }
    requires serial { counter.old.count < 4294967295 }
    ensures keys { (r : AnyRole) → key_of ring.new r
        ≡ cond (same_role role r) (Some (key_for role (serial_of counter.old.epoch counter.old.count) bytes)) (key_of ring.old r) }
    ensures spare { ring.old.spare ≤ ring.new.spare + 1 }
    ensures counter { counter.new ≡ record { epoch = counter.old.epoch; count = counter.old.count + 1 } }
{
    ring.renew(AnyFresh::from_draw(role, counter.next(), bytes));
}

/// Adds a link for each head. The serials are those that the heads have where they follow the counter.
pub(crate) fn put_links(
    ring: &KeyRing,
    counter: &mut Counter,
    heads: &[LinkHead],
    links: &mut List<LinkRecord>,
)
    requires held { (l : Link) → In l heads.now → IsHeld ring.now l }
    requires room { length heads.now ≤ links.old.spare }
    requires serials { counter.old.count + length heads.now < 4294967296 }
    requires spelled { All IsLink links.old.items }
    ensures links { links.new.items ≡ links.old.items ++ links_by ring.now (serial_of counter.old.epoch counter.old.count) heads.now }
    ensures spelled { All IsLink links.new.items }
    ensures counter { counter.new ≡ record { epoch = counter.old.epoch; count = counter.old.count + length heads.now } }
{
    for head in heads {
        let link = seal_link(ring, counter, head);
        put_link(link, links);
    }
}

/// The link of this head.
#[tactic(auto, unfolding(role_graph::specs::Tabled::row_of, journal_bytes::specs::Ringing::held_key))]
fn seal_link(ring: &KeyRing, counter: &mut Counter, head: &LinkHead) -> LinkRecord
    requires held { IsHeld ring.now head.now }
    requires serial { counter.old.count < 4294967295 }
    ensures link { result ≡ link_by ring.now (serial_of counter.old.epoch counter.old.count) head.now }
    ensures from_one { 1 ≤ result.kind }
    ensures to_eleven { result.kind ≤ 11 }
    ensures counter { counter.new ≡ record { epoch = counter.old.epoch; count = counter.old.count + 1 } }
{
    ring.publish(&head.edge, counter.next())
}

/// Adds the link at the end.
fn put_link(link: LinkRecord, links: &mut List<LinkRecord>)
    requires from_one { 1 ≤ link.kind }
    requires to_eleven { link.kind ≤ 11 }
    requires room { 1 ≤ links.old.spare }
    requires spelled { All IsLink links.old.items }
    ensures links { links.new.items ≡ links.old.items ++ link ∷ [] }
    ensures spare { links.old.spare ≤ links.new.spare + 1 }
    ensures spelled { All IsLink links.new.items }
{
    links.put(link);
}

/// Adds the one content that there is, or none.
pub(crate) fn put_contents(
    ring: &KeyRing,
    counter: &mut Counter,
    heads: &[ContentHead],
    text: Text,
    contents: &mut List<ContentRecord>,
)
    requires one { length heads.now ≤ 1 }
    requires sealed { (h : AnyHead) → In h heads.now → IsSealed ring.now text.items h }
    requires serials { counter.old.count + length heads.now < 4294967296 }
    requires room { length heads.now ≤ contents.old.spare }
    requires empty { contents.old.items ≡ [] }
    ensures contents { map plain_content contents.new.items
        ≡ contents_by ring.now (serial_of counter.old.epoch counter.old.count) text.items heads.now }
    ensures spelled { All IsContent (map plain_content contents.new.items) }
    ensures counter { counter.new ≡ record { epoch = counter.old.epoch; count = counter.old.count + length heads.now } }
{
    if let Some(head) = heads.first() {
        put_text(ring, counter, *head, text, contents);
    }
}

/// Adds a content of this head and text at the end.
fn put_text(
    ring: &KeyRing,
    counter: &mut Counter,
    head: ContentHead,
    text: Text,
    contents: &mut List<ContentRecord>,
)
    requires sealed { IsSealed ring.now text.items head }
    requires serial { counter.old.count < 4294967295 }
    requires room { 1 ≤ contents.old.spare }
    requires empty { contents.old.items ≡ [] }
    ensures content { map plain_content contents.new.items
        ≡ content_by ring.now (serial_of counter.old.epoch counter.old.count) head text.items ∷ [] }
    ensures spelled { All IsContent (map plain_content contents.new.items) }
    ensures counter { counter.new ≡ record { epoch = counter.old.epoch; count = counter.old.count + 1 } }
{
    let content = ring.seal(head.kind, head.object, counter.next(), text);
    put_content(content, contents);
}

/// Adds the content at the end.
fn put_content(content: ContentRecord, contents: &mut List<ContentRecord>)
    requires from_one { 1 ≤ content.kind }
    requires to_three { content.kind ≤ 3 }
    requires shortest { shortest_text content.kind ≤ length content.cipher.items }
    requires longest { length content.cipher.items ≤ longest_text content.kind }
    requires room { 1 ≤ contents.old.spare }
    requires empty { contents.old.items ≡ [] }
    ensures contents { contents.new.items ≡ content ∷ [] }
    ensures spelled { IsContent (plain_content content) }
{
    contents.put(content);
}
