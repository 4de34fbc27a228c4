//! Records that a ring seals and opens.
ghost use Rattle.std.specs.Prelude.{◌≡◌, ◌↔◌, ◌+◌, ◌<◌, ◌≤◌, ◌^◌, ℕ, List, IsOk, IsSome, OnErr, OnOk, Some, length};
ghost use Rattle.chacha_seal.specs.Keys.{KeyParts};
ghost use Rattle.cry_base.specs.Sets.{In};
ghost use Rattle.key_links.specs.Ended.{HasSealing, HasSource};
ghost use Rattle.key_links.specs.Ended as spec;
ghost use Rattle.key_links.specs.Opened.{IsAuthenticContent, IsAuthenticLink, target_of, text_of, with_text};
ghost use Rattle.key_links.specs.Ringed.{IsWithKey, key_of, parts_of, role_of};
ghost use Rattle.key_links.specs.Sealed.{sealed_content, sealed_link};
ghost use Rattle.kind_table.specs.Kinds.{kind_of};
ghost use Rattle.kind_table.specs.Rows.{kinds_row};
ghost use Rattle.kind_table.specs.declared.eleven.TheConstants.{ELEVEN};
ghost use Rattle.record_format.specs.Plain.{plain_content};
ghost use Rattle.record_format.specs.Spellable.{longest_text, shortest_text};

use crate::KeyRing;
use crate::any_key::AnyKey;
use crate::any_links::{follow_any, link_any, open_any, seal_any};
use crate::record_roles::{sealing_role, source_role};
use chacha_seal::{BadTag, Nonce};
use cry_base::{Edge, Role, Text};
use record_format::{ContentRecord, LinkRecord};

impl KeyRing {
    /// The key of the edge's end, sealed under that of its beginning. It spends the nonce.
    pub fn publish(&self, edge: &Edge, nonce: Nonce) -> LinkRecord
        requires fits { In (kinds_row edge.now.kind (kind_of edge.now.from) (kind_of edge.now.to)) ELEVEN.rows }
        requires from { IsSome (key_of self.now edge.now.from) }
        requires to { IsSome (key_of self.now edge.now.to) }
        ensures { (from to : KeyParts) → key_of self.now edge.now.from ≡ Some from → key_of self.now edge.now.to ≡ Some to
            → result ≡ sealed_link edge.now.kind from to nonce }
    {
        let from = self.sealing_key(edge.from);
        link_any(edge.kind, from, self.key(edge.to), nonce)
    }

    /// Opens the link with the key of its source, and keeps its target's key in the place of the one that the ring had.
    /// `BadTag` comes exactly where the link's tag isn't the one that its source's key makes; the ring is then as it
    /// was. Want of memory doesn't end it.
    pub fn open_link(&mut self, link: &LinkRecord) -> Result<(), BadTag>
        requires from_one { 1 ≤ link.now.kind }
        requires to_eleven { link.now.kind ≤ 11 }
        requires source { HasSource self.old link.now }
        requires room { 1 ≤ self.old.spare }
        ensures authentic { (key : KeyParts) → key_of self.old (spec.source_role link.now) ≡ Some key
            → IsOk result ↔ IsAuthenticLink key link.now }
        ensures opened { (key : KeyParts) → key_of self.old (spec.source_role link.now) ≡ Some key
            → OnOk result (IsWithKey self.new self.old (spec.target_role link.now) (target_of key link.now)) }
        ensures opens { (from to : KeyParts) (nonce : ℕ) → key_of self.old (spec.source_role link.now) ≡ Some from
            → link.now ≡ sealed_link link.now.kind from to nonce
            → IsOk result × IsWithKey self.new self.old (spec.target_role link.now) to }
        ensures spare { self.old.spare ≤ self.new.spare + 1 }
        ensures bad_tag { OnErr result (self.new ≡ self.old) }
    {
        let key = follow_any(self.opening_key(source_role(link)), link)?;
        self.keep(key);
        Ok(())
    }

    /// The text of a folder, file or holder, sealed under the ring's key of the role that seals contents of this kind for
    /// it: 1 a folder's name, 2 a file, 3 a holder's key. It spends the nonce. Want of memory doesn't end it.
    pub fn seal(&self, kind: u8, object: u32, nonce: Nonce, text: Text) -> ContentRecord
        requires from_one { 1 ≤ kind }
        requires to_three { kind ≤ 3 }
        requires key { IsSome (key_of self.now (spec.sealing_role kind object)) }
        requires shortest { shortest_text kind ≤ length text.items }
        requires longest { length text.items ≤ longest_text kind }
        ensures { (key : KeyParts) → key_of self.now (spec.sealing_role kind object) ≡ Some key
            → plain_content result ≡ sealed_content kind key object nonce text.items }
    {
        let key = self.sealing_key(sealing_role(kind, object));
        seal_any(kind, key, object, nonce, text)
    }

    /// Makes the content's cipher bytes its text. `BadTag` comes exactly where its tag isn't the one that the ring's key of
    /// its role makes; the content is then as it was. Want of memory doesn't end it.
    pub fn open_text(&self, content: &mut ContentRecord) -> Result<(), BadTag>
        requires from_one { 1 ≤ content.old.kind }
        requires to_three { content.old.kind ≤ 3 }
        requires key { HasSealing self.now content.old }
        requires size { length content.old.cipher.items < 2 ^ 32 }
        ensures authentic { (key : KeyParts) → key_of self.now (spec.sealing_role content.old.kind content.old.object) ≡ Some key
            → IsOk result ↔ IsAuthenticContent key (plain_content content.old) }
        ensures opened { (key : KeyParts) → key_of self.now (spec.sealing_role content.old.kind content.old.object) ≡ Some key
            → OnOk result (content.new ≡ with_text content.old (text_of key (plain_content content.old))) }
        ensures opens { (key : KeyParts) (nonce : ℕ) (text : List ℕ)
            → key_of self.now (spec.sealing_role content.old.kind content.old.object) ≡ Some key
            → plain_content content.old ≡ sealed_content content.old.kind key content.old.object nonce text
            → IsOk result × (content.new ≡ with_text content.old text) }
        ensures bad_tag { OnErr result (content.new ≡ content.old) }
    {
        let key = self.opening_key(sealing_role(content.kind, content.object));
        open_any(key, content)
    }

    // The role's key, to seal with. What it does that with is kept from this use on.
    fn sealing_key(&self, role: Role) -> &AnyKey
        requires { IsSome (key_of self.now role) }
        ensures role { role_of result.now ≡ role }
        ensures parts { key_of self.now role ≡ Some (parts_of result.now) }
    {
        let key = self.key(role);
        key.keep_derived(self.alloc);
        key
    }

    // The role's key, to open with. What it does that with is kept from this use on.
    fn opening_key(&self, role: Role) -> &AnyKey
        requires { IsSome (key_of self.now role) }
        ensures role { role_of result.now ≡ role }
        ensures parts { key_of self.now role ≡ Some (parts_of result.now) }
    {
        let key = self.key(role);
        key.keep_for_opening(self.alloc);
        key
    }

    // The role's key, where the ring has one.
    fn key(&self, role: Role) -> &AnyKey
        requires { IsSome (key_of self.now role) }
        ensures role { role_of result.now ≡ role }
        ensures parts { key_of self.now role ≡ Some (parts_of result.now) }
    {
        match self.find(role) {
            Some(key) => key,
            None => unreachable!(),
        }
    }
}
