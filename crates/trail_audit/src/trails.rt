//! All keys to which right links lead from a bundle's key (docs/FORMAT.md, "Records").
ghost use Rattle.std.specs.Prelude.{◌≡◌, ◌↔◌, ◌++◌, [], ◌∷◌, IfErr, IfOk, IsOk, IsTrue, List as TheList, OnOk};
ghost use Rattle.chacha_seal.specs.Keys.{KeyParts};
ghost use Rattle.chacha_seal.specs.Sealing.{seal_tag, sealed};
ghost use Rattle.cry_base.specs.Sets.{In};
ghost use Rattle.log_visits.specs.Placing.{PlacedLink};
ghost use Rattle.trail_audit.specs.Grouped.{HasGroups, key_source, source_of_link};
ghost use Rattle.trail_audit.specs.Records.{IsTagged};
ghost use Rattle.trail_audit.specs.Records.PlainRecord.{ALink};
ghost use Rattle.trail_audit.specs.Right.{target_of};
ghost use Rattle.trail_audit.specs.Trails.{AreRightKeys, BeginsAt, IsGrown, IsKept, LinkFault, TagFault};

use crate::grouped::{Groups, add_under, group_of};
use crate::placed_records::{LinkAt, Links};
use crate::right_key::{RightKey, begins_at, source_of_key};
use chacha_seal::{BadTag, HolderK, Key, open_in_place};
use cry_base::{List, Mem};
use log_visits::ClientFault;
use record_format::link_header;
use std::alloc::Global;
use std::collections::HashMap;

/// Keys by their numbers and serials, each with what it opens records with, which is derived once.
pub(crate) type Openers = Groups<Key<HolderK>>;

/// All right keys, in the order in which they were found, and again in groups by their numbers and serials.
#[derive(Drop)]
pub(crate) struct KnownKeys {
    pub(crate) keys: List<RightKey>,
    pub(crate) groups: Openers,
}

/// The keys found so far, in the order in which they were found, and again in groups by their numbers and serials.
#[derive(Drop)]
struct FoundKeys {
    keys: List<RightKey>,
    groups: Groups<RightKey>,
}

/// Whether the key stands among the keys, with the same bytes.
fn has_key(keys: &[RightKey], key: &RightKey) -> bool
    ensures { IsTrue result ↔ In key.now keys.now }
{
    for known in keys {
        if known.equals(key) {
            return true;
        }
    }
    false
}

/// Adds a key, where it isn't there, and walks over the keys of its number and serial alone.
fn keep_key(alloc: Global, known: &mut FoundKeys, key: RightKey) -> Mem<()>
    requires grouped { HasGroups key_source known.old.groups known.old.keys.items }
    ensures kept { OnOk result (IsKept key known.old.keys.items known.new.keys.items) }
    ensures grouped { OnOk result (HasGroups key_source known.new.groups known.new.keys.items) }
{
    if has_key(group_of(&known.groups, key.source()), &key) {
        return Ok(());
    }
    add_under(&mut known.groups, alloc, key.source(), key)?;
    known.keys.push(key)?;
    Ok(())
}

/// The bytes of a key that were sealed under another. No key is made of them, since that derives what it opens with.
fn open_bytes(
    from: &Key<HolderK>,
    nonce: u64,
    header: &[u8],
    cipher: [u8; 32],
    tag: &[u8; 32],
) -> Result<[u8; 32], BadTag>
    ensures authentic { IsOk result ↔ (tag.now ≡ seal_tag from.now.bytes header.now cipher) }
    ensures opened { IfOk result (λ bytes. bytes ≡ sealed from.now.bytes nonce cipher) }
{
    let mut bytes = cipher;
    open_in_place(from, nonce, header, &mut bytes, tag)?;
    Ok(bytes)
}

/// The key that a link leads to from the key at which it begins. `Tampered` comes exactly where its tag is wrong.
fn open_link(found: &LinkAt, key: &Key<HolderK>) -> Result<RightKey, ClientFault>
    requires begins { BeginsAt found.now.link key.now }
    ensures tagged { IfOk result (λ _. IsTagged key.now.bytes (ALink found.now.link)) }
    ensures target { IfOk result (λ target. target ≡ target_of key.now found.now.link) }
    ensures fault { IfErr result (TagFault (found.now ∷ []) key.now) }
{
    let link = &found.link;
    let header = link_header(link);
    match open_bytes(key, link.nonce, &header, link.cipher, &link.tag) {
        Ok(bytes) => Ok(RightKey {
            id: link.to_id,
            serial: link.to_serial,
            bytes,
        }),
        Err(BadTag) => Err(ClientFault::Tampered {
            batch: found.batch,
            at: found.at,
        }),
    }
}

/// Follows a link from a key, where it begins there.
fn follow_link(
    alloc: Global,
    found: &LinkAt,
    key: &Key<HolderK>,
    known: &mut FoundKeys,
) -> Result<(), ClientFault>
    requires grouped { HasGroups key_source known.old.groups known.old.keys.items }
    ensures grown { OnOk result (IsGrown (found.now ∷ []) key.now known.old.keys.items known.new.keys.items) }
    ensures grouped { OnOk result (HasGroups key_source known.new.groups known.new.keys.items) }
    ensures fault { IfErr result (TagFault (found.now ∷ []) key.now) }
{
    if !begins_at(&found.link, key) {
        return Ok(());
    }
    key.keep_derived(alloc);
    let target = open_link(found, key)?;
    keep_key(alloc, known, target)?;
    Ok(())
}

/// Follows each of the links that begins at a key.
fn follow_links(
    alloc: Global,
    links: &[LinkAt],
    key: &Key<HolderK>,
    known: &mut FoundKeys,
) -> Result<(), ClientFault>
    requires grouped { HasGroups key_source known.old.groups known.old.keys.items }
    ensures grown { OnOk result (IsGrown links.now key.now known.old.keys.items known.new.keys.items) }
    ensures grouped { OnOk result (HasGroups key_source known.new.groups known.new.keys.items) }
    ensures fault { IfErr result (TagFault links.now key.now) }
{
    for found in links {
        follow_link(alloc, found, key, known)?;
    }
    Ok(())
}

/// Follows each link that begins at a key, and walks over no other.
fn follow_from(
    alloc: Global,
    groups: &Links,
    key: &Key<HolderK>,
    known: &mut FoundKeys,
) -> Result<(), ClientFault>
    requires grouped { HasGroups key_source known.old.groups known.old.keys.items }
    ensures grown { OnOk result ((links : TheList PlacedLink) → HasGroups source_of_link groups.now links →
        IsGrown links key.now known.old.keys.items known.new.keys.items) }
    ensures grouped { OnOk result (HasGroups key_source known.new.groups known.new.keys.items) }
    ensures fault { IfErr result (λ fault. (links : TheList PlacedLink) → HasGroups source_of_link groups.now links →
        TagFault links key.now fault) }
{
    follow_links(alloc, group_of(groups, source_of_key(key)), key, known)
}

/// Follows each link that begins at a key, and keeps the key with what it opens with.
fn use_key(
    alloc: Global,
    groups: &Links,
    key: &RightKey,
    known: &mut FoundKeys,
    openers: &mut Openers,
) -> Result<(), ClientFault>
    requires grouped { HasGroups key_source known.old.groups known.old.keys.items }
    ensures grown { OnOk result ((links : TheList PlacedLink) → HasGroups source_of_link groups.now links →
        IsGrown links key.now known.old.keys.items known.new.keys.items) }
    ensures grouped { OnOk result (HasGroups key_source known.new.groups known.new.keys.items) }
    ensures openers { OnOk result ((keys : TheList KeyParts) → HasGroups key_source openers.old keys
        → HasGroups key_source openers.new (keys ++ key.now ∷ [])) }
    ensures fault { IfErr result (λ fault. (links : TheList PlacedLink) → HasGroups source_of_link groups.now links →
        TagFault links key.now fault) }
{
    let opener = key.opener();
    follow_from(alloc, groups, &opener, known)?;
    add_under(openers, alloc, key.source(), opener)?;
    Ok(())
}

/// The keys to which the links lead from the bundle's, each once, and the bundle's own. `Tampered` comes only for a link that
/// begins at such a key and has a wrong tag under it, and where there is such a link, the answer isn't Ok.
pub(crate) fn right_keys(
    alloc: Global,
    groups: &Links,
    bundle: RightKey,
) -> Result<KnownKeys, ClientFault>
    ensures keys { IfOk result (λ known. (links : TheList PlacedLink) → HasGroups source_of_link groups.now links
        → AreRightKeys links bundle known.keys.items) }
    ensures grouped { IfOk result (λ known. (links : TheList PlacedLink) → HasGroups source_of_link groups.now links
        → HasGroups key_source known.groups known.keys.items) }
    ensures fault { IfErr result (λ fault. (links : TheList PlacedLink) → HasGroups source_of_link groups.now links
        → LinkFault links bundle fault) }
{
    let mut known = FoundKeys {
        keys: List::new(alloc),
        groups: HashMap::new(alloc),
    };
    keep_key(alloc, &mut known, bundle)?;
    let mut openers = HashMap::new(alloc);
    let mut done = 0;
    while done < known.keys.as_slice().len() {
        let key = known.keys.as_slice()[done];
        use_key(alloc, groups, &key, &mut known, &mut openers)?;
        done += 1;
    }
    Ok(KnownKeys {
        keys: known.keys,
        groups: openers,
    })
}
