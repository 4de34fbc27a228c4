//! The links and contents of a log, and where they stand (docs/FORMAT.md, "Records").
ghost use Rattle.std.specs.Prelude.{◌≡◌, ◌+◌, ◌*◌, ◌<◌, ◌^◌, ◌++◌, [], ◌∷◌, All, IfOk, List as TheList, OnOk, length, map};
ghost use Rattle.std.specs.List.{sum_by};
ghost use Rattle.commit_journal.specs.Placed.{plain_body};
ghost use Rattle.commit_journal.specs.Places.{IsStanding};
ghost use Rattle.log_visits.specs.Placing as spec;
ghost use Rattle.log_visits.specs.Placing.{PlacedLink};
ghost use Rattle.record_format.specs.Plain.{plain_content};
ghost use Rattle.record_format.specs.Sizes.{content_size};
ghost use Rattle.record_format.specs.Spellable.{IsContent};
ghost use Rattle.trail_audit.specs.Grouped.{HasGroups, link_source, source_of_link};

use crate::grouped::{Groups, Source, add_under};
use commit_journal::{Body, Placed, content_place, link_place};
use cry_base::{List, Mem, Text};
use record_format::{CONTENT_FRAME_LEN, ContentRecord, LINK_LEN, LinkRecord};
use std::alloc::Global;
use std::marker::Model;

/// Links by where they begin.
pub(crate) type Links = Groups<LinkAt>;

/// A link, and where it stands.
#[derive(Clone, Copy)]
pub(crate) struct LinkAt {
    /// The number of its batch.
    pub(crate) batch: u32,
    /// The place of its first byte in the file.
    pub(crate) at: u64,
    pub(crate) link: LinkRecord,
}

impl Model for LinkAt {
    ghost use Rattle.log_visits.specs.Placing.{PlacedLink};

    ghost Value = { PlacedLink };

    ghost view = { λ l. record { batch = l.batch; at = l.at; link = l.link } };

    ghost inverse = { λ l. record { batch = l.batch; at = l.at; link = l.link } };
}

/// A content that has the format's form, and where it stands.
#[derive(Drop)]
pub(crate) struct ContentAt<'a> {
    /// The number of its batch.
    pub(crate) batch: u32,
    /// The place of its first byte in the file.
    pub(crate) at: u64,
    pub(crate) content: &'a ContentRecord,
}

impl<'a> Model for ContentAt<'a> {
    ghost use Rattle.log_visits.specs.Placing.{PlacedContent};
    ghost use Rattle.record_format.specs.Plain.{plain_content};
    ghost use Rattle.record_format.specs.Spellable.{IsContent};

    ghost Value = { PlacedContent };

    ghost view = { λ c. record { batch = c.batch; at = c.at; content = plain_content c.content.now } };

    ghost invariant = { λ c. IsContent (plain_content c.content.now) };
}

impl<'a> ContentAt<'a> {
    /// The content with its bytes, and where it stands.
    pub(crate) fn kept(&self, alloc: Global) -> Mem<KeptContent>
        ensures { IfOk result (λ kept. kept ≡ self.now) }
    {
        let mut cipher = Text::new(alloc);
        cipher.append(self.content.cipher.as_slice())?;
        Ok(KeptContent {
            batch: self.batch,
            at: self.at,
            content: ContentRecord {
                kind: self.content.kind,
                object: self.content.object,
                key_serial: self.content.key_serial,
                nonce: self.content.nonce,
                cipher,
                tag: self.content.tag,
            },
        })
    }
}

/// A content that has the format's form, and where it stands, kept after its batch is gone.
#[derive(Drop)]
pub(crate) struct KeptContent {
    batch: u32,
    at: u64,
    content: ContentRecord,
}

impl Model for KeptContent {
    ghost use Rattle.log_visits.specs.Placing.{PlacedContent};
    ghost use Rattle.record_format.specs.Plain.{plain_content};
    ghost use Rattle.record_format.specs.Spellable.{IsContent};

    ghost Value = { PlacedContent };

    ghost view = { λ c. record { batch = c.batch; at = c.at; content = plain_content c.content } };

    ghost invariant = { λ c. IsContent (plain_content c.content) };
}

impl KeptContent {
    /// The content, and where it stands.
    pub(crate) fn placed(&self) -> ContentAt<'_>
        ensures { result ≡ self.now }
    {
        ContentAt {
            batch: self.batch,
            at: self.at,
            content: &self.content,
        }
    }
}

/// Where a link begins.
fn source_of(link: &LinkRecord) -> Source
    ensures { result ≡ link_source link.now }
{
    Source {
        id: link.from_id,
        serial: link.from_serial.0,
    }
}

/// Adds a link to those that begin where it does.
fn add_link(links: &mut Links, alloc: Global, found: LinkAt) -> Mem<()>
    ensures { OnOk result ((before : TheList PlacedLink) → HasGroups source_of_link links.old before
        → HasGroups source_of_link links.new (before ++ found ∷ [])) }
{
    add_under(links, alloc, source_of(&found.link), found)
}

/// Adds the links of a batch, of which the first stands at the place.
fn add_links(
    found: &mut Links,
    alloc: Global,
    batch: u32,
    first: u64,
    links: &[LinkRecord],
) -> Mem<()>
    requires { first + 98 * length links.now < 2 ^ 64 }
    ensures { OnOk result ((before : TheList PlacedLink) → HasGroups source_of_link found.old before →
        HasGroups source_of_link found.new (before ++ spec.links_at batch first links.now)) }
{
    let mut at = first;
    for link in links {
        let placed = LinkAt {
            batch,
            at,
            link: *link,
        };
        add_link(found, alloc, placed)?;
        at += LINK_LEN;
    }
    Ok(())
}

/// Adds the links that a batch carries.
pub(crate) fn add_links_of(found: &mut Links, alloc: Global, placed: &Placed) -> Mem<()>
    requires { IsStanding placed.now }
    ensures { OnOk result ((before : TheList PlacedLink) → HasGroups source_of_link found.old before →
        HasGroups source_of_link found.new (before ++ spec.body_links placed.now.batch placed.now.place (plain_body placed.now.body))) }
{
    let Body::Commands(payload) = &placed.body else {
        return Ok(());
    };
    let links = payload.links.as_slice();
    if links.is_empty() {
        return Ok(());
    }
    add_links(found, alloc, placed.batch, link_place(placed, 0), links)
}

/// Adds the contents of a batch, of which the first stands at the place.
fn add_contents<'a>(
    found: &mut List<ContentAt<'a>>,
    batch: u32,
    first: u64,
    contents: &'a [ContentRecord],
) -> Mem<()>
    requires form { All IsContent (map plain_content contents.now) }
    requires end { first + sum_by content_size (map plain_content contents.now) < 2 ^ 64 }
    ensures { OnOk result (found.new.items ≡ found.old.items ++ spec.contents_at batch first (map plain_content contents.now)) }
{
    let mut at = first;
    for content in contents {
        found.push(ContentAt { batch, at, content })?;
        at += CONTENT_FRAME_LEN + content.cipher.as_slice().len() as u64;
    }
    Ok(())
}

/// Adds the contents that a batch carries.
fn add_contents_of<'a>(found: &mut List<ContentAt<'a>>, placed: &'a Placed) -> Mem<()>
    requires { IsStanding placed.now }
    ensures { OnOk result (found.new.items ≡ found.old.items
        ++ spec.body_contents placed.now.batch placed.now.place (plain_body placed.now.body)) }
{
    let Body::Commands(payload) = &placed.body else {
        return Ok(());
    };
    let contents = payload.contents.as_slice();
    if contents.is_empty() {
        return Ok(());
    }
    add_contents(found, placed.batch, content_place(placed, 0), contents)
}

/// The contents of a batch, in order.
pub(crate) fn contents_of<'a>(alloc: Global, placed: &'a Placed) -> Mem<List<ContentAt<'a>>>
    requires { IsStanding placed.now }
    ensures { IfOk result (λ found. found.items ≡ spec.body_contents placed.now.batch placed.now.place (plain_body placed.now.body)) }
{
    let mut found = List::new(alloc);
    add_contents_of(&mut found, placed)?;
    Ok(found)
}
