//! Whether a payload's records are those that a step publishes, as far as their heads tell.
ghost use Rattle.std.specs.Prelude.{◌≡◌, ◌&&◌, nat_le, map};
ghost use Rattle.record_format.specs.Plain.{plain_content, plain_payload};
ghost use Rattle.record_format.specs.Spellable.{longest_text, shortest_text};
ghost use Rattle.public_fold.specs.Fitted.{are_due, has_length as has_length_of, has_link_head};
ghost use Rattle.public_fold.specs.Heads.{is_content_of};

use crate::{ContentHead, LinkHead, Skeleton};
use cry_base::ROOT;
use record_format::{ContentRecord, FOLDER_NAME, LinkRecord, Payload, text_range};
use role_graph::number_of;

/// Whether the payload has each record that is due, in the order of the skeleton, and no other.
pub(crate) fn has_records(skeleton: &Skeleton, payload: &Payload) -> bool
    ensures { result ≡ (are_due has_link_head skeleton.now.links.items (plain_payload payload.now).links
        && are_due is_content_of skeleton.now.contents.items (plain_payload payload.now).contents) }
{
    are_links(skeleton.links.as_slice(), payload.links.as_slice())
        && are_contents(skeleton.contents.as_slice(), payload.contents.as_slice())
}

fn are_links(heads: &[LinkHead], records: &[LinkRecord]) -> bool
    ensures { result ≡ are_due has_link_head heads.now records.now }
{
    if heads.len() != records.len() {
        return false;
    }
    for i in 0..heads.len() {
        if !is_link(&heads[i], &records[i]) {
            return false;
        }
    }
    true
}

/// Whether the link has this head.
#[tactic(auto, unfolding(crate::specs::Fitted::has_link_head))]
fn is_link(head: &LinkHead, link: &LinkRecord) -> bool
    ensures { result ≡ has_link_head head.now link.now }
{
    link.kind == head.edge.kind
        && (link.from_id == number_of(head.edge.from)
            && (link.to_id == number_of(head.edge.to)
                && (link.from_serial.0 == head.from_serial.0
                    && (link.to_serial.0 == head.to_serial.0 && link.nonce == head.nonce))))
}

fn are_contents(heads: &[ContentHead], records: &[ContentRecord]) -> bool
    ensures { result ≡ are_due is_content_of heads.now (map plain_content records.now) }
{
    if heads.len() != records.len() {
        return false;
    }
    for i in 0..heads.len() {
        if !is_content(&heads[i], &records[i]) {
            return false;
        }
    }
    true
}

/// Whether the content has this head and a length in the range of its kind.
#[tactic(auto, unfolding(crate::specs::Heads::is_content_of))]
fn is_content(head: &ContentHead, content: &ContentRecord) -> bool
    ensures { result ≡ is_content_of head.now (plain_content content.now) }
{
    content.kind == head.kind
        && (content.object == head.object
            && (content.key_serial.0 == head.key_serial.0
                && (content.nonce == head.nonce && has_length(content))))
}

/// Whether the text's length is in the range of its kind: the root's name alone is empty.
#[tactic(auto, unfolding(crate::specs::Fitted::has_length))]
fn has_length(content: &ContentRecord) -> bool
    ensures { result ≡ has_length_of (plain_content content.now) }
{
    let len = content.cipher.as_slice().len();
    let is_root_name = content.kind == FOLDER_NAME && content.object == ROOT.0;
    is_in_range(content.kind, len) && (if is_root_name { len == 0 } else { 1 <= len })
}

/// Whether a text of the kind may have so many bytes.
fn is_in_range(kind: u8, len: usize) -> bool
    ensures { result ≡ (nat_le (shortest_text kind) len && nat_le len (longest_text kind)) }
{
    let (shortest, longest) = text_range(kind);
    shortest as usize <= len && len <= longest as usize
}
