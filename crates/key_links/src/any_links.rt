//! Links and contents of keys of any kind.
ghost use Rattle.std.specs.Prelude.{◌≡◌, ◌↔◌, ◌<◌, ◌≤◌, ◌^◌, IfOk, IsOk, OnErr, OnOk, length};
ghost use Rattle.cry_base.specs.Sets.{In};
ghost use Rattle.key_links.specs.Ended.{kind_to, sealing_role, source_role, target_role};
ghost use Rattle.key_links.specs.Opened.{IsAuthenticContent, IsAuthenticLink, StartsAt, target_of, text_of, with_text};
ghost use Rattle.key_links.specs.Ringed.{parts_of, role_of};
ghost use Rattle.key_links.specs.Sealed.{sealed_content, sealed_link};
ghost use Rattle.kind_table.specs.Kinds.{kind_of};
ghost use Rattle.kind_table.specs.Rows.{kinds_row};
ghost use Rattle.kind_table.specs.declared.eleven.TheConstants.{ELEVEN};
ghost use Rattle.record_format.specs.Plain.{plain_content};
ghost use Rattle.record_format.specs.Spellable.{longest_text, shortest_text};
ghost use Rattle.kind_table.specs.declared.kinds.RoleKind.TheVariants as kind;

use crate::any_key::AnyKey;
use crate::{follow, link, open_content, seal_content};
use chacha_seal::{BackK, BadTag, ClearK, DataK, FileK, FilesK, Key, Nonce, SubK};
use cry_base::Text;
use kind_table::LinksTo;
use record_format::{ContentRecord, LinkRecord};

/// The key `to`, sealed under the key `from`.
pub(crate) fn link_any(kind: u8, from: &AnyKey, to: &AnyKey, nonce: Nonce) -> LinkRecord
    requires { In (kinds_row kind (kind_of (role_of from.now)) (kind_of (role_of to.now))) ELEVEN.rows }
    ensures { result ≡ sealed_link kind (parts_of from.now) (parts_of to.now) nonce }
{
    match kind {
        1 => link(from.owner(), to.clear(), nonce),
        2 => link(from.holder(), to.clear(), nonce),
        3 => link(from.clear(), to.sub(), nonce),
        4 => link(from.sub(), to.back(), nonce),
        5 => link(from.sub(), to.files(), nonce),
        6 => link(from.sub(), to.sub(), nonce),
        7 => link(from.back(), to.data(), nonce),
        8 => link(from.back(), to.back(), nonce),
        9 => link(from.files(), to.file(), nonce),
        10 => link(from.clear(), to.file(), nonce),
        11 => link(from.clear(), to.back(), nonce),
        _ => unreachable!(),
    }
}

/// The key that the link leads to from `source`.
pub(crate) fn follow_any(source: &AnyKey, link: &LinkRecord) -> Result<AnyKey, BadTag>
    requires from_one { 1 ≤ link.now.kind }
    requires to_eleven { link.now.kind ≤ 11 }
    requires source { role_of source.now ≡ source_role link.now }
    requires starts { StartsAt link.now.kind (parts_of source.now) link.now }
    ensures authentic { IsOk result ↔ IsAuthenticLink (parts_of source.now) link.now }
    ensures role { IfOk result (λ key. role_of key ≡ target_role link.now) }
    ensures parts { IfOk result (λ key. parts_of key ≡ target_of (parts_of source.now) link.now) }
{
    match link.kind {
        1 => clear_behind(source.owner(), link),
        2 => clear_behind(source.holder(), link),
        3 => sub_behind(source.clear(), link),
        4 => back_behind(source.sub(), link),
        5 => files_behind(source.sub(), link),
        6 => sub_behind(source.sub(), link),
        7 => data_behind(source.back(), link),
        8 => back_behind(source.back(), link),
        9 => file_behind(source.files(), link),
        10 => file_behind(source.clear(), link),
        11 => back_behind(source.clear(), link),
        _ => unreachable!(),
    }
}

// The keys that links lead to have a function for each kind: one for all would make room at its entry for the keys of every kind.

/// The folder's key that grants hand out, to which the link leads.
#[tactic(auto, unfolding(crate::specs::Ringed::role_of, crate::specs::Ringed::parts_of, crate::specs::Ended::role_with))]
fn clear_behind<A: LinksTo<ClearK>>(source: &Key<A>, link: &LinkRecord) -> Result<AnyKey, BadTag>
    requires { StartsAt A.NUMBER source.now link.now }
    ensures authentic { IsOk result ↔ IsAuthenticLink source.now link.now }
    ensures role { kind_to link.now.kind ≡ kind.Clear → IfOk result (λ key. role_of key ≡ target_role link.now) }
    ensures parts { IfOk result (λ key. parts_of key ≡ target_of source.now link.now) }
{
    Ok(AnyKey::Clear(follow(source, link)?))
}

/// The subfolder key to which the link leads.
#[tactic(auto, unfolding(crate::specs::Ringed::role_of, crate::specs::Ringed::parts_of, crate::specs::Ended::role_with))]
fn sub_behind<A: LinksTo<SubK>>(source: &Key<A>, link: &LinkRecord) -> Result<AnyKey, BadTag>
    requires { StartsAt A.NUMBER source.now link.now }
    ensures authentic { IsOk result ↔ IsAuthenticLink source.now link.now }
    ensures role { kind_to link.now.kind ≡ kind.Sub → IfOk result (λ key. role_of key ≡ target_role link.now) }
    ensures parts { IfOk result (λ key. parts_of key ≡ target_of source.now link.now) }
{
    Ok(AnyKey::Sub(follow(source, link)?))
}

/// The backlink key to which the link leads.
#[tactic(auto, unfolding(crate::specs::Ringed::role_of, crate::specs::Ringed::parts_of, crate::specs::Ended::role_with))]
fn back_behind<A: LinksTo<BackK>>(source: &Key<A>, link: &LinkRecord) -> Result<AnyKey, BadTag>
    requires { StartsAt A.NUMBER source.now link.now }
    ensures authentic { IsOk result ↔ IsAuthenticLink source.now link.now }
    ensures role { kind_to link.now.kind ≡ kind.Back → IfOk result (λ key. role_of key ≡ target_role link.now) }
    ensures parts { IfOk result (λ key. parts_of key ≡ target_of source.now link.now) }
{
    Ok(AnyKey::Back(follow(source, link)?))
}

/// The files key to which the link leads.
#[tactic(auto, unfolding(crate::specs::Ringed::role_of, crate::specs::Ringed::parts_of, crate::specs::Ended::role_with))]
fn files_behind<A: LinksTo<FilesK>>(source: &Key<A>, link: &LinkRecord) -> Result<AnyKey, BadTag>
    requires { StartsAt A.NUMBER source.now link.now }
    ensures authentic { IsOk result ↔ IsAuthenticLink source.now link.now }
    ensures role { kind_to link.now.kind ≡ kind.Files → IfOk result (λ key. role_of key ≡ target_role link.now) }
    ensures parts { IfOk result (λ key. parts_of key ≡ target_of source.now link.now) }
{
    Ok(AnyKey::Files(follow(source, link)?))
}

/// The data key to which the link leads.
#[tactic(auto, unfolding(crate::specs::Ringed::role_of, crate::specs::Ringed::parts_of, crate::specs::Ended::role_with))]
fn data_behind<A: LinksTo<DataK>>(source: &Key<A>, link: &LinkRecord) -> Result<AnyKey, BadTag>
    requires { StartsAt A.NUMBER source.now link.now }
    ensures authentic { IsOk result ↔ IsAuthenticLink source.now link.now }
    ensures role { kind_to link.now.kind ≡ kind.Data → IfOk result (λ key. role_of key ≡ target_role link.now) }
    ensures parts { IfOk result (λ key. parts_of key ≡ target_of source.now link.now) }
{
    Ok(AnyKey::Data(follow(source, link)?))
}

/// The file's key to which the link leads.
#[tactic(auto, unfolding(crate::specs::Ringed::role_of, crate::specs::Ringed::parts_of, crate::specs::Ended::role_with))]
fn file_behind<A: LinksTo<FileK>>(source: &Key<A>, link: &LinkRecord) -> Result<AnyKey, BadTag>
    requires { StartsAt A.NUMBER source.now link.now }
    ensures authentic { IsOk result ↔ IsAuthenticLink source.now link.now }
    ensures role { kind_to link.now.kind ≡ kind.File → IfOk result (λ key. role_of key ≡ target_role link.now) }
    ensures parts { IfOk result (λ key. parts_of key ≡ target_of source.now link.now) }
{
    Ok(AnyKey::File(follow(source, link)?))
}

/// The text of an object, sealed under the key of the role that seals this kind.
pub(crate) fn seal_any(
    kind: u8,
    key: &AnyKey,
    object: u32,
    nonce: Nonce,
    text: Text,
) -> ContentRecord
    requires from_one { 1 ≤ kind }
    requires to_three { kind ≤ 3 }
    requires key { role_of key.now ≡ sealing_role kind object }
    requires shortest { shortest_text kind ≤ length text.items }
    requires longest { length text.items ≤ longest_text kind }
    ensures { plain_content result ≡ sealed_content kind (parts_of key.now) object nonce text.items }
{
    match kind {
        1 => seal_content(key.data(), object, nonce, text),
        2 => seal_content(key.file(), object, nonce, text),
        3 => seal_content(key.owner(), object, nonce, text),
        _ => unreachable!(),
    }
}

/// Makes the content's cipher bytes its text.
pub(crate) fn open_any(key: &AnyKey, content: &mut ContentRecord) -> Result<(), BadTag>
    requires from_one { 1 ≤ content.old.kind }
    requires to_three { content.old.kind ≤ 3 }
    requires key { role_of key.now ≡ sealing_role content.old.kind content.old.object }
    requires size { length content.old.cipher.items < 2 ^ 32 }
    ensures authentic { IsOk result ↔ IsAuthenticContent (parts_of key.now) (plain_content content.old) }
    ensures opened { OnOk result (content.new ≡ with_text content.old (text_of (parts_of key.now) (plain_content content.old))) }
    ensures bad_tag { OnErr result (content.new ≡ content.old) }
{
    match content.kind {
        1 => open_content(key.data(), content),
        2 => open_content(key.file(), content),
        3 => open_content(key.owner(), content),
        _ => unreachable!(),
    }
}
