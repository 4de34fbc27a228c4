//! Opens the records of a log, each with a key that those before led to (docs/FORMAT.md, "Reading").
ghost use Rattle.std.specs.Prelude.{◌≡◌, ◌≢◌, ◌+◌, ◌≤◌, ℕ, Bool, Err, IfOk, IfSome, IsTrue, List, OnErr, Result, length};
ghost use Rattle.commit_journal.specs.Answering.{Fault};
ghost use Rattle.cry_base.specs.declared.roles.Role.{Role as TheRole};
ghost use Rattle.log_visits.specs.Answering.{AnswersBy};
ghost use Rattle.log_visits.specs.Found.{IsContentFor, IsLinkFor, plain_found, plain_link};
ghost use Rattle.log_visits.specs.Holding.{ArePresent, GoesOn, HasKind, HoldsKeys};
ghost use Rattle.log_visits.specs.Placing.{content_for, link_for};
ghost use Rattle.log_visits.specs.Visiting as spec;
ghost use Rattle.key_links.specs.Ended as ends;
ghost use Rattle.key_links.specs.Ringed.{key_of};
ghost use Rattle.record_format.specs.Spellable.{longest_text, shortest_text};

use crate::fault::{BEHIND_HEADER, ClientFault};
use crate::last_links::FoundLink;
use crate::records::FoundContent;
use chacha_seal::BadTag;
use cry_base::{Edge, FileId, FolderId, Role, Text};
use key_links::KeyRing;
use public_fold::PublicState;

/// Opens the last link of an edge, as it was found, and keeps the key that it leads to. `Damaged` behind the header comes exactly where
/// there is no such link, or no key that it leads on from, and else `Tampered` with the link's place exactly where its tag is
/// wrong. At `Err` the keys are as they were.
pub(crate) fn visit_edge(
    state: &PublicState,
    found: Option<FoundLink>,
    ring: &mut KeyRing,
    edge: &Edge,
) -> Result<(), ClientFault>
    requires found { IfSome found (IsLinkFor state.now.keys edge.now) }
    requires kind { HasKind edge.now }
    requires keys { ArePresent state.now.keys.keys ring.old }
    requires room { 1 ≤ ring.old.spare }
    ensures answer { (told : TheRole → Bool) (r : spec.Reading) (o : spec.Opened) → plain_link found ≡ link_for r.stand.keys r.log edge.now
        → IsTrue (told edge.now.from) → HoldsKeys told ring.old o.keys →
        AnswersBy (λ _ behind. HoldsKeys told ring.new behind.keys × (behind.store ≡ o.store)) result (spec.visit_edge r o edge.now) }
    ensures keys { ArePresent state.now.keys.keys ring.new }
    ensures room { ring.old.spare ≤ ring.new.spare + 1 }
    ensures others { (role : TheRole) → role ≢ edge.now.to → key_of ring.new role ≡ key_of ring.old role }
    ensures err { OnErr result (ring.new ≡ ring.old) }
    ensures seen { result ≢ Err ClientFault.Unseen }
    ensures no_disk { result ≢ Err ClientFault.DiskFault }
{
    let Some(found) = found else {
        return Err(ClientFault::Damaged { at: BEHIND_HEADER });
    };
    if ring.present(edge.from).is_none() {
        return Err(ClientFault::Damaged { at: BEHIND_HEADER });
    }
    match ring.open_link(&found.link) {
        Ok(()) => Ok(()),
        Err(BadTag) => Err(ClientFault::Tampered {
            batch: found.batch,
            at: found.at,
        }),
    }
}

/// A text that was opened, and where its content stands.
#[derive(Drop)]
pub(crate) struct OpenedText {
    /// The place of the content's first byte in the file.
    pub(crate) at: u64,
    pub(crate) text: Text,
}

/// The role whose key seals the contents of this kind.
#[tactic(auto, unfolding(key_links::specs::Ended::sealing_role))]
pub(crate) fn sealing_role(kind: u8, object: u32) -> Role
    ensures { result ≡ ends.sealing_role kind object }
{
    match kind {
        1 => Role::Data(FolderId(object)),
        2 => Role::File(FileId(object)),
        _ => Role::Owner,
    }
}

/// Opens the last content of the kind for a folder, file or holder, as it was found. `Damaged` behind the header comes exactly where there
/// is no such content, or no key that it was sealed under, and else `Tampered` with the content's place exactly where its tag
/// is wrong.
pub(crate) fn open_text(
    found: Option<FoundContent>,
    ring: &KeyRing,
    kind: u8,
    object: u32,
) -> Result<OpenedText, ClientFault>
    requires from_one { 1 ≤ kind }
    requires to_three { kind ≤ 3 }
    requires found { IfSome found (IsContentFor kind object) }
    ensures answer { (told : TheRole → Bool) (r : spec.Reading) (o : spec.Opened) (go_on : ℕ → List ℕ → Result spec.Opened Fault) →
        plain_found found ≡ content_for r.log kind object → IsTrue (told (ends.sealing_role kind object)) → HoldsKeys told ring.now o.keys →
        GoesOn result (spec.visit_text r o (ends.sealing_role kind object) kind object) go_on }
    ensures form { IfOk result (λ t. (shortest_text kind ≤ length t.text.items) × (length t.text.items ≤ longest_text kind)) }
    ensures seen { result ≢ Err ClientFault.Unseen }
    ensures no_disk { result ≢ Err ClientFault.DiskFault }
{
    let Some(found) = found else {
        return Err(ClientFault::Damaged { at: BEHIND_HEADER });
    };
    if ring.present(sealing_role(kind, object)).is_none() {
        return Err(ClientFault::Damaged { at: BEHIND_HEADER });
    }
    let FoundContent { batch, at, content } = found;
    let mut content = content;
    match ring.open_text(&mut content) {
        Ok(()) => Ok(OpenedText {
            at,
            text: content.cipher,
        }),
        Err(BadTag) => Err(ClientFault::Tampered { batch, at }),
    }
}
