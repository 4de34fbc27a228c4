//! Names, bytes and holders' keys that are opened, each with the key of its folder, its file or the owner (docs/FORMAT.md,
//! "Reading").
ghost use Rattle.std.specs.Prelude.{◌≡◌, ◌≢◌, ◌≤◌, Bool, Err, IfOk, IfSome, IsTrue, OnOk, length};
ghost use Rattle.cry_base.specs.Limits.{most_file_bytes};
ghost use Rattle.cry_base.specs.Naming.{is_name};
ghost use Rattle.cry_base.specs.Store.{Store};
ghost use Rattle.cry_base.specs.declared.roles.Role.{Role as TheRole};
ghost use Rattle.cry_base.specs.declared.roles.Role.TheVariants.{Owner};
ghost use Rattle.log_visits.specs.Answering.{AnswersBy};
ghost use Rattle.log_visits.specs.Found.{IsContentFor, plain_found};
ghost use Rattle.log_visits.specs.Holding.{ArePresent, AreSized, HasNames, HoldsKeys, IsFiledBy, IsHeldBy, IsTitledBy};
ghost use Rattle.log_visits.specs.Placing.{content_for};
ghost use Rattle.log_visits.specs.Visiting as spec;
ghost use Rattle.log_visits.specs.Visits.Visit.{ToFile, ToHolder, ToName};
ghost use Rattle.public_fold.specs.KeyStep.{present};
ghost use Rattle.role_graph.specs.Roles.{data_of, file_role};

use crate::ClientFault;
use crate::records::FoundContent;
use crate::text_forms::{file_parts, is_folder_text, text_of};
use crate::visiting::{OpenedText, open_text};
use chacha_seal::Key;
use cry_base::{FileId, FolderId, HolderId, Node, Role, Serial, Text};
use folder_nodes::OpenedNames;
use key_links::KeyRing;
use public_fold::PublicState;
use record_format::{FILE_TEXT, FOLDER_NAME, HOLDER_KEY};
use std::alloc::Global;

/// Opens the name of a folder and gives it to the folder. `Damaged` behind the header comes exactly where there is no content
/// with the name or no key for it, then `Tampered` with the content's place exactly where its tag is wrong, and then `Damaged`
/// with the content's place exactly where the text is no name, and for the root where it isn't empty.
pub(crate) fn visit_name(
    alloc: Global,
    found: Option<FoundContent>,
    ring: &KeyRing,
    names: &mut OpenedNames,
    folder: FolderId,
) -> Result<(), ClientFault>
    requires { IfSome found (IsContentFor 1 folder.0) }
    ensures answer { (told : TheRole → Bool) (r : spec.Reading) (o : spec.Opened) (s : Store)
        → plain_found found ≡ content_for r.log 1 folder.0 → IsTrue (told (data_of folder.0)) →
        HoldsKeys told ring.now o.keys → HasNames s names.old o.store →
        AnswersBy (λ _ behind. IsTitledBy s names.new o behind) result (spec.visit r (ToName folder.0) o) }
    ensures sized { OnOk result (AreSized names.old → AreSized names.new) }
    ensures seen { result ≢ Err ClientFault.Unseen }
    ensures no_disk { result ≢ Err ClientFault.DiskFault }
{
    names.reserve()?;
    let OpenedText { at, text } = open_text(found, ring, FOLDER_NAME, folder.0)?;
    if !is_folder_text(folder, text.as_slice()) {
        return Err(ClientFault::Damaged { at });
    }
    names.set(Node::Folder(folder), text, Text::new(alloc));
    Ok(())
}

/// The name and the bytes of a file.
#[derive(Drop)]
pub struct NamedBytes {
    pub name: Text,
    pub bytes: Text,
}

/// Opens the text of a file. `Damaged` behind the header comes exactly where there is no content with the text or no key for it,
/// then `Tampered` with the content's place exactly where its tag is wrong, and then `Damaged` with the content's place exactly
/// where the text isn't a length, a name of that length and the bytes of a file.
pub fn open_file(
    alloc: Global,
    found: Option<FoundContent>,
    ring: &KeyRing,
    file: FileId,
) -> Result<NamedBytes, ClientFault>
    requires { IfSome found (IsContentFor 2 file.0) }
    ensures answer { (told : TheRole → Bool) (r : spec.Reading) (o : spec.Opened) → plain_found found ≡ content_for r.log 2 file.0
        → IsTrue (told (file_role file.0)) → HoldsKeys told ring.now o.keys →
        AnswersBy (λ parts behind. IsFiledBy file.0 parts o behind) result (spec.visit r (ToFile file.0) o) }
    ensures form { IfOk result (λ parts. IsTrue (is_name parts.name.items) × (length parts.bytes.items ≤ most_file_bytes)) }
    ensures seen { result ≢ Err ClientFault.Unseen }
    ensures no_disk { result ≢ Err ClientFault.DiskFault }
{
    let OpenedText { at, text } = open_text(found, ring, FILE_TEXT, file.0)?;
    let Some((name, bytes)) = file_parts(text.as_slice()) else {
        return Err(ClientFault::Damaged { at });
    };
    let name = text_of(alloc, name)?;
    let bytes = text_of(alloc, bytes)?;
    Ok(NamedBytes { name, bytes })
}

/// Opens the text of a file and gives the file its name and its bytes, with the faults of `open_file`.
pub(crate) fn visit_file(
    alloc: Global,
    found: Option<FoundContent>,
    ring: &KeyRing,
    names: &mut OpenedNames,
    file: FileId,
) -> Result<(), ClientFault>
    requires { IfSome found (IsContentFor 2 file.0) }
    ensures answer { (told : TheRole → Bool) (r : spec.Reading) (o : spec.Opened) (s : Store)
        → plain_found found ≡ content_for r.log 2 file.0 → IsTrue (told (file_role file.0)) →
        HoldsKeys told ring.now o.keys → HasNames s names.old o.store →
        AnswersBy (λ _ behind. IsTitledBy s names.new o behind) result (spec.visit r (ToFile file.0) o) }
    ensures sized { OnOk result (AreSized names.old → AreSized names.new) }
    ensures seen { result ≢ Err ClientFault.Unseen }
    ensures no_disk { result ≢ Err ClientFault.DiskFault }
{
    names.reserve()?;
    let NamedBytes { name, bytes } = open_file(alloc, found, ring, file)?;
    names.set(Node::File(file), name, bytes);
    Ok(())
}

/// The 32 bytes of a text that has so many.
fn key_bytes(text: &[u8]) -> [u8; 32]
    requires { length text.now ≡ 32 }
    ensures { result ≡ text.now }
{
    let mut bytes = [0; 32];
    bytes.copy_from_slice(text);
    bytes
}

/// The serial of the role's newest key, and 0 where it has none.
#[tactic(auto, unfolding(public_fold::specs::KeyStep::present))]
pub fn present_serial(state: &PublicState, role: Role) -> Serial
    ensures { result.0 ≡ present state.now.keys.keys role }
{
    match state.present(role) {
        Some(serial) => serial,
        None => Serial(0),
    }
}

/// Opens the key of a holder, and keeps it. `Damaged` behind the header comes exactly where there is no content with the key,
/// or no owner's key for it, and else `Tampered` with the content's place exactly where its tag is wrong.
pub(crate) fn visit_holder(
    state: &PublicState,
    found: Option<FoundContent>,
    ring: &mut KeyRing,
    holder: HolderId,
) -> Result<(), ClientFault>
    requires found { IfSome found (IsContentFor 3 holder.0) }
    requires keys { ArePresent state.now.keys.keys ring.old }
    ensures answer { (told : TheRole → Bool) (r : spec.Reading) (o : spec.Opened) → plain_found found ≡ content_for r.log 3 holder.0
        → IsTrue (told Owner) → HoldsKeys told ring.old o.keys →
        AnswersBy (λ _ behind. IsHeldBy ring.new ring.old holder.0 o behind) result (spec.visit r (ToHolder holder.0) o) }
    ensures keys { OnOk result (ArePresent state.now.keys.keys ring.new) }
    ensures seen { result ≢ Err ClientFault.Unseen }
    ensures no_disk { result ≢ Err ClientFault.DiskFault }
{
    ring.reserve(1)?;
    let OpenedText { at: _, text } = open_text(found, ring, HOLDER_KEY, holder.0)?;
    let serial = present_serial(state, Role::Holder(holder));
    ring.adopt_holder(Key::holder(holder, serial, key_bytes(text.as_slice())));
    Ok(())
}
