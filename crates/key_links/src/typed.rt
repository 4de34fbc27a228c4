//! The key of an `AnyKey` whose kind is known.
ghost use Rattle.std.specs.Prelude.{◌≡◌};
ghost use Rattle.key_links.specs.Ringed.{parts_of, role_of};
ghost use Rattle.kind_table.specs.Kinds.{kind_of};
ghost use Rattle.kind_table.specs.declared.kinds.RoleKind.TheVariants as kind;

use crate::any_key::AnyKey;
use chacha_seal::{BackK, ClearK, DataK, FileK, FilesK, HolderK, Key, OwnerK, SubK};

impl AnyKey {
    /// The owner's key.
    #[tactic(auto, unfolding(crate::specs::Ringed::parts_of))]
    pub(crate) fn owner(&self) -> &Key<OwnerK>
        requires { kind_of (role_of self.now) ≡ kind.Owner }
        ensures { result.now ≡ parts_of self.now }
    {
        match self {
            AnyKey::Owner(key) => key,
            _ => unreachable!(),
        }
    }

    /// A holder's key.
    #[tactic(auto, unfolding(crate::specs::Ringed::parts_of))]
    pub(crate) fn holder(&self) -> &Key<HolderK>
        requires { kind_of (role_of self.now) ≡ kind.Holder }
        ensures { result.now ≡ parts_of self.now }
    {
        match self {
            AnyKey::Holder(key) => key,
            _ => unreachable!(),
        }
    }

    /// A folder's key that grants hand out.
    #[tactic(auto, unfolding(crate::specs::Ringed::parts_of))]
    pub(crate) fn clear(&self) -> &Key<ClearK>
        requires { kind_of (role_of self.now) ≡ kind.Clear }
        ensures { result.now ≡ parts_of self.now }
    {
        match self {
            AnyKey::Clear(key) => key,
            _ => unreachable!(),
        }
    }

    /// A folder's subfolder key.
    #[tactic(auto, unfolding(crate::specs::Ringed::parts_of))]
    pub(crate) fn sub(&self) -> &Key<SubK>
        requires { kind_of (role_of self.now) ≡ kind.Sub }
        ensures { result.now ≡ parts_of self.now }
    {
        match self {
            AnyKey::Sub(key) => key,
            _ => unreachable!(),
        }
    }

    /// A folder's backlink key.
    #[tactic(auto, unfolding(crate::specs::Ringed::parts_of))]
    pub(crate) fn back(&self) -> &Key<BackK>
        requires { kind_of (role_of self.now) ≡ kind.Back }
        ensures { result.now ≡ parts_of self.now }
    {
        match self {
            AnyKey::Back(key) => key,
            _ => unreachable!(),
        }
    }

    /// A folder's files key.
    #[tactic(auto, unfolding(crate::specs::Ringed::parts_of))]
    pub(crate) fn files(&self) -> &Key<FilesK>
        requires { kind_of (role_of self.now) ≡ kind.Files }
        ensures { result.now ≡ parts_of self.now }
    {
        match self {
            AnyKey::Files(key) => key,
            _ => unreachable!(),
        }
    }

    /// A folder's data key.
    #[tactic(auto, unfolding(crate::specs::Ringed::parts_of))]
    pub(crate) fn data(&self) -> &Key<DataK>
        requires { kind_of (role_of self.now) ≡ kind.Data }
        ensures { result.now ≡ parts_of self.now }
    {
        match self {
            AnyKey::Data(key) => key,
            _ => unreachable!(),
        }
    }

    /// A file's key.
    #[tactic(auto, unfolding(crate::specs::Ringed::parts_of))]
    pub(crate) fn file(&self) -> &Key<FileK>
        requires { kind_of (role_of self.now) ≡ kind.File }
        ensures { result.now ≡ parts_of self.now }
    {
        match self {
            AnyKey::File(key) => key,
            _ => unreachable!(),
        }
    }
}
