//! Keys that are drawn for a role of any kind but the owner's.
ghost use Rattle.std.specs.Prelude.{◌≡◌, ◌≢◌};
ghost use Rattle.cry_base.specs.declared.roles.Role.TheVariants.{Owner};
ghost use Rattle.key_links.specs.Drawn.{drawn_for, fresh_parts, fresh_role};

use chacha_seal::{BackK, ClearK, DataK, FileK, FilesK, FreshKey, HolderK, Nonce, SubK};
use cry_base::Role;

/// A key that is drawn for a role and must be settled there, or discarded. It is not `Drop`.
pub enum AnyFresh {
    /// For a holder.
    Holder(FreshKey<HolderK>),
    /// For a folder, to be handed out by grants.
    Clear(FreshKey<ClearK>),
    /// For a folder, to lead to all below it.
    Sub(FreshKey<SubK>),
    /// For a folder, to lead to its name and to the folders above it.
    Back(FreshKey<BackK>),
    /// For a folder, to lead to the files in it.
    Files(FreshKey<FilesK>),
    /// For a folder, to seal its name.
    Data(FreshKey<DataK>),
    /// For a file, to seal its name and bytes.
    File(FreshKey<FileK>),
}

impl AnyFresh {
    /// A key for the role, of bytes that were drawn at random. It spends the nonce, whose number is
    /// the key's serial.
    #[tactic(auto, unfolding(crate::specs::Drawn::fresh_role, crate::specs::Drawn::fresh_parts, crate::specs::Drawn::number_of))]
    pub fn from_draw(role: Role, nonce: Nonce, bytes: [u8; 32]) -> AnyFresh
        requires { role ≢ Owner }
        ensures role { fresh_role result ≡ role }
        ensures parts { fresh_parts result ≡ drawn_for role nonce bytes }
    {
        match role {
            Role::Owner => unreachable!(),
            Role::Holder(h) => AnyFresh::Holder(FreshKey::from_draw(h.0, nonce, bytes)),
            Role::Clear(f) => AnyFresh::Clear(FreshKey::from_draw(f.0, nonce, bytes)),
            Role::Sub(f) => AnyFresh::Sub(FreshKey::from_draw(f.0, nonce, bytes)),
            Role::Back(f) => AnyFresh::Back(FreshKey::from_draw(f.0, nonce, bytes)),
            Role::Files(f) => AnyFresh::Files(FreshKey::from_draw(f.0, nonce, bytes)),
            Role::Data(f) => AnyFresh::Data(FreshKey::from_draw(f.0, nonce, bytes)),
            Role::File(x) => AnyFresh::File(FreshKey::from_draw(x.0, nonce, bytes)),
        }
    }

    /// Gives the key up, and its serial with it.
    pub fn discard(self) {
        match self {
            AnyFresh::Holder(key) => key.discard(),
            AnyFresh::Clear(key) => key.discard(),
            AnyFresh::Sub(key) => key.discard(),
            AnyFresh::Back(key) => key.discard(),
            AnyFresh::Files(key) => key.discard(),
            AnyFresh::Data(key) => key.discard(),
            AnyFresh::File(key) => key.discard(),
        }
    }
}
