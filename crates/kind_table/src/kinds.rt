//! What keys are for, without their numbers.
ghost use Rattle.std.specs.Prelude.{◌≡◌, ◌<◌};
ghost use Rattle.kind_table.specs.Kinds as spec;

use cry_base::Role;

/// What a key is for. Kinds are ordered as roles are, by their places in this list.
#[derive(Clone, Copy, Debug, PartialEq, Eq, PartialOrd, Ord, Hash)]
pub enum RoleKind {
    /// The owner's key.
    Owner,
    /// A holder's key.
    Holder,
    /// A folder's or a file's key that grants hand out.
    Clear,
    /// A folder's key that leads to its other keys and to its subfolders.
    Sub,
    /// A folder's key that leads to the names of the folders above.
    Back,
    /// A folder's key that leads to the files in it.
    Files,
    /// A folder's key that seals its name.
    Data,
    /// A file's key, which seals its name and its bytes.
    File,
}

impl RoleKind {
    /// The kind's place in the list of kinds, from 0.
    #[tactic(auto, unfolding(crate::specs::Kinds::place_of))]
    pub(crate) fn place(self) -> usize
        ensures place { result ≡ spec.place_of self }
        ensures below { result < 8 }
    {
        self as usize
    }
}

/// The role's kind: all of the role but its number.
#[tactic(auto, unfolding(crate::specs::Kinds::kind_of))]
pub fn kind_of(role: Role) -> RoleKind
    ensures { result ≡ spec.kind_of role }
{
    match role {
        Role::Owner => RoleKind::Owner,
        Role::Holder(_) => RoleKind::Holder,
        Role::Clear(_) => RoleKind::Clear,
        Role::Sub(_) => RoleKind::Sub,
        Role::Back(_) => RoleKind::Back,
        Role::Files(_) => RoleKind::Files,
        Role::Data(_) => RoleKind::Data,
        Role::File(_) => RoleKind::File,
    }
}
