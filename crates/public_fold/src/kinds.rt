//! In which table a role's key stands.
ghost use Rattle.std.specs.Prelude.{◌≡◌, ◌<◌};
ghost use Rattle.public_fold.specs.KeyTables.{kind_of};

use cry_base::Role;

/// How many kinds of roles there are; the owner's counts as a holder's.
pub(crate) const KINDS: usize = 7;

/// The number of the role's kind.
#[tactic(auto, unfolding(crate::specs::KeyTables::kind_of))]
pub(crate) fn kind_of(role: Role) -> usize
    ensures kind { result ≡ kind_of role }
    ensures within { result < 7 }
{
    match role {
        Role::Owner | Role::Holder(_) => 0,
        Role::Clear(_) => 1,
        Role::Sub(_) => 2,
        Role::Back(_) => 3,
        Role::Files(_) => 4,
        Role::Data(_) => 5,
        Role::File(_) => 6,
    }
}
