//! Whether a grant may be given or taken back.
ghost use Rattle.std.specs.Prelude.{◌≡◌};
ghost use Rattle.grant_book.specs.Refused.{refusal_of_grant, refused_by};

use crate::Grants;
use cry_base::{FolderId, HolderId, Refusal};

/// The first cause to refuse a grant, where `give` is true, or to refuse taking it back: no holder has the number, the
/// grant stands already, the grant doesn't stand. It takes no memory.
pub fn check_grant(grants: &Grants, give: bool, h: HolderId, f: FolderId) -> Result<(), Refusal>
    ensures { result ≡ refused_by (refusal_of_grant grants.now.checks grants.now.pairs give h.0 f.0) }
{
    if h.0 < 1 || grants.holders() < h.0 {
        return Err(Refusal::NoHolder);
    }
    match (give, grants.has(h, f)) {
        (true, true) => Err(Refusal::HasGrant),
        (false, false) => Err(Refusal::NoGrant),
        _ => Ok(()),
    }
}
