//! What the contents of a batch say that they are sealed under, kept in the place of their bytes, and a short content itself.
ghost use Rattle.std.specs.Prelude.{◌≡◌, ◌<◌, [], ◌∷◌, IfOk, List as TheList, false, get_or, length};
ghost use Rattle.chacha_seal.specs.Keys.{KeyParts};
ghost use Rattle.log_visits.specs.Placing.{PlacedContent};
ghost use Rattle.trail_audit.specs.Derived.{AreSeen, PlainSeen};
ghost use Rattle.trail_audit.specs.Grouped.{HasGroups, key_source};
ghost use Rattle.trail_audit.specs.Seals.{AreSeals};

use crate::contents::source_of;
use crate::grouped::{Source, group_of};
use crate::placed_records::{ContentAt, KeptContent};
use crate::trails::Openers;
use cry_base::Mem;
use std::alloc::Global;

/// The most bytes of a text that is kept: no more than what stands beside it.
const SHORT: usize = 64;

/// What the contents of a batch are sealed under. A command writes one content or none; what is more isn't told apart.
#[derive(Drop)]
pub(crate) enum Seals {
    /// There is no content.
    Nothing,
    /// There is one, with a short text. Its batch needn't be read once more.
    Short(KeptContent),
    /// There is one, which names this key.
    One(Source),
    /// There may be any number.
    Several,
}

/// What one content is sealed under.
fn seals_of_one(alloc: Global, found: &ContentAt<'_>) -> Mem<Seals>
    ensures { IfOk result (λ seals. AreSeals seals (found.now ∷ [])) }
{
    if found.content.cipher.as_slice().len() > SHORT {
        return Ok(Seals::One(source_of(found)));
    }
    let kept = found.kept(alloc)?;
    Ok(Seals::Short(kept))
}

/// What contents are sealed under.
pub(crate) fn seals_of(alloc: Global, contents: &[ContentAt<'_>]) -> Mem<Seals>
    ensures { IfOk result (λ seals. AreSeals seals contents.now) }
{
    match contents {
        [] => Ok(Seals::Nothing),
        [found] => seals_of_one(alloc, found),
        _ => Ok(Seals::Several),
    }
}

/// What the contents of the batch at a position are sealed under.
pub(crate) fn seals_at(seals: &[Seals], position: u32) -> &Seals
    requires { position < length seals.now }
    ensures { result.now ≡ get_or seals.now position Seals.Nothing }
{
    &seals[position as usize]
}

/// Whether keys may show any of the contents of a batch: where they don't, it needn't be read once more.
pub(crate) fn may_show(groups: &Openers, seals: &Seals) -> bool
    ensures { result ≡ false → (keys : TheList KeyParts) (contents : TheList PlacedContent) (start : TheList PlainSeen) →
        HasGroups key_source groups.now keys → AreSeals seals.now contents → AreSeen keys contents start start }
{
    match seals {
        Seals::Nothing => false,
        Seals::Short(_) => true,
        Seals::One(source) => !group_of(groups, *source).is_empty(),
        Seals::Several => true,
    }
}
