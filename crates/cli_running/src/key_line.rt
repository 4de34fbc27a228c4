//! The first line of `run`: the owner's.
ghost use Rattle.std.specs.Prelude.{◌≡◌, ℕ, List, IsNone, IfSome};
ghost use Rattle.script_text.specs.Reading.{IsOwnerLine, bundle_of};
ghost use Rattle.cli_base.specs.Input.{owner_key};

use cry_base::Bundle;
use script_text::read_bundle;

/// The owner's key that the first line hands in, `owner HEX64`. Any other line, a holder's too, is bad, and gives none.
pub(crate) fn read_owner(line: &[u8]) -> Option<[u8; 32]>
    ensures exactly { result ≡ owner_key (bundle_of line.now) }
    ensures found { IfSome result (λ key. IsOwnerLine line.now key) }
    ensures none { IsNone result → (key : List ℕ) → ¬ IsOwnerLine line.now key }
{
    match read_bundle(line) {
        Ok(Bundle::Owner { key }) => Some(key),
        _ => None,
    }
}
