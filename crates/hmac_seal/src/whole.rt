//! The HMAC of a whole message.
ghost use Rattle.std.specs.Prelude.{◌≡◌, ◌++◌};
ghost use Rattle.hmac_seal.specs.Hmac as spec;

use crate::Hmac;

/// The HMAC with SHA-256 of `a` followed by `b` under `key` (RFC 2104). It takes no memory.
pub fn hmac(key: &[u8], a: &[u8], b: &[u8]) -> [u8; 32]
    ensures { result ≡ spec.hmac key.now (a.now ++ b.now) }
{
    Hmac::start(key).end_with(a, b)
}
