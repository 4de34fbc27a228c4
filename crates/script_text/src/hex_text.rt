//! Bytes as hexadecimal digits.
ghost use Rattle.std.specs.Prelude.{◌≡◌, ◌+◌, ◌*◌, ◌≤◌, ◌++◌, length};
ghost use Rattle.cry_base.specs.Texts.{hex_of};

use cry_base::Text;
use hex::encode_to_slice;

/// Adds two digits for each byte, in lower case, where there is room for them.
pub(crate) fn put_hex(bytes: &[u8], out: &mut Text)
    requires { 2 * length bytes.now ≤ out.old.spare }
    ensures items { out.new.items ≡ out.old.items ++ hex_of bytes.now }
    ensures spare { out.old.spare ≤ out.new.spare + 2 * length bytes.now }
{
    for byte in bytes {
        let mut digits = [0; 2];
        let _ = encode_to_slice([*byte].as_slice(), &mut digits);
        out.put_all(&digits);
    }
}
