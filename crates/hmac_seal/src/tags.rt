//! The comparison of two tags.
ghost use Rattle.std.specs.Prelude.{◌≡◌, ◌↔◌, IsTrue};

/// Whether all 32 bytes agree. Each byte is read, wherever the first difference stands.
pub fn tags_equal(a: &[u8; 32], b: &[u8; 32]) -> bool
    ensures { IsTrue result ↔ (a.now ≡ b.now) }
{
    let mut difference = 0;
    for i in 0..32 {
        difference |= a[i] ^ b[i];
    }
    difference == 0
}
