//! A whole piece drawn from a source.
ghost use Rattle.std.specs.Prelude.{◌≡◌, ◌<◌, length, is_some, IfErr};
ghost use Rattle.cry_io.specs.Told.{WhereBothTold};
ghost use Rattle.store_owner.specs.Drawing.{Draws, FailsByCount, IsShortOf};

use cry_io::Source;

/// Why fewer bytes were drawn than were asked for.
#[derive(Clone, Copy, Debug, PartialEq, Eq)]
pub(crate) enum DrawFault {
    /// The source failed.
    Failed,
    /// The source ended after this many bytes.
    Short { left: usize },
}

/// Fills the buffer with the next bytes of a source.
pub(crate) fn draw<R: Source>(random: &mut R, buf: &mut [u8]) -> Result<(), DrawFault>
    ensures told { is_some (R.left random.new) ≡ is_some (R.left random.old) }
    ensures bytes { WhereBothTold (R.left random.old) (R.left random.new) (Draws result buf.new) }
    ensures short { IfErr result (IsShortOf (length buf.old)) }
    ensures counts { FailsByCount result (R.faults random.old) (R.faults random.new) }
{
    let mut have = 0;
    while have < buf.len() {
        let Ok(n) = random.read(&mut buf[have..]) else {
            return Err(DrawFault::Failed);
        };
        if n == 0 {
            return Err(DrawFault::Short { left: have });
        }
        have += n;
    }
    Ok(())
}
