//! Scripts, from a number.
ghost use Rattle.std.specs.Prelude.{◌≡◌, ◌++◌, map, IfOk, OnOk};
ghost use Rattle.cry_base.specs.Texts.{ended_lines};
ghost use Rattle.store_gen.specs.Rule.{IsReady, drawn_requests, script_of};
ghost use Rattle.store_gen.specs.Spelling.{spelled};

use crate::change::put_line;
use crate::generator::Generator;
use cry_base::{Mem, Text};
use std::alloc::Global;

/// The lines before the drawn ones: eight folders, a file in each that will be moved, and four holders.
const OPENING: &[u8] = b"mkdir /d0
mkdir /d1
mkdir /d2
mkdir /d3
mkdir /d4
mkdir /d5
mkdir /d6
mkdir /d7
write /d0/t0 00
write /d1/t1 00
write /d2/t2 00
write /d3/t3 00
write /d4/t4 00
write /d5/t5 00
write /d6/t6 00
write /d7/t7 00
holder
holder
holder
holder
";

/// A script of 20 lines and `count` more, each ended by the byte 0x0a, that follow from the seed (docs/PROGRAM.md,
/// "Generated scripts"). It has no owner's line. The plain store refuses none of its lines where it begins with a fresh
/// store ([`laws`](crate::laws)). `OutOfMemory` has no other cause than memory.
pub fn generate(alloc: Global, seed: u64, count: u32) -> Mem<Text>
    ensures { IfOk result (λ text. text.items ≡ script_of seed count) }
{
    let mut text = Text::new(alloc);
    let mut generator = Generator::new(seed);
    text.append(OPENING)?;
    put_drawn(&mut generator, count, &mut text)?;
    Ok(text)
}

/// Appends the next lines that are drawn.
fn put_drawn(generator: &mut Generator, count: u32, out: &mut Text) -> Mem<()>
    requires { IsReady generator.old }
    ensures { OnOk result (out.new.items ≡ out.old.items ++ ended_lines (map spelled (drawn_requests count generator.old))) }
{
    for _line in 0..count {
        let change = generator.draw();
        put_line(change, out)?;
    }
    Ok(())
}
