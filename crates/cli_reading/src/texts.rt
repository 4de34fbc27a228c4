//! Lines put into one text.
ghost use Rattle.std.specs.Prelude.{◌≡◌, ◌++◌, ℕ, IfOk, List, OnOk};
ghost use Rattle.std.specs.List.{flat_map};

use cry_base::{Line, List, Mem, Seen, Text};
use script_text::{print_line, print_seen};
use std::alloc::Global;

/// What is printed as a line of its own.
pub(crate) trait Printed {
    /// The line, with its newline.
    ghost line: { Self → List ℕ };

    /// Appends it.
    fn print(&self, out: &mut Text) -> Mem<()>
        ensures { OnOk result (out.new.items ≡ out.old.items ++ line self.now) };
}

impl Printed for Line {
    ghost use Rattle.script_text.specs.Printing.{spell_line};

    ghost line = { spell_line };

    fn print(&self, out: &mut Text) -> Mem<()> {
        print_line(self, out)
    }
}

impl Printed for Seen {
    ghost use Rattle.script_text.specs.SeenLines.{spell_seen};

    ghost line = { spell_seen };

    fn print(&self, out: &mut Text) -> Mem<()> {
        print_seen(self, out)
    }
}

/// The lines, one after another.
pub(crate) fn text_of<P: Printed>(alloc: Global, lines: &[P]) -> Mem<Text>
    ensures { IfOk result (λ text. text.items ≡ flat_map P.line lines.now) }
{
    let mut text = List::new(alloc);
    for line in lines {
        line.print(&mut text)?;
    }
    Ok(text)
}
