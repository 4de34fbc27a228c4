//! The figures of a session, as they are printed.
ghost use Rattle.std.specs.Prelude.{◌≡◌, ◌++◌, string_bytes, IfOk};
ghost use Rattle.script_text.specs.Printing.{owner_line};
ghost use Rattle.cli_making.specs.Figures.{spell_figures};

use cry_base::{List, Mem, Text};
use script_text::print_owner;
use std::alloc::Global;
use store_owner::Tally;

/// The owner's line, and five lines behind it: `commands N`, `links N`, `contents N`, `dirty N`, `bytes N`.
pub(crate) fn outcome(alloc: Global, key: &[u8; 32], tally: &Tally) -> Mem<Text>
    ensures { IfOk result (λ text. text.items ≡ owner_line key.now ++ spell_figures tally.now) }
{
    let mut text = List::new(alloc);
    print_owner(key, &mut text)?;
    text.append(figures(alloc, tally)?.as_bytes())?;
    Ok(text)
}

fn figures(alloc: Global, tally: &Tally) -> Mem<String>
    ensures { IfOk result (λ text. string_bytes text ≡ spell_figures tally.now) }
{
    let Tally {
        commands,
        links,
        contents,
        dirty,
        bytes,
    } = *tally;
    Ok(format!(in alloc;
        "commands {commands}\nlinks {links}\ncontents {contents}\ndirty {dirty}\nbytes {bytes}\n"
    )?)
}
