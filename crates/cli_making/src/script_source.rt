//! A generated script, as a source of lines.
ghost use Rattle.std.specs.Prelude.{◌≡◌, ◌≤◌, IfOk};
ghost use Rattle.store_gen.specs.Rule.{script_of};

use cry_base::{Mem, Text};
use cry_io::{Failed, Source};
use std::alloc::Global;
use std::marker::Model;
use store_gen::generate;

/// The text of a script, as much of it as wasn't read yet. It never fails.
#[derive(Drop)]
pub(crate) struct ScriptSource {
    text: Text,
    at: usize,
}

impl Model for ScriptSource {
    ghost use Rattle.std.specs.Prelude.{◌≤◌, ℕ, List, length, drop};

    ghost Value = { List ℕ };

    ghost view = { λ s. drop s.at s.text.items };

    ghost invariant = { λ s. s.at ≤ length s.text.items };
}

impl ScriptSource {
    /// The script of a number, with so many lines behind its opening.
    pub(crate) fn generate(alloc: Global, seed: u64, count: u32) -> Mem<ScriptSource>
        ensures { IfOk result (λ script. script ≡ script_of seed count) }
    {
        let text = generate(alloc, seed, count)?;
        Ok(ScriptSource { text, at: 0 })
    }
}

impl Source for ScriptSource {
    ghost use Rattle.std.specs.Prelude.{Some};

    ghost left = { λ s. Some s };

    ghost faults = { λ s. 0 };

    fn read(&mut self, buf: &mut [u8]) -> Result<usize, Failed> {
        let left = self.text.as_slice().len() - self.at;
        let count = buf.len().min(left);
        buf[..count].copy_from_slice(&self.text.as_slice()[self.at..self.at + count]);
        self.at += count;
        Ok(count)
    }
}
