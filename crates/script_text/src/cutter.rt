//! Bytes that come in pieces, cut into lines.
ghost use Rattle.std.specs.Prelude.{◌≡◌, ◌<◌, ◌≤◌, ◌+◌, ◌++◌, ◌∷◌, [], length, take, drop, IfOk, IfSome, IsNone, OnOk, OnErr};
ghost use Rattle.script_text.specs.Cutting.{IsOneLine, TakesLine, TakesRest, line_over};

use crate::gauge::Gauge;
use cry_base::{List, Mem, Text};
use std::alloc::Global;
use std::marker::Model;
use std::mem;

/// Takes bytes as they come, and gives the lines in them. The time is that of the bytes, however they are cut: no byte is
/// looked at again for a line that it isn't in. What was taken is let go as soon as no whole line is left, and the only whole
/// line is moved out.
#[derive(Drop)]
pub struct Cutter {
    // Whether whole lines are left; they stand in `whole` from `at` on, the last one without its newline.
    has_whole: bool,
    whole: Text,
    at: usize,
    rest: Text,
    gauge: Gauge,
}

impl Model for Cutter {
    ghost use Rattle.std.specs.Prelude.{◌≤◌, ◌++◌, length, drop};
    ghost use Rattle.script_text.specs.Cutting.{CutterState, IsOneLine, with_newline};

    ghost Value = { CutterState };

    ghost view = { λ c. record {
      fed = c.gauge.fed;
      held = with_newline c.has_whole (drop c.at c.whole.items)
          ++ c.rest.items;
      limit = c.gauge.limit;
    } };

    ghost invariant = { λ c. (c.at ≤ length c.whole.items) × IsOneLine c.rest.items };
}

impl Cutter {
    /// Of no bytes. It watches for one byte more than `limit`. It takes no memory.
    pub fn new(alloc: Global, limit: u32) -> Cutter
        ensures { result ≡ record { fed = []; held = []; limit = limit } }
    {
        Cutter {
            has_whole: false,
            whole: List::new(alloc),
            at: 0,
            rest: List::new(alloc),
            gauge: Gauge::new(u64::from(limit)),
        }
    }

    /// Takes a piece more. At `Err` all is as it was.
    pub fn feed(&mut self, alloc: Global, piece: &[u8]) -> Mem<()>
        ensures fed { OnOk result (self.new ≡ record {
          fed = self.old.fed ++ piece.now;
          held = self.old.held
              ++ piece.now;
          limit = self.old.limit;
        }) }
        ensures err { OnErr result (self.new ≡ self.old) }
    {
        match last_newline(piece) {
            Some(place) => self.end_line(alloc, &piece[..place], &piece[place + 1..])?,
            None => self.rest.append(piece)?,
        }
        self.gauge.add(piece);
        Ok(())
    }

    /// Takes the next whole line out, without its newline: `None` exactly where no whole line is left. At `Err` all is as it
    /// was.
    pub fn line(&mut self, alloc: Global) -> Mem<Option<Text>>
        ensures takes { IfOk result (TakesLine self.old self.new) }
        ensures err { OnErr result (self.new ≡ self.old) }
    {
        if !self.has_whole {
            return Ok(None);
        }
        match first_newline(&self.whole.as_slice()[self.at..]) {
            Some(place) => {
                let mut line = List::new(alloc);
                line.append(&self.whole.as_slice()[self.at..][..place])?;
                self.at += place + 1;
                Ok(Some(line))
            }
            None => {
                let line = take_behind(alloc, &mut self.whole, self.at)?;
                self.at = 0;
                self.has_whole = false;
                Ok(Some(line))
            }
        }
    }

    /// Takes out what stands behind the last whole line: `None` exactly where that is empty. It takes no memory.
    pub fn rest(&mut self, alloc: Global) -> Option<Text>
        ensures { TakesRest self.old self.new result }
    {
        if self.rest.as_slice().is_empty() {
            return None;
        }
        Some(mem::replace(&mut self.rest, List::new(alloc)))
    }

    /// The number, counted from 1, of the line that holds byte `limit + 1`, with the lines that were taken: `None` exactly
    /// where no more than `limit` bytes were fed. A newline belongs to the line that it ends.
    pub fn over(&self) -> Option<u64>
        ensures { result ≡ line_over self.now.limit self.now.fed }
    {
        self.gauge.line_over()
    }

    /// Puts bytes, a newline and the front of a line behind what is held.
    fn end_line(&mut self, alloc: Global, ends: &[u8], begins: &[u8]) -> Mem<()>
        requires { IsOneLine begins.now }
        ensures held { OnOk result (self.new ≡ record self.old { held = self.old.held ++ (ends.now ++ 10 ∷ begins.now) }) }
        ensures err { OnErr result (self.new ≡ self.old) }
    {
        let mut begun = List::new(alloc);
        begun.append(begins)?;
        if self.has_whole {
            add_line(&mut self.whole, self.rest.as_slice(), ends)?;
            self.rest = begun;
            return Ok(());
        }
        self.rest.append(ends)?;
        self.whole = mem::replace(&mut self.rest, begun);
        self.at = 0;
        self.has_whole = true;
        Ok(())
    }
}

/// Takes out all bytes behind this place, and lets those before it go.
fn take_behind(alloc: Global, bytes: &mut Text, at: usize) -> Mem<Text>
    requires { at ≤ length bytes.old.items }
    ensures taken { IfOk result (λ taken. taken.items ≡ drop at bytes.old.items) }
    ensures none { OnOk result (bytes.new.items ≡ []) }
    ensures err { OnErr result (bytes.new ≡ bytes.old) }
{
    if at == 0 {
        return Ok(mem::replace(bytes, List::new(alloc)));
    }
    let mut taken = List::new(alloc);
    taken.append(&bytes.as_slice()[at..])?;
    *bytes = List::new(alloc);
    Ok(taken)
}

/// Puts a newline and a line of two parts behind others.
fn add_line(lines: &mut Text, front: &[u8], back: &[u8]) -> Mem<()>
    ensures added { OnOk result (lines.new.items ≡ lines.old.items ++ 10 ∷ (front.now ++ back.now)) }
    ensures err { OnErr result (lines.new.items ≡ lines.old.items) }
{
    lines.reserve(front.len() + back.len() + 1)?;
    lines.put(b'\n');
    lines.put_all(front);
    lines.put_all(back);
    Ok(())
}

/// Where the first newline is: `None` exactly where there is none.
pub fn first_newline(bytes: &[u8]) -> Option<usize>
    ensures within { IfSome result (λ place. place < length bytes.now) }
    ensures found { IfSome result (λ place. bytes.now ≡ take place bytes.now ++ 10 ∷ drop (place + 1) bytes.now) }
    ensures first { IfSome result (λ place. IsOneLine (take place bytes.now)) }
    ensures none { IsNone result → IsOneLine bytes.now }
{
    bytes.iter().position(|byte| *byte == b'\n')
}

fn last_newline(bytes: &[u8]) -> Option<usize>
    ensures within { IfSome result (λ place. place < length bytes.now) }
    ensures found { IfSome result (λ place. bytes.now ≡ take place bytes.now ++ 10 ∷ drop (place + 1) bytes.now) }
    ensures last { IfSome result (λ place. IsOneLine (drop (place + 1) bytes.now)) }
    ensures none { IsNone result → IsOneLine bytes.now }
{
    bytes.iter().rposition(|byte| *byte == b'\n')
}
