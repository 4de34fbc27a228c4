//! The lines of an input, one after another: none is read before it is asked for.
ghost use Rattle.std.specs.Prelude.{◌≡◌, ◌≤◌, ◌++◌, [], Ok, Err, length, take, is_some, IfOk, OnOk, OnErr};
ghost use Rattle.cry_io.specs.Counts.{CountsFault};
ghost use Rattle.cry_io.specs.Told.{WhereTold, WhereBothTold};
ghost use Rattle.script_text.specs.Cutting.{IsOneLine};
ghost use Rattle.cli_base.specs.Lines.{AreOfLines, bytes_ahead, input_limit, lines_ahead, FeedsLine, Takes, TakesNext, IsUnended};
ghost use Rattle.cli_base.specs.Lines.{KeepsAhead, Gives, GivesCut, GivesNext, GivesHeld, Numbers, NumbersNext, NextFailsByCount};
ghost use Rattle.cli_base.specs.Lines.{Within};

use crate::piece::Piece;
use cry_base::{Mem, Text};
use cry_io::{Failed, Source};
use script_text::{Cutter, first_newline};
use std::alloc::Global;
use std::marker::Model;

const INPUT_LIMIT: u32 = 67_108_864;

/// What comes next of an input.
#[derive(Debug, Drop)]
pub enum Next {
    /// The line with this number, counted from 1, without its newline.
    Line { number: u64, bytes: Text },
    /// Nothing: the input ended.
    End,
    /// The line with this number, which holds a byte past the limit.
    PastLimit { number: u64 },
}

/// Why nothing came next. No byte is lost by it.
#[derive(Clone, Copy, Debug, PartialEq, Eq)]
pub enum NextFault {
    /// The source failed. No line had ended in the bytes that it gave.
    Failed,
    /// There was no memory for the line.
    OutOfMemory,
}

/// A reader of lines. It takes a piece of the source only where what it holds has no whole line, and of a piece it feeds to the
/// cutter one line at a time.
#[derive(Drop)]
pub struct LineReader {
    cutter: Cutter,
    piece: Piece,
    given: u64,
}

impl Model for LineReader {
    ghost use Rattle.std.specs.Prelude.{◌≡◌, ◌+◌, ◌-◌, ◌≤◌, length};
    ghost use Rattle.cli_base.specs.Lines.{AreOfLines, LineState, input_limit};

    ghost Value = { LineState };

    ghost view = { λ r. record {
      line = r.cutter.held;
      piece = r.piece;
      room = (input_limit + length r.cutter.held) - length r.cutter.fed;
      given = r.given;
    } };

    ghost invariant = { λ r. AreOfLines 1 r.cutter.held × (r.given + length r.cutter.held ≤ length r.cutter.fed)
        × (length r.cutter.fed ≤ input_limit + length r.cutter.held) × (r.cutter.limit ≡ input_limit) × (length r.piece ≤ 4096) };
}

impl LineReader {
    /// Of an input of which nothing was read yet.
    pub fn new(alloc: Global) -> LineReader
        ensures { result ≡ record { line = []; piece = []; room = input_limit; given = 0 } }
    {
        LineReader {
            cutter: Cutter::new(alloc, INPUT_LIMIT),
            piece: Piece::empty(),
            given: 0,
        }
    }

    /// Gives the next line. A fault loses nothing: all lines that were to come still are.
    pub fn next_line<S: Source>(&mut self, alloc: Global, input: &mut S) -> Result<Next, NextFault>
        ensures told { is_some (S.left input.new) ≡ is_some (S.left input.old) }
        ensures lines { WhereBothTold (S.left input.old) (S.left input.new)
            (λ before after. GivesNext result (lines_ahead self.old before) (lines_ahead self.new after)) }
        ensures bytes { WhereBothTold (S.left input.old) (S.left input.new)
            (λ before after. TakesNext result self.old self.new (bytes_ahead self.old before) (bytes_ahead self.new after)) }
        ensures to_end { result ≡ Ok Next.End → WhereTold (S.left input.new) (λ after. after ≡ []) }
        ensures number { NumbersNext result self.old.given self.new.given }
        ensures room { IfOk result (λ next. Within next self.old.room self.new.room) }
        ensures failed { result ≡ Err NextFault.Failed → IsUnended self.new }
        ensures counts { NextFailsByCount result (S.faults input.old) (S.faults input.new) }
    {
        loop {
            let Ok(held) = self.held_line(alloc) else {
                return Err(NextFault::OutOfMemory);
            };
            if let Some(next) = held {
                return Ok(next);
            }
            let Ok(count) = self.read_piece(input) else {
                return Err(NextFault::Failed);
            };
            if count == 0 {
                return Ok(self.last_line(alloc));
            }
        }
    }

    /// What ends in the bytes that are held. At `None` they are all of one line.
    fn held_line(&mut self, alloc: Global) -> Mem<Option<Next>>
        ensures held { IfOk result (λ held. GivesHeld held self.old self.new) }
        ensures err { OnErr result (KeepsAhead self.old self.new) }
    {
        if let Some(next) = self.cut_line(alloc)? {
            return Ok(Some(next));
        }
        self.feed_line(alloc)?;
        self.cut_line(alloc)
    }

    /// What ends in the bytes that were fed. At `None` they are the front of a line.
    fn cut_line(&mut self, alloc: Global) -> Mem<Option<Next>>
        ensures cut { IfOk result (λ cut. GivesCut cut self.old self.new) }
        ensures err { OnErr result (self.new ≡ self.old) }
    {
        if self.cutter.over().is_some() {
            return Ok(Some(Next::PastLimit {
                number: self.given + 1,
            }));
        }
        let Some(bytes) = self.cutter.line(alloc)? else {
            return Ok(None);
        };
        self.given += 1;
        Ok(Some(Next::Line {
            number: self.given,
            bytes,
        }))
    }

    /// Feeds what the piece has of the line that is begun.
    fn feed_line(&mut self, alloc: Global) -> Mem<()>
        requires { IsOneLine self.old.line }
        ensures feeds { OnOk result (FeedsLine self.old self.new) }
        ensures err { OnErr result (self.new ≡ self.old) }
    {
        let count = line_len(self.piece.as_slice());
        self.cutter.feed(alloc, &self.piece.as_slice()[..count])?;
        self.piece.skip(count);
        Ok(())
    }

    /// Reads a piece more, and says how many bytes came: 0 is the end of the source.
    fn read_piece<S: Source>(&mut self, input: &mut S) -> Result<usize, Failed>
        requires { self.old.piece ≡ [] }
        ensures told { is_some (S.left input.new) ≡ is_some (S.left input.old) }
        ensures bytes { WhereBothTold (S.left input.old) (S.left input.new) (λ before after. before ≡ self.new.piece ++ after) }
        ensures at_end { result ≡ Ok 0 → WhereTold (S.left input.old) (λ before. before ≡ []) }
        ensures count { IfOk result (λ count. count ≡ length self.new.piece) }
        ensures rest { self.new ≡ record self.old { piece = self.new.piece } }
        ensures err { OnErr result (self.new ≡ self.old) }
        ensures counts { CountsFault result (S.faults input.old) (S.faults input.new) }
    {
        self.piece.fill(input)
    }

    /// The line that ends with the input, if one was begun.
    fn last_line(&mut self, alloc: Global) -> Next
        requires { IsUnended self.old }
        ensures gives { Gives result (lines_ahead self.old []) (lines_ahead self.new []) }
        ensures takes { Takes result self.old self.new (bytes_ahead self.old []) (bytes_ahead self.new []) }
        ensures number { Numbers result self.old.given self.new.given }
        ensures room { Within result self.old.room self.new.room }
    {
        let Some(bytes) = self.cutter.rest(alloc) else {
            return Next::End;
        };
        self.given += 1;
        Next::Line {
            number: self.given,
            bytes,
        }
    }
}

/// How many of these bytes are of the first line, with its newline.
fn line_len(bytes: &[u8]) -> usize
    ensures within { result ≤ length bytes.now }
    ensures line { AreOfLines 1 (take result bytes.now) }
    ensures whole { IsOneLine (take result bytes.now) → result ≡ length bytes.now }
{
    match first_newline(bytes) {
        Some(place) => place + 1,
        None => bytes.len(),
    }
}
