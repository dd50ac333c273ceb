ghost use Rattle.std.specs.Prelude.{◌≡◌, ◌^◌, ◌<◌, ◌≤◌, length, IfOk, IsTrue, nat_le, false};
ghost use Rattle.std.specs.List.Sorted.{IsNonDecreasingBy, IsPartitionPoint};
ghost use Rattle.std.specs.Str.{IsCharBoundary};
ghost use Rattle.gs_text.specs.LineEnds.{begins_line, is_in_line, first_line};
ghost use Rattle.gs_text.specs.Lines.{lines_of};
ghost use Rattle.gs_text.specs.Units.{units};
ghost use Rattle.gs_text.specs.Positions.{position_of, offset_of, bytes_within};

use crate::position::{Pos, PosUnit};
use gs_base::Mem;
use sqlite_items::Items;
use std::alloc::Global;
use std::marker::Model;

/// Where the lines of a text begin, so that a position is found without a look at the lines before it.
#[derive(Debug, Drop)]
pub struct Lines {
    starts: Items<u32>,
    length: u32,
}

impl Model for Lines {
    ghost use Rattle.std.specs.Prelude.{◌^◌, ◌<◌};
    ghost use Rattle.gs_text.specs.TextLines.{TextLines};

    ghost Value = { TextLines };

    ghost view = { λ l. record { starts = l.starts; length = l.length } };

    ghost invariant = { λ l. l.length < 2 ^ 32 };
}

/// Whether a line begins at an offset.
fn begins(bytes: &[u8], at: usize) -> bool
    requires { at ≤ length bytes.now }
    ensures { result ≡ begins_line bytes.now at }
{
    if at == 0 {
        return true;
    }
    match bytes[at - 1] {
        b'\n' => true,
        b'\r' => at == bytes.len() || bytes[at] != b'\n',
        _ => false,
    }
}

impl Lines {
    /// The lines of a text.
    pub fn new(alloc: Global, text: &str) -> Mem<Lines>
        requires { length text.now < 2 ^ 32 }
        ensures { IfOk result (λ lines. lines ≡ lines_of text.now) }
    {
        let bytes = text.as_bytes();
        let mut starts = Items::new(alloc);
        for at in 0..bytes.len() + 1 {
            if begins(bytes, at) {
                starts.push(at as u32)?;
            }
        }
        Ok(Lines {
            starts,
            length: bytes.len() as u32,
        })
    }

    /// The offset of a position (LSP 3.17, "Position"): a character past the line's end is that end, a line past the
    /// last is the end of the text, and a position inside a character is its beginning.
    pub fn offset_at(&self, text: &str, pos: Pos, unit: PosUnit) -> u32
        requires { self.now ≡ lines_of text.now }
        ensures value { result ≡ offset_of unit text.now pos }
        ensures whole { IsCharBoundary text.now result }
    {
        match self.starts.get(pos.line as usize) {
            Some(&start) => start + fit(&text[start as usize..], pos.character, unit) as u32,
            None => self.length,
        }
    }

    /// The position of an offset, which begins a character or is the text's end.
    pub fn pos_at(&self, text: &str, offset: u32, unit: PosUnit) -> Pos
        requires of_text { self.now ≡ lines_of text.now }
        requires whole { IsCharBoundary text.now offset }
        ensures { result ≡ position_of unit text.now offset }
    {
        let starts = self.starts.as_slice();
        let line = count_upto(starts, offset) - 1;
        let before = &text[starts[line] as usize..offset as usize];
        Pos {
            line: line as u32,
            character: line_units(before, unit),
        }
    }
}

/// How many of these offsets, which rise, are no greater than a given one.
fn count_upto(starts: &[u32], offset: u32) -> usize
    requires { IsNonDecreasingBy (λ start. start) starts.now }
    ensures within { result ≤ length starts.now }
    ensures split { IsPartitionPoint (λ start. IsTrue (nat_le start offset)) (λ start. nat_le start offset ≡ false) starts.now result }
{
    starts.partition_point(|&start| start <= offset)
}

/// Whether a character is no part of a line end.
fn is_in_line(c: char) -> bool
    ensures { result ≡ is_in_line c }
{
    c != '\n' && c != '\r'
}

/// How many bytes the characters of a text's first line take that fit into so many units.
fn fit(text: &str, units: u32, unit: PosUnit) -> usize
    ensures within { result ≤ length text.now }
    ensures value { result ≡ bytes_within unit (first_line text.now) units }
{
    let mut left = units;
    let mut bytes = 0;
    for c in text.chars() {
        let taken = unit.width(c);
        if !is_in_line(c) || left < taken {
            return bytes;
        }
        left -= taken;
        bytes += c.len_utf8();
    }
    bytes
}

/// How many units the first line of a text takes.
fn line_units(text: &str, unit: PosUnit) -> u32
    requires { length text.now < 2 ^ 32 }
    ensures { result ≡ units unit (first_line text.now) }
{
    let mut count = 0;
    for c in text.chars() {
        if !is_in_line(c) {
            return count;
        }
        let taken = unit.width(c);
        count += taken;
    }
    count
}
