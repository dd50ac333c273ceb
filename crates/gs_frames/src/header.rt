// A header: its lines up to the empty one.
ghost use Rattle.std.specs.Prelude.{◌≡◌, false};
ghost use Rattle.gs_frames.specs.Header.{has};
ghost use Rattle.gs_frames.specs.Lines.{IsTurn, IsHead};

use crate::field::{Field, read_field, split_at_byte, without_cr};

// What a line is, behind the lines before it.
#[derive(Clone, Copy, PartialEq, Eq, Debug, Drop)]
pub(crate) enum Turn {
    // A field, and the Content-Length so far.
    Next(Option<u64>),
    // The empty line, behind this Content-Length.
    End(u64),
    // Neither.
    Broken,
}

// What stands at the front of some bytes.
#[derive(Clone, Copy, PartialEq, Eq, Debug, Drop)]
pub(crate) enum Head {
    // A header: its number, and how many bytes it takes.
    Whole(u64, usize),
    // A line that breaks a rule.
    Broken,
    // Lines that break none, and no end.
    Open,
}

fn read_line(length: Option<u64>, line: &[u8]) -> Turn
    requires { has 10 line.now ≡ false }
    ensures { IsTurn length line.now result }
{
    let Some(field) = without_cr(line) else {
        return Turn::Broken;
    };
    if field.is_empty() {
        return match length {
            Some(number) => Turn::End(number),
            None => Turn::Broken,
        };
    }
    match (read_field(field), length) {
        (Field::Other, _) => Turn::Next(length),
        (Field::Length(number), None) => Turn::Next(Some(number)),
        (Field::Length(_), Some(_)) => Turn::Broken,
        (Field::Broken, _) => Turn::Broken,
    }
}

// Reads the header at the front.
pub(crate) fn read_header(bytes: &[u8]) -> Head
    ensures { IsHead bytes.now result }
{
    let mut rest = bytes;
    let mut length = None;
    while let Some((line, behind)) = split_at_byte(rest, b'\n') {
        match read_line(length, line) {
            Turn::Next(now) => length = now,
            Turn::End(number) => return Head::Whole(number, bytes.len() - behind.len()),
            Turn::Broken => return Head::Broken,
        }
        rest = behind;
    }
    Head::Open
}
