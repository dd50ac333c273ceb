// What stands at the front of a stream.
ghost use Rattle.std.specs.Prelude.{◌≤◌, length, take};
ghost use Rattle.gs_frames.specs.Header.{IsHeader};
ghost use Rattle.gs_frames.specs.Lines.{IsFrontOf};

use crate::header::{Head, read_header};

// A header ends within so many bytes.
const MOST_OF_HEADER: usize = 1024;

// A body has at most so many bytes.
const MOST_OF_BODY: u64 = 67_108_864;

#[derive(Clone, Copy, PartialEq, Eq, Debug, Drop)]
pub(crate) enum Front {
    // Neither a whole frame nor a fault.
    Incomplete,
    // A header fault.
    Fault,
    // A header with this number, which is too large.
    TooLong(u64),
    // A frame: where its body starts, and where it ends.
    Frame(usize, usize),
}

// A header of this size is at the front, with this number.
fn behind_header(bytes: &[u8], number: u64, size: usize) -> Front
    requires within { size ≤ length bytes.now }
    requires near { size ≤ 1024 }
    requires header { IsHeader (take size bytes.now) number }
    ensures { IsFrontOf bytes.now result }
{
    if number > MOST_OF_BODY {
        return Front::TooLong(number);
    }
    if ((bytes.len() - size) as u64) < number {
        return Front::Incomplete;
    }
    Front::Frame(size, size + number as usize)
}

pub(crate) fn front_of(bytes: &[u8]) -> Front
    ensures { IsFrontOf bytes.now result }
{
    let (window, _) = bytes.split_at(MOST_OF_HEADER.min(bytes.len()));
    match read_header(window) {
        Head::Whole(number, size) => behind_header(bytes, number, size),
        Head::Broken => Front::Fault,
        Head::Open if window.len() == MOST_OF_HEADER => Front::Fault,
        Head::Open => Front::Incomplete,
    }
}
