//! The reading of an input.

ghost use Rattle.std.specs.Prelude.{◌≡◌, ◌<◌, ◌≤◌, length};
ghost use Rattle.goserve.specs.Moves.{HasPulled, HasRead};
ghost use Rattle.gs_outside.specs.Pulling.{HasPullCause};

use gs_outside::{Pulled, Source};
use std::alloc::Global;

/// How many bytes one pull asks for at most.
const PIECE: usize = 4_096;

/// The most bytes that an input may have.
const MOST_INPUT: usize = 1 << 30;

/// What was read: an input up to the source's end; more bytes than an input may have; or a pull failed, or memory was
/// wanting, before the end.
#[derive(Drop)]
pub enum Reading {
    Input(Vec<u8>),
    TooLong,
    Failed,
    NoMemory,
}

/// Pulls at most so many bytes into the front of a buffer.
fn pull_front<S: Source>(source: &mut S, buffer: &mut [u8], most: usize) -> Pulled
    requires some { 0 < most }
    requires room { most ≤ length buffer.old }
    ensures pulled { HasPulled (S.left source.old) (S.left source.new) buffer.new most result }
    ensures cause { HasPullCause (S.faults source.old) (S.faults source.new) result }
{
    source.pull(&mut buffer[..most])
}

/// Pulls piece by piece until the source ends or has given a byte more than an input may have.
fn read_pieces<S: Source>(alloc: Global, source: &mut S, piece: &mut [u8]) -> Reading
    requires { length piece.old ≡ PIECE }
    ensures read { HasRead (S.left source.old) (S.left source.new) (S.faults source.old) (S.faults source.new) result }
    ensures later { S.faults source.old ≤ S.faults source.new }
{
    let mut input = Vec::new(alloc);
    'pieces: loop {
        let most = PIECE.min(MOST_INPUT + 1 - input.len());
        match pull_front(source, piece, most) {
            Pulled::Failed => return Reading::Failed,
            Pulled::Got(0) => return Reading::Input(input),
            Pulled::Got(count) => {
                if count > MOST_INPUT - input.len() {
                    return Reading::TooLong;
                }
                let (front, _) = piece.split_at(count);
                if input.extend_from_slice(front).is_err() {
                    return Reading::NoMemory;
                }
            }
        }
    }
}

/// Reads an input to the source's end.
pub fn read_input<S: Source>(alloc: Global, source: &mut S) -> Reading
    ensures read { HasRead (S.left source.old) (S.left source.new) (S.faults source.old) (S.faults source.new) result }
    ensures later { S.faults source.old ≤ S.faults source.new }
{
    let mut piece = [0u8; PIECE];
    read_pieces(alloc, source, &mut piece)
}
