//! Operators.
ghost use Rattle.std.specs.Prelude.{◌≡◌, slice_index};
ghost use Rattle.gs_scan.specs.Marks as spec;

use gs_syntax::token::Operator;

/// The byte at `index`, or 0 past the end.
#[inline]
pub fn byte_at(bytes: &[u8], index: usize) -> u8
    ensures { result ≡ slice_index bytes.now index }
{
    if index < bytes.len() { bytes[index] } else { 0 }
}

/// The longest operator that begins with the three bytes, and its length.
#[inline(always)]
pub fn operator_at(first: u8, second: u8, third: u8) -> Option<(Operator, usize)>
    ensures { result ≡ spec.operator_at first second third }
{
    match first {
        b'+' => match second {
            b'+' => Some((Operator::Increment, 2)),
            b'=' => Some((Operator::PlusAssign, 2)),
            _ => Some((Operator::Plus, 1)),
        },
        b'-' => match second {
            b'-' => Some((Operator::Decrement, 2)),
            b'=' => Some((Operator::MinusAssign, 2)),
            _ => Some((Operator::Minus, 1)),
        },
        b'*' => match second {
            b'=' => Some((Operator::StarAssign, 2)),
            _ => Some((Operator::Star, 1)),
        },
        b'/' => match second {
            b'=' => Some((Operator::SlashAssign, 2)),
            _ => Some((Operator::Slash, 1)),
        },
        b'%' => match second {
            b'=' => Some((Operator::PercentAssign, 2)),
            _ => Some((Operator::Percent, 1)),
        },
        b'&' => match second {
            b'^' => match third {
                b'=' => Some((Operator::AndNotAssign, 3)),
                _ => Some((Operator::AndNot, 2)),
            },
            b'=' => Some((Operator::AndAssign, 2)),
            b'&' => Some((Operator::LogicalAnd, 2)),
            _ => Some((Operator::And, 1)),
        },
        b'|' => match second {
            b'=' => Some((Operator::OrAssign, 2)),
            b'|' => Some((Operator::LogicalOr, 2)),
            _ => Some((Operator::Or, 1)),
        },
        b'^' => match second {
            b'=' => Some((Operator::CaretAssign, 2)),
            _ => Some((Operator::Caret, 1)),
        },
        b'<' => match second {
            b'<' => match third {
                b'=' => Some((Operator::ShiftLeftAssign, 3)),
                _ => Some((Operator::ShiftLeft, 2)),
            },
            b'=' => Some((Operator::LessEqual, 2)),
            b'-' => Some((Operator::Arrow, 2)),
            _ => Some((Operator::Less, 1)),
        },
        b'>' => match second {
            b'>' => match third {
                b'=' => Some((Operator::ShiftRightAssign, 3)),
                _ => Some((Operator::ShiftRight, 2)),
            },
            b'=' => Some((Operator::GreaterEqual, 2)),
            _ => Some((Operator::Greater, 1)),
        },
        b'=' => match second {
            b'=' => Some((Operator::Equal, 2)),
            _ => Some((Operator::Assign, 1)),
        },
        b'!' => match second {
            b'=' => Some((Operator::NotEqual, 2)),
            _ => Some((Operator::Not, 1)),
        },
        b':' => match second {
            b'=' => Some((Operator::Define, 2)),
            _ => Some((Operator::Colon, 1)),
        },
        b'.' => match second {
            b'.' => match third {
                b'.' => Some((Operator::Ellipsis, 3)),
                _ => Some((Operator::Dot, 1)),
            },
            _ => Some((Operator::Dot, 1)),
        },
        b'(' => Some((Operator::LeftParen, 1)),
        b')' => Some((Operator::RightParen, 1)),
        b'[' => Some((Operator::LeftBracket, 1)),
        b']' => Some((Operator::RightBracket, 1)),
        b'{' => Some((Operator::LeftBrace, 1)),
        b'}' => Some((Operator::RightBrace, 1)),
        b',' => Some((Operator::Comma, 1)),
        b';' => Some((Operator::Semicolon, 1)),
        _ => None,
    }
}
