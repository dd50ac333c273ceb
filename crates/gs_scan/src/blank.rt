//! Comments.
ghost use Rattle.std.specs.Prelude.{◌≡◌, ◌==◌, ◌↔◌, ◌≤◌, length, not, IsTrue, Contains, IfSome};
ghost use Rattle.std.specs.List.{prefix_len};
ghost use Rattle.gs_scan.specs.Reading as spec;

use crate::mark::byte_at;

/// The length up to the next byte that is `end`, or to the end of the text.
pub fn len_until(bytes: &[u8], end: u8) -> usize
    ensures size { result ≡ prefix_len (λ c. not (c == end)) bytes.now }
    ensures within { result ≤ length bytes.now }
{
    bytes.iter().take_while(|b| **b != end).count()
}

/// The place behind the next `*/`.
pub fn comment_end(bytes: &[u8]) -> Option<usize>
    ensures value { result ≡ spec.close_from 0 bytes.now }
    ensures within { IfSome result (λ end. end ≤ length bytes.now) }
{
    for at in 0..bytes.len() {
        if bytes[at] == b'*' && byte_at(bytes, at + 1) == b'/' {
            return Some(at + 2);
        }
    }
    None
}

/// Whether there is a line feed.
pub fn has_line(bytes: &[u8]) -> bool
    ensures { IsTrue result ↔ Contains bytes.now 10 }
{
    bytes.contains(&b'\n')
}
