//! Places in a list of tokens.
ghost use Rattle.std.specs.Prelude.{◌≡◌, ◌≤◌, ◌<◌, ◌+◌, ◌^◌, ℕ, List, suc, length, take, max, Option, IfSome};
ghost use Rattle.gs_syntax.specs.declared.token.Token.{Token as AToken};
ghost use Rattle.gs_places.specs.Places.{IsWithin, Sees, cap, cell_of, first_of, place, places};

use crate::place::{Cell, Place};
use gs_syntax::token::Token;

/// The tokens from a place on, and the table, which has the rows of these places first.
#[derive(Clone, Copy)]
pub struct Rest<'a> {
    pub tokens: &'a [Token],
    pub table: &'a [Place],
    ghost few: { length tokens.now < 2 ^ 32 },
    ghost fits: { take (suc (length tokens.now)) table.now ≡ places tokens.now },
}

/// Where a form ends, and how deep it nests, counted up to 201.
#[derive(Clone, Copy)]
pub struct Spot<'a> {
    pub depth: u32,
    pub rest: Rest<'a>,
}

impl<'a> Rest<'a> {
    /// The first token, and those behind it.
    #[inline(always)]
    pub fn next(self) -> Option<(&'a Token, Rest<'a>)>
        ensures value { Sees (λ p. (p.0.now, p.1.tokens.now)) result (first_of self.entry.tokens.now) }
        ensures shorter { IfSome result (λ p. length p.1.tokens.now < length self.entry.tokens.now) }
    {
        let (first, tokens) = self.tokens.split_first()?;
        Some((
            first,
            Rest {
                tokens,
                table: self.table,
            },
        ))
    }

    /// What the table has for the place.
    #[inline(always)]
    pub fn here(self) -> &'a Place
        ensures { result.now ≡ place self.entry.tokens.now }
    {
        match self.table.get(self.tokens.len()) {
            Some(place) => place,
            None => unreachable!(),
        }
    }

    /// The place where a cell of the table ends.
    #[inline(always)]
    pub fn jump(self, cell: Option<Cell>) -> Option<Spot<'a>>
        ensures { (o : Option (ℕ × List AToken)) → cell ≡ cell_of o → IsWithin self.entry.tokens.now o → Sees (λ f. (f.depth, f.rest.tokens.now)) result o }
    {
        let cell = cell?;
        let left = cell.left as usize;
        if left > self.tokens.len() {
            return None;
        }
        let (_, tokens) = self.tokens.split_at(self.tokens.len() - left);
        Some(Spot {
            depth: cell.depth,
            rest: Rest {
                tokens,
                table: self.table,
            },
        })
    }
}

/// What the table keeps of where a form ends.
#[inline(always)]
pub fn kept(found: Option<Spot<'_>>) -> Option<Cell>
    ensures { (o : Option (ℕ × List AToken)) → Sees (λ f. (f.depth, f.rest.tokens.now)) found.entry o → result ≡ cell_of o }
{
    let found = found?;
    Some(Cell {
        left: found.rest.tokens.len() as u32,
        depth: found.depth,
    })
}

/// What the table keeps of a form without tokens, at the token before these.
#[inline(always)]
pub fn stay(s: Rest<'_>) -> Cell
    requires { length s.tokens.now + 1 < 2 ^ 32 }
    ensures left { result.left ≡ suc (length s.entry.tokens.now) }
    ensures depth { result.depth ≡ 0 }
{
    Cell {
        left: s.tokens.len() as u32 + 1,
        depth: 0,
    }
}

/// One level of nesting more.
#[inline(always)]
pub fn deeper(depth: u32) -> u32
    ensures { (d : ℕ) → depth ≡ cap d → result ≡ cap (suc d) }
{
    if depth < 201 { depth + 1 } else { 201 }
}

/// The deeper of two.
#[inline(always)]
pub fn deepest(one: u32, two: u32) -> u32
    ensures { (c d : ℕ) → one ≡ cap c → two ≡ cap d → result ≡ cap (max c d) }
{
    one.max(two)
}
