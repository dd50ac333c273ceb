//! The tokens that trees keep, and what is left behind them. A function `first_..` asks for a token that stands before a
//! place, the others for the first token of a place.
ghost use Rattle.std.specs.Prelude.{◌∷◌};
ghost use Rattle.gs_grammar.specs.Front as spec;
ghost use Rattle.gs_places.specs.Places.{Sees};

use gs_places::classes::{is_step, is_update};
use gs_places::front::{is_mark, is_name, is_text, is_word};
use gs_places::rest::Rest;
use gs_syntax::token::{Keyword, Operator, Span, Token};

/// This operator, where it is the token.
#[tactic(auto, unfolding(gs_grammar::specs::Front::mark_at))]
pub fn first_mark_span<'a>(o: Operator, x: &'a Token, s: Rest<'a>) -> Option<(Span, Rest<'a>)>
    ensures { Sees (λ p. (p.0, p.1.tokens.now)) result (spec.mark_at o (x.now ∷ s.entry.tokens.now)) }
{
    if is_mark(o, &x.kind) {
        Some((x.span, s))
    } else {
        None
    }
}

/// This operator.
#[tactic(auto, unfolding(gs_grammar::specs::Front::mark_at))]
pub fn mark_span<'a>(o: Operator, s: Rest<'a>) -> Option<(Span, Rest<'a>)>
    ensures { Sees (λ p. (p.0, p.1.tokens.now)) result (spec.mark_at o s.entry.tokens.now) }
{
    let (x, rest) = s.next()?;
    first_mark_span(o, x, rest)
}

/// This keyword, where it is the token.
#[tactic(auto, unfolding(gs_grammar::specs::Front::word_at))]
pub fn first_word_span<'a>(k: Keyword, x: &'a Token, s: Rest<'a>) -> Option<(Span, Rest<'a>)>
    ensures { Sees (λ p. (p.0, p.1.tokens.now)) result (spec.word_at k (x.now ∷ s.entry.tokens.now)) }
{
    if is_word(k, &x.kind) {
        Some((x.span, s))
    } else {
        None
    }
}

/// This keyword.
#[tactic(auto, unfolding(gs_grammar::specs::Front::word_at))]
pub fn word_span<'a>(k: Keyword, s: Rest<'a>) -> Option<(Span, Rest<'a>)>
    ensures { Sees (λ p. (p.0, p.1.tokens.now)) result (spec.word_at k s.entry.tokens.now) }
{
    let (x, rest) = s.next()?;
    first_word_span(k, x, rest)
}

/// An identifier, where it is the token.
#[tactic(auto, unfolding(gs_grammar::specs::Front::name_at))]
pub fn first_name_token<'a>(x: &'a Token, s: Rest<'a>) -> Option<(&'a Token, Rest<'a>)>
    ensures { Sees (λ p. (p.0.now, p.1.tokens.now)) result (spec.name_at (x.now ∷ s.entry.tokens.now)) }
{
    if is_name(&x.kind) { Some((x, s)) } else { None }
}

/// An identifier.
#[tactic(auto, unfolding(gs_grammar::specs::Front::name_at))]
pub fn name_token<'a>(s: Rest<'a>) -> Option<(&'a Token, Rest<'a>)>
    ensures { Sees (λ p. (p.0.now, p.1.tokens.now)) result (spec.name_at s.entry.tokens.now) }
{
    let (x, rest) = s.next()?;
    first_name_token(x, rest)
}

/// A string literal, where it is the token.
#[tactic(auto, unfolding(gs_grammar::specs::Front::text_at))]
pub fn first_text_token<'a>(x: &'a Token, s: Rest<'a>) -> Option<(&'a Token, Rest<'a>)>
    ensures { Sees (λ p. (p.0.now, p.1.tokens.now)) result (spec.text_at (x.now ∷ s.entry.tokens.now)) }
{
    if is_text(&x.kind) { Some((x, s)) } else { None }
}

/// A string literal.
#[tactic(auto, unfolding(gs_grammar::specs::Front::text_at))]
pub fn text_token<'a>(s: Rest<'a>) -> Option<(&'a Token, Rest<'a>)>
    ensures { Sees (λ p. (p.0.now, p.1.tokens.now)) result (spec.text_at s.entry.tokens.now) }
{
    let (x, rest) = s.next()?;
    first_text_token(x, rest)
}

/// An increment or a decrement, where it is the token.
#[tactic(auto, unfolding(gs_grammar::specs::Front::front_at))]
pub fn first_step_token<'a>(x: &'a Token, s: Rest<'a>) -> Option<(&'a Token, Rest<'a>)>
    ensures { Sees (λ p. (p.0.now, p.1.tokens.now)) result (spec.front_at spec.is_step (x.now ∷ s.entry.tokens.now)) }
{
    if is_step(&x.kind) { Some((x, s)) } else { None }
}

/// An increment or a decrement.
#[tactic(auto, unfolding(gs_grammar::specs::Front::front_at))]
pub fn step_token<'a>(s: Rest<'a>) -> Option<(&'a Token, Rest<'a>)>
    ensures { Sees (λ p. (p.0.now, p.1.tokens.now)) result (spec.front_at spec.is_step s.entry.tokens.now) }
{
    let (x, rest) = s.next()?;
    first_step_token(x, rest)
}

/// The operator of an assignment, where it is the token.
#[tactic(auto, unfolding(gs_grammar::specs::Front::front_at))]
pub fn first_update_token<'a>(x: &'a Token, s: Rest<'a>) -> Option<(&'a Token, Rest<'a>)>
    ensures { Sees (λ p. (p.0.now, p.1.tokens.now)) result (spec.front_at spec.is_update (x.now ∷ s.entry.tokens.now)) }
{
    if is_update(&x.kind) {
        Some((x, s))
    } else {
        None
    }
}

/// The operator of an assignment.
#[tactic(auto, unfolding(gs_grammar::specs::Front::front_at))]
pub fn update_token<'a>(s: Rest<'a>) -> Option<(&'a Token, Rest<'a>)>
    ensures { Sees (λ p. (p.0.now, p.1.tokens.now)) result (spec.front_at spec.is_update s.entry.tokens.now) }
{
    let (x, rest) = s.next()?;
    first_update_token(x, rest)
}
