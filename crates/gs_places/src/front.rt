//! The tokens that the rules of the grammar name, and what is left behind them. A function `first_..` asks for a token that
//! stands before a place, the others for the first token of a place.
ghost use Rattle.std.specs.Prelude.{◌≡◌, ◌∷◌};
ghost use Rattle.gs_grammar.specs.Front as spec;
ghost use Rattle.gs_places.specs.Places.{Sees};
ghost use Rattle.gs_places.specs.Spots.{Leads};

use crate::classes::{
    is_embed_end, is_goes_on, is_semi, is_spec_end, is_step, is_stmt_end, is_stop, is_update,
};
use crate::rest::Rest;
use gs_syntax::token::{Keyword, Operator, Token, TokenKind};

/// The operator's number.
#[inline(always)]
fn mark_number(o: Operator) -> u8
    ensures { result ≡ spec.mark_number o }
{
    match o {
        Operator::Plus => 0,
        Operator::Minus => 1,
        Operator::Star => 2,
        Operator::Slash => 3,
        Operator::Percent => 4,
        Operator::And => 5,
        Operator::Or => 6,
        Operator::Caret => 7,
        Operator::ShiftLeft => 8,
        Operator::ShiftRight => 9,
        Operator::AndNot => 10,
        Operator::PlusAssign => 11,
        Operator::MinusAssign => 12,
        Operator::StarAssign => 13,
        Operator::SlashAssign => 14,
        Operator::PercentAssign => 15,
        Operator::AndAssign => 16,
        Operator::OrAssign => 17,
        Operator::CaretAssign => 18,
        Operator::ShiftLeftAssign => 19,
        Operator::ShiftRightAssign => 20,
        Operator::AndNotAssign => 21,
        Operator::LogicalAnd => 22,
        Operator::LogicalOr => 23,
        Operator::Arrow => 24,
        Operator::Increment => 25,
        Operator::Decrement => 26,
        Operator::Equal => 27,
        Operator::Less => 28,
        Operator::Greater => 29,
        Operator::Assign => 30,
        Operator::Not => 31,
        Operator::NotEqual => 32,
        Operator::LessEqual => 33,
        Operator::GreaterEqual => 34,
        Operator::Define => 35,
        Operator::Ellipsis => 36,
        Operator::LeftParen => 37,
        Operator::RightParen => 38,
        Operator::LeftBracket => 39,
        Operator::RightBracket => 40,
        Operator::LeftBrace => 41,
        Operator::RightBrace => 42,
        Operator::Comma => 43,
        Operator::Semicolon => 44,
        Operator::Dot => 45,
        Operator::Colon => 46,
    }
}

/// The keyword's number.
#[inline(always)]
fn word_number(k: Keyword) -> u8
    ensures { result ≡ spec.word_number k }
{
    match k {
        Keyword::Break => 0,
        Keyword::Case => 1,
        Keyword::Chan => 2,
        Keyword::Const => 3,
        Keyword::Continue => 4,
        Keyword::Default => 5,
        Keyword::Defer => 6,
        Keyword::Else => 7,
        Keyword::Fallthrough => 8,
        Keyword::For => 9,
        Keyword::Func => 10,
        Keyword::Go => 11,
        Keyword::Goto => 12,
        Keyword::If => 13,
        Keyword::Import => 14,
        Keyword::Interface => 15,
        Keyword::Map => 16,
        Keyword::Package => 17,
        Keyword::Range => 18,
        Keyword::Return => 19,
        Keyword::Select => 20,
        Keyword::Struct => 21,
        Keyword::Switch => 22,
        Keyword::Type => 23,
        Keyword::Var => 24,
    }
}

/// Whether the token is this operator.
#[inline(always)]
pub fn is_mark(o: Operator, kind: &TokenKind) -> bool
    ensures { result ≡ spec.is_mark o kind.now }
{
    match kind {
        TokenKind::Operator(m) => mark_number(o) == mark_number(*m),
        _ => false,
    }
}

/// Whether the token is this keyword.
#[inline(always)]
pub fn is_word(k: Keyword, kind: &TokenKind) -> bool
    ensures { result ≡ spec.is_word k kind.now }
{
    match kind {
        TokenKind::Keyword(m) => word_number(k) == word_number(*m),
        _ => false,
    }
}

/// Whether the token is an identifier.
#[inline(always)]
pub fn is_name(kind: &TokenKind) -> bool
    ensures { result ≡ spec.is_name kind.now }
{
    match kind {
        TokenKind::Identifier(_) => true,
        _ => false,
    }
}

/// Whether the token is a string literal.
#[inline(always)]
pub fn is_text(kind: &TokenKind) -> bool
    ensures { result ≡ spec.is_text kind.now }
{
    match kind {
        TokenKind::Text(_) => true,
        _ => false,
    }
}

/// What is left behind this operator, where it is the token.
#[inline(always)]
#[tactic(auto, unfolding(gs_grammar::specs::Front::mark_at))]
pub fn first_mark<'a>(o: Operator, x: &Token, s: Rest<'a>) -> Option<Rest<'a>>
    ensures { Leads result (spec.mark_at o (x.now ∷ s.entry.tokens.now)) }
{
    if is_mark(o, &x.kind) { Some(s) } else { None }
}

/// What is left behind this operator.
#[inline(always)]
#[tactic(auto, unfolding(gs_grammar::specs::Front::mark_at))]
pub fn mark<'a>(o: Operator, s: Rest<'a>) -> Option<Rest<'a>>
    ensures { Leads result (spec.mark_at o s.entry.tokens.now) }
{
    let (x, rest) = s.next()?;
    first_mark(o, x, rest)
}

/// What is left behind this keyword, where it is the token.
#[inline(always)]
#[tactic(auto, unfolding(gs_grammar::specs::Front::word_at))]
pub fn first_word<'a>(k: Keyword, x: &Token, s: Rest<'a>) -> Option<Rest<'a>>
    ensures { Leads result (spec.word_at k (x.now ∷ s.entry.tokens.now)) }
{
    if is_word(k, &x.kind) { Some(s) } else { None }
}

/// What is left behind this keyword.
#[inline(always)]
#[tactic(auto, unfolding(gs_grammar::specs::Front::word_at))]
pub fn word<'a>(k: Keyword, s: Rest<'a>) -> Option<Rest<'a>>
    ensures { Leads result (spec.word_at k s.entry.tokens.now) }
{
    let (x, rest) = s.next()?;
    first_word(k, x, rest)
}

/// What is left behind an identifier, where it is the token.
#[inline(always)]
#[tactic(auto, unfolding(gs_grammar::specs::Front::name_at))]
pub fn first_name<'a>(x: &Token, s: Rest<'a>) -> Option<Rest<'a>>
    ensures { Leads result (spec.name_at (x.now ∷ s.entry.tokens.now)) }
{
    if is_name(&x.kind) { Some(s) } else { None }
}

/// What is left behind an identifier.
#[inline(always)]
#[tactic(auto, unfolding(gs_grammar::specs::Front::name_at))]
pub fn name<'a>(s: Rest<'a>) -> Option<Rest<'a>>
    ensures { Leads result (spec.name_at s.entry.tokens.now) }
{
    let (x, rest) = s.next()?;
    first_name(x, rest)
}

/// What is left behind a string literal, where it is the token.
#[inline(always)]
#[tactic(auto, unfolding(gs_grammar::specs::Front::text_at))]
pub fn first_text<'a>(x: &Token, s: Rest<'a>) -> Option<Rest<'a>>
    ensures { Leads result (spec.text_at (x.now ∷ s.entry.tokens.now)) }
{
    if is_text(&x.kind) { Some(s) } else { None }
}

/// What is left behind a string literal.
#[inline(always)]
#[tactic(auto, unfolding(gs_grammar::specs::Front::text_at))]
pub fn text<'a>(s: Rest<'a>) -> Option<Rest<'a>>
    ensures { Leads result (spec.text_at s.entry.tokens.now) }
{
    let (x, rest) = s.next()?;
    first_text(x, rest)
}

/// What is left behind a semicolon, where it is the token.
#[inline(always)]
#[tactic(auto, unfolding(gs_grammar::specs::Front::front_at))]
pub fn first_semi<'a>(x: &Token, s: Rest<'a>) -> Option<Rest<'a>>
    ensures { Leads result (spec.front_at spec.is_semi (x.now ∷ s.entry.tokens.now)) }
{
    if is_semi(&x.kind) { Some(s) } else { None }
}

/// What is left behind a semicolon.
#[inline(always)]
#[tactic(auto, unfolding(gs_grammar::specs::Front::front_at))]
pub fn semi<'a>(s: Rest<'a>) -> Option<Rest<'a>>
    ensures { Leads result (spec.front_at spec.is_semi s.entry.tokens.now) }
{
    let (x, rest) = s.next()?;
    first_semi(x, rest)
}

/// What is left behind what goes on with a simple statement, where it is the token.
#[inline(always)]
#[tactic(auto, unfolding(gs_grammar::specs::Front::front_at))]
pub fn first_goes_on<'a>(x: &Token, s: Rest<'a>) -> Option<Rest<'a>>
    ensures { Leads result (spec.front_at spec.is_goes_on (x.now ∷ s.entry.tokens.now)) }
{
    if is_goes_on(&x.kind) { Some(s) } else { None }
}

/// What is left behind what goes on with a simple statement.
#[inline(always)]
#[tactic(auto, unfolding(gs_grammar::specs::Front::front_at))]
pub fn goes_on<'a>(s: Rest<'a>) -> Option<Rest<'a>>
    ensures { Leads result (spec.front_at spec.is_goes_on s.entry.tokens.now) }
{
    let (x, rest) = s.next()?;
    first_goes_on(x, rest)
}

/// What is left behind a comma or a closing parenthesis, where it is the token.
#[inline(always)]
#[tactic(auto, unfolding(gs_grammar::specs::Front::front_at))]
pub fn first_stop<'a>(x: &Token, s: Rest<'a>) -> Option<Rest<'a>>
    ensures { Leads result (spec.front_at spec.is_stop (x.now ∷ s.entry.tokens.now)) }
{
    if is_stop(&x.kind) { Some(s) } else { None }
}

/// What is left behind a comma or a closing parenthesis.
#[inline(always)]
#[tactic(auto, unfolding(gs_grammar::specs::Front::front_at))]
pub fn stop<'a>(s: Rest<'a>) -> Option<Rest<'a>>
    ensures { Leads result (spec.front_at spec.is_stop s.entry.tokens.now) }
{
    let (x, rest) = s.next()?;
    first_stop(x, rest)
}

/// What is left behind what ends a statement, where it is the token.
#[inline(always)]
#[tactic(auto, unfolding(gs_grammar::specs::Front::front_at))]
pub fn first_stmt_end<'a>(x: &Token, s: Rest<'a>) -> Option<Rest<'a>>
    ensures { Leads result (spec.front_at spec.is_stmt_end (x.now ∷ s.entry.tokens.now)) }
{
    if is_stmt_end(&x.kind) { Some(s) } else { None }
}

/// What is left behind what ends a statement.
#[inline(always)]
#[tactic(auto, unfolding(gs_grammar::specs::Front::front_at))]
pub fn stmt_end<'a>(s: Rest<'a>) -> Option<Rest<'a>>
    ensures { Leads result (spec.front_at spec.is_stmt_end s.entry.tokens.now) }
{
    let (x, rest) = s.next()?;
    first_stmt_end(x, rest)
}

/// What is left behind what follows the name of an embedded field, where it is the token.
#[inline(always)]
#[tactic(auto, unfolding(gs_grammar::specs::Front::front_at))]
pub fn first_embed_end<'a>(x: &Token, s: Rest<'a>) -> Option<Rest<'a>>
    ensures { Leads result (spec.front_at spec.is_embed_end (x.now ∷ s.entry.tokens.now)) }
{
    if is_embed_end(&x.kind) { Some(s) } else { None }
}

/// What is left behind what follows the name of an embedded field.
#[inline(always)]
#[tactic(auto, unfolding(gs_grammar::specs::Front::front_at))]
pub fn embed_end<'a>(s: Rest<'a>) -> Option<Rest<'a>>
    ensures { Leads result (spec.front_at spec.is_embed_end s.entry.tokens.now) }
{
    let (x, rest) = s.next()?;
    first_embed_end(x, rest)
}

/// What is left behind what ends a spec, where it is the token.
#[inline(always)]
#[tactic(auto, unfolding(gs_grammar::specs::Front::front_at))]
pub fn first_spec_end<'a>(x: &Token, s: Rest<'a>) -> Option<Rest<'a>>
    ensures { Leads result (spec.front_at spec.is_spec_end (x.now ∷ s.entry.tokens.now)) }
{
    if is_spec_end(&x.kind) { Some(s) } else { None }
}

/// What is left behind what ends a spec.
#[inline(always)]
#[tactic(auto, unfolding(gs_grammar::specs::Front::front_at))]
pub fn spec_end<'a>(s: Rest<'a>) -> Option<Rest<'a>>
    ensures { Leads result (spec.front_at spec.is_spec_end s.entry.tokens.now) }
{
    let (x, rest) = s.next()?;
    first_spec_end(x, rest)
}

/// What is left behind an increment or a decrement, where it is the token.
#[inline(always)]
#[tactic(auto, unfolding(gs_grammar::specs::Front::front_at))]
pub fn first_step<'a>(x: &Token, s: Rest<'a>) -> Option<Rest<'a>>
    ensures { Leads result (spec.front_at spec.is_step (x.now ∷ s.entry.tokens.now)) }
{
    if is_step(&x.kind) { Some(s) } else { None }
}

/// What is left behind an increment or a decrement.
#[inline(always)]
#[tactic(auto, unfolding(gs_grammar::specs::Front::front_at))]
pub fn step<'a>(s: Rest<'a>) -> Option<Rest<'a>>
    ensures { Leads result (spec.front_at spec.is_step s.entry.tokens.now) }
{
    let (x, rest) = s.next()?;
    first_step(x, rest)
}

/// What is left behind the operator of an assignment, where it is the token.
#[inline(always)]
#[tactic(auto, unfolding(gs_grammar::specs::Front::front_at))]
pub fn first_update<'a>(x: &Token, s: Rest<'a>) -> Option<Rest<'a>>
    ensures { Leads result (spec.front_at spec.is_update (x.now ∷ s.entry.tokens.now)) }
{
    if is_update(&x.kind) { Some(s) } else { None }
}

/// What is left behind the operator of an assignment.
#[inline(always)]
#[tactic(auto, unfolding(gs_grammar::specs::Front::front_at))]
pub fn update<'a>(s: Rest<'a>) -> Option<Rest<'a>>
    ensures { Leads result (spec.front_at spec.is_update s.entry.tokens.now) }
{
    let (x, rest) = s.next()?;
    first_update(x, rest)
}

/// The closing bracket, with the comma that may stand before it: what is left behind that comma.
#[inline(always)]
#[tactic(auto, unfolding(gs_grammar::specs::Front::trail_at))]
pub fn trail<'a>(o: Operator, s: Rest<'a>) -> Option<Rest<'a>>
    ensures { Sees (λ r. r.tokens.now) result (spec.trail_at o s.entry.tokens.now) }
{
    if mark(o, s).is_some() {
        return Some(s);
    }
    let behind = mark(Operator::Comma, s)?;
    mark(o, behind)?;
    Some(behind)
}

/// What is left behind a dot and an identifier.
#[inline(always)]
#[tactic(auto, unfolding(gs_grammar::specs::Front::selector_at))]
pub fn selector<'a>(s: Rest<'a>) -> Option<Rest<'a>>
    ensures { Leads result (spec.selector_at s.entry.tokens.now) }
{
    name(mark(Operator::Dot, s)?)
}

/// What is left behind an identifier and a colon, where the token is that identifier.
#[inline(always)]
#[tactic(auto, unfolding(gs_grammar::specs::Front::label_at))]
pub fn first_label<'a>(x: &Token, s: Rest<'a>) -> Option<Rest<'a>>
    ensures { Leads result (spec.label_at (x.now ∷ s.entry.tokens.now)) }
{
    mark(Operator::Colon, first_name(x, s)?)
}

/// What is left behind an identifier and `:=`, where the token is that identifier.
#[inline(always)]
#[tactic(auto, unfolding(gs_grammar::specs::Front::defined_at))]
pub fn first_defined<'a>(x: &Token, s: Rest<'a>) -> Option<Rest<'a>>
    ensures { Leads result (spec.defined_at (x.now ∷ s.entry.tokens.now)) }
{
    mark(Operator::Define, first_name(x, s)?)
}
