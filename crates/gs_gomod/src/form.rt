//! What a line says.
ghost use Rattle.std.specs.Prelude.{◌≡◌, ◌<◌, ◌≤◌, length, map};
ghost use Rattle.std.specs.Option.{option_map};
ghost use Rattle.gs_gomod.specs.Forms as spec;
ghost use Rattle.gs_gomod.specs.Shown.{seen, seen_form};

use crate::word::Word;

/// What a line says.
#[derive(Clone, Copy, Debug)]
pub enum Form<'a> {
    Empty,
    /// `verb (`
    Opens(Word<'a>),
    /// `)`
    Closes,
    Module(&'a str),
    /// A path, and what replaces it.
    Replace(&'a str, &'a str),
    /// A line of another verb.
    Passed,
    Bad,
}

/// Whether a word is this text, not in quotes.
fn is_word(word: Word<'_>, text: &str) -> bool
    ensures { result ≡ spec.is_word text.now (seen word.entry) }
{
    match word {
        Word::Plain(w) => w == text,
        _ => false,
    }
}

/// The text of a path or a version.
fn text_of<'a>(word: Word<'a>) -> Option<&'a str>
    ensures { option_map (λ x. x.now) result ≡ spec.text_of (seen word.entry) }
{
    match word {
        Word::Plain(w) => { if w == "=>" { None } else { Some(w) } }
        Word::Quoted(w) => Some(w),
        Word::Unclosed => None,
    }
}

fn is_arrow(word: Word<'_>) -> bool
    ensures { result ≡ spec.is_arrow (seen word.entry) }
{
    is_word(word, "=>")
}

fn is_name(word: Word<'_>) -> bool
    ensures { result ≡ spec.is_name (seen word.entry) }
{
    text_of(word).is_some()
}

/// The path on one side of `=>`, behind which a version may stand.
fn side<'a>(words: &[Word<'a>]) -> Option<&'a str>
    ensures { option_map (λ x. x.now) result ≡ spec.side (map seen words.now) }
{
    match words {
        [] => None,
        [path] => text_of(*path),
        [path, version] => {
            if is_name(*version) {
                text_of(*path)
            } else {
                None
            }
        }
        [_, _, _, ..] => None,
    }
}

/// A path, and what replaces it.
fn paths<'a>(path: Option<&'a str>, target: Option<&'a str>) -> Form<'a>
    ensures { seen_form result ≡ spec.paths (option_map (λ x. x.now) path.entry) (option_map (λ x. x.now) target.entry) }
{
    match path {
        None => Form::Bad,
        Some(path) => match target {
            None => Form::Bad,
            Some(target) => Form::Replace(path, target),
        },
    }
}

/// How many words stand before the first `=>`.
fn arrow_at(words: &[Word<'_>]) -> usize
    ensures at { result ≡ spec.arrow_at (map seen words.now) }
    ensures within { result ≤ length words.now }
{
    for at in 0..words.len() {
        if is_arrow(words[at]) {
            return at;
        }
    }
    words.len()
}

/// What stands before and behind the arrow.
fn sides<'a>(before: &[Word<'a>], after: &[Word<'a>]) -> Form<'a>
    ensures { seen_form result ≡ spec.paths (spec.side (map seen before.now)) (spec.side (map seen after.now)) }
{
    paths(side(before), side(after))
}

/// What stands behind `replace`.
fn replace_form<'a>(words: &[Word<'a>]) -> Form<'a>
    ensures { seen_form result ≡ spec.replace_form (map seen words.now) }
{
    let (before, rest) = words.split_at(arrow_at(words));
    match rest.split_first() {
        None => Form::Bad,
        Some((_, after)) => sides(before, after),
    }
}

/// What stands behind `module`.
fn module_form<'a>(words: &[Word<'a>]) -> Form<'a>
    ensures { seen_form result ≡ spec.module_form (map seen words.now) }
{
    match words {
        [w] => match *w {
            Word::Plain(path) => Form::Module(path),
            Word::Quoted(path) => Form::Module(path),
            Word::Unclosed => Form::Bad,
        },
        _ => Form::Bad,
    }
}

/// What a verb and the words behind it say.
fn entry_form<'a>(verb: Word<'a>, words: &[Word<'a>]) -> Form<'a>
    ensures { seen_form result ≡ spec.entry_form (seen verb.entry) (map seen words.now) }
{
    if is_word(verb, "module") {
        module_form(words)
    } else if is_word(verb, "replace") {
        replace_form(words)
    } else {
        Form::Passed
    }
}

/// What the words of a line say that has some, in a block whose lines have its verb before them.
fn line_form<'a>(block: Option<Word<'a>>, words: &[Word<'a>]) -> Form<'a>
    requires { 0 < length words.now }
    ensures { seen_form result ≡ spec.words_form (option_map seen block.entry) (map seen words.now) }
{
    match block {
        Some(verb) => entry_form(verb, words),
        None => match words.split_first() {
            None => unreachable!(),
            Some((verb, rest)) => entry_form(*verb, rest),
        },
    }
}

/// A `)` alone.
fn closing<'a>(block: Option<Word<'a>>) -> Form<'a>
    ensures { seen_form result ≡ spec.closing (option_map seen block.entry) }
{
    match block {
        None => Form::Bad,
        Some(_) => Form::Closes,
    }
}

/// A `verb (`.
fn opening<'a>(block: Option<Word<'a>>, verb: Word<'a>) -> Form<'a>
    ensures { seen_form result ≡ spec.opening (option_map seen block.entry) (seen verb.entry) }
{
    match block {
        None => Form::Opens(verb),
        Some(_) => Form::Bad,
    }
}

/// What a line says, in the block that is open there.
pub fn form_of<'a>(block: Option<Word<'a>>, words: &[Word<'a>]) -> Form<'a>
    ensures { seen_form result ≡ spec.form_of (option_map seen block.entry) (map seen words.now) }
{
    match words {
        [] => Form::Empty,
        [w] => {
            if is_word(*w, ")") {
                closing(block)
            } else {
                line_form(block, words)
            }
        }
        [verb, w] => {
            if is_word(*w, "(") {
                opening(block, *verb)
            } else {
                line_form(block, words)
            }
        }
        [_, _, _, ..] => line_form(block, words),
    }
}

/// The block that is open behind a line.
pub fn block_behind<'a>(block: Option<Word<'a>>, form: Form<'a>) -> Option<Word<'a>>
    ensures { option_map seen result ≡ spec.block_behind (option_map seen block.entry) (seen_form form.entry) }
{
    match form {
        Form::Opens(verb) => Some(verb),
        Form::Closes => None,
        _ => block,
    }
}
