use crate::constants::constant;
use crate::notation::{PLAIN, place, typed};
use crate::table::{cut, rows};
use gs_base::Text;
use gs_print::{after_name_text, hover_text, term_text};
use gs_terms::{Sig, SigKind, Value};
use sqlite_items::Items;
use std::alloc::Global;
use std::test::Fail;

/// A type, and how it is written for a reader of the package m.
const TYPES: &str = "\
bool = bool
string = string
int = int
int8 = int8
int16 = int16
int32 = int32
int64 = int64
uint = uint
uint8 = uint8
uint16 = uint16
uint32 = uint32
uint64 = uint64
uintptr = uintptr
float32 = float32
float64 = float64
complex64 = complex64
complex128 = complex128
byte = uint8
rune = int32
untyped.bool = untyped bool
untyped.rune = untyped rune
untyped.int = untyped int
untyped.string = untyped string
nil = untyped nil
invalid = invalid
error = error
A = A
A#3 = A
m/other.T = m/other.T
A * = *A
A [] = []A
A [3] = [3]A
A [0] [] = [][0]A
A B map = map[A]B
A n.B * map = map[A]*n.B
A chan = chan A
A chan<- = chan<- A
A <-chan = <-chan A
A <-chan chan = chan (<-chan A)
A <-chan chan<- = chan<- <-chan A
A <-chan <-chan = <-chan <-chan A
A chan<- chan = chan chan<- A
A chan chan = chan chan A
func = func()
A , B [] , -> func... = func(A, ...B)
A [] , -> func = func([]A)
A [] , -> func... = func(...A)
A , -> B , func = func(A) B
A , -> B , C , func = func(A) (B, C)
B , -> func , -> A , func = func(func(B)) A
struct = struct{}
A .F struct = struct{F A}
A .F B .+B struct = struct{F A; B}
B * .+B A .f@m'tag struct = struct{*B; f A}
interface = interface{}
A , -> B , func ()M func ()N interface = interface{M(A) B; N()}
A , B , () = (A, B)
A , () = (A)
() = ()";

/// What is hovered over: its kind, type, value and doc comment; and what a reader is told.
const HOVERS: [(&str, &str, &str, &str, &str); 17] = [
    ("var", "A", "", "", "var x A"),
    ("var", "n.T", "", "x is\nhere.", "var x n.T\n\nx is\nhere."),
    ("const", "untyped.int", "-7", "", "const x untyped int = -7"),
    (
        "const",
        "untyped.rune",
        "MIN",
        "x.",
        "const x untyped rune = -170141183460469231731687303715884105728\n\nx.",
    ),
    (
        "const",
        "untyped.bool",
        "true",
        "",
        "const x untyped bool = true",
    ),
    ("const", "bool", "false", "", "const x bool = false"),
    ("const", "untyped.int", "", "", "const x untyped int"),
    ("const", "float64", "", "x.", "const x float64\n\nx."),
    ("const", "string", "'", "", "const x string = \"\""),
    (
        "const",
        "string",
        "'a\"b\\c\n ~\u{7f}\u{e9}\0",
        "",
        "const x string = \"a\\\"b\\\\c\\x0a ~\\x7f\\xc3\\xa9\\x00\"",
    ),
    (
        "type",
        "A .X struct",
        "",
        "x is.",
        "type x struct{X A}\n\nx is.",
    ),
    ("type", "invalid", "", "", "type x invalid"),
    ("alias", "A []", "", "", "type x = []A"),
    ("func", "A , -> B , func", "", "", "func x(A) B"),
    ("func", "A , B [] , -> func...", "", "", "func x(A, ...B)"),
    ("func", "invalid", "", "", "func x invalid"),
    (
        "func",
        "string , -> func",
        "",
        "x says hello.",
        "func x(string)\n\nx says hello.",
    ),
];

fn kind_of(word: &str) -> SigKind {
    if word == "var" {
        SigKind::Var
    } else if word == "const" {
        SigKind::Const
    } else if word == "type" {
        SigKind::Defined
    } else if word == "alias" {
        SigKind::Alias
    } else {
        SigKind::Func
    }
}

fn value_of(alloc: Global, word: &str) -> Result<Option<Value>, Fail> {
    if word.is_empty() {
        Ok(None)
    } else {
        Ok(Some(constant(alloc, word)?))
    }
}

/// The description of a name of the package m.
fn sig_of(alloc: Global, kind: &str, words: &str, value: &str, doc: &str) -> Result<Sig, Fail> {
    Ok(Sig {
        kind: kind_of(kind),
        term: typed(alloc, PLAIN, words)?,
        value: value_of(alloc, value)?,
        methods: Items::new(alloc),
        place: place(alloc, 0)?,
        doc: Text::new(alloc, doc)?,
    })
}

#[test]
fn types_have_their_texts(rt: HostRuntime) -> Result<(), Fail> {
    let alloc = rt.alloc();
    for row in rows(TYPES) {
        let (words, want) = cut(row, " = ");
        let term = typed(alloc, PLAIN, words)?;
        assert_eq!(rt; term_text(alloc, &term, "m")?.as_str(), want, "{row}");
    }
    let term = typed(alloc, PLAIN, "A int map")?;
    assert_eq!(rt; term_text(alloc, &term, "n")?.as_str(), "map[m.A]int");
    assert_eq!(rt; after_name_text(alloc, &term, "m")?.as_str(), " map[A]int");
    let term = typed(alloc, PLAIN, "A , -> B , func")?;
    assert_eq!(rt; after_name_text(alloc, &term, "m")?.as_str(), "(A) B");
    Ok(())
}

#[test]
fn declarations_have_their_hovers(rt: HostRuntime) -> Result<(), Fail> {
    let alloc = rt.alloc();
    for (kind, words, value, doc, want) in &HOVERS {
        let sig = sig_of(alloc, kind, words, value, doc)?.copy(alloc)?;
        assert_eq!(rt;
            hover_text(alloc, "x", &sig)?.as_str(),
            *want,
            "{kind} {words}"
        );
    }
    let sig = sig_of(alloc, "func", "string , -> func", "", "greet says hello.")?;
    assert_eq!(rt;
        hover_text(alloc, "greet", &sig)?.as_str(),
        "func greet(string)\n\ngreet says hello."
    );
    Ok(())
}
