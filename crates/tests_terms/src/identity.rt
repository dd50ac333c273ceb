use crate::notation::{Around, PLAIN, typed};
use crate::table::{cut, rows};
use gs_print::term_text;
use gs_terms::{Basic, Term, identical, identity_law};
use std::alloc::Global;
use std::process::Abort;
use std::test::Fail;

/// Go specification, "Type identity": of these types no two are identical.
const DIFFERENT: &str = "\
int
int32
uint8
string
complex128
untyped.bool
untyped.rune
untyped.int
untyped.string
invalid
nil
error
p.T
q.T
p.U
p.T#1
p.T#2
p.error
int *
int * *
int []
int [] []
int [3]
int [4]
int32 [3]
int string map
string int map
int chan
int chan<-
int <-chan
func
int , -> func
int , -> int , func
int , int , -> func
int , int [] , -> func
int , int [] , -> func...
int , func
int , ()
int , int , ()
()
struct
int .F struct
string .F struct
int .G struct
int .F'json struct
int .F'xml struct
int .+F struct
int .f@p struct
int .f@q struct
int .f struct
int .F int .G struct
int .G int .F struct
interface
func ()M interface
func ()N interface
int , func ()M interface
func ()m@p interface
func ()m@q interface
func ()M func ()N interface
func , func ()M interface";

/// These are identical, two by two.
const SAME: &str = "\
byte = uint8
rune = int32
byte [] rune map = uint8 [] int32 map
A .F'x struct chan = m.A .F'x struct chan";

fn all_typed(alloc: Global, around: Around) -> Result<Vec<Term>, Fail> {
    let mut all = Vec::new(alloc);
    for words in rows(DIFFERENT) {
        all.push(typed(alloc, around, words)?)?;
    }
    Ok(all)
}

/// The types of both lists are identical exactly where they stand at the same place.
fn only_at_one_place(rt: &impl Abort, ours: &[Term], theirs: &[Term]) {
    for (i, a) in ours.iter().enumerate() {
        for (j, b) in theirs.iter().enumerate() {
            assert_eq!(rt; identical(a, b), i == j, "{i} and {j}");
        }
    }
}

#[test]
fn types_are_identical_to_themselves_alone(rt: HostRuntime) -> Result<(), Fail> {
    let alloc = rt.alloc();
    let elsewhere = Around {
        offset: 2,
        doc: "d",
        pointer: true,
    };
    let ours = all_typed(alloc, PLAIN)?;
    let theirs = all_typed(alloc, elsewhere)?;
    only_at_one_place(&rt, ours.as_slice(), theirs.as_slice());
    for row in rows(SAME) {
        let (a, b) = cut(row, " = ");
        assert!(rt;
            identical(&typed(alloc, PLAIN, a)?, &typed(alloc, elsewhere, b)?),
            "{row}"
        );
    }
    identity_law();
    Ok(())
}

#[test]
fn copies_are_identical_and_long_lists_take_no_stack(rt: HostRuntime) -> Result<(), Fail> {
    let alloc = rt.alloc();
    for a in all_typed(alloc, PLAIN)?.iter() {
        assert!(rt; identical(a, &a.copy(alloc)?));
    }
    let mut terms = Vec::new(alloc);
    for _ in 0..1_000_000 {
        terms.push(Term::basic(Basic::Int))?;
    }
    let long = Term::tuple(terms);
    assert!(rt; identical(&long, &long.copy(alloc)?));
    assert_eq!(rt; term_text(alloc, &long, "m")?.as_str().len(), 5_000_000);
    Ok(())
}
