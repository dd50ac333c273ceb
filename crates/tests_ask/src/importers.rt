use gs_ask::{
    Described, Found, Importer, MapImporter, calls, descriptions, each_rule, source_maps,
    two_rules, types, what_is_kept,
};
use gs_base::Text;
use gs_terms::{Basic, Place, Sig, SigKind, Symbol, Term};
use sqlite_items::Items;
use std::alloc::Global;
use std::test::Fail;

/// What the importer is given, in this order: package, name and number, and the doc comment by which the description
/// is told apart.
const GIVEN: &str = "\
m/a T 0 = first
m/b T 0 = other package
m/a U 0 = other name
m/a T 3 = declared in a function
m/a T 0 = again";

/// What it is asked for, and what it answers.
const ASKED: &str = "\
m/a T 0 = first
m/b T 0 = other package
m/a U 0 = other name
m/a T 3 = declared in a function
m/b U 0 = absent
m/a T 1 = absent
m T 0 = absent
m/a t 0 = absent
  0 = absent";

fn cut<'a>(text: &'a str, mark: &str) -> (&'a str, &'a str) {
    match text.split_once(mark) {
        Some((before, behind)) => (before, behind),
        None => (text, ""),
    }
}

fn symbol_of(alloc: Global, words: &str) -> Result<Symbol, Fail> {
    let (package, rest) = cut(words, " ");
    let (name, local) = cut(rest, " ");
    Ok(Symbol {
        package: Text::new(alloc, package)?,
        name: Text::new(alloc, name)?,
        local: local.parse::<u32>()?,
    })
}

fn sig_of(alloc: Global, doc: &str) -> Result<Sig, Fail> {
    Ok(Sig {
        kind: SigKind::Defined,
        term: Term::basic(Basic::Int),
        value: None,
        methods: Items::new(alloc),
        place: Place {
            package: Text::new(alloc, "m/a")?,
            file: Text::new(alloc, "a.go")?,
            offset: 7,
        },
        doc: Text::new(alloc, doc)?,
    })
}

fn importer(alloc: Global) -> Result<MapImporter, Fail> {
    let mut importer = MapImporter::new(alloc);
    for row in GIVEN.lines() {
        let (words, doc) = cut(row, " = ");
        let symbol = symbol_of(alloc, words)?;
        let sig = sig_of(alloc, doc)?;
        importer.add(Described { symbol, sig })?;
    }
    Ok(importer)
}

/// The doc comment of what is found, or which other answer it is. Asks through the trait.
fn answer<I: Importer>(alloc: Global, importer: &mut I, symbol: &Symbol) -> Result<Text, Fail> {
    Ok(match importer.find(alloc, symbol) {
        Found::Sig(sig) => sig.doc.copy(alloc)?,
        Found::Absent => Text::new(alloc, "absent")?,
        Found::Broken => Text::new(alloc, "broken")?,
        Found::Unready => Text::new(alloc, "not ready")?,
        Found::NoMemory => Text::new(alloc, "no memory")?,
    })
}

#[test]
fn a_map_answers_the_first_description_of_a_name(rt: HostRuntime) -> Result<(), Fail> {
    let alloc = rt.alloc();
    let mut importer = importer(alloc)?;
    for row in ASKED.lines() {
        let (words, want) = cut(row, " = ");
        let symbol = symbol_of(alloc, words)?;
        let found = answer(alloc, &mut importer, &symbol)?;
        assert_eq!(rt; found.as_str(), want, "{row}");
    }
    Ok(())
}

/// The laws, each once at types of some kind.
#[test]
fn laws_hold_at_concrete_types() {
    each_rule::<u8, u16, bool, char, u32>();
    two_rules::<u8, u16, bool, char, u32, u64>();
    what_is_kept::<u8, u16, bool, char, u32>();
    calls::<u16, bool, char, u32, u64>();
    descriptions::<u8, u16, bool, char>();
    source_maps::<u8, u16, bool, char, u64>();
    types::<bool, char>();
}
