use crate::table::cut;
use gs_base::Text;
use gs_terms::{Dir, FieldTerm, Kind, Known, Method, Place, Symbol, Term, error_symbol, universe};
use sqlite_items::Items;
use std::alloc::Global;
use std::mem::replace;
use std::test::Fail;

/// What identity doesn't look at.
#[derive(Clone, Copy)]
pub(crate) struct Around {
    pub(crate) offset: u32,
    pub(crate) doc: &'static str,
    pub(crate) pointer: bool,
}

pub(crate) const PLAIN: Around = Around {
    offset: 0,
    doc: "",
    pointer: false,
};

/// The type that these words make, one after another. A word takes its parts from the types made before it.
///
/// - `int`, `error`, `nil`, `invalid`, `untyped.int`; `T` of the package m, `p/q.T`, and `p.T#1` of a function
/// - `*`, `[]`, `[3]`, `map` (key and element), `chan`, `chan<-`, `<-chan`
/// - `,` puts the type behind a list; `->` makes the list one of parameters
/// - `func` and `func...` of the parameters and the list; `()` is the tuple of the list
/// - `.F` makes the type that of a field, `.f@p` of one of the package p, `.+F` of an embedded one, and `.F'tag`
///   tags it; `struct` takes all these fields
/// - `()M` makes the type that of a method, `()m@p` of one of the package p; `interface` takes all these methods
pub(crate) fn typed(alloc: Global, around: Around, words: &str) -> Result<Term, Fail> {
    let mut made = Made::new(alloc, around);
    for word in words.split(' ') {
        made.take(word)?;
    }
    Ok(made.last())
}

#[derive(Drop)]
struct Made {
    alloc: Global,
    around: Around,
    stack: Vec<Term>,
    list: Vec<Term>,
    params: Vec<Term>,
    fields: Vec<FieldTerm>,
    methods: Vec<Method>,
}

impl Made {
    fn new(alloc: Global, around: Around) -> Made {
        Made {
            alloc,
            around,
            stack: Vec::new(alloc),
            list: Vec::new(alloc),
            params: Vec::new(alloc),
            fields: Vec::new(alloc),
            methods: Vec::new(alloc),
        }
    }

    fn last(&mut self) -> Term {
        match self.stack.pop() {
            Some(term) => term,
            None => Term::invalid(),
        }
    }

    fn take(&mut self, word: &str) -> Result<(), Fail> {
        if let Some(field) = word.strip_prefix('.') {
            return self.take_field(field);
        }
        if word == "," {
            let term = self.last();
            self.list.push(term)?;
        } else if word == "->" {
            self.params = replace(&mut self.list, Vec::new(self.alloc));
        } else if word != "()" && word.starts_with("()") {
            return self.take_method(&word[2..]);
        } else {
            let term = self.whole(word)?;
            self.stack.push(term)?;
        }
        Ok(())
    }

    fn whole(&mut self, word: &str) -> Result<Term, Fail> {
        if word == "func" || word == "func..." {
            Ok(self.func(word == "func..."))
        } else if word == "()" {
            Ok(Term::tuple(replace(&mut self.list, Vec::new(self.alloc))))
        } else if word == "struct" {
            Ok(Term::of_fields(replace(&mut self.fields, Vec::new(self.alloc))))
        } else if word == "interface" {
            Ok(Term::interface(replace(&mut self.methods, Vec::new(self.alloc))))
        } else if word == "map" {
            let element = self.last();
            let key = self.last();
            Ok(Term::map(self.alloc, key, element)?)
        } else {
            self.prefixed(word)
        }
    }

    fn func(&mut self, variadic: bool) -> Term {
        let results = replace(&mut self.list, Vec::new(self.alloc));
        Term::func(
            replace(&mut self.params, Vec::new(self.alloc)),
            results,
            variadic,
        )
    }

    fn prefixed(&mut self, word: &str) -> Result<Term, Fail> {
        let alloc = self.alloc;
        if word == "*" {
            Ok(Term::pointer(alloc, self.last())?)
        } else if word == "[]" {
            Ok(Term::slice(alloc, self.last())?)
        } else if word == "chan" {
            Ok(Term::chan(alloc, Dir::Both, self.last())?)
        } else if word == "chan<-" {
            Ok(Term::chan(alloc, Dir::Send, self.last())?)
        } else if word == "<-chan" {
            Ok(Term::chan(alloc, Dir::Receive, self.last())?)
        } else if let Some(length) = word.strip_prefix('[') {
            let (length, _) = cut(length, "]");
            let length = length.parse::<i128>()?;
            Ok(Term::array(alloc, length, self.last())?)
        } else {
            simple(alloc, word)
        }
    }

    fn take_field(&mut self, word: &str) -> Result<(), Fail> {
        let (word, tag) = cut(word, "'");
        let (word, package) = cut(word, "@");
        let term = self.last();
        self.fields.push(FieldTerm {
            name: Text::new(self.alloc, word.strip_prefix('+').unwrap_or(word))?,
            package: Text::new(self.alloc, package)?,
            embedded: word.starts_with('+'),
            tag: Items::from_slice(self.alloc, tag.as_bytes())?,
            term,
            place: place(self.alloc, self.around.offset)?,
        })?;
        Ok(())
    }

    fn take_method(&mut self, word: &str) -> Result<(), Fail> {
        let (name, package) = cut(word, "@");
        let term = self.last();
        self.methods.push(Method {
            name: Text::new(self.alloc, name)?,
            package: Text::new(self.alloc, package)?,
            pointer: self.around.pointer,
            term,
            place: place(self.alloc, self.around.offset)?,
            doc: Text::new(self.alloc, self.around.doc)?,
        })?;
        Ok(())
    }
}

pub(crate) fn place(alloc: Global, offset: u32) -> Result<Place, Fail> {
    Ok(Place {
        package: Text::new(alloc, "m")?,
        file: Text::new(alloc, "f.go")?,
        offset,
    })
}

fn simple(alloc: Global, word: &str) -> Result<Term, Fail> {
    if let Some(kind) = word.strip_prefix("untyped.") {
        return Ok(Term::untyped(kind_of(kind)));
    }
    if word == "invalid" {
        return Ok(Term::invalid());
    }
    match universe(word) {
        Some(Known::Basic(basic)) => Ok(Term::basic(basic)),
        Some(Known::Error) => Ok(Term::named(error_symbol(alloc)?)),
        Some(Known::Nil) => Ok(Term::nil()),
        _ => named(alloc, word),
    }
}

fn kind_of(word: &str) -> Kind {
    if word == "bool" {
        Kind::Bool
    } else if word == "rune" {
        Kind::Rune
    } else if word == "int" {
        Kind::Int
    } else {
        Kind::String
    }
}

fn named(alloc: Global, word: &str) -> Result<Term, Fail> {
    let (package, name) = match word.split_once('.') {
        Some((package, name)) => (package, name),
        None => ("m", word),
    };
    let (name, local) = cut(name, "#");
    let local = if local.is_empty() {
        0
    } else {
        local.parse::<u32>()?
    };
    Ok(Term::named(Symbol {
        package: Text::new(alloc, package)?,
        name: Text::new(alloc, name)?,
        local,
    }))
}
