ghost use Rattle.std.specs.Prelude.{◌<◌, ◌^◌, length};

use gs_scan::chunk::chunks;
use gs_scan::scan::{scan, scan_all};
use gs_syntax::token::{Token, TokenKind};
use std::alloc::Global;
use std::mem::size_of;
use std::process::Abort;
use std::test::Fail;

/// A kind, as the tables write it.
fn shown(alloc: Global, kind: &TokenKind) -> Result<String, Fail> {
    Ok(match kind {
        TokenKind::Identifier(name) => {
            let mut text = String::new(alloc);
            for c in name.as_str().chars() {
                if c.is_ascii() {
                    text.push(c)?;
                } else {
                    text.push_str(format!(in alloc; "\\u{{{:x}}}", c as u32)?.as_str())?;
                }
            }
            text
        }
        TokenKind::Keyword(keyword) => format!(in alloc; "{keyword:?}")?,
        TokenKind::Operator(operator) => format!(in alloc; "{operator:?}")?,
        TokenKind::Integer(value) => match value.get() {
            Some(value) => format!(in alloc; "{value}")?,
            None => format!(in alloc; "wide")?,
        },
        TokenKind::Float => format!(in alloc; "float")?,
        TokenKind::Imaginary => format!(in alloc; "imaginary")?,
        TokenKind::Rune(code) => format!(in alloc; "rune {code}")?,
        TokenKind::Text(value) => {
            let mut text = format!(in alloc; "text")?;
            for b in value.as_slice() {
                text.push_str(format!(in alloc; " {b:02x}")?.as_str())?;
            }
            if value.as_slice().is_empty() {
                text.push(' ')?;
            }
            text
        }
        TokenKind::Bad => format!(in alloc; "bad")?,
        TokenKind::Inserted => format!(in alloc; ";")?,
    })
}

/// The tokens of a text, each with its offset and its length.
fn tokens(alloc: Global, text: &str) -> Result<String, Fail>
    requires { length text.now < 2 ^ 32 }
{
    let mut all = String::new(alloc);
    for token in scan(alloc, text)?.iter() {
        if !all.is_empty() {
            all.push(' ')?;
        }
        all.push_str(shown(alloc, &token.kind)?.as_str())?;
        all.push_str(format!(in alloc; "@{}+{}", token.span.offset, token.span.length)?.as_str())?;
    }
    Ok(all)
}

/// Each text has the tokens that stand beside it.
fn each_gives(rt: &impl Abort, alloc: Global, cases: &[(&str, &str)]) -> Result<(), Fail> {
    for (text, want) in cases {
        assert!(rt; text.len() < 1000);
        assert_eq!(rt; tokens(alloc, text)?.as_str(), *want, "of {text:?}");
    }
    Ok(())
}

const IDENTIFIERS_AND_KEYWORDS: [(&str, &str); 19] = [
    ("x", "x@0+1 ;@1+0"),
    ("_x9", "_x9@0+3 ;@3+0"),
    ("a\u{3b1}", "a\\u{3b1}@0+3 ;@3+0"),
    ("\u{3b1}\u{3b2}", "\\u{3b1}\\u{3b2}@0+4 ;@4+0"),
    ("a\u{663}", "a\\u{663}@0+3 ;@3+0"),
    ("\u{663}", "bad@0+2 ;@2+0"),
    ("\u{1c5}\u{2b0}\u{aa}", "\\u{1c5}\\u{2b0}\\u{aa}@0+6 ;@6+0"),
    ("\u{2167}", "bad@0+3 ;@3+0"),
    ("x\u{301}", "x@0+1 bad@1+2 ;@3+0"),
    ("\u{1f600}", "bad@0+4 ;@4+0"),
    ("a\u{1f600}b", "a@0+1 bad@1+4 b@5+1 ;@6+0"),
    ("abcdefghijklm", "abcdefghijklm@0+13 ;@13+0"),
    ("abcdefghijklmn", "abcdefghijklmn@0+14 ;@14+0"),
    ("abcdefghijklmno", "abcdefghijklmno@0+15 ;@15+0"),
    (
        "abcdefghijklm_nopq abcdefghijkl\u{3b1} abcdefghijklm\u{3b1}",
        "abcdefghijklm_nopq@0+18 abcdefghijkl\\u{3b1}@19+14 abcdefghijklm\\u{3b1}@34+15 ;@49+0",
    ),
    ("iff if", "iff@0+3 If@4+2"),
    ("func(", "Func@0+4 LeftParen@4+1"),
    (
        "case chan const default defer else for go goto import interface map",
        "Case@0+4 Chan@5+4 Const@10+5 Default@16+7 Defer@24+5 Else@30+4 For@35+3 Go@39+2 Goto@42+4 Import@47+6 Interface@54+9 Map@64+3",
    ),
    (
        "package range select struct switch type var",
        "Package@0+7 Range@8+5 Select@14+6 Struct@21+6 Switch@28+6 Type@35+4 Var@40+3",
    ),
];

#[test]
fn identifiers_and_keywords(rt: HostRuntime) -> Result<(), Fail> {
    each_gives(&rt, rt.alloc(), &IDENTIFIERS_AND_KEYWORDS)
}

const NUMBERS: [(&str, &str); 32] = [
    ("0", "0@0+1 ;@1+0"),
    ("4_2", "42@0+3 ;@3+0"),
    ("0_600", "384@0+5 ;@5+0"),
    ("0o17", "15@0+4 ;@4+0"),
    ("0B101", "5@0+5 ;@5+0"),
    ("0xBad_Face", "195951310@0+10 ;@10+0"),
    (
        "18446744073709551615 18446744073709551616",
        "18446744073709551615@0+20 18446744073709551616@21+20 ;@41+0",
    ),
    (
        "170141183460469231731687303715884105727",
        "170141183460469231731687303715884105727@0+39 ;@39+0",
    ),
    (
        "170141183460469231731687303715884105728",
        "wide@0+39 ;@39+0",
    ),
    ("0x", "bad@0+2 ;@2+0"),
    ("0b2", "bad@0+3 ;@3+0"),
    ("1_", "bad@0+2 ;@2+0"),
    ("1__2", "bad@0+4 ;@4+0"),
    ("08", "bad@0+2 ;@2+0"),
    ("08.5", "float@0+4 ;@4+0"),
    ("08i", "imaginary@0+3 ;@3+0"),
    ("0x1.8", "1@0+3 float@3+2 ;@5+0"),
    ("0x1.8p", "1@0+3 bad@3+3 ;@6+0"),
    ("0x1p-2", "float@0+6 ;@6+0"),
    ("1i", "imaginary@0+2 ;@2+0"),
    ("0b1i", "imaginary@0+4 ;@4+0"),
    ("1.5e3i", "imaginary@0+6 ;@6+0"),
    (".5", "float@0+2 ;@2+0"),
    ("1..2", "float@0+2 float@2+2 ;@4+0"),
    ("1.5.6", "float@0+3 float@3+2 ;@5+0"),
    ("x.5", "x@0+1 float@1+2 ;@3+0"),
    ("x.y", "x@0+1 Dot@1+1 y@2+1 ;@3+0"),
    ("1.x", "bad@0+3 ;@3+0"),
    (".5x", "bad@0+3 ;@3+0"),
    ("1e+", "bad@0+2 Plus@2+1"),
    ("12ab_\u{663} 7", "bad@0+7 7@8+1 ;@9+0"),
    ("1\u{e9}", "bad@0+3 ;@3+0"),
];

#[test]
fn numbers(rt: HostRuntime) -> Result<(), Fail> {
    each_gives(&rt, rt.alloc(), &NUMBERS)
}

const RUNES: [(&str, &str); 29] = [
    ("'a'", "rune 97@0+3 ;@3+0"),
    ("'\u{e4}'", "rune 228@0+4 ;@4+0"),
    ("'\u{672c}'", "rune 26412@0+5 ;@5+0"),
    ("'\u{1f600}'", "rune 128512@0+6 ;@6+0"),
    ("'\"'", "rune 34@0+3 ;@3+0"),
    (
        "'\\a' '\\b' '\\f' '\\n'",
        "rune 7@0+4 rune 8@5+4 rune 12@10+4 rune 10@15+4 ;@19+0",
    ),
    (
        "'\\r' '\\t' '\\v' '\\\\'",
        "rune 13@0+4 rune 9@5+4 rune 11@10+4 rune 92@15+4 ;@19+0",
    ),
    ("'\\''", "rune 39@0+4 ;@4+0"),
    ("'\\\"'", "bad@0+4 ;@4+0"),
    ("'\\000'", "rune 0@0+6 ;@6+0"),
    ("'\\377'", "rune 255@0+6 ;@6+0"),
    ("'\\400'", "bad@0+6 ;@6+0"),
    ("'\\08'", "bad@0+5 ;@5+0"),
    ("'\\x07'", "rune 7@0+6 ;@6+0"),
    ("'\\xfF'", "rune 255@0+6 ;@6+0"),
    ("'\\x0'", "bad@0+5 ;@5+0"),
    ("'\\u12e4'", "rune 4836@0+8 ;@8+0"),
    (
        "'\\ud7ff' '\\ue000'",
        "rune 55295@0+8 rune 57344@9+8 ;@17+0",
    ),
    ("'\\ud800'", "bad@0+8 ;@8+0"),
    ("'\\udfff'", "bad@0+8 ;@8+0"),
    ("'\\U00101234'", "rune 1053236@0+12 ;@12+0"),
    ("'\\U0010ffff'", "rune 1114111@0+12 ;@12+0"),
    ("'\\U00110000'", "bad@0+12 ;@12+0"),
    ("'\\k'", "bad@0+4 ;@4+0"),
    ("'ab' + 1", "bad@0+8 ;@8+0"),
    ("'ab'\nx", "bad@0+4 ;@4+0 x@5+1 ;@6+0"),
    ("''", "bad@0+2 ;@2+0"),
    ("'", "bad@0+1 ;@1+0"),
    ("'\n'", "bad@0+1 ;@1+0 bad@2+1 ;@3+0"),
];

#[test]
fn runes(rt: HostRuntime) -> Result<(), Fail> {
    each_gives(&rt, rt.alloc(), &RUNES)
}

const STRINGS: [(&str, &str); 26] = [
    ("\"\"", "text @0+2 ;@2+0"),
    ("\"abc\"", "text 61 62 63@0+5 ;@5+0"),
    (
        "\"abcdefghijklmn\" `abcdefghijklmn`",
        "text 61 62 63 64 65 66 67 68 69 6a 6b 6c 6d 6e@0+16 text 61 62 63 64 65 66 67 68 69 6a 6b 6c 6d 6e@17+16 ;@33+0",
    ),
    (
        "\"abcdefghijklm\\nn\" `abcdefghijklmno`",
        "text 61 62 63 64 65 66 67 68 69 6a 6b 6c 6d 0a 6e@0+18 text 61 62 63 64 65 66 67 68 69 6a 6b 6c 6d 6e 6f@19+17 ;@36+0",
    ),
    ("\"\u{65e5}\"", "text e6 97 a5@0+5 ;@5+0"),
    (
        "\"\\u65e5\\U00008a9e\"",
        "text e6 97 a5 e8 aa 9e@0+18 ;@18+0",
    ),
    ("\"\\xff\\u00FF\"", "text ff c3 bf@0+12 ;@12+0"),
    ("\"\\101\\377\"", "text 41 ff@0+10 ;@10+0"),
    (
        "\"\\a\\b\\f\\n\\r\\t\\v\\\\\\\"\"",
        "text 07 08 0c 0a 0d 09 0b 5c 22@0+20 ;@20+0",
    ),
    ("\"'\"", "text 27@0+3 ;@3+0"),
    ("\"\u{feff}\u{0}\"", "text ef bb bf 00@0+6 ;@6+0"),
    ("\"a\r\"", "text 61 0d@0+4 ;@4+0"),
    ("\"\\'\"", "bad@0+4 ;@4+0"),
    ("\"\\xg\"", "bad@0+5 ;@5+0"),
    ("\"\\400\"", "bad@0+6 ;@6+0"),
    ("\"\\uD800\"", "bad@0+8 ;@8+0"),
    ("\"\\\"", "bad@0+3 ;@3+0"),
    ("\"abc", "bad@0+4 ;@4+0"),
    ("\"abc // x", "bad@0+9 ;@9+0"),
    ("\"abc\nx\"", "bad@0+4 ;@4+0 x@5+1 bad@6+1 ;@7+0"),
    ("``", "text @0+2 ;@2+0"),
    ("`a\\n\"'`", "text 61 5c 6e 22 27@0+7 ;@7+0"),
    ("`a\r\nb\r`", "text 61 0a 62@0+7 ;@7+0"),
    ("`\u{e9}` x", "text c3 a9@0+4 x@5+1 ;@6+0"),
    ("`abc", "bad@0+4 ;@4+0"),
    ("`a\nb // c", "bad@0+9 ;@9+0"),
];

#[test]
fn strings(rt: HostRuntime) -> Result<(), Fail> {
    each_gives(&rt, rt.alloc(), &STRINGS)
}

const COMMENTS_AND_BLANKS: [(&str, &str); 23] = [
    ("", ""),
    (" \t\r\n\n", ""),
    ("x // c\ny", "x@0+1 ;@1+0 y@7+1 ;@8+0"),
    ("x // c", "x@0+1 ;@1+0"),
    ("// x", ""),
    ("x /* c */ y", "x@0+1 y@10+1 ;@11+0"),
    ("x /* \n */ y", "x@0+1 ;@1+0 y@10+1 ;@11+0"),
    ("x/*a*/", "x@0+1 ;@1+0"),
    ("x/*a*//*\n*/", "x@0+1 ;@1+0"),
    ("/**/ /***/ /* / * */", ""),
    ("/*/", "bad@0+3 ;@3+0"),
    ("x /* open\ny", "x@0+1 bad@2+9 ;@11+0"),
    ("/* \u{feff}\u{0} \u{e9} */", ""),
    ("// \u{e9}\r\nx", "x@7+1 ;@8+0"),
    ("a\r\nb", "a@0+1 ;@1+0 b@3+1 ;@4+0"),
    ("a\u{a0}b", "a@0+1 bad@1+2 b@3+1 ;@4+0"),
    ("\u{feff}x", "x@3+1 ;@4+0"),
    ("\u{feff}", ""),
    ("\u{feff}\u{feff}", "bad@3+3 ;@6+0"),
    ("x\u{feff}", "x@0+1 bad@1+3 ;@4+0"),
    (" \u{feff}", "bad@1+3 ;@4+0"),
    (
        "#$?@~\\",
        "bad@0+1 bad@1+1 bad@2+1 bad@3+1 bad@4+1 bad@5+1 ;@6+0",
    ),
    ("\u{0}\u{7f}", "bad@0+1 bad@1+1 ;@2+0"),
];

#[test]
fn comments_and_blanks(rt: HostRuntime) -> Result<(), Fail> {
    each_gives(&rt, rt.alloc(), &COMMENTS_AND_BLANKS)
}

const OPERATORS: [(&str, &str); 14] = [
    (
        "+ - * / % & | ^ << >> &^ += .",
        "Plus@0+1 Minus@2+1 Star@4+1 Slash@6+1 Percent@8+1 And@10+1 Or@12+1 Caret@14+1 ShiftLeft@16+2 ShiftRight@19+2 AndNot@22+2 PlusAssign@25+2 Dot@28+1",
    ),
    (
        "-= *= /= %= &= |= ^= <<= >>= &^= && || .",
        "MinusAssign@0+2 StarAssign@3+2 SlashAssign@6+2 PercentAssign@9+2 AndAssign@12+2 OrAssign@15+2 CaretAssign@18+2 ShiftLeftAssign@21+3 ShiftRightAssign@25+3 AndNotAssign@29+3 LogicalAnd@33+2 LogicalOr@36+2 Dot@39+1",
    ),
    (
        "<- ++ -- == < > = ! != <= >= := .",
        "Arrow@0+2 Increment@3+2 Decrement@6+2 Equal@9+2 Less@12+1 Greater@14+1 Assign@16+1 Not@18+1 NotEqual@20+2 LessEqual@23+2 GreaterEqual@26+2 Define@29+2 Dot@32+1",
    ),
    (
        "... ( ) [ ] { } , ; . : .",
        "Ellipsis@0+3 LeftParen@4+1 RightParen@6+1 LeftBracket@8+1 RightBracket@10+1 LeftBrace@12+1 RightBrace@14+1 Comma@16+1 Semicolon@18+1 Dot@20+1 Colon@22+1 Dot@24+1",
    ),
    ("..", "Dot@0+1 Dot@1+1"),
    ("....", "Ellipsis@0+3 Dot@3+1"),
    ("a<-b", "a@0+1 Arrow@1+2 b@3+1 ;@4+0"),
    ("x---y", "x@0+1 Decrement@1+2 Minus@3+1 y@4+1 ;@5+0"),
    ("a&&^b", "a@0+1 LogicalAnd@1+2 Caret@3+1 b@4+1 ;@5+0"),
    (">>>=", "ShiftRight@0+2 GreaterEqual@2+2"),
    ("&^^=", "AndNot@0+2 CaretAssign@2+2"),
    (":==", "Define@0+2 Assign@2+1"),
    ("a/b", "a@0+1 Slash@1+1 b@2+1 ;@3+0"),
    ("/=/", "SlashAssign@0+2 Slash@2+1"),
];

#[test]
fn operators(rt: HostRuntime) -> Result<(), Fail> {
    each_gives(&rt, rt.alloc(), &OPERATORS)
}

const INSERTED_SEMICOLONS: [(&str, &str); 13] = [
    ("x\n", "x@0+1 ;@1+0"),
    ("x\n\ny\n", "x@0+1 ;@1+0 y@3+1 ;@4+0"),
    ("x \t// c\n", "x@0+1 ;@1+0"),
    (
        "1\n1.\n1i\n",
        "1@0+1 ;@1+0 float@2+2 ;@4+0 imaginary@5+2 ;@7+0",
    ),
    (
        "'a'\n\"a\"\n`a`\n",
        "rune 97@0+3 ;@3+0 text 61@4+3 ;@7+0 text 61@8+3 ;@11+0",
    ),
    ("#\n", "bad@0+1 ;@1+0"),
    (
        "break\ncontinue\nfallthrough\nreturn",
        "Break@0+5 ;@5+0 Continue@6+8 ;@14+0 Fallthrough@15+11 ;@26+0 Return@27+6 ;@33+0",
    ),
    (
        "++\n--\n)\n]\n}",
        "Increment@0+2 ;@2+0 Decrement@3+2 ;@5+0 RightParen@6+1 ;@7+0 RightBracket@8+1 ;@9+0 RightBrace@10+1 ;@11+0",
    ),
    (
        "if\nelse\nfunc\ngoto\n",
        "If@0+2 Else@3+4 Func@8+4 Goto@13+4",
    ),
    (
        "(\n[\n{\n,\n;\n.\n:\n",
        "LeftParen@0+1 LeftBracket@2+1 LeftBrace@4+1 Comma@6+1 Semicolon@8+1 Dot@10+1 Colon@12+1",
    ),
    (
        "+\n=\n:=\n...\n!\n<-\n",
        "Plus@0+1 Assign@2+1 Define@4+2 Ellipsis@7+3 Not@11+1 Arrow@13+2",
    ),
    ("x;\n", "x@0+1 Semicolon@1+1"),
    ("x)", "x@0+1 RightParen@1+1 ;@2+0"),
];

#[test]
fn inserted_semicolons(rt: HostRuntime) -> Result<(), Fail> {
    each_gives(&rt, rt.alloc(), &INSERTED_SEMICOLONS)
}

/// The chunks of a text, each with its first token and the place behind its last.
fn cuts(alloc: Global, tokens: &[Token]) -> Result<String, Fail>
    requires { length tokens.now < 2 ^ 32 }
{
    let mut all = String::new(alloc);
    for (first, end) in chunks(alloc, tokens)?.iter() {
        if !all.is_empty() {
            all.push(' ')?;
        }
        all.push_str(format!(in alloc; "{first}-{end}")?.as_str())?;
    }
    Ok(all)
}

const CHUNKS_ARE_CUT_AT_DEPTH_ZERO: [(&str, &str); 11] = [
    ("", ""),
    ("package a; func f() {", "0-3 3-8"),
    ("a;b", "0-2 2-4"),
    ("a;", "0-2"),
    ("f(a;b);", "0-7"),
    (");x", "0-2 2-4"),
    ("{;}", "0-4"),
    ("a\nb\n", "0-2 2-4"),
    ("([{;}]) ; x", "0-8 8-10"),
    ("}};{", "0-3 3-4"),
    (";;", "0-1 1-2"),
];

#[test]
fn chunks_are_cut_at_depth_zero(rt: HostRuntime) -> Result<(), Fail> {
    for (text, want) in CHUNKS_ARE_CUT_AT_DEPTH_ZERO {
        assert!(rt; text.len() < 1000);
        let tokens = scan(rt.alloc(), text)?;
        assert!(rt; tokens.len() < 1000);
        assert_eq!(rt;
            cuts(rt.alloc(), tokens.as_slice())?.as_str(),
            want,
            "of {text:?}"
        );
    }
    Ok(())
}

#[test]
fn a_token_is_small(rt: HostRuntime) -> Result<(), Fail> {
    assert_eq!(rt; size_of::<Token>(), 32);
    Ok(())
}

/// The offsets of the line comments of a text, with a space between.
fn comments(alloc: Global, text: &str) -> Result<String, Fail>
    requires { length text.now < 2 ^ 32 }
{
    let mut all = String::new(alloc);
    for offset in scan_all(alloc, text)?.comments.iter() {
        if !all.is_empty() {
            all.push(' ')?;
        }
        all.push_str(format!(in alloc; "{offset}")?.as_str())?;
    }
    Ok(all)
}

const LINE_COMMENTS: [(&str, &str); 10] = [
    ("", ""),
    ("// a", "0"),
    ("//\n//", "0 3"),
    ("x // a\n// b\n", "2 7"),
    ("/* // a */ x", ""),
    ("/* a\n// b\n*/ // c", "13"),
    ("`\n// a\n`", ""),
    ("\"// a\" // b", "7"),
    ("'/' / /// a", "6"),
    ("\u{feff}// a\n", "3"),
];

#[test]
fn line_comments_are_told(rt: HostRuntime) -> Result<(), Fail> {
    for (text, want) in LINE_COMMENTS {
        assert!(rt; text.len() < 1000);
        assert_eq!(rt; comments(rt.alloc(), text)?.as_str(), want, "of {text:?}");
    }
    Ok(())
}
