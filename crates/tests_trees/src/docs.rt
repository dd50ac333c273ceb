//! The docs of files.

/// A file, and its docs: the offset of each, and the text in brackets. In each text `package p` and an empty line stand on the
/// first 11 bytes, where they stand there.
pub const DOCS: [(&str, &str); 63] = [
    // Above a declaration.
    ("package p\n\n// A\nfunc f() {}\n", "16 [A]"),
    ("package p\n\n// A\n// B c.\nfunc f() {}\n", "24 [A\nB c.]"),
    ("package p\n\n// A\nfunc (t T) m() {}\n", "16 [A]"),
    (
        "package p\n\n// A\nvar x int\n// B\nconst y = 1\n// C\ntype T int\n",
        "16 [A] 31 [B] 48 [C]",
    ),
    ("package p\n\nvar x int\nfunc f() {}\n", ""),
    // Above the package clause and an import.
    ("// A\npackage p\n", "5 [A]"),
    ("// A\n// B\n\n// C\npackage p\n", "16 [C]"),
    ("\u{feff}// A\npackage p\n", "8 [A]"),
    (
        "package p\n\n// A\nimport \"a\"\n// B\nimport (\n\t// C\n\t\"b\"\n)\n",
        "16 [A] 32 [B] 48 [C]",
    ),
    // Above a spec of a group, and above its keyword.
    (
        "package p\n\nconst (\n\t// A\n\tx = 1\n\t// B\n\t// C\n\ty = 2\n)\n",
        "26 [A] 45 [B\nC]",
    ),
    (
        "package p\n\nvar (\n\tx int\n\n\t// A\n\ty int\n\tz int\n)\n",
        "32 [A]",
    ),
    (
        "package p\n\ntype (\n\t// A\n\tT struct {\n\t\t// B\n\t\tx int\n\t}\n\n\t// C\n\tU int\n)\n",
        "25 [A] 62 [C]",
    ),
    ("package p\n\n// A\nvar (\n\tx int\n)\n", "16 [A]"),
    (
        "package p\n\n// A\nvar (\n\t// B\n\tx int\n)\n",
        "16 [A] 29 [B]",
    ),
    (
        "package p\n\nvar (\n\tx = f(\n\t\t// A\n\t\ty,\n\t)\n\t// B\n\tz int\n)\n",
        "47 [B]",
    ),
    ("package p\n\nvar (\n\t// A\n)\n", ""),
    // Above a declaration in a body.
    (
        "package p\n\nfunc f() {\n\t// A\n\tvar x int\n\t// B\n\tconst y = 1\n\t// C\n\ttype T int\n\t// D\n\tx = 1\n}\n",
        "29 [A] 46 [B] 65 [C]",
    ),
    (
        "package p\n\nfunc f() {\n\tvar (\n\t\t// A\n\t\tx int\n\t)\n}\n",
        "38 [A]",
    ),
    (
        "package p\n\nvar f = func() {\n\t// A\n\tvar x int\n}\n",
        "35 [A]",
    ),
    (
        "package p\n\n// A\nfunc f() {\n\t// B\n\tvar x int\n}\n",
        "16 [A] 34 [B]",
    ),
    // The keyword of a type switch begins no declaration.
    (
        "package p\n\nfunc f() {\n\tswitch x.(\n\t// A\n\ttype) {\n\t}\n}\n",
        "",
    ),
    // Ends of lines, and blanks.
    (
        "package p\r\n\r\n// A\r\n// B\r\nfunc f() {}\r\n",
        "25 [A\nB]",
    ),
    ("package p\n\n \t // A\nfunc f() {}\n", "19 [A]"),
    ("package p\n\n// A\n \tfunc f() {}\n", "18 [A]"),
    (
        "package p\n\n  // A\n\t\t// B\n\tfunc f() {}\n",
        "26 [A\nB]",
    ),
    ("package p\n\n\r// A\nfunc f() {}\n", ""),
    ("package p\n\n// A\n\rfunc f() {}\n", ""),
    // A line without a comment ends a doc.
    ("package p\n\n// A\n\nfunc f() {}\n", ""),
    ("package p\n\n// A\n \t\nfunc f() {}\n", ""),
    ("package p\n\n// A\n\n// B\nfunc f() {}\n", "22 [B]"),
    ("package p\n\n// A\nvar x int\nfunc f() {}\n", "16 [A]"),
    ("package p\n\nvar x int // A\nfunc f() {}\n", ""),
    ("package p\n\nvar x int // A\n// B\nfunc f() {}\n", "31 [B]"),
    ("package p\n\nconst ( // A\n\tx = 1\n)\n", ""),
    // What a comment says.
    ("package p\n\n//A\nfunc f() {}\n", "15 [A]"),
    ("package p\n\n//  A\nfunc f() {}\n", "17 [ A]"),
    ("package p\n\n//\tA\nfunc f() {}\n", "16 [\tA]"),
    ("package p\n\n// A \t\nfunc f() {}\n", "18 [A \t]"),
    ("package p\n\n///A\nfunc f() {}\n", "16 [/A]"),
    ("package p\n\n//\nfunc f() {}\n", "14 []"),
    ("package p\n\n// \nfunc f() {}\n", "15 []"),
    ("package p\n\n// A\n//\n// B\nfunc f() {}\n", "24 [A\n\nB]"),
    ("package p\n\n// A /* b\nfunc f() {}\n", "21 [A /* b]"),
    (
        "package p\n\n// A \"b\n// `c\nfunc f() {}\n",
        "25 [A \"b\n`c]",
    ),
    (
        "package p\n\n// \u{3b1}\u{4e16}\nfunc f() {}\n",
        "20 [\u{3b1}\u{4e16}]",
    ),
    // Other comments, and what is none.
    ("package p\n\n/* A */\nfunc f() {}\n", ""),
    ("package p\n\n// A\n/* B */\nfunc f() {}\n", ""),
    ("package p\n\n/* A */\n// B\nfunc f() {}\n", "24 [B]"),
    ("package p\n\n/* A */ // B\nfunc f() {}\n", ""),
    ("package p\n\n/* a\n// A */\nfunc f() {}\n", ""),
    ("package p\n\n/* a\n// A\n*/\n// B\nfunc f() {}\n", "29 [B]"),
    ("package p\n\nvar x = `\n// A`\nfunc f() {}\n", ""),
    ("package p\n\nvar x = `\n// A\n`\nfunc f() {}\n", ""),
    (
        "package p\n\nvar x = `\n// A`\n// B\nfunc f() {}\n",
        "32 [B]",
    ),
    // A declaration that is not the first on its line.
    ("package p\n\n// A\nvar x int; var y int\n", "16 [A]"),
    ("package p\n\nvar (\n\t// A\n\tx int; y int\n)\n", "24 [A]"),
    ("package p\n\n// A\n/* b */ var x int\n", ""),
    ("// A\npackage p; var x int\n", "5 [A]"),
    (
        "package p\n\nfunc f() {\n\t// A\n\tx = 1; var y int\n}\n",
        "",
    ),
    // A chunk that is dropped has none.
    ("package p\n\n// A\nvar x\n\n// B\nvar y int\n", "28 [B]"),
    (
        "package p\n\n// A\nfunc f() {\n\t// B\n\tvar x int\n\ty z\n}\n\n// C\nvar z int\n",
        "57 [C]",
    ),
    ("// A\nvar x int\n// B\nvar y int\n", "20 [B]"),
    ("package p\n\n// A\nvar x = #\n", ""),
];
