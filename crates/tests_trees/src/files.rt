//! Whole files.

/// A file: its text, the trees of its chunks line by line, and its faults, each a code, an offset and a length.
pub const FILES: [(&str, &str, &str); 36] = [
    (
        "package p\n\nimport (\n\t\"a\"\n\tb \"c/d\"\n)\n\nconst x = 1\n\ntype T struct {\n\ty int\n}\n\nvar z, w T\n\n\
        func (t *T) m() int {\n\treturn t.y\n}\n",
        "(package p)\n(import {\"a\"; b \"c/d\"})\n(const x = 1)\n(type T (struct {y : int}))\n(var z w : T)\n\
        (method [t : (* T)] m [] int {(return (t .y))})",
        "",
    ),
    ("package p", "(package p)", ""),
    ("package p\n", "(package p)", ""),
    ("// c\n\npackage /* c */ p // c\n/* c */", "(package p)", ""),
    ("\u{feff}package p\n", "(package p)", ""),
    (
        "package p; import \"a\"; import (); var x int; func f() {}",
        "(package p)\n(import {\"a\"})\n(import {})\n(var x : int)\n(func f [] {})",
        "",
    ),
    (
        "package p\r\nvar x = 1.5\r\n",
        "(package p)\n(var x = 1.5)",
        "",
    ),
    // No tokens.
    ("", "", "G01@0+0"),
    (" \t\r\n\n", "", "G01@0+0"),
    ("\u{feff}", "", "G01@0+0"),
    ("// c\n/* c */\n", "", "G01@0+0"),
    // Bad chunks between good ones.
    (
        "package p\nvar a int\nvar b\nvar c int\nx := 1\nvar d int\n",
        "(package p)\n(var a : int)\n(var c : int)\n(var d : int)",
        "G01@20+3 G01@36+1",
    ),
    (
        "package p\nimport a\nimport \"b\"\nfunc {\n}\nfunc f() {}\n",
        "(package p)\n(import {\"b\"})\n(func f [] {})",
        "G01@10+6 G01@30+4",
    ),
    (
        "package p\nfunc f() { x y }; func g() {\n\tx y\n}\nfunc h() { x }\n",
        "(package p)\n(func h [] {x})",
        "G01@10+4 G01@28+4",
    ),
    (
        "package p\nfunc f()\n{\n}\n",
        "(package p)\n(func f [])",
        "G01@19+1",
    ),
    (
        "package p;; var x int",
        "(package p)\n(var x : int)",
        "G01@10+1",
    ),
    // A chunk that nothing closes, and brackets that close nothing.
    (
        "package p\nvar a int\nfunc f() {\n\tx\nvar b int\n",
        "(package p)\n(var a : int)",
        "G01@20+4",
    ),
    (
        "package p\nvar a = (1\nvar b int\n",
        "(package p)",
        "G01@10+3",
    ),
    (
        "package p\nfunc f() {}\n}\nvar a int\n",
        "(package p)\n(func f [] {})\n(var a : int)",
        "G01@22+1",
    ),
    (
        "package p\nvar a = 1)\nvar b int\n",
        "(package p)\n(var b : int)",
        "G01@10+3",
    ),
    // Bad tokens.
    (
        "package p\nvar a = # + ?\nvar b int\n",
        "(package p)\n(var b : int)",
        "G02@18+1 G02@22+1",
    ),
    ("package p\nx # y\n", "(package p)", "G02@12+1"),
    (
        "package p\nvar a = 1.x\nvar b = 'c\nvar d = 2\n",
        "(package p)\n(var d = 2)",
        "G02@18+3 G02@30+2",
    ),
    (
        "package p\nvar a = \"b\nvar c int\n",
        "(package p)\n(var c : int)",
        "G02@18+2",
    ),
    (
        "package p\nvar a = `b\nvar c int\n",
        "(package p)",
        "G02@18+13",
    ),
    ("package p\nvar a int /* b\n", "(package p)", "G02@20+5"),
    ("package #\nvar a int\n", "(var a : int)", "G02@8+1"),
    (
        "package p\nvar a\n#\nfunc f() {\n\t#\n}\nvar b int\n",
        "(package p)\n(var b : int)",
        "G01@10+3 G02@16+1 G02@30+1",
    ),
    // The package clause, imports and declarations stand in this order.
    (
        "package p\nimport \"a\"\nvar x int\nimport \"b\"\nvar y int\n",
        "(package p)\n(import {\"a\"})\n(var x : int)\n(var y : int)",
        "G01@31+6",
    ),
    (
        "package p\nvar x\nimport \"b\"\n",
        "(package p)\n(import {\"b\"})",
        "G01@10+3",
    ),
    (
        "package p\nvar x int\nvar y\nimport (\"b\")\n",
        "(package p)\n(var x : int)",
        "G01@20+3 G01@26+6",
    ),
    (
        "package p\npackage q\nvar x int\n",
        "(package p)\n(var x : int)",
        "G01@10+7",
    ),
    ("var x int\nvar y int\n", "(var y : int)", "G01@0+3"),
    (
        "import \"a\"\npackage p\nimport \"b\"\n",
        "(import {\"b\"})",
        "G01@0+6 G01@11+7",
    ),
    (
        "x\nimport \"a\"\nvar y int\nimport \"b\"\n",
        "(import {\"a\"})\n(var y : int)",
        "G01@0+1 G01@23+6",
    ),
    (
        "package 1\npackage p\nvar x int\n",
        "(var x : int)",
        "G01@0+7 G01@10+7",
    ),
];
