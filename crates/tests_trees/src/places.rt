//! Trees at places behind the first one, and trees that nest deep.

/// A text, a place in it, and the tree with the place behind it.
pub const TYPE_PLACES: [(&str, u32, &str); 5] = [
    ("var x map[K]*V", 2, "(map K (* V)) to 8"),
    ("var x map[K]*V", 3, "(array K (* V)) to 8"),
    ("var x map[K]*V", 4, "K to 5"),
    ("var x map[K]*V", 6, "(* V) to 8"),
    ("var x map[K]*V", 9, "none"),
];

pub const EXPR_PLACES: [(&str, u32, &str); 13] = [
    ("1 + 2", 0, "(1 + 2) to 3"),
    ("1 + 2", 1, "(+ 2) to 3"),
    ("1 + 2", 2, "2 to 3"),
    ("1 + 2", 3, "none"),
    ("1 + 2", 4, "none"),
    (")", 0, "none"),
    ("", 0, "none"),
    ("a + b * c", 2, "(b * c) to 5"),
    ("f(x, y)(z)", 0, "(f (x, y) (z)) to 9"),
    ("f(x, y)(z)", 1, "none"),
    ("f(x, y)(z)", 2, "x to 3"),
    ("f(x, y)(z)", 6, "(paren z) to 9"),
    ("if x == T{} {}", 1, "(x == (lit T {})) to 6"),
];

pub const HEADER_PLACES: [(&str, u32, &str); 2] = [
    ("if x == T{} {}", 1, "(x == T) to 4"),
    ("if x == T{} {}", 3, "T to 4"),
];

pub const BLOCK_PLACES: [(&str, u32, &str); 3] = [
    ("if x { y; z }", 2, "{y; z} to 7"),
    ("if x { y; z }", 3, "none"),
    ("if x { y; z }", 8, "none"),
];

pub const CHUNK_PLACES: [(&str, u32, &str); 6] = [
    (
        "package p\nimport \"a\"\nvar x int\n",
        0,
        "(package p) to 3",
    ),
    (
        "package p\nimport \"a\"\nvar x int\n",
        3,
        "(import {\"a\"}) to 6",
    ),
    (
        "package p\nimport \"a\"\nvar x int\n",
        6,
        "(var x : int) to 10",
    ),
    ("package p\nimport \"a\"\nvar x int\n", 7, "none"),
    ("package p\nimport \"a\"\nvar x int\n", 10, "none"),
    ("func f() { var x int; y }", 5, "(var x : int) to 9"),
];

/// Texts and trees made by repeating parts of them: of the text the front, what opens a level, the middle, what closes it, and
/// the back; then the same of the tree. The number of a table is the count of the parts with which a tree nests 200 deep, or
/// 199 where each part is two levels.
pub const TYPE_200: [[&str; 10]; 10] = [
    ["", "*", "int", "", "", "", "(* ", "int", ")", ""],
    ["", "(", "T", ")", "", "", "(paren ", "T", ")", ""],
    ["", "[]", "T", "", "", "", "([] ", "T", ")", ""],
    ["", "[3]", "T", "", "", "", "(array 3 ", "T", ")", ""],
    ["", "map[K]", "V", "", "", "", "(map K ", "V", ")", ""],
    ["", "map[", "K", "]V", "", "", "(map ", "K", " V)", ""],
    ["", "chan ", "T", "", "", "", "(chan ", "T", ")", ""],
    ["", "chan<- ", "T", "", "", "", "(chan<- ", "T", ")", ""],
    ["", "<-chan ", "T", "", "", "", "(<-chan ", "T", ")", ""],
    [
        "",
        "struct{ a ",
        "T",
        " }",
        "",
        "",
        "(struct {a : ",
        "T",
        "})",
        "",
    ],
];

pub const TYPE_199: [[&str; 10]; 3] = [
    [
        "[", "(", "3", ")", "]T", "(array ", "(paren ", "3", ")", " T)",
    ],
    ["", "func() ", "T", "", "", "", "(func [] ", "T", ")", ""],
    [
        "",
        "interface{ m() ",
        "T",
        " }",
        "",
        "",
        "(interface {m [] ",
        "T",
        "})",
        "",
    ],
];

pub const TYPE_100: [[&str; 10]; 2] = [
    ["", "func(", "T", ")", "", "", "(func [", "T", "])", ""],
    [
        "",
        "func(a ...",
        "T",
        ")",
        "",
        "",
        "(func [a : ... ",
        "T",
        "])",
        "",
    ],
];

pub const EXPR_200: [[&str; 10]; 15] = [
    ["", "(", "x", ")", "", "", "(paren ", "x", ")", ""],
    ["", "- ", "x", "", "", "", "(- ", "x", ")", ""],
    ["", "*", "x", "", "", "", "(* ", "x", ")", ""],
    ["", "<-", "x", "", "", "", "(<- ", "x", ")", ""],
    ["", "f(", "x", ")", "", "", "(f (", "x", "))", ""],
    [
        "", "f(1, ", "x", "...)", "", "", "(f (1, ", "x", " ...))", "",
    ],
    ["", "a[", "x", "]", "", "", "(a [", "x", "])", ""],
    ["", "a[1:", "x", "]", "", "", "(a [1 : ", "x", "])", ""],
    ["", "a[:1:", "x", "]", "", "", "(a [: 1 : ", "x", "])", ""],
    ["", "T{", "1", "}", "", "", "(lit T {", "1", "})", ""],
    ["T", "{", "", "}", "", "(lit T ", "{", "", "}", ")"],
    ["", "T{a: ", "1", "}", "", "", "(lit T {a : ", "1", "})", ""],
    [
        "",
        "[...]T{",
        "1",
        "}",
        "",
        "",
        "(counted T {",
        "1",
        "})",
        "",
    ],
    ["", "[]", "T", "", "{}", "(lit ", "([] ", "T", ")", " {})"],
    ["", "(1 + ", "x", ")", "", "", "(paren (1 + ", "x", "))", ""],
];

pub const EXPR_199: [[&str; 10]; 2] = [
    ["x.(", "*", "T", "", ")", "(x .(", "(* ", "T", ")", "))"],
    [
        "f(", "<-chan ", "T", "", ")", "(f (<", "(<-chan ", "T", ")", ">))",
    ],
];

pub const EXPR_100: [[&str; 10]; 1] = [[
    "",
    "func() { ",
    "",
    " }",
    "",
    "",
    "(func [] {",
    "",
    "})",
    "",
]];

pub const HEADER_199: [[&str; 10]; 1] = [[
    "",
    "(",
    "T{}",
    ")",
    " {}",
    "",
    "(paren ",
    "(lit T {})",
    ")",
    " .. {}",
]];

pub const BLOCK_200: [[&str; 10]; 2] = [
    ["", "{", "", "}", "", "", "{", "", "}", ""],
    ["", "{a; ", "b", "}", "", "", "{a; ", "b", "}", ""],
];

pub const BLOCK_199: [[&str; 10]; 11] = [
    ["{", "L: ", "x", "", "}", "{", "(label L ", "x", ")", "}"],
    ["{", "L: ", "", "", "}", "{", "(label L ", "empty", ")", "}"],
    [
        "{",
        "if x {",
        "",
        "}",
        "}",
        "{",
        "(if [empty; x {",
        "",
        "}])",
        "}",
    ],
    [
        "{",
        "if x {} else {",
        "",
        "}",
        "}",
        "{",
        "(if [empty; x {}] else {",
        "",
        "})",
        "}",
    ],
    [
        "{",
        "for {",
        "",
        "}",
        "}",
        "{",
        "(while none {",
        "",
        "})",
        "}",
    ],
    [
        "{",
        "for ;; {",
        "",
        "}",
        "}",
        "{",
        "(for empty; none; empty {",
        "",
        "})",
        "}",
    ],
    [
        "{",
        "for range x {",
        "",
        "}",
        "}",
        "{",
        "(range x {",
        "",
        "})",
        "}",
    ],
    [
        "{",
        "switch x {case 1: ",
        "a",
        "}",
        "}",
        "{",
        "(switch empty; x {[case 1 {",
        "a",
        "}]})",
        "}",
    ],
    [
        "{",
        "switch x.(type) {default: ",
        "a",
        "}",
        "}",
        "{",
        "(switch empty; x .type {[default {",
        "a",
        "}]})",
        "}",
    ],
    [
        "{",
        "select {case c <- 1: ",
        "a",
        "}",
        "}",
        "{",
        "(select {[case c <- 1 {",
        "a",
        "}]})",
        "}",
    ],
    ["{x := ", "- ", "1", "", "}", "{x := ", "(- ", "1", ")", "}"],
];

pub const CHUNK_200: [[&str; 10]; 5] = [
    [
        "var x = ",
        "(",
        "1",
        ")",
        "\n",
        "(var x = ",
        "(paren ",
        "1",
        ")",
        ")",
    ],
    [
        "var x ",
        "*",
        "T",
        "",
        "\n",
        "(var x : ",
        "(* ",
        "T",
        ")",
        ")",
    ],
    [
        "type T ", "[]", "U", "", "\n", "(type T ", "([] ", "U", ")", ")",
    ],
    [
        "func f() ",
        "{",
        "",
        "}",
        "\n",
        "(func f [] ",
        "{",
        "",
        "}",
        ")",
    ],
    [
        "func f() ",
        "*",
        "T",
        "",
        " {}\n",
        "(func f [] ",
        "(* ",
        "T",
        ")",
        " {})",
    ],
];

pub const CHUNK_199: [[&str; 10]; 2] = [
    [
        "var (x = ",
        "(",
        "1",
        ")",
        ")\n",
        "(var {x = ",
        "(paren ",
        "1",
        ")",
        "})",
    ],
    [
        "func (t ",
        "*",
        "T",
        "",
        ") m()\n",
        "(method [t : ",
        "(* ",
        "T",
        ")",
        "] m [])",
    ],
];
