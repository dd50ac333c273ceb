//! Switches and selects, in a block.

/// Expression switches.
pub const SWITCH_BLOCKS: [(&str, &str); 59] = [
    ("{switch {}}", "{(switch empty; none {})}"),
    ("{switch {\n}}", "{(switch empty; none {})}"),
    ("{switch x {}}", "{(switch empty; x {})}"),
    ("{switch x {}; y}", "{(switch empty; x {}); y}"),
    ("{switch f(x).y {}}", "{(switch empty; (f (x) .y) {})}"),
    ("{switch a == b {}}", "{(switch empty; (a == b) {})}"),
    // With a header.
    ("{switch ; {}}", "{(switch empty; none {})}"),
    ("{switch ; x {}}", "{(switch empty; x {})}"),
    ("{switch x; {}}", "{(switch x; none {})}"),
    ("{switch x; y {}}", "{(switch x; y {})}"),
    ("{switch x := f(); x {}}", "{(switch x := (f ()); x {})}"),
    ("{switch x := f(); {}}", "{(switch x := (f ()); none {})}"),
    ("{switch x = y; x {}}", "{(switch x = y; x {})}"),
    ("{switch x++; {}}", "{(switch x ++; none {})}"),
    // Clauses.
    (
        "{switch x {case 1: a}}",
        "{(switch empty; x {[case 1 {a}]})}",
    ),
    (
        "{switch x {case 1, 2, f(y): a; b}}",
        "{(switch empty; x {[case 1, 2, (f (y)) {a; b}]})}",
    ),
    (
        "{switch {case x: }}",
        "{(switch empty; none {[case x {}]})}",
    ),
    (
        "{switch {case x: ;}}",
        "{(switch empty; none {[case x {empty}]})}",
    ),
    (
        "{switch {case x: a;}}",
        "{(switch empty; none {[case x {a}]})}",
    ),
    (
        "{switch {case x: a; case y: b}}",
        "{(switch empty; none {[case x {a}] [case y {b}]})}",
    ),
    (
        "{switch {case x: case y: a}}",
        "{(switch empty; none {[case x {}] [case y {a}]})}",
    ),
    (
        "{switch {default: }}",
        "{(switch empty; none {[default {}]})}",
    ),
    (
        "{switch x {case 1: a; default: b; case 2: c}}",
        "{(switch empty; x {[case 1 {a}] [default {b}] [case 2 {c}]})}",
    ),
    (
        "{switch x {\ncase 1:\n\ta\n\tfallthrough\n\ncase 2:\ndefault:\n\tb\n}}",
        "{(switch empty; x {[case 1 {a; (fallthrough)}] [case 2 {}] [default {b}]})}",
    ),
    (
        "{switch {case a == b, !c: {}}}",
        "{(switch empty; none {[case (a == b), (! c) {{}}]})}",
    ),
    (
        "{switch {case T{}.x: T{}}}",
        "{(switch empty; none {[case ((lit T {}) .x) {(lit T {})}]})}",
    ),
    (
        "{switch {case x: L: }}",
        "{(switch empty; none {[case x {(label L empty)}]})}",
    ),
    (
        "{switch {case x: L: y}}",
        "{(switch empty; none {[case x {(label L y)}]})}",
    ),
    (
        "{switch {case x: switch {case y: a}; default: b}}",
        "{(switch empty; none {[case x {(switch empty; none {[case y {a}]})}] [default {b}]})}",
    ),
    (
        "{switch {default: default: }}",
        "{(switch empty; none {[default {}] [default {}]})}",
    ),
    // In a header a name takes no literal outside brackets.
    (
        "{switch (T{}) {}}",
        "{(switch empty; (paren (lit T {})) {})}",
    ),
    (
        "{switch x := (T{}); f(T{}) {}}",
        "{(switch x := (paren (lit T {})); (f ((lit T {}))) {})}",
    ),
    ("{switch []T{} {}}", "{(switch empty; (lit ([] T) {}) {})}"),
    (
        "{switch f := func() T { return T{} }; f() {case T{}: }}",
        "{(switch f := (func [] T {(return (lit T {}))}); (f ()) {[case (lit T {}) {}]})}",
    ),
    ("{switch T{} {}}", "none"),
    ("{switch x := T{}; x {}}", "none"),
    ("{switch}", "none"),
    ("{switch x}", "none"),
    ("{switch x {} y}", "none"),
    ("{switch x\n{}}", "{(switch x; none {})}"),
    ("{switch x, y {}}", "none"),
    ("{switch x := y {}}", "none"),
    ("{switch x = y {}}", "none"),
    ("{switch a; b; c {}}", "none"),
    ("{switch var x = 1; x {}}", "none"),
    ("{switch {a}}", "none"),
    ("{switch {;}}", "none"),
    ("{switch {x: a}}", "none"),
    ("{switch {case: a}}", "none"),
    ("{switch {case x a}}", "none"),
    ("{switch {case x; a}}", "none"),
    ("{switch {case x,: a}}", "none"),
    ("{switch {case x := 1: a}}", "none"),
    ("{switch {case x: a case y: b}}", "none"),
    ("{switch {case x: L: case y: b}}", "none"),
    ("{switch {case x: {} case y: b}}", "none"),
    ("{switch {default a}}", "none"),
    ("{switch {default x: a}}", "none"),
    ("{switch {case x: a}", "none"),
];

/// Type switches.
pub const GUARD_BLOCKS: [(&str, &str); 38] = [
    ("{switch x.(type) {}}", "{(switch empty; x .type {})}"),
    (
        "{switch x := y.(type) {}}",
        "{(switch empty; x := y .type {})}",
    ),
    (
        "{switch _ := y.(type) {}}",
        "{(switch empty; _ := y .type {})}",
    ),
    (
        "{switch x.y().(type) {}}",
        "{(switch empty; (x .y ()) .type {})}",
    ),
    (
        "{switch x.(T).(type) {}}",
        "{(switch empty; (x .(T)) .type {})}",
    ),
    (
        "{switch x := y[0].(type) {}}",
        "{(switch empty; x := (y [0]) .type {})}",
    ),
    (
        "{switch (x).(type) {}}",
        "{(switch empty; (paren x) .type {})}",
    ),
    (
        "{switch (*p).(type) {}}",
        "{(switch empty; (paren (* p)) .type {})}",
    ),
    (
        "{switch f(T{}).(type) {}}",
        "{(switch empty; (f ((lit T {}))) .type {})}",
    ),
    (
        "{switch interface{}(x).(type) {}}",
        "{(switch empty; (<(interface {})> (x)) .type {})}",
    ),
    // With a header.
    ("{switch ; x.(type) {}}", "{(switch empty; x .type {})}"),
    (
        "{switch a := b; x.(type) {}}",
        "{(switch a := b; x .type {})}",
    ),
    (
        "{switch a := b; x := y.(type) {}}",
        "{(switch a := b; x := y .type {})}",
    ),
    (
        "{switch f(); x := y.(type) {}}",
        "{(switch (f ()); x := y .type {})}",
    ),
    // Clauses.
    (
        "{switch x.(type) {case T: a}}",
        "{(switch empty; x .type {[case T {a}]})}",
    ),
    (
        "{switch x.(type) {case p.T, *U, []V, nil: a; b}}",
        "{(switch empty; x .type {[case p.T, (* U), ([] V), nil {a; b}]})}",
    ),
    (
        "{switch x.(type) {case func(): }}",
        "{(switch empty; x .type {[case (func []) {}]})}",
    ),
    (
        "{switch x.(type) {case func(T) U, (V): }}",
        "{(switch empty; x .type {[case (func [T] U), (paren V) {}]})}",
    ),
    (
        "{switch x.(type) {case <-chan T: }}",
        "{(switch empty; x .type {[case (<-chan T) {}]})}",
    ),
    (
        "{switch x.(type) {case struct{}, interface{ m() }: }}",
        "{(switch empty; x .type {[case (struct {}), (interface {m []}) {}]})}",
    ),
    (
        "{switch x.(type) {default: a}}",
        "{(switch empty; x .type {[default {a}]})}",
    ),
    (
        "{switch x.(type) {case T: case U: a; default: ; case V: b}}",
        "{(switch empty; x .type {[case T {}] [case U {a}] [default {empty}] [case V {b}]})}",
    ),
    (
        "{switch x := y.(type) {\ncase T:\n\ta\ndefault:\n\tb\n}}",
        "{(switch empty; x := y .type {[case T {a}] [default {b}]})}",
    ),
    ("{switch x.(type)}", "none"),
    ("{switch x.(type) {} y}", "none"),
    ("{switch x, y := z.(type) {}}", "none"),
    ("{switch x = y.(type) {}}", "none"),
    ("{switch x.y := z.(type) {}}", "none"),
    ("{switch x := y := z.(type) {}}", "none"),
    ("{switch T{}.(type) {}}", "none"),
    ("{switch x.(type) {case 1: }}", "none"),
    ("{switch x.(type) {case T{}: }}", "none"),
    ("{switch x.(type) {case a.b.c: }}", "none"),
    ("{switch x.(type) {case T U: }}", "none"),
    ("{switch x.(type) {case T,: }}", "none"),
    ("{switch x.(type) {case: }}", "none"),
    ("{switch x.(type) {case x := T: }}", "none"),
    ("{switch x.(type) {case T: a case U: b}}", "none"),
];

/// Switches that go/parser reads otherwise: the guard stands at its place alone.
pub const UNLIKE_GUARD_BLOCKS: [(&str, &str); 14] = [
    ("{switch x.(type); {}}", "none"),
    ("{switch x := y.(type); {}}", "none"),
    ("{switch -x.(type) {}}", "none"),
    ("{switch <-x.(type) {}}", "none"),
    ("{switch x + y.(type) {}}", "none"),
    ("{switch x.(type) + y {}}", "none"),
    ("{switch x.(type).y {}}", "none"),
    ("{switch (x.(type)) {}}", "none"),
    ("{switch x.(type)\n{}}", "none"),
    ("{x.(type)}", "none"),
    ("{x := y.(type)}", "none"),
    ("{f(x.(type))}", "none"),
    ("{if x.(type) {}}", "none"),
    ("{for x.(type) {}}", "none"),
];

/// Select statements.
pub const SELECT_BLOCKS: [(&str, &str); 32] = [
    ("{select {}}", "{(select {})}"),
    (
        "{select {case c <- v: a}}",
        "{(select {[case c <- v {a}]})}",
    ),
    (
        "{select {case c[0] <- x + 1: }}",
        "{(select {[case (c [0]) <- (x + 1) {}]})}",
    ),
    (
        "{select {case <-c: a; b}}",
        "{(select {[case receive (<- c) {a; b}]})}",
    ),
    (
        "{select {case (<-c): }}",
        "{(select {[case receive (paren (<- c)) {}]})}",
    ),
    (
        "{select {case x := <-c: }}",
        "{(select {[case x := (<- c) {}]})}",
    ),
    (
        "{select {case x, ok := <-c: }}",
        "{(select {[case x, ok := (<- c) {}]})}",
    ),
    (
        "{select {case x = <-c: }}",
        "{(select {[case x = (<- c) {}]})}",
    ),
    (
        "{select {case a, b = <-c: }}",
        "{(select {[case a, b = (<- c) {}]})}",
    ),
    (
        "{select {case a[i], *p = <-c: }}",
        "{(select {[case (a [i]), (* p) = (<- c) {}]})}",
    ),
    ("{select {default: }}", "{(select {[default {}]})}"),
    (
        "{select {case <-c: ; case d <- T{}: a; default: b}}",
        "{(select {[case receive (<- c) {empty}] [case d <- (lit T {}) {a}] [default {b}]})}",
    ),
    (
        "{select {\ncase x := <-c:\n\ta\ncase <-d:\ndefault:\n\tb\n}}",
        "{(select {[case x := (<- c) {a}] [case receive (<- d) {}] [default {b}]})}",
    ),
    // Typing wants a receive.
    (
        "{select {case f(): }}",
        "{(select {[case receive (f ()) {}]})}",
    ),
    ("{select {case x := y: }}", "{(select {[case x := y {}]})}"),
    ("{select}", "none"),
    ("{select x {}}", "none"),
    ("{select ; {}}", "none"),
    ("{select {x}}", "none"),
    ("{select {case: }}", "none"),
    ("{select {case x, y: }}", "none"),
    ("{select {case x++: }}", "none"),
    ("{select {case x += 1: }}", "none"),
    ("{select {case var x: }}", "none"),
    ("{select {case c <- a, b: }}", "none"),
    ("{select {case a, b <- c: }}", "none"),
    ("{select {case x := <-c, <-d: }}", "none"),
    ("{select {case x = <-c, <-d: }}", "none"),
    ("{select {case c <-: }}", "none"),
    ("{select {case <-c a}}", "none"),
    ("{select {case <-c: a case <-d: b}}", "none"),
    ("{select {case <-c: a}", "none"),
];

/// Statements that go/parser refuses, and typing here: what stands behind `go` and `defer`, on the left of `:=`, and before a
/// receive or a range; and types as operands.
pub const UNLIKE_BLOCKS: [(&str, &str); 23] = [
    ("{go f}", "{(go f)}"),
    ("{go (f())}", "{(go (paren (f ())))}"),
    ("{defer <-c}", "{(defer (<- c))}"),
    ("{defer func() {}}", "{(defer (func [] {}))}"),
    ("{f() := 1}", "{(f ()) := 1}"),
    ("{x, y.z := 1, 2}", "{x, (y .z) := 1, 2}"),
    ("{if 1 := x; y {}}", "{(if [1 := x; y {}])}"),
    ("{for *p := range x {}}", "{(range (* p) := x {})}"),
    ("{for x, y, z := range c {}}", "{(range x, y, z := c {})}"),
    ("{for x, y, z = range c {}}", "{(range x, y, z = c {})}"),
    (
        "{select {case x, y, z = <-c: }}",
        "{(select {[case x, y, z = (<- c) {}]})}",
    ),
    (
        "{select {case x, y, z := <-c: }}",
        "{(select {[case x, y, z := (<- c) {}]})}",
    ),
    ("{[]T}", "{<([] T)>}"),
    ("{for []T { x; y }}", "{(while <([] T)> {x; y})}"),
    ("{for chan T {}}", "{(while <(chan T)> {})}"),
    ("{if chan T {}}", "{(if [empty; <(chan T)> {}])}"),
    (
        "{switch []T { case x: }}",
        "{(switch empty; <([] T)> {[case x {}]})}",
    ),
    (
        "{switch func() { case x: }}",
        "{(switch empty; <(func [])> {[case x {}]})}",
    ),
    // No label behind `goto`.
    ("{goto}", "none"),
    // Several operands of an assignment operation.
    ("{x, y += 1, 2}", "none"),
    ("{x += 1, 2}", "none"),
    // A definition at the end of a for clause.
    ("{for ;; x := 1 {}}", "none"),
    ("{for i := 0; i < n; i := 1 {}}", "none"),
];
