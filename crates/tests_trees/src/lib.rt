//! Tests of trees: which tree stands for a text, in a notation of one line.
//!
//! A tree stands in parentheses, its parts in order; names, operators and literals are written as in Go, integers in base ten,
//! runes and strings by their value.
//!
//! | Tree | Notation |
//! |---|---|
//! | types | `T` `p.T` `(paren T)` `(* T)` `([] T)` `(array 3 T)` `(map K V)` `(chan T)` `(chan<- T)` `(<-chan T)` `(func [T] U)` `(struct {a b : T "tag"; U})` `(interface {m []; I})` |
//! | signatures | `[]`, with one result `[] T`, with results in parentheses `[] [T]` |
//! | parameters | `[T, ... U]`, with names `[a b : T, c : ... U]` |
//! | operands | `x` `1` `(paren x)` `(lit T {x, k : v, {x}})` `(counted T {x})` `(func [] {x})`, a type `<T>` |
//! | with suffixes | `(x .y .(T) [i] [a : b] [: b : c] (x, y ...))` |
//! | with operators | `(- x)`, those of one precedence `(a + b - c)` |
//! | blocks | `{x; y}`, the statement that is nothing is `empty` |
//! | simple statements | `x` `c <- v` `x ++` `x, y = 1, 2` `x += 1` `x := 1` |
//! | statements | `(label L x)` `(go x)` `(defer x)` `(return x, y)` `(break L)` `(continue L)` `(goto L)` `(fallthrough)` |
//! | arms | `(if [header; x {y}] [header; x {y}] else {z})` |
//! | switches | `(switch header; x {[case 1, 2 {y}] [default {}]})`, over types `(switch header; x := y .type {[case T {z}]})` |
//! | select | `(select {[case c <- v {}] [case receive x {}] [case x := y {}]})` |
//! | loops | `(while x {})` `(for header; x; x ++ {})` `(range k, v := x {})` `(range x {})` |
//! | declarations | `(const x = 1)` `(var x y : T = 1, 2)` `(type T U)` `(type T = U)`, groups `(const {x : T = 1; y})` |
//! | functions | `(func f [] {})` `(method [t : T] m [])` |
//! | other chunks | `(package p)` `(import {"a"; . "b"; c "d"})` |
//!
//! An expression that is left out is `none`. Where a table is about places, `@` with an offset and a length stands behind each
//! name, operator and literal, and behind the word, the bracket or the mark whose span a tree keeps; both spans of a pair of
//! brackets stand behind the closing one.
//!
//! Go's own parser was asked about each text of the tables of types, expressions, blocks and chunks, and gave the same tree, or
//! none. Where it answers otherwise, the text stands in a table `UNLIKE`.
#![tactic(auto)]

#[cfg(test)]
mod ask;
#[cfg(test)]
mod ask_files;
#[cfg(test)]
mod chunks;
#[cfg(test)]
mod docs;
#[cfg(test)]
mod expressions;
#[cfg(test)]
mod files;
#[cfg(test)]
mod part;
#[cfg(test)]
mod places;
#[cfg(test)]
mod print;
#[cfg(test)]
mod print_clauses;
#[cfg(test)]
mod print_decls;
#[cfg(test)]
mod print_exprs;
#[cfg(test)]
mod print_stmts;
#[cfg(test)]
mod print_types;
#[cfg(test)]
mod spans;
#[cfg(test)]
mod statements;
#[cfg(test)]
mod switches;
#[cfg(test)]
mod tests;
#[cfg(test)]
mod types;
#[cfg(test)]
mod words;
