//! Tests of the top call, over a source and a sink in memory.

use crate::run::{Outcome, run};
use gs_outside::memory::{MemSink, MemSource};
use std::alloc::{AllocError, Global};
use std::process::Abort;
use std::test::Fail;

/// What a run gave: its outcome and the bytes that were written.
#[derive(Drop)]
struct Ran {
    outcome: Outcome,
    written: Vec<u8>,
}

/// Runs the words over these bytes. The pulls and the pushes of these numbers fail, and the sink has this much room.
fn run_over(
    alloc: Global,
    words: &[&str],
    input: &[u8],
    failing_pulls: &[u64],
    room: usize,
    failing_pushes: &[u64],
) -> Result<Ran, Fail> {
    let mut list = Vec::new(alloc);
    for word in words {
        list.push(String::from_str(alloc, word)?)?;
    }
    let mut source = MemSource::new(input.to_vec(alloc)?, failing_pulls.to_vec(alloc)?);
    let mut sink = MemSink::new(Vec::new(alloc), room, failing_pushes.to_vec(alloc)?)
        .ok()
        .ok_or("no room")?;
    let outcome = run(alloc, list.as_slice(), &mut source, &mut sink);
    Ok(Ran {
        outcome,
        written: sink.written().to_vec(alloc)?,
    })
}

/// Runs the command over these bytes, and compares the status, the counts and what was written.
fn check(
    rt: &impl Abort,
    alloc: Global,
    input: &[u8],
    status: u8,
    written: &[u8],
) -> Result<(), Fail> {
    let ran = run_over(alloc, &["check", "-"], input, &[], 1_000, &[])?;
    assert_eq!(rt; ran.outcome.status, status);
    assert_eq!(rt; ran.written.as_slice(), written);
    let checked = if status < 2 { 1u64 } else { 0u64 };
    assert_eq!(rt; ran.outcome.checked, checked);
    assert_eq!(rt; ran.outcome.loaded, 0u64);
    Ok(())
}

const CLEAN: &[u8] = b"packages 1 checked 1 loaded 0 faults 0\n";

/// Files without a fault.
#[test]
fn clean_files(rt: HostRuntime) -> Result<(), Fail> {
    let files: [&[u8]; 13] = [
        b"package a\nconst X = 1\n",
        b"package a",
        b"package a;",
        b"package a\r\n\tconst X = 1\r\n",
        b"package a\nvar x = 7\nvar y = x\nvar z = x\n",
        b"package a; const X = 0; var y = X; var z = y",
        b"package a\nconst X = 1\nconst Y = X\n",
        b"package a\nvar x = 123456789012345678\n",
        b"package a\nvar x =\n0\n",
        b"package\na\nconst X = 1",
        b"package main\nvar a_1 = 9\n",
        b"package init\nvar Int = 9\n",
        b"package int\nvar _x = 9\n",
    ];
    for file in files {
        check(&rt, rt.alloc(), file, 0, CLEAN)?;
    }
    Ok(())
}

/// Files with faults, and what is written of them.
#[test]
fn faulty_files(rt: HostRuntime) -> Result<(), Fail> {
    let files: [(&[u8], &[u8]); 12] = [
        (
            b"package a\nconst X = Y\n",
            b"stdin.go:2:11: G10 undeclared name: Y\npackages 1 checked 1 loaded 0 faults 1\n",
        ),
        // without a package clause the first chunk has the fault, and declares nothing
        (
            b"const X = 1\n",
            b"stdin.go:1:1: G01 syntax error\npackages 1 checked 1 loaded 0 faults 1\n",
        ),
        (
            b"\n  const X = 1\nconst Y = X\nconst Z = 2; const Z1 = Z\n",
            b"stdin.go:2:3: G01 syntax error\npackages 1 checked 1 loaded 0 faults 1\n",
        ),
        (
            b"const X = 1\nconst X = 2\n",
            b"stdin.go:1:1: G01 syntax error\npackages 1 checked 1 loaded 0 faults 1\n",
        ),
        // each chunk that is no declaration, at its first token
        (
            b"package a\npackage b\n",
            b"stdin.go:2:1: G01 syntax error\npackages 1 checked 1 loaded 0 faults 1\n",
        ),
        (
            b"package a;; const X = 1; x; const = 2\n  var y = const",
            b"stdin.go:1:11: G01 syntax error\nstdin.go:1:26: G01 syntax error\nstdin.go:1:29: G01 syntax error\nstdin.go:2:3: G01 syntax error\npackages 1 checked 1 loaded 0 faults 4\n",
        ),
        // a chunk that no semicolon ends
        (
            b"package a\nconst X =",
            b"stdin.go:2:1: G01 syntax error\npackages 1 checked 1 loaded 0 faults 1\n",
        ),
        (
            b"package",
            b"stdin.go:1:1: G01 syntax error\npackages 1 checked 1 loaded 0 faults 1\n",
        ),
        // undeclared names are withheld where a chunk has a fault
        (
            b"package a\nconst X = Y\n1\n",
            b"stdin.go:3:1: G01 syntax error\npackages 1 checked 1 loaded 0 faults 1\n",
        ),
        // faults on several lines, with their columns in bytes
        (
            b"package a\nvar x = one\n\n\tvar y = x; var z = two\r\nvar w = one",
            b"stdin.go:2:9: G10 undeclared name: one\nstdin.go:4:21: G10 undeclared name: two\nstdin.go:5:9: G10 undeclared name: one\npackages 1 checked 1 loaded 0 faults 3\n",
        ),
        (
            b"package a\nvar x 1\n",
            b"stdin.go:2:1: G01 syntax error\npackages 1 checked 1 loaded 0 faults 1\n",
        ),
        // the package's name is declared by nothing
        (
            b"package a\nvar x = a\n",
            b"stdin.go:2:9: G10 undeclared name: a\npackages 1 checked 1 loaded 0 faults 1\n",
        ),
    ];
    for (file, written) in files {
        check(&rt, rt.alloc(), file, 1, written)?;
    }
    Ok(())
}

/// Files without faults of their form that are not in the first form, each by one of its conditions.
#[test]
fn other_files(rt: HostRuntime) -> Result<(), Fail> {
    let files: [&[u8]; 32] = [
        // two names directly one after the other
        b"package a\nvar x int\n",
        // numbers: 19 digits, a leading 0, other bases, a `_`, a point
        b"package a\nvar x = 1234567890123456789\n",
        b"package a\nvar x = 01\n",
        b"package a\nvar x = 00\n",
        b"package a\nvar x = 0x1\n",
        b"package a\nvar x = 1_0\n",
        b"package a\nvar x = 1.5\n",
        b"package a\nvar x = 1i\n",
        // other tokens
        b"package a\nvar x = \"s\"\n",
        b"package a\nvar x = `s`\n",
        b"package a\nvar x = 'c'\n",
        b"package a\nvar x = -1\n",
        b"package a\nvar x = (1)\n",
        b"package a\nvar x, y = 1\n",
        b"package a\nimport \"b\"\nfunc f() {\n}\n",
        // comments
        b"package a // b\n",
        b"package a /* b */\n",
        // bytes that are not of ASCII
        b"package \xc3\xa9\n",
        b"\xef\xbb\xbfpackage a\n",
        // declared names
        b"package a\nvar _ = 1\n",
        b"package a\nvar init = 1\n",
        b"package a\nvar main = 1\n",
        b"package a\nconst uintptr = 1\n",
        b"package a\nconst nil = 1\n",
        b"package a\nvar recover = 1\n",
        b"package a\nvar x = 1\nconst x = 2\n",
        // right sides: `_`, a name of the universe, the same or a later declaration, a constant of a variable
        b"package a\nvar x = _\n",
        b"package a\nvar x = iota\n",
        b"package a\nvar x = string\n",
        b"package a\nvar x = x\n",
        b"package a\nvar x = y\nvar y = 1\n",
        b"package a\nvar x = 1\nconst y = x\n",
    ];
    for file in files {
        check(&rt, rt.alloc(), file, 11, b"")?;
    }
    Ok(())
}

/// Faults of a file's form where no chunk has a tree.
#[test]
fn faults_alone(rt: HostRuntime) -> Result<(), Fail> {
    let files: [(&[u8], &[u8]); 6] = [
        (
            b"",
            b"stdin.go:1:1: G01 syntax error\npackages 1 checked 1 loaded 0 faults 1\n",
        ),
        (
            b" \n\t// a\r\n",
            b"stdin.go:1:1: G01 syntax error\npackages 1 checked 1 loaded 0 faults 1\n",
        ),
        (
            b"#",
            b"stdin.go:1:1: G02 bad token\npackages 1 checked 1 loaded 0 faults 1\n",
        ),
        (
            b"package 08 #; x 1x\n \"",
            b"stdin.go:1:9: G02 bad token\nstdin.go:1:12: G02 bad token\nstdin.go:1:17: G02 bad token\nstdin.go:2:2: G02 bad token\npackages 1 checked 1 loaded 0 faults 4\n",
        ),
        (
            b"\xff",
            b"stdin.go:1:1: G03 file is not UTF-8\npackages 1 checked 1 loaded 0 faults 1\n",
        ),
        (
            b"package a\n\xff\n",
            b"stdin.go:1:1: G03 file is not UTF-8\npackages 1 checked 1 loaded 0 faults 1\n",
        ),
    ];
    for (file, written) in files {
        check(&rt, rt.alloc(), file, 1, written)?;
    }
    Ok(())
}

/// Faults of a file's form, in files of any form: the line and the column of each, its code and its text.
#[test]
fn form_faults(rt: HostRuntime) -> Result<(), Fail> {
    let files: [(&[u8], &[u8]); 16] = [
        // a body that nothing closes
        (
            b"package a\nfunc F() {}\nfunc G() {\nvar x int = \"s\"\n",
            b"stdin.go:3:1: G01 syntax error\npackages 1 checked 1 loaded 0 faults 1\n",
        ),
        // the order of a file's chunks
        (
            b"package a\nvar x = 1\nimport \"b\"\n",
            b"stdin.go:3:1: G01 syntax error\npackages 1 checked 1 loaded 0 faults 1\n",
        ),
        (
            b"package a\nvar x int int\nimport \"b\"\nvar y 1",
            b"stdin.go:2:1: G01 syntax error\nstdin.go:4:1: G01 syntax error\npackages 1 checked 1 loaded 0 faults 2\n",
        ),
        (
            b"import \"b\"\nimport \"c\"\npackage a\n",
            b"stdin.go:1:1: G01 syntax error\nstdin.go:3:1: G01 syntax error\npackages 1 checked 1 loaded 0 faults 2\n",
        ),
        // each bad token of a chunk, and no syntax error beside it
        (
            b"package a\nvar x = 08 # 1x\nvar y y y\n",
            b"stdin.go:2:9: G02 bad token\nstdin.go:2:12: G02 bad token\nstdin.go:2:14: G02 bad token\nstdin.go:3:1: G01 syntax error\npackages 1 checked 1 loaded 0 faults 4\n",
        ),
        (
            b"package a\nvar x = \"s\n",
            b"stdin.go:2:9: G02 bad token\npackages 1 checked 1 loaded 0 faults 1\n",
        ),
        (
            b"package #\nvar x = 1\n",
            b"stdin.go:1:9: G02 bad token\npackages 1 checked 1 loaded 0 faults 1\n",
        ),
        (
            b"package a\n\x00\n",
            b"stdin.go:2:1: G02 bad token\npackages 1 checked 1 loaded 0 faults 1\n",
        ),
        (
            b"package a b\n",
            b"stdin.go:1:1: G01 syntax error\npackages 1 checked 1 loaded 0 faults 1\n",
        ),
        (
            b"package a /\n",
            b"stdin.go:1:1: G01 syntax error\npackages 1 checked 1 loaded 0 faults 1\n",
        ),
        (
            b"package a\nvar x == 1\n",
            b"stdin.go:2:1: G01 syntax error\npackages 1 checked 1 loaded 0 faults 1\n",
        ),
        (
            b"package a\nimport\n",
            b"stdin.go:2:1: G01 syntax error\npackages 1 checked 1 loaded 0 faults 1\n",
        ),
        (
            b"package a\nfunc\n",
            b"stdin.go:2:1: G01 syntax error\npackages 1 checked 1 loaded 0 faults 1\n",
        ),
        // a file that would be in the first form but for it
        (
            b"package a\n1\nvar x = x\n",
            b"stdin.go:2:1: G01 syntax error\npackages 1 checked 1 loaded 0 faults 1\n",
        ),
        (
            b"package a // b\nvar x = y z\n",
            b"stdin.go:2:1: G01 syntax error\npackages 1 checked 1 loaded 0 faults 1\n",
        ),
        (
            b"package a\n/* b\n",
            b"stdin.go:2:1: G02 bad token\npackages 1 checked 1 loaded 0 faults 1\n",
        ),
    ];
    for (file, written) in files {
        check(&rt, rt.alloc(), file, 1, written)?;
    }
    Ok(())
}

/// A variable whose value stands in so many parentheses.
fn nested(alloc: Global, depth: usize) -> Result<Vec<u8>, AllocError> {
    let mut file = b"package a\nvar x = ".to_vec(alloc)?;
    for _ in 0..depth {
        file.push(b'(')?;
    }
    file.push(b'1')?;
    for _ in 0..depth {
        file.push(b')')?;
    }
    Ok(file)
}

/// The greatest depth of a file, and one more.
#[test]
fn depths(rt: HostRuntime) -> Result<(), Fail> {
    let written = b"stdin.go:2:1: G04 nesting above 200\npackages 1 checked 1 loaded 0 faults 1\n";
    let alloc = rt.alloc();
    check(&rt, alloc, nested(alloc, 200)?.as_slice(), 11, b"")?;
    check(
        &rt,
        alloc,
        nested(alloc, 201)?.as_slice(),
        1,
        written.as_slice(),
    )
}

/// A file of the greatest size.
#[test]
fn greatest_size(rt: HostRuntime) -> Result<(), Fail> {
    let file = blanks(rt.alloc(), 4_194_304)?;
    check(&rt, rt.alloc(), file.as_slice(), 0, CLEAN)
}

/// A file of one byte more.
#[test]
fn one_byte_more(rt: HostRuntime) -> Result<(), Fail> {
    let written =
        b"stdin.go:1:1: G05 file above 4194304 bytes\npackages 1 checked 1 loaded 0 faults 1\n";
    let file = blanks(rt.alloc(), 4_194_305)?;
    check(&rt, rt.alloc(), file.as_slice(), 1, written.as_slice())
}

/// Words that are not the command. Nothing is read, so that a failing pull changes nothing.
#[test]
fn other_words(rt: HostRuntime) -> Result<(), Fail> {
    let lists: [&[&str]; 11] = [
        &[],
        &["check"],
        &["-"],
        &["-", "check"],
        &["check", "-", "-"],
        &["check", "-", ""],
        &["check", ""],
        &["check", "x"],
        &["Check", "-"],
        &["serve"],
        &["check-"],
    ];
    for words in lists {
        let ran = run_over(rt.alloc(), words, b"package a\n", &[0], 0, &[0])?;
        assert_eq!(rt; ran.outcome.status, 2u8);
        assert_eq!(rt; ran.outcome.checked, 0u64);
        assert_eq!(rt; ran.written.len(), 0usize);
    }
    Ok(())
}

/// A package clause and blanks, of so many bytes.
fn blanks(alloc: Global, length: usize) -> Result<Vec<u8>, AllocError> {
    let mut file = b"package a\n".to_vec(alloc)?;
    for _ in 10..length {
        file.push(b' ')?;
    }
    Ok(file)
}

/// Inputs of a length, the pulls that fail, and the status. A pull gives at most 4,096 bytes, and the one behind the last
/// byte gives none.
#[test]
fn pulls(rt: HostRuntime) -> Result<(), Fail> {
    let cases: [(usize, &[u64], u8); 14] = [
        (10, &[], 0),
        (10, &[0], 5),
        (10, &[1], 5),
        (10, &[2], 0),
        (4_096, &[1], 5),
        (4_096, &[2], 0),
        (5_000, &[1], 5),
        (5_000, &[2], 5),
        (5_000, &[3], 0),
        (65_536, &[], 0),
        (65_536, &[16], 5),
        (65_536, &[17], 0),
        (70_000, &[18], 5),
        (70_000, &[19], 0),
    ];
    for (length, failing, status) in cases {
        let input = blanks(rt.alloc(), length)?;
        let ran = run_over(
            rt.alloc(),
            &["check", "-"],
            input.as_slice(),
            failing,
            100,
            &[],
        )?;
        assert_eq!(rt; ran.outcome.status, status, "{length}");
        let written = if status == 0 { CLEAN } else { b"".as_slice() };
        assert_eq!(rt; ran.written.as_slice(), written);
    }
    Ok(())
}

/// A failing pull comes before the faults of a file.
#[test]
fn failing_pull_of_another_file(rt: HostRuntime) -> Result<(), Fail> {
    let ran = run_over(rt.alloc(), &["check", "-"], b"func", &[1], 100, &[])?;
    assert_eq!(rt; ran.outcome.status, 5u8);
    Ok(())
}

/// The room of a sink and the pushes that fail, the status, and how much of the output was written.
#[test]
fn pushes(rt: HostRuntime) -> Result<(), Fail> {
    let cases: [(usize, &[u64], u8, usize); 8] = [
        (39, &[], 0, 39),
        (39, &[1], 0, 39),
        (38, &[], 6, 38),
        (10, &[], 6, 10),
        (10, &[1], 6, 10),
        (0, &[], 6, 0),
        (39, &[0], 6, 0),
        (1_000, &[0, 1], 6, 0),
    ];
    for (room, failing, status, length) in cases {
        let ran = run_over(
            rt.alloc(),
            &["check", "-"],
            b"package a\n",
            &[],
            room,
            failing,
        )?;
        assert_eq!(rt; ran.outcome.status, status, "{room}");
        let (written, _) = CLEAN.split_at(length.min(CLEAN.len()));
        assert_eq!(rt; ran.written.as_slice(), written);
    }
    Ok(())
}
