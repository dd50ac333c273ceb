use gs_gomod::{Mod, ModFault, read_mod};
use std::alloc::{AllocError, Global};
use std::process::Abort;
use std::test::Fail;

/// The module, and behind it each path with what replaces it.
fn told(alloc: Global, found: &Mod) -> Result<String, AllocError> {
    let mut text = String::from_str(alloc, found.module.as_str())?;
    for (path, target) in found.replaced.as_slice() {
        text.push_str(", ")?;
        text.push_str(path.as_str())?;
        text.push_str(" by ")?;
        text.push_str(target.as_str())?;
    }
    Ok(text)
}

/// Files, each with what it says.
fn check_good(rt: &impl Abort, alloc: Global, rows: &[(&[u8], &str)]) -> Result<(), AllocError> {
    for &(file, said) in rows {
        assert!(rt; file.len() < 1000);
        match read_mod(alloc, file) {
            Err(fault) => panic!(rt; "{fault:?} of {file:?}"),
            Ok(found) => {
                let text = told(alloc, &found)?;
                assert_eq!(rt; text.as_str(), said, "what {file:?} says");
            }
        }
    }
    Ok(())
}

/// Files, each with its first bad line.
fn check_bad(rt: &impl Abort, alloc: Global, rows: &[(&[u8], u32)]) {
    for &(file, line) in rows {
        assert!(rt; file.len() < 1000);
        match read_mod(alloc, file) {
            Err(fault) => assert_eq!(rt; fault, ModFault::Line(line), "the fault of {file:?}"),
            Ok(_) => panic!(rt; "no fault of {file:?}"),
        }
    }
}

#[test]
fn modules_and_replacements(rt: HostRuntime) -> Result<(), Fail> {
    let rows: [(&[u8], &str); 12] = [
        (b"module m\nreplace x => ../x\n", "m, x by ../x"),
        (b"module m", "m"),
        (
            b"\tmodule \"m v\" // \"the module\nreplace `x//y` => \"./z\"\n",
            "m v, x//y by ./z",
        ),
        (b"module m//n\n", "m"),
        (b"module m\r\nreplace x v1.0.0 => y v2\r\n", "m, x by y"),
        (
            b"module m\nreplace b v1 => ./b\nreplace a => ./a v2\nreplace b => ./c\n",
            "m, a by ./a, b by ./c",
        ),
        (
            b"module m\nreplace (\n  b => ./b // last\n\n\t\"a\" => `./a`\n)\nreplace a => ./z\n",
            "m, a by ./z, b by ./b",
        ),
        (b"module (\nm\n)\n", "m"),
        (
            b"go 1.17\nrequire x v1\nrequire (\n  y v2 // indirect\n  \"open\n)\nexclude z v3\nretract [v1, v2]\nmodule m\n",
            "m",
        ),
        (b"module m\ngo \"1.17\nrequire => ( =>\n", "m"),
        (b"module m\n) x\n(\n", "m"),
        (b"module =>\nreplace \"=>\" => \"\"\n", "=>, => by "),
    ];
    check_good(&rt, rt.alloc(), &rows)?;
    Ok(())
}

#[test]
fn bad_lines(rt: HostRuntime) -> Result<(), Fail> {
    let rows: [(&[u8], u32); 26] = [
        (b"module\n", 1),
        (b"", 1),
        (b"\n\n", 1),
        (b"go 1.17\n", 1),
        (b"go 1.17\nmodule\n", 1),
        (b"module m\nmodule n\n", 2),
        (b"module m\nmodule m n\n", 2),
        (b"module m\nmodule \"n\n", 2),
        (b"module m\n)\n", 2),
        (b"module m\nrequire (\n  x (\n)\n", 3),
        (b"module m\nrequire (\nx v1\n", 3),
        (b"module m\nreplace (\nx => y\n\n", 4),
        (b"module m\n\nrequire (\n)\n)\n", 5),
        (b"module m\nreplace x\n", 2),
        (b"module m\nreplace x =>\n", 2),
        (b"module m\nreplace => x\n", 2),
        (b"module m\nreplace x=>y\n", 2),
        (b"module m\nreplace x v1 w => y\n", 2),
        (b"module m\nreplace x => y v1 w\n", 2),
        (b"module m\nreplace x => => y\n", 2),
        (b"module m\nreplace x => \"y\n", 2),
        (b"module m\nreplace (\n) x\n)\n", 3),
        (b"module m\nreplace x //=> y\nreplace y\n", 2),
        (b"\xffmodule m\n", 1),
        (b"module m\nreplace x => \xff\n", 1),
        (b"replace x\n", 1),
    ];
    check_bad(&rt, rt.alloc(), &rows);
    Ok(())
}
