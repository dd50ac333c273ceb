//! What is asked of the tables of files.

use crate::ask::repeated;
use crate::docs::DOCS;
use crate::files::FILES;
use crate::part::{Parts, put_list};
use crate::print::written;
use gs_grammar::trees::FileTree;
use gs_parse::parse::parse;
use std::alloc::Global;
use std::process::Abort;
use std::test::Fail;

/// The trees of the chunks, each on a line.
fn trees_text(alloc: Global, source: &str, file: &FileTree) -> Result<String, Fail> {
    let mut parts = Parts::new(alloc);
    put_list(&mut parts, &file.chunks, "\n")?;
    written(alloc, source, false, &mut parts)
}

/// The faults, with blanks between them.
fn faults_text(alloc: Global, file: &FileTree) -> Result<String, Fail> {
    let mut text = String::new(alloc);
    for (code, span) in file.faults.as_slice() {
        if !text.is_empty() {
            text.push(' ')?;
        }
        let fault = format!(in alloc; "G{code:02}@{}+{}", span.offset, span.length)?;
        text.push_str(fault.as_str())?;
    }
    Ok(text)
}

/// The docs, with blanks between them.
fn docs_text(alloc: Global, file: &FileTree) -> Result<String, Fail> {
    let mut text = String::new(alloc);
    for (offset, doc) in file.docs.as_slice() {
        if !text.is_empty() {
            text.push(' ')?;
        }
        text.push_str(format!(in alloc; "{offset} [{}]", doc.as_str())?.as_str())?;
    }
    Ok(text)
}

/// A file has these trees and these faults.
fn file_is(
    rt: &impl Abort,
    alloc: Global,
    source: &str,
    trees: &str,
    faults: &str,
) -> Result<(), Fail> {
    let file = parse(alloc, source.as_bytes())?;
    assert_eq!(rt;
        trees_text(alloc, source, &file)?.as_str(),
        trees,
        "of {source:?}"
    );
    assert_eq!(rt;
        faults_text(alloc, &file)?.as_str(),
        faults,
        "of {source:?}"
    );
    Ok(())
}

#[test]
fn files(rt: HostRuntime) -> Result<(), Fail> {
    for (source, trees, faults) in &FILES {
        file_is(&rt, rt.alloc(), source, trees, faults)?;
    }
    Ok(())
}

#[test]
fn docs(rt: HostRuntime) -> Result<(), Fail> {
    for (source, want) in &DOCS {
        let file = parse(rt.alloc(), source.as_bytes())?;
        assert_eq!(rt;
            docs_text(rt.alloc(), &file)?.as_str(),
            *want,
            "of {source:?}"
        );
    }
    Ok(())
}

/// The bytes have one fault, and no chunk.
fn fault_alone(rt: &impl Abort, alloc: Global, bytes: &[u8], fault: &str) -> Result<(), Fail> {
    let file = parse(alloc, bytes)?;
    assert!(rt; file.chunks.is_empty());
    assert!(rt; file.docs.is_empty());
    assert_eq!(rt; faults_text(alloc, &file)?.as_str(), fault);
    Ok(())
}

/// Trees nest at most 200 deep, a file is UTF-8, and it has at most 4,194,304 bytes.
#[test]
fn limits(rt: HostRuntime) -> Result<(), Fail> {
    let parts = ["package p\nvar a = ", "(", "1", ")", "\nvar b int\n"];
    let want = [
        "(package p)\n(var a = ",
        "(paren ",
        "1",
        ")",
        ")\n(var b : int)",
    ];
    let source = repeated(rt.alloc(), parts, 200)?;
    let want = repeated(rt.alloc(), want, 200)?;
    file_is(&rt, rt.alloc(), source.as_str(), want.as_str(), "")?;
    let source = repeated(rt.alloc(), parts, 201)?;
    file_is(
        &rt,
        rt.alloc(),
        source.as_str(),
        "(package p)\n(var b : int)",
        "G04@10+3",
    )?;
    fault_alone(&rt, rt.alloc(), b"package p\xff\n", "G03@0+0")?;
    fault_alone(&rt, rt.alloc(), b"\xed\xa0\x80", "G03@0+0")?;
    let blanks = vec![in rt.alloc(); b' '; 4_194_304]?;
    fault_alone(&rt, rt.alloc(), blanks.as_slice(), "G01@0+0")?;
    let blanks = vec![in rt.alloc(); 0xff; 4_194_305]?;
    fault_alone(&rt, rt.alloc(), blanks.as_slice(), "G05@0+0")
}
