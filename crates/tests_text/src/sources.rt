use gs_base::{Mem, Text};
use gs_text::{Blob, Files, Sources};
use std::alloc::Global;
use std::test::Fail;

fn blob(alloc: Global, text: &str) -> Mem<Blob> {
    Blob::new(alloc, text.as_bytes().to_vec(alloc)?)
}

fn put(alloc: Global, files: &mut Files, path: &str, text: &str) -> Mem<()> {
    files.insert(String::from_str(alloc, path)?, blob(alloc, text)?)
}

/// `a.go` and `b.go` on disk, `b.go` and `c.go` open.
fn sample(alloc: Global) -> Mem<Sources> {
    let mut disk = Files::new(alloc);
    put(alloc, &mut disk, "a.go", "a on disk")?;
    put(alloc, &mut disk, "b.go", "b on disk")?;
    let mut opened = Files::new(alloc);
    put(alloc, &mut opened, "b.go", "b open")?;
    put(alloc, &mut opened, "c.go", "c open")?;
    Ok(Sources {
        root: Some(Text::new(alloc, ".")?),
        lib: None,
        disk,
        opened,
    })
}

/// Whether a path has this text.
fn has(sources: &Sources, path: &str, want: &str) -> bool {
    match sources.bytes(path) {
        Some(text) => text == want.as_bytes(),
        None => false,
    }
}

#[test]
fn open_files_stand_before_those_on_disk(rt: HostRuntime) -> Result<(), Fail> {
    let sources = sample(rt.alloc())?;
    let rows = [
        ("a.go", "a on disk"),
        ("b.go", "b open"),
        ("c.go", "c open"),
    ];
    for (path, want) in rows {
        assert!(rt; has(&sources, path, want), "the text of {path:?}");
    }
    for path in ["d.go", "", "a.go/", "b.g"] {
        assert!(rt; sources.bytes(path).is_none(), "there is no {path:?}");
    }
    Ok(())
}

#[test]
fn files_are_put_and_taken(rt: HostRuntime) -> Result<(), Fail> {
    let alloc = rt.alloc();
    let mut sources = sample(alloc)?;
    put(alloc, &mut sources.opened, "b.go", "b again")?;
    assert!(rt; has(&sources, "b.go", "b again"));
    sources.opened.remove("b.go");
    assert!(rt; has(&sources, "b.go", "b on disk"));
    sources.disk.remove("b.go");
    sources.disk.remove("b.go");
    assert!(rt; sources.bytes("b.go").is_none());
    assert!(rt; has(&sources, "a.go", "a on disk"));
    Ok(())
}

#[test]
fn a_copy_stays_as_it_was(rt: HostRuntime) -> Result<(), Fail> {
    let alloc = rt.alloc();
    let mut sources = sample(alloc)?;
    let copy = sources.copy(alloc)?;
    put(alloc, &mut sources.opened, "a.go", "a open")?;
    sources.opened.remove("c.go");
    assert!(rt; has(&sources, "a.go", "a open"));
    for (path, want) in [
        ("a.go", "a on disk"),
        ("b.go", "b open"),
        ("c.go", "c open"),
    ] {
        assert!(rt; has(&copy, path, want), "the copied text of {path:?}");
    }
    assert!(rt; copy.lib.is_none());
    match &copy.root {
        Some(root) => assert_eq!(rt; root.as_str(), "."),
        None => assert!(rt; false, "the root is gone"),
    }
    Ok(())
}

#[test]
fn shared_bytes_are_the_same(rt: HostRuntime) -> Result<(), Fail> {
    let first = blob(rt.alloc(), "package p")?;
    let second = first.share()?;
    assert_eq!(rt; second.as_slice(), first.as_slice());
    drop(first);
    assert_eq!(rt; second.as_slice(), b"package p".as_slice());
    Ok(())
}
