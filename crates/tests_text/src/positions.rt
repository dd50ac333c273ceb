ghost use Rattle.std.specs.Prelude.{◌≡◌};
ghost use Rattle.gs_text.specs.Lines.{lines_of};

use gs_base::Mem;
use gs_text::{Lines, Pos, PosUnit};
use std::alloc::Global;
use std::process::Abort;
use std::test::Fail;

/// A position with its offset: line, character, offset.
type ToOffset = (u32, u32, u32);

/// An offset with its position: offset, line, character.
type ToPosition = (u32, u32, u32);

fn check_offsets(rt: &impl Abort, lines: &Lines, text: &str, rows: &[ToOffset])
    requires { lines.now ≡ lines_of text.now }
{
    for &(line, character, offset) in rows {
        let found = lines.offset_at(text, Pos { line, character }, PosUnit::Utf16);
        assert_eq!(rt;
            found,
            offset,
            "the offset of {line}:{character} in {text:?}"
        );
    }
}

fn check_positions(rt: &impl Abort, lines: &Lines, text: &str, rows: &[ToPosition])
    requires { lines.now ≡ lines_of text.now }
{
    for &(offset, line, character) in rows {
        assert!(rt; text.is_char_boundary(offset as usize));
        let found = lines.pos_at(text, offset, PosUnit::Utf16);
        assert_eq!(rt;
            found,
            Pos { line, character },
            "the position of {offset} in {text:?}"
        );
    }
}

fn check(
    rt: &impl Abort,
    alloc: Global,
    text: &str,
    offsets: &[ToOffset],
    positions: &[ToPosition],
) -> Mem<()> {
    assert!(rt; text.len() < 1000);
    let lines = Lines::new(alloc, text)?;
    check_offsets(rt, &lines, text, offsets);
    check_positions(rt, &lines, text, positions);
    Ok(())
}

#[test]
fn surrogate_pair_and_cr_lf(rt: HostRuntime) -> Result<(), Fail> {
    let text = "😀x\r\ny";
    assert_eq!(rt; text.as_bytes(), b"\xf0\x9f\x98\x80x\r\ny".as_slice());
    let offsets = [
        (0, 0, 0),
        (0, 1, 0),
        (0, 2, 4),
        (0, 3, 5),
        (0, 4, 5),
        (0, 9, 5),
        (1, 0, 7),
        (1, 1, 8),
        (1, 2, 8),
        (2, 0, 8),
        (9, 0, 8),
        (4294967295, 4294967295, 8),
    ];
    let positions = [
        (0, 0, 0),
        (4, 0, 2),
        (5, 0, 3),
        (6, 0, 3),
        (7, 1, 0),
        (8, 1, 1),
    ];
    check(&rt, rt.alloc(), text, &offsets, &positions)?;
    Ok(())
}

#[test]
fn line_ends(rt: HostRuntime) -> Result<(), Fail> {
    let alloc = rt.alloc();
    check(
        &rt,
        alloc,
        "",
        &[(0, 0, 0), (0, 5, 0), (1, 0, 0)],
        &[(0, 0, 0)],
    )?;
    check(
        &rt,
        alloc,
        "abc",
        &[(0, 2, 2), (0, 3, 3), (0, 4, 3), (1, 0, 3)],
        &[(0, 0, 0), (2, 0, 2), (3, 0, 3)],
    )?;
    check(
        &rt,
        alloc,
        "a\n",
        &[(0, 1, 1), (0, 9, 1), (1, 0, 2), (1, 7, 2), (2, 0, 2)],
        &[(1, 0, 1), (2, 1, 0)],
    )?;
    check(
        &rt,
        alloc,
        "a\rb",
        &[(0, 1, 1), (0, 2, 1), (1, 0, 2), (1, 1, 3), (2, 0, 3)],
        &[(1, 0, 1), (2, 1, 0), (3, 1, 1)],
    )?;
    check(
        &rt,
        alloc,
        "a\r\r\nb",
        &[
            (0, 5, 1),
            (1, 0, 2),
            (1, 5, 2),
            (2, 0, 4),
            (2, 1, 5),
            (3, 0, 5),
        ],
        &[(1, 0, 1), (2, 1, 0), (3, 1, 0), (4, 2, 0), (5, 2, 1)],
    )?;
    check(
        &rt,
        alloc,
        "a\n\rb",
        &[(0, 5, 1), (1, 0, 2), (1, 1, 2), (2, 0, 3), (2, 1, 4)],
        &[(1, 0, 1), (2, 1, 0), (3, 2, 0), (4, 2, 1)],
    )?;
    check(
        &rt,
        alloc,
        "\r\n",
        &[(0, 3, 0), (1, 0, 2)],
        &[(0, 0, 0), (1, 0, 0), (2, 1, 0)],
    )?;
    check(
        &rt,
        alloc,
        "\r",
        &[(0, 3, 0), (1, 0, 1)],
        &[(0, 0, 0), (1, 1, 0)],
    )?;
    Ok(())
}

#[test]
fn other_separators_end_no_line(rt: HostRuntime) -> Result<(), Fail> {
    let alloc = rt.alloc();
    check(
        &rt,
        alloc,
        "a\u{2028}b",
        &[(0, 1, 1), (0, 2, 4), (0, 3, 5), (0, 4, 5), (1, 0, 5)],
        &[(1, 0, 1), (4, 0, 2), (5, 0, 3)],
    )?;
    check(
        &rt,
        alloc,
        "a\u{2029}\u{85}\u{b}\u{c}b",
        &[
            (0, 2, 4),
            (0, 3, 6),
            (0, 4, 7),
            (0, 5, 8),
            (0, 6, 9),
            (1, 0, 9),
        ],
        &[(4, 0, 2), (6, 0, 3), (7, 0, 4), (8, 0, 5), (9, 0, 6)],
    )?;
    Ok(())
}

#[test]
fn every_offset_of_each_width(rt: HostRuntime) -> Result<(), Fail> {
    let text = "aé€😀z";
    let lines = Lines::new(rt.alloc(), text)?;
    let columns = [
        Some(0),
        Some(1),
        None,
        Some(2),
        None,
        None,
        Some(3),
        None,
        None,
        None,
        Some(5),
        Some(6),
    ];
    assert_eq!(rt; columns.len(), text.len() + 1);
    let mut offset = 0u32;
    for column in columns {
        let found = match text.is_char_boundary(offset as usize) {
            true => Some(lines.pos_at(text, offset, PosUnit::Utf16)),
            false => None,
        };
        let want = match column {
            Some(character) => Some(Pos { line: 0, character }),
            None => None,
        };
        assert_eq!(rt; found, want, "the position of {offset}");
        offset = offset.saturating_add(1);
    }
    check_offsets(
        &rt,
        &lines,
        text,
        &[
            (0, 0, 0),
            (0, 1, 1),
            (0, 2, 3),
            (0, 3, 6),
            (0, 4, 6),
            (0, 5, 10),
            (0, 6, 11),
            (0, 7, 11),
        ],
    );
    Ok(())
}

#[test]
fn widths(rt: HostRuntime) {
    for (c, width) in [
        ('a', 1),
        ('é', 1),
        ('€', 1),
        ('\u{ffff}', 1),
        ('\u{10000}', 2),
        ('😀', 2),
        ('\u{10ffff}', 2),
    ] {
        assert_eq!(rt; PosUnit::Utf16.width(c), width, "the units of {c:?}");
    }
}
