// Frames: what a stream holds, in whatever pieces it comes, and what is written.
ghost use Rattle.std.specs.Prelude.{◌≡◌, ◌<◌, ◌+◌, length};

use gs_base::Mem;
use gs_frames::{Framer, Next, frame};
use sqlite_items::Items;
use std::alloc::Global;
use std::test::Fail;

// What stands behind the last frame of a stream.
#[derive(Clone, Copy, PartialEq, Eq, Debug, Drop)]
enum End {
    More,
    Header(u64),
    TooLong(u64),
    NoMemory,
}

// A stream, the bodies of its frames, and what stands behind them.
struct Case {
    stream: &'static [u8],
    bodies: &'static [&'static [u8]],
    end: End,
}

// Takes the frames that are there.
fn take_frames(framer: &mut Framer, alloc: Global, bodies: &mut Vec<Items<u8>>) -> Mem<End>
    ensures { framer.new.at + length framer.new.rest ≡ framer.old.at + length framer.old.rest }
{
    for _ in 0..u64::MAX {
        match framer.next(alloc) {
            Next::Frame(body) => bodies.push(body)?,
            Next::More => return Ok(End::More),
            Next::Header(at) => return Ok(End::Header(at)),
            Next::TooLong(number) => return Ok(End::TooLong(number)),
            Next::NoMemory => return Ok(End::NoMemory),
        }
    }
    Ok(End::NoMemory)
}

// Reads a stream in pieces of this size.
fn read(alloc: Global, stream: &[u8], size: usize) -> Mem<(Vec<Items<u8>>, End)>
    requires { 0 < size }
{
    let mut framer = Framer::new();
    let mut bodies = Vec::new(alloc);
    let mut end = take_frames(&mut framer, alloc, &mut bodies)?;
    let mut rest = stream;
    'pieces: while !rest.is_empty() {
        let (piece, behind) = rest.split_at(size.min(rest.len()));
        framer.feed(alloc, piece)?;
        end = take_frames(&mut framer, alloc, &mut bodies)?;
        rest = behind;
    }
    Ok((bodies, end))
}

// A header of so many bytes, with the number 2.
fn header_of(alloc: Global, size: usize) -> Mem<Vec<u8>> {
    let mut header = Vec::from_slice(alloc, b"X: ")?;
    for _ in 26..size {
        header.push(b'x')?;
    }
    header.extend_from_slice(b"\r\nContent-Length: 2\r\n\r\n")?;
    Ok(header)
}

const CASES: [Case; 31] = [
    Case {
        stream: b"",
        bodies: &[],
        end: End::More,
    },
    Case {
        stream: b"Content-Length: 2\r\n\r\n{}",
        bodies: &[b"{}"],
        end: End::More,
    },
    Case {
        stream: b"Content-Length: 0\r\n\r\nContent-Length: 1\r\n\r\nx",
        bodies: &[b"", b"x"],
        end: End::More,
    },
    Case {
        stream: b"Content-Length: 5\r\n\r\n{\"a\"",
        bodies: &[],
        end: End::More,
    },
    Case {
        stream: b"Content-Length: 67108865\r\n\r\n",
        bodies: &[],
        end: End::TooLong(67_108_865),
    },
    Case {
        stream: b"Content-Length: 67108864\r\n\r\n",
        bodies: &[],
        end: End::More,
    },
    Case {
        stream: b"Content-Length: 67108865\r\n",
        bodies: &[],
        end: End::More,
    },
    Case {
        stream: b"Content-Length: x\r",
        bodies: &[],
        end: End::More,
    },
    Case {
        stream: b"Content-Length: x\r\n",
        bodies: &[],
        end: End::Header(0),
    },
    Case {
        stream: b"Content-Length: 1\r\n\r\n.Content-Length: x\r\n",
        bodies: &[b"."],
        end: End::Header(22),
    },
    Case {
        stream: b"cONTENT-lENGTH: 1\r\n\r\n.",
        bodies: &[b"."],
        end: End::More,
    },
    Case {
        stream: b"Content-Length: \t 1 \t\r\n\r\n.",
        bodies: &[b"."],
        end: End::More,
    },
    Case {
        stream: b"Content-Length:1\r\n\r\n.",
        bodies: &[b"."],
        end: End::More,
    },
    Case {
        stream: b"Content-Length : 1\r\n\r\n.",
        bodies: &[],
        end: End::Header(0),
    },
    Case {
        stream: b"Content-Type: a; b=c\r\nContent-Length: 1\r\nA:\r\n\r\n.",
        bodies: &[b"."],
        end: End::More,
    },
    Case {
        stream: b"Content-Length: 1\r\nContent-Length: 1\r\n",
        bodies: &[],
        end: End::Header(0),
    },
    Case {
        stream: b"Content-Length: 1\r\nCONTENT-LENGTH: 2\r\n\r\n",
        bodies: &[],
        end: End::Header(0),
    },
    Case {
        stream: b"Content-Type: a\r\n\r\n",
        bodies: &[],
        end: End::Header(0),
    },
    Case {
        stream: b"\r\n",
        bodies: &[],
        end: End::Header(0),
    },
    Case {
        stream: b"Content-Length: 9999999999999999999\r\n\r\n",
        bodies: &[],
        end: End::TooLong(9_999_999_999_999_999_999),
    },
    Case {
        stream: b"Content-Length: 00000000000000000001\r\n",
        bodies: &[],
        end: End::Header(0),
    },
    Case {
        stream: b"Content-Length: 0000000000000000001\r\n\r\n.",
        bodies: &[b"."],
        end: End::More,
    },
    Case {
        stream: b"Content-Length:\r\n",
        bodies: &[],
        end: End::Header(0),
    },
    Case {
        stream: b"Content-Length: +1\r\n",
        bodies: &[],
        end: End::Header(0),
    },
    Case {
        stream: b"Content-Length: 1 1\r\n",
        bodies: &[],
        end: End::Header(0),
    },
    Case {
        stream: b"Content-Length 1\r\n",
        bodies: &[],
        end: End::Header(0),
    },
    Case {
        stream: b"Content-Length: 1\n",
        bodies: &[],
        end: End::Header(0),
    },
    Case {
        stream: b"Content-Length: 1\r\n\n",
        bodies: &[],
        end: End::Header(0),
    },
    Case {
        stream: b"A: \r b\r\n",
        bodies: &[],
        end: End::Header(0),
    },
    Case {
        stream: b"A: \xff\r\n",
        bodies: &[],
        end: End::Header(0),
    },
    Case {
        stream: b"A: \xc3\xa9\r\nContent-Length: 1\r\n\r\n\xff",
        bodies: &[b"\xff"],
        end: End::More,
    },
];

#[test]
fn streams(rt: HostRuntime) -> Result<(), Fail> {
    for case in &CASES {
        let stream = case.stream;
        for size in [1, 2, 3, 1000] {
            let (bodies, end) = read(rt.alloc(), stream, size)?;
            assert_eq!(rt; end, case.end, "{stream:?} in pieces of {size}");
            assert_eq!(rt;
                bodies.len(),
                case.bodies.len(),
                "{stream:?} in pieces of {size}"
            );
            for (body, want) in bodies.iter().zip(case.bodies) {
                assert_eq!(rt; body.as_slice(), *want, "{stream:?} in pieces of {size}");
            }
        }
    }
    Ok(())
}

// A header ends within 1,024 bytes. One byte more is a fault, which the first 1,024 bytes show.
#[test]
fn long_headers(rt: HostRuntime) -> Result<(), Fail> {
    for (size, fed, count, end) in [
        (1023, 1025, 1, End::More),
        (1024, 1026, 1, End::More),
        (1024, 1023, 0, End::More),
        (1025, 1023, 0, End::More),
        (1025, 1024, 0, End::Header(0)),
        (1025, 1027, 0, End::Header(0)),
    ] {
        let mut stream = header_of(rt.alloc(), size)?;
        assert_eq!(rt; stream.len(), size);
        stream.extend_from_slice(b"{}")?;
        stream.truncate(fed);
        for piece in [1, 512, 4096] {
            let (bodies, found) = read(rt.alloc(), stream.as_slice(), piece)?;
            assert_eq!(rt; found, end, "{fed} bytes of a header of {size}");
            assert_eq!(rt; bodies.len(), count, "{fed} bytes of a header of {size}");
        }
    }
    Ok(())
}

// A frame is given with its last byte.
#[test]
fn cut_anywhere(rt: HostRuntime) -> Result<(), Fail> {
    let stream = b"Content-Length: 7\r\n\r\n{\"a\":1}".as_slice();
    for cut in 0..28 {
        let (front, rest) = stream.split_at(cut);
        let mut framer = Framer::new();
        framer.feed(rt.alloc(), front)?;
        assert!(rt;
            matches!(framer.next(rt.alloc()), Next::More),
            "cut at {cut}"
        );
        framer.feed(rt.alloc(), rest)?;
        let Next::Frame(body) = framer.next(rt.alloc()) else {
            return Err("no frame")?;
        };
        assert_eq!(rt; body.as_slice(), b"{\"a\":1}".as_slice(), "cut at {cut}");
        assert!(rt;
            matches!(framer.next(rt.alloc()), Next::More),
            "cut at {cut}"
        );
    }
    Ok(())
}

// The same answer again, whatever follows a fault.
#[test]
fn faults_stay(rt: HostRuntime) -> Result<(), Fail> {
    let mut framer = Framer::new();
    framer.feed(rt.alloc(), b"Content-Length: 1\r\n\r\n.\r\n")?;
    assert!(rt; matches!(framer.next(rt.alloc()), Next::Frame(_)));
    assert!(rt; matches!(framer.next(rt.alloc()), Next::Header(22)));
    framer.feed(rt.alloc(), b"Content-Length: 1\r\n\r\n.")?;
    assert!(rt; matches!(framer.next(rt.alloc()), Next::Header(22)));
    Ok(())
}

#[test]
fn written(rt: HostRuntime) -> Result<(), Fail> {
    for (body, want) in [
        ("", "Content-Length: 0\r\n\r\n"),
        (
            "{\"id\":1,\"jsonrpc\":\"2.0\",\"result\":null}",
            "Content-Length: 38\r\n\r\n{\"id\":1,\"jsonrpc\":\"2.0\",\"result\":null}",
        ),
        (
            "{\"error\":{\"code\":-32002,\"message\":\"server not initialized\"},\"id\":2,\"jsonrpc\":\"2.0\"}",
            "Content-Length: 83\r\n\r\n{\"error\":{\"code\":-32002,\"message\":\"server not initialized\"},\"id\":2,\"jsonrpc\":\"2.0\"}",
        ),
    ] {
        let written = frame(rt.alloc(), body.as_bytes())?;
        assert_eq!(rt; written.as_slice(), want.as_bytes());
    }
    Ok(())
}
