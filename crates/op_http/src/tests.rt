//! What the reader answers. Expected answers follow from the limits and from RFC 9112, and were not taken from a run.
use crate::reader::{HttpFault, Reader};
use op_ports::MemorySource;
use std::alloc::{AllocError, Global};
use std::process::Abort;
use std::test::Fail;

/// What the first call comes to: a request by the lengths of its target and its body and the number of its fields, or
/// why there is none.
#[derive(Clone, Copy, Debug, PartialEq, Eq)]
enum First {
    Request(usize, usize, usize),
    Ended,
    Bad(u64),
    LengthRequired(u64),
    TooLarge(u64),
    ReadFault,
    Memory,
}

/// The first call on these bytes, which come in pieces of this size.
fn first_answer(
    alloc: Global,
    text: &[u8],
    piece: usize,
    failing: &[u64],
) -> Result<First, AllocError> {
    let bytes = Vec::from_slice(alloc, text)?;
    let failing = Vec::from_slice(alloc, failing)?;
    let mut source = MemorySource::new(bytes, piece.max(1), failing);
    let mut reader = Reader::new(alloc);
    Ok(match reader.next(alloc, &mut source) {
        Ok(Some(raw)) => First::Request(raw.target().len(), raw.body().len(), raw.fields().len()),
        Ok(None) => First::Ended,
        Err(HttpFault::BadHttp { at }) => First::Bad(at),
        Err(HttpFault::LengthRequired { at }) => First::LengthRequired(at),
        Err(HttpFault::TooLarge { at }) => First::TooLarge(at),
        Err(HttpFault::ReadFault) => First::ReadFault,
        Err(HttpFault::Memory) => First::Memory,
    })
}

/// The same answer comes whatever the sizes of the pieces are.
fn expect_in(
    rt: &impl Abort,
    alloc: Global,
    text: &[u8],
    pieces: &[usize],
    answer: First,
) -> Result<(), Fail> {
    for piece in pieces {
        assert_eq!(rt; first_answer(alloc, text, *piece, &[])?, answer);
    }
    Ok(())
}

/// The same answer comes in one piece, in pieces of 7 bytes and byte by byte.
fn expect(rt: &impl Abort, alloc: Global, text: &[u8], answer: First) -> Result<(), Fail> {
    expect_in(rt, alloc, text, &[100_000, 7, 1], answer)
}

/// The text, then so many bytes `a`, and then the end.
fn with_filler(
    alloc: Global,
    text: &[u8],
    count: usize,
    end: &[u8],
) -> Result<Vec<u8>, AllocError> {
    let mut bytes = Vec::from_slice(alloc, text)?;
    for _ in 0..count {
        bytes.push(b'a')?;
    }
    bytes.extend_from_slice(end)?;
    Ok(bytes)
}

#[test]
fn heads(rt: HostRuntime) -> Result<(), Fail> {
    let cases: [(&[u8], First); 12] = [
        (b"", First::Ended),
        (b"\r\n", First::Ended),
        (b"\n", First::Ended),
        (b"\r\n\r\n", First::Bad(0)),
        (b"GET /alice HT", First::Bad(0)),
        (b"GET /alice HTTP/1.1\r\n\r\n", First::Request(6, 0, 0)),
        (
            b"\r\nGET /alice HTTP/1.0\nHost: a\n\n",
            First::Request(6, 0, 1),
        ),
        (
            b"POST /grant HTTP/1.1\r\nCONTENT-LENGTH: 2\r\n\r\n{}GET",
            First::Request(6, 2, 1),
        ),
        (
            b"POST /grant HTTP/1.1\r\ncontent-length: 2\r\ncontent-length: 2\r\n\r\n{}",
            First::Request(6, 2, 2),
        ),
        (
            b"POST /grant HTTP/1.1\r\ncontent-length: 2\r\ncontent-length: 02\r\n\r\n{}",
            First::Bad(0),
        ),
        (
            b"POST /grant HTTP/1.1\r\ncontent-length: 3\r\n\r\n{}",
            First::Bad(0),
        ),
        (
            b"POST /grant HTTP/1.1\r\nTransfer-Encoding: chunked\r\ncontent-length: x\r\n\r\n0\r\n\r\n",
            First::LengthRequired(0),
        ),
    ];
    for (text, answer) in cases {
        expect(&rt, rt.alloc(), text, answer)?;
    }
    Ok(())
}

#[test]
fn limits(rt: HostRuntime) -> Result<(), Fail> {
    let line = b"GET / HTTP/1.1\r\nx: ";
    let short = with_filler(rt.alloc(), line, 16_383 - line.len(), b"")?;
    expect_in(&rt, rt.alloc(), &short, &[100_000, 500, 1], First::Bad(0))?;
    let long = with_filler(rt.alloc(), line, 16_384 - line.len(), b"")?;
    expect_in(
        &rt,
        rt.alloc(),
        &long,
        &[100_000, 500, 1],
        First::TooLarge(0),
    )?;
    let fits = with_filler(rt.alloc(), line, 16_380 - line.len(), b"\r\n\r\n")?;
    expect_in(
        &rt,
        rt.alloc(),
        &fits,
        &[100_000, 500, 1],
        First::Request(1, 0, 1),
    )?;
    let whole = b"POST /grant HTTP/1.1\r\ncontent-length: 65536\r\n\r\n";
    let body = with_filler(rt.alloc(), whole, 65_536, b"")?;
    expect_in(
        &rt,
        rt.alloc(),
        &body,
        &[100_000, 500, 1],
        First::Request(6, 65_536, 1),
    )?;
    let over = b"POST /grant HTTP/1.1\r\ncontent-length: 65537\r\n\r\n";
    expect(&rt, rt.alloc(), over, First::TooLarge(0))?;
    Ok(())
}

#[test]
fn fields(rt: HostRuntime) -> Result<(), Fail> {
    for (count, answer) in [(64, First::Request(1, 0, 64)), (65, First::Bad(0))] {
        let mut text = Vec::from_slice(rt.alloc(), b"GET / HTTP/1.1\r\n")?;
        for _ in 0..count {
            text.extend_from_slice(b"a: b\r\n")?;
        }
        text.extend_from_slice(b"\r\n")?;
        expect(&rt, rt.alloc(), &text, answer)?;
    }
    Ok(())
}

#[test]
fn a_fault_comes_where_no_request_is_held(rt: HostRuntime) -> Result<(), Fail> {
    let text = b"GET / HTTP/1.1\r\n\r\n";
    assert_eq!(rt;
        first_answer(rt.alloc(), text, 18, &[1])?,
        First::Request(1, 0, 0)
    );
    assert_eq!(rt; first_answer(rt.alloc(), text, 17, &[1])?, First::ReadFault);
    Ok(())
}

#[test]
fn the_second_request(rt: HostRuntime) -> Result<(), Fail> {
    let text = b"GET / HTTP/1.1\r\n\r\nGET\r\n\r\n";
    let mut source = MemorySource::new(
        Vec::from_slice(rt.alloc(), text)?,
        20,
        Vec::new(rt.alloc()),
    );
    let mut reader = Reader::new(rt.alloc());
    let Ok(Some(raw)) = reader.next(rt.alloc(), &mut source) else {
        assert!(rt; false);
        return Ok(());
    };
    assert_eq!(rt; raw.method(), b"GET".as_slice());
    let Err(HttpFault::BadHttp { at }) = reader.next(rt.alloc(), &mut source) else {
        assert!(rt; false);
        return Ok(());
    };
    assert_eq!(rt; at, 18);
    Ok(())
}
