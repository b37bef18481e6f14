//! Lines of `renju_io` that are cut at every place, lines at their limit, a read that fails within a line, and the last byte that may
//! be taken.
//!
//! What a reader tells is written down, call by call, and compared as a whole.

use crate::compared::same;
use crate::devices::{Failing, SOUND, read_once, source_of, text_of};
use renju_io::{Failed, Line, LineReader, MAX_SESSION_BYTES, MemorySource, ReadError};
use std::alloc::{AllocError, Global};
use std::process::Abort;

/// Adds what the reader tells next: a text as it is, anything else in angle brackets, and a line feed.
fn add_next(
    told: &mut Vec<u8>,
    reader: &mut LineReader,
    source: &mut MemorySource,
) -> Result<(), AllocError> {
    match reader.next(source) {
        Ok(Line::Text) => told.extend_from_slice(reader.text())?,
        Ok(Line::TooLong) => told.extend_from_slice(b"<too long>")?,
        Ok(Line::End) => told.extend_from_slice(b"<end>")?,
        Err(ReadError::Failed) => told.extend_from_slice(b"<failed>")?,
        Err(ReadError::Exhausted) => told.extend_from_slice(b"<exhausted>")?,
    }
    told.push(b'\n')?;
    Ok(())
}

/// What a reader of the source tells in so many calls.
fn told_in(alloc: Global, calls: u32, source: &mut MemorySource) -> Result<Vec<u8>, AllocError> {
    let mut reader = LineReader::new(alloc)?;
    let mut told = Vec::new(alloc);
    for _ in 0..calls {
        add_next(&mut told, &mut reader, source)?;
    }
    Ok(told)
}

/// Compares what a reader of these bytes tells in so many calls, and then what one more read of the source answers.
fn compare(
    rt: &(impl Abort + AllocGlobal),
    bytes: &[u8],
    failing: &Failing,
    calls: u32,
    wanted: &[u8],
    read: Result<usize, Failed>,
) {
    let mut source = source_of(rt.alloc(), bytes, failing).expect(rt, "a source");
    let told = told_in(rt.alloc(), calls, &mut source).expect(rt, "memory");
    same(rt, told.as_slice(), wanted);
    same(rt, read_once(&mut source, &mut [0]), read);
}

#[test]
fn lines_do_not_depend_on_the_reads(rt: HostRuntime) {
    let text = b"START 15\n\r\n\nTURN 7,7";
    let told = b"START 15\n\r\n\nTURN 7,7\n<end>\n<end>\n";
    for piece in [1, 3, 9, 100] {
        compare(&rt, text, &Failing { piece, ..SOUND }, 6, told, Ok(0));
    }
}

#[test]
fn the_last_line_may_end_or_not(rt: HostRuntime) {
    let twos = Failing { piece: 2, ..SOUND };
    compare(&rt, b"BEGIN\n", &twos, 3, b"BEGIN\n<end>\n<end>\n", Ok(0));
    compare(&rt, b"", &twos, 2, b"<end>\n<end>\n", Ok(0));
}

/// Lines of 4,096, 4,097, 20,000, 3 and 4,097 bytes, of which the last has no line feed.
fn long_lines(alloc: Global) -> Result<Vec<u8>, AllocError> {
    let mut bytes = Vec::new(alloc);
    for len in [4_096, 4_097, 20_000] {
        bytes.extend_from_slice(vec![in alloc; b'x'; len]?.as_slice())?;
        bytes.push(b'\n')?;
    }
    bytes.extend_from_slice(b"END\n")?;
    bytes.extend_from_slice(vec![in alloc; b'x'; 4_097]?.as_slice())?;
    Ok(bytes)
}

/// What is told of them: the first as it is.
fn told_of_long_lines(alloc: Global) -> Result<Vec<u8>, AllocError> {
    let mut told = vec![in alloc; b'x'; 4_096]?;
    told.extend_from_slice(b"\n<too long>\n<too long>\nEND\n<too long>\n<end>\n")?;
    Ok(told)
}

#[test]
fn a_line_is_too_long_by_one_byte(rt: HostRuntime) {
    let bytes = long_lines(rt.alloc()).expect(&rt, "memory");
    let told = told_of_long_lines(rt.alloc()).expect(&rt, "memory");
    let failing = Failing {
        piece: 1_000,
        ..SOUND
    };
    compare(&rt, bytes.as_slice(), &failing, 6, told.as_slice(), Ok(0));
}

#[test]
fn a_line_goes_on_after_a_failure(rt: HostRuntime) {
    let failing = Failing {
        piece: 4,
        reads: &[2, 4, 6],
        ..SOUND
    };
    let told = b"<failed>\nBEGIN\n<failed>\nEND\n<failed>\n<end>\n";
    compare(&rt, b"BEGIN\nEND\n", &failing, 6, told, Ok(0));
}

/// One read gives both lines, so the second is the one after.
#[test]
fn nothing_is_read_while_a_line_is_kept(rt: HostRuntime) {
    let failing = Failing {
        piece: 10,
        reads: &[2],
        ..SOUND
    };
    let text = b"BEGIN\nEND\nSTART 15\n";
    compare(&rt, text, &failing, 2, b"BEGIN\nEND\n", Err(Failed));
}

/// One read gives both lines, and the next tells the end. The reader asks for no third, which would fail.
#[test]
fn nothing_is_read_after_the_end(rt: HostRuntime) {
    let failing = Failing {
        piece: 100,
        reads: &[3],
        ..SOUND
    };
    let told = b"BEGIN\nEND\n<end>\n<end>\n";
    compare(&rt, b"BEGIN\nEND\n", &failing, 4, told, Err(Failed));
    compare(&rt, b"BEGIN\nEND", &failing, 4, told, Err(Failed));
}

/// One line, which is too long, after which so many bytes may be taken, and then these.
fn last_bytes(alloc: Global, left: u8, bytes: &[u8]) -> Option<Vec<u8>> {
    let mut input = text_of(alloc, b'x', MAX_SESSION_BYTES - 1 - left as usize)?;
    input.push(b'\n').ok()?;
    input.extend_from_slice(bytes).ok()?;
    Some(input)
}

/// What a reader tells of them in four calls.
fn told_last(alloc: Global, left: u8, bytes: &[u8]) -> Option<Vec<u8>> {
    let input = last_bytes(alloc, left, bytes)?;
    let mut source = MemorySource::new(input, 1_000_000, Vec::new(alloc));
    told_in(alloc, 4, &mut source).ok()
}

/// How many bytes may be taken, the bytes, and what is told of them.
const LAST: [(u8, &[u8], &[u8]); 7] = [
    (4, b"END\n", b"<too long>\nEND\n<end>\n<end>\n"),
    (
        4,
        b"END\n\n",
        b"<too long>\nEND\n<exhausted>\n<exhausted>\n",
    ),
    (
        3,
        b"END\n\n",
        b"<too long>\n<exhausted>\n<exhausted>\n<exhausted>\n",
    ),
    (3, b"END", b"<too long>\nEND\n<end>\n<end>\n"),
    (
        2,
        b"END",
        b"<too long>\n<exhausted>\n<exhausted>\n<exhausted>\n",
    ),
    (5, b"\n\nEND\n", b"<too long>\n\n\n<exhausted>\n"),
    (0, b"", b"<too long>\n<end>\n<end>\n<end>\n"),
];

#[test]
fn the_last_byte_that_may_be_taken(rt: HostRuntime) {
    for (left, bytes, wanted) in &LAST {
        let told = told_last(rt.alloc(), *left, bytes).expect(&rt, "memory");
        same(&rt, (*left, told.as_slice()), (*left, *wanted));
    }
}
