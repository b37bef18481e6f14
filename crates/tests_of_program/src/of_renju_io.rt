//! Inputs that are read and texts that are written over devices in memory, some of which fail in the middle. The devices of the system
//! are those of the program.

use crate::compared::same;
use crate::devices::{Failing, SOUND, read_once, sink_of, source_of, text_of, write_once};
use renju_io::{Failed, MemorySink, MemorySource, ReadAllError, read_all, write_text};
use std::alloc::Global;
use std::process::Abort;

/// What is read to the end.
fn read_whole(alloc: Global, source: &mut MemorySource) -> Result<Vec<u8>, ReadAllError> {
    read_all(alloc, source)
}

/// What writing a text piece by piece answers.
fn write_whole(sink: &mut MemorySink, text: &[u8]) -> Result<(), Failed> {
    write_text(sink, text)
}

const GAME: &[u8] = b"five in a row";

/// Whether the game is read whole, of a source that fails so.
fn reads_game(alloc: Global, failing: &Failing) -> Option<bool> {
    let mut source = source_of(alloc, GAME, failing).ok()?;
    let read = read_whole(alloc, &mut source).ok()?;
    Some(read.as_slice() == GAME)
}

/// What one more read answers once the game is read.
fn read_after(alloc: Global, failing: &Failing) -> Option<Result<usize, Failed>> {
    let mut source = source_of(alloc, GAME, failing).ok()?;
    read_whole(alloc, &mut source).ok()?;
    Some(read_once(&mut source, &mut [0]))
}

/// Three reads of five bytes give the game and the fourth tells the end, so the fifth is the one after.
#[test]
fn reads_all_in_pieces_and_nothing_after_the_end(rt: HostRuntime) {
    let threes = Failing { piece: 3, ..SOUND };
    same(&rt, reads_game(rt.alloc(), &threes), Some(true));
    same(&rt, read_after(rt.alloc(), &threes), Some(Ok(0)));
    let fives = Failing {
        piece: 5,
        reads: &[5],
        ..SOUND
    };
    same(&rt, reads_game(rt.alloc(), &fives), Some(true));
    same(&rt, read_after(rt.alloc(), &fives), Some(Err(Failed)));
}

/// What a first reading is refused for, and whether a second one reads these bytes.
fn read_twice(
    alloc: Global,
    source: &mut MemorySource,
    rest: &[u8],
) -> Option<(ReadAllError, bool)> {
    let refused = read_whole(alloc, source).err()?;
    let read = read_whole(alloc, source).ok()?;
    Some((refused, read.as_slice() == rest))
}

#[test]
fn a_failing_read_gives_nothing(rt: HostRuntime) {
    let failing = Failing {
        piece: 4,
        reads: &[2],
        ..SOUND
    };
    let mut source = source_of(rt.alloc(), GAME, &failing).expect(&rt, "a source");
    let told = read_twice(rt.alloc(), &mut source, b" in a row");
    same(&rt, told, Some((ReadAllError::Failed, true)));
}

/// What writing so many bytes to a sink that fails so answers, how many it takes, and whether they are the first of the text.
fn written(
    alloc: Global,
    len: usize,
    failing: &Failing,
) -> Option<(Result<(), Failed>, usize, bool)> {
    let text = text_of(alloc, b'x', len)?;
    let mut sink = sink_of(alloc, failing).ok()?;
    let answer = write_whole(&mut sink, text.as_slice());
    Some((
        answer,
        sink.bytes().len(),
        text.as_slice().starts_with(sink.bytes()),
    ))
}

#[test]
fn writes_in_pieces_up_to_a_failure(rt: HostRuntime) {
    let told = written(rt.alloc(), 10_000, &SOUND);
    same(&rt, told, Some((Ok(()), 10_000, true)));
    let failing = Failing {
        writes: &[2],
        kept: 3,
        ..SOUND
    };
    let told = written(rt.alloc(), 10_000, &failing);
    same(&rt, told, Some((Err(Failed), 4_096 + 3, true)));
}

/// What one more write answers once a text is written, and how many bytes the sink has then.
fn write_after(
    alloc: Global,
    len: usize,
    failing: &Failing,
) -> Option<(Result<(), Failed>, usize)> {
    let text = text_of(alloc, b'x', len)?;
    let mut sink = sink_of(alloc, failing).ok()?;
    write_whole(&mut sink, text.as_slice()).ok()?;
    Some((write_once(&mut sink, b"acc"), sink.bytes().len()))
}

/// Two writes take the two pieces of a text, so the third is the one after; an empty text asks for none.
#[test]
fn nothing_is_written_after_the_last_piece(rt: HostRuntime) {
    let third = Failing {
        writes: &[3],
        ..SOUND
    };
    let told = write_after(rt.alloc(), 8_192, &third);
    same(&rt, told, Some((Err(Failed), 8_192)));
    let first = Failing {
        writes: &[1],
        ..SOUND
    };
    let told = write_after(rt.alloc(), 0, &first);
    same(&rt, told, Some((Err(Failed), 0)));
}
