//! Devices in memory, and texts of many bytes. What makes and asks them promises nothing, which keeps the tests quick to prove.

ghost use Rattle.std.specs.Prelude.{◌<◌, length};

use renju_io::{Failed, MemoryFile, MemoryShelf, MemorySink, MemorySource, Sink, Source};
use std::alloc::{AllocError, Global};

/// How the devices of a test fail: the numbers of the reads, of the writes and of the loads that do, and how many bytes of its
/// piece a failing write keeps. A read gives at most `piece` bytes.
#[derive(Clone, Copy)]
pub(crate) struct Failing {
    pub piece: usize,
    pub reads: &'static [u64],
    pub writes: &'static [u64],
    pub kept: usize,
    pub loads: &'static [u64],
}

/// Devices that do not fail.
pub(crate) const SOUND: Failing = Failing {
    piece: 65_536,
    reads: &[],
    writes: &[],
    kept: 0,
    loads: &[],
};

/// A source of these bytes that fails so.
pub(crate) fn source_of(
    alloc: Global,
    bytes: &[u8],
    failing: &Failing,
) -> Result<MemorySource, AllocError> {
    let piece = if failing.piece == 0 { 1 } else { failing.piece };
    let bytes = Vec::from_slice(alloc, bytes)?;
    Ok(MemorySource::new(bytes, piece, Vec::from_slice(alloc, failing.reads)?))
}

/// A sink that fails so.
pub(crate) fn sink_of(alloc: Global, failing: &Failing) -> Result<MemorySink, AllocError> {
    Ok(MemorySink::new(alloc, failing.kept, Vec::from_slice(alloc, failing.writes)?))
}

/// A shelf with one file, or with none where its name is empty, that fails so.
pub(crate) fn shelf_of(
    alloc: Global,
    name: &str,
    bytes: &[u8],
    failing: &Failing,
) -> Result<MemoryShelf, AllocError> {
    let loads = Vec::from_slice(alloc, failing.loads)?;
    if name.is_empty() {
        return Ok(MemoryShelf::new(Vec::new(alloc), loads));
    }
    let file = MemoryFile {
        name: String::from_str(alloc, name)?,
        bytes: Vec::from_slice(alloc, bytes)?,
    };
    Ok(MemoryShelf::new(vec![in alloc; file]?, loads))
}

/// What one read answers, maybe of a source that has told its end.
pub(crate) fn read_once(source: &mut MemorySource, buffer: &mut [u8]) -> Result<usize, Failed>
    requires { 0 < length buffer.old }
{
    source.read(buffer)
}

/// What one write answers.
pub(crate) fn write_once(sink: &mut MemorySink, piece: &[u8]) -> Result<(), Failed> {
    sink.write(piece)
}

/// A text of so many of the byte.
pub(crate) fn text_of(alloc: Global, byte: u8, count: usize) -> Option<Vec<u8>> {
    vec![in alloc; byte; count].ok()
}
