//! The devices of the system: standard input and output, and files.
//!
//! A source is an adapter of any reader of std and a sink one of any writer: a read takes what the reader gives, a write stands
//! behind what the writer holds, and a failure is told, as std tells of the bytes of the two. Of those of the system, and of files by
//! their names, std tells nothing. That a shelf opens the file of the name that it is given, and that a sink flushes, no clause says;
//! cases show it.
ghost use Rattle.std.specs.Prelude.{◌≡◌, ◌<◌, ◌≤◌, true, None, Some, length, Ok, IfOk, OnOk, OnErr};
ghost use Rattle.std.specs.Io.KnownBytes.{Appends, ReadConsumes};
ghost use Rattle.renju_io.specs.Faults.{HasRisen, HasStayed, HasNotFallen};
ghost use Rattle.renju_io.specs.Asked.{IsAskedOnce, no_counts};
ghost use Rattle.renju_io.specs.Told.{tells_end as tells_end_lem};

use crate::source::tells_end;
use crate::{Failed, LoadError, MAX_INPUT_BYTES, ReadAllError, Shelf, Sink, Source, read_all};
use std::alloc::Global;
use std::fs;
use std::io::{ErrorKind, Read, Write};
use std::marker::Model;
use std::rt::Files;

/// A source over a reader of std, as standard input.
#[derive(Drop)]
pub struct RealSource<R: Read + Drop> {
    reader: R,
    last: Option<usize>,
    asked: u64,
    faults: u64,
}

impl<R: Read + Drop> Model for RealSource<R> {
    ghost use Rattle.renju_io.specs.Real.{ReaderDevice};

    ghost Value = { ReaderDevice };

    ghost view = { λ s. record { remaining = R.remaining s.reader; last = s.last; asked = s.asked; faults = s.faults } };
}

impl<R: Read + Drop> RealSource<R> {
    /// The source starts with both counts at 0.
    pub fn new(reader: R) -> RealSource<R>
        ensures fresh { result ≡ record { remaining = R.remaining reader; last = None; asked = 0; faults = 0 } }
    {
        RealSource {
            reader,
            last: None,
            asked: 0,
            faults: 0,
        }
    }
}

impl<R: Read + Drop> Source for RealSource<R> {
    ghost left = { λ _. None };

    ghost last = { λ s. s.last };

    ghost faults = { λ s. s.faults };

    ghost asked = { λ s. s.asked };

    fn has_ended(&self) -> bool
        ensures told { result ≡ tells_end_lem self.now.last }
    {
        tells_end(self.last)
    }

    /// One read of the reader into the whole buffer.
    fn read(&mut self, buf: &mut [u8]) -> Result<usize, Failed>
        requires room { 0 < length buf.old }
        ensures fits { IfOk result (λ count. count ≤ length buf.old) }
        ensures consumes { ReadConsumes self.old.remaining self.new.remaining result buf.new }
        ensures last { IfOk result (λ count. self.new.last ≡ Some count) }
        ensures last_kept { OnErr result (self.new.last ≡ self.old.last) }
        ensures failed { OnErr result (HasRisen self.old.faults self.new.faults) }
        ensures uncounted { OnOk result (HasStayed self.old.faults self.new.faults) }
        ensures counted { HasNotFallen self.old.faults self.new.faults }
        ensures asks { IsAskedOnce self.old.asked self.new.asked }
    {
        self.asked = self.asked.saturating_add(1);
        let answer = read_retrying(&mut self.reader, buf);
        match answer {
            Ok(count) => self.last = Some(count),
            Err(Failed) => self.faults = self.faults.saturating_add(1),
        }
        answer
    }
}

// A read that is made again where a signal cuts it off.
fn read_retrying<R: Read>(reader: &mut R, buf: &mut [u8]) -> Result<usize, Failed>
    ensures fits { IfOk result (λ count. count ≤ length buf.old) }
    ensures consumes { ReadConsumes (R.remaining reader.old) (R.remaining reader.new) result buf.new }
{
    for _ in 0..u64::MAX {
        match reader.read(buf) {
            Ok(count) => return Ok(count),
            Err(e) if e.kind() == ErrorKind::Interrupted => {}
            Err(_) => break,
        }
    }
    Err(Failed)
}

/// A sink over a writer of std, as standard output. It flushes after each write, which no clause shows.
#[derive(Drop)]
pub struct RealSink<W: Write + Drop> {
    writer: W,
    asked: u64,
    faults: u64,
}

impl<W: Write + Drop> Model for RealSink<W> {
    ghost use Rattle.renju_io.specs.Real.{WriterDevice};

    ghost Value = { WriterDevice };

    ghost view = { λ s. record { contents = W.contents s.writer; asked = s.asked; faults = s.faults } };
}

impl<W: Write + Drop> RealSink<W> {
    /// The sink starts with both counts at 0.
    pub fn new(writer: W) -> RealSink<W>
        ensures fresh { result ≡ record { contents = W.contents writer; asked = 0; faults = 0 } }
    {
        RealSink {
            writer,
            asked: 0,
            faults: 0,
        }
    }
}

impl<W: Write + Drop> Sink for RealSink<W> {
    ghost written = { λ _. None };

    ghost faults = { λ s. s.faults };

    ghost asked = { λ s. s.asked };

    fn write(&mut self, piece: &[u8]) -> Result<(), Failed>
        ensures appends { OnOk result (Appends self.old.contents self.new.contents piece.now) }
        ensures failed { OnErr result (HasRisen self.old.faults self.new.faults) }
        ensures uncounted { OnOk result (HasStayed self.old.faults self.new.faults) }
        ensures counted { HasNotFallen self.old.faults self.new.faults }
        ensures asks { IsAskedOnce self.old.asked self.new.asked }
    {
        self.asked = self.asked.saturating_add(1);
        if self.writer.write_all(piece).is_ok() && self.writer.flush().is_ok() {
            return Ok(());
        }
        self.faults = self.faults.saturating_add(1);
        Err(Failed)
    }
}

/// A shelf over the files of the system. A name is a path, from the current folder.
#[derive(Drop)]
pub struct RealShelf<F: Files + Drop> {
    files: F,
    asked: u64,
    faults: u64,
}

impl<F: Files + Drop> Model for RealShelf<F> {
    ghost use Rattle.renju_io.specs.Asked.{Counts};

    ghost Value = { Counts };

    ghost view = { λ s. record { asked = s.asked; faults = s.faults } };
}

impl<F: Files + Drop> RealShelf<F> {
    /// The shelf starts with both counts at 0.
    pub fn new(files: F) -> RealShelf<F>
        ensures fresh { result ≡ no_counts }
    {
        RealShelf {
            files,
            asked: 0,
            faults: 0,
        }
    }
}

impl<F: Files + Drop> Shelf for RealShelf<F> {
    ghost files = { λ _. None };

    ghost faults = { λ s. s.faults };

    ghost asked = { λ s. s.asked };

    /// A file that is too long is read only as far as it takes to know that.
    fn load(&mut self, alloc: Global, name: &str) -> Result<Vec<u8>, LoadError> {
        self.asked = self.asked.saturating_add(1);
        let answer = load_file(alloc, &self.files, name);
        if let Err(LoadError::Failed) = answer {
            self.faults = self.faults.saturating_add(1);
        }
        answer
    }
}

fn load_file<F: Files>(alloc: Global, files: &F, name: &str) -> Result<Vec<u8>, LoadError>
    ensures short { IfOk result (λ bytes. length bytes.items ≤ MAX_INPUT_BYTES) }
{
    let Ok(file) = fs::open(files, name) else {
        return Err(LoadError::Failed);
    };
    match read_all(alloc, &mut RealSource::new(file)) {
        Ok(bytes) => Ok(bytes),
        Err(ReadAllError::Failed) => Err(LoadError::Failed),
        Err(ReadAllError::TooLong) => Err(LoadError::TooLong),
        Err(ReadAllError::Memory) => Err(LoadError::Memory),
    }
}
