//! A shelf of files in memory, which fails at stated calls.
//!
//! It stands in for the files of the system in tests. No two of its files have the same name.
ghost use Rattle.std.specs.Prelude.{◌≡◌, ◌≢◌, ◌<◌, ◌≤◌, true, false, Some, length, Ok, Err, IfOk, IfErr, OnOk, IfSome, IsErrOf, IsSomeAnd, find, string_bytes};
ghost use Rattle.std.specs.Option.{option_copied};
ghost use Rattle.std.specs.Str.{bytes_eq};
ghost use Rattle.renju_io.specs.Faults.{HasRisen, HasStayed, HasNotFallen};
ghost use Rattle.renju_io.specs.Files.{IsMap, file_under};
ghost use Rattle.renju_io.specs.Asked.{IsAskedOnce};
ghost use Rattle.renju_io.specs.Memory.{no_calls, after_call, load_answer, file_answer, is_failed, entries};
ghost use Rattle.renju_io.specs.declared.shelf.LoadError.{LoadError};

use crate::failures::Failures;
use crate::{LoadError, MAX_INPUT_BYTES, Shelf};
use std::alloc::Global;
use std::marker::Model;

/// A file of a shelf in memory.
#[derive(Drop)]
pub struct MemoryFile {
    /// The name that a load asks for.
    pub name: String,
    /// What is in the file.
    pub bytes: Vec<u8>,
}

/// A shelf whose files are in memory.
#[derive(Drop)]
pub struct MemoryShelf {
    files: Vec<MemoryFile>,
    failures: Failures,
}

impl Model for MemoryShelf {
    ghost use Rattle.renju_io.specs.Files.{IsMap};
    ghost use Rattle.renju_io.specs.Memory.{ShelfState, entries};

    ghost Value = { ShelfState };

    ghost view = { λ s. record { files = entries s.files.items; calls = s.failures } };

    ghost invariant = { λ s. IsMap (entries s.files.items) };
}

impl MemoryShelf {
    /// A shelf with these files, whose names are different. The loads whose numbers are in `failing` fail, the first
    /// load being number 1. It takes no memory.
    pub fn new(files: Vec<MemoryFile>, failing: Vec<u64>) -> MemoryShelf
        requires different { IsMap (entries files.items) }
        ensures holds { result ≡ record { files = entries files.items; calls = no_calls failing.items } }
    {
        MemoryShelf {
            files,
            failures: Failures::new(failing),
        }
    }
}

impl Shelf for MemoryShelf {
    ghost files = { λ s. Some s.files };

    ghost faults = { λ s. s.calls.faults };

    ghost asked = { λ s. s.calls.made };

    fn load(&mut self, alloc: Global, name: &str) -> Result<Vec<u8>, LoadError>
        ensures found { IfOk result (λ bytes. file_under name.now self.old.files ≡ Some bytes.items) }
        ensures short { IfOk result (λ bytes. length bytes.items ≤ MAX_INPUT_BYTES) }
        ensures too_long { IsErrOf result LoadError.TooLong →
            IsSomeAnd (file_under name.now self.old.files) (λ bytes. MAX_INPUT_BYTES < length bytes) }
        ensures failed { IsErrOf result LoadError.Failed →
            HasRisen self.old.calls.faults self.new.calls.faults }
        ensures uncounted { OnOk result (HasStayed self.old.calls.faults self.new.calls.faults) }
        ensures not_failed { IfErr result (λ e.
            e ≢ LoadError.Failed → HasStayed self.old.calls.faults self.new.calls.faults) }
        ensures kept { Some self.new.files ≡ Some self.old.files }
        ensures counted { HasNotFallen self.old.calls.faults self.new.calls.faults }
        ensures asks { IsAskedOnce self.old.calls.made self.new.calls.made }

        // Which loads fail, and what the others answer.
        ensures ok { IfOk result (λ bytes. load_answer self.old name.now ≡ Ok bytes.items) }
        ensures err { IfErr result (λ e. e ≢ LoadError.Memory → load_answer self.old name.now ≡ Err e) }
        ensures calls { self.new.calls ≡ after_call self.old.calls (is_failed result) }
    {
        let answer = if self.failures.begin_call() {
            Err(LoadError::Failed)
        } else {
            copy_file(alloc, &self.files, name)
        };
        if let Err(LoadError::Failed) = answer {
            self.failures.count_fault();
        }
        answer
    }
}

// The bytes of the first file under a name, if it is there and not too long.
fn copy_file(alloc: Global, files: &[MemoryFile], name: &str) -> Result<Vec<u8>, LoadError>
    ensures ok { IfOk result (λ bytes. file_answer (file_under name.now (entries files.now)) ≡ Ok bytes.items) }
    ensures err { IfErr result (λ e. e ≢ LoadError.Memory →
        file_answer (file_under name.now (entries files.now)) ≡ Err e) }
{
    let Some(file) = find_file(files, name) else {
        return Err(LoadError::Failed);
    };
    if file.bytes.len() > MAX_INPUT_BYTES {
        return Err(LoadError::TooLong);
    }
    match Vec::from_slice(alloc, &file.bytes) {
        Ok(bytes) => Ok(bytes),
        Err(_) => Err(LoadError::Memory),
    }
}

// The first file under a name.
fn find_file<'a>(files: &'a [MemoryFile], name: &str) -> Option<&'a MemoryFile>
    ensures first { option_copied result ≡ find (λ file. bytes_eq name.now (string_bytes file.name)) files.now }
{
    files.iter().find(|file| name == file.name.as_str())
}
