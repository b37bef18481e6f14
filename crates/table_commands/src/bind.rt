//! The command `bind`: tables of many files in one book.
//!
//! Each file in turn is loaded, read and checked as `brain FILE` does, and its table is kept by a binder; then the book is
//! written. The earliest file that cannot be added decides what is told, and the input is not asked.
#![tactic(auto)]

ghost use Rattle.std.specs.Prelude.{◌≡◌, ◌≢◌, ◌↔◌, ◌<◌, ℕ, List, Option, length, map, IfOk, IsTrue, OnErr, string_bytes};
ghost use Rattle.renju_io.specs.Asked.{IsAskedAtMost};
ghost use Rattle.renju_io.specs.Faults.{HasNotFallen, HasStayed};
ghost use Rattle.command_base.specs.Statuses.{status_number};
ghost use Rattle.command_base.specs.Runs.{Change, IsUnasked, change, program_run};
ghost use Rattle.table_book.specs.Books.{IsTextOfBook, IsWellFormed};
ghost use Rattle.table_commands.specs.Binds.{AreNames, BindSays, IsBind};

use crate::MAX_FILES;
use brain_session::BRAIN_WORK;
use command_base::{Answer, Status, deliver, full};
use file_loading::{Keeps, are_file_names, load_files};
use position_files::TableFile;
use renju_io::{Shelf, Sink};
use std::alloc::{AllocError, Global};
use table_book::{BindError, Binder, write_book};

/// The files so far, bound into a book.
#[derive(Drop)]
struct Binding {
    binder: Binder,
}

impl Keeps for Binding {
    ghost use Rattle.std.specs.Prelude.{◌<◌};
    ghost use Rattle.table_book.specs.Binding.{IsBound};
    ghost use Rattle.table_book.specs.declared.TheConstants.{MAX_ENTRIES};
    ghost use Rattle.table_commands.specs.Binds.{IsFullAt};

    ghost kept = { λ files binding. IsBound files binding.binder };

    ghost has_room = { λ n. n < MAX_ENTRIES };

    ghost tells = { IsFullAt };

    fn keep(&mut self, file: TableFile) -> Result<Option<Answer>, AllocError> {
        match self.binder.add(file) {
            Ok(()) => Ok(None),
            Err(BindError::Full) => Ok(Some(full())),
            Err(BindError::Memory) => Err(AllocError),
        }
    }
}

/// Whether these are 1 to `MAX_FILES` names, none of which is empty.
pub fn are_names(names: &[String]) -> bool
    ensures names { IsTrue result ↔ AreNames (map string_bytes names.now) }
{
    are_file_names(names, MAX_FILES)
}

/// `bind FILE ..`: writes the book of the files under these names, or why the earliest that cannot be bound is not.
#[inline(never)]
pub fn bind_book<O: Sink, F: Shelf>(
    alloc: Global,
    names: &[String],
    output: &mut O,
    shelf: &mut F,
) -> Status
    requires names { AreNames (map string_bytes names.now) }
    ensures binds { (words : List (List ℕ)) (input : Change (Option (List ℕ))) (last : Option ℕ) → IsUnasked input →
        IsBind (map string_bytes names.now) (program_run words input (change O.written O.faults O.asked output.old output.new)
        (change F.files F.faults F.asked shelf.old shelf.new) last (status_number result)) }
    ensures output { HasNotFallen (O.faults output.old) (O.faults output.new) }
    ensures shelf { HasNotFallen (F.faults shelf.old) (F.faults shelf.new) }
    ensures files { F.files shelf.new ≡ F.files shelf.old }
    ensures writes { status_number result ≢ status_number Status.WriteFault → HasStayed (O.faults output.old) (O.faults output.new) }
    ensures loads { status_number result ≢ status_number Status.ShelfFault → status_number result ≢ status_number Status.WriteFault
        → HasStayed (F.faults shelf.old) (F.faults shelf.new) }
{
    match bind_files(alloc, names, shelf) {
        Ok(answer) => deliver(answer.status, answer.text.as_slice(), output),
        Err(_) => Status::Memory,
    }
}

/// What is said of the files under these names.
fn bind_files<F: Shelf>(
    alloc: Global,
    names: &[String],
    shelf: &mut F,
) -> Result<Answer, AllocError>
    requires names { AreNames (map string_bytes names.now) }
    ensures says { IfOk result (λ answer. BindSays (map string_bytes names.now) (change F.files F.faults F.asked shelf.old shelf.new)
        answer.status answer.text) }
    ensures shelf { HasNotFallen (F.faults shelf.old) (F.faults shelf.new) }
    ensures files { F.files shelf.new ≡ F.files shelf.old }
    ensures loads { IfOk result (λ answer. answer.status ≢ Status.ShelfFault → HasStayed (F.faults shelf.old) (F.faults shelf.new)) }
    ensures memory { OnErr result (HasStayed (F.faults shelf.old) (F.faults shelf.new)) }
    ensures each { IsAskedAtMost (length (map string_bytes names.now)) (F.asked shelf.old) (F.asked shelf.new) }
{
    let mut binding = Binding {
        binder: Binder::new(alloc),
    };
    match load_files(alloc, names, BRAIN_WORK, &mut binding, shelf)? {
        None => book_of(alloc, binding),
        Some(told) => Ok(told),
    }
}

/// The book of the files that were bound, written.
fn book_of(alloc: Global, binding: Binding) -> Result<Answer, AllocError>
    requires some { 0 < length binding.binder.entries }
    ensures status { IfOk result (λ answer. answer.status ≡ Status.Done) }
    ensures well_formed { IfOk result (λ _. IsWellFormed binding.binder) }
    ensures text { IfOk result (λ answer. IsTextOfBook binding.binder answer.text) }
{
    let Binding { binder } = binding;
    let book = binder.finish()?;
    Ok(Answer::written(Status::Done, write_book(alloc, &book)?))
}
