//! A FILE of a command: its text is read, and its table is held once it is accepted.
//!
//! `brain FILE` plays by what is held, which may be that of a book with all its entries, and `referee FILE` compares games with a
//! table. Each refusal of FILE comes before the input is asked.
#![tactic(auto)]

ghost use Rattle.std.specs.Prelude.{◌≡◌, true, length, IfOk, OnErr};
ghost use Rattle.game_rules.specs.Play.{IsPosition};
ghost use Rattle.strategy_graph.specs.Roots.{root_below};
ghost use Rattle.table_book.specs.Books.{IsWellFormed};
ghost use Rattle.renju_io.specs.Faults.{HasNotFallen, HasStayed};
ghost use Rattle.command_base.specs.Runs.{IsAskedOnly, change};
ghost use Rattle.file_loading.specs.Loading.{IsLoadedAs, IsLoadedBook, IsLoadedBookText, IsLoadedFile, IsLoadedFrom, IsLoadedHeld};
ghost use Rattle.file_loading.specs.Loading.{IsLoadedText};

use crate::refusals::{refused_book, refused_entry, refused_root};
use brain_session::BRAIN_WORK;
use command_base::{Answer, SHELF_FAILED, Status, TOO_LONG, refused_text};
use position_files::{TableFile, read_table};
use renju_io::{LoadError, Shelf};
use std::alloc::{AllocError, Global};
use strategy_checker::Held;
use table_book::{Book, hold_book, is_book, read_book};

/// What comes of the text of a FILE: its table is held, or it is told why not.
#[derive(Drop)]
pub enum Loaded {
    /// Its table, or that of a book with the roots of all entries.
    Holds(Held),
    /// What is told in place of it.
    Tells(Answer),
}

/// What the text of a FILE that is to be held may be.
#[derive(Clone, Copy)]
pub enum Holdable {
    /// A table alone.
    Table,
    /// A table or a book, as the first line tells.
    TableOrBook,
}

/// What comes of FILE: the shelf is asked for it once, and what its bytes give is held, or it is told why not.
pub fn load_file<F: Shelf>(
    alloc: Global,
    holdable: Holdable,
    file: &str,
    shelf: &mut F,
) -> Result<Loaded, AllocError>
    ensures loaded { IfOk result (IsLoadedFrom holdable (change F.files F.faults F.asked shelf.old shelf.new) file.now) }
    ensures once { IsAskedOnly (change F.files F.faults F.asked shelf.old shelf.new) }
    ensures shelf { HasNotFallen (F.faults shelf.old) (F.faults shelf.new) }
    ensures files { F.files shelf.new ≡ F.files shelf.old }
    ensures memory { OnErr result (HasStayed (F.faults shelf.old) (F.faults shelf.new)) }
{
    match shelf.load(alloc, file) {
        Ok(bytes) => load_text(alloc, holdable, bytes.as_slice()),
        Err(LoadError::Failed) => Ok(Loaded::Tells(Answer::fixed(
            Status::ShelfFault,
            SHELF_FAILED,
        ))),
        Err(LoadError::TooLong) => Ok(Loaded::Tells(Answer::fixed(Status::TooLong, TOO_LONG))),
        Err(LoadError::Memory) => Err(AllocError),
    }
}

/// What comes of the text of a FILE that may be so much.
fn load_text(alloc: Global, holdable: Holdable, bytes: &[u8]) -> Result<Loaded, AllocError>
    ensures loaded { IfOk result (IsLoadedAs holdable bytes.now) }
{
    match holdable {
        Holdable::Table => load(alloc, bytes),
        Holdable::TableOrBook => load_any(alloc, bytes),
    }
}

/// What comes of the text of a FILE that may be a table or a book, as its first line tells.
fn load_any(alloc: Global, bytes: &[u8]) -> Result<Loaded, AllocError>
    ensures loaded { IfOk result (IsLoadedHeld bytes.now) }
{
    if is_book(bytes) {
        load_book(alloc, bytes)
    } else {
        load(alloc, bytes)
    }
}

/// What comes of the text of a FILE that is to be a book.
fn load_book(alloc: Global, bytes: &[u8]) -> Result<Loaded, AllocError>
    ensures loaded { IfOk result (IsLoadedBookText bytes.now) }
{
    match read_book(alloc, bytes) {
        Ok(book) => hold_entries(alloc, book),
        Err(error) => Ok(Loaded::Tells(refused_book(alloc, error)?)),
    }
}

/// Holds the table of a book, if the root of each entry is accepted at its position.
fn hold_entries(alloc: Global, book: Book) -> Result<Loaded, AllocError>
    requires well_formed { IsWellFormed book }
    ensures loaded { IfOk result (IsLoadedBook book) }
{
    match hold_book(alloc, book, BRAIN_WORK) {
        Ok(held) => Ok(Loaded::Holds(held)),
        Err(error) => Ok(Loaded::Tells(refused_entry(alloc, error)?)),
    }
}

/// What comes of the text of a FILE that is to be a table.
fn load(alloc: Global, bytes: &[u8]) -> Result<Loaded, AllocError>
    ensures loaded { IfOk result (IsLoadedText bytes.now) }
{
    match read_table(alloc, bytes) {
        Ok(file) => hold(alloc, file),
        Err(error) => Ok(Loaded::Tells(refused_text(alloc, error)?)),
    }
}

/// Holds the table of a text, if its root is accepted there.
fn hold(alloc: Global, file: TableFile) -> Result<Loaded, AllocError>
    requires lawful { IsPosition file.kind file.board }
    requires root { root_below file.root (length file.table) ≡ true }
    ensures loaded { IfOk result (IsLoadedFile file) }
{
    let TableFile {
        kind,
        board,
        table,
        root,
        moves: _,
    } = file;
    let mut held = Held::new(alloc, table);
    match held.add_at(kind, board, root, BRAIN_WORK) {
        Ok(_) => Ok(Loaded::Holds(held)),
        Err(error) => {
            let told = refused_root(alloc, error)?;
            Ok(Loaded::Tells(told))
        }
    }
}
