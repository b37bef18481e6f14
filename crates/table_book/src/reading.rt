//! The text of a book, read section by section.
//!
//! A book is a first line, its nodes after their number, and its entries after theirs. The nodes are read before any board
//! is known, so their points are only below the largest board. Where a section is bad, its line is counted on from the
//! lines before it. Once all lines are read, the entries are asked one after another.
#![tactic(auto)]

ghost use Rattle.std.specs.Prelude.{◌≡◌, ◌+◌, ◌*◌, ◌≤◌, ◌++◌, ◌∷◌, true, length, ◌↔◌, IsTrue, OnOk, IfOk, IfErr};
ghost use Rattle.std.specs.List.{AllByRecursion, flat_map};
ghost use Rattle.text_lines.specs.Lines.{ended, text_of};
ghost use Rattle.text_lines.specs.Reading.{IsBetween};
ghost use Rattle.position_files.specs.Faults.{IsUpTo};
ghost use Rattle.position_files.specs.Sections.{IsSectionFault};
ghost use Rattle.table_book.specs.declared.Book.{Book};
ghost use Rattle.table_book.specs.Books.{BeginsBook, EntryFits, HasText, IsSound, IsTextOfBook, IsWellFormed, book_lines as book_lines_lem, entries_line, entry_lines};
ghost use Rattle.table_book.specs.Sections.{IsBookLines, IsEndLines, IsRestLines, rest_lines};
ghost use Rattle.table_book.specs.Faults.{IsBookFault, IsEntryFault, IsUnsound};
ghost use Rattle.strategy_graph.specs.Roots.{root_below};

use crate::entry_lines::{ENTRY_LINES, read_entries};
use crate::{Book, BookError, Entries, Entry, MAX_ENTRIES};
use foul_judge::refusal;
use game_rules::MAX_SIDE;
use position_files::{HeadError, read_nodes};
use std::alloc::Global;
use strategy_graph::{MAX_NODES, Table};
use text_lines::{after, number_line};

/// The first line of a book, with its end.
const FIRST_LINE: &[u8] = b"renju-book 1\n";

/// The lines of a book before those of its nodes: the first one, and their number.
const FRONT_LINES: u32 = 2;

/// The entries that the bytes begin with, after the line of their number, and the bytes after them.
fn read_end(alloc: Global, bytes: &[u8], below: u32) -> Result<(Entries, &[u8]), HeadError>
    ensures fits { IfOk result (λ found. AllByRecursion (EntryFits below) found.0) }
    ensures some { IfOk result (λ found. IsBetween 1 MAX_ENTRIES (length found.0)) }
    ensures text { IfOk result (λ found. bytes.now
        ≡ text_of (entries_line (length found.0) ∷ flat_map entry_lines found.0) ++ found.1.now) }
    ensures refused { IfErr result (IsSectionFault (IsEndLines below) bytes.now) }
    ensures within { IfErr result (IsUpTo (1 + ENTRY_LINES * MAX_ENTRIES)) }
{
    let Some((count, rest)) = number_line(bytes, b"entries ", 1, MAX_ENTRIES) else {
        return Err(HeadError::BadLine(1));
    };
    match read_entries(alloc, rest, count, below) {
        Ok(found) => Ok(found),
        Err(error) => Err(error.after(1)),
    }
}

/// The book of the nodes and the entries that the bytes begin with, after the lines before them, and the bytes after them.
fn read_rest(alloc: Global, bytes: &[u8], count: u32) -> Result<(Book, &[u8]), HeadError>
    requires few { count ≤ MAX_NODES }
    ensures fits { IfOk result (λ found. HasText found.0) }
    ensures count { IfOk result (λ found. length found.0.table ≡ count) }
    ensures text { IfOk result (λ found. bytes.now ≡ text_of (rest_lines found.0) ++ found.1.now) }
    ensures refused { IfErr result (IsSectionFault (IsRestLines count) bytes.now) }
    ensures within { IfErr result (IsUpTo (count + (1 + ENTRY_LINES * MAX_ENTRIES))) }
{
    let (table, rest) = read_nodes(alloc, bytes, count, MAX_SIDE, MAX_SIDE)?;
    match read_end(alloc, rest, count) {
        Ok((entries, rest)) => Ok((Book { table, entries }, rest)),
        Err(error) => Err(error.after(count)),
    }
}

/// The book that the bytes begin with the lines of, and the bytes after them. Its entries need not be sound.
fn book_lines(alloc: Global, bytes: &[u8]) -> Result<(Book, &[u8]), HeadError>
    ensures fits { IfOk result (λ found. HasText found.0) }
    ensures text { IfOk result (λ found. bytes.now
        ≡ text_of (book_lines_lem found.0) ++ found.1.now) }
    ensures refused { IfErr result (IsSectionFault IsBookLines bytes.now) }
{
    let Some(rest) = after(bytes, FIRST_LINE) else {
        return Err(HeadError::BadLine(1));
    };
    let Some((count, rest)) = number_line(rest, b"nodes ", 0, MAX_NODES) else {
        return Err(HeadError::BadLine(FRONT_LINES));
    };
    match read_rest(alloc, rest, count) {
        Ok(found) => Ok(found),
        Err(error) => Err(error.after(FRONT_LINES)),
    }
}

/// Asks whether the entry of this number is sound: its position first, and then its number of moves.
fn check_entry(table: &Table, entry: &Entry, number: u32) -> Result<(), BookError>
    requires below { root_below entry.now.root (length table.now) ≡ true }
    ensures sound { OnOk result (IsSound table.now entry.now) }
    ensures unsound { IfErr result (IsEntryFault table.now entry.now number) }
{
    if let Some(cause) = refusal(entry.kind, &entry.board) {
        return Err(BookError::Unlawful {
            entry: number,
            cause,
        });
    }
    let counted = table.root_depth(&entry.root)?;
    if counted != entry.moves {
        return Err(BookError::WrongMoves {
            entry: number,
            written: entry.moves,
            counted,
        });
    }
    Ok(())
}

/// Asks whether each entry is sound, in their order.
fn check_entries(table: &Table, entries: &[Entry]) -> Result<(), BookError>
    requires fit { AllByRecursion (EntryFits (length table.now)) entries.now }
    requires few { length entries.now ≤ MAX_ENTRIES }
    ensures sound { OnOk result (AllByRecursion (IsSound table.now) entries.now) }
    ensures unsound { IfErr result (IsUnsound table.now entries.now) }
{
    let mut number = 0;
    for entry in entries {
        number += 1;
        check_entry(table, entry, number)?;
    }
    Ok(())
}

/// Whether the first line is that of a book. What follows it may be bad.
pub fn is_book(bytes: &[u8]) -> bool
    ensures book { IsTrue result ↔ BeginsBook bytes.now }
{
    after(bytes, FIRST_LINE).is_some()
}

/// The book that the bytes are the text of, which is well formed. A bad line is named first, by its number in the book. Then
/// the entries are asked in their order: each for a lawful position, and then for its number of moves, which has to be the
/// depth of its root.
pub fn read_book(alloc: Global, bytes: &[u8]) -> Result<Book, BookError>
    ensures found { IfOk result (λ book. IsTextOfBook book bytes.now) }
    ensures only { IfOk result (λ book. (other : Book)
        → IsTextOfBook other bytes.now → other ≡ book) }
    ensures well_formed { IfOk result IsWellFormed }
    ensures refused { IfErr result (IsBookFault bytes.now) }
{
    let (book, rest) = match book_lines(alloc, bytes) {
        Ok(found) => found,
        Err(error) => return Err(BookError::from(error)),
    };
    if !rest.is_empty() {
        let nodes = book.table.len();
        let entries = book.entries.len() as u32;
        return Err(BookError::BadLine(FRONT_LINES + nodes + 1 + ENTRY_LINES * entries + 1));
    }
    check_entries(&book.table, book.entries.as_slice())?;
    Ok(book)
}
