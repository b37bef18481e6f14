//! The text of a book, written line by line.
//!
//! The text grows by one section after another, and each function says by which lines. The sections that other texts have as
//! well are written by `position_files`.
#![tactic(auto)]

ghost use Rattle.std.specs.Prelude.{◌≡◌, ◌++◌, IfOk, string_bytes};
ghost use Rattle.std.specs.List.{flat_map};
ghost use Rattle.text_lines.specs.Lines.{ended, text_of};
ghost use Rattle.table_book.specs.Books.{HasText, IsTextOfBook, book_text as book_text_lem, entry_lines, root_line};

use crate::{Book, Entry};
use position_files::{push_head, push_nodes, push_start};
use std::alloc::{AllocError, Global};
use strategy_graph::Root;
use text_lines::{push_line, push_number_line};

/// Adds the line of a root to a text.
fn push_root(text: &mut String, root: &Root) -> Result<(), AllocError>
    ensures line { IfOk result (λ _. string_bytes text.new ≡ string_bytes text.old
        ++ ended (root_line root.now)) }
{
    match root {
        Root::Attack(number) => push_number_line(text, "root ", *number),
        Root::Defend(start) => push_start(text, start),
    }
}

/// Adds the lines of an entry to a text.
fn push_entry(text: &mut String, entry: &Entry) -> Result<(), AllocError>
    ensures lines { IfOk result (λ _. string_bytes text.new ≡ string_bytes text.old
        ++ text_of (entry_lines entry.now)) }
{
    push_head(text, entry.kind, &entry.board)?;
    push_number_line(text, "moves ", entry.moves)?;
    push_root(text, &entry.root)?;
    Ok(())
}

/// Adds the lines of entries to a text.
fn push_entries(text: &mut String, entries: &[Entry]) -> Result<(), AllocError>
    ensures lines { IfOk result (λ _. string_bytes text.new ≡ string_bytes text.old
        ++ text_of (flat_map entry_lines entries.now)) }
{
    for entry in entries {
        push_entry(text, entry)?;
    }
    Ok(())
}

/// The text of a book.
fn book_text(alloc: Global, book: &Book) -> Result<String, AllocError>
    requires few { HasText book.now }
    ensures text { IfOk result (λ text. string_bytes text ≡ book_text_lem book.now) }
{
    let mut text = String::new(alloc);
    push_line(&mut text, "renju-book 1")?;
    push_number_line(&mut text, "nodes ", book.table.len())?;
    push_nodes(&mut text, &book.table)?;
    push_number_line(&mut text, "entries ", book.entries.len() as u32)?;
    push_entries(&mut text, book.entries.as_slice())?;
    Ok(text)
}

/// Writes the text of a book, which has one. `Err` says that memory ran out.
pub fn write_book(alloc: Global, book: &Book) -> Result<Vec<u8>, AllocError>
    requires text { HasText book.now }
    ensures written { IfOk result (λ bytes. IsTextOfBook book.now bytes.items) }
{
    let text = book_text(alloc, book)?;
    Ok(text.into_bytes())
}
