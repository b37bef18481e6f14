//! The lines of entries: each one a head, a number of moves, and a root.
//!
//! The entries stand one after another, each with the same number of lines, so that the line of an entry is known from the
//! number of those before it. Lines are counted from the front of what is read.
#![tactic(auto)]

ghost use Rattle.std.specs.Prelude.{◌≡◌, ◌*◌, ◌≤◌, ◌++◌, IfOk, IfErr};
ghost use Rattle.std.specs.List.{flat_map};
ghost use Rattle.text_lines.specs.Lines.{ended, line_feed, text_of, IsLineOf};
ghost use Rattle.position_files.specs.Faults.{IsUpTo};
ghost use Rattle.position_files.specs.Sections.{IsSectionFault};
ghost use Rattle.table_book.specs.Books.{EntryFits, EntryRootFits, entry_lines, root_line as root_line_lem};
ghost use Rattle.table_book.specs.Sections.{AreEntries, AreEntryLines, IsEntryLines};

use crate::{Entries, Entry, MAX_ENTRIES};
use game_rules::MAX_SIDE;
use position_files::{HEAD_LINES, Head, HeadError, MAX_MOVES, read_head, read_start};
use std::alloc::Global;
use strategy_graph::Root;
use text_lines::number_line;

/// The lines of an entry: those of its head, its number of moves, and its root.
pub(crate) const ENTRY_LINES: u32 = HEAD_LINES + 2;

/// The root of the first line, which names only nodes below `below`, and the bytes after the line.
fn root_line(alloc: Global, bytes: &[u8], below: u32) -> Result<(Root, &[u8]), HeadError>
    ensures fits { IfOk result (λ found. EntryRootFits below found.0) }
    ensures text { IfOk result (λ found. bytes.now
        ≡ ended (root_line_lem found.0) ++ found.1.now) }
    ensures refused { IfErr result (IsSectionFault (IsLineOf (EntryRootFits below) root_line_lem) bytes.now) }
    ensures within { IfErr result (IsUpTo 1) }
{
    if let Some((number, rest)) = number_line(bytes, b"root ", 0, u32::MAX) {
        if number >= below {
            return Err(HeadError::BadLine(1));
        }
        return Ok((Root::Attack(number), rest));
    }
    let (start, rest) = read_start(alloc, bytes, below, MAX_SIDE, MAX_SIDE)?;
    Ok((Root::Defend(start), rest))
}

/// The entry that the bytes begin with the lines of, whose root names only nodes below `below`, and the bytes after them.
fn read_entry(alloc: Global, bytes: &[u8], below: u32) -> Result<(Entry, &[u8]), HeadError>
    ensures fits { IfOk result (λ found. EntryFits below found.0) }
    ensures text { IfOk result (λ found. bytes.now
        ≡ text_of (entry_lines found.0) ++ found.1.now) }
    ensures refused { IfErr result (IsSectionFault (IsEntryLines below) bytes.now) }
    ensures within { IfErr result (IsUpTo ENTRY_LINES) }
{
    let (head, rest) = read_head(alloc, bytes)?;
    let Head { kind, board } = head;
    let Some((moves, rest)) = number_line(rest, b"moves ", 0, MAX_MOVES) else {
        return Err(HeadError::BadLine(HEAD_LINES + 1));
    };
    match root_line(alloc, rest, below) {
        Ok((root, rest)) => {
            let entry = Entry {
                kind,
                board,
                root,
                moves,
            };
            Ok((entry, rest))
        }
        Err(error) => Err(error.after(HEAD_LINES + 1)),
    }
}

/// The `count` entries that the bytes begin with the lines of, whose roots name only nodes below `below`, and the bytes
/// after them.
pub(crate) fn read_entries(
    alloc: Global,
    bytes: &[u8],
    count: u32,
    below: u32,
) -> Result<(Entries, &[u8]), HeadError>
    requires few { count ≤ MAX_ENTRIES }
    ensures entries { IfOk result (λ found. AreEntries below count found.0) }
    ensures text { IfOk result (λ found. bytes.now
        ≡ text_of (flat_map entry_lines found.0) ++ found.1.now) }
    ensures refused { IfErr result (IsSectionFault (AreEntryLines below count) bytes.now) }
    ensures within { IfErr result (IsUpTo (ENTRY_LINES * count)) }
{
    let mut entries = Entries::new(alloc);
    let mut rest = bytes;
    for number in 0..count {
        match read_entry(alloc, rest, below) {
            Ok((entry, after)) => {
                entries.push(entry)?;
                rest = after;
            }
            Err(error) => return Err(error.after(ENTRY_LINES * number)),
        }
    }
    Ok((entries, rest))
}
