//! The entries of a book, checked one after another: held with its table, or counted.
//!
//! Each entry is checked at its own position, with the same work. The first one that is not accepted is told.
#![tactic(auto)]

ghost use Rattle.std.specs.Prelude.{◌≡◌, ◌≤◌, ◌<◌, ◌++◌, ◌∷◌, [], true, length, map, sum_by, OnOk, OnErr, IfOk, IfErr};
ghost use Rattle.std.specs.List.{AllByRecursion};
ghost use Rattle.game_rules.specs.Play.{IsPosition};
ghost use Rattle.strategy_graph.specs.Roots.{AcceptedRoot, LeadsRoot, root_below};
ghost use Rattle.strategy_checker.specs.HeldErrors.{IfRootRefused, IfRootSpent};
ghost use Rattle.table_book.specs.Books.{IsWellFormed};
ghost use Rattle.table_book.specs.Holding.{IsAccepted, IsHoldFault, entry_arrivals, held_entry};

use crate::{Book, Entry, HoldError, MAX_BOOK_WORK};
use std::alloc::Global;
use strategy_checker::{Held, HeldError, MAX_ROOTS, check_root};

/// Adds the root of an entry to what is held, if it is accepted.
fn add_entry(held: &mut Held, entry: Entry, work: u64) -> Result<(), HeldError>
    requires lawful { IsPosition entry.kind entry.board }
    requires below { root_below entry.root (length held.old.table) ≡ true }
    requires room { length held.old.roots < MAX_ROOTS }
    ensures accepted { OnOk result (IsAccepted held.old.table work entry) }
    ensures table { OnOk result (held.new.table ≡ held.old.table) }
    ensures added { OnOk result (held.new.roots ≡ held.old.roots ++ held_entry entry ∷ []) }
    ensures refused { IfErr result (IfRootRefused (λ line why.
        ¬ AcceptedRoot entry.kind held.old.table entry.root entry.board)) }
    ensures leads { IfErr result (IfRootRefused (λ line why.
        LeadsRoot entry.kind held.old.table entry.root entry.board line why)) }
    ensures spent { IfErr result (IfRootSpent (work < entry_arrivals held.old.table entry)) }
{
    let Entry {
        kind,
        board,
        root,
        moves: _,
    } = entry;
    held.add_at(kind, board, root, work)?;
    Ok(())
}

/// Holds the table of a book with the roots of its entries, in their order. Each is checked with at most `work` arrivals, as
/// `Held::add_at` does, and the earliest that is not accepted decides. After an `Err` the book is gone.
pub fn hold_book(alloc: Global, book: Book, work: u64) -> Result<Held, HoldError>
    requires well_formed { IsWellFormed book }
    ensures table { IfOk result (λ held. held.table ≡ book.table) }
    ensures roots { IfOk result (λ held. held.roots ≡ map held_entry book.entries) }
    ensures accepted { OnOk result (AllByRecursion (IsAccepted book.table work) book.entries) }
    ensures refused { IfErr result (IsHoldFault book.table book.entries work) }
{
    let Book { table, entries } = book;
    let mut held = Held::new(alloc, table);
    for entry in entries.into_items() {
        let number = held.len() + 1;
        if let Err(error) = add_entry(&mut held, entry, work) {
            return Err(HoldError::at(number, error));
        }
    }
    Ok(held)
}

/// The sum of the arrivals from the roots of all entries, where each is accepted with at most `work`. The refusals are those
/// of `hold_book`.
pub fn check_book(alloc: Global, book: &Book, work: u64) -> Result<u64, HoldError>
    requires well_formed { IsWellFormed book.now }
    requires few { work ≤ MAX_BOOK_WORK }
    ensures sum { IfOk result (λ n. n ≡ sum_by (entry_arrivals book.now.table) book.now.entries) }
    ensures accepted { OnOk result (AllByRecursion (IsAccepted book.now.table work) book.now.entries) }
    ensures refused { IfErr result (IsHoldFault book.now.table book.now.entries work) }
{
    let mut sum = 0;
    let mut number = 0;
    for entry in book.entries.as_slice() {
        number += 1;
        match check_root(
            alloc,
            entry.kind,
            &entry.board,
            &book.table,
            &entry.root,
            work,
        ) {
            Ok(arrivals) => sum += arrivals,
            Err(error) => return Err(HoldError::at(number, error)),
        }
    }
    Ok(sum)
}
