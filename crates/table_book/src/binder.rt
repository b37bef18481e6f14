//! The binder: files of tables, bound into one book.
//!
//! The nodes of each file are adopted in order by one compiler, so that nodes that are the same have one number in the book,
//! whatever the files they come from. By the list of the numbers that the nodes got, those that the root of the file names are
//! replaced.
#![tactic(auto)]

ghost use Rattle.std.specs.Prelude.{◌≡◌, ◌<◌, ◌≤◌, ◌++◌, ◌∷◌, [], ℕ, List, true, length, slice_index, IfOk, OnOk, OnErr, IsErr, IsErrOf};
ghost use Rattle.strategy_graph.specs.declared.TheConstants.{MAX_NODES};
ghost use Rattle.strategy_graph.specs.Roots.{root_below};
ghost use Rattle.strategy_compiler.specs.Adopting.{Adopts};
ghost use Rattle.strategy_compiler.specs.Walks.{AreDifferent};
ghost use Rattle.strategy_compiler.specs.Unfolded.{HoldMore};
ghost use Rattle.position_files.specs.declared.TableFile.{TableFile};
ghost use Rattle.strategy_graph.specs.Renumbered.{renumbered_root as renumbered_root_lem};
ghost use Rattle.table_book.specs.Binding.{AddsFile, CanBeBound, IsBound};
ghost use Rattle.table_book.specs.Books.{IsWellFormed};

use crate::{Book, Entries, Entry, MAX_ENTRIES};
use position_files::TableFile;
use std::alloc::{AllocError, Global};
use std::marker::Model;
use strategy_compiler::{CompileError, Compiler, renumbered_start};
use strategy_graph::Root;
use thiserror::Error;

/// The nodes and the entries of the files that were added, which contracts see as a book of them, though it may have no entry
/// yet. No two nodes are equal, and each entry fits the nodes, is at a lawful position, and has the depth of its root for moves.
#[derive(Drop)]
pub struct Binder {
    nodes: Compiler,
    entries: Entries,
    alloc: Global,
}

impl Model for Binder {
    ghost use Rattle.table_book.specs.declared.Book.{Book};
    ghost use Rattle.table_book.specs.Binding.{IsBinding};

    ghost Value = { Book };

    ghost view = { λ b. record { table = b.nodes; entries = b.entries } };

    ghost invariant = { λ b. IsBinding (record { table = b.nodes; entries = b.entries }) };
}

/// Why a file is not added.
#[derive(Debug, Drop, PartialEq, Eq, Error)]
pub enum BindError {
    /// The nodes that are held and those of the file are together more than `MAX_NODES` different nodes.
    #[error("the book is full")]
    Full,
    /// There is no memory.
    #[error("out of memory")]
    Memory,
}

impl From<CompileError> for BindError {
    ghost use Rattle.std.specs.Prelude.{◌≡◌};
    ghost use Rattle.table_book.specs.Binding.{bind_error};

    ghost from_gives = { λ error given. given ≡ bind_error error };

    fn from(error: CompileError) -> BindError {
        match error {
            CompileError::Full => BindError::Full,
            CompileError::Memory => BindError::Memory,
        }
    }
}

impl From<AllocError> for BindError {
    ghost use Rattle.std.specs.Prelude.{◌≡◌};
    ghost use Rattle.table_book.specs.declared.binder.BindError.TheVariants.{Memory};

    ghost from_gives = { λ _ error. error ≡ Memory };

    fn from(_error: AllocError) -> BindError {
        BindError::Memory
    }
}

/// The root, with the number that stands in the list for each number that it names.
fn renumbered_root(alloc: Global, root: &Root, numbers: &[u32]) -> Result<Root, AllocError>
    requires below { root_below root.now (length numbers.now) ≡ true }
    ensures root { IfOk result (λ made. made ≡ renumbered_root_lem (λ j. slice_index numbers.now j) root.now) }
{
    match root {
        Root::Attack(number) => Ok(Root::Attack(numbers[*number as usize])),
        Root::Defend(start) => {
            let start = renumbered_start(alloc, start.replies(), start.rest(), numbers)?;
            Ok(Root::Defend(start))
        }
    }
}

impl Binder {
    /// A binder with no nodes and no entries. It takes no memory.
    pub fn new(alloc: Global) -> Self
        ensures bound { IsBound [] result }
    {
        Binder {
            nodes: Compiler::new(alloc),
            entries: Entries::new(alloc),
            alloc,
        }
    }

    /// How many entries are held.
    pub fn len(&self) -> usize
        ensures count { result ≡ length self.now.entries }
    {
        self.entries.len()
    }

    /// Adopts the nodes of the file in order, and adds an entry with its rule, its board and its moves, whose root says in the
    /// book what the file's root says with its table. After an `Err` the entries are as they were, the nodes so far stay, those
    /// that this call adopted included, and the file is gone:
    ///
    /// - `Full`, exactly where the nodes that are held and those of the file are together more than `MAX_NODES` different nodes,
    ///   unless memory ends first;
    /// - `Memory`, where there is no memory for a node or for the entry.
    pub fn add(&mut self, file: TableFile) -> Result<(), BindError>
        requires can_be_bound { CanBeBound file }
        requires room { length self.old.entries < MAX_ENTRIES }
        ensures added { OnOk result (AddsFile self.old file self.new) }
        ensures full { IsErrOf result BindError.Full
            → HoldMore (self.old.table ∷ file.table ∷ []) MAX_NODES }
        ensures few { HoldMore (self.old.table ∷ file.table ∷ []) MAX_NODES → IsErr result }
        ensures unchanged { OnErr result (self.new.entries ≡ self.old.entries) }
        ensures adopts { Adopts self.old.table file.table self.new.table }

        // Of the files that were added before, and of this one.
        ensures bound { (files : List TableFile) → IsBound files self.old
            → OnOk result (IsBound (files ++ file ∷ []) self.new) }
    {
        let TableFile {
            kind,
            board,
            table,
            root,
            moves,
        } = file;
        let numbers = self.nodes.adopt_table(self.alloc, &table)?;
        let root = renumbered_root(self.alloc, &root, numbers.as_slice())?;
        self.entries.push(Entry {
            kind,
            board,
            root,
            moves,
        })?;
        Ok(())
    }

    /// The book of the entries in order, which is well formed and has no two equal nodes. An entry is held. After an `Err` the
    /// binder is gone.
    pub fn finish(self) -> Result<Book, AllocError>
        requires some { 0 < length self.entries }
        ensures book { IfOk result (λ book. book ≡ self) }
        ensures well_formed { IfOk result IsWellFormed }
        ensures different { IfOk result (λ book. AreDifferent book.table) }
    {
        let Binder { nodes, entries, .. } = self;
        Ok(Book {
            table: nodes.into_table()?,
            entries,
        })
    }
}
