//! A FILE of several: its table is handed on once it is accepted, or it is told why not, after the number of the file.
#![tactic(auto)]

ghost use Rattle.std.specs.Prelude.{◌≡◌, ◌↔◌, true, length, map, IfOk, IsTrue, OnErr, string_bytes};
ghost use Rattle.game_rules.specs.Play.{IsPosition};
ghost use Rattle.strategy_graph.specs.Roots.{root_below, root_depth};
ghost use Rattle.renju_io.specs.Asked.{IsAskedAtMost};
ghost use Rattle.renju_io.specs.Faults.{HasNotFallen, HasStayed};
ghost use Rattle.command_base.specs.Runs.{change};
ghost use Rattle.file_loading.specs.ManyFiles.{AreFileNames, IsFittedFile, IsFittedOf, IsFittedTable, IsFittedText};

use crate::refusals::{of_file, refused_root};
use command_base::{Answer, SHELF_FAILED, Status, TOO_LONG, refused_text};
use position_files::{TableFile, read_table};
use renju_io::{LoadError, Shelf};
use std::alloc::{AllocError, Global};
use strategy_checker::check_root;

/// What comes of a FILE that is not to be held: its table is accepted, or it is told why not.
#[derive(Drop)]
pub(crate) enum Fitted {
    /// What was read.
    Fits(TableFile),
    /// What is told in place of it.
    Tells(Answer),
}

/// Whether these are 1 to `most` names, none of which is empty.
pub fn are_file_names(names: &[String], most: usize) -> bool
    ensures names { IsTrue result ↔ AreFileNames most (map string_bytes names.now) }
{
    if names.is_empty() || names.len() > most {
        return false;
    }
    for name in names {
        if name.is_empty() {
            return false;
        }
    }
    true
}

/// What comes of file `number`, which stands under the name: its table is accepted with at most so many arrivals, or it is told why
/// not.
pub(crate) fn fit_file<F: Shelf>(
    alloc: Global,
    number: usize,
    name: &str,
    work: u64,
    shelf: &mut F,
) -> Result<Fitted, AllocError>
    ensures fitted { IfOk result (IsFittedFile work (change F.files F.faults F.asked shelf.old shelf.new) number name.now) }
    ensures shelf { HasNotFallen (F.faults shelf.old) (F.faults shelf.new) }
    ensures files { F.files shelf.new ≡ F.files shelf.old }
    ensures memory { OnErr result (HasStayed (F.faults shelf.old) (F.faults shelf.new)) }
    ensures each { IsAskedAtMost 1 (F.asked shelf.old) (F.asked shelf.new) }
{
    // It is made before the shelf is asked, so that its fault is told even where memory ends.
    let failed = of_file(alloc, number, Status::ShelfFault, SHELF_FAILED.as_bytes())?;
    match shelf.load(alloc, name) {
        Ok(bytes) => fit_numbered(alloc, number, bytes.as_slice(), work),
        Err(LoadError::Failed) => Ok(Fitted::Tells(failed)),
        Err(LoadError::TooLong) => {
            let long = of_file(alloc, number, Status::TooLong, TOO_LONG.as_bytes())?;
            Ok(Fitted::Tells(long))
        }
        Err(LoadError::Memory) => Err(AllocError),
    }
}

/// What comes of the bytes of file `number`.
fn fit_numbered(alloc: Global, number: usize, bytes: &[u8], work: u64) -> Result<Fitted, AllocError>
    ensures fitted { IfOk result (IsFittedOf work number bytes.now) }
{
    match fit_text(alloc, bytes, work)? {
        Fitted::Fits(file) => Ok(Fitted::Fits(file)),
        Fitted::Tells(answer) => {
            let told = of_file(alloc, number, answer.status, answer.text.as_slice())?;
            Ok(Fitted::Tells(told))
        }
    }
}

/// The table of a text, if its root is accepted there.
fn fit_text(alloc: Global, bytes: &[u8], work: u64) -> Result<Fitted, AllocError>
    ensures fitted { IfOk result (IsFittedText work bytes.now) }
{
    match read_table(alloc, bytes) {
        Ok(file) => fit_table(alloc, file, work),
        Err(error) => Ok(Fitted::Tells(refused_text(alloc, error)?)),
    }
}

/// The table of a text that was read, if its root is accepted there.
fn fit_table(alloc: Global, file: TableFile, work: u64) -> Result<Fitted, AllocError>
    requires lawful { IsPosition file.kind file.board }
    requires root { root_below file.root (length file.table) ≡ true }
    requires moves { file.moves ≡ root_depth file.table file.root }
    ensures fitted { IfOk result (IsFittedTable work file) }
{
    match check_root(alloc, file.kind, &file.board, &file.table, &file.root, work) {
        Ok(_) => Ok(Fitted::Fits(file)),
        Err(error) => {
            let told = refused_root(alloc, error)?;
            Ok(Fitted::Tells(told))
        }
    }
}
