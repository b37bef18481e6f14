//! The tables of files, adopted by one compiler, so that nodes that several of them share come once.
#![tactic(auto)]

ghost use Rattle.std.specs.Prelude.{◌≡◌, length, IfOk, IsErrOf};
ghost use Rattle.std.specs.List.{AllByRecursion};
ghost use Rattle.strategy_graph.specs.Tables.{TableOnBoard};
ghost use Rattle.strategy_graph.specs.declared.TheConstants.{MAX_NODES};
ghost use Rattle.strategy_compiler.specs.Growth.{GrowsBy};
ghost use Rattle.strategy_compiler.specs.Nodes.{IsCompiled};
ghost use Rattle.join_command.specs.Adopting.{AreAdopted, IsAcceptedFile, IsAdopted};
ghost use Rattle.join_command.specs.Joins.{node_count};

use crate::answering::has_size_of;
use position_files::TableFile;
use std::alloc::Global;
use stone_board::Board;
use strategy_compiler::{CompileError, Compiler};
use strategy_graph::Root;

/// Adopts the table of the file, if its root is a node and its board has the size of the board, and answers the number of the root.
fn adopt_root(
    alloc: Global,
    nodes: &mut Compiler,
    board: &Board,
    file: &TableFile,
) -> Result<Option<u32>, CompileError>
    requires compiled { IsCompiled nodes.old }
    requires accepted { IsAcceptedFile file.now }
    ensures adopted { IfOk result (IsAdopted board.now nodes.new file.now) }
    ensures grows { GrowsBy nodes.old nodes.new (length file.now.table) }
    ensures full { IsErrOf result CompileError.Full → length nodes.new ≡ MAX_NODES }
    ensures compiled { IsCompiled nodes.new }
    ensures on_board { TableOnBoard board.now nodes.old → TableOnBoard board.now nodes.new }
{
    match &file.root {
        Root::Defend(_) => Ok(None),
        Root::Attack(number) => {
            if !has_size_of(board, &file.board) {
                return Ok(None);
            }
            let numbers = nodes.adopt_table(alloc, &file.table)?;
            Ok(Some(numbers[*number as usize]))
        }
    }
}

/// Adopts the tables of the files in order, and answers the root of each.
pub(crate) fn adopt_files(
    alloc: Global,
    nodes: &mut Compiler,
    board: &Board,
    files: &[TableFile],
) -> Result<Vec<Option<u32>>, CompileError>
    requires compiled { IsCompiled nodes.old }
    requires accepted { AllByRecursion IsAcceptedFile files.now }
    ensures adopted { IfOk result (λ roots. AreAdopted board.now nodes.new files.now roots.items) }
    ensures grows { GrowsBy nodes.old nodes.new (node_count files.now) }
    ensures full { IsErrOf result CompileError.Full → length nodes.new ≡ MAX_NODES }
    ensures compiled { IsCompiled nodes.new }
    ensures on_board { TableOnBoard board.now nodes.old → TableOnBoard board.now nodes.new }
{
    let mut roots = Vec::new(alloc);
    for file in files {
        let root = adopt_root(alloc, nodes, board, file)?;
        if roots.push(root).is_err() {
            return Err(CompileError::Memory);
        }
    }
    Ok(roots)
}
