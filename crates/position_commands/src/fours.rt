//! The command `fours`: a win by continuous fours with the fewest moves, written as a table.
//!
//! The text is read, the search runs under its rule within the depth and the budget, and a win is written as a table that
//! `check` accepts.
#![tactic(auto)]

ghost use Rattle.std.specs.Prelude.{◌≡◌, ◌≤◌, ◌<◌, ℕ, length, IfOk};
ghost use Rattle.strategy_graph.specs.Tables.{TableOnBoard};
ghost use Rattle.strategy_compiler.specs.Wins.{IsWrittenWin};
ghost use Rattle.position_files.specs.Tables.{IsTextOfTable};
ghost use Rattle.command_base.specs.Positions.{file_at};
ghost use Rattle.position_commands.specs.Fours.{AreLimits, SearchSays, IsShortWinText, table_at};

use command_base::{Answer, AtPosition, Status, none, spent};
use foul_judge::{Position, Seen};
use four_search::{FewestWin, MAX_DEPTH, fewest_win};
use line_tables::LineTables;
use position_files::write_table;
use row_shapes::Rule;
use std::alloc::{AllocError, Global};
use stone_board::Board;
use strategy_compiler::{Compiler, WrittenWin};
use strategy_graph::{Root, Table};

/// `fours DEPTH NODES`.
#[derive(Clone, Copy)]
pub struct Fours {
    /// The most moves, from 1 to `MAX_DEPTH`.
    pub depth: u32,
    /// The most positions to look at, from 1 to `MAX_SEARCHED`.
    pub nodes: u64,
}

impl AtPosition for Fours {
    ghost use Rattle.position_commands.specs.Fours.{AreLimits, SearchSays};

    ghost in_range = { λ c. AreLimits c.depth c.nodes };

    ghost says = { λ c. SearchSays c.depth c.nodes };

    fn say_at<R: Rule>(&self, alloc: Global, position: Position<R>) -> Result<Answer, AllocError> {
        search(
            alloc,
            LineTables::over(alloc, position),
            self.depth,
            self.nodes,
        )
    }
}

/// What is said of a position.
fn search<R: Rule>(
    alloc: Global,
    position: LineTables<R>,
    depth: u32,
    nodes: u64,
) -> Result<Answer, AllocError>
    requires limits { AreLimits depth nodes }
    ensures says { IfOk result (λ answer. SearchSays depth nodes (file_at R.KIND position) answer.status answer.text) }
{
    let mut view = position;
    match fewest_win::<R, LineTables<R>>(alloc, &mut view, depth, nodes)? {
        FewestWin::Win(win) => table_text::<R>(alloc, view.board(), &win.table, win.moves),
        FewestWin::None => Ok(none()),
        FewestWin::Spent => Ok(spent()),
    }
}

/// The table of a win on the board within so many moves, with its last node as root, as a text.
pub fn table_text<R: Rule>(
    alloc: Global,
    board: &Board,
    table: &Table,
    moves: u32,
) -> Result<Answer, AllocError>
    requires on_board { TableOnBoard board.now table.now }
    requires some { 0 < length table.now }
    requires some_moves { 1 ≤ moves }
    requires moves_fit { moves ≤ MAX_DEPTH }
    ensures status { IfOk result (λ answer. answer.status ≡ Status.Done) }
    ensures text { IfOk result (λ answer.
        IsTextOfTable (table_at (file_at R.KIND board.now) moves table.now) answer.text) }
{
    let root = Root::Attack(table.len() - 1);
    let bytes = write_table(alloc, R::KIND, board, table, &root, moves)?;
    Ok(Answer::written(Status::Done, bytes))
}

/// The table of a win at the position that is in a compiler, as a text. It is no longer than the compiler.
pub fn win_text<R: Rule>(
    alloc: Global,
    position: Position<R>,
    compiler: Compiler,
    win: WrittenWin,
) -> Result<Answer, AllocError>
    requires win { (limit : ℕ) × (limit ≤ MAX_DEPTH) × IsWrittenWin R.KIND limit position compiler win }
    ensures status { IfOk result (λ answer. answer.status ≡ Status.Done) }
    ensures shown { IfOk result (λ answer. (limit : ℕ) → IsWrittenWin R.KIND limit position compiler win
        → IsShortWinText limit (length compiler) (file_at R.KIND position) answer.text) }
{
    let table = compiler.finish_win(win)?;
    table_text::<R>(alloc, position.board(), &table, win.moves)
}
