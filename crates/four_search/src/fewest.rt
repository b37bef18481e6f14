//! The win by fours with the fewest moves, as a table of its own.
//!
//! The plan of the win is compiled alone, so its table has no other nodes, and its last node is where it is entered.
#![tactic(auto)]

ghost use Rattle.std.specs.Prelude.{◌≡◌, ◌≤◌, ◌<◌, ℕ, true, length, IfOk, IsErrOf, OnOk};
ghost use Rattle.game_rules.specs.Play.{IsPosition};
ghost use Rattle.game_rules.specs.Games.{wins_by_fours};
ghost use Rattle.four_search.specs.declared.TheConstants.{MAX_DEPTH};
ghost use Rattle.four_search.specs.Answers.{IsSought};
ghost use Rattle.four_search.specs.FewestWins.{IsFewestWin, IsFinished, IsFourTable, win_of};
ghost use Rattle.four_search.specs.Searching.{four_line};

use crate::SearchError;
use crate::answer::{Sought, seek_anew};
use crate::plan::compile;
use foul_judge::Seen;
use row_shapes::Rule;
use std::alloc::{AllocError, Global};
use stone_board::Point;
use strategy_compiler::{Compiler, WrittenWin};
use strategy_graph::Table;

/// The table of a win by fours, its last node, at which it is entered, and within how many moves the win is.
#[derive(Drop)]
pub struct FourTable {
    pub table: Table,
    pub node: u32,
    pub moves: u32,
}

/// What the search for the fewest win by fours finds.
#[derive(Drop)]
pub enum FewestWin {
    /// A win with the fewest moves that there are.
    Win(FourTable),
    /// There is no win by fours within the depth.
    None,
    /// There are more positions to look at than the budget.
    Spent,
}

impl FewestWin {
    /// The table of the win, if there is one.
    pub fn win(self) -> Option<FourTable>
        ensures win { result ≡ win_of self }
    {
        match self {
            FewestWin::Win(made) => Some(made),
            FewestWin::None | FewestWin::Spent => None,
        }
    }
}

/// The table of the win by continuous fours with the fewest moves for the side to move, within `depth` moves, 1 to `MAX_DEPTH`,
/// with a budget of positions to look at, at least 1, which count as in `four_search`. The table is that of the plan of the win,
/// and has at most two nodes for each move. `Err` says that memory ran out. The view is as before, also then.
pub fn fewest_win<R: Rule, V: Seen<R>>(
    alloc: Global,
    view: &mut V,
    depth: u32,
    budget: u64,
) -> Result<FewestWin, AllocError>
    requires some_depth { 1 ≤ depth }
    requires depth_fits { depth ≤ MAX_DEPTH }
    requires some_budget { 1 ≤ budget }
    ensures found { IfOk result (IsFewestWin R.KIND depth budget (V.position view.old)) }
    ensures same { V.position view.new ≡ V.position view.old }
{
    match seek_anew::<R, V>(alloc, view, depth, budget)? {
        Sought::None => Ok(FewestWin::None),
        Sought::Spent => Ok(FewestWin::Spent),
        Sought::Win { moves, line } => {
            let made = plan_table::<R, V>(alloc, view, moves, line.as_slice())?;
            Ok(FewestWin::Win(made))
        }
    }
}

/// The table of the plan of a win by fours within so many moves, which has this line. The view is as before.
fn plan_table<R: Rule, V: Seen<R>>(
    alloc: Global,
    view: &mut V,
    moves: u32,
    line: &[Point],
) -> Result<FourTable, AllocError>
    requires lawful { IsPosition R.KIND (V.position view.old) }
    requires wins { wins_by_fours R.KIND moves (V.position view.old) ≡ true }
    requires line { line.now ≡ four_line R.KIND moves (V.position view.old) }
    requires few_moves { moves ≤ MAX_DEPTH }
    ensures made { IfOk result (λ made. (limit budget : ℕ) → IsSought R.KIND limit budget (V.position view.old) moves line.now
        → IsFourTable R.KIND limit (V.position view.old) made) }
    ensures same { V.position view.new ≡ V.position view.old }
{
    let mut compiler = Compiler::new(alloc);
    let node = in_room(compile::<R, V>(alloc, view, moves, line, &mut compiler))?;
    finish(compiler, WrittenWin { node, moves })
}

/// The node that was compiled, where there was room for all nodes.
fn in_room(compiled: Result<u32, SearchError>) -> Result<u32, AllocError>
    requires room { ¬ IsErrOf compiled SearchError.Full }
    ensures node { IfOk result (λ node. compiled ≡ Ok node) }
{
    match compiled {
        Ok(node) => Ok(node),
        Err(SearchError::Full) => unreachable!(),
        Err(SearchError::Memory) => Err(AllocError),
    }
}

/// The table of a win that was compiled, with its last node.
fn finish(compiler: Compiler, win: WrittenWin) -> Result<FourTable, AllocError>
    requires in_compiler { win.node < length compiler }
    ensures made { IfOk result (IsFinished compiler win) }
{
    let table = compiler.finish_win(win)?;
    let node = table.len() - 1;
    Ok(FourTable {
        table,
        node,
        moves: win.moves,
    })
}
