//! The command `quiet`: what `solve` says with the same numbers, and where that is no win, one with quiet moves.
//!
//! A quiet move threatens nothing at once; after it a pass would lose. The search for such wins is free, and nothing is known of the
//! table that it finds. So the table is checked against every reply before it is written, and one that is refused, is too deep or
//! names a point off the board counts as none.
#![tactic(auto)]

ghost use Rattle.std.specs.Prelude.{◌≡◌, ◌<◌, ◌⊎◌, length, None, Ok, IfOk, IfSome, IsTrue};
ghost use Rattle.strategy_graph.specs.Tables.{RepliesOn, TableOnBoard};
ghost use Rattle.command_base.specs.Positions.{file_at};
ghost use Rattle.position_commands.specs.Fours.{AreLimits};
ghost use Rattle.quiet_command.specs.Quiets.{IsCheckedTable, IsFinished, IsUnsolved, QuietSays};

use command_base::{Answer, AtPosition, Status, spent};
use foul_judge::{Position, Seen};
use position_commands::table_text;
use proof_tree::ProofTree;
use quiet_search::quiet_search;
use quiet_tree::MAX_LISTED;
use row_shapes::Rule;
use solve_command::Solve;
use std::alloc::{AllocError, Global};
use stone_board::Board;
use strategy_checker::{Verdict, check};
use strategy_compiler::{Compiler, SearchError};
use strategy_graph::{Reply, Table};

/// The most arrivals that a check of a table takes: as many as `check` may be allowed.
const CHECK_WORK: u64 = 1_000_000_000_000;

/// `quiet DEPTH NODES`.
#[derive(Clone, Copy)]
pub struct Quiet {
    /// The most moves, from 1 to `MAX_DEPTH`.
    pub depth: u32,
    /// The most positions that each search may look at, from 1 to `MAX_SEARCHED`: that for quiet moves lists at most
    /// `MAX_LISTED` of them at a time.
    pub nodes: u64,
}

impl AtPosition for Quiet {
    ghost use Rattle.position_commands.specs.Fours.{AreLimits};
    ghost use Rattle.quiet_command.specs.Quiets.{QuietSays};

    ghost in_range = { λ c. AreLimits c.depth c.nodes };

    ghost says = { λ c. QuietSays c.depth c.nodes };

    fn say_at<R: Rule>(&self, alloc: Global, position: Position<R>) -> Result<Answer, AllocError> {
        let mut view = position;
        said_of(alloc, &mut view, self.depth, self.nodes)
    }
}

/// What is said of a position: what `solve` says, and where that is no win, what the search for quiet moves comes to.
fn said_of<R: Rule>(
    alloc: Global,
    view: &mut Position<R>,
    depth: u32,
    nodes: u64,
) -> Result<Answer, AllocError>
    requires limits { AreLimits depth nodes }
    ensures says { IfOk result (λ answer. QuietSays depth nodes (file_at R.KIND view.old) answer.status answer.text) }
{
    let solve = Solve { depth, nodes };
    let solution = solve.say_at(alloc, view.copy()?)?;
    match solution.status {
        Status::Done | Status::Full => Ok(solution),
        _ => by_quiet_moves(alloc, view, depth, nodes),
    }
}

/// What is said of a position at which `solve` has no win.
fn by_quiet_moves<R: Rule>(
    alloc: Global,
    view: &mut Position<R>,
    depth: u32,
    nodes: u64,
) -> Result<Answer, AllocError>
    requires limits { AreLimits depth nodes }
    requires unsolved { IsUnsolved depth nodes (file_at R.KIND view.old) }
    ensures says { IfOk result (λ answer. QuietSays depth nodes (file_at R.KIND view.old) answer.status answer.text) }
{
    let Some(table) = found_table::<R>(alloc, view, depth, nodes)? else {
        return Ok(spent());
    };
    match checked_moves::<R>(alloc, view, &table, depth)? {
        Some(moves) => table_text::<R>(alloc, view.board(), &table, moves),
        None => Ok(spent()),
    }
}

/// The table of the node that the search for quiet moves finds, if it finds one and the compiler has room. Nothing is known of it
/// but that it was finished from one node.
fn found_table<R: Rule>(
    alloc: Global,
    position: &Position<R>,
    depth: u32,
    nodes: u64,
) -> Result<Option<Table>, AllocError>
    requires limits { AreLimits depth nodes }
    ensures finished { IfOk result (λ found. IfSome found IsFinished) }
{
    let mut compiler = Compiler::new(alloc);
    match found_node::<R>(alloc, position, depth, nodes, &mut compiler)? {
        Some(node) => Ok(Some(compiler.finish(node)?)),
        None => Ok(None),
    }
}

/// The node of the compiler that the search finds, if it finds one and the compiler has room.
fn found_node<R: Rule>(
    alloc: Global,
    position: &Position<R>,
    depth: u32,
    nodes: u64,
    compiler: &mut Compiler,
) -> Result<Option<u32>, AllocError>
    requires limits { AreLimits depth nodes }
    ensures node { IfOk result (λ found. IfSome found (λ node. node < length compiler.new)) }
{
    let mut tree = ProofTree::new(alloc)?;
    let most = nodes.min(u64::from(MAX_LISTED)) as u32;
    unless_full(quiet_search::<R>(alloc, position, depth, most, &mut tree, compiler))
}

/// What a search found, which is nothing where the compiler has no room.
fn unless_full(found: Result<Option<u32>, SearchError>) -> Result<Option<u32>, AllocError>
    ensures found { IfOk result (λ node. found ≡ Ok node ⊎ node ≡ None) }
{
    match found {
        Ok(node) => Ok(node),
        Err(SearchError::Full) => Ok(None),
        Err(SearchError::Memory) => Err(AllocError),
    }
}

/// The moves of the table's last node, if it is accepted at the position with no more moves than the limit, and each node
/// names points of the board alone. The position is the same afterwards.
fn checked_moves<R: Rule>(
    alloc: Global,
    view: &mut Position<R>,
    table: &Table,
    limit: u32,
) -> Result<Option<u32>, AllocError>
    requires some { 0 < length table.now }
    ensures checked { IfOk result (λ found. IfSome found (IsCheckedTable R.KIND limit view.old table.now)) }
    ensures same { view.new ≡ view.old }
{
    let root = table.len() - 1;
    if table.depth(root)? > limit || !is_on_board(view.board(), table) {
        return Ok(None);
    }
    match check::<R>(alloc, table, root, view, CHECK_WORK)? {
        Verdict::Accepted { moves, arrivals: _ } => Ok(Some(moves)),
        Verdict::Refused { line: _, why: _ } => Ok(None),
        Verdict::Spent => Ok(None),
    }
}

/// Whether each node of the table names points of the board alone.
fn is_on_board(board: &Board, table: &Table) -> bool
    ensures on_board { IsTrue result → TableOnBoard board.now table.now }
{
    for i in 0..table.len() {
        let node = table.node(i);
        if !board.on(node.attack) || !are_on_board(board, node.replies) {
            return false;
        }
    }
    true
}

/// Whether each reply is on the board.
fn are_on_board(board: &Board, replies: &[Reply]) -> bool
    ensures on_board { IsTrue result → RepliesOn board.now replies.now }
{
    replies.iter().all(|reply| board.on(reply.at))
}
