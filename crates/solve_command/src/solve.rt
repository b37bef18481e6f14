//! The command `solve`: a win that some table shows, by fours, along a sequence of threats, or by threats whatever the order.
//!
//! Three steps are taken, each with a new compiler. A win by continuous fours is what `fours` writes. Else the first sequence of
//! threats is searched, and proved against all replies. Else the game of threats is searched, led by proof numbers: within two
//! thirds of the moves for a win alone, and then within all of them, whose answer decides. That the budget was spent before is
//! not told.
#![tactic(auto)]

ghost use Rattle.std.specs.Prelude.{◌≡◌, List, IfOk, MatchOption};
ghost use Rattle.threat_moves.specs.declared.threat_list.Threat.{Threat};
ghost use Rattle.command_base.specs.Positions.{file_at};
ghost use Rattle.position_commands.specs.Fours.{AreLimits};
ghost use Rattle.solve_command.specs.Solves.{SolutionSays, IsWonByFours, IsFirstLine, IsLeftOver, IsToldByThreats};

use command_base::{Answer, AtPosition, full, none, spent};
use foul_judge::{Position, Seen};
use four_search::fewest_win;
use line_proof::{LineAnswer, prove_line};
use line_tables::LineTables;
use position_commands::{table_text, win_text};
use proof_number::{ProofAnswer, proof_number};
use proof_tree::ProofTree;
use row_shapes::Rule;
use std::alloc::{AllocError, Global};
use strategy_compiler::{Compiler, SearchError, WrittenWin};
use threat_moves::Threats;
use threat_space::{MAX_LENGTH, SpaceAnswer, threat_space};

/// `solve DEPTH NODES`.
#[derive(Clone, Copy)]
pub struct Solve {
    /// The most moves, from 1 to `MAX_DEPTH`.
    pub depth: u32,
    /// The most positions that each step may look at, from 1 to `MAX_SEARCHED`.
    pub nodes: u64,
}

impl AtPosition for Solve {
    ghost use Rattle.position_commands.specs.Fours.{AreLimits};
    ghost use Rattle.solve_command.specs.Solves.{SolutionSays};

    ghost in_range = { λ c. AreLimits c.depth c.nodes };

    ghost says = { λ c. SolutionSays c.depth c.nodes };

    fn say_at<R: Rule>(&self, alloc: Global, position: Position<R>) -> Result<Answer, AllocError> {
        by_fours(
            alloc,
            LineTables::over(alloc, position),
            self.depth,
            self.nodes,
        )
    }
}

/// What is said of a position: what the first step comes to, and else the later ones.
fn by_fours<R: Rule>(
    alloc: Global,
    position: LineTables<R>,
    depth: u32,
    nodes: u64,
) -> Result<Answer, AllocError>
    requires limits { AreLimits depth nodes }
    ensures says { IfOk result (λ answer. SolutionSays depth nodes (file_at R.KIND position) answer.status answer.text) }
{
    let mut view = position;
    match fewest_win::<R, LineTables<R>>(alloc, &mut view, depth, nodes)?.win() {
        Some(win) => table_text::<R>(alloc, view.board(), &win.table, win.moves),
        None => by_line(alloc, view, depth, nodes),
    }
}

/// The second step, and else the third.
fn by_line<R: Rule>(
    alloc: Global,
    position: LineTables<R>,
    depth: u32,
    nodes: u64,
) -> Result<Answer, AllocError>
    requires limits { AreLimits depth nodes }
    requires no_fours { ¬ IsWonByFours depth nodes (file_at R.KIND position) }
    ensures says { IfOk result (λ answer. SolutionSays depth nodes (file_at R.KIND position) answer.status answer.text) }
{
    match first_line(alloc, &position, depth, nodes)? {
        Some(line) => prove_first(alloc, position, &line, depth, nodes),
        None => by_threats(alloc, position, depth, nodes),
    }
}

/// The threats of the first sequence of the side to move, if the budget is enough for the search and there is one.
fn first_line<R: Rule>(
    alloc: Global,
    position: &LineTables<R>,
    depth: u32,
    nodes: u64,
) -> Result<Option<Threats>, AllocError>
    requires limits { AreLimits depth nodes }
    ensures line { IfOk result (λ found. MatchOption found
        ((line : List Threat) → ¬ IsFirstLine depth nodes (file_at R.KIND position.now) line)
        (λ line. IsFirstLine depth nodes (file_at R.KIND position.now) line)) }
{
    let mut board = position.board().copy()?;
    let length = depth.min(MAX_LENGTH);
    match threat_space::<R>(alloc, &mut board, position.side(), length, nodes)? {
        SpaceAnswer::Sequence(line, _) => Ok(Some(line)),
        SpaceAnswer::None => Ok(None),
        SpaceAnswer::Spent => Ok(None),
    }
}

/// What the proof of the first sequence comes to, and else the third step.
fn prove_first<R: Rule>(
    alloc: Global,
    position: LineTables<R>,
    line: &Threats,
    depth: u32,
    nodes: u64,
) -> Result<Answer, AllocError>
    requires limits { AreLimits depth nodes }
    requires no_fours { ¬ IsWonByFours depth nodes (file_at R.KIND position) }
    requires line { IsFirstLine depth nodes (file_at R.KIND position) line.now }
    ensures says { IfOk result (λ answer. SolutionSays depth nodes (file_at R.KIND position) answer.status answer.text) }
{
    let mut view = position;
    let mut compiler = Compiler::new(alloc);
    match prove_line::<R, LineTables<R>>(alloc, &mut view, line, depth, &mut compiler) {
        Ok(LineAnswer::Proved(win)) => win_text(alloc, view.into_position(), compiler, win),
        Ok(LineAnswer::Fails) => by_threats(alloc, view, depth, nodes),
        Err(SearchError::Full) => Ok(full()),
        Err(SearchError::Memory) => Err(AllocError),
    }
}

/// The third step.
fn by_threats<R: Rule>(
    alloc: Global,
    position: LineTables<R>,
    depth: u32,
    nodes: u64,
) -> Result<Answer, AllocError>
    requires limits { AreLimits depth nodes }
    requires left { IsLeftOver depth nodes (file_at R.KIND position) }
    ensures says { IfOk result (λ answer. SolutionSays depth nodes (file_at R.KIND position) answer.status answer.text) }
{
    let mut view = position;
    match searched_in_turn::<R>(alloc, &mut view, depth, nodes)? {
        Searched::Win { compiler, win } => win_text(alloc, view.into_position(), compiler, win),
        Searched::None => Ok(none()),
        Searched::Spent => Ok(spent()),
        Searched::Full => Ok(full()),
    }
}

/// What a search for a win by threats comes to: the win, with the compiler that has its node, or why there is none.
#[derive(Drop)]
enum Searched {
    Win { compiler: Compiler, win: WrittenWin },
    None,
    Spent,
    Full,
}

/// What the search for a win by threats comes to. Many wins take fewer moves than they may, and within fewer there is less to be
/// searched: so two thirds of the moves are searched first, and else what is found within all of them decides.
fn searched_in_turn<R: Rule>(
    alloc: Global,
    view: &mut LineTables<R>,
    depth: u32,
    nodes: u64,
) -> Result<Searched, AllocError>
    requires limits { AreLimits depth nodes }
    ensures told { IfOk result (IsToldByThreats R.KIND depth nodes view.old) }
    ensures same { view.new ≡ view.old }
{
    if depth < 3 {
        return searched_within::<R>(alloc, view, depth, nodes);
    }
    match searched_within::<R>(alloc, view, depth - depth / 3, nodes)? {
        Searched::Win { compiler, win } => Ok(Searched::Win { compiler, win }),
        _ => searched_within::<R>(alloc, view, depth, nodes),
    }
}

/// What the search for a win by threats within so many moves comes to.
fn searched_within<R: Rule>(
    alloc: Global,
    view: &mut LineTables<R>,
    moves: u32,
    nodes: u64,
) -> Result<Searched, AllocError>
    requires limits { AreLimits moves nodes }
    ensures told { IfOk result (IsToldByThreats R.KIND moves nodes view.old) }
    ensures same { view.new ≡ view.old }
{
    let mut compiler = Compiler::new(alloc);
    let mut tree = ProofTree::new(alloc)?;
    match proof_number::<R, LineTables<R>>(alloc, view, moves, nodes, &mut tree, &mut compiler) {
        Ok(ProofAnswer::Win(win)) => Ok(Searched::Win { compiler, win }),
        Ok(ProofAnswer::None) => Ok(Searched::None),
        Ok(ProofAnswer::Spent) => Ok(Searched::Spent),
        Err(SearchError::Full) => Ok(Searched::Full),
        Err(SearchError::Memory) => Err(AllocError),
    }
}
