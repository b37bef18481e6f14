//! Searches whose compiler has no room for the nodes of a win: each says that it is full, and not that memory ran out.
//!
//! That a search tells `Full` only there is a clause of it, but of that with quiet moves. That it does so where memory is left is not,
//! so it is tried.

ghost use Rattle.std.specs.Prelude.{◌<◌, length};

use crate::compared::same;
use foul_judge::{Position, Seen};
use four_search::four_search;
use game_rules::Point;
use line_proof::prove_line;
use proof_number::proof_number;
use proof_tree::ProofTree;
use quiet_search::quiet_search;
use row_shapes::Freestyle;
use std::alloc::Global;
use std::process::Abort;
use strategy_compiler::{CompileError, Compiler, SearchError};
use strategy_graph::{MAX_NODES, Reply};
use test_boards::{at, position_of};
use threat_moves::Threats;
use threat_space::{SpaceAnswer, threat_space};

/// Puts a node in whose one answer is this node, and which plays in a corner.
fn put_after(compiler: &mut Compiler, next: u32) -> Result<u32, CompileError>
    requires below { next < length compiler.old }
{
    let corner = Point { x: 14, y: 0 };
    compiler.node(corner, &[Reply { at: corner, next }])
}

/// Fills a compiler with a chain of nodes, of which no win of the examples has any.
fn fill(rt: &impl Abort, compiler: &mut Compiler) {
    let mut last = compiler.winning(at(14, 0)).expect(rt, "a node");
    for _ in 1..MAX_NODES {
        let len = compiler.len();
        assert!(rt; last < len);
        last = put_after(compiler, last).expect(rt, "a node");
    }
}

/// Three stones in the row, with room for a straight four: a win in two moves.
fn three_in_a_row(alloc: Global) -> Option<Position<Freestyle>> {
    position_of(alloc, "5,7 6,7 7,7", "0,0 2,0 4,0")
}

/// Four stones of Black round a point, which makes two threes: a win in three moves.
fn diamond(alloc: Global) -> Option<Position<Freestyle>> {
    position_of(alloc, "7,6 6,7 8,7 7,8", "0,0 14,0 0,14 14,14")
}

/// The first sequence of at most three threats that is found there.
fn first_sequence(alloc: Global, position: &Position<Freestyle>) -> Option<Threats> {
    let mut board = position.board().copy().ok()?;
    match threat_space::<Freestyle>(alloc, &mut board, position.side(), 3, 100) {
        Ok(SpaceAnswer::Sequence(line, _)) => Some(line),
        _ => None,
    }
}

/// What hinders a search for a win by fours.
fn hinders_fours(alloc: Global, compiler: &mut Compiler) -> Option<SearchError> {
    let mut position = three_in_a_row(alloc)?;
    four_search::<Freestyle, Position<Freestyle>>(alloc, &mut position, 2, 100, compiler).err()
}

/// What hinders a proof along a sequence of threats.
fn hinders_line(alloc: Global, compiler: &mut Compiler) -> Option<SearchError> {
    let mut position = diamond(alloc)?;
    let line = first_sequence(alloc, &position)?;
    prove_line::<Freestyle, Position<Freestyle>>(alloc, &mut position, &line, 3, compiler).err()
}

/// What hinders a search by proof numbers.
fn hinders_numbers(alloc: Global, compiler: &mut Compiler) -> Option<SearchError> {
    hinders_numbers_at(alloc, &mut diamond(alloc)?, compiler)
}

/// The same at this position.
fn hinders_numbers_at(
    alloc: Global,
    position: &mut Position<Freestyle>,
    compiler: &mut Compiler,
) -> Option<SearchError> {
    let mut tree = ProofTree::new(alloc).ok()?;
    proof_number::<Freestyle, Position<Freestyle>>(
        alloc, position, 3, 1_000, &mut tree, compiler,
    ).err()
}

/// Six stones of Black, which has no win by threats there: the win begins with a quiet move.
const OPEN_ROW: &str = "8,5 9,5 7,7 8,7 9,7 11,7";

const AGAINST: &str = "0,0 7,6 6,7 10,7 4,9 3,10";

/// What hinders a search for a win with quiet moves.
fn hinders_quiet_moves(alloc: Global, compiler: &mut Compiler) -> Option<SearchError> {
    hinders_quiet_moves_at(alloc, &position_of(alloc, OPEN_ROW, AGAINST)?, compiler)
}

/// The same at this position.
fn hinders_quiet_moves_at(
    alloc: Global,
    position: &Position<Freestyle>,
    compiler: &mut Compiler,
) -> Option<SearchError> {
    let mut tree = ProofTree::new(alloc).ok()?;
    quiet_search::<Freestyle>(alloc, position, 30, 1_000, &mut tree, compiler).err()
}

#[test]
fn a_search_without_room_for_its_win_is_full(rt: HostRuntime) {
    let mut compiler = Compiler::new(rt.alloc());
    fill(&rt, &mut compiler);
    let told = hinders_fours(rt.alloc(), &mut compiler);
    same(&rt, told, Some(SearchError::Full));
    let told = hinders_line(rt.alloc(), &mut compiler);
    same(&rt, told, Some(SearchError::Full));
    let told = hinders_numbers(rt.alloc(), &mut compiler);
    same(&rt, told, Some(SearchError::Full));
    let told = hinders_quiet_moves(rt.alloc(), &mut compiler);
    same(&rt, told, Some(SearchError::Full));
    same(&rt, compiler.len(), MAX_NODES);
}
