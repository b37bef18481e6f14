//! The replies that need no walk.
//!
//! Where the side to move has no five point, and two points or more are empty, a reply on an empty point goes on unless it
//! fouls. So those that go on are counted without being asked, but for Black under renju.
#![tactic(auto)]

ghost use Rattle.std.specs.Prelude.{◌≡◌, ◌≤◌, ◌<◌, ◌+◌, ◌&&◌, not, true, false};
ghost use Rattle.std.specs.List.{count_by, list_any};
ghost use Rattle.game_rules.specs.Grid.{IsBoard, is_empty, empties_of, points_of};
ghost use Rattle.game_rules.specs.Games.{has_five};
ghost use Rattle.game_rules.specs.Shapes.{is_same_point};
ghost use Rattle.game_rules.specs.Play.{outcome, mover, goes_on};
ghost use Rattle.strategy_graph.specs.Tables.{is_rising};
ghost use Rattle.strategy_checker.specs.Walks.{is_apart as is_apart_lem};

use foul_judge::{Outcome, Position, Seen};
use row_shapes::Rule;
use stone_board::{Board, Point};
use strategy_graph::Reply;

/// How many replies go on that are neither listed nor on `w`.
pub(crate) fn others_going_on<R: Rule>(
    position: &mut Position<R>,
    replies: &[Reply],
    w: Point,
) -> usize
    requires rising { is_rising replies.now ≡ true }
    requires empty { is_empty position.old w ≡ true }
    requires free { has_five R.KIND position.old (mover position.old) ≡ false }
    requires more { 1 < empties_of position.old }
    ensures count { result
        ≡ count_by (λ q. goes_on (outcome R.KIND position.old q) && not (is_apart_lem replies.now w q)) (points_of position.old) }
    ensures same { position.new ≡ position.old }
{
    if R::has_fouls(position.side()) {
        asked_others(position, replies, w)
    } else {
        empty_others(position.board(), replies, w)
    }
}

/// How many points are empty that are neither listed nor `w`.
fn empty_others(board: &Board, replies: &[Reply], w: Point) -> usize
    requires board { IsBoard board.now }
    requires rising { is_rising replies.now ≡ true }
    requires empty { is_empty board.now w ≡ true }
    ensures count { result ≡ count_by (λ q. is_empty board.now q && not (is_apart_lem replies.now w q)) (points_of board.now) }
{
    let others = board.empties() as usize - listed_empties(board, replies);
    if is_listed(replies, w) {
        others
    } else {
        others - 1
    }
}

/// How many of the points that are listed are empty.
pub(crate) fn listed_empties(board: &Board, replies: &[Reply]) -> usize
    ensures count { result ≡ count_by (λ r. is_empty board.now r.at) replies.now }
{
    replies
        .iter()
        .filter(|reply| board.is_empty(reply.at))
        .count()
}

/// How many replies go on that are neither listed nor on `w`, each of them asked.
fn asked_others<R: Rule>(position: &mut Position<R>, replies: &[Reply], w: Point) -> usize
    ensures count { result
        ≡ count_by (λ q. goes_on (outcome R.KIND position.old q) && not (is_apart_lem replies.now w q)) (points_of position.old) }
    ensures same { position.new ≡ position.old }
{
    let mut count = 0;
    for q in position.board().points() {
        if is_other(position, replies, w, q) {
            count += 1;
        }
    }
    count
}

/// Whether the reply `q` goes on, and is neither listed nor on `w`.
fn is_other<R: Rule>(position: &mut Position<R>, replies: &[Reply], w: Point, q: Point) -> bool
    ensures other { result ≡ (goes_on (outcome R.KIND position.old q) && not (is_apart_lem replies.now w q)) }
    ensures same { position.new ≡ position.old }
{
    !is_apart(replies, w, q) && matches!(position.outcome(q), Outcome::GoesOn)
}

/// Whether the reply `q` is listed or on `w`.
fn is_apart(replies: &[Reply], w: Point, q: Point) -> bool
    ensures apart { result ≡ is_apart_lem replies.now w q }
{
    is_listed(replies, q) || (w.x == q.x && w.y == q.y)
}

/// Whether the reply `q` is listed.
pub(crate) fn is_listed(replies: &[Reply], q: Point) -> bool
    ensures listed { result ≡ list_any (λ r. is_same_point r.at q) replies.now }
{
    replies
        .iter()
        .any(|reply| reply.at.x == q.x && reply.at.y == q.y)
}
