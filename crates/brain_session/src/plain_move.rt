//! Plain moves: a five, a block of a five, and else a point next to the middle.
//!
//! It is made where nothing is known to win: it takes a five, or keeps the opponent from one at the next move, and never fouls
//! where another point is free. No search is behind it.
#![tactic(auto)]

ghost use Rattle.std.specs.Prelude.{◌≡◌, ◌+◌, ◌-◌, max};
ghost use Rattle.std.specs.List.{find};
ghost use Rattle.game_rules.specs.Grid.{is_empty, points_of};
ghost use Rattle.game_rules.specs.Play.{outcome, is_foul as is_foul_lem};
ghost use Rattle.brain_session.specs.Nearer.{is_nearer as is_nearer_lem};
ghost use Rattle.brain_session.specs.ChosenMoves.{apart as apart_lem, five_to_block as five_to_block_lem, five_to_make as five_to_make_lem, least_empty as least_empty_lem, next_to_middle as next_to_middle_lem, off_middle as off_middle_lem, plain_move as plain_move_lem};

use foul_judge::{Outcome, mover, outcome_at};
use game_rules::Point;
use row_shapes::{Rule, is_five_point};
use stone_board::Board;

/// The first of these that there is: the least five point of the side to move; the least five point of the other side at which
/// the side to move makes no foul; of the empty points at which it makes none, the least of those next to the middle; the least
/// empty point. The board is as before.
pub(crate) fn plain_move<R: Rule>(board: &mut Board) -> Point
    ensures plain { result ≡ plain_move_lem R.KIND board.old }
    ensures same { board.new ≡ board.old }
{
    if let Some(p) = five_to_make::<R>(board) {
        return p;
    }
    if let Some(p) = five_to_block::<R>(board) {
        return p;
    }
    match next_to_middle::<R>(board) {
        Some(p) => p,
        None => least_empty(board),
    }
}

/// The least five point of the side to move.
fn five_to_make<R: Rule>(board: &Board) -> Option<Point>
    ensures five { result ≡ five_to_make_lem R.KIND board.now }
{
    let side = mover(board);
    for p in board.points() {
        if is_five_point::<R>(board, side, p) {
            return Some(p);
        }
    }
    None
}

/// The least five point of the other side at which the side to move makes no foul. The board is as before.
fn five_to_block<R: Rule>(board: &mut Board) -> Option<Point>
    ensures five { result ≡ five_to_block_lem R.KIND board.old }
    ensures same { board.new ≡ board.old }
{
    let side = mover(board).other();
    for p in board.points() {
        if is_five_point::<R>(board, side, p) && !fouls::<R>(board, p) {
            return Some(p);
        }
    }
    None
}

/// Of the empty points at which the side to move makes no foul, the least of those next to the middle. The board is as before.
fn next_to_middle<R: Rule>(board: &mut Board) -> Option<Point>
    ensures next { result ≡ next_to_middle_lem R.KIND board.old }
    ensures same { board.new ≡ board.old }
{
    let mut best = None;
    for p in board.points() {
        if board.is_empty(p) && is_nearer(board, p, best) && !fouls::<R>(board, p) {
            best = Some(p);
        }
    }
    best
}

/// The least empty point, or the first point of a board that has none.
fn least_empty(board: &Board) -> Point
    ensures least { result ≡ least_empty_lem board.now }
{
    for p in board.points() {
        if board.is_empty(p) {
            return p;
        }
    }
    Point { x: 0, y: 0 }
}

/// Whether a move of the side to move at the point is a foul. The board is as before.
fn fouls<R: Rule>(board: &mut Board, p: Point) -> bool
    ensures foul { result ≡ is_foul_lem (outcome R.KIND board.old p) }
    ensures same { board.new ≡ board.old }
{
    matches!(outcome_at::<R>(board, p), Outcome::Fouls(_))
}

/// Whether the point is nearer to the middle than the best so far, if there is one.
fn is_nearer(board: &Board, p: Point, best: Option<Point>) -> bool
    ensures nearer { result ≡ is_nearer_lem (off_middle_lem board.now) p best }
{
    match best {
        None => true,
        Some(q) => off_middle(board, p) < off_middle(board, q),
    }
}

/// Twice the distance of the point from the middle of the board, along the row or the column, whichever is more.
fn off_middle(board: &Board, p: Point) -> u32
    ensures off { result ≡ off_middle_lem board.now p }
{
    let across = apart(2 * u32::from(p.x), u32::from(board.width()) - 1);
    let along = apart(2 * u32::from(p.y), u32::from(board.height()) - 1);
    across.max(along)
}

/// How far apart two numbers are.
fn apart(m: u32, n: u32) -> u32
    ensures apart { result ≡ apart_lem m n }
{
    m.abs_diff(n)
}
