//! The renju foul judge.
//!
//! Most points can be no foul, as the stones next to them tell. On any other the shapes of its four lines tell what Black's stone
//! makes there, before it is put, and the cases are asked in their order: a run of five, an overline, two fours, two threes. Only
//! where two lines have three points, as far as they decide, is the stone put: an axis is a three only if some three point of it is
//! itself no foul, so the judge asks itself about a board with one stone more; it plays and lifts on the board that it was lent.
//! (RIF Rules of Renju; which double-threes are allowed to stand is decided by this recursion alone.)
#![tactic(auto)]

ghost use Rattle.std.specs.Prelude.{◌≡◌, ◌<◌, ◌&&◌, true, IsTrue, not};
ghost use Rattle.game_rules.specs.Grid.{IsBoard, is_empty, holds, empties_of, put, along as along_lem};
ghost use Rattle.game_rules.specs.Shapes.{is_line_three_at};
ghost use Rattle.game_rules.specs.Play.{is_three as is_three_lem, black_foul as black_foul_lem, foul_of, is_win, is_foul};
ghost use Rattle.row_shapes.specs.LineShapes.{three_bits};
ghost use Rattle.foul_judge.specs.BlackMoves.{black_outcome as black_outcome_lem, outcome_of_shapes as outcome_of_shapes_lem};
ghost use Rattle.foul_judge.specs.BlackMoves.{foul_in as foul_in_lem};
ghost use Rattle.foul_judge.specs.Threes.{free_three, stone_shapes, two_threes as two_threes_lem};

use crate::outcome::quiet_outcome;
use crate::shapes::{black_shapes, fours, has_five, has_overline, line_threes};
use crate::short_cut::{may_foul, reaches};
use game_rules::{Foul, Outcome};
use row_shapes::{Rule, Shape};
use stone_board::{Axis, Board, Point, Side};

/// The foul that a stone of Black makes on an empty point: none where the rule has no fouls, and none where the stone
/// makes a run of exactly five. The board is as before. No memory is taken.
pub fn foul_at<R: Rule>(board: &mut Board, p: Point) -> Option<Foul>
    requires empty { IsTrue (is_empty board.old p) }
    ensures foul { result ≡ foul_of R.KIND board.old Side.Black p }
    ensures same { board.new ≡ board.old }
{
    if R::BLACK_FOULS {
        foul_in(black_outcome::<R>(board, p))
    } else {
        None
    }
}

/// The foul in an outcome, if it is one.
fn foul_in(outcome: Outcome) -> Option<Foul>
    ensures foul { result ≡ foul_in_lem outcome }
{
    match outcome {
        Outcome::Fouls(foul) => Some(foul),
        _ => None,
    }
}

/// What becomes of a move of Black on an empty point, whoever is to move, where Black has fouls. With few stones near it is neither
/// a win nor a foul.
#[cycle(fouls)]
#[inline(always)]
pub(crate) fn black_outcome<R: Rule>(board: &mut Board, p: Point) -> Outcome
    requires empty { IsTrue (is_empty board.old p) }
    requires fouls { R.BLACK_FOULS ≡ true }
    ensures outcome { result ≡ black_outcome_lem R.KIND board.old p }
    ensures same { board.new ≡ board.old }
    ensures board { IsBoard board.old }
{
    let reaches = reaches(board, p);
    if !may_foul(&reaches) {
        return quiet_outcome(board);
    }
    let made = black_shapes::<R>(board, p, &reaches);
    outcome_of_shapes::<R>(board, p, &made)
}

/// The same by the shapes that the stone makes.
#[cycle(fouls)]
#[inline(never)]
fn outcome_of_shapes<R: Rule>(board: &mut Board, p: Point, made: &[Shape; 4]) -> Outcome
    requires board { IsBoard board.old }
    requires empty { IsTrue (is_empty board.old p) }
    requires fouls { R.BLACK_FOULS ≡ true }
    requires made { made.now ≡ stone_shapes R.KIND (put board.old Side.Black p) p }
    ensures outcome { let threes = two_threes_lem R.KIND (put board.old Side.Black p) p in
        result ≡ outcome_of_shapes_lem made.now threes (empties_of board.old) }
    ensures same { board.new ≡ board.old }
{
    if has_five(made) {
        Outcome::Wins
    } else if has_overline(made) {
        Outcome::Fouls(Foul::Overline)
    } else if fours(made) >= 2 {
        Outcome::Fouls(Foul::DoubleFour)
    } else if has_two_threes::<R>(board, p, made) {
        Outcome::Fouls(Foul::DoubleThree)
    } else {
        quiet_outcome(board)
    }
}

/// Whether two axes are threes of the stone that Black would put on an empty point. The judge asks itself about no further stone
/// where fewer than two axes have three points as far as their lines decide.
#[cycle(fouls)]
fn has_two_threes<R: Rule>(board: &mut Board, p: Point, made: &[Shape; 4]) -> bool
    requires board { IsBoard board.old }
    requires empty { IsTrue (is_empty board.old p) }
    requires fouls { R.BLACK_FOULS ≡ true }
    requires made { made.now ≡ stone_shapes R.KIND (put board.old Side.Black p) p }
    ensures two { result ≡ two_threes_lem R.KIND (put board.old Side.Black p) p }
    ensures same { board.new ≡ board.old }
{
    if line_threes(made) < 2 {
        return false;
    }
    board.put(p, Side::Black);
    let result = two_threes::<R>(board, p, made);
    board.lift(p);
    result
}

/// Whether two axes are threes of Black's stone on `p`. No further axis is asked once two are found.
#[cycle(fouls)]
fn two_threes<R: Rule>(board: &mut Board, p: Point, made: &[Shape; 4]) -> bool
    requires board { IsBoard board.old }
    requires stone { IsTrue (holds board.old Side.Black p) }
    requires fouls { R.BLACK_FOULS ≡ true }
    requires made { made.now ≡ stone_shapes R.KIND board.old p }
    ensures two { result ≡ two_threes_lem R.KIND board.old p }
    ensures same { board.new ≡ board.old }
{
    let row = is_three::<R>(board, Axis::Row, p, made[0].three);
    let column = is_three::<R>(board, Axis::Column, p, made[1].three);
    if row && column {
        return true;
    }
    let down = is_three::<R>(board, Axis::Down, p, made[2].three);
    if down && (row || column) {
        return true;
    }
    (row || column || down) && is_three::<R>(board, Axis::Up, p, made[3].three)
}

/// Whether the axis has a three point of Black's stone on `p` where Black has no foul. These are its three points as far as the
/// line decides: the bits of eleven places, the stone on place 5.
#[cycle(fouls)]
fn is_three<R: Rule>(board: &mut Board, axis: Axis, p: Point, line_points: u16) -> bool
    requires board { IsBoard board.old }
    requires stone { IsTrue (holds board.old Side.Black p) }
    requires fouls { R.BLACK_FOULS ≡ true }
    requires points { line_points ≡ three_bits R.KIND board.old Side.Black axis p }
    ensures three { result ≡ is_three_lem R.KIND board.old axis p (black_foul_lem R.KIND board.old) }
    ensures same { board.new ≡ board.old }
{
    for place in 0..11 {
        if line_points >> place & 1 == 1 && is_free_three::<R>(board, axis, p, place) {
            return true;
        }
    }
    false
}

/// Whether the place so many steps ahead of Black's stone on `p` and five back again, a three point as far as the axis
/// decides, is no five point either, and Black has no foul there.
#[cycle(fouls)]
fn is_free_three<R: Rule>(board: &mut Board, axis: Axis, p: Point, ahead: u8) -> bool
    requires stone { IsTrue (holds board.old Side.Black p) }
    requires fouls { R.BLACK_FOULS ≡ true }
    requires near { ahead < 11 }
    requires three { IsTrue (is_line_three_at R.KIND board.old Side.Black axis p (along_lem axis p ahead 5)) }
    ensures three { result ≡ free_three R.KIND board.old axis p (along_lem axis p ahead 5) }
    ensures same { board.new ≡ board.old }
{
    match board.along(p, axis, ahead, 5) {
        None => false,
        Some(q) => is_quiet(black_outcome::<R>(board, q)),
    }
}

/// Whether a move with this outcome neither wins nor is a foul.
fn is_quiet(outcome: Outcome) -> bool
    ensures quiet { result ≡ (not (is_win outcome) && not (is_foul outcome)) }
{
    !matches!(outcome, Outcome::Wins | Outcome::Fouls(_))
}
