//! The positions of the drill: each is made of draws, from the empty board.
//!
//! A draw names a point in the middle of the board, and the side to move plays it where that goes on; else the draw is passed over.
#![tactic(auto)]

ghost use Rattle.std.specs.Prelude.{◌≡◌, IfOk, OnOk};
ghost use Rattle.strength_drill.specs.Draws.{number_after, all_stones as all_stones_lem, middle_point as middle_point_lem, with_point, position_drawn, rule_at as rule_at_lem};

use crate::draws::Draws;
use foul_judge::{Outcome, Position, Seen};
use row_shapes::{Rule, RuleKind};
use std::alloc::{AllocError, Global};
use stone_board::{Board, Point, Side};

/// The width and the height of the boards.
pub(crate) const SIDE: u8 = 15;

/// How many draws a position is made of.
const DRAWN_POINTS: u32 = 120;

/// Where so many stones stand no more are put.
const MOST_STONES: u32 = 30;

/// The rule of the position with this number, counted from 0: each of the three in turn.
pub(crate) fn rule_at(i: u32) -> RuleKind
    ensures rule { result ≡ rule_at_lem i }
{
    match i % 3 {
        0 => RuleKind::Freestyle,
        1 => RuleKind::Exact,
        _ => RuleKind::Renju,
    }
}

/// The position that is made of the next draws.
pub(crate) fn drawn_position<R: Rule>(
    alloc: Global,
    draws: &mut Draws,
) -> Result<Position<R>, AllocError>
    ensures wide { IfOk result (λ p. p.width ≡ SIDE) }
    ensures high { IfOk result (λ p. p.height ≡ SIDE) }
    ensures position { IfOk result (λ p. p ≡ position_drawn R.KIND draws.old.number) }
    ensures draws { OnOk result (draws.new.number ≡ number_after draws.old.number DRAWN_POINTS) }
{
    let mut position = Position::<R>::new(Board::empty(alloc, SIDE, SIDE)?);
    for _ in 0..DRAWN_POINTS {
        let p = middle_point(draws.draw());
        play_if_going_on::<R>(&mut position, p);
    }
    Ok(position)
}

/// Plays the point, where few stones stand and the move goes on.
fn play_if_going_on<R: Rule>(position: &mut Position<R>, p: Point)
    ensures played { position.new ≡ with_point R.KIND position.old p }
{
    if all_stones(position.board()) >= MOST_STONES {
        return;
    }
    match position.outcome(p) {
        Outcome::GoesOn => position.play(p),
        _ => {}
    }
}

/// How many stones stand on the board.
fn all_stones(board: &Board) -> u32
    ensures stones { result ≡ all_stones_lem board.now }
{
    board.count(Side::Black) + board.count(Side::White)
}

/// The point of a draw: one of the 81 in the middle of the board.
fn middle_point(draw: u32) -> Point
    ensures point { result ≡ middle_point_lem draw }
{
    let k = draw % 81;
    Point {
        x: (3 + k % 9) as u8,
        y: (3 + k / 9) as u8,
    }
}
