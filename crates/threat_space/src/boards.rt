//! Boards on which threats were played, or a stone was taken off.
//!
//! The defender answers each threat with all of its costs at once. The walk plays each threat on a copy, so the boards before stay at
//! hand; whether a list needs its gains is asked on one copy, on which its threats are played in turn.
#![tactic(auto)]

ghost use Rattle.std.specs.Prelude.{◌≡◌, IfOk};
ghost use Rattle.game_rules.specs.Play.{other};
ghost use Rattle.stone_board.specs.Steps.{holds_stone as holds_stone_lem};
ghost use Rattle.threat_space.specs.Sequences.{played as played_lem, with_stones as with_stones_lem, without_stone};

use std::alloc::AllocError;
use stone_board::{Board, Point, Side};
use threat_moves::Threat;

/// A copy of the board on which the threat of the side is played. `Err` says that memory ran out.
pub(crate) fn played(board: &Board, side: Side, threat: &Threat) -> Result<Board, AllocError>
    ensures played { IfOk result (λ b. b ≡ played_lem board.now side threat.now) }
{
    let mut next = board.copy()?;
    play(&mut next, side, threat);
    Ok(next)
}

/// Plays the threat of the side: a stone of the side on its gain, and stones of the other side on all its costs.
#[tactic(auto, unfolding(crate::specs::Sequences::played))]
pub(crate) fn play(board: &mut Board, side: Side, threat: &Threat)
    ensures played { board.new ≡ played_lem board.old side threat.now }
{
    board.put_if_empty(threat.gain, side);
    put_all(board, side.other(), threat.costs.as_slice());
}

/// Puts stones of the side on all of the points that are empty.
fn put_all(board: &mut Board, side: Side, points: &[Point])
    ensures put { board.new ≡ with_stones_lem board.old side points.now }
{
    for p in points {
        board.put_if_empty(*p, side);
    }
}

/// A copy of the board without the stone on the point, if it holds one. `Err` says that memory ran out.
pub(crate) fn without(board: &Board, p: Point) -> Result<Board, AllocError>
    ensures without { IfOk result (λ b. b ≡ without_stone board.now p) }
{
    let mut other = board.copy()?;
    if holds_stone(&other, p) {
        other.lift(p);
    }
    Ok(other)
}

/// Whether the point is on the board and holds a stone.
fn holds_stone(board: &Board, p: Point) -> bool
    ensures stone { result ≡ holds_stone_lem board.now p }
{
    board.on(p) && !board.is_empty(p)
}
