//! A game of the drill: a brain that holds a table plays it out against moves that are drawn.
//!
//! The brain is told the position as a manager tells it, line by line. It is then sent a TURN after each of its moves until the game
//! is ended. The moves are kept on a board beside the brain's own, which tells how the game stands.
#![tactic(auto)]

ghost use Rattle.std.specs.Prelude.{◌≡◌, ◌∷◌, [], ◌≤◌, ℕ, IfOk, OnOk};
ghost use Rattle.game_rules.specs.Play.{mover};
ghost use Rattle.strategy_graph.specs.declared.roots.Root.{Root};
ghost use Rattle.brain_session.specs.States.{new_brain};
ghost use Rattle.strength_drill.specs.DrillGames.{position_lines, told_all, state_begun, drawn_move as drawn_move_lem, board_point as board_point_lem, stone_line as stone_line_lem, wish_of as wish_of_lem, move_said as move_said_lem, says_foul as says_foul_lem, IsGamePlayed};

use crate::draws::Draws;
use crate::positions::SIDE;
use brain_session::{Brain, Reaction};
use foul_judge::{Outcome, Position, Seen};
use gomocup_text::{Answer, Command, ErrorText};
use row_shapes::{Rule, RuleKind};
use std::alloc::{AllocError, Global};
use stone_board::{Board, Point, Side};
use strategy_checker::Held;

/// More turns than a game has.
const MAX_TURNS: u32 = 225;

/// How a game went: the moves of the brain in it, and whether the brain won it.
#[derive(Clone, Copy)]
pub(crate) struct GameResult {
    pub moves: u32,
    pub won: bool,
}

/// Plays a game from the position against a brain that holds this, with the next draws.
pub(crate) fn play_game<R: Rule>(
    alloc: Global,
    held: Held,
    mut position: Position<R>,
    draws: &mut Draws,
) -> Result<GameResult, AllocError>
    requires wide { position.width ≡ SIDE }
    requires high { position.height ≡ SIDE }
    requires held { (i : ℕ) × (held.roots ≡ record { root = Root.Attack i; kind = R.KIND; board = position } ∷ []) }
    ensures played { IfOk result (λ p. IsGamePlayed (state_begun held R.KIND position) draws.old.number p.moves p.won draws.new.number) }
    ensures few { IfOk result (λ p. p.moves ≤ 225) }
{
    let mut brain = Brain::new(alloc, Some(held))?;
    play_against::<R>(&mut brain, &mut position, draws)
}

/// The same against this new brain. It owns neither the brain nor the position, so that none of its ways out lets them go: what a
/// proof follows of that is long.
fn play_against<R: Rule>(
    brain: &mut Brain,
    position: &mut Position<R>,
    draws: &mut Draws,
) -> Result<GameResult, AllocError>
    requires new { brain.old ≡ new_brain brain.old.held }
    requires wide { position.old.width ≡ SIDE }
    requires high { position.old.height ≡ SIDE }
    requires held { (i : ℕ) × (brain.old.held.roots ≡ record { root = Root.Attack i; kind = R.KIND; board = position.old } ∷ []) }
    ensures played { IfOk result (λ p. IsGamePlayed (state_begun brain.old.held R.KIND position.old) draws.old.number p.moves p.won draws.new.number) }
    ensures few { IfOk result (λ p. p.moves ≤ 225) }
{
    tell_position(brain, R::KIND, position.board(), position.side())?;
    let Some(first) = move_said(brain.step(&Command::Done)?) else {
        unreachable!()
    };
    let mut at = first;
    for turns in 0..MAX_TURNS {
        let moves = turns + 1;
        match position.outcome(at) {
            Outcome::GoesOn => position.play(at),
            Outcome::Wins => return Ok(GameResult { moves, won: true }),
            _ => return Ok(GameResult { moves, won: false }),
        }
        let q = drawn_move(position.board(), draws.draw());
        let reaction = brain.step(&Command::Turn(u32::from(q.x), u32::from(q.y)))?;
        let Some(next) = move_said(reaction) else {
            let won = says_foul(reaction);
            return Ok(GameResult { moves, won });
        };
        position.play(q);
        at = next;
    }
    unreachable!()
}

/// The move that the brain says, if it says one.
fn move_said(reaction: Reaction) -> Option<Point>
    ensures said { result ≡ move_said_lem reaction }
{
    match reaction {
        Reaction::Says(Answer::Move(p)) => Some(p),
        _ => None,
    }
}

/// Whether the brain says that the opponent's move was a foul.
fn says_foul(reaction: Reaction) -> bool
    ensures foul { result ≡ says_foul_lem reaction }
{
    matches!(
        reaction,
        Reaction::Says(Answer::Error(ErrorText::OpponentFoul))
    )
}

/// Tells a new brain the position, in which it is to move.
fn tell_position(
    brain: &mut Brain,
    kind: RuleKind,
    board: &Board,
    side: Side,
) -> Result<(), AllocError>
    requires side { side ≡ mover board.now }
    ensures told { OnOk result (brain.new ≡ told_all brain.old (position_lines kind board.now)) }
{
    brain.step(&Command::Start(u32::from(SIDE)))?;
    brain.step(&Command::Rule(wish_of(kind)))?;
    brain.step(&Command::Board)?;
    for p in board.points() {
        if !board.is_empty(p) {
            brain.step(&stone_line(board, side, p))?;
        }
    }
    Ok(())
}

/// The wish by which a brain plays under the rule.
fn wish_of(kind: RuleKind) -> u32
    ensures wish { result ≡ wish_of_lem kind }
{
    match kind {
        RuleKind::Freestyle => 0,
        RuleKind::Exact => 1,
        RuleKind::Renju => 4,
    }
}

/// The line of the stone on a point, where the brain has this side.
fn stone_line(board: &Board, side: Side, p: Point) -> Command
    requires side { side ≡ mover board.now }
    ensures line { result ≡ stone_line_lem board.now p }
{
    let field = if board.holds(side, p) { 1 } else { 2 };
    Command::Stone(u32::from(p.x), u32::from(p.y), field)
}

/// The opponent's move by a draw: the first empty point from that of the draw on.
fn drawn_move(board: &Board, draw: u32) -> Point
    requires wide { board.now.width ≡ SIDE }
    requires high { board.now.height ≡ SIDE }
    ensures drawn { result ≡ drawn_move_lem board.now draw }
{
    let p = board_point(draw);
    match board.first_empty_from(p) {
        Some(q) => q,
        None => p,
    }
}

/// The point of a draw: one of the 225 of the board.
fn board_point(draw: u32) -> Point
    ensures point { result ≡ board_point_lem draw }
{
    let k = draw % 225;
    Point {
        x: (k % 15) as u8,
        y: (k / 15) as u8,
    }
}
