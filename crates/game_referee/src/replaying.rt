//! A game beside a table: the first move at which the side of the table leaves it.
//!
//! The moves are played and taken back as by `judge`, in two loops, and beside them goes what the table has in turn: a node, whose
//! attack is due, or the answers of a node, or of a start, to the reply that comes next.
#![tactic(auto)]

ghost use Rattle.std.specs.Prelude.{◌≡◌, ◌≤◌, List, length, Some};
ghost use Rattle.std.specs.Option.{option_and_then, option_map};
ghost use Rattle.game_rules.specs.Play.{IsPosition};
ghost use Rattle.strategy_graph.specs.declared.Node.{Node};
ghost use Rattle.strategy_graph.specs.Roots.{AcceptedRoot};
ghost use Rattle.game_referee.specs.Played.{WentOn};
ghost use Rattle.game_referee.specs.Verdicts.{outcomes};
ghost use Rattle.game_referee.specs.Replays.{departs_from, in_turn, is_stray as is_stray_lem, next_turn as next_turn_lem, replay as replay_lem, strays};
ghost use Rattle.game_referee.specs.Followers.{NeverLoses, side_of};

use crate::ReplayAnswer;
use crate::judging::take_back;
use foul_judge::{Outcome, Position, Seen};
use row_shapes::Rule;
use stone_board::Point;
use strategy_graph::{Root, Start, Table};

/// What a table has in turn.
#[derive(Clone, Copy)]
pub(crate) enum Turn<'a> {
    /// The attack of this node is due.
    Attack(u32),
    /// A reply to the attack of this node is due.
    Reply(u32),
    /// A reply is due that this start answers.
    Begin(&'a Start),
}

/// Whether the game of these moves from the position was played by the table from this root: the first move of the side of
/// the table that is not the attack of the node in turn, if each move before it goes on. Where the root is accepted at the
/// position and the game follows the table, that side did not lose it, and it is no draw. The position is the same
/// afterwards. It takes no memory.
#[tactic(auto, unfolding(crate::specs::Replays::replay))]
pub fn replay<R: Rule>(
    table: &Table,
    root: &Root,
    position: &mut Position<R>,
    moves: &[Point],
) -> ReplayAnswer
    ensures answer { result ≡ replay_lem R.KIND table.now root.now position.old moves.now }
    ensures kept { AcceptedRoot R.KIND table.now root.now position.old → result ≡ ReplayAnswer.Follows
        → NeverLoses R.KIND (side_of root.now position.old) position.old moves.now }
    ensures same { position.new ≡ position.old }
{
    // Its contract says that the position is lawful.
    let _mover = position.side();
    let (played, answer) = play_by(table, first_turn(root), position, moves);
    take_back(position, moves, played);
    answer
}

/// Plays the moves as long as each goes on and none strays, where this is in turn at the first of them. The answer is how many
/// were played, and whether the game follows the table.
fn play_by<R: Rule>(
    table: &Table,
    first: Turn,
    position: &mut Position<R>,
    moves: &[Point],
) -> (usize, ReplayAnswer)
    requires lawful { IsPosition R.KIND position.old }
    ensures played { WentOn R.KIND position.old moves.now result.0 position.new }
    ensures within { result.0 ≤ length moves.now }
    ensures answer { result.1 ≡ departs_from 0 (strays table.now (in_turn table.now first.entry) moves.now)
        (outcomes R.KIND position.old moves.now) }
{
    let mut turn = first;
    for played in 0..moves.len() {
        let at = moves[played];
        if is_stray(table, turn, at) {
            return (played, ReplayAnswer::Departs(played as u32 + 1));
        }
        let Some(next) = next_turn(table, turn, at) else {
            return (played, ReplayAnswer::Follows);
        };
        match position.outcome(at) {
            Outcome::Refused | Outcome::Wins | Outcome::Fouls(_) | Outcome::Draws => {
                return (played, ReplayAnswer::Follows);
            }
            Outcome::GoesOn => {}
        }
        position.play(at);
        turn = next;
    }
    (moves.len(), ReplayAnswer::Follows)
}

/// What is in turn at the first move from the root.
fn first_turn(root: &Root) -> Turn
    ensures first { (t : List Node) → in_turn t result ≡ Some root.now }
{
    match root {
        Root::Attack(number) => Turn::Attack(*number),
        Root::Defend(start) => Turn::Begin(start),
    }
}

/// Whether the move strays from the table: an attack is due, and it is another one.
fn is_stray(table: &Table, turn: Turn, at: Point) -> bool
    ensures stray { result ≡ is_stray_lem table.now (in_turn table.now turn.entry) at }
{
    match turn {
        Turn::Attack(number) => number >= table.len() || table.node(number).attack != at,
        Turn::Reply(_) | Turn::Begin(_) => false,
    }
}

/// What is in turn after the move, if anything is.
fn next_turn<'a>(table: &Table, turn: Turn<'a>, at: Point) -> Option<Turn<'a>>
    ensures next { option_and_then (in_turn table.now) result ≡ next_turn_lem table.now (in_turn table.now turn.entry) at }
{
    match turn {
        Turn::Attack(number) => Some(Turn::Reply(number)),
        Turn::Reply(number) if number < table.len() => answered_by(table.lookup(number, at)),
        Turn::Reply(_) => None,
        Turn::Begin(start) => answered_by(start.lookup(at)),
    }
}

/// The attack of the node that answers a reply, if one does.
fn answered_by<'a>(node: Option<u32>) -> Option<Turn<'a>>
    ensures answered { (t : List Node) → option_and_then (in_turn t) result ≡ option_map (λ j. Root.Attack j) node }
{
    match node {
        Some(number) => Some(Turn::Attack(number)),
        None => None,
    }
}
