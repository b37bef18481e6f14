//! The move that the brain chooses where it follows nothing yet.
//!
//! A held root comes first, since its table wins against all replies; then a win that a short search of continuous fours
//! finds; then a move that at least makes or blocks a five.
#![tactic(auto)]

ghost use Rattle.std.specs.Prelude.{◌≡◌, ◌<◌, Some, IsOk, IfOk, IsSome, length, slice_get, IfSome, IsTrue};
ghost use Rattle.std.specs.Option.{option_and_then};
ghost use Rattle.game_rules.specs.Grid.{Grid, is_empty};
ghost use Rattle.game_rules.specs.declared.RuleKind.{RuleKind};
ghost use Rattle.strategy_graph.specs.Tables.{IsTable};
ghost use Rattle.strategy_checker.specs.HeldRoots.{IsHeld};
ghost use Rattle.brain_session.specs.States.{board_of};
ghost use Rattle.brain_session.specs.Running.{GoesOnAlong};
ghost use Rattle.brain_session.specs.ChosenMoves.{chosen_anew, first_node, move_by, root_node as root_node_lem};
ghost use Rattle.brain_session.specs.Kept.{IsInTable, NodeStandsAt, StandsAt, choice_of, followed_of, game_of, nodes_of};

use crate::game::SessionGame;
use crate::guide::Guide;
use crate::moves_on_board::MovesOnBoard;
use crate::under_rule::own_win;
use game_rules::Point;
use std::alloc::{AllocError, Global};
use strategy_checker::Held;
use strategy_graph::Root;

/// A move of the brain, and what it follows with it, if anything.
#[derive(Drop)]
pub(crate) struct ChosenMove {
    pub(crate) at: Point,
    pub(crate) guide: Option<Guide>,
}

/// The choice by the first of these that applies: a held root, a win of the brain's own, a plain move. The board is as before,
/// also where memory ran out, which `Err` says; by a held root no memory is taken.
pub(crate) fn choose(
    alloc: Global,
    held: &Held,
    game: &SessionGame,
    played: &mut MovesOnBoard,
) -> Result<ChosenMove, AllocError>
    requires along { GoesOnAlong game.now.kind played.old.start played.old.moves }
    ensures chosen { IfOk result (λ c. choice_of c ≡ chosen_anew held.now (game_of played.old game.now)) }
    ensures stands { IfOk result (λ c. IfSome c.guide (StandsAt held.now game.now.kind (board_of (game_of played.old game.now)))) }
    ensures empty { IfOk result (λ c. IsTrue (is_empty (board_of (game_of played.old game.now)) c.at)) }
    ensures settled { IsSome (first_node (game_of played.old game.now) held.now.roots) → IsOk result }
    ensures same { played.new ≡ played.old }
{
    if let Some(node) = held_node(held, game, played) {
        return Ok(by_following(held, Guide::HeldNode { node }));
    }
    match own_win(alloc, game.kind, played.board())? {
        Some(own) => Ok(by_following(held, Guide::OwnWin { own })),
        None => {
            Ok(ChosenMove {
                at: played.plain_move(game.kind),
                guide: None,
            })
        }
    }
}

/// The choice to follow this.
fn by_following(held: &Held, guide: Guide) -> ChosenMove
    requires in_table { IsInTable held.now guide }
    ensures follows { (rule : RuleKind) (b : Grid) → NodeStandsAt held.now rule b guide → move_by held.now rule b (followed_of guide) ≡ Some result.at }
    ensures table { IsTable (nodes_of held.now guide) }
    ensures guide { result.guide ≡ Some guide }
{
    ChosenMove {
        at: guide.attack(held),
        guide: Some(guide),
    }
}

/// The node to which the first held root leads that leads to one.
fn held_node(held: &Held, game: &SessionGame, played: &mut MovesOnBoard) -> Option<u32>
    ensures node { result ≡ first_node (game_of played.old game.now) held.now.roots }
    ensures held { IsHeld held.now }
    ensures same { played.new ≡ played.old }
{
    for i in 0..held.len() {
        if let Some(node) = root_node(held, i, game, played) {
            return Some(node);
        }
    }
    None
}

/// The node to which held root `i` leads: under the rule of the game, the root at the board now, or the answer of the start at the
/// board before the last move.
fn root_node(held: &Held, i: u32, game: &SessionGame, played: &mut MovesOnBoard) -> Option<u32>
    requires held { i < length held.now.roots }
    ensures node { result ≡ option_and_then (root_node_lem (game_of played.old game.now)) (slice_get held.now.roots i) }
    ensures same { played.new ≡ played.old }
{
    if held.kind(i) != game.kind {
        return None;
    }
    match held.root(i) {
        Root::Attack(node) => {
            if played.is_at(held.board(i)) {
                Some(*node)
            } else {
                None
            }
        }
        Root::Defend(start) => {
            let last = played.last()?;
            if played.was_at(held.board(i)) {
                start.lookup(last)
            } else {
                None
            }
        }
    }
}
