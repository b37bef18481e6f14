//! The counts of a drill, position by position.
//!
//! A position is made of the next draws and searched. What comes of a win is tried: its table is checked, and a game played by it.
#![tactic(auto)]

ghost use Rattle.std.specs.Prelude.{◌≡◌, ◌⊎◌, ◌<◌, length, if◌then◌else◌, IfOk};
ghost use Rattle.strategy_compiler.specs.Walks.{last};
ghost use Rattle.four_search.specs.FewestWins.{IsFewestWin};
ghost use Rattle.strength_drill.specs.Counts.{AreWithin, PlaysGame, IsNotHeld, IsShare, ComesOf, IsCounted, AreOnlyCounts, found_within, no_counts};

use crate::POSITIONS;
use crate::counts::Counts;
use crate::draws::Draws;
use crate::drill_game::{GameResult, play_game};
use crate::positions::{SIDE, drawn_position, rule_at};
use brain_session::BRAIN_WORK;
use foul_judge::Position;
use four_search::{FewestWin, FourTable, fewest_win};
use line_tables::LineTables;
use row_shapes::{Rule, RuleKind, under_rule};
use std::alloc::{AllocError, Global};
use strategy_checker::{Held, HeldError};
use strategy_graph::{Root, Table};

/// The most moves within which a win is searched.
const DEPTH: u32 = 6;

/// The most positions that a search may look at.
const BUDGET: u64 = 2_000;

/// The counts of the drill of the number. Its only error is want of memory.
pub fn drill_counts(alloc: Global, number: u32) -> Result<Counts, AllocError>
    // The counts are those that are defined from the number,
    ensures counted { IfOk result (IsCounted number) }
    // of which there are no others: each table of a win is accepted, and each game is won.
    ensures only { IfOk result (AreOnlyCounts number) }
{
    let mut draws = Draws {
        number: u64::from(number),
    };
    let mut counts = Counts::NONE;
    for i in 0..POSITIONS {
        let share = share(alloc, rule_at(i), &mut draws)?;
        counts.add(share, i);
    }
    Ok(counts)
}

/// What the position of the next draws adds to the counts, under this rule.
fn share(alloc: Global, kind: RuleKind, draws: &mut Draws) -> Result<Counts, AllocError>
    ensures share { IfOk result (λ c. IsShare kind draws.old.number c draws.new.number) }
    ensures within { IfOk result (AreWithin 1) }
{
    under_rule!(kind, share_under(alloc, draws))
}

/// The same under the rule of the type.
fn share_under<R: Rule>(alloc: Global, draws: &mut Draws) -> Result<Counts, AllocError>
    ensures share { IfOk result (λ c. IsShare R.KIND draws.old.number c draws.new.number) }
    ensures within { IfOk result (AreWithin 1) }
{
    let position = drawn_position::<R>(alloc, draws)?;
    let mut view = LineTables::over(alloc, position);
    let found = fewest_win::<R, LineTables<R>>(alloc, &mut view, DEPTH, BUDGET)?;
    share_found(alloc, view.into_position(), found, draws)
}

/// What the position adds to the counts, where this is found.
fn share_found<R: Rule>(
    alloc: Global,
    position: Position<R>,
    found: FewestWin,
    draws: &mut Draws,
) -> Result<Counts, AllocError>
    requires found { IsFewestWin R.KIND DEPTH BUDGET position found }
    requires wide { position.width ≡ SIDE }
    requires high { position.height ≡ SIDE }
    ensures comes { IfOk result (λ c. ComesOf R.KIND position (found_within DEPTH BUDGET R.KIND position) draws.old.number c draws.new.number) }
    ensures within { IfOk result (AreWithin 1) }
{
    match found {
        FewestWin::Win(
            FourTable {
                table,
                node,
                moves: _,
            },
        ) => try_table(alloc, position, table, node, draws),
        FewestWin::None => Ok(Counts {
            none: 1,
            ..Counts::NONE
        }),
        FewestWin::Spent => Ok(Counts {
            spent: 1,
            ..Counts::NONE
        }),
    }
}

/// What a win at the position adds to the counts, with this table and its last node: the table is checked, and a game played by it.
fn try_table<R: Rule>(
    alloc: Global,
    position: Position<R>,
    table: Table,
    node: u32,
    draws: &mut Draws,
) -> Result<Counts, AllocError>
    requires last_node { node ≡ last table }
    requires in_table { node < length table }
    requires wide { position.width ≡ SIDE }
    requires high { position.height ≡ SIDE }
    ensures tried { IfOk result (λ c. PlaysGame R.KIND position table draws.old.number c draws.new.number ⊎ IsNotHeld R.KIND position table draws.old.number c draws.new.number) }
    ensures within { IfOk result (AreWithin 1) }
{
    let mut held = Held::new(alloc, table);
    match held.add::<R>(Root::Attack(node), position.copy()?, BRAIN_WORK) {
        Ok(_) => Ok(with_game(play_game::<R>(alloc, held, position, draws)?)),
        Err(HeldError::Memory) => Err(AllocError),
        Err(_) => Ok(Counts {
            wins: 1,
            ..Counts::NONE
        }),
    }
}

/// The counts of a win whose table was accepted, with the game that was played by it.
fn with_game(game: GameResult) -> Counts
    ensures counts { result ≡ record no_counts { wins = 1; accepted = 1; games = (if game.won then 1 else 0); moves = game.moves } }
{
    Counts {
        wins: 1,
        accepted: 1,
        games: u32::from(game.won),
        moves: game.moves,
        ..Counts::NONE
    }
}
