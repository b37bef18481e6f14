//! Wins of one move, compiled.
//!
//! A five point is a winning node. A move to which each reply fouls is a node that goes on and has no answers, since no reply
//! needs one.
#![tactic(auto)]

ghost use Rattle.std.specs.Prelude.{◌≡◌, ◌≤◌, ℕ, true, IfOk};
ghost use Rattle.game_rules.specs.Grid.{Grid};
ghost use Rattle.game_rules.specs.Shapes.{five as five_lem};
ghost use Rattle.game_rules.specs.Play.{IsPosition, mover};
ghost use Rattle.strategy_compiler.specs.Growth.{Writes};
ghost use Rattle.threat_game.specs.Attacks.{is_last_move};
ghost use Rattle.threat_game.specs.Wins.{IsThreatWin};

use game_rules::RuleKind;
use stone_board::Point;
use strategy_compiler::{Compiler, SearchError, WrittenWin};

/// Compiles the win by a five point.
pub fn compile_five(compiler: &mut Compiler, five: Point) -> Result<WrittenWin, SearchError>
    ensures win { IfOk result (λ win. (rule : RuleKind) (b : Grid) (moves : ℕ) → IsPosition rule b → five_lem rule b (mover b) five ≡ true → 1 ≤ moves
        → IsThreatWin rule moves b compiler.new win) }
    ensures writes { Writes compiler.old compiler.new 1 result }
{
    let node = compiler.leaf(five)?;
    Ok(WrittenWin { node, moves: 1 })
}

/// Compiles the win by a move to which each reply fouls.
pub fn compile_last(compiler: &mut Compiler, attack: Point) -> Result<WrittenWin, SearchError>
    ensures win { IfOk result (λ win. (rule : RuleKind) (b : Grid) (moves : ℕ) → IsPosition rule b → is_last_move rule b attack ≡ true → 1 ≤ moves
        → IsThreatWin rule moves b compiler.new win) }
    ensures writes { Writes compiler.old compiler.new 1 result }
{
    let node = compiler.fork(attack, &[])?;
    Ok(WrittenWin { node, moves: 1 })
}
