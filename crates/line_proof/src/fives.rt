//! Five points of the attacker that a reply leaves.
//!
//! After a four of the attacker each reply but the block leaves it one and the same five point. So all of them have one winning
//! node, and it is enough to ask whether the point is a five point still.
#![tactic(auto)]

ghost use Rattle.std.specs.Prelude.{◌≡◌, true, if◌then◌else◌, None, IfOk, IfSome};
ghost use Rattle.game_rules.specs.Shapes.{five as five_lem};
ghost use Rattle.game_rules.specs.Play.{mover};
ghost use Rattle.game_rules.specs.Games.{has_five};
ghost use Rattle.strategy_compiler.specs.Nodes.{IsCompiled};
ghost use Rattle.strategy_compiler.specs.Growth.{Writes};
ghost use Rattle.strategy_compiler.specs.Wins.{IsWrittenWin};

use crate::SearchError;
use foul_judge::Seen;
use row_shapes::Rule;
use stone_board::{Point, Side};
use strategy_compiler::{Compiler, WrittenWin};

/// A win of the side to move at this point, if it is a five point of its own.
pub(crate) fn five_win<R: Rule, V: Seen<R>>(
    view: &V,
    five: Option<Point>,
    compiler: &mut Compiler,
) -> Result<Option<WrittenWin>, SearchError>
    requires compiled { IsCompiled compiler.old }
    ensures win { IfOk result (λ found. IfSome found (IsWrittenWin R.KIND 1 (V.position view.now) compiler.new)) }
    ensures wins { IfOk result (λ found. IfSome found (λ win. has_five R.KIND (V.position view.now) (mover (V.position view.now)) ≡ true)) }
    ensures none { IfOk result (λ found. found ≡ None → compiler.new ≡ compiler.old) }
    ensures writes { Writes compiler.old compiler.new
        (if has_five R.KIND (V.position view.now) (mover (V.position view.now)) then 1 else 0) result }
{
    let attacker = view.side();
    match five {
        None => Ok(None),
        Some(point) => {
            if !is_five::<R, V>(view, attacker, point) {
                return Ok(None);
            }
            let node = compiler.leaf(point)?;
            Ok(Some(WrittenWin { node, moves: 1 }))
        }
    }
}

/// Whether the point is a five point of the side.
pub(crate) fn is_five<R: Rule, V: Seen<R>>(view: &V, side: Side, p: Point) -> bool
    ensures five { result ≡ true → five_lem R.KIND (V.position view.now) side p ≡ true }
{
    view.board().is_empty(p) && view.five(side, p)
}
