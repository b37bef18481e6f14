//! Double threats: moves after which the attacker has two five points and the defender none, which win in two moves.
//!
//! After a three of the attacker most replies leave it one and the same double threat. Its node plays the same move and takes
//! the same two points wherever it wins, so it is compiled once, and each further reply is only tested: whether the move goes
//! on there, and whether the two five points are there and the defender has none. No search is made for such a reply.
#![tactic(auto)]

ghost use Rattle.std.specs.Prelude.{◌≡◌, true, false, if◌then◌else◌, Some, None, IfOk, IfSome, OnOk};
ghost use Rattle.game_rules.specs.Shapes.{is_same_point};
ghost use Rattle.game_rules.specs.Play.{IsPosition, outcome as outcome_lem, mover, other};
ghost use Rattle.game_rules.specs.Games.{has_five, wins_by_fours};
ghost use Rattle.strategy_compiler.specs.Nodes.{IsCompiled};
ghost use Rattle.strategy_compiler.specs.Wins.{IsWrittenWin};
ghost use Rattle.strategy_compiler.specs.Growth.{Writes};
ghost use Rattle.line_proof.specs.Doubles.{AreOpen, LeavesTwoFives, IsDouble};

use crate::SearchError;
use crate::fives::is_five;
use foul_judge::{Outcome, Seen};
use row_shapes::{FivePoints, Rule};
use std::alloc::{AllocError, Global};
use stone_board::{Board, Point, Points};
use strategy_compiler::{Compiler, WrittenWin};
use threat_moves::fives;

/// Two five points of one side.
#[derive(Clone, Copy)]
pub(crate) struct TwoFives {
    pub(crate) first: Point,
    pub(crate) second: Point,
}

/// A double threat that was compiled: its move, its two five points, and its node.
#[derive(Clone, Copy)]
pub(crate) struct DoubleThreat {
    pub(crate) start: Point,
    pub(crate) ends: TwoFives,
    pub(crate) node: u32,
}

/// A win of the side to move by a double threat: by the one that is given, or else by one that is looked for. The first that was
/// compiled stays the one that is given, so that as many replies as can be have one and the same answer. Where none is told there
/// may be one all the same. The view is as before.
pub(crate) fn double_win<R: Rule, V: Seen<R>>(
    alloc: Global,
    view: &mut V,
    hint: &mut Option<DoubleThreat>,
    compiler: &mut Compiler,
) -> Result<Option<WrittenWin>, SearchError>
    requires compiled { IsCompiled compiler.old }
    requires hint { IfSome hint.old (IsDouble (V.position view.old).width (V.position view.old).height compiler.old) }
    ensures win { IfOk result (λ found. IfSome found (IsWrittenWin R.KIND 2 (V.position view.old) compiler.new)) }
    ensures wins { IfOk result (λ found. IfSome found (λ win. wins_by_fours R.KIND 2 (V.position view.old) ≡ true)) }
    ensures none { IfOk result (λ found. found ≡ None → compiler.new ≡ compiler.old) }
    ensures hint { OnOk result (IfSome hint.new (IsDouble (V.position view.old).width (V.position view.old).height compiler.new)) }
    ensures writes { Writes compiler.old compiler.new (if wins_by_fours R.KIND 2 (V.position view.old) then 3 else 0) result }
    ensures same { V.position view.new ≡ V.position view.old }
{
    // This tells that the position is lawful.
    view.side();
    match hint_that_wins::<R, V>(view, *hint) {
        Some(double) => Ok(Some(double_of(double))),
        None => new_double::<R, V>(alloc, view, hint, compiler),
    }
}

/// The win by a double threat.
fn double_of(double: DoubleThreat) -> WrittenWin
    ensures node { result.node ≡ double.node }
    ensures moves { result.moves ≡ 2 }
{
    WrittenWin {
        node: double.node,
        moves: 2,
    }
}

/// The double threat that is given, if it wins here. The view is as before.
fn hint_that_wins<R: Rule, V: Seen<R>>(
    view: &mut V,
    hint: Option<DoubleThreat>,
) -> Option<DoubleThreat>
    ensures leaves_two { IfSome result (λ double. LeavesTwoFives R.KIND (V.position view.old) double.start double.ends) }
    ensures given { IfSome result (λ double. hint ≡ Some double) }
    ensures same { V.position view.new ≡ V.position view.old }
{
    match hint {
        None => None,
        Some(double) => {
            if is_double_threat::<R, V>(view, double.start, double.ends) {
                Some(double)
            } else {
                None
            }
        }
    }
}

/// A win by a double threat that is looked for, and is given from then on where none was. The view is as before.
fn new_double<R: Rule, V: Seen<R>>(
    alloc: Global,
    view: &mut V,
    hint: &mut Option<DoubleThreat>,
    compiler: &mut Compiler,
) -> Result<Option<WrittenWin>, SearchError>
    requires lawful { IsPosition R.KIND (V.position view.old) }
    requires compiled { IsCompiled compiler.old }
    requires hint { IfSome hint.old (IsDouble (V.position view.old).width (V.position view.old).height compiler.old) }
    ensures win { IfOk result (λ found. IfSome found (IsWrittenWin R.KIND 2 (V.position view.old) compiler.new)) }
    ensures wins { IfOk result (λ found. IfSome found (λ win. wins_by_fours R.KIND 2 (V.position view.old) ≡ true)) }
    ensures none { IfOk result (λ found. found ≡ None → compiler.new ≡ compiler.old) }
    ensures hint { OnOk result (IfSome hint.new (IsDouble (V.position view.old).width (V.position view.old).height compiler.new)) }
    ensures writes { Writes compiler.old compiler.new (if wins_by_fours R.KIND 2 (V.position view.old) then 3 else 0) result }
    ensures same { V.position view.new ≡ V.position view.old }
{
    match find_double_threat::<R, V>(alloc, view)? {
        None => Ok(None),
        Some((start, ends)) => {
            if !is_double_threat::<R, V>(view, start, ends) {
                return Ok(None);
            }
            let double = compile_double(alloc, view.board(), start, ends, compiler)?;
            *hint = Some(hint.unwrap_or(double));
            Ok(Some(double_of(double)))
        }
    }
}

/// Whether the move of the side to move goes on and leaves it these two five points, and the other side none. The view is as
/// before.
fn is_double_threat<R: Rule, V: Seen<R>>(view: &mut V, start: Point, ends: TwoFives) -> bool
    ensures leaves_two { result ≡ true → LeavesTwoFives R.KIND (V.position view.old) start ends }
    ensures same { V.position view.new ≡ V.position view.old }
{
    match view.outcome(start) {
        Outcome::GoesOn => leaves_two_fives::<R, V>(view, start, ends),
        _ => false,
    }
}

/// The same of a move that goes on.
fn leaves_two_fives<R: Rule, V: Seen<R>>(view: &mut V, start: Point, ends: TwoFives) -> bool
    requires goes_on { outcome_lem R.KIND (V.position view.old) start ≡ Outcome.GoesOn }
    ensures leaves_two { result ≡ true → LeavesTwoFives R.KIND (V.position view.old) start ends }
    ensures same { V.position view.new ≡ V.position view.old }
{
    view.play(start);
    let open = are_open::<R, V>(view, ends);
    view.undo(start);
    open
}

/// Whether the side that is not to move has these two five points, and the side to move has none.
fn are_open<R: Rule, V: Seen<R>>(view: &V, ends: TwoFives) -> bool
    ensures open { result ≡ true → AreOpen R.KIND (V.position view.now) ends }
{
    let defender = view.side();
    let attacker = defender.other();
    if ends.first.is(ends.second) {
        return false;
    }
    if !is_five::<R, V>(view, attacker, ends.first) {
        return false;
    }
    if !is_five::<R, V>(view, attacker, ends.second) {
        return false;
    }
    !view.has_five(defender)
}

/// A move of the side to move that may be a double threat, and two five points that it leaves. The view is as before.
fn find_double_threat<R: Rule, V: Seen<R>>(
    alloc: Global,
    view: &mut V,
) -> Result<Option<(Point, TwoFives)>, AllocError>
    ensures same { V.position view.new ≡ V.position view.old }
{
    let attacker = view.side();
    if view.has_five(attacker) {
        return Ok(None);
    }
    for start in view.board().points() {
        if makes_several::<R, V>(view, start) {
            if let Outcome::GoesOn = view.outcome(start) {
                return left_by::<R, V>(alloc, view, start);
            }
        }
    }
    Ok(None)
}

/// Whether the point is empty, and the side to move, which has no five point, has two or more with a stone on it.
fn makes_several<R: Rule, V: Seen<R>>(view: &V, p: Point) -> bool
    requires none { has_five R.KIND (V.position view.now) (mover (V.position view.now)) ≡ false }
{
    view.board().is_empty(p) && matches!(view.fives_made(p), FivePoints::Several)
}

/// The move, which goes on, and two five points that it leaves the side to move, if it leaves so many. The view is as before.
fn left_by<R: Rule, V: Seen<R>>(
    alloc: Global,
    view: &mut V,
    start: Point,
) -> Result<Option<(Point, TwoFives)>, AllocError>
    requires goes_on { outcome_lem R.KIND (V.position view.old) start ≡ Outcome.GoesOn }
    ensures same { V.position view.new ≡ V.position view.old }
{
    let attacker = view.side();
    view.play(start);
    let points = fives::<R, V>(alloc, view, attacker);
    view.undo(start);
    match points?.as_slice() {
        [first, second, ..] => Ok(Some((
            start,
            TwoFives {
                first: *first,
                second: *second,
            },
        ))),
        _ => Ok(None),
    }
}

/// The double threat with this move and these two five points, compiled for boards of this size.
fn compile_double(
    alloc: Global,
    board: &Board,
    start: Point,
    ends: TwoFives,
    compiler: &mut Compiler,
) -> Result<DoubleThreat, SearchError>
    ensures double { IfOk result (IsDouble board.now.width board.now.height compiler.new) }
    ensures start { IfOk result (λ d. d.start ≡ start) }
    ensures ends { IfOk result (λ d. d.ends ≡ ends) }
    ensures writes { Writes compiler.old compiler.new 3 result }
{
    let points = Points::all_of(alloc, board)?;
    let win = compiler.double(alloc, start, ends.first, ends.second, points.as_slice())?;
    Ok(DoubleThreat {
        start,
        ends,
        node: win.node,
    })
}
