//! Replies after which the attacker has two moves left and no win.
//!
//! A position with two moves left is small: each attack has to leave a five point, or no reply that does not foul, whatever
//! the reply. So it is looked through at once, without a node or a count for its replies, and a reply that escapes so ends the
//! defender's node before any of its other replies is counted. The contracts speak of the answer `true` alone.
#![tactic(auto)]

ghost use Rattle.std.specs.Prelude.{◌≡◌, false, All, IfOk, IsTrue};
ghost use Rattle.game_rules.specs.Play.{IsPosition, has_fouls, outcome as outcome_lem, mover, other, after};
ghost use Rattle.game_rules.specs.Games.{WinsByThreats, has_five as has_five_lem, five_points as five_points_lem};
ghost use Rattle.game_rules.specs.declared.Outcome.{Outcome};
ghost use Rattle.threat_game.specs.TwoMoves.{counters as counters_lem};
ghost use Rattle.threat_game.specs.Replies.{EscapesBy, HasEscape};

use crate::attacks::{Attacks, all_twos, find_attacks, goes_on};
use crate::replies::{five_beside, last_after};
use foul_judge::Seen;
use open_windows::{five_points, window_points};
use row_shapes::{FivePoints, Rule, takes};
use std::alloc::{AllocError, Global};
use stone_board::{Board, Point, Points, Side};

/// Whether there is no win within two moves after the reply `q`, which goes on and leaves the attacker no five point.
/// The view is as before, also where memory ran out, and so is the board, a copy of its own.
pub fn fails_after<R: Rule, V: Seen<R>>(
    alloc: Global,
    view: &mut V,
    board: &mut Board,
    q: Point,
) -> Result<bool, AllocError>
    requires on { outcome_lem R.KIND (V.position view.old) q ≡ Outcome.GoesOn }
    requires none { has_five_lem R.KIND (after (V.position view.old) q) (mover (after (V.position view.old) q)) ≡ false }
    requires copy { board.old ≡ V.position view.old }
    ensures no_win { IfOk result (λ found. IsTrue found → ¬ WinsByThreats R.KIND 2 (after (V.position view.old) q)) }
    ensures same { V.position view.new ≡ V.position view.old }
    ensures same_board { board.new ≡ board.old }
{
    let defender = view.side();
    view.play(q);
    board.put(q, defender);
    let found = fails::<R, V>(alloc, view, board);
    board.lift(q);
    view.undo(q);
    found
}

/// Whether the attacker, which is to move and has no five point, has no win within two moves.
fn fails<R: Rule, V: Seen<R>>(
    alloc: Global,
    view: &mut V,
    board: &mut Board,
) -> Result<bool, AllocError>
    requires none { has_five_lem R.KIND (V.position view.old) (mover (V.position view.old)) ≡ false }
    requires copy { board.old ≡ V.position view.old }
    ensures no_win { IfOk result (λ found. IsTrue found → ¬ WinsByThreats R.KIND 2 (V.position view.old)) }
    ensures same { V.position view.new ≡ V.position view.old }
    ensures same_board { board.new ≡ board.old }
{
    let defender = view.side().other();
    if !R::has_fouls(defender) {
        return has_no_double::<R, V>(alloc, view, defender);
    }
    match find_attacks::<R, V>(alloc, view, board)? {
        Attacks::DoublePoint(_) | Attacks::NoReply(_) => Ok(false),
        Attacks::Moves(moves) => each_fails::<R, V>(alloc, view, board, moves.as_slice()),
    }
}

/// Whether the attacker, which is to move and has no five point, has no move that goes on, leaves it two five points, and the other side
/// none. Where the other side has no fouls it has no win within two moves then.
fn has_no_double<R: Rule, V: Seen<R>>(
    alloc: Global,
    view: &mut V,
    defender: Side,
) -> Result<bool, AllocError>
    requires none { has_five_lem R.KIND (V.position view.old) (mover (V.position view.old)) ≡ false }
    requires calm { has_fouls R.KIND defender ≡ false }
    requires defender { defender ≡ other (mover (V.position view.old)) }
    requires lawful { IsPosition R.KIND (V.position view.old) }
    ensures no_win { IfOk result (λ found. IsTrue found → ¬ WinsByThreats R.KIND 2 (V.position view.old)) }
    ensures same { V.position view.new ≡ V.position view.old }
{
    let threat = view.fives_in_short(defender);
    let windows = window_points(view.board(), view.side(), 3);
    let twos = all_twos::<R, V>(alloc, view, &windows)?;
    Ok(none_counters::<R, V>(view, threat, twos.as_slice()))
}

/// Whether none of the points goes on and takes these five points.
fn none_counters<R: Rule, V: Seen<R>>(view: &mut V, threat: FivePoints, points: &[Point]) -> bool
    ensures none { IsTrue result → All (λ p. counters_lem R.KIND (V.position view.old) threat p ≡ false) points.now }
    ensures same { V.position view.new ≡ V.position view.old }
{
    for p in points {
        if counters::<R, V>(view, threat, *p) {
            return false;
        }
    }
    true
}

/// Whether the move takes these five points and goes on.
fn counters<R: Rule, V: Seen<R>>(view: &mut V, threat: FivePoints, p: Point) -> bool
    ensures counters { result ≡ counters_lem R.KIND (V.position view.old) threat p }
    ensures same { V.position view.new ≡ V.position view.old }
{
    if !takes(threat, p) {
        return false;
    }
    goes_on::<R, V>(view, p)
}

/// Whether some reply to each of these attacks, which go on, leaves no win by one more move.
fn each_fails<R: Rule, V: Seen<R>>(
    alloc: Global,
    view: &mut V,
    board: &mut Board,
    moves: &[Point],
) -> Result<bool, AllocError>
    requires on { All (λ p. outcome_lem R.KIND (V.position view.old) p ≡ Outcome.GoesOn) moves.now }
    requires copy { board.old ≡ V.position view.old }
    ensures escapes { IfOk result (λ found. IsTrue found → All (λ p. HasEscape R.KIND 1 (after (V.position view.old) p)) moves.now) }
    ensures same { V.position view.new ≡ V.position view.old }
    ensures same_board { board.new ≡ board.old }
{
    for p in moves {
        if !fails_by::<R, V>(alloc, view, board, *p)? {
            return Ok(false);
        }
    }
    Ok(true)
}

/// Whether some reply to the attack `p`, which goes on, leaves no win by one more move.
fn fails_by<R: Rule, V: Seen<R>>(
    alloc: Global,
    view: &mut V,
    board: &mut Board,
    p: Point,
) -> Result<bool, AllocError>
    requires on { outcome_lem R.KIND (V.position view.old) p ≡ Outcome.GoesOn }
    requires copy { board.old ≡ V.position view.old }
    ensures escape { IfOk result (λ found. IsTrue found → HasEscape R.KIND 1 (after (V.position view.old) p)) }
    ensures same { V.position view.new ≡ V.position view.old }
    ensures same_board { board.new ≡ board.old }
{
    let attacker = view.side();
    view.play(p);
    board.put(p, attacker);
    let found = has_escape::<R, V>(alloc, view, board);
    board.lift(p);
    view.undo(p);
    found
}

/// Whether some reply leaves the attacker no win by one more move. Where it has a five point, that reply takes the only one.
fn has_escape<R: Rule, V: Seen<R>>(
    alloc: Global,
    view: &mut V,
    board: &mut Board,
) -> Result<bool, AllocError>
    requires copy { board.old ≡ V.position view.old }
    ensures escape { IfOk result (λ found. IsTrue found → HasEscape R.KIND 1 (V.position view.old)) }
    ensures same { V.position view.new ≡ V.position view.old }
    ensures same_board { board.new ≡ board.old }
{
    let attacker = view.side().other();
    let fives = five_points::<R>(alloc, view.board(), attacker)?;
    match fives.as_slice() {
        [] => Ok(some_escapes::<R, V>(view, board, &fives)),
        [five] => Ok(escapes_by::<R, V>(view, board, &fives, *five)),
        [_, _, ..] => Ok(false),
    }
}

/// Whether some reply leaves the attacker, which has these five points before it, no win by one more move.
fn some_escapes<R: Rule, V: Seen<R>>(view: &mut V, board: &mut Board, fives: &Points) -> bool
    requires copy { board.old ≡ V.position view.old }
    requires fives { fives.now ≡ five_points_lem R.KIND (V.position view.old) (other (mover (V.position view.old))) }
    ensures escape { IsTrue result → HasEscape R.KIND 1 (V.position view.old) }
    ensures same { V.position view.new ≡ V.position view.old }
    ensures same_board { board.new ≡ board.old }
{
    for q in view.board().points() {
        if escapes_by::<R, V>(view, board, fives, q) {
            return true;
        }
    }
    false
}

/// Whether the reply `q` goes on and leaves the attacker, which has these five points before it, no win by one more move.
fn escapes_by<R: Rule, V: Seen<R>>(
    view: &mut V,
    board: &mut Board,
    fives: &Points,
    q: Point,
) -> bool
    requires copy { board.old ≡ V.position view.old }
    requires fives { fives.now ≡ five_points_lem R.KIND (V.position view.old) (other (mover (V.position view.old))) }
    ensures escape { IsTrue result → EscapesBy R.KIND 1 (V.position view.old) q }
    ensures same { V.position view.new ≡ V.position view.old }
    ensures same_board { board.new ≡ board.old }
{
    if !goes_on::<R, V>(view, q) {
        return false;
    }
    match five_beside(fives, q) {
        Some(_) => false,
        None => last_after::<R, V>(view, board, q).is_none(),
    }
}
