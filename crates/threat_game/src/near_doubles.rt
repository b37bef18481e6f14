//! New double points.
//!
//! A double point after a new stone made two five points before it, or is near the stone: within four steps on a line on which two
//! others of its side stand so near, or somewhere on one on which three do; and its own stone makes a five point on this line. No
//! other point is looked at. A stone makes a five point on a line only within an open window with three stones of its side: the bits of
//! the line tell where these begin, and points outside them are passed over. So is one that makes one five point there and lay in no such
//! window before the new stone, which has no part in what is made on other lines.
#![tactic(auto)]

ghost use Rattle.std.specs.Prelude.{◌≡◌, ◌≤◌, ◌<◌, ◌*◌, ◌&&◌, ℕ, false, true, IsTrue};
ghost use Rattle.std.specs.List.{list_any};
ghost use Rattle.std.specs.Int.{bit_at};
ghost use Rattle.game_rules.specs.Grid.{is_empty, is_on, put};
ghost use Rattle.game_rules.specs.Ways.{towards as towards_lem};
ghost use Rattle.stone_board.specs.Lines.{line_of, place_towards, places_left, TellsLine};
ghost use Rattle.game_rules.specs.Games.{has_five as has_five_lem, is_double_point};
ghost use Rattle.threat_moves.specs.ThreeMoves.{has_double_point};
ghost use Rattle.row_shapes.specs.FivePoints.{is_several};
ghost use Rattle.row_shapes.specs.FiveEnds.{with_axis as with_axis_lem};
ghost use Rattle.open_windows.specs.PointSets.{TellsWindows, has_point};
ghost use Rattle.threat_game.specs.NearDoubles.{AreCrossings, AreNearStones, DoublesAreNear, is_double_on, makes_on};
ghost use Rattle.threat_game.specs.NearDoubles.{reach as reach_lem, points_of_two};
ghost use Rattle.threat_game.specs.OpenThrees.{AreStarts, IsOpenThree, IsPassed, NoneNear};

use crate::near_stones::NearStones;
use open_windows::PointSet;
use row_shapes::{FivePoints, Rule, with_axis};
use stone_board::{Axis, Board, MAX_SIDE, Point, Side, Way, place_on};
use threat_moves::is_new_double_point;

/// The line of an axis through a point: the stones of a side on it, and the places from which an open window with three begins, as bits.
#[derive(Clone, Copy)]
struct Line {
    axis: Axis,
    point: Point,
    own: u32,
    starts: u32,
}

/// Whether the side's stone on an empty point, which leaves it no five point, leaves it a double point. Before it the side has none
/// either, these points make two five points, these are its windows with three stones, and at most so many of its stones are around the
/// point. The board is as before.
pub(crate) fn leaves_double<R: Rule>(
    board: &mut Board,
    side: Side,
    twos: &[Point],
    windows: &PointSet,
    near: NearStones,
    p: Point,
) -> bool
    requires empty { IsTrue (is_empty board.old p) }
    requires before { has_five_lem R.KIND board.old side ≡ false }
    requires twos { twos.now ≡ points_of_two R.KIND board.old side }
    requires windows { TellsWindows board.old side 3 windows.now }
    requires none { has_five_lem R.KIND (put board.old side p) side ≡ false }
    requires near { AreNearStones board.old side p near }
    ensures double { result ≡ has_double_point R.KIND (put board.old side p) side }
    ensures same { board.new ≡ board.old }
{
    board.put(p, side);
    let double = has_double::<R>(board, side, twos, windows, near, p);
    board.lift(p);
    double
}

/// Whether the side, which has no five point, has a double point. It has none but among these points and near `p`, around which so
/// many of its stones are at most; and none that makes one five point on a line with `p` but in these windows. The board is as before.
fn has_double<R: Rule>(
    board: &mut Board,
    side: Side,
    twos: &[Point],
    windows: &PointSet,
    near: NearStones,
    p: Point,
) -> bool
    requires on { IsTrue (is_on board.old p) }
    requires none { has_five_lem R.KIND board.old side ≡ false }
    requires near { AreNearStones board.old side p near }
    requires far { DoublesAreNear R.KIND board.old side p twos.now }
    requires crossings { AreCrossings R.KIND board.old side p windows.now }
    ensures double { result ≡ has_double_point R.KIND board.old side }
    ensures same { board.new ≡ board.old }
{
    if some_double::<R>(board, side, twos) {
        return true;
    }
    if double_on::<R>(board, side, Axis::Row, windows, p, near.row) {
        return true;
    }
    if double_on::<R>(board, side, Axis::Column, windows, p, near.column) {
        return true;
    }
    if double_on::<R>(board, side, Axis::Down, windows, p, near.down) {
        return true;
    }
    double_on::<R>(board, side, Axis::Up, windows, p, near.up)
}

/// Whether some of the points is a double point of the side, which has no five point. The board is as before.
fn some_double<R: Rule>(board: &mut Board, side: Side, points: &[Point]) -> bool
    requires none { has_five_lem R.KIND board.old side ≡ false }
    ensures double { result ≡ list_any (is_double_point R.KIND board.old side) points.now }
    ensures same { board.new ≡ board.old }
{
    for q in points {
        if is_new_double_point::<R>(board, side, *q) {
            return true;
        }
    }
    false
}

/// Whether a double point of the side, which has no five point, is on the axis as near to `p` as may be where at most so many stones
/// are around it, and its stone makes a five point on the axis: one alone only in these windows. The board is as before.
#[inline(always)]
fn double_on<R: Rule>(
    board: &mut Board,
    side: Side,
    axis: Axis,
    windows: &PointSet,
    p: Point,
    near: u32,
) -> bool
    requires on { IsTrue (is_on board.old p) }
    requires none { has_five_lem R.KIND board.old side ≡ false }
    requires crossings { AreCrossings R.KIND board.old side p windows.now }
    ensures some { IsTrue result → has_double_point R.KIND board.old side ≡ true }
    ensures none { result ≡ false → (w : Way) (k : ℕ) → 1 ≤ k → k ≤ reach_lem near
        → is_double_on R.KIND board.old side axis (towards_lem w axis p k) ≡ false }
    ensures same { board.new ≡ board.old }
{
    let far = reach(near);
    if far == 0 {
        return false;
    }
    let own = board.line_through(side, axis, p);
    let starts = line_starts(board, side, axis, p);
    if starts == 0 {
        return false;
    }
    let line = Line {
        axis,
        point: p,
        own,
        starts,
    };
    for k in 1..1 + far {
        if double_towards::<R>(board, side, line, windows, Way::Ahead, k) {
            return true;
        }
        if double_towards::<R>(board, side, line, windows, Way::Behind, k) {
            return true;
        }
    }
    false
}

/// The places of the line on the axis through the point from which an open window with three stones of the side begins: a stone makes a
/// five point on the line only in such a window.
#[inline(always)]
fn line_starts(board: &Board, side: Side, axis: Axis, p: Point) -> u32
    requires on { IsTrue (is_on board.now p) }
    ensures starts { AreStarts board.now side axis (line_of axis p) result }
{
    let own = board.line_through(side, axis, p);
    three_starts(own, board.line_through(side.other(), axis, p))
}

/// The places from which five in a row hold three stones of a side or more and none of the other, by the bits of both.
#[inline(always)]
fn three_starts(own: u32, theirs: u32) -> u32
    ensures starts { (i : ℕ) → IsOpenThree own theirs i → bit_at result i ≡ 1 }
{
    let second = own >> 1;
    let third = own >> 2;
    let fourth = own >> 3;
    let fifth = own >> 4;
    let three = (own & second & (third | fourth | fifth))
        | (third & fourth & (own | second | fifth))
        | ((own | second) & (third | fourth) & fifth);
    let taken = theirs | (theirs >> 1) | (theirs >> 2) | (theirs >> 3) | (theirs >> 4);
    (three | taken) ^ taken
}

/// Whether the place so many steps on from this one on the line may be empty, and a window begins there or at most four before it.
#[inline(always)]
fn is_near(line: Line, way: Way, place: u8, k: u8) -> bool
    requires place { place < MAX_SIDE }
    requires near { k < MAX_SIDE }
    ensures none { result ≡ false → k ≤ places_left way place → IsPassed line.own line.starts (place_towards way place k) }
{
    match way {
        Way::Ahead => is_free_near(line, place + k),
        Way::Behind => k <= place && is_free_near(line, place - k),
    }
}

/// Whether the place on the line may be empty, and a window begins there or at most four before it.
#[inline(always)]
fn is_free_near(line: Line, place: u8) -> bool
    requires place { place < 2 * MAX_SIDE }
    ensures none { result ≡ false → IsPassed line.own line.starts place }
{
    begins_near(line.starts, place) && u64::from(line.own) >> place & 1 == 0
}

/// Whether one of these places is this one, or at most four before it.
#[inline(always)]
fn begins_near(starts: u32, place: u8) -> bool
    requires place { place < 2 * MAX_SIDE }
    ensures none { result ≡ false → NoneNear starts place }
{
    u64::from(starts) << 4 >> place & 0x1f != 0
}

/// So many steps away a new double point may be at most on an axis on which so many stones are around the new one.
fn reach(near: u32) -> u8
    ensures reach { result ≡ reach_lem near }
    ensures bound { result ≤ 31 }
{
    if near >= 3 {
        MAX_SIDE - 1
    } else if near == 2 {
        4
    } else {
        0
    }
}

/// Whether there is a point so many steps away on the line, its stone makes a five point there, one alone only in these windows, and it
/// is a double point of the side, which has no five point. The board is as before.
#[inline(always)]
fn double_towards<R: Rule>(
    board: &mut Board,
    side: Side,
    line: Line,
    windows: &PointSet,
    way: Way,
    k: u8,
) -> bool
    requires on { IsTrue (is_on board.old line.point) }
    requires near { k < MAX_SIDE }
    requires none { has_five_lem R.KIND board.old side ≡ false }
    requires own { TellsLine board.old side line.axis (line_of line.axis line.point) line.own }
    requires starts { AreStarts board.old side line.axis (line_of line.axis line.point) line.starts }
    requires crossings { AreCrossings R.KIND board.old side line.point windows.now }
    ensures double { result ≡ is_double_on R.KIND board.old side line.axis (towards_lem way line.axis line.point k) }
    ensures same { board.new ≡ board.old }
{
    if !is_near(line, way, place_on(line.axis, line.point), k) {
        return false;
    }
    match board.step_towards(way, line.axis, line.point, k) {
        None => false,
        Some(q) => double_from::<R>(board, side, line.axis, windows, q),
    }
}

/// Whether a stone of the side on the point makes a five point on the axis, and the point is a double point of the side, which has no
/// five point: one that makes no second on the axis only in these windows. The board is as before.
fn double_from<R: Rule>(
    board: &mut Board,
    side: Side,
    axis: Axis,
    windows: &PointSet,
    q: Point,
) -> bool
    requires none { has_five_lem R.KIND board.old side ≡ false }
    requires alone { has_point windows.now q ≡ false → is_several (with_axis_lem R.KIND board.old side q FivePoints.None axis) ≡ false
        → is_double_point R.KIND board.old side q ≡ false }
    ensures double { result ≡ (makes_on R.KIND board.old side axis q && is_double_point R.KIND board.old side q) }
    ensures same { board.new ≡ board.old }
{
    if !board.is_empty(q) {
        return false;
    }
    if !may_double::<R>(board, side, axis, windows, q) {
        return false;
    }
    is_new_double_point::<R>(board, side, q)
}

/// Whether a stone of the side on an empty point makes a five point on the axis, and the point may be a double point: it makes two there,
/// or is in these windows.
#[tactic(auto, unfolding(crate::specs::NearDoubles::makes_on))]
#[inline(always)]
fn may_double<R: Rule>(board: &Board, side: Side, axis: Axis, windows: &PointSet, q: Point) -> bool
    requires empty { IsTrue (is_empty board.now q) }
    requires alone { has_point windows.now q ≡ false → is_several (with_axis_lem R.KIND board.now side q FivePoints.None axis) ≡ false
        → is_double_point R.KIND board.now side q ≡ false }
    ensures made { IsTrue result → makes_on R.KIND board.now side axis q ≡ true }
    ensures none { result ≡ false → (makes_on R.KIND board.now side axis q && is_double_point R.KIND board.now side q) ≡ false }
{
    match with_axis::<R>(board, side, q, FivePoints::None, axis) {
        FivePoints::None => false,
        FivePoints::One(_) => windows.has(q),
        FivePoints::Several => true,
    }
}
