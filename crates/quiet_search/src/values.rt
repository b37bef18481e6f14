//! What a point is worth to a side: the windows through it that are clear of the other side, by how many stones they would have.
#![tactic(auto)]

ghost use Rattle.std.specs.Prelude.{◌<◌, IsTrue};
ghost use Rattle.game_rules.specs.Grid.{is_on};

use stone_board::{Axis, Board, MAX_SIDE, Point, Side, Way, place_on, steps_left};

/// The nine places of an axis around a point, as bits: where the attacker stands, where the defender, and what is off the board.
#[derive(Clone, Copy)]
struct Around {
    own: u32,
    other: u32,
    off: u32,
}

/// What a point is worth to the attacker and to the defender.
#[derive(Clone, Copy)]
pub(crate) struct Worth {
    pub(crate) own: u32,
    pub(crate) other: u32,
}

/// The bit of the point itself among the nine.
const MIDDLE: u32 = 16;

/// The bits of the places within two steps.
const WITHIN_TWO: u32 = 124;

/// The nine places, those behind the point, and those ahead of it.
const PLACES: u64 = 511;

const BEHIND: u32 = 15;

const AHEAD: u32 = 480;

/// The bits of the nine places around a place of a line.
fn nine_around(bits: u32, place: u8) -> u32
    requires place { place < MAX_SIDE }
{
    (u64::from(bits) << 4 >> place & PLACES) as u32
}

/// The places that are off the board, where so many steps ahead and behind stay on it.
fn off_board(ahead: u8, behind: u8) -> u32 {
    BEHIND >> behind.min(4) | AHEAD << ahead.min(4) & AHEAD
}

/// What a point is worth on an axis on which nothing is near: one stone would stand in each of its five windows.
const ALONE: Worth = Worth { own: 5, other: 5 };

/// What stands around the point on an axis, seen by the side.
fn look_around(board: &Board, side: Side, axis: Axis, p: Point) -> Around
    requires on { IsTrue (is_on board.now p) }
{
    let own = board.line_through(side, axis, p);
    let other = board.line_through(side.other(), axis, p);
    let ahead = steps_left(Way::Ahead, axis, board.width(), board.height(), p);
    let behind = steps_left(Way::Behind, axis, board.width(), board.height(), p);
    let place = place_on(axis, p);
    Around {
        own: nine_around(own, place),
        other: nine_around(other, place),
        off: off_board(ahead, behind),
    }
}

/// What a window is worth with so many stones.
fn worth_of(stones: u32) -> u32 {
    match stones {
        0 => 0,
        1 => 1,
        2 => 7,
        3 => 25,
        4 => 70,
        _ => 200,
    }
}

/// What the five windows of an axis through the point are worth once its side has a stone there.
fn windows_worth(own: u32, closed: u32) -> u32 {
    let stones = own | MIDDLE;
    let mut sum: u32 = 0;
    for start in 0..5u32 {
        if closed >> start & 31 == 0 {
            sum = sum.saturating_add(worth_of((stones >> start & 31).count_ones()));
        }
    }
    sum
}

/// What a point of the board is worth on one axis.
fn worth_on(board: &Board, attacker: Side, axis: Axis, p: Point) -> Worth
    requires on { IsTrue (is_on board.now p) }
{
    let found = look_around(board, attacker, axis, p);
    if found.own | found.other | found.off == 0 {
        return ALONE;
    }
    Worth {
        own: windows_worth(found.own, found.other | found.off),
        other: windows_worth(found.other, found.own | found.off),
    }
}

/// What a point of the board is worth to the attacker and to the defender, on all four axes.
pub(crate) fn point_worth(board: &Board, attacker: Side, p: Point) -> Worth
    requires on { IsTrue (is_on board.now p) }
{
    let row = worth_on(board, attacker, Axis::Row, p);
    let column = worth_on(board, attacker, Axis::Column, p);
    let down = worth_on(board, attacker, Axis::Down, p);
    let up = worth_on(board, attacker, Axis::Up, p);
    Worth {
        own: total(row.own, column.own, down.own, up.own),
        other: total(row.other, column.other, down.other, up.other),
    }
}

/// The sum of four numbers.
fn total(row: u32, column: u32, down: u32, up: u32) -> u32 {
    row.saturating_add(column)
        .saturating_add(down)
        .saturating_add(up)
}

/// Whether a stone of the attacker is within four steps of the point on the axis, or one of the defender within two.
fn is_near_on(board: &Board, attacker: Side, axis: Axis, p: Point) -> bool
    requires on { IsTrue (is_on board.now p) }
{
    let own = board.line_through(attacker, axis, p);
    let other = board.line_through(attacker.other(), axis, p);
    let place = place_on(axis, p);
    nine_around(own, place) | nine_around(other, place) & WITHIN_TWO != 0
}

/// Whether the point is near enough to stones to be a move.
pub(crate) fn is_near(board: &Board, attacker: Side, p: Point) -> bool
    requires on { IsTrue (is_on board.now p) }
{
    is_near_on(board, attacker, Axis::Row, p)
        || is_near_on(board, attacker, Axis::Column, p)
        || is_near_on(board, attacker, Axis::Down, p)
        || is_near_on(board, attacker, Axis::Up, p)
}
