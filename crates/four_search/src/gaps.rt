//! Gaps beside a stone: the first empty points past the stones of its side.
//!
//! A stone can complete a four only with stones that it reaches over at most one gap, and so with the first two empty points of
//! each way. The walks end at a stone of the other side or at the border.
#![tactic(auto)]

ghost use Rattle.std.specs.Prelude.{◌≡◌, ◌<◌, false, true, IsTrue, Some};
ghost use Rattle.game_rules.specs.Grid.{IsBoard, is_on};
ghost use Rattle.game_rules.specs.Ways.{stones_towards as stones_towards_lem};
ghost use Rattle.four_search.specs.Gaps.{next_gap as next_gap_lem, TellsGaps, IsGapOn};
ghost use Rattle.game_rules.specs.declared.Point.{Point};

use stone_board::{Axis, Board, Point, Side, Way, place_on};

/// The four places next to one in each way, where the place itself is bit 4.
const NEAR_PLACES: u64 = 0b1_1110_1111;

/// What stands on an axis in one way from a stone: stones, a gap, stones, a gap, stones. Past a gap that is missing nothing is
/// counted.
#[derive(Clone, Copy)]
pub(crate) struct Gaps {
    pub(crate) near: u32,
    pub(crate) first: Option<Point>,
    pub(crate) between: u32,
    pub(crate) second: Option<Point>,
    pub(crate) beyond: u32,
}

/// Whether two stones of the side or more stand within four places of the point on its line. Else no two gaps from its stone have
/// stones enough beside them.
#[inline(always)]
pub(crate) fn has_two_near(board: &Board, side: Side, axis: Axis, p: Point) -> bool
    requires on { IsTrue (is_on board.now p) }
    ensures none { result ≡ false → (x : Point) → ¬ IsGapOn board.now side axis p x }
    ensures board { IsBoard board.now }
{
    let bits = u64::from(board.line_through(side, axis, p));
    let near = bits << 4 >> place_on(axis, p) & NEAR_PLACES;
    near.count_ones() >= 2
}

/// What stands from `p` in that way, where the stones are those of the side.
#[inline(always)]
pub(crate) fn gaps_from(board: &Board, side: Side, axis: Axis, way: Way, p: Point) -> Gaps
    requires on { IsTrue (is_on board.now p) }
    ensures gaps { TellsGaps board.now side axis way p result }
    ensures near_bound { result.near < 64 }
    ensures between_bound { result.between < 64 }
    ensures beyond_bound { result.beyond < 64 }
{
    let near = board.stones_towards(way, side, axis, p);
    match gap(board, side, axis, way, p, near) {
        None => Gaps {
            near,
            first: None,
            between: 0,
            second: None,
            beyond: 0,
        },
        Some(first) => past_gap(board, side, axis, way, near, first),
    }
}

/// The same where the stones next to the point and the first gap are known.
#[inline(always)]
fn past_gap(board: &Board, side: Side, axis: Axis, way: Way, near: u32, first: Point) -> Gaps
    requires on { IsTrue (is_on board.now first) }
    ensures near { result.near ≡ near }
    ensures first { result.first ≡ Some first }
    ensures between { result.between ≡ stones_towards_lem way board.now side axis first }
    ensures second { result.second ≡ next_gap_lem board.now side axis way first }
    ensures beyond { (r : Point) → result.second ≡ Some r → result.beyond ≡ stones_towards_lem way board.now side axis r }
    ensures between_bound { result.between < 64 }
    ensures beyond_bound { result.beyond < 64 }
{
    let between = board.stones_towards(way, side, axis, first);
    match gap(board, side, axis, way, first, between) {
        None => Gaps {
            near,
            first: Some(first),
            between,
            second: None,
            beyond: 0,
        },
        Some(second) => Gaps {
            near,
            first: Some(first),
            between,
            second: Some(second),
            beyond: board.stones_towards(way, side, axis, second),
        },
    }
}

/// The point past so many stones, which are those next to `p`, if it is on the board and empty.
#[inline(always)]
fn gap(board: &Board, side: Side, axis: Axis, way: Way, p: Point, stones: u32) -> Option<Point>
    requires on { IsTrue (is_on board.now p) }
    requires stones { stones ≡ stones_towards_lem way board.now side axis p }
    requires bound { stones < 64 }
    ensures gap { result ≡ next_gap_lem board.now side axis way p }
    ensures on { (q : Point) → result ≡ Some q → is_on board.now q ≡ true }
{
    match board.step_towards(way, axis, p, 1 + stones as u8) {
        None => None,
        Some(q) => { if board.is_empty(q) { Some(q) } else { None } }
    }
}
