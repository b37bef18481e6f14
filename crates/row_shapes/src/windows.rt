//! Windows: five places in a row on a line of which four hold stones of a side and the fifth is free.
//!
//! A stone that makes a winning run fills a window of its line, whatever the rule. So a line without one is passed over: its bits
//! tell that at once, where walks from each of its points would take many steps. A line with one is looked at point by point, since
//! a place off the board looks free, and a run may be too long to win.
//!
//! Four of five places in a row have two pairs of neighbours, one or three places apart: most lines show no such pairs in the bits of
//! the side, and are passed over before the bits of the other side are read.
#![tactic(auto)]

ghost use Rattle.std.specs.Prelude.{◌≡◌, ◌↔◌, ◌<◌, ℕ, false, true, None, IsTrue};
ghost use Rattle.std.specs.Int.{bit_at};
ghost use Rattle.game_rules.specs.Grid.{IsBoard, is_on, is_empty};
ghost use Rattle.game_rules.specs.Shapes.{wins_on};
ghost use Rattle.game_rules.specs.declared.Point.{Point};
ghost use Rattle.game_rules.specs.declared.RuleKind.{RuleKind};
ghost use Rattle.game_rules.specs.declared.Way.{Way};
ghost use Rattle.stone_board.specs.Lines.{line_of as line_of_lem};
ghost use Rattle.row_shapes.specs.FiveEnds.{end_five};
ghost use Rattle.row_shapes.specs.Windows.{HasRow, IsWindow, IsPassed, AreLinesOn, AreWindowLines};

use stone_board::{Axis, Board, LINES, MAX_SIDE, Point, Side, bit_of_place, line_of, place_on};

/// The places from which a window begins on a line, by the bits of the side and of the other.
#[inline(always)]
fn windows(own: u32, theirs: u32) -> u32
    ensures windows { (i j : ℕ) → IsWindow own theirs i j → bit_at result i ≡ 1 }
    ensures only { (i : ℕ) → bit_at result i ≡ 1 → (j : ℕ) × IsWindow own theirs i j }
{
    let free = !(own | theirs);
    let first = own >> 1;
    let second = own >> 2;
    let third = own >> 3;
    let fourth = own >> 4;
    (first & second & third & fourth & free)
        | (own & second & third & fourth & (free >> 1))
        | (own & first & third & fourth & (free >> 2))
        | (own & first & second & fourth & (free >> 3))
        | (own & first & second & third & (free >> 4))
}

/// Whether the bits may hold four of five places in a row: they have two pairs of neighbours, one or three places apart.
#[inline(always)]
fn may_hold_four(own: u32) -> bool
    ensures none { result ≡ false → (theirs i j : ℕ) → ¬ IsWindow own theirs i j }
{
    let pairs = own & (own >> 1);
    pairs & ((pairs >> 1) | (pairs >> 3)) != 0
}

/// Whether line `n` of the axis has a window of the side, and so may have a point where its stone wins.
#[inline(always)]
fn line_may_win(board: &Board, side: Side, axis: Axis, n: u8) -> bool
    requires line { n < LINES }
    ensures none { result ≡ false → (rule : RuleKind) (q : Point) → line_of_lem axis q ≡ n → wins_on rule board.now side axis q ≡ false }
{
    let own = board.line(side, axis, n);
    may_hold_four(own) && windows(own, board.line(side.other(), axis, n)) != 0
}

/// The same of the line on the axis through a point.
#[inline(always)]
pub(crate) fn line_through_may_win(board: &Board, side: Side, axis: Axis, p: Point) -> bool
    requires on { IsTrue (is_on board.now p) }
    ensures none { result ≡ false → (rule : RuleKind) (q : Point) → line_of_lem axis q ≡ line_of_lem axis p
        → wins_on rule board.now side axis q ≡ false }
    ensures board { IsBoard board.now }
{
    // This tells that the board is one, so that the point's line has a number.
    let _ = board.width();
    line_may_win(board, side, axis, line_of(axis, p))
}

/// Whether the line on the axis through a point has five in a row once a stone of the side stands there, and so may win.
#[inline(always)]
pub(crate) fn may_win(board: &Board, side: Side, axis: Axis, p: Point) -> bool
    requires on { IsTrue (is_on board.now p) }
    ensures none { result ≡ false → (rule : RuleKind) → wins_on rule board.now side axis p ≡ false }
{
    has_row(board.line_through(side, axis, p) | bit_of_place(place_on(axis, p)))
}

/// Whether five places in a row are set.
#[inline(always)]
pub(crate) fn has_row(bits: u32) -> bool
    ensures row { IsTrue result ↔ HasRow bits }
{
    let two = bits & (bits >> 1);
    let four = two & (two >> 2);
    four & (bits >> 4) != 0
}

/// Whether the line on the axis through an empty point has a window of the side once its stone stands there, so that a further
/// stone may win.
#[inline(always)]
pub(crate) fn may_make_five(board: &Board, side: Side, axis: Axis, p: Point) -> bool
    requires empty { IsTrue (is_empty board.now p) }
    ensures none { result ≡ false → (rule : RuleKind) (way : Way) → end_five rule board.now side axis p way ≡ None }
    ensures board { IsBoard board.now }
{
    let own = board.line_through(side, axis, p) | bit_of_place(place_on(axis, p));
    may_hold_four(own) && windows(own, board.line_through(side.other(), axis, p)) != 0
}

/// The lines on which a side may win, on each axis: bit n tells of line n.
#[derive(Clone, Copy)]
pub(crate) struct WindowLines {
    row: u64,
    column: u64,
    down: u64,
    up: u64,
}

impl WindowLines {
    /// Whether there is such a line.
    #[inline(always)]
    pub(crate) fn some(self) -> bool
        ensures none { result ≡ false → (p : Point) → IsPassed self p }
    {
        self.row | self.column | self.down | self.up != 0
    }

    /// Whether such a line goes through the point, if it is on a board.
    #[inline(always)]
    pub(crate) fn hold(self, p: Point) -> bool
        ensures none { result ≡ false → p.x < MAX_SIDE → p.y < MAX_SIDE → IsPassed self p }
    {
        // These are the point's own, where it is on a board, so that the numbers of its lines need no test.
        let x = p.x & (MAX_SIDE - 1);
        let y = p.y & (MAX_SIDE - 1);
        let bits = (self.row >> y)
            | (self.column >> x)
            | (self.down >> (x + (MAX_SIDE - 1 - y)))
            | (self.up >> (x + y));
        bits & 1 == 1
    }
}

/// The lines of the board that have a window of the side: on no other does it win.
pub(crate) fn window_lines(board: &Board, side: Side) -> WindowLines
    ensures lines { AreWindowLines board.now side result }
{
    WindowLines {
        row: axis_windows(board, side, Axis::Row),
        column: axis_windows(board, side, Axis::Column),
        down: axis_windows(board, side, Axis::Down),
        up: axis_windows(board, side, Axis::Up),
    }
}

/// The same on one axis.
fn axis_windows(board: &Board, side: Side, axis: Axis) -> u64
    ensures lines { AreLinesOn board.now side axis result }
{
    let (first, past) = board.lines(axis);
    let mut found: u64 = 0;
    for n in first..past {
        if line_may_win(board, side, axis, n) {
            found |= 1 << n;
        }
    }
    found
}
