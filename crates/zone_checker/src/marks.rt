//! Zones as they are kept: a mark for each point of the board.
#![tactic(auto)]

ghost use Rattle.std.specs.Prelude.{◌≡◌, IsTrue, IfOk, MatchOption, map, length};
ghost use Rattle.game_rules.specs.Grid.{IsBoard, is_on, points_of};
ghost use Rattle.game_rules.specs.declared.Point.{Point as AnyPoint};
ghost use Rattle.zone_checker.specs.Marks.{room as room_lem, covered as covered_lem, kept_back as kept_back_lem, less as less_lem};
ghost use Rattle.zone_checker.specs.Marks.{mark_at as mark_at_lem, harms as harms_lem, spare_of, blank, is_full_through};
ghost use Rattle.zone_checker.specs.Marks.{AreCovered, AreOpened, HasFour, IsEntered, IsOpenedAt};

use std::alloc::{AllocError, Global};
use stone_board::{Axis, Board, Point, Side};

/// Any number of further stones: a window has five points.
pub(crate) const ANY: u8 = 9;

/// What a zone says at one point: whether it is a point of the zone, and how many further stones it bears in each of the four
/// windows that begin there.
#[derive(Clone, Copy)]
pub(crate) struct Mark {
    pub(crate) inside: bool,
    pub(crate) row: u8,
    pub(crate) column: u8,
    pub(crate) down: u8,
    pub(crate) up: u8,
}

/// Says nothing.
const BLANK: Mark = Mark {
    inside: false,
    row: ANY,
    column: ANY,
    down: ANY,
    up: ANY,
};

impl Mark {
    /// The number for the window along the axis.
    fn spare(self, axis: Axis) -> u8
        ensures spare { result ≡ spare_of axis self }
    {
        match axis {
            Axis::Row => self.row,
            Axis::Column => self.column,
            Axis::Down => self.down,
            Axis::Up => self.up,
        }
    }

    /// What both marks say: a point that is in either zone, and the lesser number of each window.
    fn covered(self, other: Mark) -> Mark
        ensures covered { result ≡ covered_lem self other }
    {
        Mark {
            inside: self.inside || other.inside,
            row: self.row.min(other.row),
            column: self.column.min(other.column),
            down: self.down.min(other.down),
            up: self.up.min(other.up),
        }
    }

    /// The mark with one stone kept back in each window.
    fn kept_back(self) -> Mark
        ensures kept_back { result ≡ kept_back_lem self }
    {
        Mark {
            inside: self.inside,
            row: less(self.row),
            column: less(self.column),
            down: less(self.down),
            up: less(self.up),
        }
    }
}

/// The number with one stone kept back, if it is limited.
fn less(spare: u8) -> u8
    ensures less { result ≡ less_lem spare }
{
    if spare >= ANY {
        spare
    } else {
        spare.saturating_sub(1)
    }
}

/// How many further stones of the other side the window bears where the side has just attacked: any number where it is not
/// clear of the side, and else up to three in all. `None` says that it has four already.
fn room(board: &Board, side: Side, axis: Axis, p: Point) -> Option<u8>
    requires on { IsTrue (is_on board.now p) }
    ensures room { result ≡ room_lem board.now side axis p }
{
    let mut stones: u8 = 0;
    for k in 0..5u8 {
        let Some(q) = board.along(p, axis, k, 0) else {
            return Some(ANY);
        };
        if board.holds(side, q) {
            return Some(ANY);
        }
        if board.holds(side.other(), q) {
            stones += 1;
        }
    }
    if stones <= 3 { Some(3 - stones) } else { None }
}

/// The mark of a point of the board where the side has just attacked. `None` says that one of its windows has four stones of the
/// other side already.
fn opened_at(board: &Board, side: Side, p: Point) -> Option<Mark>
    requires on { IsTrue (is_on board.now p) }
    ensures opened { MatchOption result (HasFour board.now side) (IsOpenedAt board.now side p) }
{
    let row = room(board, side, Axis::Row, p)?;
    let column = room(board, side, Axis::Column, p)?;
    let down = room(board, side, Axis::Down, p)?;
    let up = room(board, side, Axis::Up, p)?;
    Some(Mark {
        inside: false,
        row,
        column,
        down,
        up,
    })
}

/// The marks of a board where the side has just attacked, by all its points. `None` says that a window has four stones of the other
/// side already.
pub(crate) fn opened(
    alloc: Global,
    board: &Board,
    points: &[Point],
    side: Side,
) -> Result<Option<Vec<Mark>>, AllocError>
    requires points { points.now ≡ points_of board.now }
    ensures opened { IfOk result (λ o. MatchOption o (HasFour board.now side) (λ marks. AreOpened board.now side marks.items)) }
    ensures board { IsBoard board.now }
{
    let mut marks = Vec::with_capacity(alloc, board.width() as usize * board.height() as usize)?;
    for p in points {
        let Some(mark) = opened_at(board, side, *p) else {
            return Ok(None);
        };
        marks.push(mark)?;
    }
    Ok(Some(marks))
}

/// Marks of a board that say nothing.
pub(crate) fn blanks(alloc: Global, board: &Board) -> Result<Vec<Mark>, AllocError>
    ensures size { IfOk result (λ marks. length marks.items ≡ length board.now.cells) }
    ensures blanks { IfOk result (λ marks. (p : AnyPoint) → mark_at_lem board.now marks.items p ≡ blank) }
{
    vec![in alloc; BLANK; board.cells().len()]
}

/// Makes a point of the board a point of the zone.
pub(crate) fn enter(board: &Board, marks: &mut Vec<Mark>, p: Point)
    requires on { IsTrue (is_on board.now p) }
    requires size { length marks.old.items ≡ length board.now.cells }
    ensures entered { IsEntered board.now p marks.old.items marks.new.items }
{
    let width = board.width();
    let place = p.y as usize * width as usize + p.x as usize;
    marks[place].inside = true;
}

/// The mark at a point of the board.
fn mark_at(board: &Board, marks: &[Mark], p: Point) -> Mark
    requires on { IsTrue (is_on board.now p) }
    requires size { length marks.now ≡ length board.now.cells }
    ensures mark { result ≡ mark_at_lem board.now marks.now p }
{
    let width = board.width();
    marks[p.y as usize * width as usize + p.x as usize]
}

/// Whether a window through a point of the board along the axis bears no stone more.
fn is_full(board: &Board, marks: &[Mark], axis: Axis, q: Point) -> bool
    requires on { IsTrue (is_on board.now q) }
    requires size { length marks.now ≡ length board.now.cells }
    ensures full { result ≡ is_full_through board.now marks.now axis q }
{
    for k in 0..5u8 {
        if let Some(p) = board.along(q, axis, 0, k) {
            if mark_at(board, marks, p).spare(axis) == 0 {
                return true;
            }
        }
    }
    false
}

/// Whether a stone on a point of the board does harm: it is a point of the zone, or in a window that bears no stone more.
pub(crate) fn harms(board: &Board, marks: &[Mark], q: Point) -> bool
    requires on { IsTrue (is_on board.now q) }
    requires size { length marks.now ≡ length board.now.cells }
    ensures harms { result ≡ harms_lem board.now marks.now q }
{
    mark_at(board, marks, q).inside
        || is_full(board, marks, Axis::Row, q)
        || is_full(board, marks, Axis::Column, q)
        || is_full(board, marks, Axis::Down, q)
        || is_full(board, marks, Axis::Up, q)
}

/// Makes marks say what others say too.
pub(crate) fn cover(marks: &mut Vec<Mark>, others: &[Mark])
    requires size { length others.now ≡ length marks.old.items }
    ensures covered { AreCovered marks.old.items others.now marks.new.items }
{
    for i in 0..marks.len() {
        marks[i] = marks[i].covered(others[i]);
    }
}

/// The same with one stone kept back of the others, in each window.
pub(crate) fn cover_back(marks: &mut Vec<Mark>, others: &[Mark])
    requires size { length others.now ≡ length marks.old.items }
    ensures covered { AreCovered marks.old.items (map kept_back_lem others.now) marks.new.items }
{
    for i in 0..marks.len() {
        marks[i] = marks[i].covered(others[i].kept_back());
    }
}
