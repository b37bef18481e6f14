//! Marks of zones: what a zone says at one point, and whether a stone there does harm to it.
//!
//! A zone is a list of marks, one for each point of the board in reading order.
#![tactic(auto)]

ghost use Rattle.std.specs.Prelude.{IsTrue};
ghost use Rattle.game_rules.specs.Grid.{is_on};

use stone_board::{Axis, Board, Point, Side, Way, place_on, steps_left};

/// Any number of further stones: a window has five points.
pub(crate) const ANY: u8 = 9;

/// The bits of the five places of a window that begins at the first.
const WINDOW: u32 = 31;

/// What a zone says at one point: whether it is a point of the zone, how many further stones it bears in each of the four windows
/// that begin there, and, once the zone is made, whether the point is in a window that bears none.
#[derive(Clone, Copy)]
pub(crate) struct Mark {
    pub(crate) inside: bool,
    pub(crate) full: bool,
    pub(crate) row: u8,
    pub(crate) column: u8,
    pub(crate) down: u8,
    pub(crate) up: u8,
}

/// Says nothing.
pub(crate) const BLANK: Mark = Mark {
    inside: false,
    full: false,
    row: ANY,
    column: ANY,
    down: ANY,
    up: ANY,
};

impl Mark {
    /// Whether a stone on the point does harm: it is a point of the zone, or in a window that bears no stone more.
    pub(crate) fn is_harmed(self) -> bool {
        self.inside || self.full
    }

    /// What both marks say: a point that is in either zone, and the lesser number of each window.
    pub(crate) fn covered(self, other: Mark) -> Mark {
        Mark {
            inside: self.inside || other.inside,
            full: false,
            row: self.row.min(other.row),
            column: self.column.min(other.column),
            down: self.down.min(other.down),
            up: self.up.min(other.up),
        }
    }

    /// The mark with one stone kept back in each window.
    pub(crate) fn kept_back(self) -> Mark {
        Mark {
            inside: self.inside,
            full: false,
            row: less(self.row),
            column: less(self.column),
            down: less(self.down),
            up: less(self.up),
        }
    }
}

/// The number with one stone kept back, if it is limited.
fn less(spare: u8) -> u8 {
    spare.saturating_sub(u8::from(spare < ANY))
}

/// How many further stones of the other side the window bears where the side has just attacked: any number where it is not
/// clear of the side, and else up to three in all. `None` says that it has four already.
fn room(board: &Board, side: Side, axis: Axis, p: Point) -> Option<u8>
    requires on { IsTrue (is_on board.now p) }
{
    if steps_left(Way::Ahead, axis, board.width(), board.height(), p) < 4 {
        return Some(ANY);
    }
    let place = place_on(axis, p);
    if board.line_through(side, axis, p) >> place & WINDOW != 0 {
        return Some(ANY);
    }
    let others = board.line_through(side.other(), axis, p) >> place & WINDOW;
    let stones = others.count_ones();
    if stones <= 3 {
        Some(3 - stones as u8)
    } else {
        None
    }
}

/// The mark of a point of the board where the side has just attacked. `None` says that one of its windows has four stones of the
/// other side already.
pub(crate) fn opened_at(board: &Board, side: Side, p: Point) -> Option<Mark>
    requires on { IsTrue (is_on board.now p) }
{
    let row = room(board, side, Axis::Row, p)?;
    let column = room(board, side, Axis::Column, p)?;
    let down = room(board, side, Axis::Down, p)?;
    let up = room(board, side, Axis::Up, p)?;
    Some(Mark {
        inside: false,
        full: false,
        row,
        column,
        down,
        up,
    })
}

/// The place of a point in reading order on a board of this width.
pub(crate) fn place_of(width: u8, p: Point) -> usize {
    p.y as usize * width as usize + p.x as usize
}
