//! The rules of five in a row: the plain types that every layer speaks of, and, in `specs/`, the definitions of
//! boards, runs, fives, fours, threes, fouls, outcomes, lawful positions and won games.
//!
//! The crate computes nothing but the other side, the other way, and how two points stand to each other. What it offers to the
//! layers above are these types, the words of its `specs/`, and the laws about those words: the main ones as contracts, all of them
//! in its `proofs/Lib.antt`.
//!
//! Sources: the RIF Rules of Renju for fours, straight fours, threes, overlines and the fouls of Black. Which
//! double-threes stand is this program's own rule: an axis counts as a three where it has a three point at which Black
//! has no foul by the same definition, on the board with the stone. Wins by fours and by threats are those of Allis, van
//! den Herik and Huntjens, "Go-Moku and Threat-Space Search".
#![tactic(auto)]

mod laws;

pub use laws::{moves_continue, tests_tell, wins_are_ordered};

/// The least width and height of a board.
pub const MIN_SIDE: u8 = 5;

/// The greatest width and height of a board.
pub const MAX_SIDE: u8 = 32;

/// A player. Black moves first.
#[derive(Clone, Copy, Debug, PartialEq, Eq)]
pub enum Side {
    Black,
    White,
}

impl Side {
    ghost use Rattle.std.specs.Prelude.{◌≡◌};
    ghost use Rattle.game_rules.specs.Play.{other as other_lem};

    /// The other side.
    pub fn other(self) -> Side
        ensures other { result ≡ other_lem self }
    {
        match self {
            Side::Black => Side::White,
            Side::White => Side::Black,
        }
    }
}

/// What stands on a point of the board.
#[derive(Clone, Copy, Debug, PartialEq, Eq)]
pub enum Cell {
    Empty,
    Black,
    White,
}

/// One of the four directions in which stones can stand in a row. A step on `Row` adds 1 to x, on `Column` 1 to y,
/// on `Down` 1 to both, on `Up` 1 to x and takes 1 from y.
#[derive(Clone, Copy, Debug, PartialEq, Eq)]
pub enum Axis {
    Row,
    Column,
    Down,
    Up,
}

/// The two ways along an axis from a point: a step ahead adds what the axis says, a step behind takes it away.
#[derive(Clone, Copy, Debug, PartialEq, Eq)]
pub enum Way {
    Ahead,
    Behind,
}

impl Way {
    ghost use Rattle.std.specs.Prelude.{◌≡◌};
    ghost use Rattle.game_rules.specs.Ways.{opposite as opposite_lem};

    /// The other way.
    pub fn opposite(self) -> Way
        ensures opposite { result ≡ opposite_lem self }
    {
        match self {
            Way::Ahead => Way::Behind,
            Way::Behind => Way::Ahead,
        }
    }
}

/// A point: its column `x` and its row `y`, both counted from 0. Reading order is by y, then by x.
#[derive(Clone, Copy, Debug, Default, PartialEq, Eq, Hash)]
pub struct Point {
    pub x: u8,
    pub y: u8,
}

impl Point {
    ghost use Rattle.std.specs.Prelude.{◌≡◌};
    ghost use Rattle.game_rules.specs.Shapes.{is_same_point};
    ghost use Rattle.game_rules.specs.Lines.{is_aligned as is_aligned_lem};
    ghost use Rattle.game_rules.specs.Points.{precedes as precedes_lem};

    /// Whether it is that point.
    #[inline(always)]
    pub fn is(self, other: Point) -> bool
        ensures same { result ≡ is_same_point self other }
    {
        self.x == other.x && self.y == other.y
    }

    /// Whether it comes before that point in reading order.
    #[inline(always)]
    pub fn precedes(self, other: Point) -> bool
        ensures precedes { result ≡ precedes_lem self other }
    {
        self.y < other.y || self.y == other.y && self.x < other.x
    }

    /// Whether the two points are on one line of some axis. They need be on no board.
    #[inline(always)]
    pub fn is_aligned(self, other: Point) -> bool
        ensures aligned { result ≡ is_aligned_lem self other }
    {
        let (x, y) = (u16::from(self.x), u16::from(self.y));
        let (other_x, other_y) = (u16::from(other.x), u16::from(other.y));
        other_y == y || other_x == x || other_x + y == x + other_y || other_x + other_y == x + y
    }
}

/// What a look at a place finds: a place off the board, or a point and what stands on it.
#[derive(Clone, Copy, Debug, PartialEq, Eq)]
pub enum Look {
    Off,
    Holds(Cell),
}

/// The three rules of play. Under `Freestyle` five or more in a row win, under `Exact` exactly five; under `Renju`
/// Black wins with exactly five and has fouls, and White wins with five or more.
#[derive(Clone, Copy, Debug, PartialEq, Eq)]
pub enum RuleKind {
    Freestyle,
    Exact,
    Renju,
}

/// Why a move of Black is forbidden under renju, asked in this order. A move that makes exactly five is no foul.
#[derive(Clone, Copy, Debug, PartialEq, Eq)]
pub enum Foul {
    Overline,
    DoubleFour,
    DoubleThree,
}

/// What becomes of a move, the first that applies in this order: it is no move (`Refused`), it wins, it fouls and so
/// loses, it fills the board, or the game goes on. So a foul on the last empty point is a foul and no draw.
#[derive(Clone, Copy, Debug, PartialEq, Eq)]
pub enum Outcome {
    Refused,
    Wins,
    Fouls(Foul),
    Draws,
    GoesOn,
}
