//! One board.
//!
//! The cells stand in one vector in reading order. The numbers of stones are kept beside them, so that `count` and
//! `empties` look at no cell, and so are the lines as bits, so that what a whole line holds is told at once.
#![tactic(auto)]

ghost use Rattle.std.specs.Prelude.{◌≡◌, ◌↔◌, ◌≤◌, ◌<◌, ◌+◌, ◌*◌, pos, negsuc, ◌≤ℤ◌, ℕ, true, IsTrue, IfOk, if◌then◌else◌, replicate};
ghost use Rattle.std.specs.List.{find};
ghost use Rattle.game_rules.specs.declared.Side.{Side};
ghost use Rattle.game_rules.specs.declared.Point.{Point};
ghost use Rattle.game_rules.specs.Grid.{IsBoard, is_on, is_empty as is_empty_lem, holds as holds_lem, cell_at, put as put_lem, lift as lift_lem, look_at, step as step_lem, stones_of, empties_of, points_of, is_stone_of as is_stone_of_lem, point_of as point_of_lem, along as along_lem, shift as shift_lem};
ghost use Rattle.game_rules.specs.Shapes.{run_of, stone_at, stones_ahead as stones_ahead_lem, stones_behind as stones_behind_lem};
ghost use Rattle.game_rules.specs.Ways.{stones_towards as stones_towards_lem, towards as towards_lem};
ghost use Rattle.stone_board.specs.Order.{points_left, first_empty_from as first_empty_from_lem};
ghost use Rattle.stone_board.specs.Steps.{holds_stone, kept_on};
ghost use Rattle.stone_board.specs.Lines.{HasPointOnLine, TellsLine, line_of as line_of_lem};

use crate::ReadingOrder;
use crate::lines::{ALL_LINES, LINES, index_of, line_of, ones_towards, place_on, turn_all};
use crate::walks::steps_left;
use game_rules::{Axis, Cell, Look, MAX_SIDE, MIN_SIDE, Point, Side, Way};
use std::alloc::{AllocError, Global};
use std::marker::Model;

/// A board of cells.
#[derive(Drop)]
pub struct Board {
    width: u8,
    height: u8,
    cells: Vec<Cell>,
    black: u32,
    white: u32,
    lines: Vec<u32>,
}

impl Model for Board {
    ghost use Rattle.game_rules.specs.Grid.{Grid};
    ghost use Rattle.stone_board.specs.Kept.{IsKept};

    ghost Value = { Grid };

    ghost view = { λ b. record { width = b.width; height = b.height; cells = b.cells.items } };

    ghost invariant = { λ b. IsKept (record { width = b.width; height = b.height; cells = b.cells.items }) b.black b.white b.lines.items };
}

impl Board {
    /// A board of this width and height, each `MIN_SIDE` to `MAX_SIDE`, with no stone on it. `Err` says that memory ran out.
    pub fn empty(alloc: Global, width: u8, height: u8) -> Result<Board, AllocError>
        requires wide { MIN_SIDE ≤ width }
        requires width_fits { width ≤ MAX_SIDE }
        requires high { MIN_SIDE ≤ height }
        requires height_fits { height ≤ MAX_SIDE }
        ensures empty { IfOk result (λ b. b ≡ record { width = width; height = height; cells = replicate (width * height) Cell.Empty }) }
    {
        let cells = vec![in alloc; Cell::Empty; width as usize * height as usize]?;
        let lines = vec![in alloc; 0u32; ALL_LINES]?;
        Ok(Board {
            width,
            height,
            cells,
            black: 0,
            white: 0,
            lines,
        })
    }

    /// How many points a row has.
    pub fn width(&self) -> u8
        ensures width { result ≡ self.now.width }
        ensures board { IsBoard self.now }
    {
        self.width
    }

    /// How many rows there are.
    pub fn height(&self) -> u8
        ensures height { result ≡ self.now.height }
        ensures board { IsBoard self.now }
    {
        self.height
    }

    /// Whether the point is on the board.
    pub fn on(&self, p: Point) -> bool
        ensures on { result ≡ is_on self.now p }
    {
        p.x < self.width && p.y < self.height
    }

    /// What stands on each point of the board, in reading order.
    pub fn cells(&self) -> &[Cell]
        ensures cells { result.now ≡ self.now.cells }
    {
        self.cells.as_slice()
    }

    /// What stands on a point of the board.
    pub fn cell(&self, p: Point) -> Cell
        requires on { IsTrue (is_on self.now p) }
        ensures cell { result ≡ cell_at self.now p }
    {
        self.cells[p.y as usize * self.width as usize + p.x as usize]
    }

    /// Whether the point is on the board and empty.
    pub fn is_empty(&self, p: Point) -> bool
        ensures empty { result ≡ is_empty_lem self.now p }
        ensures board { IsBoard self.now }
    {
        p.x < self.width && p.y < self.height && matches!(self.cell(p), Cell::Empty)
    }

    /// Whether the point is on the board and holds a stone of the side.
    pub fn holds(&self, side: Side, p: Point) -> bool
        ensures holds { result ≡ holds_lem self.now side p }
    {
        self.on(p) && is_stone_of(side, self.cell(p))
    }

    /// Puts a stone of the side on an empty point.
    pub fn put(&mut self, p: Point, side: Side)
        requires empty { IsTrue (is_empty_lem self.old p) }
        ensures put { self.new ≡ put_lem self.old side p }
        ensures board { IsBoard self.old }
    {
        let place = p.y as usize * self.width as usize + p.x as usize;
        match side {
            Side::Black => {
                self.cells[place] = Cell::Black;
                self.black += 1;
                turn_all(&mut self.lines, Side::Black, p);
            }
            Side::White => {
                self.cells[place] = Cell::White;
                self.white += 1;
                turn_all(&mut self.lines, Side::White, p);
            }
        }
    }

    /// Puts a stone of the side on the point, where it is empty.
    pub fn put_if_empty(&mut self, p: Point, side: Side)
        ensures put { self.new ≡ if is_empty_lem self.old p then put_lem self.old side p else self.old }
    {
        if self.is_empty(p) {
            self.put(p, side);
        }
    }

    /// Takes the stone off a point that holds one.
    pub fn lift(&mut self, p: Point)
        requires stone { IsTrue (holds_stone self.old p) }
        ensures lift { self.new ≡ lift_lem self.old p }
        ensures board { IsBoard self.old }
    {
        let place = p.y as usize * self.width as usize + p.x as usize;
        match self.cells[place] {
            Cell::Empty => {}
            Cell::Black => {
                self.cells[place] = Cell::Empty;
                self.black -= 1;
                turn_all(&mut self.lines, Side::Black, p);
            }
            Cell::White => {
                self.cells[place] = Cell::Empty;
                self.white -= 1;
                turn_all(&mut self.lines, Side::White, p);
            }
        }
    }

    /// Takes all stones off. No memory is taken.
    pub fn clear(&mut self)
        ensures empty { self.new ≡ record self.old { cells = replicate (self.old.width * self.old.height) Cell.Empty } }
        ensures board { IsBoard self.old }
    {
        self.cells.fill(Cell::Empty);
        self.lines.fill(0);
        self.black = 0;
        self.white = 0;
    }

    /// How many stones of the side stand on the board.
    pub fn count(&self, side: Side) -> u32
        ensures count { result ≡ stones_of self.now side }
        ensures board { IsBoard self.now }
    {
        match side {
            Side::Black => self.black,
            Side::White => self.white,
        }
    }

    /// How many points are empty.
    pub fn empties(&self) -> u32
        ensures empties { result ≡ empties_of self.now }
    {
        self.width as u32 * self.height as u32 - self.black - self.white
    }

    /// The points of the board in reading order.
    pub fn points(&self) -> ReadingOrder
        ensures points { result ≡ points_of self.now }
        ensures board { IsBoard self.now }
    {
        ReadingOrder::new(self.width, self.height)
    }

    /// The first empty point at or after `p` in reading order, going on at the first point of the board. `None` says
    /// that the board is full.
    pub fn first_empty_from(&self, p: Point) -> Option<Point>
        requires on { IsTrue (is_on self.now p) }
        ensures first { result ≡ first_empty_from_lem self.now p }
    {
        match self.first_empty(ReadingOrder::from(self.width, self.height, p)) {
            Some(found) => Some(found),
            None => self.first_empty(self.points()),
        }
    }

    /// The first empty point of an order.
    fn first_empty(&self, order: ReadingOrder) -> Option<Point>
        ensures first { result ≡ find (is_empty_lem self.now) order }
    {
        for p in order {
            if self.is_empty(p) {
                return Some(p);
            }
        }
        None
    }

    /// The point `ahead` steps ahead on the axis and `back` steps back again, if it is on the board.
    #[inline(always)]
    pub fn along(&self, p: Point, axis: Axis, ahead: u8, back: u8) -> Option<Point>
        requires on { IsTrue (is_on self.now p) }
        requires ahead { ahead < 128 }
        requires back { back < 128 }
        ensures along { result ≡ kept_on self.now (along_lem axis p ahead back) }
    {
        let _ = &self.width;
        let q = moved(p, axis, ahead, back)?;
        if self.on(q) { Some(q) } else { None }
    }

    /// The point `k` steps along the axis, backwards where `k` is below 0, if it is on the board.
    pub fn step(&self, p: Point, axis: Axis, k: i8) -> Option<Point>
        requires on { IsTrue (is_on self.now p) }
        requires back { negsuc 64 ≤ℤ k }
        requires ahead { k ≤ℤ pos 64 }
        ensures step { result ≡ kept_on self.now (step_lem axis p k) }
    {
        if k < 0 {
            self.along(p, axis, 0, k.unsigned_abs())
        } else {
            self.along(p, axis, k as u8, 0)
        }
    }

    /// What stands `k` steps along the axis, backwards where `k` is below 0.
    pub fn at(&self, p: Point, axis: Axis, k: i8) -> Look
        requires on { IsTrue (is_on self.now p) }
        requires back { negsuc 5 ≤ℤ k }
        requires ahead { k ≤ℤ pos 6 }
        ensures look { result ≡ look_at self.now (step_lem axis p k) }
    {
        match self.step(p, axis, k) {
            None => Look::Off,
            Some(q) => Look::Holds(self.cell(q)),
        }
    }

    /// The numbers of the lines of the axis that have a point of the board, from the first to the one past the last.
    #[tactic(auto, using(crate::proofs::LinePoints::line_points))]
    pub fn lines(&self, axis: Axis) -> (u8, u8)
        ensures covers { (p : Point) → is_on self.now p ≡ true → (result.0 ≤ line_of_lem axis p) × (line_of_lem axis p < result.1) }
        ensures only { (n : ℕ) → result.0 ≤ n → n < result.1 → HasPointOnLine self.now axis n }
        ensures bound { result.1 ≤ LINES }
        ensures board { IsBoard self.now }
    {
        match axis {
            Axis::Row => (0, self.height),
            Axis::Column => (0, self.width),
            Axis::Down => (MAX_SIDE - self.height, MAX_SIDE - 1 + self.width),
            Axis::Up => (0, self.width + self.height - 1),
        }
    }

    /// The stones of the side on line `n` of the axis, below `LINES`, as bits: bit `place_on(axis, p)` is set exactly where the side
    /// has a stone on the point `p` of the line. Of bits that are no point's it says nothing.
    #[inline(always)]
    pub fn line(&self, side: Side, axis: Axis, n: u8) -> u32
        requires line { n < LINES }
        ensures tells { TellsLine self.now side axis n result }
        ensures board { IsBoard self.now }
    {
        self.lines[index_of(side, axis, n)]
    }

    /// The same of the line on the axis through a point of the board.
    #[inline(always)]
    pub fn line_through(&self, side: Side, axis: Axis, p: Point) -> u32
        requires on { IsTrue (is_on self.now p) }
        ensures tells { TellsLine self.now side axis (line_of_lem axis p) result }
        ensures board { IsBoard self.now }
    {
        let _ = &self.width;
        self.line(side, axis, line_of(axis, p))
    }

    /// How many stones of the side stand in an unbroken row next to the point, ahead of it on the axis, whatever stands
    /// on the point.
    pub fn stones_ahead(&self, side: Side, axis: Axis, p: Point) -> u32
        requires on { IsTrue (is_on self.now p) }
        ensures stones { result ≡ stones_ahead_lem self.now side axis p }
        ensures bound { result < 64 }
    {
        self.stones_towards(Way::Ahead, side, axis, p)
    }

    /// The same behind the point.
    pub fn stones_behind(&self, side: Side, axis: Axis, p: Point) -> u32
        requires on { IsTrue (is_on self.now p) }
        ensures stones { result ≡ stones_behind_lem self.now side axis p }
        ensures bound { result < 64 }
    {
        self.stones_towards(Way::Behind, side, axis, p)
    }

    /// How many stones of the side stand in an unbroken row next to the point in one way along the axis, whatever stands
    /// on the point.
    #[inline(always)]
    pub fn stones_towards(&self, way: Way, side: Side, axis: Axis, p: Point) -> u32
        requires on { IsTrue (is_on self.now p) }
        ensures stones { result ≡ stones_towards_lem way self.now side axis p }
        ensures bound { result < 64 }
        ensures board { IsBoard self.now }
    {
        let bits = self.line_through(side, axis, p);
        let ones = ones_towards(way, bits, place_on(axis, p));
        let most = steps_left(way, axis, self.width(), self.height(), p);
        ones.min(u32::from(most))
    }

    /// The point so many steps from the point in one way along the axis, if it is on the board.
    #[inline(always)]
    pub fn step_towards(&self, way: Way, axis: Axis, p: Point, k: u8) -> Option<Point>
        requires on { IsTrue (is_on self.now p) }
        requires near { k ≤ 64 }
        ensures step { result ≡ kept_on self.now (towards_lem way axis p k) }
    {
        match way {
            Way::Ahead => self.along(p, axis, k, 0),
            Way::Behind => self.along(p, axis, 0, k),
        }
    }

    /// How many stones of its side stand unbroken through a stone along the axis, itself included.
    pub fn run(&self, p: Point, axis: Axis) -> u32
        requires stone { IsTrue (holds_stone self.now p) }
        ensures run { (s : Side) → holds_lem self.now s p ≡ true → result ≡ run_of self.now s axis p }
    {
        let side = match self.cell(p) {
            Cell::White => Side::White,
            _ => Side::Black,
        };
        1 + self.stones_ahead(side, axis, p) + self.stones_behind(side, axis, p)
    }

    /// A copy of the board. `Err` says that memory ran out.
    pub fn copy(&self) -> Result<Board, AllocError>
        ensures copy { IfOk result (λ b. b ≡ self.now) }
    {
        let cells = Vec::from_slice(*self.cells.allocator(), self.cells.as_slice())?;
        let lines = Vec::from_slice(*self.lines.allocator(), self.lines.as_slice())?;
        Ok(Board {
            width: self.width,
            height: self.height,
            cells,
            black: self.black,
            white: self.white,
            lines,
        })
    }

    /// Whether the other board has the same width, height and cells.
    pub fn same(&self, other: &Board) -> bool
        ensures same { IsTrue result ↔ (self.now ≡ other.now) }
    {
        if self.width != other.width || self.height != other.height {
            return false;
        }
        self.cells == other.cells
    }
}

/// The point `ahead` steps ahead on the axis and `back` steps back again, if its coordinates are not below 0.
#[inline(always)]
fn moved(p: Point, axis: Axis, ahead: u8, back: u8) -> Option<Point>
    requires column { p.x < 64 }
    requires row { p.y < 64 }
    requires ahead { ahead < 128 }
    requires back { back < 128 }
    ensures along { result ≡ along_lem axis p ahead back }
{
    match axis {
        Axis::Row => point_of(shifted(p.x, ahead, back), Some(p.y)),
        Axis::Column => point_of(Some(p.x), shifted(p.y, ahead, back)),
        Axis::Down => point_of(shifted(p.x, ahead, back), shifted(p.y, ahead, back)),
        Axis::Up => point_of(shifted(p.x, ahead, back), shifted(p.y, back, ahead)),
    }
}

/// The point with these coordinates, if there are both.
fn point_of(x: Option<u8>, y: Option<u8>) -> Option<Point>
    ensures point { result ≡ point_of_lem x y }
{
    Some(Point { x: x?, y: y? })
}

/// The number `ahead` steps up from `n` and `back` steps down again, unless that is below 0.
fn shifted(n: u8, ahead: u8, back: u8) -> Option<u8>
    requires small { n < 64 }
    requires ahead { ahead < 128 }
    ensures shifted { result ≡ shift_lem n ahead back }
{
    if back <= n + ahead {
        Some(n + ahead - back)
    } else {
        None
    }
}

/// Whether the cell holds a stone of the side.
fn is_stone_of(side: Side, cell: Cell) -> bool
    ensures stone { result ≡ is_stone_of_lem side cell }
{
    match cell {
        Cell::Empty => false,
        Cell::Black => matches!(side, Side::Black),
        Cell::White => matches!(side, Side::White),
    }
}
