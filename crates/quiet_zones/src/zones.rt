//! Zones remembered: the marks of each, one list behind another, and which pair of a node and a board has which zone.
//!
//! A zone is told by its number, so that nothing is copied and a look is an index. There is room for so many marks; where it ends all
//! is forgotten between two questions, never in the midst of one.
#![tactic(auto)]

use crate::marks::{BLANK, Mark, opened_at, place_of};
use crate::{MOST_MARKS, REMEMBERED};
use position_table::{PackedPosition, WholeTable};
use row_shapes::Rule;
use std::alloc::{AllocError, Global};
use std::marker::PhantomData;
use stone_board::{Axis, Board, Point, Points, Side};

/// The zones of the pairs that were looked at.
#[derive(Drop)]
pub struct Zones<R: Rule> {
    pub(crate) alloc: Global,
    pub(crate) side: Side,
    /// How many points the board has: so many marks has each zone.
    pub(crate) size: usize,
    pub(crate) marks: Vec<Mark>,
    /// The zone of a board and a node, as tag; `None` says that it has none.
    pub(crate) known: WholeTable<Option<u32>>,
    pub(crate) rule: PhantomData<R>,
}

impl<R: Rule> Zones<R> {
    /// No zone is known of this attacker on boards of so many points.
    pub fn new(alloc: Global, side: Side, size: usize) -> Result<Zones<R>, AllocError> {
        Ok(Zones {
            alloc,
            side,
            size,
            marks: Vec::new(alloc),
            known: WholeTable::new(alloc, REMEMBERED)?,
            rule: PhantomData,
        })
    }

    /// Forgets all where the room for marks has ended.
    pub(crate) fn forget_if_full(&mut self) -> Result<(), AllocError> {
        if self.marks.len() > MOST_MARKS {
            self.known = WholeTable::new(self.alloc, REMEMBERED)?;
            self.marks.truncate(0);
        }
        Ok(())
    }

    /// The first place of a zone.
    pub(crate) fn start_of(&self, zone: u32) -> usize {
        (zone as usize).saturating_mul(self.size)
    }

    /// The number of the zone that is made next.
    fn next_zone(&self) -> u32 {
        let made = if self.size == 0 {
            0
        } else {
            self.marks.len() / self.size
        };
        u32::try_from(made).unwrap_or(u32::MAX)
    }

    /// Where the mark of a point stands in a zone.
    fn place_in(&self, board: &Board, zone: u32, p: Point) -> usize {
        self.start_of(zone)
            .saturating_add(place_of(board.width(), p))
    }

    /// A new zone that says nothing.
    pub(crate) fn push_blank(&mut self) -> Result<u32, AllocError> {
        let zone = self.next_zone();
        let end = self.marks.len().saturating_add(self.size);
        self.marks.resize(end, BLANK)?;
        Ok(zone)
    }

    /// The zone of a board where the attacker has just attacked, before any reply. `None` says that a window has four stones of the
    /// other side already.
    pub(crate) fn push_opened(&mut self, board: &Board) -> Result<Option<u32>, AllocError> {
        let zone = self.next_zone();
        let before = self.marks.len();
        for p in board.points() {
            let mark = if board.on(p) {
                opened_at(board, self.side, p)
            } else {
                None
            };
            match mark {
                Some(mark) => self.marks.push(mark)?,
                None => {
                    self.marks.truncate(before);
                    return Ok(None);
                }
            }
        }
        Ok(Some(zone))
    }

    /// Makes a point one of the zone.
    pub(crate) fn enter(&mut self, board: &Board, zone: u32, p: Point) {
        let place = self.place_in(board, zone, p);
        if place < self.marks.len() {
            self.marks[place].inside = true;
        }
    }

    /// Marks the points of the windows that bear no stone more, once the zone is made.
    pub(crate) fn fill_windows(&mut self, board: &Board, zone: u32) {
        for p in board.points() {
            let place = self.place_in(board, zone, p);
            if place < self.marks.len() {
                let mark = self.marks[place];
                self.fill_window(board, zone, Axis::Row, p, mark.row);
                self.fill_window(board, zone, Axis::Column, p, mark.column);
                self.fill_window(board, zone, Axis::Down, p, mark.down);
                self.fill_window(board, zone, Axis::Up, p, mark.up);
            }
        }
    }

    /// Marks the points of the window along the axis that begins at the point, where it bears no stone more.
    fn fill_window(&mut self, board: &Board, zone: u32, axis: Axis, p: Point, spare: u8) {
        if spare > 0 || !board.on(p) {
            return;
        }
        for k in 0..5u8 {
            if let Some(q) = board.along(p, axis, k, 0) {
                let place = self.place_in(board, zone, q);
                if place < self.marks.len() {
                    self.marks[place].full = true;
                }
            }
        }
    }

    /// Makes a zone say what another says too; with one stone kept back of the other, where it is that of the rest after a pass.
    pub(crate) fn cover(&mut self, zone: u32, other: u32, back: bool) {
        let to = self.start_of(zone);
        let from = self.start_of(other);
        for k in 0..self.size {
            let place = to.saturating_add(k);
            let source = from.saturating_add(k);
            if place < self.marks.len() && source < self.marks.len() {
                let mark = self.marks[source];
                let more = if back { mark.kept_back() } else { mark };
                self.marks[place] = self.marks[place].covered(more);
            }
        }
    }

    /// What is known of the zone of the node at the board.
    pub(crate) fn find(&mut self, board: &Board, node: u32) -> Option<Option<u32>> {
        self.known.find(&PackedPosition::of(board), node)
    }

    /// Keeps the zone of the node at the board.
    pub(crate) fn keep(
        &mut self,
        board: &Board,
        node: u32,
        zone: Option<u32>,
    ) -> Result<(), AllocError> {
        self.known.keep(PackedPosition::of(board), node, zone)
    }

    /// Whether a stone on the point does harm to the zone; past the end of the marks none does.
    pub(crate) fn is_harmed(&self, board: &Board, zone: u32, q: Point) -> bool {
        let place = self.place_in(board, zone, q);
        place < self.marks.len() && self.marks[place].is_harmed()
    }

    /// The empty points on which a stone does harm to the zone, in reading order.
    pub fn harmful(&self, board: &Board, zone: u32) -> Result<Points, AllocError> {
        let mut points = Points::new(self.alloc);
        for q in board.points() {
            if board.is_empty(q) && self.is_harmed(board, zone, q) {
                points.push(q)?;
            }
        }
        Ok(points)
    }
}
