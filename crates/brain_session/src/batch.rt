//! The position that BOARD sends stone by stone.
//!
//! The stones are kept in the order in which they come. A bad line spoils the whole batch, which is answered at its end. Room
//! for the largest batch is taken once, when the brain begins.
#![tactic(auto)]

ghost use Rattle.std.specs.Prelude.{◌≡◌, ◌≤◌, ◌<◌, [], Some, None, false, IfOk, IfSome, IsSome, length, MatchOption, is_some};
ghost use Rattle.std.specs.Option.{option_map};
ghost use Rattle.game_rules.specs.declared.TheConstants.{MIN_SIDE, MAX_SIDE};
ghost use Rattle.brain_session.specs.Running.{StonesFit};
ghost use Rattle.brain_session.specs.Batches.{colour_in as colour_in_lem, new_batch, spoiled, with_stone_at};
ghost use Rattle.brain_session.specs.Batches.{has_stone_at as has_stone_at_lem, side_of as side_of_lem, with_batch_stones};
ghost use Rattle.brain_session.specs.States.{empty_board};

use crate::MAX_POINTS;
use game_rules::{Point, Side};
use std::alloc::{AllocError, Global};
use std::marker::Model;
use stone_board::Board;

/// A stone of a batch: where it stands, and whether it is the brain's own.
#[derive(Clone, Copy)]
pub struct BatchStone {
    pub at: Point,
    pub own: bool,
}

/// The batch that is read, if one is, with room for the largest. Contracts see it as that.
#[derive(Drop)]
pub(crate) struct BatchReader {
    stones: Vec<BatchStone>,
    bad: bool,
    reading: bool,
}

impl Model for BatchReader {
    ghost use Rattle.std.specs.Prelude.{Option, Some, None, if◌then◌else◌, ◌≤◌, vec_capacity};
    ghost use Rattle.brain_session.specs.declared.TheConstants.{MAX_POINTS};
    ghost use Rattle.brain_session.specs.States.{Batch as BatchValue};

    ghost Value = { Option BatchValue };

    ghost view = { λ b. if b.reading then Some (record { stones = b.stones.items; bad = b.bad }) else None };

    ghost invariant = { λ b. MAX_POINTS ≤ vec_capacity b.stones };
}

impl BatchReader {
    /// No batch is read, and there is room for a stone on each point of the largest board. `Err` says that memory ran out.
    pub(crate) fn new(alloc: Global) -> Result<BatchReader, AllocError>
        ensures none { IfOk result (λ b. b ≡ None) }
    {
        Ok(BatchReader {
            stones: Vec::with_capacity(alloc, MAX_POINTS)?,
            bad: false,
            reading: false,
        })
    }

    /// Whether a batch is read.
    pub(crate) fn is_read(&self) -> bool
        ensures read { result ≡ is_some self.now }
    {
        self.reading
    }

    /// Begins a new batch with no stones.
    pub(crate) fn begin(&mut self)
        ensures begun { self.new ≡ Some new_batch }
    {
        self.stones.clear();
        self.bad = false;
        self.reading = true;
    }

    /// Ends the batch, if one is read.
    pub(crate) fn end(&mut self)
        ensures ended { self.new ≡ None }
    {
        self.reading = false;
    }

    /// A line was bad.
    pub(crate) fn spoil(&mut self)
        ensures spoiled { self.new ≡ option_map spoiled self.old }
    {
        self.bad = true;
    }

    /// Whether a line was bad.
    pub(crate) fn is_bad(&self) -> bool
        ensures bad { IfSome self.now (λ b. result ≡ b.bad) }
    {
        self.bad
    }

    /// Adds a stone at this point, of the board or off it, with this third number, if it may be added, and else notes that the
    /// line was bad. It takes no memory: where the point is free, fewer stones than `MAX_POINTS` stand on others.
    pub(crate) fn add(&mut self, at: Option<Point>, field: u32)
        requires room { IfSome at (λ p. IfSome self.old (λ b. has_stone_at_lem b.stones p ≡ false → length b.stones < MAX_POINTS)) }
        requires read { IsSome self.old }
        ensures added { self.new ≡ option_map (λ b. with_stone_at b at field) self.old }
    {
        match at {
            Some(p) if (field == 1 || field == 2) && !has_stone_at(&self.stones, p) => {
                self.stones.push_reserved(BatchStone {
                    at: p,
                    own: field == 1,
                });
            }
            _ => self.bad = true,
        }
    }

    /// The stones of the batch, and none where no batch is read.
    fn stones(&self) -> &[BatchStone]
        ensures stones { MatchOption self.now (result.now ≡ []) (λ b. result.now ≡ b.stones) }
    {
        if self.reading {
            self.stones.as_slice()
        } else {
            &[]
        }
    }

    /// The brain's colour, where the numbers of stones say that it is to move.
    pub(crate) fn colour(&self) -> Option<Side>
        ensures colour { IfSome self.now (λ b. result ≡ colour_in_lem b.stones) }
    {
        colour_in(&self.stones)
    }

    /// The board of this size with the stones of the batch, where the brain has this colour. `Err` says that memory ran out.
    pub(crate) fn board(
        &self,
        alloc: Global,
        width: u8,
        height: u8,
        brain: Side,
    ) -> Result<Board, AllocError>
        requires wide { MIN_SIDE ≤ width }
        requires width_fits { width ≤ MAX_SIDE }
        requires high { MIN_SIDE ≤ height }
        requires height_fits { height ≤ MAX_SIDE }
        requires fit { IfSome self.now (StonesFit (empty_board width height)) }
        ensures board { IfOk result (λ c. IfSome self.now (λ b. c ≡ with_batch_stones brain (empty_board width height) b.stones)) }
    {
        let mut board = Board::empty(alloc, width, height)?;
        for stone in self.stones() {
            board.put(stone.at, side_of(brain, stone));
        }
        Ok(board)
    }
}

/// The side of the stone, where this side is the brain's.
fn side_of(brain: Side, stone: &BatchStone) -> Side
    ensures side { result ≡ side_of_lem brain stone.now }
{
    if stone.own { brain } else { brain.other() }
}

/// Whether one of the stones is on the point.
fn has_stone_at(stones: &[BatchStone], p: Point) -> bool
    ensures stone { result ≡ has_stone_at_lem stones.now p }
{
    stones.iter().any(|stone| stone.at == p)
}

/// The brain's colour, where the numbers of these stones say that it is to move.
fn colour_in(stones: &[BatchStone]) -> Option<Side>
    ensures colour { result ≡ colour_in_lem stones.now }
{
    let own = stones.iter().filter(|stone| stone.own).count();
    let others = stones.iter().filter(|stone| !stone.own).count();
    if own == others {
        Some(Side::Black)
    } else if others == own + 1 {
        Some(Side::White)
    } else {
        None
    }
}
