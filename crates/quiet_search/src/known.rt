//! What is remembered of the attacker's positions: their wins, that there is none among the moves tried, and how hard fours and
//! threats were searched.
//!
//! A position that is forgotten is searched again, and what is remembered of it is tested where it is used.
#![tactic(auto)]

use crate::REMEMBERED;
use position_table::{PackedPosition, WholeTable};
use std::alloc::{AllocError, Global};
use stone_board::Board;

/// What is remembered of a position.
#[derive(Clone, Copy)]
pub(crate) struct Known {
    /// The node that wins there.
    pub(crate) won: Option<u32>,
    /// The round in which all moves tried there were disproved, or 0.
    pub(crate) lost: u32,
    /// One more than the budget with which fours and threats were searched there, or 0.
    pub(crate) tried: u64,
}

/// Nothing is known.
const NOTHING: Known = Known {
    won: None,
    lost: 0,
    tried: 0,
};

/// The positions remembered.
#[derive(Drop)]
pub(crate) struct Memory {
    table: WholeTable<Known>,
}

impl Memory {
    /// No position is remembered.
    pub(crate) fn new(alloc: Global) -> Result<Memory, AllocError> {
        Ok(Memory {
            table: WholeTable::new(alloc, REMEMBERED)?,
        })
    }

    /// What is remembered of the board.
    pub(crate) fn find(&mut self, board: &Board) -> Known {
        match self.table.find(&PackedPosition::of(board), 0) {
            Some(known) => known,
            None => NOTHING,
        }
    }

    /// Remembers this of the board.
    fn keep(&mut self, board: &Board, known: Known) -> Result<(), AllocError> {
        self.table.keep(PackedPosition::of(board), 0, known)
    }

    /// Remembers a node that wins on the board.
    pub(crate) fn keep_won(&mut self, board: &Board, node: u32) -> Result<(), AllocError> {
        let known = self.find(board);
        self.keep(
            board,
            Known {
                won: Some(node),
                ..known
            },
        )
    }

    /// Remembers how hard fours and threats were searched on the board.
    pub(crate) fn keep_tried(&mut self, board: &Board, tried: u64) -> Result<(), AllocError> {
        let known = self.find(board);
        self.keep(board, Known { tried, ..known })
    }

    /// Remembers that all moves tried on the board were disproved in this round.
    pub(crate) fn keep_lost(&mut self, board: &Board, round: u32) -> Result<(), AllocError> {
        let known = self.find(board);
        self.keep(
            board,
            Known {
                lost: round,
                ..known
            },
        )
    }
}
