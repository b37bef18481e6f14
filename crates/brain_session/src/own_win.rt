//! The win by continuous fours that the brain finds itself, with its table.
//!
//! The search is short, so that an answer comes at once: its budget is in positions, not in time, and so the brain answers
//! the same on every machine.
#![tactic(auto)]

ghost use Rattle.std.specs.Prelude.{IfOk};
ghost use Rattle.game_rules.specs.Play.{IsPosition};
ghost use Rattle.brain_session.specs.Kept.{IsFound};

use crate::{OWN_MOVES, OWN_POSITIONS};
use foul_judge::Position;
use four_search::{FourTable, fewest_win};
use line_tables::LineTables;
use row_shapes::Rule;
use std::alloc::{AllocError, Global};
use stone_board::Board;

/// The table of the win by continuous fours with the fewest moves from the position on the board, where there is one within
/// `OWN_MOVES` moves and the search looks at no more than `OWN_POSITIONS` positions. `Err` says that memory ran out.
pub(crate) fn own_win<R: Rule>(
    alloc: Global,
    board: &Board,
) -> Result<Option<FourTable>, AllocError>
    requires lawful { IsPosition R.KIND board.now }
    ensures found { IfOk result (IsFound R.KIND board.now) }
{
    let position = Position::<R>::new(board.copy()?);
    let mut view = LineTables::over(alloc, position);
    let found = fewest_win::<R, LineTables<R>>(alloc, &mut view, OWN_MOVES, OWN_POSITIONS)?;
    Ok(found.win())
}
