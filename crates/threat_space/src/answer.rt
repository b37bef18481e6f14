//! The search for the first sequence, length after length.
//!
//! Short sequences come before long ones, and each length is walked anew: lists that are no sequence are looked at more than once, and
//! the count of lists says so.
#![tactic(auto)]

ghost use Rattle.std.specs.Prelude.{◌≡◌, ◌≤◌, [], IfOk};
ghost use Rattle.threat_space.specs.declared.TheConstants.{MAX_LENGTH};
ghost use Rattle.threat_space.specs.Sequences.{space_answer};

use crate::barren::BarrenBoards;
use crate::walk::{FoundInLists, Origin, ToCome, Trail, walk};
use row_shapes::Rule;
use std::alloc::{AllocError, Global};
use stone_board::{Board, Point, Side};
use threat_moves::Threats;

/// What the search for a sequence finds.
#[derive(Debug, Drop)]
pub enum SpaceAnswer {
    /// The first sequence: its threats, and its final point.
    Sequence(Threats, Point),
    /// There is no sequence of so many threats.
    None,
    /// There are more lists to look at than the budget.
    Spent,
}

/// Searches the first sequence of at most `length` threats of the side, `length` being 1 to `MAX_LENGTH`, with a budget of lists
/// to look at, at least 1. The board need not be lawful, and is as before, also where memory ran out, which `Err` says.
///
/// - `Sequence` is the first one: with fewest threats, then by its threats in their order, then by the final point.
/// - `None` comes exactly where there is none and the budget suffices for all lists.
/// - `Spent` comes exactly where the budget does not suffice for the lists up to that of the first sequence.
pub fn threat_space<R: Rule>(
    alloc: Global,
    board: &mut Board,
    side: Side,
    length: u32,
    budget: u64,
) -> Result<SpaceAnswer, AllocError>
    requires some_length { 1 ≤ length }
    requires length_fits { length ≤ MAX_LENGTH }
    requires some_budget { 1 ≤ budget }
    ensures answer { IfOk result (λ answer. answer ≡ space_answer R.KIND side length budget board.old) }
    ensures same { board.new ≡ board.old }
{
    let start = board.copy()?;
    let origin = Origin {
        alloc,
        start: &start,
        side,
    };
    let mut trail = Trail {
        path: Threats::new(alloc),
        memory: BarrenBoards::<R>::new(alloc, side),
    };
    first_found::<R>(&origin, board, &mut trail, length, budget)
}

/// The same with a walk from its first board, on whose path is nothing yet.
fn first_found<R: Rule>(
    origin: &Origin,
    board: &mut Board,
    trail: &mut Trail<R>,
    length: u32,
    budget: u64,
) -> Result<SpaceAnswer, AllocError>
    requires length_fits { length ≤ MAX_LENGTH }
    requires start { origin.now.start.now ≡ board.old }
    requires path { trail.old.path ≡ [] }
    requires side { trail.old.memory.side ≡ origin.now.side }
    ensures answer { IfOk result (λ answer. answer ≡ space_answer R.KIND origin.now.side length budget board.old) }
    ensures same { board.new ≡ board.old }
{
    let mut left = budget;
    for count in 0..length + 1 {
        let to_come = ToCome {
            more: count,
            far: &[],
        };
        let walked = walk::<R>(origin, board, &to_come, trail, left)?;
        let found = walked.found;
        match found {
            FoundInLists::Sequence(threats, last) => return Ok(SpaceAnswer::Sequence(
                threats, last,
            )),
            FoundInLists::NoSequence(rest) => {
                if rest == left {
                    return Ok(SpaceAnswer::None);
                }
                left = rest;
            }
            FoundInLists::Spent => return Ok(SpaceAnswer::Spent),
        }
    }
    Ok(SpaceAnswer::None)
}
