//! The replies to an attack, each with the root of the file that answers it.
#![tactic(auto)]

ghost use Rattle.std.specs.Prelude.{◌≡◌, ℕ, IfOk, Some, slice_get};
ghost use Rattle.std.specs.List.{AllByRecursion};
ghost use Rattle.join_command.specs.Adopting.{IsAcceptedFile};
ghost use Rattle.join_command.specs.Asking.{IsFirst};
ghost use Rattle.join_command.specs.Meeting.{AreMet, HaveRoots, IsMet};

use crate::answering::{Found, answer_at};
use foul_judge::{Outcome, Position, Seen};
use position_files::TableFile;
use row_shapes::Rule;
use std::alloc::{AllocError, Global};
use stone_board::Point;
use strategy_graph::Reply;

/// What becomes of a reply.
#[derive(Clone, Copy)]
pub(crate) enum Meeting {
    /// It is no move, or fouls.
    Lost,
    /// It wins or draws, or goes on to a position at which no file answers.
    Open,
    /// This file answers after it.
    By(Found),
}

/// What becomes of all replies.
#[derive(Drop)]
pub(crate) enum Met {
    /// Each that goes on has this answer.
    Each(Vec<Reply>),
    /// This one is open.
    Open(Point),
}

/// What becomes of the reply. The position is the same afterwards.
fn meet<R: Rule>(
    alloc: Global,
    files: &[TableFile],
    position: &mut Position<R>,
    q: Point,
    first: Option<usize>,
) -> Result<Meeting, AllocError>
    requires inside { IsFirst files.now first }
    requires accepted { AllByRecursion IsAcceptedFile files.now }
    ensures met { IfOk result (IsMet R.KIND files.now position.old q) }
    ensures same { position.new ≡ position.old }
{
    match position.outcome(q) {
        Outcome::Refused | Outcome::Fouls(_) => Ok(Meeting::Lost),
        Outcome::Wins | Outcome::Draws => Ok(Meeting::Open),
        Outcome::GoesOn => {
            position.play(q);
            let found = answer_at(alloc, files, position, first);
            position.undo(q);
            match found? {
                Some(found) => Ok(Meeting::By(found)),
                None => Ok(Meeting::Open),
            }
        }
    }
}

/// The root of file `k`, which has one.
fn root_of(roots: &[Option<u32>], k: usize) -> u32
    requires there { (j : ℕ) × (slice_get roots.now k ≡ Some (Some j)) }
    ensures root { slice_get roots.now k ≡ Some (Some result) }
{
    roots[k].unwrap()
}

/// What becomes of all replies, where the list has the root of each file that may be asked. The position is the same afterwards.
pub(crate) fn meet_each<R: Rule>(
    alloc: Global,
    files: &[TableFile],
    roots: &[Option<u32>],
    position: &mut Position<R>,
) -> Result<Met, AllocError>
    requires accepted { AllByRecursion IsAcceptedFile files.now }
    requires roots { HaveRoots files.now roots.now position.old }
    ensures met { IfOk result (AreMet R.KIND files.now roots.now position.old) }
    ensures same { position.new ≡ position.old }
{
    let mut answers = Vec::new(alloc);
    let mut first = None;
    for q in position.board().points() {
        match meet(alloc, files, position, q, first)? {
            Meeting::Lost => {}
            Meeting::Open => return Ok(Met::Open(q)),
            Meeting::By(found) => {
                let next = root_of(roots, found.file);
                answers.push(Reply { at: q, next })?;
                first = found.first;
            }
        }
    }
    Ok(Met::Each(answers))
}
