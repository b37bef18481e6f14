//! The command `foul`: the fouls of Black, where Black is to move.
//!
//! The text is read, and each point of its board is asked, in reading order.
#![tactic(auto)]

ghost use Rattle.std.specs.Prelude.{◌≡◌, ◌++◌, IfOk, string_bytes};
ghost use Rattle.std.specs.List.{flat_map};
ghost use Rattle.game_rules.specs.Play.{mover};
ghost use Rattle.position_commands.specs.Fouls.{IsFoulList, foul_point as foul_point_lem, black_fouls as black_fouls_lem, fouls_of_mover};
ghost use Rattle.position_commands.specs.Fouls.{foul_line, fouls_text as fouls_text_lem};

use command_base::{Answer, AtPosition, Status};
use foul_judge::{Foul, Position, Seen, foul_at};
use game_referee::foul_word;
use row_shapes::Rule;
use std::alloc::{AllocError, Global};
use stone_board::{Board, Point, Side};
use text_lines::{push_line, push_spaced_point};

/// A point where Black has a foul.
#[derive(Clone, Copy)]
pub(crate) struct FoulPoint {
    pub at: Point,
    pub foul: Foul,
}

/// `foul`.
#[derive(Clone, Copy)]
pub struct ListFouls;

impl AtPosition for ListFouls {
    ghost use Rattle.position_commands.specs.Fouls.{IsFoulList};

    ghost in_range = { λ c. Unit {0} };

    ghost says = { λ c. IsFoulList };

    fn say_at<R: Rule>(&self, alloc: Global, position: Position<R>) -> Result<Answer, AllocError> {
        let fouls = mover_fouls(alloc, position)?;
        Ok(Answer::told(Status::Done, fouls_text(alloc, fouls.as_slice())?))
    }
}

/// The fouls of the side to move.
fn mover_fouls<R: Rule>(alloc: Global, position: Position<R>) -> Result<Vec<FoulPoint>, AllocError>
    ensures fouls { IfOk result (λ fouls. fouls.items ≡ fouls_of_mover (mover position) R.KIND position) }
{
    match position.side() {
        Side::Black => {
            let mut board = position.into_board();
            black_fouls::<R>(alloc, &mut board)
        }
        Side::White => Ok(Vec::new(alloc)),
    }
}

/// The fouls of Black in reading order. The board is as before.
fn black_fouls<R: Rule>(alloc: Global, board: &mut Board) -> Result<Vec<FoulPoint>, AllocError>
    ensures fouls { IfOk result (λ fouls. fouls.items ≡ black_fouls_lem R.KIND board.old) }
{
    let mut fouls = Vec::new(alloc);
    for p in board.points() {
        if let Some(found) = foul_point::<R>(board, p) {
            fouls.push(found)?;
        }
    }
    Ok(fouls)
}

/// The foul of Black at a point, if the point is empty and a foul. The board is as before.
fn foul_point<R: Rule>(board: &mut Board, p: Point) -> Option<FoulPoint>
    ensures foul { result ≡ foul_point_lem R.KIND board.old p }
    ensures same { board.new ≡ board.old }
{
    if !board.is_empty(p) {
        return None;
    }
    let foul = foul_at::<R>(board, p)?;
    Some(FoulPoint { at: p, foul })
}

/// The number of fouls, and a line for each.
fn fouls_text(alloc: Global, fouls: &[FoulPoint]) -> Result<String, AllocError>
    ensures text { IfOk result (λ text. string_bytes text ≡ fouls_text_lem fouls.now) }
{
    let count = fouls.len();
    let mut text = format!(in alloc; "fouls {count}\n")?;
    push_fouls(&mut text, fouls)?;
    Ok(text)
}

/// Adds a line for each foul to a text.
fn push_fouls(text: &mut String, fouls: &[FoulPoint]) -> Result<(), AllocError>
    ensures fouls { IfOk result (λ _. string_bytes text.new ≡ string_bytes text.old ++ flat_map foul_line fouls.now) }
{
    for found in fouls {
        push_foul(text, *found)?;
    }
    Ok(())
}

/// Adds the line of a foul to a text.
fn push_foul(text: &mut String, found: FoulPoint) -> Result<(), AllocError>
    ensures line { IfOk result (λ _. string_bytes text.new ≡ string_bytes text.old ++ foul_line found) }
{
    text.push_str("foul")?;
    push_spaced_point(text, found.at)?;
    text.push_str(" ")?;
    push_line(text, foul_word(found.foul))?;
    Ok(())
}
