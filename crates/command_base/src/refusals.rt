//! What is said of a text that is refused: a line with the fault that it has.
//!
//! Each fault of a text has a line of its own, with the place of the fault where it has one: the first that is found, in the
//! order of the text.
#![tactic(auto)]

ghost use Rattle.std.specs.Prelude.{◌≡◌, ◌≢◌, IfOk, IsOk, Ok, string_bytes};
ghost use Rattle.command_base.specs.Refusals.{refusal_line, bad_line as bad_line_lem, uneven_line, already_won_line, wrong_moves_line};

use crate::Status;
use crate::answer::Answer;
use foul_judge::PositionError;
use position_files::FileError;
use std::alloc::{AllocError, Global};
use stone_board::Point;
use text_lines::push_spaced_point;

/// What is said of a text that is refused. Want of memory is handed on.
pub fn refused_text(alloc: Global, error: FileError) -> Result<Answer, AllocError>
    ensures status { IfOk result (λ answer. answer.status ≡ Status.RefusedText) }
    ensures text { IfOk result (λ answer. answer.text ≡ refusal_line error) }
    ensures cause { IfOk result (λ answer. error ≢ FileError.Memory) }
    ensures no_memory { error ≡ FileError.Unlawful PositionError.BoardFull → IsOk result }
{
    match error {
        FileError::BadLine(number) => refusal(bad_line(alloc, number)?),
        FileError::Unlawful(PositionError::Uneven { black, white }) => {
            refusal(uneven(alloc, black, white)?)
        }
        FileError::Unlawful(PositionError::AlreadyWon { at }) => refusal(already_won(alloc, at)?),
        FileError::Unlawful(PositionError::BoardFull) => {
            Ok(Answer::fixed(Status::RefusedText, "refused board full\n"))
        }
        FileError::WrongMoves { written, counted } => {
            refusal(wrong_moves(alloc, written, counted)?)
        }
        FileError::Memory => Err(AllocError),
    }
}

/// The answer of a refused text.
fn refusal(text: String) -> Result<Answer, AllocError>
    ensures answer { result ≡ Ok (record { status = Status.RefusedText; text = string_bytes text }) }
{
    Ok(Answer::told(Status::RefusedText, text))
}

/// The line of a text whose line `number` is bad.
fn bad_line(alloc: Global, number: u32) -> Result<String, AllocError>
    ensures line { IfOk result (λ text. string_bytes text ≡ bad_line_lem number) }
{
    format!(in alloc; "refused line {number}\n")
}

/// The line of counts that name no side to move.
fn uneven(alloc: Global, black: u32, white: u32) -> Result<String, AllocError>
    ensures line { IfOk result (λ text. string_bytes text ≡ uneven_line black white) }
{
    format!(in alloc; "refused uneven {black} {white}\n")
}

/// The line of a winning run, by its least point.
fn already_won(alloc: Global, at: Point) -> Result<String, AllocError>
    ensures line { IfOk result (λ text. string_bytes text ≡ already_won_line at) }
{
    let mut text = String::from_str(alloc, "refused already won")?;
    push_spaced_point(&mut text, at)?;
    text.push_str("\n")?;
    Ok(text)
}

/// The line of a number of moves that is not the depth of the root.
fn wrong_moves(alloc: Global, written: u32, counted: u32) -> Result<String, AllocError>
    ensures line { IfOk result (λ text. string_bytes text ≡ wrong_moves_line written counted) }
{
    format!(in alloc; "refused moves {written} {counted}\n")
}
