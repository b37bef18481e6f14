//! What is told of a table or a book that is refused, or that is not accepted.
//!
//! A command that checks one and a command that is to hold one tell the same. A fault of an entry is told after its number, and what
//! is told of one of several files after the number of the file.
#![tactic(auto)]

ghost use Rattle.std.specs.Prelude.{◌≡◌, codes, IfOk, string_bytes, ◌≢◌, ◌++◌};
ghost use Rattle.file_loading.specs.TableFiles.{IsToldOf, why_word as why_word_lem, refused_table_line};
ghost use Rattle.std.specs.Fmt.{decimal};
ghost use Rattle.file_loading.specs.BookFiles.{book_refusal_line, entry_line, hold_refusal_line, hold_refusal_status};
ghost use Rattle.file_loading.specs.ManyFiles.{of_file as of_file_lem};

use command_base::{Answer, Status, refused_text, spent};
use position_files::FileError;
use std::alloc::{AllocError, Global};
use stone_board::Point;
use strategy_checker::HeldError;
use strategy_graph::Why;
use table_book::{BookError, HoldError};
use text_lines::push_points;

/// What is said of a table whose root is not accepted. Want of memory is handed on.
pub fn refused_root(alloc: Global, error: HeldError) -> Result<Answer, AllocError>
    ensures told { IfOk result (λ answer. IsToldOf error answer.status answer.text) }
{
    match error {
        HeldError::Refused { line, why } => {
            let text = refused_table(alloc, why, line.as_slice())?;
            Ok(Answer::told(Status::RefusedTable, text))
        }
        HeldError::Spent => Ok(spent()),
        HeldError::Memory => Err(AllocError),
    }
}

/// The line of a refused table: why, and the moves that lead to the fault.
fn refused_table(alloc: Global, why: Why, moves: &[Point]) -> Result<String, AllocError>
    ensures line { IfOk result (λ text. string_bytes text ≡ refused_table_line (why_word_lem why) moves.now) }
{
    let mut text = String::from_str(alloc, "refused ")?;
    text.push_str(why_word(why))?;
    push_points(&mut text, moves)?;
    text.push_str("\n")?;
    Ok(text)
}

/// The word of a fault of a table.
fn why_word(why: Why) -> &'static str
    ensures word { result.now ≡ why_word_lem why }
{
    match why {
        Why::AttackRefused => "attack-refused",
        Why::AttackFouls => "attack-fouls",
        Why::AttackDraws => "attack-draws",
        Why::NotWon => "not-won",
        Why::ReplyWins => "reply-wins",
        Why::ReplyDraws => "reply-draws",
        Why::NoAnswer => "no-answer",
    }
}

/// What is said of the text of a book that is refused. Want of memory is handed on.
pub fn refused_book(alloc: Global, error: BookError) -> Result<Answer, AllocError>
    ensures status { IfOk result (λ answer. answer.status ≡ Status.RefusedText) }
    ensures text { IfOk result (λ answer. answer.text ≡ book_refusal_line error) }
    ensures cause { IfOk result (λ answer. error ≢ BookError.Memory) }
{
    match error {
        BookError::BadLine(number) => refused_text(alloc, FileError::BadLine(number)),
        BookError::Unlawful { entry, cause } => {
            of_entry(
                alloc,
                entry,
                refused_text(alloc, FileError::Unlawful(cause))?,
            )
        }
        BookError::WrongMoves {
            entry,
            written,
            counted,
        } => of_entry(
            alloc,
            entry,
            refused_text(alloc, FileError::WrongMoves { written, counted })?,
        ),
        BookError::Memory => Err(AllocError),
    }
}

/// What is said of a book with an entry that is not accepted. Want of memory is handed on.
pub fn refused_entry(alloc: Global, error: HoldError) -> Result<Answer, AllocError>
    ensures status { IfOk result (λ answer. answer.status ≡ hold_refusal_status error) }
    ensures text { IfOk result (λ answer. answer.text ≡ hold_refusal_line error) }
    ensures cause { IfOk result (λ answer. error ≢ HoldError.Memory) }
{
    match error {
        HoldError::Refused { entry, line, why } => {
            let text = refused_table(alloc, why, line.as_slice())?;
            of_entry(alloc, entry, Answer::told(Status::RefusedTable, text))
        }
        HoldError::Spent { entry } => of_entry(alloc, entry, spent()),
        HoldError::Memory => Err(AllocError),
    }
}

/// What is said of an entry, after its number.
fn of_entry(alloc: Global, number: u32, said: Answer) -> Result<Answer, AllocError>
    ensures status { IfOk result (λ answer. answer.status ≡ said.status) }
    ensures text { IfOk result (λ answer. answer.text ≡ entry_line number said.text) }
{
    let mut text = front(alloc, number)?.into_bytes();
    text.extend_from_slice(said.text.as_slice())?;
    Ok(Answer::written(said.status, text))
}

/// What stands before that.
fn front(alloc: Global, number: u32) -> Result<String, AllocError>
    ensures front { IfOk result (λ text. string_bytes text ≡ codes "entry " ++ decimal number ++ codes " ") }
{
    format!(in alloc; "entry {number} ")
}

/// The answer with this status that tells this text of file `number`.
pub(crate) fn of_file(
    alloc: Global,
    number: usize,
    status: Status,
    text: &[u8],
) -> Result<Answer, AllocError>
    ensures status { IfOk result (λ answer. answer.status ≡ status) }
    ensures text { IfOk result (λ answer. answer.text ≡ of_file_lem number text.now) }
{
    let mut line = format!(in alloc; "file {number} ")?.into_bytes();
    line.extend_from_slice(text)?;
    Ok(Answer::written(status, line))
}
