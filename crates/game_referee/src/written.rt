//! The line that tells a verdict.
#![tactic(auto)]

ghost use Rattle.std.specs.Prelude.{◌≡◌, ◌∷◌, ◌++◌, codes, IfOk, string_bytes};
ghost use Rattle.std.specs.Fmt.{decimal};
ghost use Rattle.text_lines.specs.Lines.{ended};
ghost use Rattle.game_referee.specs.Lines.{foul_word as foul_word_lem, side_word as side_word_lem, verdict_line};

use crate::GameVerdict;
use game_rules::{Foul, Side};
use std::alloc::{AllocError, Global};

/// Writes the line of a verdict, with the line feed that ends it. `Err` says that memory ran out.
pub fn write_verdict(alloc: Global, verdict: &GameVerdict) -> Result<Vec<u8>, AllocError>
    ensures line { IfOk result (λ bytes. bytes.items ≡ verdict_line verdict.now) }
{
    let text = line(alloc, *verdict)?;
    Ok(text.into_bytes())
}

/// The line of a verdict.
fn line(alloc: Global, verdict: GameVerdict) -> Result<String, AllocError>
    ensures line { IfOk result (λ text. string_bytes text ≡ verdict_line verdict) }
{
    match verdict {
        GameVerdict::Open(number) => format!(in alloc; "open {number}\n"),
        GameVerdict::Illegal(number) => format!(in alloc; "illegal {number}\n"),
        GameVerdict::AfterEnd(number) => format!(in alloc; "after end {number}\n"),
        GameVerdict::Won(side, number) => won(alloc, side_word(side), number),
        GameVerdict::Fouled(foul, number) => fouled(alloc, foul_word(foul), number),
        GameVerdict::Drawn(number) => format!(in alloc; "drawn {number}\n"),
    }
}

/// The line of a win.
fn won(alloc: Global, side: &str, number: u32) -> Result<String, AllocError>
    ensures line { IfOk result (λ text. string_bytes text
        ≡ ended (codes "won " ++ side.now ++ (codes " " ++ decimal number))) }
{
    format!(in alloc; "won {side} {number}\n")
}

/// The line of a foul.
fn fouled(alloc: Global, foul: &str, number: u32) -> Result<String, AllocError>
    ensures line { IfOk result (λ text. string_bytes text
        ≡ ended (codes "foul " ++ foul.now ++ (codes " " ++ decimal number))) }
{
    format!(in alloc; "foul {foul} {number}\n")
}

/// The word of a side.
fn side_word(side: Side) -> &'static str
    ensures word { result.now ≡ side_word_lem side }
{
    match side {
        Side::Black => "black",
        Side::White => "white",
    }
}

/// The word of a foul.
pub fn foul_word(foul: Foul) -> &'static str
    ensures word { result.now ≡ foul_word_lem foul }
{
    match foul {
        Foul::Overline => "overline",
        Foul::DoubleFour => "double-four",
        Foul::DoubleThree => "double-three",
    }
}
