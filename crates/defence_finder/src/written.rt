//! The lines that list defences.
#![tactic(auto)]

ghost use Rattle.std.specs.Prelude.{◌≡◌, ◌++◌, IfOk, string_bytes};
ghost use Rattle.std.specs.List.{flat_map};
ghost use Rattle.defence_finder.specs.Lines.{defences_text as defences_text_lem, point_line};

use std::alloc::{AllocError, Global};
use stone_board::{Point, Points};
use text_lines::push_point;

/// Writes the number of the defences and a line for each, each line with the line feed that ends it. `Err` says that memory
/// ran out.
pub fn write_defences(alloc: Global, good: &Points) -> Result<Vec<u8>, AllocError>
    ensures lines { IfOk result (λ bytes. bytes.items ≡ defences_text_lem good.now) }
{
    let text = defences_text(alloc, good.as_slice())?;
    Ok(text.into_bytes())
}

/// The number of the points, and a line for each.
fn defences_text(alloc: Global, points: &[Point]) -> Result<String, AllocError>
    ensures text { IfOk result (λ text. string_bytes text ≡ defences_text_lem points.now) }
{
    let count = points.len();
    let mut text = format!(in alloc; "defences {count}\n")?;
    push_lines(&mut text, points)?;
    Ok(text)
}

/// Adds a line for each point to a text.
fn push_lines(text: &mut String, points: &[Point]) -> Result<(), AllocError>
    ensures lines { IfOk result (λ _. string_bytes text.new ≡ string_bytes text.old ++ flat_map point_line points.now) }
{
    for at in points {
        push_point(text, *at)?;
        text.push_str("\n")?;
    }
    Ok(())
}
