//! Lines and points that are written.
//!
//! A text grows by one piece after another, and each function says by which bytes. `Err` says that memory ran out; what
//! the text was before stands at its front then, too.
#![tactic(auto, using(crate::proofs::Kept::kept_same, crate::proofs::Kept::kept_after))]

ghost use Rattle.std.specs.Prelude.{◌≡◌, ◌<◌, ◌++◌, IfOk, OnErr, string_bytes, codes};
ghost use Rattle.std.specs.Fmt.{decimal};
ghost use Rattle.text_lines.specs.Lines.{Extends, ended};
ghost use Rattle.text_lines.specs.Spellings.{point_text, points_text};

use game_rules::Point;
use itoa::Buffer;
use std::alloc::AllocError;

/// Adds a line to a text, and the line feed that ends it.
pub fn push_line(text: &mut String, line: &str) -> Result<(), AllocError>
    ensures line { IfOk result (λ _. string_bytes text.new ≡ string_bytes text.old
        ++ ended line.now) }
    ensures kept { OnErr result (Extends (string_bytes text.old) (string_bytes text.new)) }
{
    text.push_str(line)?;
    text.push('\n')?;
    Ok(())
}

/// Adds a digit to a text.
#[tactic(auto, using(std::proofs::lemmas::Fmt::decimal_digit, crate::proofs::Kept::kept_same))]
fn push_digit(text: &mut String, digit: u8) -> Result<(), AllocError>
    requires digit { digit < 10 }
    ensures digit { IfOk result (λ _. string_bytes text.new ≡ string_bytes text.old
        ++ decimal digit) }
    ensures kept { OnErr result (Extends (string_bytes text.old) (string_bytes text.new)) }
{
    text.push(char::from(b'0' + digit))?;
    Ok(())
}

/// Adds a number below 100 to a text, in decimal.
fn push_short(text: &mut String, number: u8) -> Result<(), AllocError>
    requires short { number < 100 }
    ensures number { IfOk result (λ _. string_bytes text.new ≡ string_bytes text.old
        ++ decimal number) }
    ensures kept { OnErr result (Extends (string_bytes text.old) (string_bytes text.new)) }
{
    if number < 10 {
        return push_digit(text, number);
    }
    push_digit(text, number / 10)?;
    push_digit(text, number % 10)?;
    Ok(())
}

/// Adds a number to a text, in decimal.
pub fn push_number(text: &mut String, number: u32) -> Result<(), AllocError>
    ensures number { IfOk result (λ _. string_bytes text.new ≡ string_bytes text.old
        ++ decimal number) }
    ensures kept { OnErr result (Extends (string_bytes text.old) (string_bytes text.new)) }
{
    if number < 100 {
        return push_short(text, number as u8);
    }
    text.push_str(Buffer::new().format(number))?;
    Ok(())
}

/// Adds a line of this word and this number to a text.
pub fn push_number_line(text: &mut String, word: &str, number: u32) -> Result<(), AllocError>
    ensures line { IfOk result (λ _. string_bytes text.new ≡ string_bytes text.old
        ++ ended (word.now ++ decimal number)) }
    ensures kept { OnErr result (Extends (string_bytes text.old) (string_bytes text.new)) }
{
    text.push_str(word)?;
    push_line(text, Buffer::new().format(number))?;
    Ok(())
}

/// Adds a point to a text.
pub fn push_point(text: &mut String, at: Point) -> Result<(), AllocError>
    ensures point { IfOk result (λ _. string_bytes text.new ≡ string_bytes text.old
        ++ point_text at) }
    ensures kept { OnErr result (Extends (string_bytes text.old) (string_bytes text.new)) }
{
    push_number(text, u32::from(at.x))?;
    text.push(',')?;
    push_number(text, u32::from(at.y))?;
    Ok(())
}

/// Adds a space and a point to a text.
pub fn push_spaced_point(text: &mut String, at: Point) -> Result<(), AllocError>
    ensures point { IfOk result (λ _. string_bytes text.new ≡ string_bytes text.old
        ++ (codes " " ++ point_text at)) }
    ensures kept { OnErr result (Extends (string_bytes text.old) (string_bytes text.new)) }
{
    text.push(' ')?;
    push_point(text, at)?;
    Ok(())
}

/// Adds points to a text, each after a space.
pub fn push_points(text: &mut String, points: &[Point]) -> Result<(), AllocError>
    ensures points { IfOk result (λ _. string_bytes text.new ≡ string_bytes text.old
        ++ points_text points.now) }
    ensures kept { OnErr result (Extends (string_bytes text.old) (string_bytes text.new)) }
{
    for at in points {
        push_spaced_point(text, *at)?;
    }
    Ok(())
}
