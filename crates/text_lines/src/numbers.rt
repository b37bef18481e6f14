//! Decimal numbers: digits with no zero too many at their front, and no sign.
//!
//! A number is read up to a greatest one, so that what is answered fits the type of the caller.
#![tactic(auto)]

ghost use Rattle.std.specs.Prelude.{◌≡◌, ◌+◌, ◌*◌, ◌≤◌};
ghost use Rattle.std.specs.Option.{SomeIff};
ghost use Rattle.std.specs.Fmt.{decimal};
ghost use Rattle.text_lines.specs.Reading.{Reads, IsPlain};

/// The number up to `most` that the bytes spell, if they spell one.
pub fn number(bytes: &[u8], most: u32) -> Option<u32>
    ensures number { Reads (λ n. n ≤ most) decimal result bytes.now }
{
    Some(large_number(bytes, u64::from(most))? as u32)
}

/// The same for numbers of 64 bits.
pub fn large_number(bytes: &[u8], most: u64) -> Option<u64>
    ensures number { Reads (λ n. n ≤ most) decimal result bytes.now }
{
    match bytes {
        [] => None,
        [b'0', _, ..] => None,
        _ => digits(bytes, most),
    }
}

/// The same, for bytes of which it is known that they have no zero too many at their front.
fn digits(bytes: &[u8], most: u64) -> Option<u64>
    requires plain { IsPlain bytes.now }
    ensures number { Reads (λ n. n ≤ most) decimal result bytes.now }
{
    let mut number = 0;
    for byte in bytes {
        if !byte.is_ascii_digit() {
            return None;
        }
        number = longer(number, *byte - b'0', most)?;
    }
    Some(number)
}

/// The number with one more digit, if that is at most `most`.
fn longer(number: u64, digit: u8, most: u64) -> Option<u64>
    ensures longer { SomeIff result (number * 10 + digit ≤ most) (number * 10 + digit) }
{
    let longer = number.checked_mul(10)?.checked_add(u64::from(digit))?;
    if longer > most {
        return None;
    }
    Some(longer)
}
