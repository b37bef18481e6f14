//! The numbers of a command: one to nine digits each, cut by commas, with gaps beside a comma.
//!
//! A list of numbers is cut at its first comma, and what stands after it is cut again. A comma too many is left in the
//! last number, where it is no digit; one too few leaves nothing for the last number.
ghost use Rattle.std.specs.Prelude.{◌≡◌, ◌<◌, ◌≤◌, ◌^◌, IfSome, length, position, true};
ghost use Rattle.std.specs.Char.{is_ascii_digit};
ghost use Rattle.std.specs.List.{list_all};
ghost use Rattle.std.specs.Str.Parse.{digits_value};
ghost use Rattle.gomocup_text.specs.Numbers.{after_comma, before_comma, is_comma, is_number, number_of, numbers_of_two, numbers_of_three};

use crate::MAX_DIGITS;
use crate::words::trim;

/// The number that these bytes are the digits of.
pub fn number(bytes: &[u8]) -> Option<u32>
    ensures number { result ≡ number_of bytes.now }
{
    if is_digits(bytes) {
        Some(value_of(bytes))
    } else {
        None
    }
}

// Whether these bytes are the digits of a number.
fn is_digits(bytes: &[u8]) -> bool
    ensures digits { result ≡ is_number bytes.now }
{
    if bytes.is_empty() || bytes.len() > MAX_DIGITS {
        return false;
    }
    all_digits(bytes)
}

// Whether all of these bytes are digits.
fn all_digits(bytes: &[u8]) -> bool
    ensures all { result ≡ list_all is_ascii_digit bytes.now }
{
    bytes.iter().all(|byte| byte.is_ascii_digit())
}

// The number of these digits.
fn value_of(bytes: &[u8]) -> u32
    requires digits { is_number bytes.now ≡ true }
    ensures value { result ≡ digits_value 10 bytes.now }
{
    let mut value = 0;
    for digit in bytes {
        value = value * 10 + u32::from(*digit - b'0');
    }
    value
}

/// The two numbers of these bytes, with a comma between them.
pub fn two_numbers(bytes: &[u8]) -> Option<(u32, u32)>
    ensures numbers { result ≡ numbers_of_two bytes.now }
{
    let (first, second) = cut_at_comma(bytes);
    Some((number(trim(first))?, number(trim(second))?))
}

/// The three numbers of these bytes, with a comma between each and the next.
pub fn three_numbers(bytes: &[u8]) -> Option<(u32, u32, u32)>
    ensures numbers { result ≡ numbers_of_three bytes.now }
{
    let (first, later) = cut_at_comma(bytes);
    let first = number(trim(first))?;
    let (second, third) = two_numbers(later)?;
    Some((first, second, third))
}

// What stands before the first comma, and what stands after it: all and nothing, where there is none.
fn cut_at_comma(bytes: &[u8]) -> (&[u8], &[u8])
    ensures before { result.0.now ≡ before_comma bytes.now }
    ensures after { result.1.now ≡ after_comma bytes.now }
{
    match first_comma(bytes) {
        Some(at) => (&bytes[..at], &bytes[at + 1..]),
        None => (bytes, &[]),
    }
}

// Where the first comma is.
fn first_comma(bytes: &[u8]) -> Option<usize>
    ensures place { result ≡ position is_comma bytes.now }
    ensures within { IfSome result (λ at. at < length bytes.now) }
{
    bytes.iter().position(|byte| *byte == b',')
}
