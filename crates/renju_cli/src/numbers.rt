//! Numbers among the words of a command.
//!
//! One spelling a number: no sign, no leading zero, nothing after the digits.
#![tactic(auto)]

ghost use Rattle.std.specs.Prelude.{◌≡◌, ◌≤◌, ℕ, map, MatchOption, string_bytes};
ghost use Rattle.std.specs.Fmt.{decimal};
ghost use Rattle.text_lines.specs.Reading.{Reads};
ghost use Rattle.file_loading.specs.declared.TheConstants.{MAX_WORK};
ghost use Rattle.renju_cli.specs.Words.{AreTwoCounts};

use text_lines::large_number;

/// The number from 1 to `most` that a word is, in decimal without leading zeros, if it is one.
pub(crate) fn count(word: &String, most: u64) -> Option<u64>
    requires few { most ≤ MAX_WORK }
    ensures number { Reads (λ n. (1 ≤ n) × (n ≤ most)) decimal result (string_bytes word.now) }
{
    let number = large_number(word.as_bytes(), most)?;
    if number == 0 {
        return None;
    }
    Some(number)
}

/// The numbers that the words are, from 1 to `first_most` and from 1 to `second_most`, if they are two such.
pub(crate) fn two_counts(words: &[String], first_most: u64, second_most: u64) -> Option<(u64, u64)>
    requires first_few { first_most ≤ MAX_WORK }
    requires second_few { second_most ≤ MAX_WORK }
    ensures numbers { MatchOption result ((first second : ℕ) → ¬ AreTwoCounts first_most second_most (map string_bytes words.now) first second)
        (λ two. AreTwoCounts first_most second_most (map string_bytes words.now) two.0 two.1) }
{
    let [first, second] = words else {
        return None;
    };
    let first = count(first, first_most)?;
    let second = count(second, second_most)?;
    Some((first, second))
}
