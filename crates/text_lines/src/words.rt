//! Words of a line: the bytes between separators, and texts that are expected.
//!
//! A word has no separator in it, so bytes have one first word and one tail after it.
#![tactic(auto)]

ghost use Rattle.std.specs.Prelude.{◌≡◌, ◌↔◌, ◌++◌, ◌==◌, true, IsTrue, option_copied, position};
ghost use Rattle.text_lines.specs.Reading.{Reads, is_free, tail_text};

/// Where the separator stands first.
fn place(bytes: &[u8], separator: u8) -> Option<usize>
    ensures place { result ≡ position (λ b. b == separator) bytes.now }
{
    bytes.iter().position(|b| *b == separator)
}

/// The bytes before the first separator, and those after it, if there is one.
pub fn cut(bytes: &[u8], separator: u8) -> (&[u8], Option<&[u8]>)
    ensures parts { bytes.now ≡ result.0.now ++ tail_text separator (option_copied result.1) }
    ensures word { is_free separator result.0.now ≡ true }
{
    match place(bytes, separator) {
        None => (bytes, None),
        Some(at) => (&bytes[..at], Some(&bytes[at + 1..])),
    }
}

/// Whether the bytes are this text.
pub fn is_text(bytes: &[u8], text: &[u8]) -> bool
    ensures same { IsTrue result ↔ (bytes.now ≡ text.now) }
{
    bytes == text
}

/// The bytes after this text, if they begin with it.
pub fn after<'a>(bytes: &'a [u8], text: &[u8]) -> Option<&'a [u8]>
    ensures rest { Reads (λ _. Unit {0}) (λ rest. text.now ++ rest)
        (option_copied result) bytes.now }
{
    bytes.strip_prefix(text)
}
