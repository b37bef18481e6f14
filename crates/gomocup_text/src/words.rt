//! The words of a line, and the gaps between them.
//!
//! A gap is a space or a tab. Gaps are dropped at both ends of a text and behind its first word, so a command's word and
//! what follows it are told apart before either is read.
ghost use Rattle.std.specs.Prelude.{◌≡◌, ◌<◌, IfSome, length, position};
ghost use Rattle.std.specs.Str.{str_eq_ignore_ascii_case};
ghost use Rattle.gomocup_text.specs.Words.{is_gap, word_named, rest_of, trimmed, without_end_gaps, without_front_gaps, without_return, word_of};

/// The words that commands begin with.
#[derive(Clone, Copy)]
pub enum Word {
    Start,
    RectStart,
    Turn,
    Takeback,
    Begin,
    Board,
    Done,
    Restart,
    About,
    End,
    Info,
}

// Whether a byte is a space or a tab.
fn gap(byte: u8) -> bool
    ensures gap { result ≡ is_gap byte }
{
    byte == b' ' || byte == b'\t'
}

/// The line without one carriage return at its end.
pub fn without_return(line: &[u8]) -> &[u8]
    ensures line { result.now ≡ without_return line.now }
{
    match line {
        [front @ .., b'\r'] => front,
        _ => line,
    }
}

/// The bytes without the gaps at both ends.
pub fn trim(bytes: &[u8]) -> &[u8]
    ensures text { result.now ≡ trimmed bytes.now }
{
    trim_end(trim_front(bytes))
}

// The bytes without the gaps at their front.
fn trim_front(bytes: &[u8]) -> &[u8]
    ensures rest { result.now ≡ without_front_gaps bytes.now }
{
    let mut start = 0;
    while start < bytes.len() && gap(bytes[start]) {
        start += 1;
    }
    &bytes[start..]
}

// The bytes without the gaps at their end.
fn trim_end(bytes: &[u8]) -> &[u8]
    ensures front { result.now ≡ without_end_gaps bytes.now }
{
    let mut end = bytes.len();
    while end > 0 && gap(bytes[end - 1]) {
        end -= 1;
    }
    &bytes[..end]
}

/// The first word of a text, and what follows it behind the gaps.
pub fn first_word(text: &[u8]) -> (&[u8], &[u8])
    ensures word { result.0.now ≡ word_of text.now }
    ensures rest { result.1.now ≡ rest_of text.now }
{
    match first_gap(text) {
        Some(at) => (&text[..at], trim_front(&text[at + 1..])),
        None => (text, &[]),
    }
}

// Where the first gap is.
fn first_gap(text: &[u8]) -> Option<usize>
    ensures place { result ≡ position is_gap text.now }
    ensures within { IfSome result (λ at. at < length text.now) }
{
    text.iter().position(|byte| gap(*byte))
}

/// Whether a word is this name, in either case.
pub fn is_word(word: &[u8], name: &[u8]) -> bool
    ensures same { result ≡ str_eq_ignore_ascii_case word.now name.now }
{
    word.eq_ignore_ascii_case(name)
}

/// The word of a command with this name.
pub fn named_word(name: &[u8]) -> Option<Word>
    ensures word { result ≡ word_named name.now }
{
    if is_word(name, b"START") {
        Some(Word::Start)
    } else if is_word(name, b"RECTSTART") {
        Some(Word::RectStart)
    } else if is_word(name, b"TURN") {
        Some(Word::Turn)
    } else if is_word(name, b"TAKEBACK") {
        Some(Word::Takeback)
    } else if is_word(name, b"BEGIN") {
        Some(Word::Begin)
    } else if is_word(name, b"BOARD") {
        Some(Word::Board)
    } else if is_word(name, b"DONE") {
        Some(Word::Done)
    } else if is_word(name, b"RESTART") {
        Some(Word::Restart)
    } else if is_word(name, b"ABOUT") {
        Some(Word::About)
    } else if is_word(name, b"END") {
        Some(Word::End)
    } else if is_word(name, b"INFO") {
        Some(Word::Info)
    } else {
        None
    }
}
