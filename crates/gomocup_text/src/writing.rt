//! The line of an answer: its bytes with carriage return and line feed, kept in the value itself.
//!
//! No answer has more than `MAX_ANSWER_BYTES` bytes, for which there is room from the start, so writing one cannot fail.
ghost use Rattle.std.specs.Prelude.{◌≡◌, ◌≤◌, ◌+◌, ◌++◌, [], codes, length};
ghost use Rattle.gomocup_text.specs.Answers.{answer_text, error_words};
ghost use Rattle.text_lines.specs.Spellings.{point_text};

use crate::{Answer, ErrorText, MAX_ANSWER_BYTES};
use game_rules::Point;
use itoa::Buffer;
use smallvec::SmallVec;
use std::alloc::Global;
use std::marker::Model;

/// The line of an answer, seen as its bytes.
#[derive(Drop)]
pub struct AnswerText {
    bytes: SmallVec<u8, MAX_ANSWER_BYTES>,
}

impl Model for AnswerText {
    ghost use Rattle.std.specs.Prelude.{List, ℕ, ◌≡◌, ◌≤◌, length};
    ghost use Rattle.gomocup_text.specs.declared.TheConstants.{MAX_ANSWER_BYTES};

    ghost Value = { List ℕ };

    ghost view = { λ a. a.bytes.items };

    ghost invariant = { λ a. (a.bytes.capacity ≡ MAX_ANSWER_BYTES) × (length a.bytes.items ≤ MAX_ANSWER_BYTES) };
}

impl AnswerText {
    /// The bytes of the line, at most MAX_ANSWER_BYTES.
    pub fn as_slice(&self) -> &[u8]
        ensures bytes { result.now ≡ self.now }
        ensures short { length result.now ≤ MAX_ANSWER_BYTES }
    {
        self.bytes.as_slice()
    }

    // A line with nothing in it.
    fn new(alloc: Global) -> AnswerText
        ensures empty { result ≡ [] }
    {
        AnswerText {
            bytes: SmallVec::new(alloc),
        }
    }

    // Writes these bytes behind the others.
    fn push(&mut self, more: &[u8])
        requires room { length self.old + length more.now ≤ MAX_ANSWER_BYTES }
        ensures behind { self.new ≡ self.old ++ more.now }
    {
        self.bytes.extend_from_slice(more).unwrap();
    }

    // Writes a point.
    fn push_point(&mut self, point: Point)
        requires early { length self.old ≤ 8 }
        ensures point { self.new ≡ self.old ++ point_text point }
        ensures short { length self.new ≤ 32 }
    {
        self.push(Buffer::new().format(point.x).as_bytes());
        self.push(b",");
        self.push(Buffer::new().format(point.y).as_bytes());
    }
}

/// The line of an answer. The allocator is only kept beside the bytes: it takes no memory.
pub fn write_answer(alloc: Global, answer: &Answer) -> AnswerText
    ensures line { result ≡ answer_text answer.now }
{
    let mut text = AnswerText::new(alloc);
    match answer {
        Answer::Ok => text.push(b"OK"),
        Answer::Move(point) => text.push_point(*point),
        Answer::About => text.push(b"name=\"renju\", version=\"1.0\""),
        Answer::Error(error) => {
            text.push(b"ERROR ");
            text.push(words_of(*error));
        }
        Answer::Unknown => text.push(b"UNKNOWN command"),
    }
    text.push(b"\r\n");
    text
}

// The words of an error.
fn words_of(error: ErrorText) -> &'static [u8]
    ensures words { result.now ≡ error_words error }
    ensures short { length result.now ≤ 32 }
{
    match error {
        ErrorText::UnsupportedSize => b"unsupported size",
        ErrorText::NoBoard => b"no board",
        ErrorText::NotReading => b"not reading",
        ErrorText::UnsupportedRule => b"unsupported rule",
        ErrorText::BadBoard => b"bad board",
        ErrorText::BadArguments => b"bad arguments",
        ErrorText::GameStarted => b"game started",
        ErrorText::GameOver => b"game over",
        ErrorText::WrongTurn => b"wrong turn",
        ErrorText::BadMove => b"bad move",
        ErrorText::GameLost => b"game lost",
        ErrorText::OpponentFoul => b"opponent foul",
        ErrorText::GameDrawn => b"game drawn",
    }
}
