//! What is due for words and an input: a status, and the text that goes with it.
//!
//! A command works out all of its answer before a byte of it is written, so a run writes one text or none. A text of fixed bytes
//! is written from where the program keeps it, so that no want of memory stands in its way.
#![tactic(auto)]

ghost use Rattle.std.specs.Prelude.{◌≡◌, string_bytes};
ghost use Rattle.command_base.specs.Texts.{full_line, none_line, spent_line};

use crate::Status;
use std::borrow::CowSlice;
use std::marker::Model;

/// What an input that is too long is told.
pub const TOO_LONG: &str = "input too long\n";

/// What a shelf that failed is told.
pub const SHELF_FAILED: &str = "shelf failed\n";

/// A text: fixed bytes, or bytes that were built. Contracts see its bytes.
#[derive(Drop)]
pub struct Text {
    bytes: CowSlice<'static, u8>,
}

impl Model for Text {
    ghost use Rattle.std.specs.Prelude.{ℕ, List};
    ghost use Rattle.std.specs.Cow.{cow_slice_items};

    ghost Value = { List ℕ };

    ghost view = { λ text. cow_slice_items text.bytes };
}

impl Text {
    /// A text of fixed bytes.
    pub fn fixed(text: &'static str) -> Text
        ensures value { result ≡ text.now }
    {
        Text {
            bytes: CowSlice::Borrowed(text.as_bytes()),
        }
    }

    /// A text that was built.
    pub fn built(bytes: Vec<u8>) -> Text
        ensures value { result ≡ bytes.items }
    {
        Text {
            bytes: CowSlice::Owned(bytes),
        }
    }

    /// The bytes of the text.
    pub fn as_slice(&self) -> &[u8]
        ensures value { result.now ≡ self.now }
    {
        self.bytes.as_slice()
    }
}

/// A status and its text.
#[derive(Drop)]
pub struct Answer {
    /// The status that is due.
    pub status: Status,
    /// The text that is due with it.
    pub text: Text,
}

impl Answer {
    /// The answer with this status and this text.
    pub fn told(status: Status, text: String) -> Answer
        ensures answer { result ≡ record { status = status; text = string_bytes text } }
    {
        Answer {
            status,
            text: Text::built(text.into_bytes()),
        }
    }

    /// The answer with this status and these bytes.
    pub fn written(status: Status, bytes: Vec<u8>) -> Answer
        ensures answer { result ≡ record { status = status; text = bytes.items } }
    {
        Answer {
            status,
            text: Text::built(bytes),
        }
    }

    /// The answer with this status and this fixed text. It takes no memory.
    pub fn fixed(status: Status, text: &'static str) -> Answer
        ensures answer { result ≡ record { status = status; text = text.now } }
    {
        Answer {
            status,
            text: Text::fixed(text),
        }
    }
}

/// The answer where the work or the budget was not enough.
pub fn spent() -> Answer
    ensures status { result.status ≡ Status.Spent }
    ensures text { result.text ≡ spent_line }
{
    Answer::fixed(Status::Spent, "spent\n")
}

/// The answer where there is none of what was searched.
pub fn none() -> Answer
    ensures status { result.status ≡ Status.NotFound }
    ensures text { result.text ≡ none_line }
{
    Answer::fixed(Status::NotFound, "none\n")
}

/// The answer where a table has no room for more nodes.
pub fn full() -> Answer
    ensures status { result.status ≡ Status.Full }
    ensures text { result.text ≡ full_line }
{
    Answer::fixed(Status::Full, "table full\n")
}
