//! Texts made of lines: what every reader and every writer of texts stands on.
//!
//! A text is a list of lines, each ended by a line feed, and each value has one spelling. A reader of a word or of a
//! line answers a value exactly where the bytes are its spelling. A line of a whole text is bad where no text of the
//! grammar has it after the lines before it: `specs/Lines.antt` says so over the pieces of the bytes.
#![tactic(auto)]

mod fault;
mod lines;
mod numbers;
mod points;
mod words;
mod written;

pub use fault::Fault;
pub use lines::{line, number_line, prefixed};
pub use numbers::{large_number, number};
pub use points::point;
pub use words::{after, cut, is_text};
pub use written::{
    push_line, push_number, push_number_line, push_point, push_points, push_spaced_point,
};
