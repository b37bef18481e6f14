//! What all commands share: what an answer is, which texts are told of faults, and how a command that is told its input runs.
//!
//! A command says a status and a text of its input, or of the position that its input is. How the input is read, how the text is
//! written and what each device counts is proved here once for all of them; nothing here depends on which commands there are.
#![tactic(auto)]

mod answer;
mod positions;
mod refusals;
mod status;
mod told;

pub use answer::{Answer, SHELF_FAILED, TOO_LONG, Text, full, none, spent};
pub use positions::{AtPosition, OfPosition};
pub use refusals::refused_text;
pub use status::Status;
pub use told::{Told, deliver, tell};

/// The most positions that `fours`, `solve` and `defend` (after each move), and the most lists of threats that `threats`, may be allowed to look at.
pub const MAX_SEARCHED: u64 = 10_000_000;
