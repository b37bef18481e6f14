//! Commands that are told a position: its text is read, why it is refused is told, and else the command speaks under its rule.
//!
//! The commands differ in what they say of a position. How the text is read and refused, and how the rule is chosen, is proved
//! here once for all of them.
#![tactic(auto)]

ghost use Rattle.std.specs.Prelude.{ℕ, List, IfOk};
ghost use Rattle.game_rules.specs.Play.{IsPosition};
ghost use Rattle.position_files.specs.declared.PositionFile.{PositionFile};
ghost use Rattle.command_base.specs.declared.status.Status.{Status};
ghost use Rattle.command_base.specs.Positions.{SaysOfPosition, file_at};

use crate::answer::Answer;
use crate::refusals::refused_text;
use crate::told::Told;
use foul_judge::Position;
use game_rules::RuleKind;
use position_files::{PositionFile, read_position};
use row_shapes::{ExactFive, Freestyle, Renju, Rule};
use std::alloc::{AllocError, Global};

/// A command that is told a position.
pub trait AtPosition {
    /// What has to hold of its numbers.
    ghost in_range: { Self → Type 0 };

    /// The statuses and texts that it says of a position.
    ghost says: { Self → PositionFile → Status → List ℕ → Type 0 };

    /// What it says of a position, under its rule.
    fn say_at<R: Rule>(&self, alloc: Global, position: Position<R>) -> Result<Answer, AllocError>
        requires in_range { in_range self.now }
        requires lawful { IsPosition R.KIND position }
        ensures says { IfOk result (λ answer. says self.now (file_at R.KIND position) answer.status answer.text) };
}

/// A command that is told a position, as one that is told its input.
#[derive(Clone, Copy)]
pub struct OfPosition<C>(pub C);

impl<C: AtPosition> Told for OfPosition<C> {
    ghost in_range = { λ c. C.in_range c.0 };

    ghost says = { λ c. SaysOfPosition (C.says c.0) };

    fn say(&self, alloc: Global, bytes: &[u8]) -> Result<Answer, AllocError> {
        match read_position(alloc, bytes) {
            Ok(file) => say_of(alloc, &self.0, file),
            Err(error) => refused_text(alloc, error),
        }
    }
}

/// What the command says of the position of a text.
fn say_of<C: AtPosition>(
    alloc: Global,
    command: &C,
    file: PositionFile,
) -> Result<Answer, AllocError>
    requires in_range { C.in_range command.now }
    requires lawful { IsPosition file.kind file.board }
    ensures says { IfOk result (λ answer. C.says command.now file answer.status answer.text) }
{
    match file.kind {
        RuleKind::Freestyle => command.say_at(alloc, Position::<Freestyle>::new(file.board)),
        RuleKind::Exact => command.say_at(alloc, Position::<ExactFive>::new(file.board)),
        RuleKind::Renju => command.say_at(alloc, Position::<Renju>::new(file.board)),
    }
}
