//! The command `threats`: the first sequence of threats of the side to move, written with all their costs.
//!
//! The text is read, and the search runs under its rule within the length and the budget of lists to look at. In a sequence
//! the other side gives all costs of each threat at once, and at its end stands a five point or a double point. It shows where
//! to look for a win and is none by itself, since the other side may answer with fours of its own.
#![tactic(auto)]

ghost use Rattle.std.specs.Prelude.{◌≡◌, ◌++◌, IfOk, string_bytes};
ghost use Rattle.std.specs.List.{flat_map};
ghost use Rattle.command_base.specs.Positions.{file_at};
ghost use Rattle.position_commands.specs.Threats.{AreLengthAndNodes, SequenceSays, kind_word as kind_word_lem, axis_word as axis_word_lem};
ghost use Rattle.position_commands.specs.Threats.{threat_line, sequence_text as sequence_text_lem};

use command_base::{Answer, AtPosition, Status, none, spent};
use foul_judge::{Position, Seen};
use row_shapes::Rule;
use std::alloc::{AllocError, Global};
use stone_board::{Axis, Point};
use text_lines::{push_points, push_spaced_point};
use threat_moves::{Threat, ThreatKind, Threats};
use threat_space::{SpaceAnswer, threat_space};

/// `threats LENGTH NODES`.
#[derive(Clone, Copy)]
pub struct FindSequence {
    /// The most threats, from 1 to `MAX_LENGTH`.
    pub length: u32,
    /// The most lists of threats to look at, from 1 to `MAX_SEARCHED`.
    pub nodes: u64,
}

impl AtPosition for FindSequence {
    ghost use Rattle.position_commands.specs.Threats.{AreLengthAndNodes, SequenceSays};

    ghost in_range = { λ c. AreLengthAndNodes c.length c.nodes };

    ghost says = { λ c. SequenceSays c.length c.nodes };

    fn say_at<R: Rule>(&self, alloc: Global, position: Position<R>) -> Result<Answer, AllocError> {
        search(alloc, position, self.length, self.nodes)
    }
}

/// What is said of a position.
fn search<R: Rule>(
    alloc: Global,
    position: Position<R>,
    length: u32,
    nodes: u64,
) -> Result<Answer, AllocError>
    requires limits { AreLengthAndNodes length nodes }
    ensures says { IfOk result (λ answer. SequenceSays length nodes (file_at R.KIND position) answer.status answer.text) }
{
    let side = position.side();
    let mut board = position.into_board();
    match threat_space::<R>(alloc, &mut board, side, length, nodes)? {
        SpaceAnswer::Sequence(threats, last) => found(alloc, &threats, last),
        SpaceAnswer::None => Ok(none()),
        SpaceAnswer::Spent => Ok(spent()),
    }
}

/// The answer with a sequence.
fn found(alloc: Global, threats: &Threats, last: Point) -> Result<Answer, AllocError>
    ensures status { IfOk result (λ answer. answer.status ≡ Status.Done) }
    ensures text { IfOk result (λ answer. answer.text ≡ sequence_text_lem threats.now last) }
{
    Ok(Answer::told(
        Status::Done,
        sequence_text(alloc, threats.as_slice(), last)?,
    ))
}

/// The number of threats, a line for each, and one for the final point.
fn sequence_text(alloc: Global, threats: &[Threat], last: Point) -> Result<String, AllocError>
    ensures text { IfOk result (λ text. string_bytes text ≡ sequence_text_lem threats.now last) }
{
    let count = threats.len();
    let mut text = format!(in alloc; "threats {count}\n")?;
    push_threats(&mut text, threats)?;
    text.push_str("final")?;
    push_spaced_point(&mut text, last)?;
    text.push_str("\n")?;
    Ok(text)
}

/// Adds a line for each threat to a text.
fn push_threats(text: &mut String, threats: &[Threat]) -> Result<(), AllocError>
    ensures threats { IfOk result (λ _. string_bytes text.new ≡ string_bytes text.old ++ flat_map threat_line threats.now) }
{
    for threat in threats {
        push_threat(text, threat)?;
    }
    Ok(())
}

/// Adds the line of a threat to a text.
fn push_threat(text: &mut String, threat: &Threat) -> Result<(), AllocError>
    ensures line { IfOk result (λ _. string_bytes text.new ≡ string_bytes text.old ++ threat_line threat.now) }
{
    text.push_str(kind_word(threat.kind))?;
    push_spaced_point(text, threat.gain)?;
    text.push_str(" ")?;
    text.push_str(axis_word(threat.axis))?;
    push_points(text, threat.costs.as_slice())?;
    text.push_str("\n")?;
    Ok(())
}

/// The word of a kind.
fn kind_word(kind: ThreatKind) -> &'static str
    ensures word { result.now ≡ kind_word_lem kind }
{
    match kind {
        ThreatKind::Four => "four",
        ThreatKind::Three => "three",
    }
}

/// The word of an axis.
fn axis_word(axis: Axis) -> &'static str
    ensures word { result.now ≡ axis_word_lem axis }
{
    match axis {
        Axis::Row => "row",
        Axis::Column => "column",
        Axis::Down => "down",
        Axis::Up => "up",
    }
}
