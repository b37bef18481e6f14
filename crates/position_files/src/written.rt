//! The lines of a rule and a board, written.
//!
//! A text grows by one piece after another, and each function says by which bytes. The stones are found in one pass over
//! the points of the board.
#![tactic(auto, using(text_lines::proofs::Kept::kept_same, text_lines::proofs::Kept::kept_after))]

ghost use Rattle.std.specs.Prelude.{◌≡◌, ◌∷◌, ◌++◌, IfOk, OnErr, codes, string_bytes};
ghost use Rattle.game_rules.specs.Grid.{IsBoard};
ghost use Rattle.text_lines.specs.Lines.{Extends, ended, text_of};
ghost use Rattle.text_lines.specs.Spellings.{points_text};
ghost use Rattle.position_files.specs.Positions.{board_lines, rule_word as rule_word_lem, size_text, stones};

use game_rules::{RuleKind, Side};
use std::alloc::{AllocError, Global};
use stone_board::Board;
use text_lines::{push_line, push_number, push_spaced_point};

/// The word of a rule.
fn rule_word(kind: RuleKind) -> &'static str
    ensures word { result.now ≡ rule_word_lem kind }
{
    match kind {
        RuleKind::Freestyle => "freestyle",
        RuleKind::Exact => "exact",
        RuleKind::Renju => "renju",
    }
}

/// Adds the line of a rule to a text.
fn push_rule(text: &mut String, kind: RuleKind) -> Result<(), AllocError>
    ensures line { IfOk result (λ _. string_bytes text.new ≡ string_bytes text.old
        ++ ended (codes "rule " ++ rule_word_lem kind)) }
    ensures kept { OnErr result (Extends (string_bytes text.old) (string_bytes text.new)) }
{
    text.push_str("rule ")?;
    push_line(text, rule_word(kind))?;
    Ok(())
}

/// Adds a size to a text: one number where the width and the height are the same.
fn push_sides(text: &mut String, width: u8, height: u8) -> Result<(), AllocError>
    ensures sides { IfOk result (λ _. string_bytes text.new ≡ string_bytes text.old
        ++ (codes "size " ++ size_text width height)) }
    ensures kept { OnErr result (Extends (string_bytes text.old) (string_bytes text.new)) }
{
    text.push_str("size ")?;
    push_number(text, u32::from(width))?;
    if width != height {
        text.push_str(",")?;
        push_number(text, u32::from(height))?;
    }
    Ok(())
}

/// Adds the line of the size of a board to a text.
fn push_size(text: &mut String, board: &Board) -> Result<(), AllocError>
    ensures line { IfOk result (λ _. string_bytes text.new ≡ string_bytes text.old
        ++ ended (codes "size " ++ size_text board.now.width board.now.height)) }
    ensures board { IsBoard board.now }
    ensures kept { OnErr result (Extends (string_bytes text.old) (string_bytes text.new)) }
{
    push_sides(text, board.width(), board.height())?;
    text.push_str("\n")?;
    Ok(())
}

/// Adds the points at which stones of the side stand to a text, in reading order, each after a space.
#[tactic(auto, unfolding(crate::specs::Positions::stones), using(text_lines::proofs::Kept::kept_on, text_lines::proofs::Kept::kept_more))]
fn push_stones(text: &mut String, board: &Board, side: Side) -> Result<(), AllocError>
    ensures stones { IfOk result (λ _. string_bytes text.new ≡ string_bytes text.old
        ++ points_text (stones board.now side)) }
    ensures kept { OnErr result (Extends (string_bytes text.old) (string_bytes text.new)) }
{
    for p in board.points() {
        if board.holds(side, p) {
            push_spaced_point(text, p)?;
        }
    }
    Ok(())
}

/// Adds the line of the stones of the side to a text, after this word.
fn push_stones_line(
    text: &mut String,
    board: &Board,
    side: Side,
    word: &str,
) -> Result<(), AllocError>
    ensures line { IfOk result (λ _. string_bytes text.new ≡ string_bytes text.old
        ++ ended (word.now ++ points_text (stones board.now side))) }
    ensures kept { OnErr result (Extends (string_bytes text.old) (string_bytes text.new)) }
{
    text.push_str(word)?;
    push_stones(text, board, side)?;
    text.push_str("\n")?;
    Ok(())
}

/// Adds the lines of a head to a text: the rule, the size, and the stones of Black and of White. `Err` says that memory ran
/// out.
#[tactic(auto, using(crate::proofs::Growth::head_grown, text_lines::proofs::Kept::kept_after))]
pub fn push_head(text: &mut String, kind: RuleKind, board: &Board) -> Result<(), AllocError>
    ensures lines { IfOk result (λ _. string_bytes text.new ≡ string_bytes text.old
        ++ text_of (board_lines kind board.now)) }
    ensures board { IfOk result (λ _. IsBoard board.now) }
    ensures kept { OnErr result (Extends (string_bytes text.old) (string_bytes text.new)) }
{
    push_rule(text, kind)?;
    push_size(text, board)?;
    push_stones_line(text, board, Side::Black, "black")?;
    push_stones_line(text, board, Side::White, "white")?;
    Ok(())
}

/// The text of this first line and the lines of a rule and a board.
#[tactic(auto, using(crate::proofs::Growth::board_grown))]
pub(crate) fn board_text(
    alloc: Global,
    first: &str,
    kind: RuleKind,
    board: &Board,
) -> Result<String, AllocError>
    ensures text { IfOk result (λ text. string_bytes text
        ≡ text_of (first.now ∷ board_lines kind board.now)) }
    ensures board { IfOk result (λ _. IsBoard board.now) }
{
    let mut text = String::new(alloc);
    push_line(&mut text, first)?;
    push_head(&mut text, kind, board)?;
    Ok(text)
}
