//! Texts of positions and of tables, written line by line.
//!
//! A text grows by one piece after another, and each function says by which bytes; without memory what the text was before still
//! stands at its front. The nodes come in the order of the table.
#![tactic(auto, using(text_lines::proofs::Kept::kept_same, text_lines::proofs::Kept::kept_after))]

ghost use Rattle.std.specs.Prelude.{◌≡◌, [], ◌∷◌, ◌++◌, map, IfOk, OnErr, string_bytes, codes};
ghost use Rattle.std.specs.List.{AllByRecursion};
ghost use Rattle.std.specs.Fmt.{decimal};
ghost use Rattle.game_rules.specs.Grid.{IsBoard};
ghost use Rattle.strategy_graph.specs.Lent.{lent_node};
ghost use Rattle.strategy_graph.specs.Tables.{IsTable, TableOnBoard};
ghost use Rattle.text_lines.specs.Lines.{Extends, ended, text_of};
ghost use Rattle.position_files.specs.Positions.{IsTextOfPosition, board_lines};
ghost use Rattle.position_files.specs.Tables.{IsTextOfTable, RootFits, answers_text, node_line, nodes_lines, replies_text, reply_text, rest_text, start_line, table_text as table_text_lem};

use crate::written::board_text;
use game_rules::RuleKind;
use std::alloc::{AllocError, Global};
use stone_board::Board;
use strategy_graph::{LentNode, Reply, Rest, Root, Start, Table};
use text_lines::{push_number, push_number_line, push_point, push_spaced_point};

/// Writes the text of a position. `Err` says that memory ran out.
#[tactic(auto, unfolding(crate::specs::Positions::position_text))]
pub fn write_position(alloc: Global, kind: RuleKind, board: &Board) -> Result<Vec<u8>, AllocError>
    ensures written { IfOk result (λ bytes. IsTextOfPosition
        (record { kind = kind; board = board.now }) bytes.items) }
{
    let text = board_text(alloc, "renju-position 1", kind, board)?;
    Ok(text.into_bytes())
}

/// Adds a reply that is listed, and the node that answers it, to a text, after a space.
fn push_reply(text: &mut String, reply: Reply) -> Result<(), AllocError>
    ensures reply { IfOk result (λ _. string_bytes text.new ≡ string_bytes text.old
        ++ (codes " " ++ reply_text reply)) }
    ensures kept { OnErr result (Extends (string_bytes text.old) (string_bytes text.new)) }
{
    push_spaced_point(text, reply.at)?;
    text.push('>')?;
    push_number(text, reply.next)?;
    Ok(())
}

/// Adds replies to a text, each after a space.
fn push_replies(text: &mut String, replies: &[Reply]) -> Result<(), AllocError>
    ensures replies { IfOk result (λ _. string_bytes text.new ≡ string_bytes text.old
        ++ replies_text replies.now) }
    ensures kept { OnErr result (Extends (string_bytes text.old) (string_bytes text.new)) }
{
    for reply in replies {
        push_reply(text, *reply)?;
    }
    Ok(())
}

/// Adds what answers the replies that are not listed to a text.
fn push_rest(text: &mut String, rest: Rest) -> Result<(), AllocError>
    ensures rest { IfOk result (λ _. string_bytes text.new ≡ string_bytes text.old
        ++ rest_text rest) }
    ensures kept { OnErr result (Extends (string_bytes text.old) (string_bytes text.new)) }
{
    match rest {
        Rest::Wins => text.push_str("wins")?,
        Rest::To(number) => {
            text.push_str("rest ")?;
            push_number(text, number)?;
        }
        Rest::Nothing => text.push_str("only")?,
    }
    Ok(())
}

/// Adds the rest and the replies that are listed to a text.
fn push_answers(text: &mut String, replies: &[Reply], rest: Rest) -> Result<(), AllocError>
    ensures answers { IfOk result (λ _. string_bytes text.new ≡ string_bytes text.old
        ++ answers_text (record { replies = replies.now; rest = rest })) }
    ensures kept { OnErr result (Extends (string_bytes text.old) (string_bytes text.new)) }
{
    push_rest(text, rest)?;
    push_replies(text, replies)?;
    Ok(())
}

/// Adds the line of a node to a text.
fn push_node(text: &mut String, node: LentNode) -> Result<(), AllocError>
    ensures line { IfOk result (λ _. string_bytes text.new ≡ string_bytes text.old
        ++ ended (node_line (lent_node node.entry))) }
    ensures kept { OnErr result (Extends (string_bytes text.old) (string_bytes text.new)) }
{
    push_point(text, node.attack)?;
    text.push(' ')?;
    push_answers(text, node.replies, node.rest)?;
    text.push('\n')?;
    Ok(())
}

/// Adds the line of a start to a text. `Err` says that memory ran out.
pub fn push_start(text: &mut String, start: &Start) -> Result<(), AllocError>
    ensures line { IfOk result (λ _. string_bytes text.new ≡ string_bytes text.old
        ++ ended (start_line start.now)) }
    ensures kept { OnErr result (Extends (string_bytes text.old) (string_bytes text.new)) }
{
    text.push_str("start ")?;
    push_answers(text, start.replies().as_slice(), start.rest())?;
    text.push('\n')?;
    Ok(())
}

/// Adds the lines of the nodes of a table to a text, in the order of the table. `Err` says that memory ran out.
#[tactic(auto, using(crate::proofs::Growth::node_grown, crate::proofs::Growth::nodes_grown, text_lines::proofs::Kept::kept_after))]
pub fn push_nodes(text: &mut String, table: &Table) -> Result<(), AllocError>
    ensures nodes { IfOk result (λ _. string_bytes text.new ≡ string_bytes text.old
        ++ text_of (map node_line table.now)) }
    ensures kept { OnErr result (Extends (string_bytes text.old) (string_bytes text.new)) }
{
    for i in 0..table.len() {
        push_node(text, table.node(i))?;
    }
    Ok(())
}

/// Adds the lines from the number of moves to the last node to a text.
#[tactic(auto, using(crate::proofs::Growth::table_grown))]
fn push_table(text: &mut String, table: &Table, moves: u32) -> Result<(), AllocError>
    ensures lines { IfOk result (λ _. string_bytes text.new ≡ string_bytes text.old
        ++ text_of (nodes_lines table.now moves)) }
    ensures table { IsTable table.now }
{
    let len = table.len();
    push_number_line(text, "moves ", moves)?;
    push_number_line(text, "nodes ", len)?;
    push_nodes(text, table)?;
    Ok(())
}

/// The text of this first line, the lines of a rule and a board, and those of a table up to its last node.
#[tactic(auto, using(crate::proofs::Growth::body_grown))]
fn body_text(
    alloc: Global,
    first: &str,
    kind: RuleKind,
    board: &Board,
    table: &Table,
    moves: u32,
) -> Result<String, AllocError>
    ensures text { IfOk result (λ text. string_bytes text
        ≡ text_of (first.now ∷ board_lines kind board.now ++ nodes_lines table.now moves)) }
    ensures board { IfOk result (λ _. IsBoard board.now) }
    ensures table { IfOk result (λ _. IsTable table.now) }
{
    let mut text = board_text(alloc, first, kind, board)?;
    push_table(&mut text, table, moves)?;
    Ok(text)
}

/// The text of a table.
#[tactic(auto, using(crate::proofs::Growth::attack_grown, crate::proofs::Growth::defend_grown))]
fn table_text(
    alloc: Global,
    kind: RuleKind,
    board: &Board,
    table: &Table,
    root: &Root,
    moves: u32,
) -> Result<String, AllocError>
    ensures text { IfOk result (λ text. string_bytes text
        ≡ table_text_lem kind board.now table.now root.now moves) }
    ensures board { IfOk result (λ _. IsBoard board.now) }
    ensures table { IfOk result (λ _. IsTable table.now) }
{
    match root {
        Root::Attack(_) => body_text(alloc, "renju-table 1", kind, board, table, moves),
        Root::Defend(start) => {
            let mut text = body_text(alloc, "renju-table 2", kind, board, table, moves)?;
            push_start(&mut text, start)?;
            Ok(text)
        }
    }
}

/// Writes the text of a table: version 1 for a root that is a node, version 2 for a start. `Err` says that memory ran out.
pub fn write_table(
    alloc: Global,
    kind: RuleKind,
    board: &Board,
    table: &Table,
    root: &Root,
    moves: u32,
) -> Result<Vec<u8>, AllocError>
    requires on_board { TableOnBoard board.now table.now }
    requires root { RootFits board.now table.now root.now moves }
    ensures written { IfOk result (λ bytes. IsTextOfTable
        (record { kind = kind; board = board.now; table = table.now; root = root.now; moves = moves })
        bytes.items) }
{
    let text = table_text(alloc, kind, board, table, root, moves)?;
    Ok(text.into_bytes())
}
