//! Sections of texts: the head, the lines of nodes, and the line of a start.
//!
//! A section is what bytes begin with, whatever follows it. So texts of several kinds hold the same sections, and each
//! reader goes on with the bytes after a section, which come with it. A bad line is counted from 1 at the front of the section.
#![tactic(auto)]

ghost use Rattle.std.specs.Prelude.{◌≡◌, ◌≤◌, ℕ, List, IfOk, IfErr};
ghost use Rattle.strategy_graph.specs.Tables.{Answers};
ghost use Rattle.strategy_graph.specs.declared.Node.{Node};
ghost use Rattle.position_files.specs.Boards.{IsSide};
ghost use Rattle.position_files.specs.Faults.{IsUpTo};
ghost use Rattle.position_files.specs.Sections.{AreNodeLines, IsBoardLines, IsHeadOf, IsNodesOf, IsSectionFault, IsStartLines, IsStartOf};
ghost use Rattle.position_files.specs.declared.sections.Head.{Head};

use crate::HeadError;
use crate::answers::start_line;
use crate::boards::read_board;
use crate::nodes::node_lines;
use game_rules::RuleKind;
use std::alloc::Global;
use stone_board::Board;
use strategy_graph::{MAX_NODES, Start, Table};

/// The lines of a head: the rule, the size, and the stones of Black and of White.
pub const HEAD_LINES: u32 = 4;

/// What the lines of rule, size, black and white tell.
#[derive(Drop)]
pub struct Head {
    pub kind: RuleKind,
    pub board: Board,
}

/// The head that the bytes begin with, and the bytes after it. The position need not be lawful.
pub fn read_head(alloc: Global, bytes: &[u8]) -> Result<(Head, &[u8]), HeadError>
    ensures found { IfOk result (λ found. IsHeadOf found.0 found.1.now bytes.now) }
    ensures only { IfOk result (λ found. (other : Head) (rest : List ℕ)
        → IsHeadOf other rest bytes.now → (other ≡ found.0) × (rest ≡ found.1.now)) }
    ensures refused { IfErr result (IsSectionFault IsBoardLines bytes.now) }
    ensures within { IfErr result (IsUpTo HEAD_LINES) }
{
    let (kind, board, rest) = read_board(alloc, bytes)?;
    Ok((Head { kind, board }, rest))
}

/// The table of `count` nodes that the bytes begin with the lines of, whose points are below the width and the height, and
/// the bytes after these lines.
pub fn read_nodes(
    alloc: Global,
    bytes: &[u8],
    count: u32,
    width: u8,
    height: u8,
) -> Result<(Table, &[u8]), HeadError>
    requires few { count ≤ MAX_NODES }
    requires wide { IsSide width }
    requires high { IsSide height }
    ensures found { IfOk result (λ found.
        IsNodesOf width height count found.0 found.1.now bytes.now) }
    ensures only { IfOk result (λ found. (other : List Node) (rest : List ℕ)
        → IsNodesOf width height count other rest bytes.now
        → (other ≡ found.0) × (rest ≡ found.1.now)) }
    ensures refused { IfErr result (IsSectionFault (AreNodeLines width height count) bytes.now) }
    ensures within { IfErr result (IsUpTo count) }
{
    let (table, rest) = node_lines(alloc, bytes, count, width, height)?;
    Ok((table, rest))
}

/// The start that the bytes begin with the line of, which names nodes below `below` and points below the width and the
/// height, and the bytes after the line.
pub fn read_start(
    alloc: Global,
    bytes: &[u8],
    below: u32,
    width: u8,
    height: u8,
) -> Result<(Start, &[u8]), HeadError>
    requires wide { IsSide width }
    requires high { IsSide height }
    ensures found { IfOk result (λ found.
        IsStartOf width height below found.0 found.1.now bytes.now) }
    ensures only { IfOk result (λ found. (other : Answers) (rest : List ℕ)
        → IsStartOf width height below other rest bytes.now
        → (other ≡ found.0) × (rest ≡ found.1.now)) }
    ensures refused { IfErr result (IsSectionFault (IsStartLines width height below) bytes.now) }
    ensures within { IfErr result (IsUpTo 1) }
{
    match start_line(alloc, bytes, below, width, height) {
        Ok(found) => Ok(found),
        Err(fault) => Err(HeadError::at(1, fault)),
    }
}
