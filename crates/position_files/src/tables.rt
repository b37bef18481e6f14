//! Texts of tables, read section by section.
//!
//! A table is a first line, which tells the version, a head, the numbers of moves and of nodes, the nodes, and in version 2
//! a start. Where a section is bad, its line is counted on from the lines before it.
#![tactic(auto)]

ghost use Rattle.std.specs.Prelude.{◌≡◌, ◌+◌, ◌≤◌, ◌∷◌, ◌++◌, true, length, codes, IfOk, IfErr};
ghost use Rattle.game_rules.specs.Play.{IsPosition};
ghost use Rattle.strategy_graph.specs.Roots.{root_below, root_depth};
ghost use Rattle.text_lines.specs.Lines.{line_feed, text_of};
ghost use Rattle.position_files.specs.Tables.{IsTextOfTable};
ghost use Rattle.position_files.specs.Bodies.{BodyFits, IsBodyLines, IsFinishFault, IsFinished, body_lines};
ghost use Rattle.position_files.specs.declared.TableFile.{TableFile};
ghost use Rattle.position_files.specs.Faults.{IsTableFault, IsUpTo};
ghost use Rattle.position_files.specs.Sections.{IsSectionFault};

use crate::boards::read_board;
use crate::nodes::node_lines;
use crate::{FIRST_LINES, FileError, HEAD_LINES, HeadError, MAX_MOVES, TableFile, read_start};
use foul_judge::refusal;
use game_rules::RuleKind;
use std::alloc::Global;
use stone_board::Board;
use strategy_graph::{MAX_NODES, Root, Table};
use text_lines::{after, number_line};

/// The lines of a body before those of its nodes: the head, and the numbers of moves and of nodes.
pub(crate) const BODY_LINES: u32 = HEAD_LINES + 2;

/// What the lines of a table tell from its head to its last node.
#[derive(Drop)]
pub(crate) struct Body {
    pub(crate) kind: RuleKind,
    pub(crate) board: Board,
    pub(crate) table: Table,
    pub(crate) moves: u32,
}

/// What these lines tell, with at least so many moves and nodes, and the bytes after the last node.
fn read_body(alloc: Global, bytes: &[u8], least: u32) -> Result<(Body, &[u8]), HeadError>
    requires least { least ≤ 1 }
    ensures fits { IfOk result (λ found. BodyFits least found.0) }
    ensures text { IfOk result (λ found. bytes.now ≡ text_of (body_lines found.0) ++ found.1.now) }
    ensures refused { IfErr result (IsSectionFault (IsBodyLines least) bytes.now) }
    ensures within { IfErr result (IsUpTo (BODY_LINES + MAX_NODES)) }
{
    let (kind, board, rest) = read_board(alloc, bytes)?;
    let Some((moves, rest)) = number_line(rest, b"moves ", least, MAX_MOVES) else {
        return Err(HeadError::BadLine(HEAD_LINES + 1));
    };
    let Some((count, rest)) = number_line(rest, b"nodes ", least, MAX_NODES) else {
        return Err(HeadError::BadLine(HEAD_LINES + 2));
    };
    let (table, rest) = match node_lines(alloc, rest, count, board.width(), board.height()) {
        Ok(found) => found,
        Err(error) => return Err(error.after(BODY_LINES)),
    };
    let body = Body {
        kind,
        board,
        table,
        moves,
    };
    Ok((body, rest))
}

/// The table that is entered at this root, which names only nodes of the table.
fn finish(body: Body, root: Root) -> Result<TableFile, FileError>
    requires below { root_below root (length body.table) ≡ true }
    ensures finished { IfOk result (IsFinished body root) }
    ensures refused { IfErr result (IsFinishFault body root) }
{
    let Body {
        kind,
        board,
        table,
        moves,
    } = body;
    if let Some(why) = refusal(kind, &board) {
        return Err(FileError::Unlawful(why));
    }
    let counted = table.root_depth(&root)?;
    if counted != moves {
        return Err(FileError::WrongMoves {
            written: moves,
            counted,
        });
    }
    Ok(TableFile {
        kind,
        board,
        table,
        root,
        moves,
    })
}

/// The table of version 1, whose root is its last node, that the bytes after the first line are the text of.
fn read_attack(alloc: Global, bytes: &[u8]) -> Result<TableFile, FileError>
    ensures text { IfOk result (λ file. IsTextOfTable file
        (codes "renju-table 1" ++ line_feed ∷ bytes.now)) }
    ensures lawful { IfOk result (λ file. IsPosition file.kind file.board) }
    ensures moves { IfOk result (λ file. file.moves ≡ root_depth file.table file.root) }
    ensures refused { IfErr result (IsTableFault (codes "renju-table 1" ++ line_feed ∷ bytes.now)) }
{
    let (body, rest) = match read_body(alloc, bytes, 1) {
        Ok(found) => found,
        Err(error) => return Err(FileError::from(error.after(FIRST_LINES))),
    };
    let len = body.table.len();
    if !rest.is_empty() {
        return Err(FileError::BadLine(FIRST_LINES + BODY_LINES + len + 1));
    }
    finish(body, Root::Attack(len - 1))
}

/// The table of version 2, whose root is a start, that the bytes after the first line are the text of.
fn read_defend(alloc: Global, bytes: &[u8]) -> Result<TableFile, FileError>
    ensures text { IfOk result (λ file. IsTextOfTable file
        (codes "renju-table 2" ++ line_feed ∷ bytes.now)) }
    ensures lawful { IfOk result (λ file. IsPosition file.kind file.board) }
    ensures moves { IfOk result (λ file. file.moves ≡ root_depth file.table file.root) }
    ensures refused { IfErr result (IsTableFault (codes "renju-table 2" ++ line_feed ∷ bytes.now)) }
{
    let (body, rest) = match read_body(alloc, bytes, 0) {
        Ok(found) => found,
        Err(error) => return Err(FileError::from(error.after(FIRST_LINES))),
    };
    let len = body.table.len();
    let lines = FIRST_LINES + BODY_LINES + len;
    let (start, rest) = match read_start(
        alloc,
        rest,
        len,
        body.board.width(),
        body.board.height(),
    ) {
        Ok(found) => found,
        Err(error) => return Err(FileError::from(error.after(lines))),
    };
    if !rest.is_empty() {
        return Err(FileError::BadLine(lines + 1 + 1));
    }
    finish(body, Root::Defend(start))
}

/// The table that the bytes are the text of. A bad line is named first, then why the board is no lawful position, and then both
/// numbers of moves, where the one that is written is not the depth of the root.
pub fn read_table(alloc: Global, bytes: &[u8]) -> Result<TableFile, FileError>
    ensures found { IfOk result (λ file. IsTextOfTable file bytes.now) }
    ensures only { IfOk result (λ file. (other : TableFile)
        → IsTextOfTable other bytes.now → other ≡ file) }
    ensures lawful { IfOk result (λ file. IsPosition file.kind file.board) }
    ensures moves { IfOk result (λ file. file.moves ≡ root_depth file.table file.root) }
    ensures refused { IfErr result (IsTableFault bytes.now) }
{
    if let Some(rest) = after(bytes, b"renju-table 1\n") {
        return read_attack(alloc, rest);
    }
    if let Some(rest) = after(bytes, b"renju-table 2\n") {
        return read_defend(alloc, rest);
    }
    Err(FileError::BadLine(1))
}
