//! The texts of positions, of tables and of games: read, and but for games written.
//!
//! A text is a list of lines, each ended by a line feed, and each value has one spelling: `specs/Positions.antt`,
//! `specs/Tables.antt` and `specs/Games.antt` give it. The readers go over the lines once. A line is bad where no text has it after the lines
//! before it. What other texts hold as well, as a head or the lines of nodes, is a section: it is read from its own
//! front, where its lines are counted from 1, and it is written behind a text.
#![tactic(auto)]

mod answers;
mod boards;
mod error;
mod fronts;
mod games;
mod laws;
mod lines;
mod nodes;
mod positions;
mod sections;
mod tables;
mod words;
mod writers;
mod written;

pub use error::{FileError, GameError, HeadError};
use game_rules::RuleKind;
pub use games::read_game;
pub use laws::{
    games_read_back, positions_read_back, sections_name_first_bad_lines, sections_read_back,
    tables_read_back,
};
pub use positions::read_position;
pub use sections::{HEAD_LINES, Head, read_head, read_nodes, read_start};
use stone_board::{Board, Points};
use strategy_graph::{Root, Table};
pub use tables::read_table;
pub use writers::{push_nodes, push_start, write_position, write_table};
pub use written::push_head;

/// The most moves that a table says it needs.
pub const MAX_MOVES: u32 = 1_000_000;

/// The lines before the head of a text: the one that says what the text is.
pub(crate) const FIRST_LINES: u32 = 1;

/// A position as a file has it: the rule and the board, which is a lawful position under that rule.
#[derive(Drop)]
pub struct PositionFile {
    pub kind: RuleKind,
    pub board: Board,
}

/// A table as a file has it: the rule, the board at which it is entered, which is a lawful position under that rule, the
/// table with its root, and the depth of the root.
#[derive(Drop)]
pub struct TableFile {
    pub kind: RuleKind,
    pub board: Board,
    pub table: Table,
    pub root: Root,
    pub moves: u32,
}

/// A game as a file has it: the rule, the board at which it begins, which is a lawful position under that rule, and the moves
/// in order of play, each at a point of the board. The moves need not be legal.
#[derive(Drop)]
pub struct GameFile {
    pub kind: RuleKind,
    pub board: Board,
    pub moves: Points,
}
