//! The brain: what it answers to one command of the Gomocup protocol after another.
//!
//! The brain keeps a board, the game on it and what it follows there: a node of the table that it holds, or the table of a win
//! by continuous fours that it found itself. Where it follows nothing its move is a plain one. `specs/` has its state and its
//! step as a function over plain values, row by row; `Brain::step` gives what this function says.
#![tactic(auto)]

mod batch;
mod brain;
mod choice;
mod game;
mod guide;
mod laws;
mod moves_on_board;
mod own_win;
mod plain_move;
mod session_board;
mod sessions;
mod under_rule;

pub use batch::BatchStone;
pub use brain::Brain;
use game_rules::MAX_SIDE;
use gomocup_text::Answer;
pub use laws::{
    held_games_go_well, held_lines_win, legal_replies_are_answered, own_games_go_well,
    replies_are_answered_in_bytes, roots_begin_games, sessions_are_drawn, sessions_go_well,
    starts_are_tight, turn_lines_are_read, whoever_holds_wins,
};
pub use sessions::{ServeError, serve};

/// The most moves within which the brain searches a win of its own.
pub const OWN_MOVES: u32 = 6;

/// The most positions that such a search may look at.
pub const OWN_POSITIONS: u64 = 2_000;

/// The most arrivals that a table may have which a brain is to hold.
pub const BRAIN_WORK: u64 = 2_000_000;

/// The most points that a board has, and so the most stones of a batch and the most moves of a game.
pub const MAX_POINTS: usize = MAX_SIDE as usize * MAX_SIDE as usize;

/// What the brain does at a command: it says nothing, it says something, or the session ends.
#[derive(Clone, Copy, Debug, PartialEq, Eq)]
pub enum Reaction {
    Silent,
    Says(Answer),
    Ends,
}
