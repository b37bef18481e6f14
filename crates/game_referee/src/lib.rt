//! A referee of whole games: how one ended, and whether it was played by a table.
//!
//! A game is a position and the moves that are played from it, in order. The verdict names the first move after which the
//! game does not go on. Beside a table that is accepted at the position, the replay names the first move at which the side
//! of the table left it. A game that follows the table to its end was not lost by that side.
#![tactic(auto)]

mod judging;
mod laws;
mod replaying;
mod written;

use game_rules::{Foul, Side};
pub use judging::judge;
pub use laws::{follower_never_loses, game_goes_by_table};
pub use replaying::replay;
pub use written::{foul_word, write_verdict};

/// What is said of a whole game. The moves are counted from 1.
#[derive(Clone, Copy, Debug, PartialEq, Eq)]
pub enum GameVerdict {
    /// The game goes on after its last move. It has so many moves.
    Open(u32),
    /// This move is on no empty point, and each move before it goes on.
    Illegal(u32),
    /// This move comes after the end of the game.
    AfterEnd(u32),
    /// The side wins with this move, which is the last.
    Won(Side, u32),
    /// This move, which is the last, is a foul: whoever played it loses.
    Fouled(Foul, u32),
    /// This move, which is the last, takes the last empty point.
    Drawn(u32),
}

/// Whether a game was played by a table. The moves are counted from 1.
#[derive(Clone, Copy, Debug, PartialEq, Eq)]
pub enum ReplayAnswer {
    /// Each move of the side of the table is the one that the table plays, as long as the game goes on.
    Follows,
    /// This move is the first of that side that is another one.
    Departs(u32),
}
