//! The words of the Gomocup protocol: lines of a manager to commands, answers of a brain to lines.
//!
//! A line is read whole: its carriage return and the gaps at its ends are dropped, its first word says which command it
//! is, and what follows has to be the numbers that the command takes. An answer is one line, which stands in the value
//! itself. No call here takes memory. Source: the Gomocup (Piskvork) AI protocol.
#![tactic(auto)]

mod numbers;
mod reading;
mod words;
mod writing;

pub use game_rules::Point;
pub use reading::read_command;
pub use writing::{AnswerText, write_answer};

/// The most digits that a number of a command may have.
pub const MAX_DIGITS: usize = 9;

/// The most bytes that an answer has.
pub const MAX_ANSWER_BYTES: usize = 64;

/// A command of the manager.
#[derive(Clone, Copy, Debug, PartialEq, Eq)]
pub enum Command {
    /// `START N`: a square board.
    Start(u32),
    /// `RECTSTART W,H`: a board by its width and height.
    RectStart(u32, u32),
    /// `BEGIN`: the brain moves first.
    Begin,
    /// `TURN X,Y`: the opponent moves.
    Turn(u32, u32),
    /// `BOARD`: stones follow.
    Board,
    /// `X,Y,F`: a stone, with the field that says whose it is.
    Stone(u32, u32, u32),
    /// `DONE`: no more stones follow.
    Done,
    /// `RESTART`: a new game on a board of the same size.
    Restart,
    /// `TAKEBACK X,Y`: the last move is undone.
    Takeback(u32, u32),
    /// `INFO rule N`: the rule that is wished for.
    Rule(u32),
    /// `INFO` and anything else.
    Info,
    /// `ABOUT`: who the brain is.
    About,
    /// `END`: the session ends.
    End,
    /// Nothing.
    Blank,
    /// A line that is too long, or the word of a command in another form.
    Malformed,
    /// Anything else.
    Unknown,
}

/// An answer of the brain.
#[derive(Clone, Copy, Debug, PartialEq, Eq)]
pub enum Answer {
    /// The board is set up, or a move is taken back.
    Ok,
    /// The brain's move.
    Move(Point),
    /// Who the brain is.
    About,
    /// Why a command is not carried out, or how the game has ended.
    Error(ErrorText),
    /// The line is no command that the brain knows.
    Unknown,
}

/// The words of an error, as they are written.
#[derive(Clone, Copy, Debug, PartialEq, Eq)]
pub enum ErrorText {
    /// A side of the board is out of its range.
    UnsupportedSize,
    /// There is no board yet.
    NoBoard,
    /// No stones are being read.
    NotReading,
    /// The rule wished for is none that the brain plays.
    UnsupportedRule,
    /// The stones make no lawful position.
    BadBoard,
    /// The command is in another form than it has.
    BadArguments,
    /// The game has begun.
    GameStarted,
    /// The game has ended.
    GameOver,
    /// It is the brain's turn.
    WrongTurn,
    /// The point is none, or is occupied, or is not the last move.
    BadMove,
    /// The opponent has won.
    GameLost,
    /// The opponent's move is a foul.
    OpponentFoul,
    /// The board is full.
    GameDrawn,
}
